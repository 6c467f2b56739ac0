//! The times before which nothing is due in the places of a loop, and the soonest of them.

ghost use Rattle.std.specs.Prelude.{◌≡◌, ◌+◌, ◌*◌, ◌<◌, length, true, false, Some, IfOk, slice_get, slice_set};
ghost use Rattle.ws_loops.specs.Limits.{IsRaised, IsSoonest, IsTree};

use crate::slot::sooner;
use std::alloc::Global;
use ws_base::NoMemory;

/// The time of each place, and a tree over them: the times are its leaves, behind as many other nodes, and each node
/// but the first, which isn't used, has the sooner of the two at twice its number and behind that. So the soonest of
/// all is at 1, and a change costs as many steps as the tree is deep, or fewer where a node keeps its time.
#[derive(Drop)]
pub(crate) struct Limits {
    pub(crate) times: Vec<Option<u64>>,
    pub(crate) tree: Vec<Option<u64>>,
}

/// Those of so many places: there are none.
pub(crate) fn new_limits(alloc: Global, len: usize) -> Result<Limits, NoMemory>
    ensures len { IfOk result (λ made. length made.times.items ≡ len) }
    ensures tree { IfOk result (λ made. IsTree made) }
{
    let mut times = Vec::new(alloc);
    let mut tree = Vec::new(alloc);
    while times.len() < len {
        times.push(None)?;
        tree.push(None)?;
        tree.push(None)?;
    }
    Ok(Limits { times, tree })
}

/// The soonest of all times, if there is one.
pub(crate) fn soonest(limits: &Limits) -> Option<u64>
    requires tree { IsTree limits.now }
    ensures { IsSoonest limits.now.times.items result }
{
    if limits.tree.len() < 2 {
        return None;
    }
    time_at(limits.tree.as_slice(), 1)
}

/// Before this time, if there is one, nothing is due in this place.
pub(crate) fn set_limit(limits: &mut Limits, at: usize, time: Option<u64>)
    requires at { at < length limits.old.times.items }
    requires tree { IsTree limits.old }
    ensures set { limits.new.times.items ≡ slice_set limits.old.times.items at time }
    ensures tree { IsTree limits.new }
{
    limits.times[at] = time;
    let mut node = limits.times.len() + at;
    limits.tree[node] = time;
    while node > 1 {
        node /= 2;
        if !raise(&mut limits.tree, node) {
            return;
        }
    }
}

/// A node gets the sooner of the two below it. Answers whether it had another time before.
fn raise(tree: &mut Vec<Option<u64>>, node: usize) -> bool
    requires { 2 * node + 1 < length tree.old.items }
    ensures raised { IsRaised node tree.old.items tree.new.items }
    ensures kept { result ≡ false → tree.new.items ≡ tree.old.items }
{
    let one = time_at(tree.as_slice(), 2 * node);
    let other = time_at(tree.as_slice(), 2 * node + 1);
    let time = sooner(one, other);
    let before = time_at(tree.as_slice(), node);
    if is_same(before, time) {
        return false;
    }
    tree[node] = time;
    true
}

/// Whether both times are the same, or there is none.
fn is_same(one: Option<u64>, other: Option<u64>) -> bool
    ensures { result ≡ true → one ≡ other }
{
    match (one, other) {
        (None, None) => true,
        (Some(one), Some(other)) => one == other,
        (None, Some(_)) | (Some(_), None) => false,
    }
}

/// The time of a node.
fn time_at(tree: &[Option<u64>], node: usize) -> Option<u64>
    requires { node < length tree.now }
    ensures { slice_get tree.now node ≡ Some result }
{
    tree[node]
}
