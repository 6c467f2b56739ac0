//! Which cases have a row beside others, and how many.

ghost use Rattle.std.specs.Prelude.{◌≡◌, ◌≤◌, ◌++◌, IfOk, length, map, not, string_bytes};
ghost use Rattle.std.specs.List.{count_by};
ghost use Rattle.ws_runs.specs.Names.{is_among};
ghost use Rattle.ws_runs.specs.Rows.{are_cut_off, others_listed, row_ids};
ghost use Rattle.ws_runs.specs.Views.{texts_now};

use crate::peer::Peer;
use crate::runs::Runs;
use std::alloc::Global;
use ws_base::NoMemory;

/// The rows: the cases that have a result, and after them the other listed ones, if no run was whole.
pub fn row_ids<'a>(
    alloc: Global,
    runs: &Runs<'a>,
    listed: &'a [String],
) -> Result<Vec<&'a [u8]>, NoMemory>
    ensures { IfOk result (λ rows. texts_now rows.items ≡ row_ids runs.now (map string_bytes listed.now)) }
{
    let mut rows = runs.ids().to_vec(alloc)?;
    if are_cut_off(runs.peers()) {
        push_listed(runs.ids(), listed, &mut rows)?;
    }
    Ok(rows)
}

/// How many rows there are.
pub(crate) fn count_rows(runs: &Runs<'_>, listed: &[String]) -> usize
    ensures { result ≡ length (row_ids runs.now (map string_bytes listed.now)) }
{
    let count = runs.ids().len();
    if !are_cut_off(runs.peers()) {
        return count;
    }
    count + count_others(runs.ids(), listed)
}

/// How many of the listed cases are none of these.
fn count_others(ids: &[&[u8]], listed: &[String]) -> usize
    ensures count { result ≡ count_by (λ name. not (is_among name (texts_now ids.now))) (map string_bytes listed.now) }
    ensures some { result ≤ length listed.now }
{
    let mut count = 0;
    for name in listed {
        if !is_among(name.as_bytes(), ids) {
            count += 1;
        }
    }
    count
}

/// Whether there are peers, and the run of each was cut off.
fn are_cut_off(peers: &[Peer<'_>]) -> bool
    ensures { result ≡ are_cut_off peers.now }
{
    for peer in peers {
        if !peer.is_cut_off() {
            return false;
        }
    }
    !peers.is_empty()
}

/// Appends the listed cases that are none of these.
fn push_listed<'a>(
    ids: &[&'a [u8]],
    listed: &'a [String],
    rows: &mut Vec<&'a [u8]>,
) -> Result<(), NoMemory>
    ensures { IfOk result (λ _. texts_now rows.new.items
        ≡ texts_now rows.old.items ++ others_listed (texts_now ids.now) (map string_bytes listed.now)) }
{
    for name in listed {
        if !is_among(name.as_bytes(), ids) {
            rows.push(name.as_bytes())?;
        }
    }
    Ok(())
}

/// Whether a name is one of these.
fn is_among(name: &[u8], ids: &[&[u8]]) -> bool
    ensures { result ≡ is_among name.now (texts_now ids.now) }
{
    for id in ids {
        if *id == name {
            return true;
        }
    }
    false
}
