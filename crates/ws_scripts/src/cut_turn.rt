//! A turn as it is sent: its bytes, held once, and where they are cut into pieces.

ghost use Rattle.std.specs.Prelude.{◌≡◌, ◌+◌, ◌-◌, ◌<◌, ◌≤◌, [], drop, get_or, length, take, List, ℕ};
ghost use Rattle.std.specs.List.{concat};
ghost use Rattle.ws_scripts.specs.InnerCutting.{AreEndsOf, IsCutEvery};

use std::alloc::Global;
use std::marker::Model;
use ws_base::Sequence;

/// The bytes of a turn, and where they are cut into pieces, none of which is empty. The bytes are held once, and not
/// again for each piece. Contracts see the pieces.
#[derive(Drop)]
pub struct CutTurn {
    bytes: Vec<u8>,
    cut: Cut,
}

/// Where bytes are cut.
#[derive(Drop)]
enum Cut {
    /// After each so many bytes.
    Every(usize),
    /// At each of these places: the last one is where the bytes end.
    At(Sequence<usize>),
}

impl Model for CutTurn {
    ghost use Rattle.std.specs.Prelude.{List, ℕ};
    ghost use Rattle.ws_scripts.specs.InnerCutting.{IsCut, pieces_of};

    ghost Value = { List (List ℕ) };

    ghost view = { λ x. pieces_of x.cut x.bytes.items };

    ghost invariant = { λ x. IsCut x.cut x.bytes.items };
}

impl CutTurn {
    /// A turn without pieces.
    pub fn none(alloc: Global) -> CutTurn
        ensures { result ≡ [] }
    {
        CutTurn::every(Vec::new(alloc), 1)
    }

    /// Bytes that are cut after each so many of them.
    pub(crate) fn every(bytes: Vec<u8>, count: usize) -> CutTurn
        requires { 0 < count }
        ensures { IsCutEvery count bytes.items result }
    {
        CutTurn {
            bytes,
            cut: Cut::Every(count),
        }
    }

    /// Bytes that are cut at these places.
    pub(crate) fn at(bytes: Vec<u8>, ends: Vec<usize>) -> CutTurn
        requires { (pieces : List (List ℕ)) × AreEndsOf pieces bytes.items ends.items }
        ensures { (pieces : List (List ℕ)) → AreEndsOf pieces bytes.items ends.items → result ≡ pieces }
    {
        CutTurn {
            bytes,
            cut: Cut::At(Sequence::from_vec(ends)),
        }
    }

    /// How many pieces there are.
    pub fn len(&self) -> usize
        ensures { result ≡ length self.now }
    {
        match &self.cut {
            Cut::Every(count) => self.bytes.len().div_ceil(*count),
            Cut::At(ends) => ends.len(),
        }
    }

    /// The piece of this number, counted from 0: no bytes where there is none.
    pub fn piece(&self, number: usize) -> &[u8]
        ensures { result.now ≡ get_or self.now number [] }
    {
        part(self.bytes.as_slice(), self.start(number), self.end(number))
    }

    /// The bytes of the first pieces, so many of them.
    pub fn into_first(self, count: usize) -> Vec<u8>
        ensures { result.items ≡ concat (take count self) }
    {
        let end = self.start(count);
        let Self { mut bytes, .. } = self;
        bytes.truncate(end);
        bytes
    }

    /// Where a piece begins: how many bytes stand before it.
    fn start(&self, number: usize) -> usize
        ensures { result ≡ length (concat (take number self.now)) }
    {
        match number.checked_sub(1) {
            Some(before) => self.end(before),
            None => 0,
        }
    }

    /// Where a piece ends: how many bytes there are up to its last one. Where there is no such piece, it is how many
    /// there are in all.
    fn end(&self, number: usize) -> usize
        ensures { result ≡ length (concat (take (number + 1) self.now)) }
    {
        let all = self.bytes.len();
        match &self.cut {
            Cut::Every(count) => number
                .saturating_mul(*count)
                .saturating_add(*count)
                .min(all),
            Cut::At(ends) => end_of(ends.as_slice(), number, all),
        }
    }
}

/// The bytes from a place to another.
fn part(bytes: &[u8], start: usize, end: usize) -> &[u8]
    requires order { start ≤ end }
    requires within { end ≤ length bytes.now }
    ensures { result.now ≡ take (end - start) (drop start bytes.now) }
{
    &bytes[start..end]
}

/// The end of this number, or of all where there is no such end.
fn end_of(ends: &[usize], number: usize, all: usize) -> usize
    ensures { result ≡ get_or ends.now number all }
{
    if number < ends.len() {
        return ends[number];
    }
    all
}
