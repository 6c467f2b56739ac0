//! The first bytes of a direction, in which its head is looked for.

ghost use Rattle.std.specs.Prelude.{◌≡◌, ◌≤◌, ◌+◌, ◌++◌, [], ℕ, List, IfOk, length, take};
ghost use Rattle.ws_tap.specs.Telling.{LooksIn, LooksFor};

use crate::head_line::HeadLine;
use crate::heads::{Head, MAX_HEAD, find_head};
use crate::tapped::TappedEnd;
use std::alloc::Global;
use std::marker::Model;
use ws_base::NoMemory;

/// A head that is whole with the first bytes of a piece.
#[derive(Drop)]
pub(crate) struct HeadFound {
    pub(crate) head: Head,
    /// The line that tells of it.
    pub(crate) line: HeadLine,
    /// How many bytes of the piece belong to it.
    pub(crate) used: usize,
}

/// The first bytes of a direction, at most as many as a head has: contracts see their list. They lie in memory that is
/// taken at first, so that none lacks later.
#[derive(Drop)]
pub(crate) struct HeadRoom {
    bytes: Vec<u8>,
}

impl Model for HeadRoom {
    ghost use Rattle.std.specs.Prelude.{◌≤◌, List, ℕ, vec_capacity, vec_len};

    ghost Value = { List ℕ };

    ghost view = { λ room. room.bytes.items };

    ghost invariant = { λ room. (vec_len room.bytes ≤ 8192) × (8192 ≤ vec_capacity room.bytes) };
}

impl HeadRoom {
    /// No bytes.
    pub(crate) fn new(alloc: Global) -> Result<HeadRoom, NoMemory>
        ensures { IfOk result (λ made. made ≡ []) }
    {
        let bytes = Vec::with_capacity(alloc, MAX_HEAD)?;
        Ok(HeadRoom { bytes })
    }

    /// The bytes.
    fn as_slice(&self) -> &[u8]
        ensures bytes { result.now ≡ self.now }
        ensures bound { length result.now ≤ 8192 }
    {
        self.bytes.as_slice()
    }

    /// How many bytes there are.
    fn len(&self) -> usize
        ensures count { result ≡ length self.now }
        ensures bound { result ≤ 8192 }
    {
        self.bytes.len()
    }

    /// More bytes come: of all that come so the first are kept.
    fn fill(&mut self, more: &[u8])
        ensures { self.new ≡ take 8192 (self.old ++ more.now) }
    {
        let room = MAX_HEAD - self.len();
        self.push(&more[..room.min(more.len())]);
    }

    /// Puts more bytes behind these, all of which fit.
    fn push(&mut self, more: &[u8])
        requires { length self.old + length more.now ≤ 8192 }
        ensures { self.new ≡ self.old ++ more.now }
    {
        if self.bytes.extend_from_slice(more).is_err() {
            unreachable!()
        }
    }
}

/// More bytes come: the head, if it is whole with some of them. Of all that come the first are kept, in which a head is
/// looked for.
pub(crate) fn look_for_head(room: &mut HeadRoom, end: TappedEnd, piece: &[u8]) -> Option<HeadFound>
    requires { (bytes : List ℕ) × LooksIn end.role room.old bytes }
    ensures { LooksFor end.role end.tapped room.old room.new piece.now result }
{
    let before = room.len();
    room.fill(piece);
    let head = find_head(end.role, room.as_slice())?;
    let line = HeadLine::of(end, &room.as_slice()[..head.len]);
    Some(HeadFound {
        head,
        line,
        used: head.len - before,
    })
}
