//! A head that is read piece by piece (RFC 6455 section 4), no further than it takes.

ghost use Rattle.std.specs.Prelude.{◌≡◌, ◌<◌, ◌++◌, [], length, IfOk, MatchOption};
ghost use Rattle.ws_upgrade.specs.Reading.{max_head};
ghost use Rattle.ws_handshake.specs.ReadingHeads.{IsUndecided, head_room};

use crate::head_decider::HeadDecider;
use std::alloc::Global;
use std::marker::Model;
use std::mem;
use ws_base::NoMemory;
use ws_upgrade::MAX_HEAD;

/// How many bytes one read asks for at most.
pub const HEAD_READ_SIZE: usize = 1024;

/// The bytes that were read for a head, as long as they decide nothing. Contracts see the list of them.
#[derive(Drop)]
pub(crate) struct HeadReading {
    bytes: Vec<u8>,
}

impl Model for HeadReading {
    ghost use Rattle.std.specs.Prelude.{◌<◌, List, ℕ, length};
    ghost use Rattle.ws_upgrade.specs.Reading.{max_head};

    ghost Value = { List ℕ };

    ghost view = { λ x. x.bytes.items };

    ghost invariant = { λ x. length x.bytes.items < max_head };
}

/// A head that is decided.
#[derive(Drop)]
pub(crate) struct DecidedHead<D> {
    /// What was read for it, and with its last piece.
    pub bytes: Vec<u8>,
    pub decision: D,
}

impl HeadReading {
    /// Nothing was read yet.
    pub fn new(alloc: Global) -> HeadReading
        ensures { result ≡ [] }
    {
        HeadReading {
            bytes: Vec::new(alloc),
        }
    }

    /// How many bytes are read next at most.
    pub fn room(&self) -> usize
        ensures { result ≡ head_room self.now }
    {
        HEAD_READ_SIZE.min(MAX_HEAD - self.bytes.len())
    }

    /// These bytes came. `None` where more are needed.
    pub fn on_came<D: HeadDecider>(
        &mut self,
        piece: &[u8],
        decider: &D,
    ) -> Result<Option<DecidedHead<D::Decision>>, NoMemory>
        ensures came { IfOk result (λ head. MatchOption head
            ((self.new ≡ self.old ++ piece.now) × IsUndecided (D.needs decider.now) self.new)
            (λ head. (head.bytes.items ≡ self.old ++ piece.now)
            × D.decides decider.now (self.old ++ piece.now) head.decision)) }
        ensures bound { length self.new < max_head }
    {
        let alloc = *self.bytes.allocator();
        let mut bytes = mem::replace(&mut self.bytes, Vec::new(alloc));
        bytes.extend_from_slice(piece)?;
        match decider.decide(bytes.as_slice()) {
            Some(decision) => Ok(Some(DecidedHead { bytes, decision })),
            None => {
                self.bytes = bytes;
                Ok(None)
            }
        }
    }
}
