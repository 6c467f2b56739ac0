//! The plainest machine: bytes are written, and what comes for them is read.

ghost use Rattle.std.specs.Prelude.{◌≡◌, ◌-◌, ◌++◌, ◌∷◌, [], length, false, OnOk};
ghost use Rattle.ws_machines.specs.Exchanges.{ExchangeValue, IsExchanged};
ghost use Rattle.ws_machines.specs.Machines.{MayBeTold, told_at};
ghost use Rattle.ws_machines.specs.Told.{came_by, taken_by};

use crate::machine::Machine;
use crate::stream::StreamEvent;
use std::alloc::Global;
use std::marker::Model;
use ws_base::NoMemory;

/// Writes bytes and reads what comes, to the end of the stream or at most so many bytes. It is over too where a read or
/// a write fails, or nothing comes in time.
#[derive(Drop)]
pub struct Exchange {
    bytes: Vec<u8>,
    written: usize,
    got: Vec<u8>,
    left: usize,
    is_over: bool,
}

impl Model for Exchange {
    ghost use Rattle.std.specs.Prelude.{drop};
    ghost use Rattle.ws_machines.specs.Exchanges.{ExchangeValue};

    ghost Value = { ExchangeValue };

    ghost view = { λ x. record {
      rest = drop x.written x.bytes.items;
      got = x.got.items;
      left = x.left;
      over = x.is_over;
    } };
}

impl Exchange {
    /// Is to write these bytes, and to read at most so many.
    pub fn new(alloc: Global, bytes: Vec<u8>, most: usize) -> Exchange
        ensures rest { result.rest ≡ bytes.items }
        ensures got { result.got ≡ [] }
        ensures left { result.left ≡ most }
        ensures over { result.over ≡ false }
        ensures begins { IsExchanged result result [] }
    {
        Exchange {
            bytes,
            written: 0,
            got: Vec::new(alloc),
            left: most,
            is_over: false,
        }
    }

    /// These bytes came.
    fn on_came(&mut self, piece: &[u8]) -> Result<(), NoMemory>
        ensures rest { OnOk result (self.new.rest ≡ self.old.rest) }
        ensures got { OnOk result (self.new.got ≡ self.old.got ++ piece.now) }
        ensures left { OnOk result (self.new.left ≡ self.old.left - length piece.now) }
        ensures over { OnOk result (self.new.over ≡ self.old.over) }
    {
        self.got.extend_from_slice(piece)?;
        self.left = self.left.saturating_sub(piece.len());
        Ok(())
    }
}

impl Machine for Exchange {
    ghost use Rattle.ws_machines.specs.Exchanges.{IsExchanged, exchange_gives, left_in, wanted_by};

    type End = Vec<u8>;

    ghost agrees = { λ start now told. IsExchanged start now told };

    ghost wants = { λ now. wanted_by now };

    ghost left = { λ now. left_in now };

    ghost gives = { λ start told end. exchange_gives start told end.items };

    fn to_write(&self) -> &[u8] {
        self.bytes.get(self.written..).unwrap_or(&[])
    }

    fn to_report(&self) -> &[u8] {
        &[]
    }

    fn room(&self) -> usize {
        self.left
    }

    fn wants_end(&self) -> bool {
        false
    }

    fn waits_anew(&self) -> bool {
        true
    }

    fn is_done(&self) -> bool {
        self.is_over || self.left == 0
    }

    fn on_event(&mut self, event: StreamEvent<'_>) -> Result<(), NoMemory> {
        match event {
            StreamEvent::Came(piece) => self.on_came(piece)?,
            StreamEvent::Taken(count) => self.written += count,
            StreamEvent::DirectionEnded | StreamEvent::Reported => {}
            StreamEvent::Ended
            | StreamEvent::ReadFailed
            | StreamEvent::NothingCame
            | StreamEvent::WriteFailed
            | StreamEvent::DeadlinePassed(_) => self.is_over = true,
        }
        Ok(())
    }

    fn into_end(self) -> Result<Vec<u8>, NoMemory> {
        let Exchange { got, .. } = self;
        Ok(got)
    }
}
