//! A client that is left: what it still sends is read and dropped for a while. A socket that is closed over bytes which
//! were not read is reset, and a client that still sends could lose the last bytes sent to it.

ghost use Rattle.std.specs.Prelude.{◌≡◌, [], false};
ghost use Rattle.ws_clients.specs.Leaving.{WasLeft};

use std::marker::Model;
use ws_base::NoMemory;
use ws_machines::{Machine, StreamEvent};

/// At most so many bytes are dropped.
const MAX_DROPPED: usize = 16_777_216;

/// Reads and drops what comes, until the stream ends or fails, or the time for it is over, or enough was dropped.
#[derive(Drop)]
pub struct Leaver {
    left: usize,
    is_over: bool,
}

impl Model for Leaver {
    ghost use Rattle.ws_clients.specs.Leaving.{LeaveValue};

    ghost Value = { LeaveValue };

    ghost view = { λ x. record { left = x.left; over = x.is_over } };
}

impl Leaver {
    /// Nothing was dropped yet.
    pub fn new() -> Leaver
        ensures left { result.left ≡ 16777216 }
        ensures over { result.over ≡ false }
        ensures told { WasLeft result result [] }
    {
        Leaver {
            left: MAX_DROPPED,
            is_over: false,
        }
    }
}

impl Machine for Leaver {
    ghost use Rattle.std.specs.Prelude.{⊤};
    ghost use Rattle.ws_clients.specs.Leaving.{WasLeft, leave_left, wanted_to_leave};

    type End = ();

    ghost agrees = { λ start now told. WasLeft start now told };

    ghost wants = { λ now. wanted_to_leave now };

    ghost left = { λ now. leave_left now };

    ghost gives = { λ start told end. ⊤ };

    fn to_write(&self) -> &[u8] {
        &[]
    }

    fn to_report(&self) -> &[u8] {
        &[]
    }

    fn room(&self) -> usize {
        self.left
    }

    fn wants_end(&self) -> bool {
        false
    }

    fn waits_anew(&self) -> bool {
        false
    }

    fn is_done(&self) -> bool {
        self.is_over || self.left == 0
    }

    fn on_event(&mut self, event: StreamEvent<'_>) -> Result<(), NoMemory> {
        match event {
            StreamEvent::Came(piece) => self.left = self.left.saturating_sub(piece.len()),
            StreamEvent::Taken(_) | StreamEvent::DirectionEnded | StreamEvent::Reported => {}
            StreamEvent::Ended
            | StreamEvent::ReadFailed
            | StreamEvent::NothingCame
            | StreamEvent::WriteFailed
            | StreamEvent::DeadlinePassed(_) => self.is_over = true,
        }
        Ok(())
    }

    fn into_end(self) -> Result<(), NoMemory> {
        Ok(())
    }
}
