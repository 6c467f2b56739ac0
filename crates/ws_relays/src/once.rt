//! What is asked of one end of a connection at a time, and the one thing that came of it.

ghost use Rattle.std.specs.Prelude.{◌≡◌, [], None};
ghost use Rattle.ws_relays.specs.Onces.{IsOnce, has_failed_so};

use std::alloc::Global;
use std::marker::Model;
use ws_base::NoMemory;
use ws_machines::{Machine, StreamEvent};

/// What came of it.
#[derive(Drop)]
pub(crate) enum Happened {
    /// These bytes came.
    Came(Vec<u8>),
    /// The end has ended its direction.
    Ended,
    /// It took so many of the bytes.
    Taken(usize),
    /// The direction to it was ended.
    DirectionEnded,
    /// A read or a write has failed, or a limit has passed.
    Failed,
}

impl Happened {
    /// Whether something has failed.
    pub(crate) fn is_failed(&self) -> bool
        ensures { result ≡ has_failed_so self.now }
    {
        match self {
            Happened::Failed => true,
            Happened::Came(_) | Happened::Ended | Happened::Taken(_) | Happened::DirectionEnded =>
                false,
        }
    }
}

/// What is asked of an end at a time: these bytes are to be written to it, at most so many are to be read from it, its
/// direction is to be ended. Once one thing has happened it is done.
#[derive(Drop)]
pub(crate) struct Once {
    alloc: Global,
    bytes: Vec<u8>,
    room: usize,
    ends: bool,
    happened: Option<Happened>,
}

impl Model for Once {
    ghost use Rattle.ws_relays.specs.Onces.{OnceValue};

    ghost Value = { OnceValue };

    ghost view = { λ x. record {
      bytes = x.bytes.items;
      room = x.room;
      ends = x.ends;
      happened = x.happened;
    } };
}

impl Once {
    /// This is asked, and nothing has happened yet.
    pub(crate) fn new(alloc: Global, bytes: Vec<u8>, room: usize, ends: bool) -> Once
        ensures bytes { result.bytes ≡ bytes.items }
        ensures room { result.room ≡ room }
        ensures ends { result.ends ≡ ends }
        ensures happened { result.happened ≡ None }
        ensures untold { IsOnce result result [] }
    {
        Once {
            alloc,
            bytes,
            room,
            ends,
            happened: None,
        }
    }
}

impl Machine for Once {
    ghost use Rattle.ws_relays.specs.Onces.{IsOnce, once_left, wanted_once, HappenedBy};

    type End = Happened;

    ghost agrees = { λ start now told. IsOnce start now told };

    ghost wants = { λ now. wanted_once now };

    ghost left = { λ now. once_left now };

    ghost gives = { λ start told end. HappenedBy told end };

    fn to_write(&self) -> &[u8] {
        self.bytes.as_slice()
    }

    fn to_report(&self) -> &[u8] {
        &[]
    }

    fn room(&self) -> usize {
        self.room
    }

    fn wants_end(&self) -> bool {
        self.ends
    }

    fn waits_anew(&self) -> bool {
        true
    }

    fn is_done(&self) -> bool {
        self.happened.is_some()
    }

    fn on_event(&mut self, event: StreamEvent<'_>) -> Result<(), NoMemory> {
        let happened = match event {
            StreamEvent::Came(piece) => Happened::Came(piece.to_vec(self.alloc)?),
            StreamEvent::Ended => Happened::Ended,
            StreamEvent::Taken(count) => Happened::Taken(count),
            StreamEvent::DirectionEnded => Happened::DirectionEnded,
            StreamEvent::ReadFailed
            | StreamEvent::NothingCame
            | StreamEvent::WriteFailed
            | StreamEvent::Reported
            | StreamEvent::DeadlinePassed(_) => Happened::Failed,
        };
        self.happened = Some(happened);
        Ok(())
    }

    fn into_end(self) -> Result<Happened, NoMemory> {
        let Once { happened, .. } = self;
        match happened {
            Some(happened) => Ok(happened),
            None => Ok(Happened::Failed),
        }
    }
}
