//! Streams that don't wait: each call does what can be done at once, or answers that nothing can.

ghost use Rattle.std.specs.Prelude.{◌≡◌, ◌<◌, ◌≤◌, ◌∷◌, [], List, ℕ, length, MatchOption, IfSome};
ghost use Rattle.ws_machines.specs.Machines.{Wants, WasWanted, told_at};
ghost use Rattle.ws_machines.specs.Told.Told.{DirectionEnded};
ghost use Rattle.ws_loops.specs.Deeds.{FitsTryRead, FitsTryWrite, HasDone, moved_by, read_deed, try_write_event};
ghost use Rattle.ws_loops.specs.Deeds.{told_by, write_deed};
ghost use Rattle.ws_loops.specs.Deeds.Deed.{Did, HadNone};

use ws_machines::StreamEvent;

/// What came of a read that doesn't wait.
#[derive(Clone, Copy)]
pub enum TryRead {
    /// So many bytes came.
    Came(usize),
    /// The stream has ended.
    Ended,
    /// The read has failed.
    Failed,
    /// Nothing has come.
    NotReady,
}

/// What came of a write that doesn't wait.
#[derive(Clone, Copy)]
pub enum TryWrite {
    /// So many bytes were taken.
    Taken(usize),
    /// The write has failed.
    Failed,
    /// Nothing can be taken.
    NotReady,
}

impl TryRead {
    /// It, as a machine is told of it, if it is: what came is the front of the room.
    pub(crate) fn event(self, room: &[u8]) -> Option<StreamEvent<'_>>
        requires { FitsTryRead (length room.now) self }
        ensures told { (wants : Wants) → MatchOption result (read_deed room.now self ≡ HadNone)
            (λ event. told_by (read_deed room.now self) ≡ told_at wants event ∷ []) }
        ensures wanted { (wants : Wants) → 0 < wants.room → length room.now ≤ wants.room →
            IfSome result (λ event. WasWanted wants event) }
    {
        match self {
            TryRead::Came(count) => Some(StreamEvent::Came(&room[..count])),
            TryRead::Ended => Some(StreamEvent::Ended),
            TryRead::Failed => Some(StreamEvent::ReadFailed),
            TryRead::NotReady => None,
        }
    }

    /// How many bytes came.
    pub(crate) fn count(self) -> usize
        ensures { (room : List ℕ) → FitsTryRead (length room) self → moved_by (read_deed room self) ≡ result }
    {
        match self {
            TryRead::Came(count) => count,
            TryRead::Ended | TryRead::Failed | TryRead::NotReady => 0,
        }
    }
}

impl TryWrite {
    /// It, as a machine is told of it, if it is.
    pub(crate) fn event(self) -> Option<StreamEvent<'static>>
        ensures { result ≡ try_write_event self }
    {
        match self {
            TryWrite::Taken(count) => Some(StreamEvent::Taken(count)),
            TryWrite::Failed => Some(StreamEvent::WriteFailed),
            TryWrite::NotReady => None,
        }
    }

    /// How many bytes were taken.
    pub(crate) fn count(self) -> usize
        ensures { (bytes : List ℕ) → FitsTryWrite (length bytes) self → moved_by (write_deed bytes self) ≡ result }
    {
        match self {
            TryWrite::Taken(count) => count,
            TryWrite::Failed | TryWrite::NotReady => 0,
        }
    }
}

/// A stream that doesn't wait.
pub trait NonBlocking {
    ghost use Rattle.std.specs.Prelude.{List};
    ghost use Rattle.ws_loops.specs.Deeds.{Deed};

    /// From the first state to the second one it did just this.
    ghost did: { Self → Self → List Deed → Type 0 };

    /// Reads the bytes that are there into the room: fewer than it holds where no more are.
    fn try_read(&mut self, room: &mut [u8]) -> TryRead
        requires { 0 < length room.old }
        ensures fits { FitsTryRead (length room.new) result }
        ensures len { length room.new ≡ length room.old }
        ensures did { HasDone did self.old self.new (read_deed room.new result ∷ []) };

    /// Writes a beginning of the bytes.
    fn try_write(&mut self, bytes: &[u8]) -> TryWrite
        requires { 0 < length bytes.now }
        ensures fits { FitsTryWrite (length bytes.now) result }
        ensures did { HasDone did self.old self.new (write_deed bytes.now result ∷ []) };

    /// Ends the own direction, while the other one goes on. It counts as ended also where that fails.
    fn end_direction(&mut self)
        ensures { HasDone did self.old self.new (Did DirectionEnded ∷ []) };
}
