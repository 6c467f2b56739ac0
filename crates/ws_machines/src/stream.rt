//! Streams: what happens on one, and what a loop asks of it.

ghost use Rattle.std.specs.Prelude.{◌≡◌, ◌<◌, ◌≤◌, ◌∷◌, [], length, OnOk};
ghost use Rattle.ws_machines.specs.Machines.{Extends, FitsRead, FitsWrite, KeepsTold, Wants, WasWanted, told_at};
ghost use Rattle.ws_machines.specs.Machines.{write_event};
ghost use Rattle.ws_machines.specs.Told.{told_by_read, told_by_write};
ghost use Rattle.ws_machines.specs.Told.Told.{DirectionEnded, Reported};

use ws_base::NoMemory;

/// What happened on the stream of a machine.
#[derive(Clone, Copy)]
pub enum StreamEvent<'a> {
    /// These bytes came.
    Came(&'a [u8]),
    /// The other end's stream has ended.
    Ended,
    /// A read has failed.
    ReadFailed,
    /// Nothing came for the time limit.
    NothingCame,
    /// So many of the bytes that were to be written were taken.
    Taken(usize),
    /// A write has failed, or nothing of it was taken for the time limit.
    WriteFailed,
    /// The own direction was ended.
    DirectionEnded,
    /// The lines that were to be reported were.
    Reported,
    /// The deadline has passed: whether the time limit since the last byte that was taken has too, or there is none.
    DeadlinePassed(bool),
}

/// What came of a read.
#[derive(Clone, Copy)]
pub enum ReadOutcome {
    /// So many bytes came.
    Came(usize),
    /// The stream has ended.
    Ended,
    /// The read has failed.
    Failed,
    /// Nothing came for the time limit.
    NothingCame,
    /// The deadline has passed, as `StreamEvent::DeadlinePassed` has it.
    DeadlinePassed(bool),
}

/// What came of a write.
#[derive(Clone, Copy)]
pub enum WriteOutcome {
    /// So many bytes were taken.
    Taken(usize),
    /// The write has failed, or nothing of it was taken for the time limit.
    Failed,
    /// The deadline has passed, as `StreamEvent::DeadlinePassed` has it.
    DeadlinePassed(bool),
}

impl ReadOutcome {
    /// It, as a machine is told of it: what came is the front of the room.
    pub(crate) fn event(self, room: &[u8]) -> StreamEvent<'_>
        requires { FitsRead (length room.now) self }
        ensures told { (wants : Wants) → told_at wants result ≡ told_by_read room.now self }
        ensures wanted { (wants : Wants) → 0 < wants.room → length room.now ≤ wants.room → wants.write ≡ [] →
            WasWanted wants result }
    {
        match self {
            ReadOutcome::Came(count) => StreamEvent::Came(&room[..count]),
            ReadOutcome::Ended => StreamEvent::Ended,
            ReadOutcome::Failed => StreamEvent::ReadFailed,
            ReadOutcome::NothingCame => StreamEvent::NothingCame,
            ReadOutcome::DeadlinePassed(waited) => StreamEvent::DeadlinePassed(waited),
        }
    }
}

impl WriteOutcome {
    /// It, as a machine is told of it.
    pub(crate) fn event(self) -> StreamEvent<'static>
        ensures { result ≡ write_event self }
    {
        match self {
            WriteOutcome::Taken(count) => StreamEvent::Taken(count),
            WriteOutcome::Failed => StreamEvent::WriteFailed,
            WriteOutcome::DeadlinePassed(waited) => StreamEvent::DeadlinePassed(waited),
        }
    }
}

/// A stream that waits: each call returns once something has happened.
pub trait Stream {
    ghost use Rattle.std.specs.Prelude.{List};
    ghost use Rattle.ws_machines.specs.Told.{Told};

    /// Why a line can't be reported, or memory not be had.
    type Fault: From<NoMemory> + Drop;

    /// From the first state to the second one it did just this.
    ghost did: { Self → Self → List Told → Type 0 };

    /// Waits for bytes, and reads those that are there into the room.
    fn read(&mut self, room: &mut [u8]) -> ReadOutcome
        requires { 0 < length room.old }
        ensures fits { FitsRead (length room.new) result }
        ensures len { length room.new ≡ length room.old }
        ensures did { Extends did self.old self.new (told_by_read room.new result ∷ []) };

    /// Writes a beginning of the bytes.
    fn write(&mut self, bytes: &[u8]) -> WriteOutcome
        requires { 0 < length bytes.now }
        ensures fits { FitsWrite (length bytes.now) result }
        ensures did { Extends did self.old self.new (told_by_write bytes.now result ∷ []) };

    /// Ends the own direction, while the other one goes on. It counts as ended also where that fails.
    fn end_direction(&mut self)
        ensures { Extends did self.old self.new (DirectionEnded ∷ []) };

    /// The time limit of what is waited for begins anew: until then it begins with the last byte that was taken.
    fn begin_wait(&mut self)
        ensures { KeepsTold did self.old self.new };

    /// Reports these lines.
    fn report(&mut self, lines: &[u8]) -> Result<(), Self::Fault>
        ensures { OnOk result (Extends did self.old self.new (Reported lines.now ∷ [])) };
}
