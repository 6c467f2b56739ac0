//! The stream of a row of machines: it does what the row says, and notes what it is asked.

ghost use Rattle.std.specs.Prelude.{◌≡◌, ◌<◌, length};
ghost use Rattle.ws_machines.specs.Machines.{FitsRead};

use std::alloc::Global;
use std::collections::VecDeque;
use test_row_frames::{RowFault, bytes_of, number_of};
use ws_machines::{ReadOutcome, Stream, WriteOutcome};

/// What a read finds.
#[derive(Drop)]
enum Found {
    Bytes(Vec<u8>),
    Ended,
    Failed,
    NothingCame,
    DeadlinePassed(bool),
}

/// Each read finds the next word of the row: bytes, of which it takes as many as there is room for, `ended`,
/// `read_failed`, `nothing_came`, `deadline` or `deadline_waited`; behind the last one the stream has ended. A write
/// takes at most so many bytes, and that of the number `fail` fails, none where it is 0. Each call is noted: `r` a
/// read, `w` a write, `e` the end of the own direction, `l` lines. How often its time limit was begun anew is counted.
#[derive(Drop)]
pub struct MachineStream {
    found: VecDeque<Found>,
    most: usize,
    fail: u64,
    writes: u64,
    pub waits: u64,
    pub written: Vec<u8>,
    pub calls: String,
}

impl MachineStream {
    /// Nothing was asked of it.
    pub fn of(
        alloc: Global,
        take: &str,
        fail: &str,
        words: &[&str],
    ) -> Result<MachineStream, RowFault> {
        let mut found = VecDeque::new(alloc);
        for word in words {
            found.push_back(found_by(alloc, word)?)?;
        }
        Ok(MachineStream {
            found,
            most: number_of(take)? as usize,
            fail: number_of(fail)?,
            writes: 0,
            waits: 0,
            written: Vec::new(alloc),
            calls: String::new(alloc),
        })
    }

    /// Notes a call. Where memory runs out it isn't noted, and the row fails.
    fn note(&mut self, call: &str) {
        let _ = self.calls.push_str(call);
    }

    /// These bytes are found: as many as there is room for, and the rest by the next read.
    fn give(&mut self, bytes: Vec<u8>, room: &mut [u8]) -> ReadOutcome
        requires { 0 < length room.old }
        ensures fits { FitsRead (length room.new) result }
        ensures len { length room.new ≡ length room.old }
    {
        let count = bytes.len().min(room.len());
        if count == 0 {
            return ReadOutcome::NothingCame;
        }
        room[..count].copy_from_slice(&bytes.as_slice()[..count]);
        if count < bytes.len() {
            self.keep_rest(&bytes.as_slice()[count..]);
        }
        ReadOutcome::Came(count)
    }

    /// These bytes are found by the next read.
    fn keep_rest(&mut self, bytes: &[u8]) {
        if let Ok(rest) = bytes.to_vec(*self.calls.allocator()) {
            let _ = self.found.push_front(Found::Bytes(rest));
        }
    }
}

/// What a word says that a read finds.
fn found_by(alloc: Global, word: &str) -> Result<Found, RowFault> {
    match word {
        "ended" => Ok(Found::Ended),
        "read_failed" => Ok(Found::Failed),
        "nothing_came" => Ok(Found::NothingCame),
        "deadline" => Ok(Found::DeadlinePassed(false)),
        "deadline_waited" => Ok(Found::DeadlinePassed(true)),
        _ => {
            let bytes = bytes_of(alloc, word)?;
            Ok(Found::Bytes(bytes.into_vec()))
        }
    }
}

impl Stream for MachineStream {
    ghost use Rattle.std.specs.Prelude.{⊤};

    type Fault = RowFault;

    ghost did = { λ old new told. ⊤ };

    fn read(&mut self, room: &mut [u8]) -> ReadOutcome {
        self.note("r");
        match self.found.pop_front() {
            None | Some(Found::Ended) => ReadOutcome::Ended,
            Some(Found::Bytes(bytes)) => self.give(bytes, room),
            Some(Found::Failed) => ReadOutcome::Failed,
            Some(Found::NothingCame) => ReadOutcome::NothingCame,
            Some(Found::DeadlinePassed(waited)) => ReadOutcome::DeadlinePassed(waited),
        }
    }

    fn write(&mut self, bytes: &[u8]) -> WriteOutcome {
        self.note("w");
        self.writes = self.writes.saturating_add(1);
        let count = bytes.len().min(self.most);
        if count == 0 || self.writes == self.fail {
            return WriteOutcome::Failed;
        }
        match self.written.extend_from_slice(&bytes[..count]) {
            Ok(()) => WriteOutcome::Taken(count),
            Err(_) => WriteOutcome::Failed,
        }
    }

    fn end_direction(&mut self) {
        self.note("e");
    }

    fn report(&mut self, lines: &[u8]) -> Result<(), RowFault> {
        self.note("l");
        self.written.extend_from_slice(lines)?;
        Ok(())
    }

    fn begin_wait(&mut self) {
        self.waits = self.waits.saturating_add(1);
    }
}
