//! The devices of a row of a tap: readers that give what an end does, move by move, and writers that note what they
//! get.

ghost use Rattle.std.specs.Prelude.{◌≡◌, true, OnOk};
ghost use Rattle.std.specs.Io.{ReadsAtMost};

use std::alloc::Global;
use std::cell::RefCell;
use std::io;
use std::io::{ErrorKind, Read, Write};
use ws_tap::{TapWriter, Wakes};
use ws_wire::Role;

/// What an end of a connection does: it sends these bytes, or, where they are none, it ends its direction.
#[derive(Drop)]
pub struct Move {
    pub by: Role,
    pub bytes: Vec<u8>,
}

/// The moves of both ends, one after the other.
#[derive(Drop)]
pub struct Moves {
    all: Vec<Move>,
    done: usize,
}

impl Moves {
    /// None of these was made.
    pub fn new(all: Vec<Move>) -> Moves {
        Moves { all, done: 0 }
    }

    /// Makes the next move, where it is one of this end. Else the end does nothing yet.
    fn give(&mut self, by: Role, buf: &mut [u8]) -> io::Result<usize>
        ensures bound { ReadsAtMost result buf.new }
    {
        let Some(next) = self.all.as_slice().get(self.done) else {
            return Err(io::Error::from(ErrorKind::WouldBlock));
        };
        if next.by != by {
            return Err(io::Error::from(ErrorKind::WouldBlock));
        }
        let count = next.bytes.len();
        if count > buf.len() {
            return Err(io::Error::from(ErrorKind::Other));
        }
        buf[..count].copy_from_slice(next.bytes.as_slice());
        self.done = self.done.saturating_add(1);
        Ok(count)
    }
}

/// Gives what one end sends.
#[derive(Drop)]
pub struct MoveReader<'a> {
    moves: &'a RefCell<Moves>,
    by: Role,
}

impl<'a> MoveReader<'a> {
    /// The moves of this end.
    pub fn of(moves: &'a RefCell<Moves>, by: Role) -> MoveReader<'a> {
        MoveReader { moves, by }
    }
}

impl Read for MoveReader<'_> {
    fn read(&mut self, buf: &mut [u8]) -> io::Result<usize> {
        match self.moves.try_borrow_mut() {
            Ok(mut moves) => moves.give(self.by, buf),
            Err(_) => Err(io::Error::from(ErrorKind::Other)),
        }
    }
}

/// Notes what is written to one end, and whether its direction was ended.
#[derive(Drop)]
pub struct NotingWriter {
    pub taken: Vec<u8>,
    pub is_ended: bool,
}

impl NotingWriter {
    /// Nothing was written.
    pub fn new(alloc: Global) -> NotingWriter {
        NotingWriter {
            taken: Vec::new(alloc),
            is_ended: false,
        }
    }
}

impl Write for NotingWriter {
    ghost use Rattle.std.specs.Prelude.{Some};

    ghost contents = { λ writer. Some writer.taken.items };

    fn write(&mut self, buf: &[u8]) -> io::Result<usize> {
        self.taken.extend_from_slice(buf)?;
        Ok(buf.len())
    }

    fn flush(&mut self) -> io::Result<()> {
        Ok(())
    }
}

impl TapWriter for NotingWriter {
    ghost is_ended = { λ writer. writer.is_ended ≡ true };

    fn half_close(&mut self) -> io::Result<()> {
        self.is_ended = true;
        Ok(())
    }
}

/// Waits for nothing: where neither end does anything, no move is left that can be made.
#[derive(Drop)]
pub struct NoMoveLeft {}

impl Wakes for NoMoveLeft {
    fn wait(&mut self) -> bool {
        false
    }
}
