//! The devices of a row: a reader and a writer that fail, wait in vain or move few bytes, as its settings say, and that
//! note their calls.

use crate::words::{asks_for, failing_of, number_or};
use std::alloc::Global;
use std::cell::RefCell;
use std::io;
use std::io::{ErrorKind, Read, Write};
use test_row_frames::RowFault;
use ws_connection::{EndsDirection, WaitTimer, WaitingRead};
use ws_frame::Failing;
use ws_tap::TapWriter;

/// The calls of the devices of a row, in their order, a letter each.
pub type Notes = RefCell<Vec<u8>>;

/// Notes a call.
fn note(notes: &Notes, letter: u8) -> io::Result<()> {
    match notes.try_borrow_mut() {
        Ok(mut letters) => {
            letters.push(letter)?;
            Ok(())
        }
        Err(_) => Err(io::Error::from(ErrorKind::Other)),
    }
}

/// Gives pieces one after the other, never of two in one call. It notes `r` for bytes, `z` for none, `-` for a wait in
/// vain, `l` behind the deadline, and `x` for a failure.
#[derive(Drop)]
pub struct Source<'a> {
    /// What is left of the piece that was begun.
    pub rest: &'a [u8],
    /// The pieces behind it.
    pub later: &'a [Vec<u8>],
    /// The most bytes that a call gives.
    give: usize,
    /// Which calls fail.
    pub reads: Failing,
    /// Which calls fail as a socket does whose peer has gone away.
    breaks: Failing,
    /// Which calls wait in vain.
    waits: Failing,
    /// Behind which calls the deadline has passed.
    late: Failing,
    /// Its timer says that it was waited long enough.
    is_long: bool,
    /// Its timer notes each wait that begins.
    notes_waits: bool,
    /// How many calls it has got.
    pub calls: u64,
    notes: &'a Notes,
}

/// A reader of these pieces: `reads=`, `breaks=`, `waits=`, `late=`, and `give=` for the most bytes a call; `+long`
/// where it was waited long enough by the deadline, and `+begins` where each wait that begins is noted.
pub fn source_of<'a>(
    words: &[&str],
    pieces: &'a [Vec<u8>],
    notes: &'a Notes,
) -> Result<Source<'a>, RowFault> {
    Ok(Source {
        rest: &[],
        later: pieces,
        give: number_or(words, "give=", 1_000_000_000)? as usize,
        reads: failing_of(words, "reads=")?,
        breaks: failing_of(words, "breaks=")?,
        waits: failing_of(words, "waits=")?,
        late: failing_of(words, "late=")?,
        is_long: asks_for(words, "+long"),
        notes_waits: asks_for(words, "+begins"),
        calls: 0,
        notes,
    })
}

impl Source<'_> {
    /// How this call fails, if it does.
    fn check_call(&mut self) -> io::Result<()> {
        self.calls = self.calls.saturating_add(1);
        if self.waits.fails_at(self.calls) {
            note(self.notes, b'-')?;
            return Err(io::Error::from(ErrorKind::WouldBlock));
        }
        if self.late.fails_at(self.calls) {
            note(self.notes, b'l')?;
            return Err(io::Error::from(ErrorKind::TimedOut));
        }
        if self.breaks.fails_at(self.calls) {
            note(self.notes, b'x')?;
            return Err(io::Error::from(ErrorKind::ConnectionReset));
        }
        if self.reads.fails_at(self.calls) {
            note(self.notes, b'x')?;
            return Err(io::Error::from(ErrorKind::Other));
        }
        Ok(())
    }

    /// How many bytes it has not given yet.
    pub fn left(&self) -> usize {
        let mut left = self.rest.len();
        for piece in self.later {
            left = left.saturating_add(piece.len());
        }
        left
    }
}

impl Read for Source<'_> {
    fn read(&mut self, buf: &mut [u8]) -> io::Result<usize> {
        self.check_call()?;
        if self.rest.is_empty() && !self.later.is_empty() {
            self.rest = self.later[0].as_slice();
            self.later = &self.later[1..];
        }
        let count = self.rest.len().min(buf.len()).min(self.give);
        note(self.notes, if count == 0 { b'z' } else { b'r' })?;
        buf[..count].copy_from_slice(&self.rest[..count]);
        self.rest = &self.rest[count..];
        Ok(count)
    }
}

/// The timer of such a reader. It notes `b` where a wait begins, if that is to be noted.
#[derive(Drop)]
pub struct SourceTimer<'a> {
    is_long: bool,
    notes_waits: bool,
    notes: &'a Notes,
}

impl WaitTimer for SourceTimer<'_> {
    ghost has_waited = { λ timer. timer.is_long };

    fn begin_wait(&mut self) {
        if self.notes_waits {
            let _ = note(self.notes, b'b');
        }
    }

    fn has_waited(&mut self) -> bool {
        self.is_long
    }
}

impl<'a> WaitingRead for Source<'a> {
    type Timer = SourceTimer<'a>;

    fn timer(&self) -> SourceTimer<'a> {
        SourceTimer {
            is_long: self.is_long,
            notes_waits: self.notes_waits,
            notes: self.notes,
        }
    }
}

/// Keeps what is written. It notes `w` for a write, and `e` where its direction is ended.
#[derive(Drop)]
pub struct Sink<'a> {
    /// The bytes that it has taken.
    pub taken: Vec<u8>,
    /// The most bytes that a call takes.
    take: usize,
    /// The most bytes that it takes in all. Behind them it takes none, without an error.
    pub room: usize,
    /// Which writes fail.
    pub writes: Failing,
    /// Which writes take nothing yet.
    pub waits: Failing,
    /// Behind which writes the deadline has passed.
    late: Failing,
    /// Which flushes fail.
    flushes: Failing,
    /// How many writes it has got, and flushes.
    pub calls: u64,
    pub flush_calls: u64,
    /// It refuses to end its direction.
    pub refuses: bool,
    /// Its direction was ended.
    pub is_ended: bool,
    notes: &'a Notes,
}

/// A writer that has taken nothing: `writes=`, `write-late=`, `flushes=`, and `take=` and `room=` for the most bytes a
/// call and in all.
pub fn sink_of<'a>(alloc: Global, words: &[&str], notes: &'a Notes) -> Result<Sink<'a>, RowFault> {
    Ok(Sink {
        taken: Vec::new(alloc),
        take: number_or(words, "take=", 1_000_000_000)? as usize,
        room: number_or(words, "room=", 1_000_000_000)? as usize,
        writes: failing_of(words, "writes=")?,
        waits: Failing::Never,
        late: failing_of(words, "write-late=")?,
        flushes: failing_of(words, "flushes=")?,
        calls: 0,
        flush_calls: 0,
        refuses: false,
        is_ended: false,
        notes,
    })
}

impl Write for Sink<'_> {
    ghost use Rattle.std.specs.Prelude.{Some};

    ghost contents = { λ writer. Some writer.taken.items };

    fn write(&mut self, buf: &[u8]) -> io::Result<usize> {
        self.calls = self.calls.saturating_add(1);
        note(self.notes, b'w')?;
        if self.waits.fails_at(self.calls) {
            return Err(io::Error::from(ErrorKind::WouldBlock));
        }
        if self.late.fails_at(self.calls) {
            return Err(io::Error::from(ErrorKind::TimedOut));
        }
        if self.writes.fails_at(self.calls) {
            return Err(io::Error::from(ErrorKind::Other));
        }
        let free = self.room.saturating_sub(self.taken.len());
        let count = buf.len().min(self.take).min(free);
        self.taken.extend_from_slice(&buf[..count])?;
        Ok(count)
    }

    fn flush(&mut self) -> io::Result<()> {
        self.flush_calls = self.flush_calls.saturating_add(1);
        if self.flushes.fails_at(self.flush_calls) {
            return Err(io::Error::from(ErrorKind::Other));
        }
        Ok(())
    }
}

impl EndsDirection for Sink<'_> {
    fn end_direction(&mut self) -> io::Result<()> {
        note(self.notes, b'e')
    }
}

impl TapWriter for Sink<'_> {
    ghost use Rattle.std.specs.Prelude.{◌≡◌, true};

    ghost is_ended = { λ writer. writer.is_ended ≡ true };

    fn half_close(&mut self) -> io::Result<()> {
        if self.refuses {
            return Err(io::Error::from(ErrorKind::Other));
        }
        self.is_ended = true;
        Ok(())
    }
}
