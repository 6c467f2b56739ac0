//! What is noted of connections.

use crate::head_place::{HeadFrom, HeadPlace};
use crate::line_times::LineTimes;
use crate::stamps::push_stamp;
use std::alloc::{AllocError, Global};
use std::cell::Cell;
use std::time::{Clock, Duration, Instant};
use ws_base::NoMemory;

/// What is noted of the connections of a run, as it goes on.
#[derive(Drop)]
pub struct ConnectionNotes<'a, C> {
    alloc: Global,
    clock: &'a C,
    /// Each line stands behind the time.
    is_timed: bool,
    /// It is `None` only inside of a call.
    heads: Cell<Option<Heads>>,
    /// When the connection began over which bytes have passed last, before a line was written.
    start: Cell<Option<Instant>>,
    /// A line was written: what is noted now is of other connections.
    is_over: Cell<bool>,
    /// Memory ran out for a note.
    lacks_memory: Cell<bool>,
}

/// The lines of heads that were noted and not taken.
#[derive(Drop)]
struct Heads {
    text: Vec<u8>,
    /// So many of them have begun.
    begun: u64,
    is_timed: bool,
    /// The time that stands before a line that begins.
    time: Duration,
}

impl<'a, C: Clock> ConnectionNotes<'a, C> {
    /// Nothing is noted yet. Heads are where they are asked for, and each line stands behind the time where that is.
    pub fn new(
        alloc: Global,
        clock: &'a C,
        is_timed: bool,
        has_heads: bool,
    ) -> ConnectionNotes<'a, C> {
        let heads = if has_heads {
            Some(Heads {
                text: Vec::new(alloc),
                begun: 0,
                is_timed,
                time: Duration::ZERO,
            })
        } else {
            None
        };
        ConnectionNotes {
            alloc,
            clock,
            is_timed,
            heads: Cell::new(heads),
            start: Cell::new(None),
            is_over: Cell::new(false),
            lacks_memory: Cell::new(false),
        }
    }

    /// The present, where the clock can be read.
    pub(crate) fn now(&self) -> Option<Instant> {
        Instant::now(self.clock).ok()
    }

    /// The time since then: nothing where it isn't known.
    fn time_since(&self, start: Option<Instant>) -> Duration {
        let Some(start) = start else {
            return Duration::ZERO;
        };
        match start.elapsed(self.clock) {
            Ok(time) => time,
            Err(_) => Duration::ZERO,
        }
    }

    /// These bytes have passed over a connection that began then, of which the head from this end has come so far.
    pub(crate) fn note(
        &self,
        began: Option<Instant>,
        from: HeadFrom,
        place: &mut HeadPlace,
        bytes: &[u8],
    ) {
        if self.is_over.get() {
            return;
        }
        self.start.set(began);
        if place.is_over {
            return;
        }
        let Some(mut heads) = self.heads.replace(None) else {
            return;
        };
        heads.time = self.time_since(began);
        if heads.note(from, place, bytes).is_err() {
            self.lacks_memory.set(true);
        }
        self.heads.set(Some(heads));
    }

    /// An error where memory ran out for a note.
    pub fn check(&self) -> Result<(), NoMemory> {
        if self.lacks_memory.get() {
            return Err(NoMemory);
        }
        Ok(())
    }

    /// The lines of heads that were noted. No more are from now on.
    pub(crate) fn take_heads(&self) -> Vec<u8> {
        self.is_over.set(true);
        match self.heads.replace(None) {
            Some(heads) => {
                let mut text = heads.text;
                if end_line(&mut text).is_err() {
                    self.lacks_memory.set(true);
                }
                text
            }
            None => Vec::new(self.alloc),
        }
    }
}

impl<C: Clock> LineTimes for ConnectionNotes<'_, C> {
    ghost use Rattle.wst_noted.specs.TimedLines.{InTime};

    ghost first = { InTime };

    fn is_first_bare(&self) -> bool {
        false
    }

    /// The time since the connection began over which bytes have passed last. From now on bytes of others are not
    /// noted.
    fn time(&self) -> Duration {
        self.is_over.set(true);
        self.time_since(self.start.get())
    }

    fn lack_memory(&self) {
        self.lacks_memory.set(true);
    }
}

impl Heads {
    /// These bytes came, of a head that has come so far.
    fn note(
        &mut self,
        from: HeadFrom,
        place: &mut HeadPlace,
        bytes: &[u8],
    ) -> Result<(), AllocError> {
        for &byte in bytes {
            if place.is_over {
                return Ok(());
            }
            self.note_byte(from, place, byte)?;
        }
        Ok(())
    }

    /// This byte came.
    fn note_byte(
        &mut self,
        from: HeadFrom,
        place: &mut HeadPlace,
        byte: u8,
    ) -> Result<(), AllocError> {
        if byte == b'\n' {
            place.has_return = false;
            return self.end_line_of(place);
        }
        if place.has_return {
            self.put(from, place, b'?')?;
        }
        place.has_return = byte == b'\r';
        if place.has_return {
            return Ok(());
        }
        self.put(from, place, shown(byte))
    }

    /// A line ends: the head, if it is empty.
    fn end_line_of(&mut self, place: &mut HeadPlace) -> Result<(), AllocError> {
        if place.line == 0 {
            place.is_over = true;
            return Ok(());
        }
        if place.line == self.begun {
            end_line(&mut self.text)?;
        }
        place.line = 0;
        Ok(())
    }

    /// Puts a byte behind the line of a head, which begins anew where another one has begun since.
    fn put(&mut self, from: HeadFrom, place: &mut HeadPlace, byte: u8) -> Result<(), AllocError> {
        if place.line == 0 || place.line != self.begun {
            end_line(&mut self.text)?;
            if self.is_timed {
                push_stamp(&mut self.text, self.time)?;
            }
            self.text.push(from.mark())?;
            self.text.push(b' ')?;
            self.begun = self.begun.saturating_add(1);
            place.line = self.begun;
        }
        self.text.push(byte)?;
        Ok(())
    }
}

/// Ends the last line of a text, if it isn't ended.
fn end_line(text: &mut Vec<u8>) -> Result<(), AllocError> {
    match text.last() {
        Some(b'\n') | None => Ok(()),
        Some(_) => {
            text.push(b'\n')?;
            Ok(())
        }
    }
}

/// A byte of a head, as it is shown.
fn shown(byte: u8) -> u8 {
    match byte {
        0x20..=0x7e => byte,
        _ => b'?',
    }
}
