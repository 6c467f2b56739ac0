//! A writer that writes each line that it is given behind the time.

ghost use Rattle.std.specs.Prelude.{◌≡◌, ◌≤◌, ◌∷◌, [], Some, List, ℕ, IfOk, OnOk, true};
ghost use Rattle.std.specs.Io.{WritesAtMost};
ghost use Rattle.std.specs.Io.KnownBytes.{Keeps, WriteAppends};
ghost use Rattle.ws_formats.specs.Lines.{IsLine};
ghost use Rattle.wst_noted.specs.TimedLines.{AreTimed, IsTime, timed_lines};

use crate::line_times::LineTimes;
use crate::stamps::stamp;
use crate::writing::write_most;
use std::alloc::Global;
use std::io;
use std::io::{ErrorKind, Write};
use ws_formats::cut_line;

/// It writes to another writer each line behind its time, but for a first one that has none. Behind a write that has
/// failed all others fail.
#[derive(Drop)]
pub struct TimedWriter<'a, W, K> {
    alloc: Global,
    writer: W,
    times: &'a K,
    /// The time of the line that comes is written, or it has none.
    is_in_line: bool,
    is_broken: bool,
}

impl<'a, W: Write, K: LineTimes> TimedWriter<'a, W, K> {
    /// One that writes to this one, in which nothing is.
    pub fn of(alloc: Global, writer: W, times: &'a K) -> TimedWriter<'a, W, K>
        ensures begun { W.contents writer ≡ Some [] → timed_lines K.first W.contents result ≡ Some [] }
    {
        TimedWriter {
            alloc,
            writer,
            times,
            is_in_line: times.is_first_bare(),
            is_broken: false,
        }
    }

    /// The other writer.
    pub fn into_inner(self) -> W
        ensures { (lines : List ℕ) → timed_lines K.first W.contents self.entry ≡ Some lines →
            (bytes : List ℕ) × (W.contents result ≡ Some bytes) × AreTimed K.first bytes lines }
    {
        self.writer
    }

    /// Writes a beginning of these bytes, behind the time of their line.
    fn put(&mut self, bytes: &[u8]) -> io::Result<usize>
        ensures bound { WritesAtMost result bytes.now }
        ensures bytes { WriteAppends (timed_lines K.first W.contents self.old)
            (timed_lines K.first W.contents self.new) result bytes.now }
    {
        self.put_time()?;
        match cut_line(bytes) {
            Some(([], _)) => self.put_end(),
            Some((line, _)) => self.put_in_line(line),
            None => self.put_in_line(bytes),
        }
    }

    /// Writes a beginning of these bytes of the line.
    fn put_in_line(&mut self, bytes: &[u8]) -> io::Result<usize>
        requires in_line { self.old.is_in_line ≡ true }
        requires line { IsLine bytes.now }
        ensures bound { WritesAtMost result bytes.now }
        ensures bytes { WriteAppends (timed_lines K.first W.contents self.old)
            (timed_lines K.first W.contents self.new) result bytes.now }
    {
        self.writer.write(bytes)
    }

    /// Ends the line.
    fn put_end(&mut self) -> io::Result<usize>
        requires in_line { self.old.is_in_line ≡ true }
        ensures bound { IfOk result (λ taken. taken ≤ 1) }
        ensures bytes { WriteAppends (timed_lines K.first W.contents self.old)
            (timed_lines K.first W.contents self.new) result (10 ∷ []) }
    {
        let taken = self.writer.write(b"\n")?;
        if taken > 0 {
            self.is_in_line = false;
        }
        Ok(taken)
    }

    /// Writes the time of the line that comes, if it isn't written.
    fn put_time(&mut self) -> io::Result<()>
        ensures kept { Keeps (timed_lines K.first W.contents self.old) (timed_lines K.first W.contents self.new) }
        ensures in_line { OnOk result (self.new.is_in_line ≡ true) }
    {
        if self.is_in_line {
            return Ok(());
        }
        let time = self.time()?;
        if write_most(&mut self.writer, time.as_slice()) < time.len() {
            return Err(io::Error::from(ErrorKind::WriteZero));
        }
        self.is_in_line = true;
        Ok(())
    }

    /// The time of the line that comes.
    fn time(&self) -> io::Result<Vec<u8>>
        ensures { IfOk result (λ text. IsTime text.items) }
    {
        match stamp(self.alloc, self.times.time()) {
            Ok(text) => Ok(text),
            Err(_) => {
                self.times.lack_memory();
                Err(io::Error::from(ErrorKind::OutOfMemory))
            }
        }
    }
}

impl<W: Write, K: LineTimes> Write for TimedWriter<'_, W, K> {
    ghost use Rattle.ws_formats.specs.Lines.{IsLine};
    ghost use Rattle.wst_noted.specs.TimedLines.{timed_lines};

    ghost contents = { λ output. timed_lines K.first W.contents output };

    fn write(&mut self, buf: &[u8]) -> io::Result<usize> {
        if self.is_broken {
            return Err(io::Error::from(ErrorKind::Other));
        }
        if buf.is_empty() {
            return Ok(0);
        }
        let taken = self.put(buf);
        self.is_broken = taken.is_err();
        taken
    }

    fn flush(&mut self) -> io::Result<()> {
        self.writer.flush()
    }
}
