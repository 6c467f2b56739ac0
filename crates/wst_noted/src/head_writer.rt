//! A writer that writes the lines of heads that were noted before what it is given.

ghost use Rattle.std.specs.Prelude.{◌≡◌, [], None, Some, List, ℕ};
ghost use Rattle.std.specs.Io.{WritesAtMost};
ghost use Rattle.std.specs.Io.KnownBytes.{Keeps, WriteAppends};
ghost use Rattle.wst_noted.specs.HeadWriting.{EndWith, behind_heads};

use crate::notes::ConnectionNotes;
use crate::writing::write_most;
use std::io;
use std::io::{ErrorKind, Write};
use std::time::Clock;

/// It writes to another writer, and before the first byte the lines of the heads that were noted so far.
#[derive(Drop)]
pub struct HeadWriter<'a, W, K> {
    writer: W,
    notes: &'a ConnectionNotes<'a, K>,
    /// So many bytes are written behind the heads.
    written: u64,
}

impl<'a, W: Write, K: Clock> HeadWriter<'a, W, K> {
    /// One that writes to this one. Nothing is written yet.
    pub fn of(writer: W, notes: &'a ConnectionNotes<'a, K>) -> HeadWriter<'a, W, K>
        ensures begun { (held : List ℕ) → W.contents writer ≡ Some held → behind_heads W.contents result ≡ Some [] }
    {
        HeadWriter {
            writer,
            notes,
            written: 0,
        }
    }

    /// The other writer, with the lines of the heads that were noted, if nothing was written.
    pub fn end(self) -> (W, io::Result<()>)
        ensures { (bytes : List ℕ) → behind_heads W.contents self.entry ≡ Some bytes →
            EndWith bytes (W.contents result.0) }
    {
        let mut output = self;
        let ended = output.put_heads();
        (output.writer, ended)
    }

    /// Writes the lines of the heads that were noted, if nothing was written.
    fn put_heads(&mut self) -> io::Result<()>
        ensures kept { Keeps (behind_heads W.contents self.old) (behind_heads W.contents self.new) }
    {
        if self.written > 0 {
            return Ok(());
        }
        let heads = self.notes.take_heads();
        if write_most(&mut self.writer, heads.as_slice()) < heads.len() {
            return Err(io::Error::from(ErrorKind::WriteZero));
        }
        Ok(())
    }

    /// Writes a beginning of these bytes.
    fn put(&mut self, bytes: &[u8]) -> io::Result<usize>
        ensures bound { WritesAtMost result bytes.now }
        ensures bytes { WriteAppends (behind_heads W.contents self.old) (behind_heads W.contents self.new) result
            bytes.now }
    {
        if u64::MAX - self.written < bytes.len() as u64 {
            return Err(io::Error::from(ErrorKind::Other));
        }
        let taken = self.writer.write(bytes)?;
        self.written += taken as u64;
        Ok(taken)
    }
}

impl<W: Write, K: Clock> Write for HeadWriter<'_, W, K> {
    ghost use Rattle.wst_noted.specs.HeadWriting.{behind_heads};

    ghost contents = { λ output. behind_heads W.contents output };

    fn write(&mut self, buf: &[u8]) -> io::Result<usize> {
        self.put_heads()?;
        self.put(buf)
    }

    fn flush(&mut self) -> io::Result<()> {
        self.writer.flush()
    }
}
