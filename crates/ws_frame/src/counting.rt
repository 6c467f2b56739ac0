//! A watch for tests over what a device is asked.

ghost use Rattle.std.specs.Prelude.{◌≡◌, [], ◌∷◌, ◌++◌, length, OnOk};
ghost use Rattle.std.specs.Io.{ReadsAtMost, WritesAtMost};
ghost use Rattle.std.specs.Io.KnownBytes.{Keeps, ReadConsumes, WriteAppends};
ghost use Rattle.ws_frame.specs.TestDevices.{next_call};

use std::alloc::Global;
use std::io;
use std::io::{Read, Write};

/// Passes each call on to a reader or a writer and records it. A call that can't be recorded for want of memory answers
/// an error, and is not passed on.
#[derive(Drop)]
pub struct Counting<T> {
    /// The device.
    pub inner: T,
    /// The length of each buffer that was handed over, one a call.
    pub lengths: Vec<usize>,
    /// How often it was flushed.
    pub flushes: u64,
}

impl<T> Counting<T> {
    /// A watch over a device that was not asked yet.
    pub fn new(alloc: Global, inner: T) -> Counting<T>
        ensures holds { result.inner ≡ inner }
        ensures unasked { result.lengths.items ≡ [] }
        ensures unflushed { result.flushes ≡ 0 }
    {
        Counting {
            inner,
            lengths: Vec::new(alloc),
            flushes: 0,
        }
    }

    /// Records a call with a buffer of this length.
    fn record(&mut self, len: usize) -> io::Result<()>
        ensures recorded { OnOk result (self.new.lengths.items ≡ self.old.lengths.items ++ len ∷ []) }
        ensures kept { self.new.inner ≡ self.old.inner }
    {
        self.lengths.push(len)?;
        Ok(())
    }
}

impl<R: Read> Read for Counting<R> {
    ghost remaining = { λ watch. R.remaining watch.inner };

    fn read(&mut self, buf: &mut [u8]) -> io::Result<usize>
        ensures bound { ReadsAtMost result buf.new }
        ensures bytes { ReadConsumes (R.remaining self.old.inner) (R.remaining self.new.inner) result buf.new }
        ensures recorded { OnOk result (self.new.lengths.items ≡ self.old.lengths.items ++ length buf.old ∷ []) }
    {
        self.record(buf.len())?;
        self.inner.read(buf)
    }
}

impl<W: Write> Write for Counting<W> {
    ghost contents = { λ watch. W.contents watch.inner };

    fn write(&mut self, buf: &[u8]) -> io::Result<usize>
        ensures bound { WritesAtMost result buf.now }
        ensures bytes { WriteAppends (W.contents self.old.inner) (W.contents self.new.inner) result buf.now }
        ensures recorded { OnOk result (self.new.lengths.items ≡ self.old.lengths.items ++ length buf.now ∷ []) }
    {
        self.record(buf.len())?;
        self.inner.write(buf)
    }

    fn flush(&mut self) -> io::Result<()>
        ensures bytes { Keeps (W.contents self.old.inner) (W.contents self.new.inner) }
        ensures recorded { self.new.flushes ≡ next_call self.old.flushes }
    {
        self.flushes = self.flushes.saturating_add(1);
        self.inner.flush()
    }
}
