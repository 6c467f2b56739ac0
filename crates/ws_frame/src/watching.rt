//! A reader or a writer that remembers whether a call through it failed.

ghost use Rattle.std.specs.Prelude.{◌≡◌, false, true, ◌||◌, is_err};
ghost use Rattle.std.specs.Io.{ReadsAtMost, WritesAtMost};
ghost use Rattle.std.specs.Io.KnownBytes.{Keeps, ReadConsumes, WriteAppends};
ghost use Rattle.ws_frame.specs.Watching.{has_failed, inner_of, write_fails};

use std::io;
use std::io::{Read, Write};

/// Passes each call on to a reader or a writer, and remembers whether one failed: a read or a flush that answers an
/// error, or a write of at least one byte that answers an error or takes none.
#[derive(Drop)]
pub struct Watched<T> {
    inner: T,
    failed: bool,
}

impl<T> Watched<T> {
    /// A watch over a device through which no call has failed yet.
    pub fn new(inner: T) -> Watched<T>
        ensures fresh { has_failed result ≡ false }
        ensures holds { inner_of result ≡ inner }
    {
        Watched {
            inner,
            failed: false,
        }
    }

    /// The device, without the watch.
    pub fn into_inner(self) -> T
        ensures { result ≡ inner_of self }
    {
        self.inner
    }

    /// Whether a call has failed. Once true it stays true.
    pub fn failed(&self) -> bool
        ensures { result ≡ has_failed self.now }
    {
        self.failed
    }
}

impl<R: Read> Read for Watched<R> {
    ghost remaining = { λ w. R.remaining (inner_of w) };

    fn read(&mut self, buf: &mut [u8]) -> io::Result<usize>
        ensures bound { ReadsAtMost result buf.new }
        ensures bytes { ReadConsumes (R.remaining (inner_of self.old)) (R.remaining (inner_of self.new))
            result buf.new }
        ensures failed { has_failed self.new ≡ (has_failed self.old || is_err result) }
    {
        let result = self.inner.read(buf);
        if result.is_err() {
            self.failed = true;
        }
        result
    }
}

impl<W: Write> Write for Watched<W> {
    ghost contents = { λ w. W.contents (inner_of w) };

    fn write(&mut self, buf: &[u8]) -> io::Result<usize>
        ensures bound { WritesAtMost result buf.now }
        ensures bytes { WriteAppends (W.contents (inner_of self.old)) (W.contents (inner_of self.new)) result buf.now }
        ensures failed { has_failed self.new ≡ (has_failed self.old || write_fails result buf.now) }
    {
        let result = self.inner.write(buf);
        let failed = match &result {
            Ok(taken) => *taken == 0,
            Err(_) => true,
        };
        if failed && !buf.is_empty() {
            self.failed = true;
        }
        result
    }

    fn flush(&mut self) -> io::Result<()>
        ensures bytes { Keeps (W.contents (inner_of self.old)) (W.contents (inner_of self.new)) }
        ensures failed { has_failed self.new ≡ (has_failed self.old || is_err result) }
    {
        let result = self.inner.flush();
        self.failed = self.failed || result.is_err();
        result
    }
}
