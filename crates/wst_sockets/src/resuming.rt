//! Calls of a reader or a writer that are made again where a signal interrupted them: a process that is stopped and
//! goes on interrupts each wait with a limit of time, which says nothing of the device.

ghost use Rattle.std.specs.Prelude.{◌≡◌, ◌↔◌, IsTrue};
ghost use Rattle.std.specs.Io.{ReadsAtMost, WritesAtMost};
ghost use Rattle.std.specs.Io.KnownBytes.{Keeps, ReadConsumes, WriteAppends};
ghost use Rattle.wst_sockets.specs.Resuming.{IsUninterrupted, IsInterrupted, resumed_device};

use std::io;
use std::io::{ErrorKind, Read, Write};

/// Passes each call on to a reader or a writer, and makes it again as long as a signal interrupts it. A wait with a
/// limit of time begins anew then.
#[derive(Drop)]
pub struct Resumed<T> {
    device: T,
}

impl<T> Resumed<T> {
    /// The calls of this device.
    pub fn of(device: T) -> Resumed<T>
        ensures { resumed_device result ≡ device }
    {
        Resumed { device }
    }
}

impl<R: Read> Read for Resumed<R> {
    ghost remaining = { λ resumed. R.remaining (resumed_device resumed) };

    fn read(&mut self, buf: &mut [u8]) -> io::Result<usize>
        ensures bound { ReadsAtMost result buf.new }
        ensures bytes { ReadConsumes (R.remaining (resumed_device self.old)) (R.remaining (resumed_device self.new))
            result buf.new }
        ensures uninterrupted { IsUninterrupted result }
    {
        read_resumed(&mut self.device, buf)
    }
}

impl<W: Write> Write for Resumed<W> {
    ghost contents = { λ resumed. W.contents (resumed_device resumed) };

    fn write(&mut self, buf: &[u8]) -> io::Result<usize>
        ensures bound { WritesAtMost result buf.now }
        ensures bytes { WriteAppends (W.contents (resumed_device self.old)) (W.contents (resumed_device self.new))
            result buf.now }
        ensures uninterrupted { IsUninterrupted result }
    {
        write_resumed(&mut self.device, buf)
    }

    fn flush(&mut self) -> io::Result<()>
        ensures bytes { Keeps (W.contents (resumed_device self.old)) (W.contents (resumed_device self.new)) }
        ensures uninterrupted { IsUninterrupted result }
    {
        flush_resumed(&mut self.device)
    }
}

/// Reads once, again as long as a signal interrupts it.
fn read_resumed<R: Read>(reader: &mut R, buf: &mut [u8]) -> io::Result<usize>
    ensures bound { ReadsAtMost result buf.new }
    ensures bytes { ReadConsumes (R.remaining reader.old) (R.remaining reader.new) result buf.new }
    ensures uninterrupted { IsUninterrupted result }
{
    for _ in 0..u64::MAX {
        match reader.read(buf) {
            Ok(count) => return Ok(count),
            Err(error) => {
                if !is_interrupted(&error) {
                    return Err(error);
                }
            }
        }
    }
    Err(io::Error::from(ErrorKind::Other))
}

/// Writes once, again as long as a signal interrupts it.
fn write_resumed<W: Write>(writer: &mut W, buf: &[u8]) -> io::Result<usize>
    ensures bound { WritesAtMost result buf.now }
    ensures bytes { WriteAppends (W.contents writer.old) (W.contents writer.new) result buf.now }
    ensures uninterrupted { IsUninterrupted result }
{
    for _ in 0..u64::MAX {
        match writer.write(buf) {
            Ok(count) => return Ok(count),
            Err(error) => {
                if !is_interrupted(&error) {
                    return Err(error);
                }
            }
        }
    }
    Err(io::Error::from(ErrorKind::Other))
}

/// Flushes, again as long as a signal interrupts it.
fn flush_resumed<W: Write>(writer: &mut W) -> io::Result<()>
    ensures bytes { Keeps (W.contents writer.old) (W.contents writer.new) }
    ensures uninterrupted { IsUninterrupted result }
{
    for _ in 0..u64::MAX {
        match writer.flush() {
            Ok(()) => return Ok(()),
            Err(error) => {
                if !is_interrupted(&error) {
                    return Err(error);
                }
            }
        }
    }
    Err(io::Error::from(ErrorKind::Other))
}

/// Whether a signal interrupted the call that answered this.
fn is_interrupted(error: &io::Error) -> bool
    ensures { IsTrue result ↔ IsInterrupted error.now }
{
    error.kind() == ErrorKind::Interrupted
}
