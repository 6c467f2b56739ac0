//! A reader and writers for tests, which move at most one byte a call.

ghost use Rattle.std.specs.Prelude.{◌≡◌, ◌≤◌, ◌-◌, [], length, min, Some, Ok, IsTrue, IsErr, IfOk, is_err, take};
ghost use Rattle.std.specs.Io.{ReadsAtMost, WritesAtMost};
ghost use Rattle.std.specs.Io.KnownBytes.{Keeps, ReadConsumes, WriteAppends};
ghost use Rattle.ws_frame.specs.TestDevices.{fails_at, next_call};

use crate::failing::Failing;
use std::alloc::Global;
use std::io;
use std::io::{Read, Write};

/// Gives its bytes one a call, and fails where `failing` says so.
#[derive(Drop)]
pub struct ByteReader<'a> {
    /// The bytes that it has not given yet.
    pub left: &'a [u8],
    /// Which of its calls fail.
    pub failing: Failing,
    /// How many calls it has got.
    pub calls: u64,
}

impl<'a> ByteReader<'a> {
    /// A reader of these bytes that has got no call yet.
    pub fn new(bytes: &'a [u8], failing: Failing) -> ByteReader<'a>
        ensures bytes { result.left.now ≡ bytes.now }
        ensures failing { result.failing ≡ failing }
        ensures calls { result.calls ≡ 0 }
    {
        ByteReader {
            left: bytes,
            failing,
            calls: 0,
        }
    }
}

impl Read for ByteReader<'_> {
    ghost remaining = { λ reader. Some reader.left.now };

    fn read(&mut self, buf: &mut [u8]) -> io::Result<usize>
        ensures bound { ReadsAtMost result buf.new }
        ensures bytes { ReadConsumes (Some self.old.left.now) (Some self.new.left.now) result buf.new }

        // Which call it is, and whether that one fails.
        ensures calls { self.new.calls ≡ next_call self.old.calls }
        ensures failing { self.new.failing ≡ self.old.failing }
        ensures fails { is_err result ≡ fails_at self.old.failing self.new.calls }
        ensures one { IfOk result (λ count. count ≡ min 1 (min (length buf.old) (length self.old.left.now))) }
    {
        self.calls = self.calls.saturating_add(1);
        if self.failing.fails_at(self.calls) {
            return Err(io::Error::from(io::ErrorKind::Other));
        }
        if buf.is_empty() || self.left.is_empty() {
            return Ok(0);
        }
        buf[0] = self.left[0];
        self.left = &self.left[1..];
        Ok(1)
    }
}

/// Takes one byte a call, and fails where `failing` says so, or where memory runs out.
#[derive(Drop)]
pub struct ByteWriter {
    /// The bytes that it has taken.
    pub taken: Vec<u8>,
    /// Which of its calls fail.
    pub failing: Failing,
    /// How many calls it has got, flushes left out.
    pub calls: u64,
}

impl ByteWriter {
    /// A writer that holds nothing and has got no call yet.
    pub fn new(alloc: Global, failing: Failing) -> ByteWriter
        ensures empty { result.taken.items ≡ [] }
        ensures failing { result.failing ≡ failing }
        ensures calls { result.calls ≡ 0 }
    {
        ByteWriter {
            taken: Vec::new(alloc),
            failing,
            calls: 0,
        }
    }
}

impl Write for ByteWriter {
    ghost contents = { λ writer. Some writer.taken.items };

    fn write(&mut self, buf: &[u8]) -> io::Result<usize>
        ensures bound { WritesAtMost result buf.now }
        ensures bytes { WriteAppends (Some self.old.taken.items) (Some self.new.taken.items) result buf.now }

        // Which call it is, and whether that one fails.
        ensures calls { self.new.calls ≡ next_call self.old.calls }
        ensures failing { self.new.failing ≡ self.old.failing }
        ensures fails { IsTrue (fails_at self.old.failing self.new.calls) → IsErr result }
        ensures one { IfOk result (λ count. count ≡ min 1 (length buf.now)) }
    {
        self.calls = self.calls.saturating_add(1);
        if self.failing.fails_at(self.calls) {
            return Err(io::Error::from(io::ErrorKind::Other));
        }
        if buf.is_empty() {
            return Ok(0);
        }
        match self.taken.push(buf[0]) {
            Ok(()) => Ok(1),
            Err(_) => Err(io::Error::from(io::ErrorKind::OutOfMemory)),
        }
    }

    fn flush(&mut self) -> io::Result<()>
        ensures bytes { Keeps (Some self.old.taken.items) (Some self.new.taken.items) }
        ensures calls { self.new.calls ≡ self.old.calls }
        ensures works { result ≡ Ok tt }
    {
        Ok(())
    }
}

/// Takes one byte a call while it holds fewer than `room`, and then takes none, without an error. It fails only where
/// memory runs out.
#[derive(Drop)]
pub struct FullWriter {
    /// The bytes that it has taken.
    pub taken: Vec<u8>,
    /// How many bytes it takes in all.
    pub room: usize,
}

impl FullWriter {
    /// A writer that holds nothing yet.
    pub fn new(alloc: Global, room: usize) -> FullWriter
        ensures empty { result.taken.items ≡ [] }
        ensures room { result.room ≡ room }
    {
        FullWriter {
            taken: Vec::new(alloc),
            room,
        }
    }
}

impl Write for FullWriter {
    ghost contents = { λ writer. Some writer.taken.items };

    fn write(&mut self, buf: &[u8]) -> io::Result<usize>
        ensures bound { WritesAtMost result buf.now }
        ensures bytes { WriteAppends (Some self.old.taken.items) (Some self.new.taken.items) result buf.now }

        // How many bytes a call takes. A writer that is full takes none, and does not fail.
        ensures room { self.new.room ≡ self.old.room }
        ensures one { IfOk result (λ count. count ≡ min 1 (min (length buf.now)
            (self.old.room - length self.old.taken.items))) }
        ensures full { self.old.room ≤ length self.old.taken.items → result ≡ Ok 0 }
    {
        if buf.is_empty() || self.taken.len() >= self.room {
            return Ok(0);
        }
        self.taken.push(buf[0])?;
        Ok(1)
    }

    fn flush(&mut self) -> io::Result<()>
        ensures bytes { Keeps (Some self.old.taken.items) (Some self.new.taken.items) }
        ensures room { self.new.room ≡ self.old.room }
        ensures works { result ≡ Ok tt }
    {
        Ok(())
    }
}
