//! The calls of a connection's devices, one by one: they are counted, and what the last one has answered is kept.

ghost use Rattle.std.specs.Prelude.{◌≡◌, ◌<◌, ◌||◌, ℕ, List, length, true, false, IfOk};
ghost use Rattle.std.specs.Io.{ReadsAtMost, WritesAtMost};
ghost use Rattle.std.specs.Io.KnownBytes.{Keeps, ReadConsumes, WriteAppends};
ghost use Rattle.ws_frame.specs.Watching.{write_fails};
ghost use Rattle.ws_connection.specs.DeviceCalls.{is_late, one_call_more, state_after_read};
ghost use Rattle.ws_connection.specs.declared.incoming.Incoming.TheVariants.{Unread};

use crate::ending::EndsDirection;
use crate::incoming::Incoming;
use std::io;
use std::io::{ErrorKind, Read};
use std::marker::Model;

/// A reader, how its reads stand, and how many of them were made, modulo 2^64.
#[derive(Drop)]
pub(crate) struct ReadCalls<R: Read> {
    reader: R,
    state: Incoming,
    calls: u64,
}

impl<R: Read> Model for ReadCalls<R> {
    ghost use Rattle.std.specs.Prelude.{◌≡◌};
    ghost use Rattle.std.specs.Io.KnownBytes.{IsAtEnd};
    ghost use Rattle.ws_connection.specs.DeviceCalls.{ReadsValue};
    ghost use Rattle.ws_connection.specs.declared.incoming.Incoming.TheVariants.{AtEnd};

    ghost Value = { ReadsValue };

    ghost view = { λ reads. record {
      left = R.remaining reads.reader;
      state = reads.state;
      calls = reads.calls;
    } };

    ghost invariant = { λ reads. reads.state ≡ AtEnd → IsAtEnd (R.remaining reads.reader) };
}

impl<R: Read> ReadCalls<R> {
    /// A reader of which nothing was read.
    pub fn new(reader: R) -> ReadCalls<R>
        ensures left { result.left ≡ R.remaining reader }
        ensures state { result.state ≡ Unread }
    {
        ReadCalls {
            reader,
            state: Incoming::Unread,
            calls: 0,
        }
    }

    /// The reader.
    pub fn into_inner(self) -> R
        ensures { R.remaining result ≡ self.left }
    {
        self.reader
    }

    /// How its reads stand.
    pub fn state(&self) -> Incoming
        ensures { result ≡ self.now.state }
    {
        self.state
    }

    /// Reads once.
    pub fn read(&mut self, room: &mut [u8]) -> io::Result<usize>
        requires { 0 < length room.old }
        ensures bound { ReadsAtMost result room.new }
        ensures bytes { ReadConsumes self.old.left self.new.left result room.new }
        ensures len { length room.new ≡ length room.old }
        ensures state { self.new.state ≡ state_after_read result }
        ensures calls { self.new.calls ≡ one_call_more self.old.calls }
    {
        let answer = self.reader.read(room);
        self.calls = self.calls.wrapping_add(1);
        self.state = state_after(&answer);
        answer
    }
}

/// How the reads stand after one that has answered so. An error of the kind `WouldBlock`, which a socket answers where
/// its time-out has expired, is a read that has waited in vain, and no failure; nor is one of the kind `TimedOut`,
/// behind the deadline.
fn state_after(answer: &io::Result<usize>) -> Incoming
    ensures { result ≡ state_after_read answer.now }
{
    match answer {
        Ok(0) => Incoming::AtEnd,
        Ok(_) => Incoming::Open,
        Err(error) => match error.kind() {
            ErrorKind::WouldBlock => Incoming::Waited,
            ErrorKind::TimedOut => Incoming::Late,
            _ => Incoming::Failed,
        },
    }
}

/// A writer, whether a write has failed, whether the deadline had passed by the last one, whether its direction was
/// ended, and how many calls it has got, modulo 2^64.
#[derive(Drop)]
pub(crate) struct WriteCalls<W: EndsDirection> {
    writer: W,
    has_failed: bool,
    is_late: bool,
    is_ended: bool,
    calls: u64,
}

impl<W: EndsDirection> Model for WriteCalls<W> {
    ghost use Rattle.ws_connection.specs.DeviceCalls.{WritesValue};

    ghost Value = { WritesValue };

    ghost view = { λ writes. record {
      held = W.contents writes.writer;
      failed = writes.has_failed;
      late = writes.is_late;
      ended = writes.is_ended;
      knows_end = W.is_ended writes.writer;
      calls = writes.calls;
    } };
}

impl<W: EndsDirection> WriteCalls<W> {
    /// A writer to which nothing was written.
    pub fn new(writer: W) -> WriteCalls<W>
        ensures held { result.held ≡ W.contents writer }
        ensures failed { result.failed ≡ false }
        ensures ended { result.ended ≡ false }
    {
        WriteCalls {
            writer,
            has_failed: false,
            is_late: false,
            is_ended: false,
            calls: 0,
        }
    }

    /// The writer.
    pub fn into_inner(self) -> W
        ensures { W.contents result ≡ self.held }
    {
        self.writer
    }

    /// Whether the deadline had passed by the last write.
    pub fn is_late(&self) -> bool
        ensures { result ≡ self.now.late }
    {
        self.is_late
    }

    /// Writes once.
    pub fn write(&mut self, bytes: &[u8]) -> io::Result<usize>
        requires { 0 < length bytes.now }
        ensures bound { WritesAtMost result bytes.now }
        ensures bytes { WriteAppends self.old.held self.new.held result bytes.now }
        ensures failed { self.new.failed ≡ (self.old.failed || write_fails result bytes.now) }
        ensures late { self.new.late ≡ is_late result }
        ensures ended { self.new.ended ≡ self.old.ended }
        ensures calls { self.new.calls ≡ one_call_more self.old.calls }
    {
        let answer = self.writer.write(bytes);
        self.calls = self.calls.wrapping_add(1);
        self.has_failed = self.has_failed || is_failure(&answer);
        self.is_late = is_late(&answer);
        answer
    }

    /// Ends its direction. It counts as ended also where the writer answers an error: nothing more is written.
    pub fn end_direction(&mut self) -> io::Result<()>
        ensures held { Keeps self.old.held self.new.held }
        ensures failed { self.new.failed ≡ self.old.failed }
        ensures late { self.new.late ≡ self.old.late }
        ensures ended { self.new.ended ≡ true }
        ensures known { IfOk result (λ done. self.new.knows_end ≡ true) }
        ensures calls { self.new.calls ≡ one_call_more self.old.calls }
    {
        self.is_ended = true;
        self.calls = self.calls.wrapping_add(1);
        self.writer.end_direction()
    }
}

/// Whether the deadline had passed by a write that has answered so.
fn is_late(answer: &io::Result<usize>) -> bool
    ensures { result ≡ is_late answer.now }
{
    match answer {
        Ok(_) => false,
        Err(error) => match error.kind() {
            ErrorKind::TimedOut => true,
            _ => false,
        },
    }
}

/// Whether a write of some bytes that has answered so has failed: it answered an error, or took none.
fn is_failure(answer: &io::Result<usize>) -> bool
    ensures { (bytes : List ℕ) → 0 < length bytes → result ≡ write_fails answer.now bytes }
{
    match answer {
        Ok(taken) => *taken == 0,
        Err(_) => true,
    }
}
