//! A connection as a tester holds it: a reader and a writer that belong together, watched as one.

ghost use Rattle.std.specs.Prelude.{◌≡◌, ◌<◌, length, false};
ghost use Rattle.ws_machines.specs.Machines.{FitsRead, FitsWrite};
ghost use Rattle.ws_machines.specs.Told.{told_by_read, told_by_write};
ghost use Rattle.ws_machines.specs.Told.Told.{DirectionEnded};
ghost use Rattle.ws_connection.specs.Connections.{IsNewConnection};
ghost use Rattle.ws_connection.specs.StreamCalls.{IsCallOf};

use crate::device_calls::{ReadCalls, WriteCalls};
use crate::ending::EndsDirection;
use crate::incoming::Incoming;
use crate::waiting::{WaitTimer, WaitingRead};
use std::marker::Model;
use ws_machines::{ReadOutcome, WriteOutcome};

/// A reader and a writer that belong together, and how both directions stand. An error of the kind `WouldBlock`, which
/// a socket answers where its time-out has expired, is a read that has waited in vain, and no failure. One of the kind
/// `TimedOut` says that the deadline of the connection has passed. It is a stream: each thing that it tells is one call
/// of one of them (`IsCallOf`).
#[derive(Drop)]
pub struct Connection<R: WaitingRead, W: EndsDirection> {
    reader: ReadCalls<R>,
    timer: R::Timer,
    writer: WriteCalls<W>,
    has_waited: bool,
    allowance: u64,
}

impl<R: WaitingRead, W: EndsDirection> Model for Connection<R, W> {
    ghost use Rattle.ws_connection.specs.ConnectionValues.{ConnectionValue};

    ghost Value = { ConnectionValue };

    ghost view = { λ connection. record {
      input = record {
        left = connection.reader.left;
        state = connection.reader.state;
        waited = connection.has_waited;
        enough = R.Timer.has_waited connection.timer;
        allowance = connection.allowance;
        calls = connection.reader.calls;
      };
      output = record {
        held = connection.writer.held;
        failed = connection.writer.failed;
        late = connection.writer.late;
        ended = connection.writer.ended;
        calls = connection.writer.calls;
      };
    } };
}

impl<R: WaitingRead, W: EndsDirection> Connection<R, W> {
    /// A connection over which nothing has gone yet, and behind whose head at most `budget` bytes are to be read by
    /// whoever reads it.
    pub fn new(reader: R, writer: W, budget: u64) -> Connection<R, W>
        ensures new { IsNewConnection result }
        ensures left { result.input.left ≡ R.remaining reader }
        ensures held { result.output.held ≡ W.contents writer }
        ensures waited { result.input.waited ≡ false }
        ensures budget { result.input.allowance ≡ budget }
    {
        let timer = reader.timer();
        Connection {
            reader: ReadCalls::new(reader),
            timer,
            writer: WriteCalls::new(writer),
            has_waited: false,
            allowance: budget,
        }
    }

    /// The reader and the writer.
    pub fn into_parts(self) -> (R, W)
        ensures left { R.remaining result.0 ≡ self.input.left }
        ensures held { W.contents result.1 ≡ self.output.held }
    {
        let Connection { reader, writer, .. } = self;
        (reader.into_inner(), writer.into_inner())
    }

    /// How the reads stand.
    pub fn incoming(&self) -> Incoming
        ensures { result ≡ self.now.input.state }
    {
        self.reader.state()
    }

    /// Whether some read has waited in vain.
    pub fn has_waited(&self) -> bool
        ensures { result ≡ self.now.input.waited }
    {
        self.has_waited
    }

    /// How many bytes may be read behind the head. Whoever reads them counts them.
    pub fn allowance(&self) -> u64
        ensures { result ≡ self.now.input.allowance }
    {
        self.allowance
    }

    /// Reads once.
    pub fn read_once(&mut self, room: &mut [u8]) -> ReadOutcome
        requires { 0 < length room.old }
        ensures fits { FitsRead (length room.new) result }
        ensures len { length room.new ≡ length room.old }
        ensures call { IsCallOf (told_by_read room.new result) (record { old = self.old; new = self.new }) }
    {
        let answer = self.reader.read(room);
        match answer {
            Ok(0) => ReadOutcome::Ended,
            Ok(count) => ReadOutcome::Came(count),
            Err(_) if self.reader.state() == Incoming::Waited => {
                self.has_waited = true;
                ReadOutcome::NothingCame
            }
            Err(_) if self.reader.state() == Incoming::Late => {
                ReadOutcome::DeadlinePassed(self.timer.has_waited())
            }
            Err(_) => ReadOutcome::Failed,
        }
    }

    /// Writes once.
    pub fn write_once(&mut self, bytes: &[u8]) -> WriteOutcome
        requires { 0 < length bytes.now }
        ensures fits { FitsWrite (length bytes.now) result }
        ensures call { IsCallOf (told_by_write bytes.now result) (record { old = self.old; new = self.new }) }
    {
        match self.writer.write(bytes) {
            Ok(0) => WriteOutcome::Failed,
            Ok(taken) => WriteOutcome::Taken(taken),
            Err(_) if self.writer.is_late() => {
                WriteOutcome::DeadlinePassed(self.timer.has_waited())
            }
            Err(_) => WriteOutcome::Failed,
        }
    }

    /// The time limit of what is waited for begins anew.
    pub fn wait_anew(&mut self)
        ensures { self.new ≡ self.old }
    {
        self.timer.begin_wait();
    }

    /// Ends its own direction, also where it was ended before. It counts as ended also where the writer answers an
    /// error.
    pub fn end_once(&mut self)
        ensures { IsCallOf DirectionEnded (record { old = self.old; new = self.new }) }
    {
        let _ = self.writer.end_direction();
    }
}
