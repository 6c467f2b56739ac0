//! The lines that are told of clients that are served (docs/FORMATS.md).

ghost use Rattle.std.specs.Prelude.{◌≡◌, false};
ghost use Rattle.ws_frame.specs.Devices.{watched};
ghost use Rattle.ws_frame.specs.Watching.{has_failed};
ghost use Rattle.wst_services.specs.ServedLines.{PutsLine, connection_line, served_as};

use crate::serving_clients::deliver_line;
use std::alloc::Global;
use std::io::Write;
use ws_base::NoMemory;
use ws_connection::Served;
use ws_echo::EchoEnd;
use ws_frame::Watched;
use ws_serving::{ClientEnd, News, NewsSink};
use wst_commands::{Exit, tell};

/// That no connection can be taken for now.
pub(crate) const FULL: &[u8] =
    b"cannot accept another connection until one ends\n  raise the limit of open files: ulimit -n 4096\n";

/// Why no more lines are told.
#[derive(Clone, Copy, PartialEq, Eq)]
pub(crate) enum LineFault {
    /// One could not be written or flushed.
    Output,
    /// Memory ran out for one.
    NoMemory,
}

/// It tells in a line, which is flushed, how each connection has ended; and to `faults` that no client can be taken for
/// now.
#[derive(Drop)]
pub(crate) struct ServedLines<'a, W, F> {
    alloc: Global,
    writer: &'a mut Watched<W>,
    faults: &'a mut Watched<F>,
}

impl<'a, W: Write, F: Write> ServedLines<'a, W, F> {
    /// It tells to these.
    pub(crate) fn new(
        alloc: Global,
        writer: &'a mut Watched<W>,
        faults: &'a mut Watched<F>,
    ) -> ServedLines<'a, W, F>
        ensures writer { result.writer.now ≡ writer.old }
        ensures writer_borrow { result.writer.ghost_name ≡ writer.entry.ghost_name }
        ensures faults { result.faults.now ≡ faults.old }
        ensures faults_borrow { result.faults.ghost_name ≡ faults.entry.ghost_name }
    {
        ServedLines {
            alloc,
            writer,
            faults,
        }
    }
}

impl<W: Write, F: Write> NewsSink for ServedLines<'_, W, F> {
    ghost use Rattle.std.specs.Prelude.{◌≡◌};
    ghost use Rattle.ws_frame.specs.Devices.{watched};
    ghost use Rattle.ws_frame.specs.Watching.{has_failed};
    ghost use Rattle.wst_services.specs.ServedLines.{AreSameDevices, HasRefusedNews, HasToldNews};

    type Fault = LineFault;

    ghost heard = { λ start now taken. HasToldNews taken (watched W.contents start.writer.now now.writer.now)
        (has_failed start.writer.now) (watched F.contents start.faults.now now.faults.now)
        × AreSameDevices start.writer.ghost_name now.writer.ghost_name start.faults.ghost_name now.faults.ghost_name };

    ghost refused = { λ old new news why. HasRefusedNews news why (watched W.contents old.writer.now new.writer.now)
        (has_failed old.writer.now) × (new.faults.now ≡ old.faults.now)
        × AreSameDevices old.writer.ghost_name new.writer.ghost_name old.faults.ghost_name new.faults.ghost_name };

    fn put(&mut self, news: News) -> Result<(), LineFault> {
        match news {
            News::Ended(number, end) => {
                put_line(self.alloc, number, served_as(end), self.writer)
            }
            News::Full => {
                tell(FULL, self.faults);
                Ok(())
            }
        }
    }
}

/// Tells in a line, which is flushed, how the connection of this number ended.
fn put_line<W: Write>(
    alloc: Global,
    number: u64,
    served: Served,
    writer: &mut Watched<W>,
) -> Result<(), LineFault>
    ensures { PutsLine (connection_line number served) result (watched W.contents writer.old writer.new)
        (has_failed writer.old) }
{
    if writer.failed() {
        return Err(LineFault::Output);
    }
    match format!(in alloc; "{number} {served}\n") {
        Ok(line) => write_line(line.as_bytes(), writer),
        Err(_) => Err(LineFault::NoMemory),
    }
}

/// Writes a line and flushes it.
fn write_line<W: Write>(line: &[u8], writer: &mut Watched<W>) -> Result<(), LineFault>
    requires { has_failed writer.old ≡ false }
    ensures { PutsLine line.now result (watched W.contents writer.old writer.new) (has_failed writer.old) }
{
    let _ = deliver_line(line, writer);
    if writer.failed() {
        Err(LineFault::Output)
    } else {
        Ok(())
    }
}

/// How the connection of a client ended, as a line tells it.
pub(crate) fn served_as(end: ClientEnd) -> Served
    ensures { result ≡ served_as end }
{
    match end {
        ClientEnd::Refused(fault) => Served::Refused(fault),
        ClientEnd::Echoed(EchoEnd::Done(status)) => Served::Ended(status),
        ClientEnd::Echoed(EchoEnd::Budget | EchoEnd::Stopped(_))
        | ClientEnd::Lost
        | ClientEnd::NoMemory => Served::Stopped,
    }
}
