//! Reading an input as a capture.

ghost use Rattle.std.specs.Prelude.{◌≡◌, false};
ghost use Rattle.ws_frame.specs.Devices.{watched};
ghost use Rattle.ws_frame.specs.Watching.{has_failed};
ghost use Rattle.wst_commands.specs.ReadingCapture.{FeedsCapture, ReadsCapture, capture_stop, ended_by};

use crate::exit::Exit;
use crate::fault::Fault;
use crate::judge::fault_of;
use crate::reading_lines::drop_rest;
use crate::reading_whole::ReadStop;
use std::alloc::Global;
use std::io::Read;
use ws_frame::{READ_SIZE, Watched};
use ws_suite::{CaptureFault, CaptureFeed, KeptCapture};

/// Why an input gave no capture.
#[derive(Drop)]
pub(crate) enum CaptureStop {
    /// The input was not read whole.
    Stop(ReadStop),
    /// It was, and a line of it is damaged.
    Fault(CaptureFault),
}

/// The capture that the reader gives, in either format. Its text isn't kept. Behind a damaged line the rest is read and
/// dropped, and a read that fails there is told in its place. Once memory lacks nothing more is read.
pub(crate) fn read_capture<R: Read>(
    alloc: Global,
    reader: &mut Watched<R>,
) -> Result<KeptCapture, CaptureStop>
    requires { has_failed reader.old ≡ false }
    ensures { ReadsCapture result (watched R.remaining reader.old reader.new) }
{
    match feed_capture(alloc, reader) {
        Ok(feed) => match feed.end() {
            Ok(capture) => Ok(capture),
            Err(fault) => Err(capture_stop(fault)),
        },
        Err(CaptureStop::Stop(stop)) => Err(CaptureStop::Stop(stop)),
        Err(CaptureStop::Fault(fault)) => match drop_rest(reader) {
            Ok(()) => Err(CaptureStop::Fault(fault)),
            Err(stop) => Err(CaptureStop::Stop(stop)),
        },
    }
}

/// Feeds what the reader gives, until it ends or the feed refuses it.
fn feed_capture<R: Read>(alloc: Global, reader: &mut Watched<R>) -> Result<CaptureFeed, CaptureStop>
    requires { has_failed reader.old ≡ false }
    ensures { FeedsCapture result (watched R.remaining reader.old reader.new) }
{
    let mut feed = CaptureFeed::new(alloc);
    let mut room = [0; READ_SIZE];
    'reads: for _ in 0..u64::MAX {
        match reader.read(&mut room) {
            Err(_) => return Err(CaptureStop::Stop(ReadStop::Fault)),
            Ok(0) => return Ok(feed),
            Ok(count) => match feed.feed(alloc, &room[..count]) {
                Ok(longer) => feed = longer,
                Err(fault) => return Err(capture_stop(fault)),
            },
        }
    }
    // Nobody reads so often.
    Err(CaptureStop::Stop(ReadStop::NoMemory))
}

/// What ends the reading at a fault of a capture.
fn capture_stop(fault: CaptureFault) -> CaptureStop
    ensures { result ≡ capture_stop fault }
{
    match fault {
        CaptureFault::Damaged(line) => CaptureStop::Fault(CaptureFault::Damaged(line)),
        CaptureFault::NoMemory => CaptureStop::Stop(ReadStop::NoMemory),
    }
}

/// How a run ends whose input gave no capture.
pub(crate) fn ended_by(stop: CaptureStop) -> Result<Exit, Fault>
    ensures { result ≡ ended_by stop }
{
    match stop {
        CaptureStop::Stop(ReadStop::Fault) => Ok(Exit::Failed),
        CaptureStop::Stop(ReadStop::NoMemory) => Err(Fault::NoMemory),
        CaptureStop::Fault(fault) => Err(fault_of(fault)),
    }
}
