//! Reading an input whose lines are taken as they are read.

ghost use Rattle.std.specs.Prelude.{◌≡◌, false, []};
ghost use Rattle.ws_frame.specs.Devices.{watched};
ghost use Rattle.ws_frame.specs.Watching.{has_failed};
ghost use Rattle.ws_text_feed.specs.Feeding.{IsFed, WasFed};
ghost use Rattle.wst_commands.specs.ReadingLines.{DropsRest, FeedsInput, TakesInput, input_fault};

use crate::reading_whole::ReadStop;
use std::alloc::Global;
use std::io::Read;
use ws_base::TextFault;
use ws_frame::{READ_SIZE, Watched};
use ws_text_feed::{TakeValues, TextFeed};

/// Why what the lines of an input tell was not all taken.
#[derive(Clone, Copy)]
pub enum InputFault {
    /// The input was not read whole.
    Stop(ReadStop),
    /// It was, and a line of it is damaged.
    Text(TextFault),
}

/// Takes the values that the lines of an input tell, each as soon as its line is read. Nothing is kept of a line whose
/// value is taken. Behind a damaged line the rest is read and dropped, and a read that fails there is told in its
/// place. Once memory lacks nothing more is read.
pub fn take_input<R: Read, T: TakeValues>(
    alloc: Global,
    reader: &mut Watched<R>,
    taker: T,
) -> Result<T, InputFault>
    requires works { has_failed reader.old ≡ false }
    requires stays { T.has_taken taker [] taker }
    ensures { TakesInput T.is_line_of T.has_taken taker result (watched R.remaining reader.old reader.new) }
{
    let mut feed = TextFeed::new(alloc, taker);
    match feed_input(alloc, reader, &mut feed) {
        Ok(()) => {}
        Err(InputFault::Stop(stop)) => return Err(InputFault::Stop(stop)),
        Err(InputFault::Text(fault)) => match drop_rest(reader) {
            Ok(()) => return Err(InputFault::Text(fault)),
            Err(stop) => return Err(InputFault::Stop(stop)),
        },
    }
    match feed.end() {
        Ok(taker) => Ok(taker),
        Err(fault) => Err(input_fault(fault)),
    }
}

/// Feeds what the reader gives, until it ends or the feed refuses it.
fn feed_input<R: Read, T: TakeValues>(
    alloc: Global,
    reader: &mut Watched<R>,
    feed: &mut TextFeed<T>,
) -> Result<(), InputFault>
    requires works { has_failed reader.old ≡ false }
    requires fed { WasFed T.is_line_of T.has_taken feed.old }
    ensures { (first : T) → IsFed T.is_line_of T.has_taken first [] feed.old →
        FeedsInput T.is_line_of T.has_taken first feed.new result (watched R.remaining reader.old reader.new) }
{
    let mut room = [0; READ_SIZE];
    'reads: for _ in 0..u64::MAX {
        match reader.read(&mut room) {
            Err(_) => return Err(InputFault::Stop(ReadStop::Fault)),
            Ok(0) => return Ok(()),
            Ok(count) => match feed.feed(alloc, &room[..count]) {
                Ok(()) => {}
                Err(fault) => return Err(input_fault(fault)),
            },
        }
    }
    // Nobody reads so often.
    Err(InputFault::Stop(ReadStop::NoMemory))
}

/// What ends the reading at a fault of a text.
fn input_fault(fault: TextFault) -> InputFault
    ensures { result ≡ input_fault fault }
{
    match fault {
        TextFault::Damaged(line) => InputFault::Text(TextFault::Damaged(line)),
        TextFault::NoMemory => InputFault::Stop(ReadStop::NoMemory),
    }
}

/// Reads the rest of an input, and drops it.
pub(crate) fn drop_rest<R: Read>(reader: &mut Watched<R>) -> Result<(), ReadStop>
    requires { has_failed reader.old ≡ false }
    ensures { DropsRest result (watched R.remaining reader.old reader.new) }
{
    let mut room = [0; READ_SIZE];
    'reads: for _ in 0..u64::MAX {
        match reader.read(&mut room) {
            Err(_) => return Err(ReadStop::Fault),
            Ok(0) => return Ok(()),
            Ok(_) => {}
        }
    }
    // Nobody reads so often.
    Err(ReadStop::NoMemory)
}
