//! Reading an input to its end.

ghost use Rattle.std.specs.Prelude.{◌≡◌, false};
ghost use Rattle.ws_frame.specs.Devices.{watched};
ghost use Rattle.ws_frame.specs.Watching.{has_failed};
ghost use Rattle.wst_commands.specs.ReadingWhole.{ReadsWhole};

use std::alloc::Global;
use std::io::Read;
use ws_frame::{InputEnd, Watched, read_input};

/// Why an input was not read whole.
#[derive(Clone, Copy)]
pub enum ReadStop {
    /// A read answered an error.
    Fault,
    /// Memory ran out.
    NoMemory,
}

/// All bytes that the reader gives.
pub fn read_whole<R: Read>(alloc: Global, reader: &mut Watched<R>) -> Result<Vec<u8>, ReadStop>
    requires { has_failed reader.old ≡ false }
    ensures { ReadsWhole result (watched R.remaining reader.old reader.new) }
{
    let (text, end) = read_input(alloc, reader, None);
    match end {
        InputEnd::End => Ok(text),
        InputEnd::Fault => Err(ReadStop::Fault),
        InputEnd::NoMemory => Err(ReadStop::NoMemory),
        InputEnd::Budget => unreachable!(),
    }
}
