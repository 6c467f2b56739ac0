//! An input read from a watched reader, to its end or to a budget.

ghost use Rattle.std.specs.Prelude.{◌≡◌, false};
ghost use Rattle.ws_frame.specs.Watching.{has_failed};
ghost use Rattle.ws_frame.specs.Devices.{watched};
ghost use Rattle.ws_frame.specs.ReadingInput.{ReadsInput};

use crate::watching::Watched;
use std::alloc::Global;
use std::io::Read;

/// How many bytes one read of an input or of a connection asks for at most.
pub const READ_SIZE: usize = 4096;

/// How the reading of an input ended.
#[derive(Clone, Copy)]
pub enum InputEnd {
    /// The reader is at its end, before the budget was used up.
    End,
    /// As many bytes as the budget allows were read.
    Budget,
    /// A read answered an error.
    Fault,
    /// Memory ran out.
    NoMemory,
}

/// Reads to the end, to a failed read, to the budget, or until memory runs out, and answers what was read. No read asks
/// for more than `READ_SIZE` bytes or than is left of the budget, which counts bytes; once it is used up nothing more
/// is read. Without a budget the input is read to its end.
pub fn read_input<R: Read>(
    alloc: Global,
    reader: &mut Watched<R>,
    budget: Option<u64>,
) -> (Vec<u8>, InputEnd)
    requires { has_failed reader.old ≡ false }
    ensures { ReadsInput budget result.1 result.0.items (watched R.remaining reader.old reader.new) }
{
    let mut input = Vec::new(alloc);
    let mut room = [0; READ_SIZE];
    // No vector holds so many bytes.
    let mut left = budget.unwrap_or(u64::MAX);
    while left > 0 {
        let want = left.min(READ_SIZE as u64) as usize;
        if input.try_reserve(want).is_err() {
            return (input, InputEnd::NoMemory);
        }
        let buf = &mut room[..want];
        match reader.read(buf) {
            Err(_) => return (input, InputEnd::Fault),
            Ok(0) => return (input, InputEnd::End),
            Ok(count) => {
                if input.extend_from_slice(&buf[..count]).is_err() {
                    unreachable!()
                }
                left -= count as u64;
            }
        }
    }
    (input, InputEnd::Budget)
}
