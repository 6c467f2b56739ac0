//! The lines of a stream of frames with payloads in any style (RFC 6455 section 5.2), from a reader to a writer.

ghost use Rattle.std.specs.Prelude.{◌≡◌, false, true};
ghost use Rattle.ws_frame.specs.Watching.{has_failed};
ghost use Rattle.ws_frame.specs.Devices.{watched};
ghost use Rattle.ws_frame.specs.Lines.{IsFairEnd, Shows, takes_memory};

use crate::Watched;
use crate::frame_lines::write_piece;
use crate::payload_lines::PayloadLines;
use crate::show_fault::ShowFault;
use crate::showing::{SHOW_READ_SIZE, ShowEnd};
use crate::source::Source;
use crate::writing_lines::end_with;
use std::alloc::Global;
use std::io::{Read, Write};

/// The same as `show`, with the payloads in the style of the source. Each frame is kept until it is whole. Where memory
/// runs out, the lines of what came before the last read are written.
pub fn show_payloads<R: Read, W: Write>(
    alloc: Global,
    reader: &mut Watched<R>,
    writer: &mut Watched<W>,
    source: Source,
    budget: u64,
) -> ShowEnd
    requires reader_works { has_failed reader.old ≡ false }
    requires writer_works { has_failed writer.old ≡ false }
    requires memory { takes_memory source.style ≡ true }
    ensures lines { Shows source budget result
        (watched R.remaining reader.old reader.new) (watched W.contents writer.old writer.new) }
    ensures fair { IsFairEnd result
        (watched R.remaining reader.old reader.new) (watched W.contents writer.old writer.new) }
{
    let mut room = [0; SHOW_READ_SIZE];
    let mut stream = PayloadLines::new(alloc, source);
    let mut left = budget;
    while left > 0 {
        let want = left.min(SHOW_READ_SIZE as u64) as usize;
        let buf = &mut room[..want];
        let count = match reader.read(buf) {
            Err(_) => return ShowEnd::ReadFault,
            Ok(0) => {
                let end = stream.end();
                stream.room.clear();
                return end_with(&mut stream.room, writer, source, end);
            }
            Ok(count) => count,
        };
        match write_piece(alloc, &mut stream, writer, &buf[..count]) {
            Err(ShowFault::Write) => return ShowEnd::WriteFault,
            Err(ShowFault::NoMemory) => return ShowEnd::NoMemory,
            Ok(()) => {}
        }
        if stream.stopped {
            return ShowEnd::BadLengthAt(stream.offset);
        }
        left -= count as u64;
    }
    ShowEnd::Budget
}
