//! The line of a frame whose payload is at hand, in any style (RFC 6455 section 5.2).

ghost use Rattle.std.specs.Prelude.{◌≡◌, ◌++◌, OnOk};
ghost use Rattle.ws_wire.specs.Masking.{masked_payload};
ghost use Rattle.ws_frame.specs.Lines.{line_of};
ghost use Rattle.ws_frame.specs.InnerPrinting.{line_printed};

use crate::line::{push_end, push_front};
use crate::payload_word::put_payload;
use crate::room::Room;
use crate::source::Source;
use ws_base::NoMemory;
use ws_wire::{Header, mask};

/// A frame that has a line.
#[derive(Drop)]
pub(crate) struct FrameLine<'a> {
    pub(crate) source: Source,
    /// The place of its first byte in the stream.
    pub(crate) offset: u64,
    pub(crate) header: Header,
    /// Its payload.
    pub(crate) payload: &'a [u8],
}

/// Puts the line of a frame whose payload stands so on the wire. What stood in the two rooms is lost.
pub(crate) fn put_frame(
    frame: &FrameLine<'_>,
    unmasked: &mut Vec<u8>,
    room: &mut Room,
    lines: &mut Vec<u8>,
) -> Result<(), NoMemory>
    ensures { OnOk result (lines.new.items ≡ lines.old.items ++ line_of frame.now.source frame.now.offset
        (record { header = frame.now.header; payload = masked_payload frame.now.header.key frame.now.payload.now })) }
{
    let Some(key) = frame.header.key() else {
        return put_line(frame, room, lines);
    };
    unmasked.clear();
    unmasked.extend_from_slice(frame.payload)?;
    mask(key, 0, unmasked.as_mut_slice());
    let shown = FrameLine {
        source: frame.source,
        offset: frame.offset,
        header: frame.header,
        payload: unmasked.as_slice(),
    };
    put_line(&shown, room, lines)
}

/// Puts the line of a frame with this payload, ended by LF.
fn put_line(line: &FrameLine<'_>, room: &mut Room, lines: &mut Vec<u8>) -> Result<(), NoMemory>
    ensures { OnOk result (lines.new.items ≡ lines.old.items ++ line_printed line.now) }
{
    room.clear();
    push_front(room, line.source.mark, line.offset, &line.header);
    lines.extend_from_slice(room.as_slice())?;
    put_payload(line.source.style, line.header.opcode(), line.payload, lines)?;
    room.clear();
    push_end(room, line.source, line.offset, &line.header);
    lines.extend_from_slice(room.as_slice())?;
    Ok(())
}
