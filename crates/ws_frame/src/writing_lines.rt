//! Lines of `show` that are put into a room, and written from it.

ghost use Rattle.std.specs.Prelude.{◌≡◌, ◌≤◌, ◌+◌, [], ◌++◌, length, false, OnOk};
ghost use Rattle.ws_frame.specs.Watching.{has_failed};
ghost use Rattle.ws_frame.specs.Devices.{watched};
ghost use Rattle.ws_wire.specs.Masking.{masked_payload};
ghost use Rattle.ws_frame.specs.Lines.{data_word, line_with, last_line};
ghost use Rattle.ws_frame.specs.InnerShowing.{WritesSome, EndsWith};
ghost use Rattle.ws_frame.specs.Streaming.{WritesAll};

use crate::first_bytes::FirstBytes;
use crate::line::{MAX_LINE, push_line};
use crate::one_line::OneLine;
use crate::room::{ROOM, Room};
use crate::showing::{ShowEnd, StreamEnd};
use crate::{Source, Watched, WriteFault, write_whole};
use std::io::Write;
use ws_wire::Header;

/// Puts the line of a frame behind those that wait, which are written first where there is no room for one more.
/// `first` are the first bytes of the payload as they stand on the wire.
pub(crate) fn put_line<W: Write>(
    lines: &mut Room,
    writer: &mut Watched<W>,
    source: Source,
    offset: u64,
    header: Header,
    first: FirstBytes,
) -> Result<(), WriteFault>
    requires { has_failed writer.old ≡ false }
    ensures { WritesSome (lines.old
        ++ line_with source offset header (data_word header.len (masked_payload header.key first))) lines.new
        (watched W.contents writer.old writer.new) result }
{
    make_room(lines, writer)?;
    let shown = unmasked(header.key(), first);
    push_line(lines, source, offset, &header, &shown);
    Ok(())
}

/// Makes room for one more line: those that wait are written where there is none.
fn make_room<W: Write>(lines: &mut Room, writer: &mut Watched<W>) -> Result<(), WriteFault>
    requires { has_failed writer.old ≡ false }
    ensures written { WritesSome lines.old lines.new (watched W.contents writer.old writer.new) result }
    ensures room { OnOk result (length lines.new + 200 ≤ 2048) }
{
    if ROOM - lines.len() < MAX_LINE {
        return flush(lines, writer);
    }
    Ok(())
}

/// The first bytes of a payload, unmasked.
pub(crate) fn unmasked(key: Option<[u8; 4]>, first: FirstBytes) -> FirstBytes
    ensures { result ≡ masked_payload key first }
{
    let mut shown = first;
    if let Some(key) = key {
        shown.unmask(key);
    }
    shown
}

/// Writes the lines that wait.
pub(crate) fn flush<W: Write>(lines: &mut Room, writer: &mut Watched<W>) -> Result<(), WriteFault>
    requires { has_failed writer.old ≡ false }
    ensures written { WritesSome lines.old lines.new (watched W.contents writer.old writer.new) result }
    ensures empty { OnOk result (lines.new ≡ []) }
{
    write_whole(writer, lines.as_slice())?;
    lines.clear();
    Ok(())
}

/// Writes the line for this end of the stream, if it has one, and answers how the run ended.
pub(crate) fn end_with<W: Write>(
    lines: &mut Room,
    writer: &mut Watched<W>,
    source: Source,
    end: StreamEnd,
) -> ShowEnd
    requires works { has_failed writer.old ≡ false }
    requires empty { lines.old ≡ [] }
    ensures { EndsWith source end (watched W.contents writer.old writer.new) result }
{
    push_last_line(lines, source, end);
    match flush(lines, writer) {
        Ok(()) => end.run_end(),
        Err(_) => ShowEnd::WriteFault,
    }
}

/// Writes the line for this end of the stream, if it has one.
pub(crate) fn write_last_line<W: Write>(
    lines: &mut Room,
    writer: &mut Watched<W>,
    source: Source,
    end: StreamEnd,
) -> Result<(), WriteFault>
    requires works { has_failed writer.old ≡ false }
    requires empty { lines.old ≡ [] }
    ensures written { WritesAll (last_line source end) (watched W.contents writer.old writer.new) result }
    ensures empty { OnOk result (lines.new ≡ []) }
{
    push_last_line(lines, source, end);
    flush(lines, writer)?;
    Ok(())
}

/// Puts the line for this end of the stream, if it has one.
pub(crate) fn push_last_line(lines: &mut Room, source: Source, end: StreamEnd)
    requires { lines.old ≡ [] }
    ensures pushed { lines.new ≡ last_line source end }
    ensures len { length lines.new ≤ 200 }
{
    let (words, place) = match end {
        StreamEnd::Whole => return,
        StreamEnd::CutAt(place) => (b"cut at ".as_slice(), place),
        StreamEnd::BadLengthAt(place) => (b"bad length at ".as_slice(), place),
    };
    source.mark.push_to(lines);
    lines.push(words);
    lines.push_decimal(place);
    lines.push(b"\n");
}

/// The line for this end of the stream, and no bytes where it has none.
pub(crate) fn last_line_of(source: Source, end: StreamEnd) -> OneLine
    ensures { result ≡ last_line source end }
{
    let mut room = Room::new();
    push_last_line(&mut room, source, end);
    OneLine::of(room.as_slice())
}
