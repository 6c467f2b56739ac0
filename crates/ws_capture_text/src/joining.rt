//! The lines of format 1 as those of format 2.

ghost use Rattle.std.specs.Prelude.{◌≡◌, ◌++◌, List, ℕ, None, codes, false, IfOk, OnOk};
ghost use Rattle.std.specs.List.{AllByRecursion};
ghost use Rattle.ws_formats.specs.Lines.{IsLine, ended};
ghost use Rattle.ws_frame.specs.Devices.{watched};
ghost use Rattle.ws_frame.specs.Streaming.{WritesAll};
ghost use Rattle.ws_frame.specs.Watching.{has_failed};
ghost use Rattle.ws_capture_text.specs.InnerMarks.{parted};
ghost use Rattle.ws_capture_text.specs.InnerJoining.{joined_lines, mark_in, put_of, text_before};
ghost use Rattle.ws_rooms.specs.Rooms.{WritesAndKeeps};

use crate::mark::{Mark, cut_mark};
use std::io::Write;
use ws_formats::cut_line;
use ws_frame::{Watched, WriteFault};
use ws_rooms::{Room, flush, put};

/// Writes lines of format 1, all but the first, as those of format 2, behind its first two.
pub(crate) fn write_joined<W: Write>(
    lines: &[u8],
    writer: &mut Watched<W>,
) -> Result<(), WriteFault>
    requires { has_failed writer.old ≡ false }
    ensures { (all : List (List ℕ)) → AllByRecursion IsLine all → lines.now ≡ ended all →
        WritesAll (codes "wst-capture 2\nkey -\n" ++ joined_lines None all)
        (watched W.contents writer.old writer.new) result }
{
    let mut room = Room::new();
    put(&mut room, b"wst-capture 2\nkey -\n".as_slice(), writer)?;
    put_lines(&mut room, lines, writer)?;
    flush(&mut room, writer)
}

/// Puts these lines.
fn put_lines<W: Write>(
    room: &mut Room,
    lines: &[u8],
    writer: &mut Watched<W>,
) -> Result<(), WriteFault>
    requires { has_failed writer.old ≡ false }
    ensures works { OnOk result (has_failed writer.new ≡ false) }
    ensures written { (all : List (List ℕ)) → AllByRecursion IsLine all → lines.now ≡ ended all →
        WritesAndKeeps (room.old ++ joined_lines None all) room.new (watched W.contents writer.old writer.new) result }
{
    let mut rest = lines;
    let mut last = None;
    while let Some((line, after)) = cut_line(rest) {
        last = put_line(room, last, line, writer)?;
        rest = after;
    }
    Ok(())
}

/// Puts a line behind those with the last mark: its digits, where it has any. Answers its mark.
fn put_line<W: Write>(
    room: &mut Room,
    last: Option<Mark>,
    line: &[u8],
    writer: &mut Watched<W>,
) -> Result<Option<Mark>, WriteFault>
    requires { has_failed writer.old ≡ false }
    ensures written { WritesAndKeeps (room.old ++ put_of last line.now) room.new
        (watched W.contents writer.old writer.new) result }
    ensures mark { IfOk result (λ mark. mark ≡ mark_in (parted line.now)) }
{
    match cut_mark(line) {
        Some((mark, word)) => {
            put(room, text_before(last, Some(mark)), writer)?;
            put(room, word, writer)?;
            Ok(Some(mark))
        }
        None => {
            put(room, text_before(last, None), writer)?;
            put_ended(room, line, writer)?;
            Ok(None)
        }
    }
}

/// Puts a line and its LF.
fn put_ended<W: Write>(
    room: &mut Room,
    line: &[u8],
    writer: &mut Watched<W>,
) -> Result<(), WriteFault>
    requires { has_failed writer.old ≡ false }
    ensures { WritesAndKeeps (room.old ++ (line.now ++ codes "\n")) room.new
        (watched W.contents writer.old writer.new) result }
{
    put(room, line, writer)?;
    put(room, b"\n".as_slice(), writer)
}

/// What stands before the digits of a line with a mark, or before a line without one, behind the digits of a line with
/// the last mark, where there is any.
fn text_before(last: Option<Mark>, mark: Option<Mark>) -> &'static [u8]
    ensures { result.now ≡ text_before last mark }
{
    match (last, mark) {
        (None, Some(Mark::Sent)) => b"turn\n> ".as_slice(),
        (None, Some(Mark::Got)) => b"turn\n< ".as_slice(),
        (Some(Mark::Sent), Some(Mark::Got)) => b"\n< ".as_slice(),
        (Some(Mark::Got), Some(Mark::Sent)) => b"\nturn\n> ".as_slice(),
        (Some(_), None) => b"\n".as_slice(),
        _ => b"".as_slice(),
    }
}
