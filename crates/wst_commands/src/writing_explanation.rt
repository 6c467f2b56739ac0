//! A verdict and why it is told, with the first bytes of payloads, written through a room: no text of all lines is
//! made.

ghost use Rattle.std.specs.Prelude.{◌≡◌, ◌++◌, false};
ghost use Rattle.std.specs.List.{flat_map};
ghost use Rattle.ws_rooms.specs.Rooms.{WritesAndKeeps};
ghost use Rattle.ws_frame.specs.Devices.{watched};
ghost use Rattle.ws_frame.specs.declared.source.DataStyle.TheVariants.{Hex};
ghost use Rattle.ws_frame.specs.Streaming.{WritesAll};
ghost use Rattle.ws_frame.specs.Watching.{has_failed};
ghost use Rattle.wst_commands.specs.Explaining.{reply_line};
ghost use Rattle.wst_commands.specs.InnerExplaining.{explained_text};
ghost use Rattle.wst_commands.specs.declared.explanation_lines.Side.TheVariants.{Due, Got};

use crate::explanation_lines::Side;
use crate::reply_text::ReplyText;
use std::io::Write;
use ws_frame::{Watched, WriteFault};
use ws_rooms::{Room, flush, put};
use ws_suite::{Explanation, Replies};

/// Writes the line of a verdict and the lines below it: those of the replies as they are made, and those behind what
/// was owed and behind what came as they are given.
pub(crate) fn write_explained<W: Write>(
    line: &str,
    explanation: &Explanation,
    due_end: &str,
    got_end: &str,
    writer: &mut Watched<W>,
) -> Result<(), WriteFault>
    requires { has_failed writer.old ≡ false }
    ensures { WritesAll (explained_text line.now explanation.now due_end.now got_end.now)
        (watched W.contents writer.old writer.new) result }
{
    let mut room = Room::new();
    put(&mut room, line.as_bytes(), writer)?;
    put_side(
        &mut room,
        Side::Due,
        &explanation.due.replies,
        due_end,
        writer,
    )?;
    put_side(
        &mut room,
        Side::Got,
        &explanation.got.replies,
        got_end,
        writer,
    )?;
    flush(&mut room, writer)
}

/// Puts the lines of replies, and what stands behind them.
fn put_side<W: Write>(
    room: &mut Room,
    side: Side,
    replies: &Replies,
    end: &str,
    writer: &mut Watched<W>,
) -> Result<(), WriteFault>
    requires { has_failed writer.old ≡ false }
    ensures { WritesAndKeeps (room.old ++ (flat_map (reply_line Hex side) replies.now ++ end.now)) room.new
        (watched W.contents writer.old writer.new) result }
{
    put_replies(room, side, replies, writer)?;
    put(room, end.as_bytes(), writer)
}

/// Puts the line of each reply.
fn put_replies<W: Write>(
    room: &mut Room,
    side: Side,
    replies: &Replies,
    writer: &mut Watched<W>,
) -> Result<(), WriteFault>
    requires { has_failed writer.old ≡ false }
    ensures { WritesAndKeeps (room.old ++ flat_map (reply_line Hex side) replies.now) room.new
        (watched W.contents writer.old writer.new) result }
{
    let mut walk = replies.iter();
    while let Some(reply) = walk.next() {
        put(room, ReplyText::of(side, reply).as_slice(), writer)?;
    }
    Ok(())
}
