//! What more bytes of an end make certain is told: the first line of its head, and then its frames, where the server
//! switches to them.

ghost use Rattle.std.specs.Prelude.{◌≡◌, length, false};
ghost use Rattle.ws_frame.specs.Devices.{watched};
ghost use Rattle.ws_frame.specs.Watching.{has_failed};
ghost use Rattle.ws_tap.specs.Telling.{CanEndSide, CanTell, CanTellFrames, EndsSide, TellsFrames, TellsSome};

use crate::head_room::{HeadRoom, look_for_head};
use crate::keeping::{end_line, keep_lines};
use crate::release::{Release, answer_of};
use crate::tapped::TappedEnd;
use std::alloc::Global;
use std::io::Write;
use ws_frame::{FrameLines, ShowFault, Watched, WriteFault, write_whole};

/// How far the lines of an end have come. Without a head in its first 8192 bytes nothing is told of it.
#[derive(Drop)]
pub(crate) enum SideStage {
    /// In its head.
    Head(HeadRoom),
    /// Behind it.
    Frames(FrameLines),
}

/// Tells what more bytes of an end make certain: how many were used, all of them, but where a head ends in them those
/// up to there. Behind the line of a response stand the lines that waited for it. At an error the writer has failed, or
/// memory ran out.
pub(crate) fn tell_some<W: Write>(
    alloc: Global,
    end: TappedEnd,
    stage: &mut SideStage,
    release: &mut Release,
    writer: &mut Watched<W>,
    piece: &[u8],
) -> Result<usize, ShowFault>
    requires writer_works { has_failed writer.old ≡ false }
    requires stands { CanTell end.role (length piece.now) stage.old release.old }
    ensures told { TellsSome end.role end.tapped stage.old stage.new
        (record { old = release.old; new = release.new }) piece.now (watched W.contents writer.old writer.new) result }
{
    match stage {
        SideStage::Head(room) => {
            let Some(found) = look_for_head(room, end, piece) else {
                return Ok(piece.len());
            };
            let answer = answer_of(found.head.status);
            *stage = SideStage::Frames(FrameLines::new(alloc, end.source()));
            write_whole(writer, found.line.as_slice())?;
            release.hear(answer, writer)?;
            Ok(found.used)
        }
        SideStage::Frames(lines) => {
            tell_frames(alloc, lines, release, writer, piece)?;
            Ok(piece.len())
        }
    }
}

/// Tells the frames that these bytes make whole, or keeps their lines.
fn tell_frames<W: Write>(
    alloc: Global,
    lines: &mut FrameLines,
    release: &mut Release,
    writer: &mut Watched<W>,
    piece: &[u8],
) -> Result<(), ShowFault>
    requires writer_works { has_failed writer.old ≡ false }
    requires stands { CanTellFrames (length piece.now) lines.old release.old }
    ensures told { TellsFrames lines.old lines.new (record { old = release.old; new = release.new }) piece.now
        (watched W.contents writer.old writer.new) result }
{
    match release {
        Release::Awaited(kept) => {
            keep_lines(alloc, lines, kept, piece)?;
            Ok(())
        }
        Release::Told => {
            lines.take(alloc, writer, piece)?;
            Ok(())
        }
        Release::Never => Ok(()),
    }
}

/// The direction of an end was ended: a cut is told, or its line is kept. At an error the writer has failed.
pub(crate) fn tell_end<W: Write>(
    stage: &mut SideStage,
    release: &mut Release,
    writer: &mut Watched<W>,
) -> Result<(), WriteFault>
    requires writer_works { has_failed writer.old ≡ false }
    requires stands { CanEndSide stage.old release.old }
    ensures told { EndsSide stage.old stage.new (record { old = release.old; new = release.new })
        (watched W.contents writer.old writer.new) result }
{
    let SideStage::Frames(lines) = stage else {
        return Ok(());
    };
    match release {
        Release::Awaited(kept) => {
            kept.push(end_line(lines).as_slice());
            Ok(())
        }
        Release::Told => {
            lines.end(writer)?;
            Ok(())
        }
        Release::Never => Ok(()),
    }
}
