//! The lines of frames that wait to be told.

ghost use Rattle.std.specs.Prelude.{◌≡◌, OnOk, OnErr, length, true};
ghost use Rattle.ws_frame.specs.FrameStreaming.{CanEndFrames, HasRoomForFrames, frames_source, keeps_frames};
ghost use Rattle.ws_tap.specs.Telling.{EndsKept, KeepsByte, KeepsLines};

use crate::kept_lines::KeptLines;
use std::alloc::Global;
use ws_base::NoMemory;
use ws_frame::{FrameLines, OneLine};

/// Keeps the lines that these bytes make certain, as far as they fit. Memory is taken only where whole payloads are
/// shown.
pub(crate) fn keep_lines(
    alloc: Global,
    lines: &mut FrameLines,
    kept: &mut KeptLines,
    piece: &[u8],
) -> Result<(), NoMemory>
    requires { HasRoomForFrames (length piece.now) lines.old }
    ensures source { frames_source lines.new ≡ frames_source lines.old }
    ensures keeps { keeps_frames lines.new ≡ keeps_frames lines.old }
    ensures memory { OnErr result (keeps_frames lines.old ≡ true) }
    ensures kept { OnOk result
        (KeepsLines kept.old kept.new (record { old = lines.old; new = lines.new }) piece.now) }
{
    for byte in piece {
        keep_byte(alloc, lines, kept, *byte)?;
    }
    Ok(())
}

/// Keeps the line that one more byte makes certain, or none.
fn keep_byte(
    alloc: Global,
    lines: &mut FrameLines,
    kept: &mut KeptLines,
    byte: u8,
) -> Result<(), NoMemory>
    requires { HasRoomForFrames 1 lines.old }
    ensures source { frames_source lines.new ≡ frames_source lines.old }
    ensures keeps { keeps_frames lines.new ≡ keeps_frames lines.old }
    ensures memory { OnErr result (keeps_frames lines.old ≡ true) }
    ensures kept { OnOk result
        (KeepsByte kept.old kept.new (record { old = lines.old; new = lines.new }) byte) }
{
    match lines {
        FrameLines::Digits(lines) => {
            let line = lines.take_byte(byte);
            kept.push(line.as_slice());
        }
        FrameLines::Whole(lines) => {
            let mut line = Vec::new(alloc);
            lines.take(alloc, &[byte], &mut line)?;
            kept.push(line.as_slice());
        }
    }
    Ok(())
}

/// The line of a cut where the frames end here, and no bytes where they end with a whole one.
pub(crate) fn end_line(lines: &mut FrameLines) -> OneLine
    requires { CanEndFrames lines.old }
    ensures source { frames_source lines.new ≡ frames_source lines.old }
    ensures keeps { keeps_frames lines.new ≡ keeps_frames lines.old }
    ensures ended { EndsKept lines.old result }
{
    match lines {
        FrameLines::Digits(lines) => lines.end_line(),
        FrameLines::Whole(lines) => lines.end_line(),
    }
}
