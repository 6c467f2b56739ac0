//! The lines of a stream that comes piece by piece, with payloads in any style (RFC 6455 section 5.2).

ghost use Rattle.std.specs.Prelude.{◌≡◌, [], IsErrOf, false, length, true};
ghost use Rattle.ws_frame.specs.Lines.{marked_at, takes_memory};
ghost use Rattle.ws_frame.specs.declared.show_fault.ShowFault.TheVariants.{NoMemory};
ghost use Rattle.ws_frame.specs.Watching.{has_failed};
ghost use Rattle.ws_frame.specs.Devices.{watched};
ghost use Rattle.ws_frame.specs.PayloadStreaming.{HasRoomToPut, stream_source};
ghost use Rattle.ws_frame.specs.FrameStreaming.{CanEndFrames, EndsFrames, HasRoomForFrames, HasTakenFrames, TakesMore};
ghost use Rattle.ws_frame.specs.FrameStreaming.{MarksAhead, WritesMore, frames_source, keeps_frames};

use crate::payload_lines::PayloadLines;
use crate::show_fault::ShowFault;
use crate::source::{DataStyle, Source};
use crate::stream_lines::StreamLines;
use crate::{Watched, WriteFault, write_whole};
use std::alloc::Global;
use std::io::Write;

/// The lines of a stream that comes piece by piece, each written with the piece that makes it certain. The style of the
/// payloads decides how they are made.
#[derive(Drop)]
pub enum FrameLines {
    /// By the first bytes of each payload: no memory is taken.
    Digits(StreamLines),
    /// By whole payloads: a frame is kept until it is whole.
    Whole(PayloadLines),
}

impl FrameLines {
    /// Nothing of the stream has come.
    pub fn new(alloc: Global, source: Source) -> FrameLines
        ensures source { frames_source result ≡ source }
        ensures begun { HasTakenFrames result [] [] }
        ensures kept { keeps_frames result ≡ takes_memory source.style }
    {
        match source.style {
            DataStyle::Hex => FrameLines::Digits(StreamLines::new(source)),
            DataStyle::Text | DataStyle::All => FrameLines::Whole(PayloadLines::new(alloc, source)),
        }
    }

    /// The payload of the frame at this place, whose line isn't written yet, is the stream's first violation: that line
    /// is to be marked.
    pub fn mark(&mut self, place: u64)
        ensures source { frames_source self.new ≡ marked_at (frames_source self.old) place }
        ensures marked { MarksAhead self.old self.new place }
        ensures kept { keeps_frames self.new ≡ keeps_frames self.old }
    {
        match self {
            FrameLines::Digits(lines) => lines.mark(place),
            FrameLines::Whole(lines) => lines.mark(place),
        }
    }

    /// More bytes come: the lines of the frames that they complete are written, and that of a bad length, behind which
    /// no line follows. At an error a beginning of these lines was written. Memory can run out only where frames are
    /// kept.
    pub fn take<W: Write>(
        &mut self,
        alloc: Global,
        writer: &mut Watched<W>,
        piece: &[u8],
    ) -> Result<(), ShowFault>
        requires writer_works { has_failed writer.old ≡ false }
        requires room { HasRoomForFrames (length piece.now) self.old }
        ensures source { frames_source self.new ≡ frames_source self.old }
        ensures taken { TakesMore self.old self.new piece.now (watched W.contents writer.old writer.new) result }

        ensures kept { keeps_frames self.new ≡ keeps_frames self.old }
        ensures memory { IsErrOf result NoMemory → keeps_frames self.old ≡ true }
    {
        match self {
            FrameLines::Digits(lines) => {
                lines.take(writer, piece)?;
                Ok(())
            }
            FrameLines::Whole(lines) => write_piece(alloc, lines, writer, piece),
        }
    }

    /// The stream is at its end: `cut at OFFSET` is written where it ends inside a frame. At an error a beginning of
    /// that line was written.
    pub fn end<W: Write>(&mut self, writer: &mut Watched<W>) -> Result<(), WriteFault>
        requires writer_works { has_failed writer.old ≡ false }
        requires going { CanEndFrames self.old }
        ensures source { frames_source self.new ≡ frames_source self.old }
        ensures ended { EndsFrames self.old (watched W.contents writer.old writer.new) result }
    {
        match self {
            FrameLines::Digits(lines) => {
                lines.end(writer)?;
                Ok(())
            }
            FrameLines::Whole(lines) => {
                let line = lines.end_line();
                write_whole(writer, line.as_slice())?;
                Ok(())
            }
        }
    }
}

/// Takes a piece of the stream, and writes the lines that it makes certain.
pub(crate) fn write_piece<W: Write>(
    alloc: Global,
    stream: &mut PayloadLines,
    writer: &mut Watched<W>,
    piece: &[u8],
) -> Result<(), ShowFault>
    requires works { has_failed writer.old ≡ false }
    requires room { HasRoomToPut (length piece.now) stream.old }
    ensures source { stream_source stream.new ≡ stream_source stream.old }
    ensures written { WritesMore stream.old stream.new piece.now (watched W.contents writer.old writer.new) result }
{
    let mut lines = Vec::new(alloc);
    stream.take(alloc, piece, &mut lines)?;
    write_whole(writer, lines.as_slice())?;
    Ok(())
}
