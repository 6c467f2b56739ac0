//! The lines of a stream that comes piece by piece (RFC 6455 section 5.2).

ghost use Rattle.std.specs.Prelude.{◌≡◌, [], length, false, true, OnOk};
ghost use Rattle.ws_frame.specs.Watching.{has_failed};
ghost use Rattle.ws_frame.specs.Devices.{watched};
ghost use Rattle.ws_frame.specs.Lines.{last_line, marked_at};
ghost use Rattle.ws_frame.specs.declared.source.DataStyle.TheVariants.{Hex};
ghost use Rattle.ws_frame.specs.Streaming.{HasShown, HasRoomFor, CanEnd, ShowsMore, ShowsEnd, WritesAll, source_of};
ghost use Rattle.ws_frame.specs.Streaming.{ShowsByte, EndsWithLine};

use crate::one_line::OneLine;
use crate::showing::{PieceEnd, Run, StreamEnd};
use crate::writing_lines::{push_last_line, write_last_line};
use crate::{Source, Watched, WriteFault};
use std::io::Write;

/// The lines of a stream that comes piece by piece: those of `show`, each written with the piece that makes it certain.
/// Payloads are shown by their first bytes, as digits. No memory is taken.
#[derive(Drop)]
pub struct StreamLines {
    run: Run,
    /// A header stands there whose length has the top bit set: nothing behind it is a frame.
    stopped: bool,
}

impl StreamLines {
    /// Nothing of the stream has come.
    pub fn new(source: Source) -> StreamLines
        requires digits { source.style ≡ Hex }
        ensures source { source_of result ≡ source }
        ensures begun { HasShown result [] [] }
    {
        StreamLines {
            run: Run::new(source),
            stopped: false,
        }
    }

    /// The payload of the frame at this place is the stream's first violation: its line is to be marked.
    pub(crate) fn mark(&mut self, place: u64)
        ensures marked { self.new ≡ record self.old {
          run = record self.old.run { source = marked_at self.old.run.source place };
        } }
    {
        self.run.source.fault = Some(place);
    }

    /// More bytes come: the lines of the frames that they complete are written, and that of a bad length, behind which
    /// no line follows. At an error a beginning of these lines was written.
    pub fn take<W: Write>(
        &mut self,
        writer: &mut Watched<W>,
        piece: &[u8],
    ) -> Result<(), WriteFault>
        requires writer_works { has_failed writer.old ≡ false }
        requires room { HasRoomFor (length piece.now) self.old }
        ensures source { source_of self.new ≡ source_of self.old }
        ensures shown { ShowsMore self.old self.new piece.now (watched W.contents writer.old writer.new) result }
    {
        if self.stopped {
            return Ok(());
        }
        match self.run.show_piece(writer, piece)? {
            PieceEnd::Inside => Ok(()),
            PieceEnd::BadLength => {
                self.stopped = true;
                let end = StreamEnd::BadLengthAt(self.run.offset);
                write_last_line(&mut self.run.lines, writer, self.run.source, end)?;
                Ok(())
            }
        }
    }

    /// The stream is at its end: `cut at OFFSET` is written where it ends inside a frame. At an error a beginning of
    /// that line was written.
    pub fn end<W: Write>(&mut self, writer: &mut Watched<W>) -> Result<(), WriteFault>
        requires writer_works { has_failed writer.old ≡ false }
        requires going { CanEnd self.old }
        ensures source { source_of self.new ≡ source_of self.old }
        ensures ended { ShowsEnd self.old (watched W.contents writer.old writer.new) result }
    {
        if self.stopped {
            return Ok(());
        }
        let end = self.run.end_of_input();
        write_last_line(&mut self.run.lines, writer, self.run.source, end)?;
        Ok(())
    }

    /// One more byte comes: the line that it makes certain, and no bytes where it makes none. So a caller can keep
    /// lines back that `take` would write.
    pub fn take_byte(&mut self, byte: u8) -> OneLine
        requires room { HasRoomFor 1 self.old }
        ensures source { source_of self.new ≡ source_of self.old }
        ensures shown { ShowsByte self.old self.new byte result }
    {
        if self.stopped {
            return OneLine::none();
        }
        self.stopped = match self.run.take_byte(byte) {
            PieceEnd::Inside => false,
            PieceEnd::BadLength => {
                let end = StreamEnd::BadLengthAt(self.run.offset);
                push_last_line(&mut self.run.lines, self.run.source, end);
                true
            }
        };
        self.run.take_line()
    }

    /// The stream is at its end: the line of a cut, and no bytes where it ends with a whole frame.
    pub fn end_line(&mut self) -> OneLine
        requires going { CanEnd self.old }
        ensures source { source_of self.new ≡ source_of self.old }
        ensures ended { EndsWithLine self.old result }
    {
        if self.stopped {
            return OneLine::none();
        }
        let end = self.run.end_of_input();
        push_last_line(&mut self.run.lines, self.run.source, end);
        self.run.take_line()
    }
}
