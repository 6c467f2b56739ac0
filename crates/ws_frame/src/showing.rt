//! The lines of a stream of frames (RFC 6455 section 5.2), from a reader to a writer.

ghost use Rattle.std.specs.Prelude.{◌≡◌, ◌<◌, ◌≤◌, ◌+◌, ◌^◌, ℕ, List, [], length, false, IfOk, IfSome};
ghost use Rattle.ws_frame.specs.Watching.{has_failed};
ghost use Rattle.ws_frame.specs.Devices.{watched};
ghost use Rattle.ws_frame.specs.Lines.{Leaves, Shows, IsFairEnd, plain};
ghost use Rattle.ws_frame.specs.declared.source.DataStyle.TheVariants.{Hex};
ghost use Rattle.ws_frame.specs.InnerShowing.{CanShowMore, HasTold, ShowsPiece, ShowsNext, IsPartialFrame, run_end};
ghost use Rattle.ws_frame.specs.InnerShowing.{TakesByte};
ghost use Rattle.ws_frame.specs.declared.showing.ShowEnd.TheVariants.{NoMemory};

use crate::line::push_line;
use crate::one_line::OneLine;
use crate::partial::{Partial, Taken};
use crate::room::Room;
use crate::writing_lines::{end_with, flush, put_line, unmasked};
use crate::{Source, Watched, WriteFault};
use std::io::{Read, Write};
use ws_wire::Role;

/// How many bytes one read of a stream that is shown asks for at most.
pub(crate) const SHOW_READ_SIZE: usize = 65536;

/// How a stream that has ended ends.
#[derive(Clone, Copy)]
pub enum StreamEnd {
    /// With a whole frame, or before the first one.
    Whole,
    /// Inside the frame that begins at this place.
    CutAt(u64),
    /// At this place stands a header whose length has the top bit set: nothing behind it is a frame.
    BadLengthAt(u64),
}

impl StreamEnd {
    /// How a run of `show` ends that has written all lines of such a stream.
    pub(crate) fn run_end(self) -> ShowEnd
        ensures { result ≡ run_end self }
    {
        match self {
            StreamEnd::Whole => ShowEnd::Done,
            StreamEnd::CutAt(place) => ShowEnd::CutAt(place),
            StreamEnd::BadLengthAt(place) => ShowEnd::BadLengthAt(place),
        }
    }
}

/// How a run of `show` ended.
#[derive(Clone, Copy, PartialEq, Eq)]
pub enum ShowEnd {
    /// The reader is at its end, and all that was read are whole frames.
    Done,
    /// The reader is at its end inside the frame that begins at this place.
    CutAt(u64),
    /// At this place stands a header whose length has the top bit set.
    BadLengthAt(u64),
    /// As many bytes as the budget allows were read.
    Budget,
    /// A read answered an error.
    ReadFault,
    /// A write answered an error or took nothing.
    WriteFault,
    /// Memory ran out: `show` takes none, and never answers this, but `show_payloads` may.
    NoMemory,
}

/// Writes a line for each whole frame that the reader gives, in any form of header, and a last one
/// where the stream stops inside a frame (`cut at OFFSET`) or at a length with the top bit set
/// (`bad length at OFFSET`). `from` is the end that sent the stream, for the remarks on masking. At
/// most `budget` bytes are read; once so many are, nothing more is read, and no last line is
/// written but that of a bad length. Nothing is judged but the masking and the form of the length.
///
/// The lines of the frames that a read completes are written before the next read. A bad length ends
/// the run at once, also where the budget is used up. At `WriteFault` a beginning of what was due is
/// written, which has the lines of all but at most the last 65536 bytes. No memory is taken.
pub fn show<R: Read, W: Write>(
    reader: &mut Watched<R>,
    writer: &mut Watched<W>,
    from: Role,
    budget: u64,
) -> ShowEnd
    requires reader_works { has_failed reader.old ≡ false }
    requires writer_works { has_failed writer.old ≡ false }
    ensures lines { Shows (plain from) budget result
        (watched R.remaining reader.old reader.new) (watched W.contents writer.old writer.new) }
    ensures fair { IsFairEnd result
        (watched R.remaining reader.old reader.new) (watched W.contents writer.old writer.new) }
    ensures memory { result ≡ NoMemory → ⊥ }
{
    let mut room = [0; SHOW_READ_SIZE];
    let mut run = Run::new(Source::plain(from));
    while run.taken < budget {
        let want = (budget - run.taken).min(SHOW_READ_SIZE as u64) as usize;
        let buf = &mut room[..want];
        let count = match reader.read(buf) {
            Err(_) => return ShowEnd::ReadFault,
            Ok(0) => {
                let end = run.end_of_input();
                return end_with(&mut run.lines, writer, run.source, end);
            }
            Ok(count) => count,
        };
        match run.show_piece(writer, &buf[..count]) {
            Err(_) => return ShowEnd::WriteFault,
            Ok(PieceEnd::BadLength) => {
                let end = StreamEnd::BadLengthAt(run.offset);
                return end_with(&mut run.lines, writer, run.source, end);
            }
            Ok(PieceEnd::Inside) => {}
        }
    }
    ShowEnd::Budget
}

/// How a piece of the stream ended.
#[derive(Clone, Copy)]
pub(crate) enum PieceEnd {
    /// Between two frames, or inside one.
    Inside,
    /// A header stands there whose length has the top bit set.
    BadLength,
}

/// A run of `show`.
#[derive(Drop)]
pub(crate) struct Run {
    pub(crate) source: Source,
    /// How many bytes of the stream were taken.
    taken: u64,
    /// The place of the frame under way.
    pub(crate) offset: u64,
    partial: Partial,
    /// Lines that wait to be written.
    pub(crate) lines: Room,
}

impl Run {
    /// Nothing was taken.
    pub(crate) fn new(source: Source) -> Run
        requires digits { source.style ≡ Hex }
        ensures source { result.source ≡ source }
        ensures begun { HasTold result [] [] }
        ensures empty { result.lines ≡ [] }
    {
        // Taken apart before the room is made, so that nothing of it is read behind that.
        let Source {
            from,
            mark,
            style,
            fault,
        } = source;
        Run {
            source: Source {
                from,
                mark,
                style,
                fault,
            },
            taken: 0,
            offset: 0,
            partial: Partial::new(),
            lines: Room::new(),
        }
    }

    /// Takes a piece of the stream, and writes the lines of the frames that it completes.
    pub(crate) fn show_piece<W: Write>(
        &mut self,
        writer: &mut Watched<W>,
        piece: &[u8],
    ) -> Result<PieceEnd, WriteFault>
        requires writer_works { has_failed writer.old ≡ false }
        requires going { CanShowMore self.old }
        requires count { self.old.taken + length piece.now < 2 ^ 64 }
        ensures source { self.new.source ≡ self.old.source }
        ensures shown { ShowsPiece self.old self.new piece.now (watched W.contents writer.old writer.new) result }
    {
        let mut at = 0;
        while at < piece.len() {
            let next = self.show_next(writer, &piece[at..])?;
            match next {
                None => {
                    flush(&mut self.lines, writer)?;
                    return Ok(PieceEnd::BadLength);
                }
                Some(used) => at += used,
            }
        }
        flush(&mut self.lines, writer)?;
        Ok(PieceEnd::Inside)
    }

    /// Takes at most the rest of one frame, and puts its line once it is whole. Answers how many bytes were taken, or
    /// `None` at a bad length.
    fn show_next<W: Write>(
        &mut self,
        writer: &mut Watched<W>,
        piece: &[u8],
    ) -> Result<Option<usize>, WriteFault>
        requires writer_works { has_failed writer.old ≡ false }
        requires going { CanShowMore self.old }
        requires some { 0 < length piece.now }
        requires count { self.old.taken + length piece.now < 2 ^ 64 }
        ensures source { self.new.source ≡ self.old.source }
        ensures used { IfOk result (λ found. IfSome found (λ used. (0 < used) × (used ≤ length piece.now)
            × (self.new.taken ≡ self.old.taken + used))) }
        ensures shown { ShowsNext self.old self.new piece.now (watched W.contents writer.old writer.new) result }
    {
        match self.partial.take(piece) {
            Taken::Part(used) => {
                self.taken += used as u64;
                Ok(Some(used))
            }
            Taken::Whole {
                header,
                first,
                used,
            } => {
                put_line(
                    &mut self.lines,
                    writer,
                    self.source,
                    self.offset,
                    header,
                    first,
                )?;
                self.taken += used as u64;
                self.offset = self.taken;
                Ok(Some(used))
            }
            Taken::BadLength => Ok(None),
        }
    }

    /// Takes one byte, where no line waits: that of the frame which it completes waits then.
    pub(crate) fn take_byte(&mut self, byte: u8) -> PieceEnd
        requires going { CanShowMore self.old }
        requires empty { self.old.lines ≡ [] }
        requires count { self.old.taken + 1 < 2 ^ 64 }
        ensures source { self.new.source ≡ self.old.source }
        ensures short { length self.new.lines ≤ 200 }
        ensures shown { TakesByte self.old self.new byte result }
    {
        match self.partial.take(&[byte]) {
            Taken::Part(used) => {
                self.taken += used as u64;
                PieceEnd::Inside
            }
            Taken::Whole {
                header,
                first,
                used,
            } => {
                let shown = unmasked(header.key(), first);
                push_line(&mut self.lines, self.source, self.offset, &header, &shown);
                let place = self.taken + used as u64;
                self.taken = place;
                self.offset = place;
                PieceEnd::Inside
            }
            Taken::BadLength => PieceEnd::BadLength,
        }
    }

    /// Takes the line that waits out of the room.
    pub(crate) fn take_line(&mut self) -> OneLine
        requires { length self.old.lines ≤ 200 }
        ensures line { result ≡ self.old.lines }
        ensures rest { self.new ≡ record self.old { lines = [] } }
    {
        let line = OneLine::of(self.lines.as_slice());
        self.lines.clear();
        line
    }

    /// How the stream ends where the reader is at its end.
    pub(crate) fn end_of_input(&self) -> StreamEnd
        ensures { (rest : List ℕ) → IsPartialFrame rest self.now.partial → Leaves result self.now.offset rest }
    {
        if self.partial.is_empty() {
            StreamEnd::Whole
        } else {
            StreamEnd::CutAt(self.offset)
        }
    }
}
