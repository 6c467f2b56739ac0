//! The lines of a transcript, written while it goes on.

ghost use Rattle.std.specs.Prelude.{◌≡◌, [], length, false};
ghost use Rattle.ws_frame.specs.Watching.{has_failed};
ghost use Rattle.ws_frame.specs.Devices.{watched};
ghost use Rattle.ws_lines.specs.declared.transcript_lines.Showing.{Showing};
ghost use Rattle.ws_lines.specs.TurnLines.{end_line, tester_of};
ghost use Rattle.ws_lines.specs.Telling.{HasToldTurns, HasRoomForTurn, HasRoomForGot, CanEndLines};
ghost use Rattle.ws_lines.specs.Telling.{MarksGot, MarksSent, TellsTurn, TellsGot, TellsFirstGot, TellsEnd};

use crate::line_bytes::LineBytes;
use std::alloc::Global;
use std::io::Write;
use ws_frame::{
    DataStyle, FrameLines, Mark, Role, ShowFault, Source, Watched, WriteFault, write_whole,
};
use ws_scripts::Ended;

/// How a transcript is shown.
#[derive(Clone, Copy)]
pub struct Showing {
    /// The role of the tested end, for the remarks on masking.
    pub tested: Role,
    /// How payloads are shown.
    pub style: DataStyle,
    /// Where the frame begins, of those that the tester sent, that is marked.
    pub sent_fault: Option<u64>,
    /// The same of those that the tested end sent.
    pub got_fault: Option<u64>,
}

/// The lines of a transcript that goes on: each is written as soon as its place in the order is certain. Memory is
/// taken only where payloads aren't shown by their first bytes.
#[derive(Drop)]
pub struct TranscriptLines {
    /// How many turns have begun.
    turns: u64,
    sent: FrameLines,
    got: FrameLines,
}

impl TranscriptLines {
    /// No turn has begun.
    pub fn new(alloc: Global, showing: Showing) -> TranscriptLines
        ensures begun { HasToldTurns showing result [] [] }
    {
        let sent = Source {
            from: tester_of(showing.tested),
            mark: Mark::Sent,
            style: showing.style,
            fault: showing.sent_fault,
        };
        let got = Source {
            from: showing.tested,
            mark: Mark::Got,
            style: showing.style,
            fault: showing.got_fault,
        };
        TranscriptLines {
            turns: 0,
            sent: FrameLines::new(alloc, sent),
            got: FrameLines::new(alloc, got),
        }
    }

    /// Of the frames that the tester sends the one at this place is marked, whose line isn't written yet.
    pub fn mark_sent(&mut self, place: u64)
        ensures marked { MarksSent self.old self.new place }
    {
        self.sent.mark(place);
    }

    /// The same of the frames that the tested end sends.
    pub fn mark_got(&mut self, place: u64)
        ensures marked { MarksGot self.old self.new place }
    {
        self.got.mark(place);
    }

    /// The next turn begins, in which the tester sends these bytes: writes its line, and the lines of the frames that
    /// they complete. At an error a beginning of these was written.
    pub fn begin_turn<W: Write>(
        &mut self,
        alloc: Global,
        writer: &mut Watched<W>,
        sent: &[u8],
    ) -> Result<(), ShowFault>
        requires writer_works { has_failed writer.old ≡ false }
        requires room { HasRoomForTurn (length sent.now) self.old }
        ensures told { TellsTurn self.old self.new sent.now (watched W.contents writer.old writer.new) result }
    {
        self.turns += 1;
        write_whole(writer, LineBytes::of_turn(self.turns).as_slice())?;
        self.sent.take(alloc, writer, sent)?;
        Ok(())
    }

    /// More bytes are got in the turn: writes the lines of the frames that they complete. Where no turn has begun, one
    /// begins first, in which nothing is sent. At an error a beginning of these was written.
    pub fn got<W: Write>(
        &mut self,
        alloc: Global,
        writer: &mut Watched<W>,
        piece: &[u8],
    ) -> Result<(), ShowFault>
        requires writer_works { has_failed writer.old ≡ false }
        requires room { HasRoomForGot (length piece.now) self.old }
        ensures told { TellsGot self.old self.new piece.now (watched W.contents writer.old writer.new) result }
        ensures first { TellsFirstGot self.old self.new piece.now (watched W.contents writer.old writer.new) result }
    {
        if self.turns == 0 {
            self.begin_turn(alloc, writer, &[])?;
            self.got_in_turn(alloc, writer, piece)
        } else {
            self.got_in_turn(alloc, writer, piece)
        }
    }

    /// More bytes are got in a turn that has begun.
    fn got_in_turn<W: Write>(
        &mut self,
        alloc: Global,
        writer: &mut Watched<W>,
        piece: &[u8],
    ) -> Result<(), ShowFault>
        requires writer_works { has_failed writer.old ≡ false }
        requires room { HasRoomForGot (length piece.now) self.old }
        ensures told { TellsGot self.old self.new piece.now (watched W.contents writer.old writer.new) result }
    {
        self.got.take(alloc, writer, piece)?;
        Ok(())
    }

    /// The transcript has ended so: writes the lines of a cut, and how it ended. At an error a beginning of these was
    /// written.
    pub fn end<W: Write>(&mut self, writer: &mut Watched<W>, ended: Ended) -> Result<(), WriteFault>
        requires writer_works { has_failed writer.old ≡ false }
        requires going { CanEndLines self.old }
        ensures told { TellsEnd self.old ended (watched W.contents writer.old writer.new) result }
    {
        self.sent.end(writer)?;
        self.got.end(writer)?;
        write_whole(writer, end_line(ended).as_bytes())?;
        Ok(())
    }
}

/// The role of the tester, where the tested end has this one.
fn tester_of(tested: Role) -> Role
    ensures { result ≡ tester_of tested }
{
    match tested {
        Role::Client => Role::Server,
        Role::Server => Role::Client,
    }
}

/// The last line.
fn end_line(ended: Ended) -> &'static str
    ensures { result.now ≡ end_line ended }
{
    match ended {
        Ended::Tester => "end tester\n",
        Ended::Peer => "end peer\n",
        Ended::Broken => "end broken\n",
    }
}
