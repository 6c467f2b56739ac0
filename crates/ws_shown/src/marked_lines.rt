//! The lines of a transcript, written while it goes on, in which that frame of either direction is marked whose payload
//! is its first violation.

ghost use Rattle.std.specs.Prelude.{◌≡◌, [], OnOk, false, length};
ghost use Rattle.ws_frame.specs.Devices.{watched};
ghost use Rattle.ws_frame.specs.Watching.{has_failed};
ghost use Rattle.ws_suite.specs.Evidence.{other_role};
ghost use Rattle.ws_shown.specs.MarkedLines.{BeginsMarked, EndsMarked, GetsMarked, HasRoomToBegin, HasRoomToGet};
ghost use Rattle.ws_shown.specs.MarkedLines.{HasToldMarked, IsOpenToEnd, MarksFoundGot, MarksFoundSent};
ghost use Rattle.ws_shown.specs.MarkedLines.{SearchesGot, SearchesSent};

use std::alloc::Global;
use std::io::Write;
use ws_base::NoMemory;
use ws_faults::{FaultFinder, MarkedFrames};
use ws_frame::{ShowFault, Watched, WriteFault};
use ws_lines::{Showing, TranscriptLines};
use ws_suite::Ended;
use ws_wire::Role;

/// The lines of a transcript that goes on. Each piece of it is searched before the lines are written that it makes
/// certain, so that its frame can be marked there.
#[derive(Drop)]
pub struct MarkedLines {
    lines: TranscriptLines,
    /// What searches that which the tester sends, and that which the tested end sends.
    sent: FaultFinder,
    got: FaultFinder,
    /// The frames that are marked so far.
    marked: MarkedFrames,
}

impl MarkedLines {
    /// No turn has begun. Only the tested end and the style of payloads are those of `showing`.
    pub fn new(alloc: Global, showing: Showing) -> MarkedLines
        ensures begun { HasToldMarked showing result [] [] }
    {
        let unmarked = Showing {
            tested: showing.tested,
            style: showing.style,
            sent_fault: None,
            got_fault: None,
        };
        MarkedLines {
            lines: TranscriptLines::new(alloc, unmarked),
            sent: FaultFinder::new(alloc, showing.tested),
            got: FaultFinder::new(alloc, tester_for(showing.tested)),
            marked: MarkedFrames {
                sent: None,
                got: None,
            },
        }
    }

    /// The next turn begins, in which the tester sends these bytes: its lines are written.
    pub fn begin_turn<W: Write>(
        &mut self,
        alloc: Global,
        writer: &mut Watched<W>,
        sent: &[u8],
    ) -> Result<(), ShowFault>
        requires writer_works { has_failed writer.old ≡ false }
        requires room { HasRoomToBegin (length sent.now) self.old }
        ensures { OnOk result (BeginsMarked self.old self.new sent.now (watched W.contents writer.old writer.new)) }
    {
        self.search_sent(sent)?;
        self.lines.begin_turn(alloc, writer, sent)?;
        Ok(())
    }

    /// More bytes are got in the last turn: their lines are written.
    pub fn got<W: Write>(
        &mut self,
        alloc: Global,
        writer: &mut Watched<W>,
        piece: &[u8],
    ) -> Result<(), ShowFault>
        requires writer_works { has_failed writer.old ≡ false }
        requires room { HasRoomToGet (length piece.now) self.old }
        ensures { OnOk result (GetsMarked self.old self.new piece.now (watched W.contents writer.old writer.new)) }
    {
        self.search_got(piece)?;
        self.lines.got(alloc, writer, piece)?;
        Ok(())
    }

    /// The transcript has ended so: its last lines are written.
    pub fn end<W: Write>(&mut self, writer: &mut Watched<W>, ended: Ended) -> Result<(), WriteFault>
        requires writer_works { has_failed writer.old ≡ false }
        requires going { IsOpenToEnd self.old }
        ensures { EndsMarked self.old ended (watched W.contents writer.old writer.new) result }
    {
        self.lines.end(writer, ended)
    }

    /// The tester is about to send these bytes.
    fn search_sent(&mut self, piece: &[u8]) -> Result<(), NoMemory>
        ensures { OnOk result (SearchesSent self.old self.new piece.now) }
    {
        self.sent.take(piece)?;
        match self.marked.sent {
            None => {
                self.mark_found_sent();
                Ok(())
            }
            Some(_) => Ok(()),
        }
    }

    /// The same of the tested end.
    fn search_got(&mut self, piece: &[u8]) -> Result<(), NoMemory>
        ensures { OnOk result (SearchesGot self.old self.new piece.now) }
    {
        self.got.take(piece)?;
        match self.marked.got {
            None => {
                self.mark_found_got();
                Ok(())
            }
            Some(_) => Ok(()),
        }
    }

    /// Where a frame was found of those that the tester sends, it is marked.
    fn mark_found_sent(&mut self)
        ensures { MarksFoundSent self.old self.new }
    {
        if let Some(place) = self.sent.fault() {
            self.marked.sent = Some(place);
            self.lines.mark_sent(place);
        }
    }

    /// The same of those that the tested end sends.
    fn mark_found_got(&mut self)
        ensures { MarksFoundGot self.old self.new }
    {
        if let Some(place) = self.got.fault() {
            self.marked.got = Some(place);
            self.lines.mark_got(place);
        }
    }
}

/// The role of the tester, where the tested end has this one.
fn tester_for(tested: Role) -> Role
    ensures { result ≡ other_role tested }
{
    match tested {
        Role::Client => Role::Server,
        Role::Server => Role::Client,
    }
}
