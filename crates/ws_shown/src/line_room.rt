//! A room in which the lines of a run wait until they are taken.

ghost use Rattle.std.specs.Prelude.{◌≡◌, [], IfOk, OnOk};
ghost use Rattle.ws_lines.specs.declared.transcript_lines.Showing.{Showing};
ghost use Rattle.ws_shown.specs.LineRooms.{AreInTurn, AreLinesBehind, AreMadeOf, AreSound, EndsLines, HasCleared};
ghost use Rattle.ws_shown.specs.LineRooms.{HasLinesOf, KeepsTurn, ShowsGot, ShowsTurn, TakesGot, TakesTurn};
ghost use Rattle.ws_shown.specs.MarkedLines.{HasToldMarked};

use crate::marked_lines::MarkedLines;
use crate::places::Places;
use std::alloc::Global;
use std::marker::Model;
use std::mem;
use ws_base::NoMemory;
use ws_frame::{ShowFault, Watched};
use ws_lines::Showing;
use ws_suite::Ended;

/// The lines of a run that goes on, of which some wait until they are taken. Contracts see how they are shown, what
/// was told of them, and the bytes of those that wait.
#[derive(Drop)]
pub struct LineRoom {
    alloc: Global,
    showing: Showing,
    parts: LineParts,
}

impl Model for LineRoom {
    ghost use Rattle.ws_shown.specs.LineRooms.{AreSound, LineRoomValue};

    ghost Value = { LineRoomValue };

    ghost view = { λ room. record { showing = room.showing; parts = room.parts } };

    ghost invariant = { λ room. AreSound room.showing room.parts };
}

/// What was told of the lines of a run, how much that was, and the lines that wait.
#[derive(Drop)]
pub(crate) struct LineParts {
    /// None before the first turn. They have room for 8 KiB of either direction, and stand where moving them is cheap.
    lines: Option<Box<MarkedLines>>,
    places: Places,
    bytes: Vec<u8>,
}

impl LineRoom {
    /// Nothing was told yet.
    pub fn new(alloc: Global, showing: Showing) -> LineRoom
        ensures showing { result.showing ≡ showing }
        ensures none { HasLinesOf result [] [] }
    {
        LineRoom {
            alloc,
            showing,
            parts: LineParts::new(alloc),
        }
    }

    /// The lines that wait.
    pub fn waiting(&self) -> &[u8]
        ensures { result.now ≡ self.now.parts.bytes.items }
    {
        self.parts.bytes.as_slice()
    }

    /// The lines that wait were taken.
    pub fn clear(&mut self)
        ensures { HasCleared self.old self.new }
    {
        self.parts.bytes = Vec::new(self.alloc);
    }

    /// The next turn begins, in which these bytes are sent.
    pub fn begin_turn(&mut self, sent: &[u8]) -> Result<(), NoMemory>
        ensures { OnOk result (ShowsTurn self.old self.new sent.now) }
    {
        let parts = mem::replace(&mut self.parts, LineParts::new(self.alloc));
        self.parts = parts.with_turn(self.alloc, self.showing, sent)?;
        Ok(())
    }

    /// In the turn more bytes are got. Where no turn has begun, one begins first, in which nothing is sent.
    pub fn got(&mut self, piece: &[u8]) -> Result<(), NoMemory>
        ensures { OnOk result (ShowsGot self.old self.new piece.now) }
    {
        let parts = mem::replace(&mut self.parts, LineParts::new(self.alloc));
        self.parts = parts.got_in_turn(self.alloc, self.showing, piece)?;
        Ok(())
    }

    /// The lines that wait, and those behind them, of a run that has ended so.
    pub fn into_last(self, ended: Ended) -> Result<Vec<u8>, NoMemory>
        ensures { IfOk result (λ last. EndsLines self.showing self.parts ended last.items) }
    {
        let LineRoom {
            alloc,
            showing,
            parts,
        } = self;
        let last = parts.into_last(alloc, showing, ended)?;
        Ok(last)
    }
}

impl LineParts {
    /// Nothing was told yet.
    fn new(alloc: Global) -> LineParts
        ensures sound { (showing : Showing) → AreSound showing result }
        ensures none { (showing : Showing) → AreLinesBehind showing result [] [] }
    {
        LineParts {
            lines: None,
            places: Places::none(),
            bytes: Vec::new(alloc),
        }
    }

    /// With a turn, in which these bytes are sent.
    fn with_turn(self, alloc: Global, showing: Showing, sent: &[u8]) -> Result<LineParts, NoMemory>
        requires { AreSound showing self }
        ensures sound { IfOk result (λ parts. AreSound showing parts) }
        ensures turn { IfOk result (λ parts. TakesTurn showing self parts sent.now) }
    {
        let LineParts {
            lines,
            places,
            bytes,
        } = self;
        let Some(places) = places.with_turn(sent.len()) else {
            return Err(NoMemory);
        };
        let mut lines = made_lines(alloc, showing, lines)?;
        let mut room = Watched::new(bytes);
        match lines.begin_turn(alloc, &mut room, sent) {
            Ok(()) => Ok(LineParts {
                lines: Some(lines),
                places,
                bytes: room.into_inner(),
            }),
            Err(ShowFault::Write | ShowFault::NoMemory) => Err(NoMemory),
        }
    }

    /// With so many bytes more that were got in the turn, and with one where none has begun.
    fn got_in_turn(
        self,
        alloc: Global,
        showing: Showing,
        piece: &[u8],
    ) -> Result<LineParts, NoMemory>
        requires { AreSound showing self }
        ensures sound { IfOk result (λ parts. AreSound showing parts) }
        ensures got { IfOk result (λ parts. TakesGot showing self parts piece.now) }
    {
        let parts = self.in_turn(alloc, showing)?;
        let parts = parts.with_got(alloc, showing, piece)?;
        Ok(parts)
    }

    /// With a turn, where none has begun.
    fn in_turn(self, alloc: Global, showing: Showing) -> Result<LineParts, NoMemory>
        requires { AreSound showing self }
        ensures in_turn { IfOk result (λ parts. AreInTurn showing parts) }
        ensures same { IfOk result (λ parts. KeepsTurn showing self parts) }
    {
        if self.places.is_none() {
            return self.with_turn(alloc, showing, &[]);
        }
        Ok(self)
    }

    /// With so many bytes more that were got in the turn.
    fn with_got(self, alloc: Global, showing: Showing, piece: &[u8]) -> Result<LineParts, NoMemory>
        requires { AreInTurn showing self }
        ensures sound { IfOk result (λ parts. AreSound showing parts) }
        ensures got { IfOk result (λ parts. TakesGot showing self parts piece.now) }
    {
        let LineParts {
            lines,
            places,
            bytes,
        } = self;
        let Some(places) = places.with_got(piece.len()) else {
            return Err(NoMemory);
        };
        let mut lines = made_lines(alloc, showing, lines)?;
        let mut room = Watched::new(bytes);
        match lines.got(alloc, &mut room, piece) {
            Ok(()) => Ok(LineParts {
                lines: Some(lines),
                places,
                bytes: room.into_inner(),
            }),
            Err(ShowFault::Write | ShowFault::NoMemory) => Err(NoMemory),
        }
    }

    /// The lines that wait, and those behind them, of a run that has ended so.
    fn into_last(self, alloc: Global, showing: Showing, ended: Ended) -> Result<Vec<u8>, NoMemory>
        requires { AreSound showing self }
        ensures { IfOk result (λ last. EndsLines showing self ended last.items) }
    {
        let LineParts { lines, bytes, .. } = self;
        let mut lines = made_lines(alloc, showing, lines)?;
        let mut room = Watched::new(bytes);
        match lines.end(&mut room, ended) {
            Ok(()) => Ok(room.into_inner()),
            Err(_failed) => Err(NoMemory),
        }
    }
}

/// The lines, made where there were none yet.
fn made_lines(
    alloc: Global,
    showing: Showing,
    lines: Option<Box<MarkedLines>>,
) -> Result<Box<MarkedLines>, NoMemory>
    ensures { IfOk result (λ made. AreMadeOf showing lines made.value) }
{
    match lines {
        Some(lines) => Ok(lines),
        None => first_lines(alloc, showing),
    }
}

/// Lines of which none was told. A call of its own, so that no caller's frame has room for them.
#[inline(never)]
fn first_lines(alloc: Global, showing: Showing) -> Result<Box<MarkedLines>, NoMemory>
    ensures { IfOk result (λ made. HasToldMarked showing made.value [] []) }
{
    let lines = Box::new(alloc, MarkedLines::new(alloc, showing))?;
    Ok(lines)
}
