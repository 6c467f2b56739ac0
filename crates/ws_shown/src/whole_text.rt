//! The lines of a transcript that has ended.

ghost use Rattle.std.specs.Prelude.{◌≡◌, ◌++◌, ◌∷◌, [], List, IfOk, OnOk};
ghost use Rattle.ws_scripts.specs.declared.transcript.Turn.{Turn};
ghost use Rattle.ws_shown.specs.LineRooms.{LinesGoOn};
ghost use Rattle.ws_shown.specs.MarkedLines.{AreMarkedLines};

use crate::line_room::LineRoom;
use std::alloc::Global;
use ws_base::NoMemory;
use ws_lines::Showing;
use ws_suite::{Transcript, Turn};

/// All lines of a transcript, with that frame of either direction marked whose payload is its first violation.
pub fn lines_of(
    alloc: Global,
    showing: Showing,
    transcript: &Transcript,
) -> Result<Vec<u8>, NoMemory>
    ensures { IfOk result (λ text. AreMarkedLines showing transcript.now text.items) }
{
    let mut room = LineRoom::new(alloc, showing);
    let turns = transcript.turns.as_slice();
    'turns: for turn in turns {
        show_whole(turn, &mut room)?;
    }
    let text = room.into_last(transcript.ended)?;
    Ok(text)
}

/// Shows one turn to its end.
fn show_whole(turn: &Turn, room: &mut LineRoom) -> Result<(), NoMemory>
    ensures shown { OnOk result ((turns : List Turn) → LinesGoOn turns (turns ++ turn.now ∷ []) room.old room.new) }
    ensures showing { OnOk result (room.new.showing ≡ room.old.showing) }
{
    room.begin_turn(turn.sent.as_slice())?;
    room.got(turn.got.as_slice())?;
    Ok(())
}
