//! What only captures in format 2 have: a line that begins each turn, after which each direction has at most one.

ghost use Rattle.std.specs.Prelude.{Some, []};
ghost use Rattle.ws_scripts.specs.InnerCapturing.{Adds, all_turns, line_in_2, open_turns};

use crate::capture::line::Line;
use crate::capture::reading::OpenTurns;
use crate::transcript::Turn;
use std::alloc::Global;
use ws_base::{LineFault, Payload};

/// The turns, where another begins.
pub(crate) fn begun(alloc: Global, turns: OpenTurns) -> Result<OpenTurns, LineFault>
    ensures { Adds (Some (open_turns (all_turns turns) [] [])) result }
{
    match turns.all() {
        Ok(done) => Ok(OpenTurns::new(done, Payload::new(alloc), Payload::new(alloc))),
        Err(fault) => Err(fault),
    }
}

/// The turns with one more line of bytes: what was sent stands before what was got.
pub(crate) fn with_data(turns: OpenTurns, line: Line<Payload>) -> Result<OpenTurns, LineFault>
    ensures { Adds (line_in_2 turns.done turns.last line) result }
{
    let OpenTurns { done, last } = turns;
    let Some(Turn { sent, got }) = last else {
        return Err(LineFault::Damaged);
    };
    if got.len() > 0 {
        return Err(LineFault::Damaged);
    }
    match line {
        Line::Sent(bytes) => {
            if sent.len() > 0 {
                return Err(LineFault::Damaged);
            }
            Ok(OpenTurns::new(done, bytes, got))
        }
        Line::Got(bytes) => Ok(OpenTurns::new(done, sent, bytes)),
    }
}
