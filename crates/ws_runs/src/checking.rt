//! Whether a text has the lines of runs.

ghost use Rattle.std.specs.Prelude.{List, MatchResult};
ghost use Rattle.ws_formats.specs.Lines.{Damages};
ghost use Rattle.ws_runs.specs.Checking.{AreLinesOfRuns, lines_go_on};
ghost use Rattle.ws_runs.specs.RunLines.{AreRunLines, RunLine as Meaning};

use crate::line::read_line;
use std::alloc::Global;
use ws_base::{LineFault, TextFault};
use ws_formats::{PartialText, read_by_lines};

/// A text of the lines of runs is passed. Else the fault says where it is damaged.
pub(crate) fn check_lines(alloc: Global, text: &[u8]) -> Result<(), TextFault>
    ensures { MatchResult result (λ _. (lines : List Meaning) × AreRunLines lines text.now)
        (λ fault. Damages AreRunLines fault text.now) }
{
    read_by_lines(alloc, Lines, text)
}

/// The lines so far are those of runs.
#[derive(Clone, Copy)]
struct Lines;

impl PartialText for Lines {
    type Value = ();

    ghost tells = { AreLinesOfRuns };

    fn take_line(self, _alloc: Global, line: &[u8]) -> Result<Lines, LineFault> {
        match read_line(line) {
            Some(_) => Ok(Lines),
            None => Err(LineFault::Damaged),
        }
    }

    fn value(self) -> Option<()> {
        Some(())
    }

    ghost goes_on = { lines_go_on };
}
