//! The verdicts of an earlier run.

ghost use Rattle.std.specs.Prelude.{◌≡◌, List, ℕ, Option, MatchResult};
ghost use Rattle.ws_formats.specs.Lines.{Damages};
ghost use Rattle.ws_reports.specs.Known.{AreKnownLines, IsKnownAs, known_verdict, known_with};

use crate::known_line::KnownLine;
use std::alloc::Global;
use std::marker::Model;
use ws_base::{Sequence, TextFault};
use ws_formats::read_lines;

/// The verdicts of an earlier run. Contracts see its lines.
#[derive(Drop)]
pub struct KnownVerdicts {
    lines: Sequence<KnownLine>,
}

impl Model for KnownVerdicts {
    ghost use Rattle.std.specs.Prelude.{List};
    ghost use Rattle.ws_reports.specs.declared.known_line.KnownLine.{KnownLine};

    ghost Value = { List KnownLine };

    ghost view = { λ known. known.lines };
}

/// The verdicts that the lines of an earlier run tell. The line of a case is its name, a space and its verdict, with
/// ` (was VERDICT)` or ` (new)` behind it or not. Totals and the lines behind them, `listening on ..` and lines that
/// begin with a space are passed by.
pub fn read_known(alloc: Global, text: &[u8]) -> Result<KnownVerdicts, TextFault>
    ensures { MatchResult result (λ known. AreKnownLines known text.now)
        (λ fault. Damages AreKnownLines fault text.now) }
{
    let lines = read_lines::<KnownLine>(alloc, text)?;
    Ok(KnownVerdicts { lines })
}

impl KnownVerdicts {
    /// The verdict of a case, by its name: the last that is told of it.
    pub fn verdict_of(&self, id: &str) -> Option<&str>
        ensures { IsKnownAs (known_verdict id.now self.now) result }
    {
        let mut found = None;
        for line in self.lines.as_slice() {
            found = found_with(found, line, id);
        }
        found
    }
}

/// What is known of a case with one line more.
fn found_with<'a>(found: Option<&'a str>, line: &'a KnownLine, id: &str) -> Option<&'a str>
    ensures { (before : Option (List ℕ)) → IsKnownAs before found.entry
        → IsKnownAs (known_with id.now line.now before) result }
{
    match line {
        KnownLine::Verdict { id: name, words } if name.as_slice() == id.as_bytes() => {
            Some(words.as_str())
        }
        KnownLine::Verdict { .. } | KnownLine::Other => found,
    }
}
