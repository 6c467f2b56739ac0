//! Runs that are read line by line.

ghost use Rattle.std.specs.Prelude.{◌≡◌, ◌++◌, ℕ, List, IfOk, MatchResult};
ghost use Rattle.ws_formats.specs.Lines.{Damages};
ghost use Rattle.ws_runs.specs.RunLines.{AreRunLines, RunLine as Meaning};
ghost use Rattle.ws_runs.specs.Runs.{below_of, first_reading, peer_with_note, peer_with_total};
ghost use Rattle.ws_runs.specs.Runs.{runs_of, with_change, with_line, with_new_name, with_verdict};
ghost use Rattle.ws_runs.specs.Views.{HasPlace, case_value, line_value, result_value};

use crate::checking::check_lines;
use crate::line::{CaseLine, RunLine, read_line};
use crate::result::CaseResult;
use crate::runs::Runs;
use std::alloc::Global;
use std::marker::Model;
use ws_base::{NoMemory, TextFault};
use ws_formats::cut_line;

/// The name of a peer whose lines have no name in front of them.
const NO_NAME: &str = "-";

/// What the lines of runs say. The lines of cases, and the others that are allowed, are those of an earlier run.
pub fn read_runs<'a>(alloc: Global, text: &'a [u8]) -> Result<Runs<'a>, TextFault>
    ensures { MatchResult result (λ runs. (lines : List Meaning) × AreRunLines lines text.now × (runs ≡ runs_of lines))
        (λ fault. Damages AreRunLines fault text.now) }
{
    check_lines(alloc, text)?;
    match read_checked(alloc, text) {
        Ok(runs) => Ok(runs),
        Err(_) => Err(TextFault::NoMemory),
    }
}

/// The same, of lines that were found to be those of runs.
fn read_checked<'a>(alloc: Global, text: &'a [u8]) -> Result<Runs<'a>, NoMemory>
    requires { (lines : List Meaning) × AreRunLines lines text.now }
    ensures { IfOk result (λ runs. (lines : List Meaning) × AreRunLines lines text.now × (runs ≡ runs_of lines)) }
{
    let mut reading = Reading::new(alloc);
    let mut rest = text;
    while let Some((line, after)) = cut_line(rest) {
        let Some(read) = read_line(line) else {
            unreachable!();
        };
        reading = reading.with_line(alloc, read, after)?;
        rest = after;
    }
    Ok(reading.runs)
}

/// What was read so far.
#[derive(Drop)]
struct Reading<'a> {
    runs: Runs<'a>,
    /// The peer of the next lines.
    name: &'a str,
    /// Its place. `None` if the lines so far are of no peer.
    place: Option<usize>,
}

impl<'a> Model for Reading<'a> {
    ghost use Rattle.ws_runs.specs.Runs.{ReadingValue};
    ghost use Rattle.ws_runs.specs.Views.{IsPlaceOf};

    ghost Value = { ReadingValue };

    ghost view = { λ reading. record { runs = reading.runs; name = reading.name.now } };

    ghost invariant = { λ reading. IsPlaceOf reading.place reading.name.now reading.runs.peers };
}

impl<'a> Reading<'a> {
    /// Nothing was read.
    fn new(alloc: Global) -> Reading<'a>
        ensures { result ≡ first_reading }
    {
        Reading {
            runs: Runs::new(alloc),
            name: NO_NAME,
            place: None,
        }
    }

    /// What was read with one more line, if this text follows it.
    fn with_line(
        self,
        alloc: Global,
        read: RunLine<'a>,
        after: &'a [u8],
    ) -> Result<Reading<'a>, NoMemory>
        ensures { IfOk result (λ reading. (lines : List Meaning) → AreRunLines lines after.now
            → reading ≡ with_line self.entry (line_value read.entry) lines) }
    {
        match read {
            RunLine::Peer(name) => self.with_name(alloc, name),
            RunLine::Note(text) => self.with_note(alloc, text),
            RunLine::Verdict(line) => self.with_verdict(alloc, line, below_text(after)),
            RunLine::Total => self.with_total(alloc),
            RunLine::Below(_) | RunLine::Other => Ok(self),
        }
    }

    /// The next lines are of this peer.
    fn with_name(self, alloc: Global, name: &'a str) -> Result<Reading<'a>, NoMemory>
        ensures { IfOk result (λ reading. reading ≡ with_new_name name.now self.entry) }
    {
        let mut runs = self.runs;
        let place = runs.place_for(alloc, name)?;
        Ok(Reading {
            runs,
            name,
            place: Some(place),
        })
    }

    /// More is said of the peer.
    fn with_note(self, alloc: Global, text: &'a str) -> Result<Reading<'a>, NoMemory>
        ensures { IfOk result (λ reading. reading ≡ with_change (peer_with_note text.now) self.entry) }
    {
        let name = self.name;
        let (runs, place) = self.placed(alloc)?;
        let mut runs = runs;
        runs.put_note(place, text)?;
        Ok(Reading {
            runs,
            name,
            place: Some(place),
        })
    }

    /// The run of the peer ended.
    fn with_total(self, alloc: Global) -> Result<Reading<'a>, NoMemory>
        ensures { IfOk result (λ reading. reading ≡ with_change peer_with_total self.entry) }
    {
        let name = self.name;
        let (runs, place) = self.placed(alloc)?;
        let mut runs = runs;
        runs.end_run(place);
        Ok(Reading {
            runs,
            name,
            place: Some(place),
        })
    }

    /// A case was run, with these lines below its line.
    fn with_verdict(
        self,
        alloc: Global,
        line: CaseLine<'a>,
        below: &'a [u8],
    ) -> Result<Reading<'a>, NoMemory>
        ensures { IfOk result (λ reading. reading ≡ with_verdict (case_value line.entry below.now) self.entry) }
    {
        let name = self.name;
        let (runs, place) = self.placed(alloc)?;
        let mut runs = runs;
        runs.put_result(place, result_of(line, below))?;
        runs.put_id(line.id)?;
        Ok(Reading {
            runs,
            name,
            place: Some(place),
        })
    }

    /// The runs, in which the peer is, and its place.
    fn placed(self, alloc: Global) -> Result<(Runs<'a>, usize), NoMemory>
        ensures { IfOk result (λ placed. HasPlace self.entry placed.0 placed.1) }
    {
        let mut runs = self.runs;
        let place = match self.place {
            Some(place) => place,
            None => runs.place_for(alloc, self.name)?,
        };
        Ok((runs, place))
    }
}

/// The result of a case with these lines below its line.
fn result_of<'a>(line: CaseLine<'a>, below: &'a [u8]) -> CaseResult<'a>
    ensures { result_value result ≡ case_value line.entry below.now }
{
    CaseResult {
        id: line.id,
        words: line.words,
        line: line.line,
        below,
    }
}

/// The lines at the front of a text that are below the line of a case.
fn below_text(text: &[u8]) -> &[u8]
    ensures { (lines : List Meaning) → AreRunLines lines text.now → result.now ≡ below_of lines }
{
    let mut rest = text;
    while let Some((line, after)) = cut_line(rest) {
        if !line.starts_with(b" ") {
            return front_before(text, rest);
        }
        rest = after;
    }
    front_before(text, rest)
}

/// What is in front of the rest of a text.
fn front_before<'a>(text: &'a [u8], rest: &[u8]) -> &'a [u8]
    requires { (front : List ℕ) × (text.now ≡ front ++ rest.now) }
    ensures { (front : List ℕ) → text.now ≡ front ++ rest.now → result.now ≡ front }
{
    &text[..text.len() - rest.len()]
}
