//! The JUnit document of runs.

ghost use Rattle.std.specs.Prelude.{◌≡◌, ◌≤◌, IfOk, Some, flat_map, length, string_bytes};
ghost use Rattle.ws_runs.specs.Views.{result_values};
ghost use Rattle.ws_junit.specs.Documents.{count_failures, count_skipped, has_cell, is_skipped, junit_document};
ghost use Rattle.ws_junit.specs.Documents.{suite_of};

use crate::elements::{CellElements, SkippedElements};
use crate::xml_text::QuotedText;
use std::alloc::Global;
use std::fmt;
use ws_base::NoMemory;
use ws_reports::tells_fail;
use ws_runs::{CaseResult, Peer, Runs};

/// The document of runs. Of a run that was cut off, the listed cases that it lacks are skipped.
pub fn junit_text(alloc: Global, runs: &Runs<'_>, listed: &[String]) -> Result<String, NoMemory>
    ensures { IfOk result (λ text. string_bytes text ≡ junit_document listed.now runs.now) }
{
    let suites = Suites {
        listed,
        peers: runs.peers(),
    };
    let text = format!(in alloc;
        "<?xml version=\"1.0\" encoding=\"UTF-8\"?>\n<testsuites>{suites}</testsuites>\n"
    )?;
    Ok(text)
}

/// The test suites of peers.
#[derive(Clone, Copy)]
struct Suites<'r, 'a> {
    listed: &'r [String],
    peers: &'r [Peer<'a>],
}

impl fmt::Display for Suites<'_, '_> {
    ghost output = { λ suites. Some (flat_map (suite_of suites.listed.now) suites.peers.now) };

    fn fmt<W: fmt::Write>(&self, f: &mut fmt::Formatter<W>) -> fmt::Result {
        for peer in self.peers {
            let suite = Suite {
                listed: self.listed,
                peer,
            };
            write!(f, "{suite}")?;
        }
        Ok(())
    }
}

/// The test suite of a peer.
#[derive(Clone, Copy)]
struct Suite<'r, 'a> {
    listed: &'r [String],
    peer: &'r Peer<'a>,
}

impl fmt::Display for Suite<'_, '_> {
    ghost output = { λ suite. Some (suite_of suite.listed.now suite.peer.now) };

    fn fmt<W: fmt::Write>(&self, f: &mut fmt::Formatter<W>) -> fmt::Result {
        let cells = self.peer.cells();
        let name = QuotedText(self.peer.name());
        let skipped = count_skipped(self.peer, self.listed);
        let tests = cells.len() + skipped;
        let failures = count_failures(cells);
        let run = CellElements(cells);
        let left = SkippedElements {
            peer: self.peer,
            listed: self.listed,
        };
        write!(
            f,
            "<testsuite name=\"wst {name}\" tests=\"{tests}\" failures=\"{failures}\" skipped=\"{skipped}\">\n\
             {run}{left}</testsuite>\n"
        )
    }
}

/// How many listed cases a run lacks that was cut off.
fn count_skipped(peer: &Peer<'_>, listed: &[String]) -> usize
    ensures count { result ≡ count_skipped peer.now listed.now }
    ensures within { result ≤ length listed.now }
{
    let mut count = 0;
    for id in listed {
        if is_skipped(peer, id.as_bytes()) {
            count += 1;
        }
    }
    count
}

/// Whether a run was cut off, and lacks this case.
pub(crate) fn is_skipped(peer: &Peer<'_>, id: &[u8]) -> bool
    ensures { result ≡ is_skipped peer.now id.now }
{
    peer.is_cut_off() && !has_cell(peer.cells(), id)
}

/// Whether a case is among those that were run.
fn has_cell(cells: &[CaseResult<'_>], id: &[u8]) -> bool
    ensures { result ≡ has_cell (result_values cells.now) id.now }
{
    for cell in cells {
        if cell.id == id {
            return true;
        }
    }
    false
}

/// How many of these cases failed.
fn count_failures(cells: &[CaseResult<'_>]) -> usize
    ensures { result ≡ count_failures (result_values cells.now) }
{
    let mut count = 0;
    for cell in cells {
        if tells_fail(cell.words) {
            count += 1;
        }
    }
    count
}
