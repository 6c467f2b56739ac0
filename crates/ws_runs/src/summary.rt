//! A summary of each run: its verdicts other than Pass, the most frequent first, with their cases, its total, and how
//! many cases were run, if it was cut off.

ghost use Rattle.std.specs.Prelude.{◌≡◌, ◌++◌, IfOk, flat_map, map, string_bytes};
ghost use Rattle.ws_runs.specs.Summary.{count_fails, count_marks, name_line, peer_summary, run_count_line};
ghost use Rattle.ws_runs.specs.Summary.{runs_summary, summary_total, tally_line, tally_lines};
ghost use Rattle.ws_runs.specs.Views.{result_values};

use crate::id_runs::{RunsText, id_runs_of};
use crate::mark::{Mark, mark_of_words};
use crate::peer::Peer;
use crate::result::CaseResult;
use crate::rows::count_rows;
use crate::runs::Runs;
use crate::shown::{ShownBytes, ShownText};
use crate::tally::{Tally, most_frequent_first};
use std::alloc::Global;
use ws_base::NoMemory;
use ws_reports::tells_fail;

/// The summary of runs. Three cases or more that follow one another in the list of cases are named by the first and the
/// last.
pub fn summary_text(alloc: Global, runs: &Runs<'_>, listed: &[String]) -> Result<String, NoMemory>
    ensures { IfOk result (λ text. string_bytes text ≡ runs_summary (map string_bytes listed.now) runs.now) }
{
    let rows = count_rows(runs, listed);
    let mut text = String::new(alloc);
    for peer in runs.peers() {
        push_peer(alloc, peer, rows, listed, &mut text)?;
    }
    Ok(text)
}

/// Appends the summary of a peer beside others, where so many cases have a row.
fn push_peer(
    alloc: Global,
    peer: &Peer<'_>,
    rows: usize,
    listed: &[String],
    text: &mut String,
) -> Result<(), NoMemory>
    ensures { IfOk result (λ _. string_bytes text.new
        ≡ string_bytes text.old ++ peer_summary (map string_bytes listed.now) rows peer.now) }
{
    push_head(alloc, peer.name(), text)?;
    push_tallies(alloc, peer.cells(), listed, text)?;
    push_total(alloc, peer.cells(), text)?;
    push_run_count(alloc, peer, rows, text)?;
    Ok(())
}

/// Appends the name of a peer, if it has one.
fn push_head(alloc: Global, name: &str, text: &mut String) -> Result<(), NoMemory>
    ensures { IfOk result (λ _. string_bytes text.new ≡ string_bytes text.old ++ name_line name.now) }
{
    if name == "-" {
        return Ok(());
    }
    let line = format!(in alloc; "# {}\n", ShownText(name))?;
    text.push_str(line.as_str())?;
    Ok(())
}

/// Appends the lines of the verdicts in these cells.
pub fn push_tallies(
    alloc: Global,
    cells: &[CaseResult<'_>],
    listed: &[String],
    text: &mut String,
) -> Result<(), NoMemory>
    ensures { IfOk result (λ _. string_bytes text.new
        ≡ string_bytes text.old ++ tally_lines (map string_bytes listed.now) (result_values cells.now)) }
{
    let sorted = most_frequent_first(alloc, cells)?;
    for tally in sorted.as_slice() {
        push_tally(alloc, tally, listed, text)?;
    }
    Ok(())
}

/// Appends the line of a verdict.
fn push_tally(
    alloc: Global,
    tally: &Tally<'_>,
    listed: &[String],
    text: &mut String,
) -> Result<(), NoMemory>
    ensures { IfOk result (λ _. string_bytes text.new
        ≡ string_bytes text.old ++ tally_line (map string_bytes listed.now) tally.now) }
{
    let runs = id_runs_of(alloc, tally.ids(), listed)?;
    let count = tally.count();
    let ids = RunsText(runs.as_slice());
    let words = ShownBytes(tally.words());
    let line = format!(in alloc; "{words} {count}: {ids}\n")?;
    text.push_str(line.as_str())?;
    Ok(())
}

/// Appends the total of these cells. A case without a connection counts as a Fail.
fn push_total(alloc: Global, cells: &[CaseResult<'_>], text: &mut String) -> Result<(), NoMemory>
    ensures { IfOk result (λ _. string_bytes text.new
        ≡ string_bytes text.old ++ summary_total (result_values cells.now)) }
{
    let pass = count_marks(cells, Mark::Pass);
    let loose = count_marks(cells, Mark::Loose);
    let fail = count_fails(cells);
    let line = format!(in alloc; "{pass} pass, {loose} loose, {fail} fail\n")?;
    text.push_str(line.as_str())?;
    Ok(())
}

/// Appends how many cases a peer ran, if its run was cut off.
fn push_run_count(
    alloc: Global,
    peer: &Peer<'_>,
    rows: usize,
    text: &mut String,
) -> Result<(), NoMemory>
    ensures { IfOk result (λ _. string_bytes text.new
        ≡ string_bytes text.old ++ run_count_line rows peer.now) }
{
    if !peer.is_cut_off() {
        return Ok(());
    }
    let count = peer.count();
    let line = format!(in alloc; "{count} of {rows} run\n")?;
    text.push_str(line.as_str())?;
    Ok(())
}

/// How many of these cells have this mark.
fn count_marks(cells: &[CaseResult<'_>], mark: Mark) -> usize
    ensures { result ≡ count_marks (result_values cells.now) mark }
{
    let mut count = 0;
    for case in cells {
        if mark_of_words(case.words).is(mark) {
            count += 1;
        }
    }
    count
}

/// How many of these cells have a Fail.
fn count_fails(cells: &[CaseResult<'_>]) -> usize
    ensures { result ≡ count_fails (result_values cells.now) }
{
    let mut count = 0;
    for case in cells {
        if tells_fail(case.words) {
            count += 1;
        }
    }
    count
}
