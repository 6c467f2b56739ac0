//! The command `report`. docs/FORMATS.md says what it reads and writes.

ghost use Rattle.std.specs.Prelude.{◌≡◌, IfOk, false, map, string_bytes};
ghost use Rattle.ws_frame.specs.Devices.{watched};
ghost use Rattle.ws_frame.specs.Watching.{has_failed};
ghost use Rattle.ws_runs.specs.Summary.{runs_summary};
ghost use Rattle.ws_scripts.specs.CaseNames.{listed_names};
ghost use Rattle.wst_commands.specs.ReadingWhole.{AnswersInput};
ghost use Rattle.wst_commands.specs.Report.{IsListedDocument, IsRunReport, ReportsRuns, ReportsText, RunsReport};
ghost use Rattle.wst_commands.specs.Report.{date_of, ended_report, ended_without_case, report_kind, run_fault};

use crate::exit::Exit;
use crate::fault::Fault;
use crate::page_texts::page_of;
use crate::reading_whole::{ReadStop, read_whole};
use crate::run_damages::run_damage;
use crate::telling::deliver;
use std::alloc::Global;
use std::io::{Read, Write};
use ws_base::{NoMemory, TextFault};
use ws_frame::Watched;
use ws_junit::junit_text;
use ws_runs::{Runs, index_text, is_name_line, read_runs, summary_text};
use ws_scripts::ids;
use wst_words::ReportOptions;

/// What is written of runs.
#[derive(Clone, Copy)]
enum ReportKind {
    /// A page of HTML.
    Page,
    /// An index in JSON.
    Index,
    Summary,
    /// A JUnit document.
    Junit,
}

/// Writes a page, an index, a summary or a JUnit document of the runs whose lines the reader gives.
#[inline(never)]
pub fn run_report<R: Read, W: Write>(
    alloc: Global,
    options: ReportOptions<'_>,
    reader: &mut Watched<R>,
    writer: &mut Watched<W>,
) -> Result<Exit, Fault>
    requires reader_works { has_failed reader.old ≡ false }
    requires writer_works { has_failed writer.old ≡ false }
    ensures { RunsReport options.entry result (watched R.remaining reader.old reader.new)
        (watched W.contents writer.old writer.new) }
{
    match kind_of(options) {
        Ok(kind) => report_input(alloc, kind, date_of(options), reader, writer),
        Err(fault) => Err(fault),
    }
}

/// What the options ask for: not two of an index, a summary and a JUnit document.
fn kind_of(options: ReportOptions<'_>) -> Result<ReportKind, Fault>
    ensures { result ≡ report_kind options.entry }
{
    match (options.json, options.summary, options.junit) {
        (false, false, false) => Ok(ReportKind::Page),
        (true, false, false) => Ok(ReportKind::Index),
        (false, true, false) => Ok(ReportKind::Summary),
        (false, false, true) => Ok(ReportKind::Junit),
        (true, true, _) => Err(Fault::SummaryWithJson),
        (true, false, true) => Err(Fault::JunitWithJson),
        (false, true, true) => Err(Fault::JunitWithSummary),
    }
}

/// What stands in the head of a page. Empty if nothing is given.
fn date_of<'a>(options: ReportOptions<'a>) -> &'a str
    ensures { result.now ≡ date_of options.entry }
{
    match options.date {
        Some(date) => date,
        None => "",
    }
}

/// Reads the lines of runs, and writes a report of this kind.
fn report_input<R: Read, W: Write>(
    alloc: Global,
    kind: ReportKind,
    date: &str,
    reader: &mut Watched<R>,
    writer: &mut Watched<W>,
) -> Result<Exit, Fault>
    requires reader_works { has_failed reader.old ≡ false }
    requires writer_works { has_failed writer.old ≡ false }
    ensures { AnswersInput (ReportsText kind date.now) result (watched R.remaining reader.old reader.new)
        (watched W.contents writer.old writer.new) }
{
    match read_whole(alloc, reader) {
        Ok(text) => report_text(alloc, kind, date, text, writer),
        Err(ReadStop::Fault) => Ok(Exit::Failed),
        Err(ReadStop::NoMemory) => Err(Fault::NoMemory),
    }
}

/// Writes a report of the runs in a text. If one of its lines is not of a run, nothing is written.
fn report_text<W: Write>(
    alloc: Global,
    kind: ReportKind,
    date: &str,
    text: Vec<u8>,
    writer: &mut Watched<W>,
) -> Result<Exit, Fault>
    requires { has_failed writer.old ≡ false }
    ensures { ReportsText kind date.now text.items result (watched W.contents writer.old writer.new) }
{
    let listed = ids(alloc)?;
    match read_runs(alloc, text.as_slice()) {
        Ok(runs) => report_runs(alloc, kind, date, &runs, listed.as_slice(), writer),
        Err(fault) => Err(run_fault(text.as_slice(), fault)),
    }
}

/// Writes a report of these runs, with the list of cases.
fn report_runs<'a, W: Write>(
    alloc: Global,
    kind: ReportKind,
    date: &str,
    runs: &Runs<'a>,
    listed: &'a [String],
    writer: &mut Watched<W>,
) -> Result<Exit, Fault>
    requires list { map string_bytes listed.now ≡ listed_names }
    requires works { has_failed writer.old ≡ false }
    ensures { ReportsRuns kind date.now runs.now result (watched W.contents writer.old writer.new) }
{
    match report_of(alloc, kind, date, runs, listed) {
        Ok(report) => {
            let exit = deliver(Exit::Done, report.as_bytes(), writer);
            ended_report(runs.ids(), exit)
        }
        Err(_) => Err(Fault::NoMemory),
    }
}

/// How a run ends that has written a report of the cases with these names.
fn ended_report(ids: &[&[u8]], exit: Exit) -> Result<Exit, Fault>
    ensures { result ≡ ended_report (map (λ id. id.now) ids.now) exit }
{
    match ids {
        [] => ended_without_case(exit),
        [_, ..] => Ok(exit),
    }
}

/// How it ends where it has written one of no case.
fn ended_without_case(exit: Exit) -> Result<Exit, Fault>
    ensures { result ≡ ended_without_case exit }
{
    match exit {
        Exit::Done => Err(Fault::NoCaseLine),
        Exit::Damaged | Exit::WrongWords | Exit::Failed => Ok(exit),
    }
}

/// The report of this kind on these runs, with the list of cases.
fn report_of<'a>(
    alloc: Global,
    kind: ReportKind,
    date: &str,
    runs: &Runs<'a>,
    listed: &'a [String],
) -> Result<String, NoMemory>
    requires { map string_bytes listed.now ≡ listed_names }
    ensures { IfOk result (λ report. IsRunReport kind date.now runs.now (string_bytes report)) }
{
    match kind {
        ReportKind::Page => page_of(alloc, runs, listed, date),
        ReportKind::Index => index_text(alloc, runs),
        ReportKind::Summary => summary_of(alloc, runs, listed),
        ReportKind::Junit => junit_of(alloc, runs, listed),
    }
}

/// The summary of these runs, with the list of cases.
fn summary_of(alloc: Global, runs: &Runs<'_>, listed: &[String]) -> Result<String, NoMemory>
    requires { map string_bytes listed.now ≡ listed_names }
    ensures { IfOk result (λ summary. string_bytes summary ≡ runs_summary listed_names runs.now) }
{
    let summary = summary_text(alloc, runs, listed)?;
    Ok(summary)
}

/// The JUnit document of these runs, with the list of cases.
fn junit_of(alloc: Global, runs: &Runs<'_>, listed: &[String]) -> Result<String, NoMemory>
    requires { map string_bytes listed.now ≡ listed_names }
    ensures { IfOk result (λ document. IsListedDocument runs.now (string_bytes document)) }
{
    let document = junit_text(alloc, runs, listed)?;
    Ok(document)
}

/// What is printed for a text that isn't the lines of runs.
fn run_fault(text: &[u8], fault: TextFault) -> Fault
    ensures { result ≡ run_fault text.now fault }
{
    match fault {
        TextFault::Damaged(line) if is_name_line(text, line) => Fault::NotAName(line),
        TextFault::Damaged(line) => Fault::NotAResult(line, run_damage(text, line)),
        TextFault::NoMemory => Fault::NoMemory,
    }
}
