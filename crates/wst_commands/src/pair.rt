//! The command `pair`. Its script and its report are told in docs/FORMATS.md.

ghost use Rattle.std.specs.Prelude.{◌≡◌, ℕ, List, false, MatchOption, MatchResult};
ghost use Rattle.ws_formats.specs.Lines.{Damages};
ghost use Rattle.ws_frame.specs.Devices.{watched};
ghost use Rattle.ws_frame.specs.Watching.{has_failed};
ghost use Rattle.ws_pair.specs.Runs.{IsScriptReport};
ghost use Rattle.ws_pair.specs.Script.{AreMoveLines};
ghost use Rattle.wst_commands.specs.Limits.{limits_given};
ghost use Rattle.wst_commands.specs.Pairs.{CanLimit, RunsPair, TellsReport, script_fault};
ghost use Rattle.wst_commands.specs.ReadingLines.{FailsInput};
ghost use Rattle.wst_commands.specs.ReadingWhole.{ReadsAll};

use crate::exit::Exit;
use crate::fault::Fault;
use crate::limits::limits_given;
use crate::reading_lines::{InputFault, take_input};
use crate::reading_whole::ReadStop;
use std::alloc::Global;
use std::io::{Read, Write};
use ws_base::TextFault;
use ws_frame::Watched;
use ws_pair::{Player, Report, ReportFault, write_report};
use ws_session::Limits;
use wst_words::PairOptions;

/// Plays the moves of the script that the reader gives, and writes the report.
#[inline(never)]
pub fn run_moves<R: Read, W: Write>(
    alloc: Global,
    options: PairOptions,
    reader: &mut Watched<R>,
    writer: &mut Watched<W>,
) -> Result<Exit, Fault>
    requires reader_works { has_failed reader.old ≡ false }
    requires writer_works { has_failed writer.old ≡ false }
    ensures { RunsPair options result (watched R.remaining reader.old reader.new)
        (watched W.contents writer.old writer.new) }
{
    let Some(limits) = both_limits(options) else {
        return Err(Fault::BadLimits);
    };
    match report_in(alloc, limits.0, limits.1, reader) {
        Ok(report) => tell_report(alloc, &report, writer),
        Err(InputFault::Text(fault)) => Err(fault_of(fault)),
        Err(InputFault::Stop(ReadStop::Fault)) => Ok(Exit::Failed),
        Err(InputFault::Stop(ReadStop::NoMemory)) => Err(Fault::NoMemory),
    }
}

/// The limits of the client and of the server. `None` where one is none.
fn both_limits(options: PairOptions) -> Option<(Limits, Limits)>
    ensures { MatchOption result (¬ (CanLimit options)) (λ both. CanLimit options
        × (both.0 ≡ limits_given options.limit_client options.frame_client)
        × (both.1 ≡ limits_given options.limit_server options.frame_server)) }
{
    let client = limits_given(options.limit_client, options.frame_client)?;
    let server = limits_given(options.limit_server, options.frame_server)?;
    Some((client, server))
}

/// The report of the moves of the script that the reader gives, each of which is played as soon as its line is read.
fn report_in<R: Read>(
    alloc: Global,
    client: Limits,
    server: Limits,
    reader: &mut Watched<R>,
) -> Result<Report, InputFault>
    requires { has_failed reader.old ≡ false }
    ensures { MatchResult result
        (λ report. (text : List ℕ) × ReadsAll text (watched R.remaining reader.old reader.new)
        × IsScriptReport client server text report)
        (λ fault. FailsInput (Damages AreMoveLines) fault (watched R.remaining reader.old reader.new)) }
{
    match take_input(alloc, reader, Player::new(alloc, client, server)) {
        Ok(player) => Ok(player.report()),
        Err(fault) => Err(fault),
    }
}

/// What is told of a script that can't be played.
fn fault_of(fault: TextFault) -> Fault
    ensures { result ≡ script_fault fault }
{
    match fault {
        TextFault::Damaged(line) => Fault::NotAMove(line),
        TextFault::NoMemory => Fault::NoMemory,
    }
}

/// Writes a report.
fn tell_report<W: Write>(
    alloc: Global,
    report: &Report,
    writer: &mut Watched<W>,
) -> Result<Exit, Fault>
    requires { has_failed writer.old ≡ false }
    ensures { TellsReport report.now result (watched W.contents writer.old writer.new) }
{
    match write_report(alloc, report, writer) {
        Ok(()) => Ok(Exit::Done),
        Err(ReportFault::Write) => Ok(Exit::Failed),
        Err(ReportFault::NoMemory) => Err(Fault::NoMemory),
    }
}
