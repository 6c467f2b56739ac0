//! Runs what the words ask for, over watched devices and a network.

ghost use Rattle.std.specs.Prelude.{◌≡◌, ◌≤◌, false, if◌then◌else◌, map, codes, string_bytes};
ghost use Rattle.clap.specs.Words.{kind_of};
ghost use Rattle.ws_frame.specs.Devices.{watched};
ghost use Rattle.ws_frame.specs.Watching.{has_failed};
ghost use Rattle.wst_words.specs.Arguments.{Places};
ghost use Rattle.wst_words.specs.Words.{wst_app};
ghost use Rattle.wst_commands.specs.Devices.{Tells};
ghost use Rattle.wst_commands.specs.Exits.{exit_status};
ghost use Rattle.wst_run.specs.Run.{AnswersWords, Runs, RunsTask, TellsOf};
ghost use Rattle.wst_run.specs.SendNoted.{RunsSend};
ghost use Rattle.wst_services.specs.Serve.{RunsServe};
ghost use Rattle.wst_run.specs.Sweep.{RunsSweep};
ghost use Rattle.wst_run.specs.Test.{CanBeTested, RunsPlanAsked, RunsTest};

use crate::send::plan_send;
use crate::sending_noted::send_planned;
use crate::site::Site;
use crate::sweep::{plan_sweep, sweep_target, tell_sweep_refusal};
use crate::tap::run_tap;
use crate::test::{TestPlan, plan_test, run_over_target};
use clap::Error;
use clap::error::ErrorKind;
use std::alloc::Global;
use std::io::{Read, Write};
use ws_frame::Watched;
use ws_reports::Report;
use wst_commands::{
    Exit, Fault, end_run, run_cases, run_convert, run_judge, run_moves, run_report, run_session,
    run_show, tell_fault,
};
use wst_network::Connector;
use wst_services::{plan_serve, run_head, run_serve};
use wst_sockets::Network;
use wst_testing::{known_given, tell_known_stop, tell_refusal};
use wst_words::{
    SendOptions, ServeOptions, SweepOptions, Task, TestOptions, WordsFault, read_words,
};

/// Runs what the words ask for, the program's name first, and answers how that ended: status 0 done, 1 a
/// damaged or refused input or a rule that was broken, 2 wrong words, 3 where input, output, the network, the budget or
/// memory failed. Help and the version go to the writer with status 0. What is wrong with the words goes to
/// `faults`, and then nothing is read or written. Want of memory is told there as `no memory`. That a run still waits
/// is told beside it, by the network.
#[tactic(auto, using(crate::proofs::RunLemmas::status_up_to_3))]
pub fn run<'x, N: Network, C: Connector, R: Read, W: Write, F: Write>(
    site: Site<'x, 'x, N, C>,
    words: &[String],
    reader: &mut Watched<R>,
    writer: &mut Watched<W>,
    faults: &mut Watched<F>,
) -> Exit
    requires reader_works { has_failed reader.old ≡ false }
    requires writer_works { has_failed writer.old ≡ false }
    ensures status { exit_status result ≤ 3 }
    ensures runs { (places : Places) × Runs (wst_app places) (map string_bytes words.now) result
        (watched R.remaining reader.old reader.new)
        (watched W.contents writer.old writer.new)
        (watched F.contents faults.old faults.new) }
{
    match read_words(site.alloc, words) {
        Ok(task) => run_task(site, task, reader, writer, faults),
        Err(fault) => answer_words(site.alloc, &fault, writer, faults),
    }
}

/// Does what was asked for, and tells what is to be told.
fn run_task<'x, N: Network, C: Connector, R: Read, W: Write, F: Write>(
    site: Site<'x, 'x, N, C>,
    task: Task<'_>,
    reader: &mut Watched<R>,
    writer: &mut Watched<W>,
    faults: &mut Watched<F>,
) -> Exit
    requires reader_works { has_failed reader.old ≡ false }
    requires writer_works { has_failed writer.old ≡ false }
    ensures { RunsTask task.entry result (watched R.remaining reader.old reader.new)
        (watched W.contents writer.old writer.new)
        (watched F.contents faults.old faults.new) }
{
    let Site {
        alloc,
        net,
        connector,
    } = site;
    match task {
        Task::Show(options) => end_run(alloc, run_show(alloc, options, reader, writer), faults),
        Task::Pair(options) => end_run(alloc, run_moves(alloc, options, reader, writer), faults),
        Task::Head(options) => end_run(alloc, run_head(alloc, options, reader, writer), faults),
        Task::Session(options) => {
            end_run(alloc, run_session(alloc, options, reader, writer), faults)
        }
        Task::Judge(options) => end_run(alloc, run_judge(alloc, options, reader, writer), faults),
        Task::Convert(options) => {
            end_run(alloc, run_convert(alloc, options, reader, writer), faults)
        }
        Task::Cases(options) => run_cases(alloc, options, writer, faults),
        Task::Test(options) => run_test(site, &options, reader, writer, faults),
        Task::Send(options) => run_send(site, &options, reader, writer, faults),
        Task::Sweep(options) => run_sweep(site, &options, writer, faults),
        Task::Report(options) => end_run(alloc, run_report(alloc, options, reader, writer), faults),
        Task::Serve(options) => serve_as_asked(alloc, &options, connector, writer, faults),
        Task::Tap(options) => run_tap(alloc, &options, connector, writer, faults),
    }
}

/// Serves what the words ask for, or tells why there is nothing to serve.
#[inline(never)]
fn serve_as_asked<C: Connector, W: Write, F: Write>(
    alloc: Global,
    options: &ServeOptions<'_>,
    connector: &C,
    writer: &mut Watched<W>,
    faults: &mut Watched<F>,
) -> Exit
    requires { has_failed writer.old ≡ false }
    ensures { RunsServe options.now result (watched W.contents writer.old writer.new)
        (watched F.contents faults.old faults.new) }
{
    match plan_serve(alloc, options) {
        Ok(plan) => run_serve(alloc, &plan, connector, writer, faults),
        Err(fault) => tell_fault(alloc, fault, faults),
    }
}

/// Runs the cases that the words ask for over the server that they name, or tells on the fault output why nothing is
/// run.
#[inline(never)]
fn run_test<N: Network, C: Connector, R: Read, W: Write, F: Write>(
    site: Site<'_, '_, N, C>,
    options: &TestOptions<'_>,
    reader: &mut Watched<R>,
    writer: &mut Watched<W>,
    faults: &mut Watched<F>,
) -> Exit
    requires reader_works { has_failed reader.old ≡ false }
    requires writer_works { has_failed writer.old ≡ false }
    ensures { RunsTest options.now result (watched R.remaining reader.old reader.new)
        (watched W.contents writer.old writer.new) (watched F.contents faults.old faults.new) }
{
    match plan_test(site.alloc, options) {
        Ok(plan) => run_planned(site, options, &plan, reader, writer, faults),
        Err(refusal) => tell_refusal(site.alloc, refusal, faults),
    }
}

/// Runs the cases of a plan beside the earlier run, where one is to be known, or tells why that isn't known.
fn run_planned<N: Network, C: Connector, R: Read, W: Write, F: Write>(
    site: Site<'_, '_, N, C>,
    options: &TestOptions<'_>,
    plan: &TestPlan<'_>,
    reader: &mut Watched<R>,
    writer: &mut Watched<W>,
    faults: &mut Watched<F>,
) -> Exit
    requires reader_works { has_failed reader.old ≡ false }
    requires writer_works { has_failed writer.old ≡ false }
    requires plan { CanBeTested plan.now }
    ensures { RunsPlanAsked options.now plan.now result (watched R.remaining reader.old reader.new)
        (watched W.contents writer.old writer.new) (watched F.contents faults.old faults.new) }
{
    match known_given(site.alloc, options.known, reader) {
        Ok(known) => {
            let report = Report::new(options.junit, options.summary, known);
            run_over_target(site, plan, &report, writer, faults)
        }
        Err(why) => tell_known_stop(site.alloc, why, faults),
    }
}

/// Runs the script that comes in over the server that the words name, or tells on the fault output why it is not run.
#[inline(never)]
fn run_send<'x, N: Network, C: Connector, R: Read, W: Write, F: Write>(
    site: Site<'x, 'x, N, C>,
    options: &SendOptions<'_>,
    reader: &mut Watched<R>,
    writer: &mut Watched<W>,
    faults: &mut Watched<F>,
) -> Exit
    requires reader_works { has_failed reader.old ≡ false }
    requires writer_works { has_failed writer.old ≡ false }
    ensures { RunsSend options.now result (watched R.remaining reader.old reader.new)
        (watched W.contents writer.old writer.new) (watched F.contents faults.old faults.new) }
{
    match plan_send(site.alloc, options) {
        Ok(plan) => send_planned(site, &plan, reader, writer, faults),
        Err(refusal) => tell_refusal(site.alloc, refusal, faults),
    }
}

/// Runs the short scripts that the words ask for over the server that they name, or tells on the fault output why none
/// is run.
#[inline(never)]
fn run_sweep<N: Network, C: Connector, W: Write, F: Write>(
    site: Site<'_, '_, N, C>,
    options: &SweepOptions<'_>,
    writer: &mut Watched<W>,
    faults: &mut Watched<F>,
) -> Exit
    requires { has_failed writer.old ≡ false }
    ensures { RunsSweep options.now result (watched W.contents writer.old writer.new)
        (watched F.contents faults.old faults.new) }
{
    match plan_sweep(site.alloc, options) {
        Ok(plan) => sweep_target(site, &plan, writer, faults),
        Err(refusal) => tell_sweep_refusal(site.alloc, refusal, faults),
    }
}

/// Answers words that give no task: with help, or by telling what is wrong with them.
fn answer_words<W: Write, F: Write>(
    alloc: Global,
    fault: &WordsFault,
    writer: &mut Watched<W>,
    faults: &mut Watched<F>,
) -> Exit
    requires { has_failed writer.old ≡ false }
    ensures { AnswersWords fault.now result (watched W.contents writer.old writer.new)
        (watched F.contents faults.old faults.new) }
{
    match fault {
        WordsFault::Clap(error) => answer_error(alloc, error, writer, faults),
        WordsFault::NoTask => tell_fault(alloc, Fault::NoTask, faults),
    }
}

/// Answers with the help or the version that `clap` was asked for, or tells what is wrong with the words.
fn answer_error<W: Write, F: Write>(
    alloc: Global,
    error: &Error,
    writer: &mut Watched<W>,
    faults: &mut Watched<F>,
) -> Exit
    requires { has_failed writer.old ≡ false }
    ensures { TellsOf (kind_of error.now) result (watched W.contents writer.old writer.new)
        (watched F.contents faults.old faults.new) }
{
    match error.kind() {
        ErrorKind::OutOfMemory => tell_fault(alloc, Fault::NoMemory, faults),
        ErrorKind::DisplayHelp | ErrorKind::DisplayVersion => {
            let _ = write!(writer, "{error}");
            if writer.failed() {
                Exit::Failed
            } else {
                Exit::Done
            }
        }
        _ => {
            let _ = write!(faults, "{error}");
            Exit::WrongWords
        }
    }
}

/// Tells that the words are no text, or that memory ran out before they were read, and answers how the
/// run ended.
pub fn words_are_no_text<F: Write>(alloc: Global, no_memory: bool, faults: &mut Watched<F>) -> Exit
    ensures status { exit_status result ≡ (if no_memory then 3 else 2) }
    ensures told { Tells (if no_memory then codes "no memory\n" else codes "error: the arguments are not UTF-8\n")
        (watched F.contents faults.old faults.new) }
{
    if no_memory {
        tell_fault(alloc, Fault::NoMemory, faults)
    } else {
        tell_fault(alloc, Fault::NoText, faults)
    }
}
