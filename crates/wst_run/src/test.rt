//! The command `test`: what is to be run, and its run over ends of any kind. Its lines are told in docs/FORMATS.md.

ghost use Rattle.std.specs.Prelude.{◌≡◌, ◌<◌, IfOk, MatchResult, false};
ghost use Rattle.ws_frame.specs.Devices.{watched};
ghost use Rattle.ws_frame.specs.Watching.{has_failed};
ghost use Rattle.wst_commands.specs.Devices.{StaysFailed};
ghost use Rattle.wst_commands.specs.GivenCases.{names_of};
ghost use Rattle.wst_testing.specs.Ends.{MeetsEnd};
ghost use Rattle.wst_testing.specs.Servers.{MeetsAtAddress};
ghost use Rattle.wst_run.specs.Test.{CanBeTested, CarriesOut, IsPlan, RefusesTest, ReportsPlan, RunsPlan, RunsPlanOver};
ghost use Rattle.wst_run.specs.Test.{asks_one_by_one, explained_with, is_one_case, rules_of, tells_names};

use crate::clients_at::test_clients_at;
use crate::site::Site;
use std::alloc::Global;
use std::io::Write;
use ws_frame::{DataStyle, Watched};
use ws_reports::Report;
use ws_suite::Case;
use wst_at_once::AtOnce;
use wst_commands::{Exit, Fault, cases_of, deliver, end_run, is_glob};
use wst_network::Connector;
use wst_sockets::Network;
use wst_testing::{
    AddressServer, CaseRun, CaseRunner, CaseServer, End, InTurn, Refusal, RunPlan, RunRules,
    UsualTimes, asks_in_turn, at_once_given, capture_case, close_report, max_fail_given, plan_run,
    test_cases,
};
use wst_words::TestOptions;

/// What is to be run.
#[derive(Drop)]
pub struct TestPlan<'a> {
    /// Over which end, and how.
    pub run: RunPlan<'a>,
    /// The word that names it.
    pub target: &'a str,
    /// The capture of the one case is written in place of the verdicts.
    pub capture: bool,
    /// Below a verdict other than Pass it is told why, with payloads in this style, where one is named.
    pub explain: Option<DataStyle>,
    /// The name of each case is told before it runs.
    pub progress: bool,
    /// So many failures end the run, where a number of them is given.
    pub max_fail: Option<u32>,
    /// So many cases run at a time.
    pub at_once: u32,
    pub cases: Vec<Case>,
}

/// Runs the cases of a plan over the end that it names, and tells how that ended.
pub(crate) fn run_over_target<N: Network, C: Connector, W: Write, F: Write>(
    site: Site<'_, '_, N, C>,
    plan: &TestPlan<'_>,
    report: &Report,
    writer: &mut Watched<W>,
    faults: &mut Watched<F>,
) -> Exit
    requires works { has_failed writer.old ≡ false }
    requires plan { CanBeTested plan.now }
    ensures { RunsPlanOver plan.now.run.tested plan.now report.now result (watched W.contents writer.old writer.new)
        (watched F.contents faults.old faults.new) }
{
    match End::of_plan(site.net, site.connector, &plan.run) {
        Ok(end) => run_over_end(site.alloc, &end, plan, report, writer, faults),
        Err(address) => test_clients_at(site, address, plan, report, writer, faults),
    }
}

/// Runs the cases of a plan over an end, several at a time where that is asked for of a server, and tells how that
/// ended.
fn run_over_end<N: Network, C: Connector, W: Write, F: Write>(
    alloc: Global,
    end: &End<'_, N, C>,
    plan: &TestPlan<'_>,
    report: &Report,
    writer: &mut Watched<W>,
    faults: &mut Watched<F>,
) -> Exit
    requires works { has_failed writer.old ≡ false }
    requires plan { CanBeTested plan.now }
    ensures { RunsPlan (MeetsEnd end.now plan.now.run.key) plan.now report.now result
        (watched W.contents writer.old writer.new) (watched F.contents faults.old faults.new) }
{
    match end {
        End::Memory(_) => run_plan(alloc, end, plan, report, writer, faults),
        End::Address(server) => {
            if plan.at_once > 1 {
                run_at_once(alloc, server, plan, report, writer, faults)
            } else {
                run_plan(alloc, end, plan, report, writer, faults)
            }
        }
    }
}

/// Runs the cases of a plan over a server, several at a time, and tells how that ended.
fn run_at_once<N: Network, C: Connector, W: Write, F: Write>(
    alloc: Global,
    server: &AddressServer<'_, N, C>,
    plan: &TestPlan<'_>,
    report: &Report,
    writer: &mut Watched<W>,
    faults: &mut Watched<F>,
) -> Exit
    requires works { has_failed writer.old ≡ false }
    requires plan { CanBeTested plan.now }
    requires several { 1 < plan.now.at_once }
    ensures { RunsPlan (MeetsAtAddress server.now plan.now.run.key) plan.now report.now result
        (watched W.contents writer.old writer.new) (watched F.contents faults.old faults.new) }
{
    let runner = AtOnce::new(server, plan.at_once as usize, plan.progress);
    let ended = report_cases(alloc, &runner, plan, report, writer, faults);
    end_run(alloc, ended, faults)
}

/// Runs the cases of a plan, each over a new end, and tells how that ended.
pub fn run_plan<S: CaseServer, W: Write, F: Write>(
    alloc: Global,
    server: &S,
    plan: &TestPlan<'_>,
    report: &Report,
    writer: &mut Watched<W>,
    faults: &mut Watched<F>,
) -> Exit
    requires works { has_failed writer.old ≡ false }
    requires plan { CanBeTested plan.now }
    ensures { RunsPlan (S.meets server.now plan.now.run.key) plan.now report.now result
        (watched W.contents writer.old writer.new) (watched F.contents faults.old faults.new) }
{
    let ended = carry_out(alloc, server, plan, report, writer, faults);
    end_run(alloc, ended, faults)
}

/// Runs the cases of a plan.
fn carry_out<S: CaseServer, W: Write, F: Write>(
    alloc: Global,
    server: &S,
    plan: &TestPlan<'_>,
    report: &Report,
    writer: &mut Watched<W>,
    faults: &mut Watched<F>,
) -> Result<Exit, Fault>
    requires works { has_failed writer.old ≡ false }
    requires plan { CanBeTested plan.now }
    ensures runs { CarriesOut (S.meets server.now plan.now.run.key) plan.now report.now result
        (watched W.contents writer.old writer.new) (watched F.contents faults.old faults.new) }
    ensures still { StaysFailed faults.old faults.new }
{
    if plan.capture {
        let rules = rules_of(plan);
        let cases = plan.cases.as_slice();
        capture_case(alloc, server, rules, &cases[0], writer, faults)
    } else {
        report_cases(alloc, &InTurn(server), plan, report, writer, faults)
    }
}

/// Runs the cases of a plan as `test_cases` does, between what the report has before and behind them. What it has
/// behind them is written also where the run ends early, if the output works.
fn report_cases<R: CaseRunner, W: Write, F: Write>(
    alloc: Global,
    runner: &R,
    plan: &TestPlan<'_>,
    report: &Report,
    writer: &mut Watched<W>,
    faults: &mut Watched<F>,
) -> Result<Exit, Fault>
    requires works { has_failed writer.old ≡ false }
    requires plan { CanBeTested plan.now }
    ensures runs { ReportsPlan (R.meets runner.now plan.now.run.key) plan.now report.now result
        (watched W.contents writer.old writer.new) (watched F.contents faults.old faults.new) }
    ensures still { StaysFailed faults.old faults.new }
{
    let start = report.start_text(alloc, plan.target)?;
    let begun = deliver(Exit::Done, start.as_bytes(), writer);
    if writer.failed() {
        return Ok(begun);
    }
    let rules = rules_of(plan);
    let run = CaseRun {
        rules,
        cases: plan.cases.as_slice(),
        tested: &plan.run.tested,
    };
    let ended = test_cases(alloc, runner, run, report, writer, faults);
    close_report(report, &ended, writer);
    ended
}

/// How the cases of a plan are run.
fn rules_of(plan: &TestPlan<'_>) -> RunRules
    ensures { result ≡ rules_of plan.now }
{
    RunRules {
        tested: plan.run.tested.role(),
        expected: plan.run.expected,
        key: plan.run.key,
        explains: plan.explain,
        progress: tells_names(plan.progress, plan.at_once),
        is_limited: plan.run.gives_limit,
        max_fail: plan.max_fail,
    }
}

/// Whether the name of each case is told by its run: where several run at a time, it is told beside that.
pub(crate) fn tells_names(progress: bool, at_once: u32) -> bool
    ensures { result ≡ tells_names progress at_once }
{
    progress && at_once < 2
}

/// What the words ask for, or the first reason against it.
pub fn plan_test<'a>(alloc: Global, options: &TestOptions<'a>) -> Result<TestPlan<'a>, Refusal<'a>>
    ensures plan { MatchResult result (IsPlan options.now) (RefusesTest options.now) }
    ensures fits { IfOk result CanBeTested }
{
    if options.capture && (options.known || options.junit) {
        return Err(Refusal::CaptureInReport);
    }
    if asks_one_by_one(options) {
        return Err(Refusal::AtOnceInTurn);
    }
    let run = plan_run(alloc, &options.run, UsualTimes::OfCases)?;
    if options.capture && !is_one_case(options.ids.as_slice()) {
        return Err(Refusal::NotOneCase);
    }
    let cases = cases_of(alloc, options.ids.as_slice())?;
    let Some(max_fail) = max_fail_given(options.max_fail) else {
        return Err(Refusal::BadMaxFail);
    };
    let Some(at_once) = at_once_given(options.at_once) else {
        return Err(Refusal::BadAtOnce);
    };
    Ok(TestPlan {
        run,
        target: options.run.target,
        capture: options.capture,
        explain: explained_with(options),
        progress: options.progress,
        max_fail,
        at_once,
        cases,
    })
}

/// Whether it is given how many cases run at a time, and a capture is asked for, or the end is tested in one case after
/// the other.
fn asks_one_by_one(options: &TestOptions<'_>) -> bool
    ensures { result ≡ asks_one_by_one options.now }
{
    (options.at_once.is_some() && options.capture)
        || asks_in_turn(options.at_once, options.run.role, options.run.target)
}

/// In which style it is told why, where that is asked for: a document tells it too.
fn explained_with(options: &TestOptions<'_>) -> Option<DataStyle>
    ensures { result ≡ explained_with options.now }
{
    if options.explain || options.junit {
        Some(options.style)
    } else {
        None
    }
}

/// Whether the words are the name of one case.
fn is_one_case(ids: &[&str]) -> bool
    ensures { result ≡ is_one_case (names_of ids.now) }
{
    ids.len() == 1 && !is_glob(ids[0])
}
