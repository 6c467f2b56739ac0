//! Cases run over new ends: each is judged, and its line is written, in their order.

ghost use Rattle.std.specs.Prelude.{◌≡◌, ◌+◌, ◌<◌, ◌^◌, List, ℕ, IfOk, MatchResult, OnErr, OnOk, false, true};
ghost use Rattle.std.specs.Prelude.{◌++◌, if◌then◌else◌, string_bytes};
ghost use Rattle.std.specs.List.{All};
ghost use Rattle.ws_frame.specs.Devices.{watched};
ghost use Rattle.ws_frame.specs.Watching.{has_failed};
ghost use Rattle.ws_scripts.specs.Scripts.{CanBeRun};
ghost use Rattle.wst_commands.specs.Devices.{Delivers, StaysFailed};
ghost use Rattle.wst_testing.specs.Hints.{notes_with};
ghost use Rattle.wst_testing.specs.Notes.{TellsEach, miss_notes, progress_notes};
ghost use Rattle.wst_testing.specs.Outcomes.{is_missed, max_missed, refused_lines, told_refusal};
ghost use Rattle.wst_testing.specs.Reporter.{IsEndOfStop, WorksFor};
ghost use Rattle.wst_testing.specs.Testing.{IsOutcomeOf, IsTested, RunsCases, test_line};
ghost use Rattle.wst_commands.specs.declared.fault.Fault.TheVariants as variant;
ghost use Rattle.wst_testing.specs.declared.outcome.Outcome.TheVariants.{NoConnection};

use crate::hinting::{HintState, tell_hint};
use crate::outcome::{Below, Outcome, Reported, Score, ToldRefusal, report_case, tell_end};
use crate::run_plans::TestedEnd;
use crate::runner::{CaseRunner, ListedCases, RunStop, Sink};
use crate::tried::tell_tried;
use std::alloc::Global;
use std::io::Write;
use ws_base::NoMemory;
use ws_connection::HeadRefusal;
use ws_frame::{DataStyle, Watched, write_whole};
use ws_reports::Report;
use ws_suite::{Case, Expectation};
use ws_upgrade::HeadFault;
use ws_wire::Role;
use wst_commands::{Exit, Fault, deliver, judgement_of, tell};
use wst_sockets::{ConnectFault, Meeting};

/// How cases are run.
#[derive(Clone, Copy)]
pub struct RunRules {
    /// The role of the tested end.
    pub tested: Role,
    /// What is expected of it.
    pub expected: Expectation,
    /// The masking key of the client's frames.
    pub key: [u8; 4],
    /// Below a verdict other than Pass it is told why, with payloads in this style, where one is named.
    pub explains: Option<DataStyle>,
    /// The name of each case is told before it runs.
    pub progress: bool,
    /// Tested ends are waited for in time: a case without a connection doesn't end the run then, but the third in a
    /// row.
    pub is_limited: bool,
    /// So many failures end the run, where a number of them is given: FAILs and missing connections, beside an earlier
    /// run of those by which a run fails.
    pub max_fail: Option<u32>,
}

/// Which cases are run, over which end, and how.
#[derive(Clone, Copy)]
pub struct CaseRun<'a> {
    pub rules: RunRules,
    pub cases: &'a [Case],
    /// The end whose address is told where it was refused.
    pub tested: &'a TestedEnd<'a>,
}

/// What is told at the end of a run: what its report has, of what the cases come to.
#[derive(Clone, Copy)]
struct Total<'a> {
    report: &'a Report,
    score: &'a Score,
}

/// Runs the cases in their order, each over a new end, and writes what the report has of each as soon as it is judged,
/// and the total last, with a summary and counts beside an earlier run where these are asked for (behind a document all
/// of them go to `faults`). What can't be written ends the run, and so does, after it is told, an end to which there is
/// no connection, or the third in a row. Behind enough failures it ends too, and the total is that of what was run. Why
/// there is no connection is told to `faults`, at which address it was refused where that ended the run, the name of a
/// case where that is asked for, and what the first ten cases have in common, where that says what to type.
pub fn test_cases<R: CaseRunner, W: Write, F: Write>(
    alloc: Global,
    runner: &R,
    run: CaseRun<'_>,
    report: &Report,
    writer: &mut Watched<W>,
    faults: &mut Watched<F>,
) -> Result<Exit, Fault>
    requires works { has_failed writer.old ≡ false }
    requires can_be_run { All CanBeRun run.cases.now }
    ensures runs { RunsCases (R.meets runner.now run.entry.rules.key) run.entry.rules report.now run.entry.cases.now
        run.entry.tested.now result (watched W.contents writer.old writer.new)
        (watched F.contents faults.old faults.new) }
    ensures still { StaysFailed faults.old faults.new }
{
    let CaseRun {
        rules,
        cases,
        tested,
    } = run;
    let mut score = Score::new(alloc);
    let mut reporter = Reporter {
        rules,
        report,
        score: &mut score,
        missed: 0,
        hint: HintState::of(cases.len()),
        writer,
        faults,
    };
    let mut listed = ListedCases::of(cases);
    let ended = runner.run_each(alloc, rules.key, &mut listed, &mut reporter);
    match ended {
        Ok(()) => tell_end(alloc, report, &score, writer, faults),
        Err(why) => {
            let total = Total {
                report,
                score: &score,
            };
            stopped_by(alloc, why, tested, total, writer, faults)
        }
    }
}

/// How a run ends that was stopped for this reason: where enough was run, with the total of that. Where a connection
/// was refused, it is told at which address.
fn stopped_by<W: Write, F: Write>(
    alloc: Global,
    why: RunStop,
    tested: &TestedEnd<'_>,
    total: Total<'_>,
    writer: &mut Watched<W>,
    faults: &mut Watched<F>,
) -> Result<Exit, Fault>
    requires { WorksFor why (has_failed writer.old) }
    ensures is { IsEndOfStop tested.now total.entry.report.now total.entry.score.now why result
        (writer.new ≡ writer.old) (faults.new ≡ faults.old) (watched W.contents writer.old writer.new)
        (watched F.contents faults.old faults.new) }
    ensures still { StaysFailed faults.old faults.new }
{
    match why {
        RunStop::Enough => tell_end(alloc, total.report, total.score, writer, faults),
        RunStop::Output => Ok(Exit::Failed),
        RunStop::NoConnection(why) => {
            tell_tried(tested, why, faults);
            Ok(Exit::Failed)
        }
        RunStop::NoMemory => Err(Fault::NoMemory),
    }
}

/// Writes what a report has of each case as soon as it is judged. Why there is no connection is told to `faults`, and
/// the name of a case before it runs, where that is asked for.
#[derive(Drop)]
struct Reporter<'r, 's, 'w, 'f, W, F> {
    rules: RunRules,
    report: &'r Report,
    /// What the cases so far come to.
    score: &'s mut Score,
    /// So many cases in a row are without a connection.
    missed: u32,
    /// What the cases have in common.
    hint: HintState,
    writer: &'w mut Watched<W>,
    faults: &'f mut Watched<F>,
}

impl<W: Write, F: Write> Sink for Reporter<'_, '_, '_, '_, W, F> {
    ghost use Rattle.std.specs.Prelude.{◌≡◌, ◌∷◌, []};
    ghost use Rattle.ws_frame.specs.Devices.{watched};
    ghost use Rattle.wst_commands.specs.Devices.{StaysFailed};
    ghost use Rattle.wst_testing.specs.Reporter.{HasReported, StopsReport};

    type Item = Case;

    ghost heard = { λ start now came next. (now.rules ≡ start.rules) × (now.report.now ≡ start.report.now)
        × HasReported start.rules start.report.now start.hint.left came next now.score.now now.missed now.hint
        (watched W.contents start.writer.now now.writer.now) (watched F.contents start.faults.now now.faults.now)
        × StaysFailed start.faults.now now.faults.now };

    ghost stopped = { λ start now came why.
        StopsReport start.rules start.report.now start.hint.left came now.score.now why
        (watched W.contents start.writer.now now.writer.now) (watched F.contents start.faults.now now.faults.now)
        × StaysFailed start.faults.now now.faults.now };

    ghost borrows = { λ reporter.
        reporter.score.ghost_name ∷ reporter.writer.ghost_name ∷ reporter.faults.ghost_name ∷ [] };

    fn begins(&mut self, alloc: Global, case: &Case) -> Result<(), NoMemory> {
        tell_progress(alloc, self.rules.progress, case, self.faults)?;
        Ok(())
    }

    fn came(&mut self, alloc: Global, case: &Case, meeting: Meeting) -> Result<(), RunStop> {
        let outcome = judged(alloc, self.rules, meeting)?;
        let reported = report_case(alloc, self.report, case, &outcome)?;
        let Reported { text, score } = reported;
        self.score.count(&outcome, score)?;
        let written = write_whole(self.writer, text.as_bytes());
        tell_behind(self.hint, &outcome, self.faults);
        match written {
            Ok(()) => {}
            Err(_) => return Err(RunStop::Output),
        }
        self.missed = missed_after(self.missed, &outcome);
        if self.missed >= max_missed(self.rules.is_limited) {
            return Err(RunStop::NoConnection(miss_of(&outcome)));
        }
        self.hint = self.hint.with(&outcome);
        if self.score.is_enough(self.rules.max_fail) {
            return Err(RunStop::Enough);
        }
        Ok(())
    }
}

/// Tells what there is to tell behind the line of a case: why there is no connection, where there is none, and what
/// all cases so far have in common, where that is the place for it.
fn tell_behind<F: Write>(hint: HintState, outcome: &Outcome, faults: &mut Watched<F>)
    ensures told { TellsEach (miss_notes outcome.now ++ notes_with hint outcome.now)
        (watched F.contents faults.old faults.new) }
    ensures still { StaysFailed faults.old faults.new }
{
    tell_miss(outcome, faults);
    tell_hint(hint, outcome, faults);
}

/// After so many cases in a row without a connection a run ends.
fn max_missed(is_limited: bool) -> u32
    ensures { result ≡ max_missed is_limited }
{
    if is_limited { 3 } else { 1 }
}

/// How many cases in a row were without a connection, where there were so many before this outcome.
fn missed_after(missed: u32, outcome: &Outcome) -> u32
    requires { missed + 1 < 2 ^ 32 }
    ensures { result ≡ (if is_missed outcome.now then 1 + missed else 0) }
{
    match outcome {
        Outcome::NoConnection(_) => missed + 1,
        Outcome::Judged(_) | Outcome::HeadRefused(_) | Outcome::NotRun => 0,
    }
}

/// Why there is no connection, where there is none.
fn miss_of(outcome: &Outcome) -> ConnectFault
    requires { is_missed outcome.now ≡ true }
    ensures { outcome.now ≡ NoConnection result }
{
    match outcome {
        Outcome::NoConnection(why) => *why,
        Outcome::Judged(_) | Outcome::HeadRefused(_) | Outcome::NotRun => unreachable!(),
    }
}

/// Tells the name of a case that is run next, where that is asked for.
pub fn tell_progress<F: Write>(
    alloc: Global,
    progress: bool,
    case: &Case,
    faults: &mut Watched<F>,
) -> Result<(), NoMemory>
    ensures told { OnOk result (TellsEach (progress_notes progress case.now)
        (watched F.contents faults.old faults.new)) }
    ensures kept { OnErr result (faults.new ≡ faults.old) }
    ensures still { StaysFailed faults.old faults.new }
{
    if !progress {
        return Ok(());
    }
    let line = format!(in alloc; "{}\n", case.id)?;
    tell(line.as_bytes(), faults);
    Ok(())
}

/// Tells why there is no connection to the tested end of a case, where there is none.
pub(crate) fn tell_miss<F: Write>(outcome: &Outcome, faults: &mut Watched<F>)
    ensures told { TellsEach (miss_notes outcome.now) (watched F.contents faults.old faults.new) }
    ensures still { StaysFailed faults.old faults.new }
{
    match outcome {
        Outcome::NoConnection(why) => tell(why.line(), faults),
        Outcome::Judged(_) | Outcome::HeadRefused(_) | Outcome::NotRun => {}
    }
}

/// What is told of a case of which this came.
pub(crate) fn judged(alloc: Global, rules: RunRules, meeting: Meeting) -> Result<Outcome, NoMemory>
    ensures { IfOk result (λ outcome. IsOutcomeOf rules meeting outcome) }
{
    match meeting {
        Meeting::Ran(transcript) => {
            let tested = rules.tested;
            let told = judgement_of(alloc, rules.explains, tested, rules.expected, &transcript)?;
            Ok(Outcome::Judged(told))
        }
        Meeting::Refused(refusal) => {
            let told = told_refusal(rules.explains.is_some(), refusal);
            Ok(Outcome::HeadRefused(told))
        }
        Meeting::NoConnection(why) => Ok(Outcome::NoConnection(why)),
    }
}

/// What is told of a refusal where it is told why: its status where that is why, and the rule.
pub(crate) fn told_refusal(explains: bool, refusal: HeadRefusal) -> ToldRefusal
    ensures { result ≡ told_refusal explains refusal }
{
    let is_told = explains && matches!(refusal.fault, HeadFault::Status);
    ToldRefusal {
        fault: refusal.fault,
        status: if is_told { refusal.status } else { None },
        has_rule: explains,
    }
}

/// What is told of a head that is to be refused where it stands alone: its words, and below them its status, where that
/// is why, and the rule.
pub fn refused_lines(alloc: Global, refusal: HeadRefusal) -> Result<String, NoMemory>
    ensures { IfOk result (λ lines. string_bytes lines ≡ refused_lines refusal) }
{
    let outcome = Outcome::HeadRefused(told_refusal(true, refusal));
    let below = Below(&outcome);
    let lines = format!(in alloc; "{outcome}\n{below}")?;
    Ok(lines)
}

/// Writes the line of a case, and what stands below it, and answers this exit, or that of a failure.
pub fn tell_case<W: Write>(
    alloc: Global,
    case: &Case,
    outcome: &Outcome,
    done: Exit,
    writer: &mut Watched<W>,
) -> Result<Exit, Fault>
    requires { has_failed writer.old ≡ false }
    ensures { MatchResult result
        (λ exit. Delivers done (test_line (case.now, outcome.now)) exit (watched W.contents writer.old writer.new))
        (λ fault. (fault ≡ variant.NoMemory) × (writer.new ≡ writer.old)) }
{
    let lines = case_line(alloc, case, outcome)?;
    Ok(deliver(done, lines.as_bytes(), writer))
}

/// The line of a case, and what stands below it.
pub(crate) fn case_line(alloc: Global, case: &Case, outcome: &Outcome) -> Result<String, NoMemory>
    ensures { IfOk result (λ lines. string_bytes lines ≡ test_line (case.now, outcome.now)) }
{
    let below = Below(outcome);
    let lines = format!(in alloc; "{} {outcome}\n{below}", case.id)?;
    Ok(lines)
}
