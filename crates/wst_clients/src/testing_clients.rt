//! Clients under test, turn by turn: what each asks for is done, the line of each case that was run is written as it
//! ends, and at the end those of the cases that none has asked for, and what stands behind all of them.

ghost use Rattle.std.specs.Prelude.{◌≡◌, ◌<◌, ◌^◌, ◌++◌, IfErr, IfOk, OnErr, false, length, string_bytes};
ghost use Rattle.std.specs.List.{All};
ghost use Rattle.ws_frame.specs.Devices.{watched};
ghost use Rattle.ws_frame.specs.Watching.{has_failed};
ghost use Rattle.ws_paths.specs.Standings.{none_run};
ghost use Rattle.ws_scripts.specs.Scripts.{CanBeRun};
ghost use Rattle.ws_upgrade.specs.Protocols.{AreOffers};
ghost use Rattle.wst_commands.specs.Devices.{StaysFailed};
ghost use Rattle.wst_clients.specs.ClientTests.{AddsLastLines, AddsNotRun, ComesNext, FitsCases, IsFaultFor};
ghost use Rattle.wst_clients.specs.ClientTests.{TellsOfTurn, IsVisitFault, IsWorking, RunsVisits, TellsEndOf};
ghost use Rattle.wst_clients.specs.ClientTests.{TestsClients, WritesEnough};
ghost use Rattle.wst_testing.specs.Outcomes.{count_in};
ghost use Rattle.wst_clients.specs.VisitOutcomes.{HasRoomToCount, not_run_if};
ghost use Rattle.wst_clients.specs.ClientLines.{lines_for, score_with_all};
ghost use Rattle.wst_clients.specs.Visits.{AreFailing, BreaksTurn, CanBeVisited, known_by, unmet_by};
ghost use Rattle.wst_clients.specs.declared.testing_clients.VisitsEnd.TheVariants.{Ended};

use crate::client_lines::{behind_for, end_for, tell_beside_for};
use crate::late_clients::tell_late;
use crate::tested_clients::TestedClients;
use crate::visit_outcome::{
    VisitOutcome, ends_with, keep_outcome, outcome_of_visit, report_counted, report_outcome,
};
use crate::visiting::{NoVisit, Round, Telling, Visit, VisitRules};
use std::alloc::Global;
use std::io::Write;
use ws_base::NoMemory;
use ws_frame::Watched;
use ws_loops::LoopFault;
use ws_paths::{Behavior, Standing};
use ws_suite::Case;
use wst_commands::{Exit, Fault, ListenFault, deliver};
use wst_testing::{Outcome, Score};

/// At most so many turns are taken: more than can come.
const MAX_VISITS: u64 = 1 << 62;

/// How the taking of connections ended.
#[derive(Drop)]
pub enum VisitsEnd {
    /// With a connection that ends the run, or without one in time: the cases stand so, and the run has come to this.
    Ended(Standing, Score),
    /// With enough failures: the run has come to this.
    Enough(Score),
    /// None can come any more, or a line could not be written.
    Stopped,
}

/// Takes the turns of those who come, one after the other, until one ends the run, or nobody asks in time. Writes a
/// line for each case that was run as it ends, then one for each case that was not run, and what stands behind all
/// cases last. A line that can't be written ends the run, and so does a listener that takes no client any more. Behind
/// enough failures stands the total of what was run. Those who are left are read to the end, for a while.
pub fn test_clients<C: TestedClients, W: Write, F: Write>(
    alloc: Global,
    clients: &mut C,
    rules: &VisitRules<'_>,
    writer: &mut Watched<W>,
    faults: &mut Watched<F>,
) -> Result<Exit, Fault>
    requires works { has_failed writer.old ≡ false }
    requires can { All CanBeRun rules.now.cases.now }
    requires known { AreOffers (known_by rules.now) }
    requires are { C.are rules.now clients.old }
    ensures tests { TestsClients (record { visits = C.visits; passes = C.passes }) (unmet_by C.none C.fails) rules.now
        result (watched W.contents writer.old writer.new) (watched F.contents faults.old faults.new) }
    ensures still { StaysFailed faults.old faults.new }
{
    let ended = run_visits(alloc, clients, rules, writer, faults);
    let told = tell_end(alloc, rules, ended, writer, faults);
    clients.end();
    told
}

/// Writes what stands behind the turns, where they have ended so.
fn tell_end<W: Write, F: Write>(
    alloc: Global,
    rules: &VisitRules<'_>,
    ended: Result<VisitsEnd, Fault>,
    writer: &mut Watched<W>,
    faults: &mut Watched<F>,
) -> Result<Exit, Fault>
    requires works { IsWorking ended (has_failed writer.old) }
    requires can { All CanBeRun rules.now.cases.now }
    requires fits { IfOk ended (FitsCases (length rules.now.cases.now)) }
    ensures tells { TellsEndOf rules.now ended result (writer.new ≡ writer.old) (faults.new ≡ faults.old)
        (watched W.contents writer.old writer.new) (watched F.contents faults.old faults.new) }
    ensures still { StaysFailed faults.old faults.new }
{
    let end = ended?;
    match end {
        VisitsEnd::Ended(standing, mut score) => {
            let (lines, behind) = last_lines(alloc, rules, &standing, &mut score)?;
            let exit = deliver(score.exit(), lines.as_bytes(), writer);
            tell_beside_for(rules.telling, behind.as_str(), faults);
            Ok(exit)
        }
        VisitsEnd::Enough(score) => tell_enough(alloc, rules, &score, writer, faults),
        VisitsEnd::Stopped => Ok(Exit::Failed),
    }
}

/// Takes the turns of those who come, one after the other, until one ends the run or nobody asks in time, which is
/// told, and writes a line for each case that was run.
fn run_visits<C: TestedClients, W: Write, F: Write>(
    alloc: Global,
    clients: &mut C,
    rules: &VisitRules<'_>,
    writer: &mut Watched<W>,
    faults: &mut Watched<F>,
) -> Result<VisitsEnd, Fault>
    requires works { has_failed writer.old ≡ false }
    requires can { All CanBeRun rules.now.cases.now }
    requires known { AreOffers (known_by rules.now) }
    requires are { C.are rules.now clients.old }
    ensures runs { RunsVisits (record { visits = C.visits; passes = C.passes }) (unmet_by C.none C.fails) rules.now
        result (watched W.contents writer.old writer.new) (watched F.contents faults.old faults.new) }
    ensures fits { IfOk result (FitsCases (length rules.now.cases.now)) }
    ensures still { StaysFailed faults.old faults.new }
{
    let mut standing = none_run(alloc, rules.cases)?;
    let mut score = Score::new(alloc);
    let mut visited = 0;
    while visited < MAX_VISITS {
        visited += 1;
        let round = Round {
            alloc,
            rules: &*rules,
            standing: &standing,
        };
        let came = next_outcome(round, clients, faults)?;
        let outcome = match came {
            Ok(outcome) => outcome,
            Err(NoVisit::TooLate) => {
                tell_late(alloc, rules.wait, rules.cases, &standing, faults)?;
                return Ok(VisitsEnd::Ended(standing, score));
            }
            Err(NoVisit::Never) => return Ok(VisitsEnd::Stopped),
        };
        let text = report_outcome(alloc, rules, &outcome, &mut score)?;
        deliver(Exit::Done, text.as_bytes(), writer);
        if writer.failed() {
            return Ok(VisitsEnd::Stopped);
        }
        keep_outcome(rules, &mut standing, &outcome);
        if score.is_enough(rules.max_fail) {
            return Ok(VisitsEnd::Enough(score));
        }
        if ends_with(&standing, &outcome) {
            return Ok(VisitsEnd::Ended(standing, score));
        }
    }
    Err(Fault::NoMemory)
}

/// What is told of the next turn, or why there is none.
fn next_outcome<C: TestedClients, F: Write>(
    round: Round<'_>,
    clients: &mut C,
    faults: &mut Watched<F>,
) -> Result<Result<VisitOutcome, NoVisit>, Fault>
    requires can { CanBeVisited round.rules.now round.standing.now }
    requires are { C.are round.rules.now clients.old }
    ensures comes { IfOk result (λ came. ComesNext (record { visits = C.visits; passes = C.passes })
        (unmet_by C.none C.fails) round.entry.rules.now round.entry.standing.now came
        (watched F.contents faults.old faults.new)) }
    ensures lacks { OnErr result (BreaksTurn (record { visits = C.visits; passes = C.passes }) round.entry.rules.now
        round.entry.standing.now (watched F.contents faults.old faults.new)) }
    ensures stops { IfErr result (IsVisitFault (AreFailing C.fails)) }
    ensures are { IfOk result (λ came. C.are round.entry.rules.now clients.new) }
    ensures still { StaysFailed faults.old faults.new }
{
    match clients.next_visit(round, faults) {
        Ok(taken) => {
            let came = outcome_of_taken(round, taken)?;
            Ok(came)
        }
        Err(why) => Err(fault_of(why)),
    }
}

/// What is told of the turn that was taken, or why none was.
fn outcome_of_taken(
    round: Round<'_>,
    taken: Result<Visit, NoVisit>,
) -> Result<Result<VisitOutcome, NoVisit>, NoMemory>
    ensures { IfOk result (TellsOfTurn round.entry.rules.now taken) }
{
    match taken {
        Ok(visit) => {
            let outcome = outcome_of_visit(round.alloc, round.rules, visit)?;
            Ok(Ok(outcome))
        }
        Err(why) => Ok(Err(why)),
    }
}

/// What ends a run over clients, where a loop has stopped so.
pub(crate) fn fault_of(why: LoopFault) -> Fault
    ensures { IsFaultFor why result }
{
    match why {
        LoopFault::NoMemory => Fault::NoMemory,
        LoopFault::WaitFailed | LoopFault::NoOutput => Fault::NotListening(ListenFault::Failed),
    }
}

/// Writes what stands behind the cases of a run that failures have ended, which came to this.
fn tell_enough<W: Write, F: Write>(
    alloc: Global,
    rules: &VisitRules<'_>,
    score: &Score,
    writer: &mut Watched<W>,
    faults: &mut Watched<F>,
) -> Result<Exit, Fault>
    requires works { has_failed writer.old ≡ false }
    requires few { count_in score.now.tally < 2 ^ 64 }
    ensures is { WritesEnough rules.now.telling score.now result (writer.new ≡ writer.old) (faults.new ≡ faults.old)
        (watched W.contents writer.old writer.new) (watched F.contents faults.old faults.new) }
    ensures still { StaysFailed faults.old faults.new }
{
    let behind = behind_for(alloc, rules.telling, score.tally.count(), score)?;
    let text = end_for(rules.telling, behind.as_str());
    let exit = deliver(score.exit(), text.as_bytes(), writer);
    tell_beside_for(rules.telling, behind.as_str(), faults);
    Ok(exit)
}

/// How the cases stand before a client came.
pub(crate) fn none_run(alloc: Global, cases: &[Case]) -> Result<Standing, NoMemory>
    ensures none { IfOk result (λ standing. standing ≡ none_run (length cases.now)) }
    ensures fits { IfOk result (λ _. length cases.now < 2 ^ 32) }
{
    let Ok(count) = u32::try_from(cases.len()) else {
        return Err(NoMemory);
    };
    let standing = Standing::new(alloc, count)?;
    Ok(standing)
}

/// The lines of the cases that were not run, which are counted, and what is written last; and what stands behind all
/// cases.
fn last_lines(
    alloc: Global,
    rules: &VisitRules<'_>,
    standing: &Standing,
    score: &mut Score,
) -> Result<(String, String), NoMemory>
    requires fits { FitsCases (length rules.now.cases.now) (Ended standing.now score.old) }
    ensures { IfOk result (λ added. AddsLastLines rules.now standing.now.behaviors score.old (string_bytes added.0)
        (string_bytes added.1) score.new) }
{
    let mut lines = not_run_lines(alloc, rules, standing, score)?;
    let behind = behind_for(alloc, rules.telling, rules.cases.len(), score)?;
    lines.push_str(end_for(rules.telling, behind.as_str()))?;
    Ok((lines, behind))
}

/// The lines of the cases that were not run, which are counted.
fn not_run_lines(
    alloc: Global,
    rules: &VisitRules<'_>,
    standing: &Standing,
    score: &mut Score,
) -> Result<String, NoMemory>
    requires fits { FitsCases (length rules.now.cases.now) (Ended standing.now score.old) }
    ensures { IfOk result (λ lines. AddsNotRun rules.now.telling rules.now.cases.now standing.now.behaviors score.old
        (string_bytes lines) score.new) }
{
    let cases = rules.cases;
    let mut lines = String::new(alloc);
    for place in 0..cases.len() {
        let behavior = standing.behavior(place as u32 + 1);
        add_if_not_run(
            alloc,
            rules.telling,
            &cases[place],
            behavior,
            score,
            &mut lines,
        )?;
    }
    Ok(lines)
}

/// Puts the line of a case at the end of the lines, where it was not run, and counts it.
fn add_if_not_run(
    alloc: Global,
    telling: Telling<'_>,
    case: &Case,
    behavior: Behavior,
    score: &mut Score,
    lines: &mut String,
) -> Result<(), NoMemory>
    requires { HasRoomToCount score.old }
    ensures lines { IfOk result (λ _.
        string_bytes lines.new ≡ string_bytes lines.old ++ lines_for telling.entry (not_run_if case.now behavior)) }
    ensures counted { IfOk result (λ _.
        score.new ≡ score_with_all telling.entry score.old (not_run_if case.now behavior)) }
{
    match behavior {
        Behavior::Unimplemented => {
            let text = report_counted(alloc, telling, case, &Outcome::NotRun, score)?;
            lines.push_str(text.as_str())?;
            Ok(())
        }
        Behavior::Ok | Behavior::NonStrict | Behavior::Failed => Ok(()),
    }
}
