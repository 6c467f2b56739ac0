//! What is told of a connection of a client under test, and how the cases stand after it.

ghost use Rattle.std.specs.Prelude.{◌≡◌, [], ◌∷◌, IfOk, MatchOption, OnErr, OnOk, length, string_bytes};
ghost use Rattle.std.specs.List.{All};
ghost use Rattle.ws_scripts.specs.Scripts.{CanBeRun};
ghost use Rattle.wst_clients.specs.VisitOutcomes.{AsksInside, IsVisitOutcome, after_outcome, behavior_for};
ghost use Rattle.wst_clients.specs.VisitOutcomes.{HasRoomToCount, ends_with_outcome, tests_in};
ghost use Rattle.wst_testing.specs.Reporting.{score_by};
ghost use Rattle.wst_clients.specs.ClientLines.{line_for, lines_for, score_of_case, score_with_all};

use crate::client_lines::line_for;
use crate::visiting::{Telling, Visit, VisitRules, case_for};
use std::alloc::Global;
use ws_base::NoMemory;
use ws_paths::{Behavior, Purpose, Standing};
use ws_suite::{Case, Verdict};
use ws_wire::Role;
use wst_commands::judgement_of;
use wst_testing::{Outcome, Reported, Score};

/// What is told of a turn.
#[derive(Drop)]
pub enum VisitOutcome {
    /// The end of the run was asked for, and that was answered.
    Over,
    /// The case was run that was asked for, and this is told of the client in it.
    Ran(Purpose, Outcome),
}

/// What is told of what a turn came to.
#[tactic(auto, using(crate::proofs::VisitLemmas::ran_told))]
pub(crate) fn outcome_of_visit(
    alloc: Global,
    rules: &VisitRules<'_>,
    visit: Visit,
) -> Result<VisitOutcome, NoMemory>
    ensures { IfOk result (λ outcome. IsVisitOutcome rules.now.explains rules.now.expected visit outcome) }
{
    match visit {
        Visit::Over => Ok(VisitOutcome::Over),
        Visit::Ran(purpose, transcript) => {
            let told = judgement_of(
                alloc,
                rules.explains,
                Role::Client,
                rules.expected,
                &transcript,
            )?;
            Ok(VisitOutcome::Ran(purpose, Outcome::Judged(told)))
        }
    }
}

/// The case that was run, if one was, with what is told of the client in it.
fn test_in<'a>(rules: &VisitRules<'a>, outcome: &'a VisitOutcome) -> Option<(&'a Case, &'a Outcome)>
    requires can { All CanBeRun rules.now.cases.now }
    requires inside { AsksInside rules.now outcome.now }
    ensures { MatchOption result (tests_in rules.now outcome.now ≡ [])
        (λ test. tests_in rules.now outcome.now ≡ (test.0.now, test.1.now) ∷ []) }
{
    match outcome {
        VisitOutcome::Ran(purpose, told) => match case_for(rules.cases, *purpose) {
            Some(case) => Some((case, told)),
            None => None,
        },
        VisitOutcome::Over => None,
    }
}

/// What is written of a case that was run, if one was, which is counted. Where memory runs out, the count is as before.
pub(crate) fn report_outcome(
    alloc: Global,
    rules: &VisitRules<'_>,
    outcome: &VisitOutcome,
    score: &mut Score,
) -> Result<String, NoMemory>
    requires can { All CanBeRun rules.now.cases.now }
    requires inside { AsksInside rules.now outcome.now }
    requires room { HasRoomToCount score.old }
    ensures text { IfOk result (λ text.
        string_bytes text ≡ lines_for rules.now.telling (tests_in rules.now outcome.now)) }
    ensures counted { OnOk result
        (score.new ≡ score_with_all rules.now.telling score.old (tests_in rules.now outcome.now)) }
    ensures kept { OnErr result (score.new ≡ score.old) }
{
    match test_in(rules, outcome) {
        Some((case, told)) => report_counted(alloc, rules.telling, case, told, score),
        None => Ok(String::new(alloc)),
    }
}

/// What is written of a case, which is counted. Where memory runs out, the count is as before.
pub(crate) fn report_counted(
    alloc: Global,
    telling: Telling<'_>,
    case: &Case,
    outcome: &Outcome,
    score: &mut Score,
) -> Result<String, NoMemory>
    requires room { HasRoomToCount score.old }
    ensures text { IfOk result (λ text. string_bytes text ≡ line_for telling.entry (case.now, outcome.now)) }
    ensures counted { OnOk result
        (score.new ≡ score_by score.old outcome.now (score_of_case telling.entry (case.now, outcome.now))) }
    ensures kept { OnErr result (score.new ≡ score.old) }
{
    let reported = line_for(alloc, telling, case, outcome)?;
    let Reported { text, score: added } = reported;
    score.count(outcome, added)?;
    Ok(text)
}

/// What is told of a client in a case stands as what came of the case.
pub(crate) fn keep_outcome(rules: &VisitRules<'_>, standing: &mut Standing, outcome: &VisitOutcome)
    requires counted { length standing.old.behaviors ≡ length rules.now.cases.now }
    requires inside { AsksInside rules.now outcome.now }
    ensures { standing.new ≡ after_outcome standing.old outcome.now }
{
    if let VisitOutcome::Ran(purpose, told) = outcome {
        standing.on_end(*purpose, behavior_for(told));
    }
}

/// What came of a case in which this is told of a client.
fn behavior_for(told: &Outcome) -> Behavior
    ensures { result ≡ behavior_for told.now }
{
    match told {
        Outcome::Judged(told) => match told.verdict {
            Verdict::Pass => Behavior::Ok,
            Verdict::Loose(_) => Behavior::NonStrict,
            Verdict::Fail(_) => Behavior::Failed,
        },
        Outcome::HeadRefused(_) | Outcome::NoConnection(_) => Behavior::Failed,
        Outcome::NotRun => Behavior::Unimplemented,
    }
}

/// Whether a run ends with a connection of which this is told.
pub(crate) fn ends_with(standing: &Standing, outcome: &VisitOutcome) -> bool
    ensures { result ≡ ends_with_outcome (length standing.now.behaviors) outcome.now }
{
    match outcome {
        VisitOutcome::Ran(purpose, _) => standing.ends_with(*purpose),
        VisitOutcome::Over => true,
    }
}
