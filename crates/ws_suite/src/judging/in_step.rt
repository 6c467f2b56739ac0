//! Pongs in the order of the pings that they answer, one for each, as most peers send them (RFC 6455 section 5.5.3).

ghost use Rattle.std.specs.Prelude.{◌≡◌, ◌||◌, IfSome};
ghost use Rattle.std.specs.List.{list_any};
ghost use Rattle.ws_suite.specs.InnerInStep.{IsStepOf};
ghost use Rattle.ws_suite.specs.Matching.{matches_of};
ghost use Rattle.ws_suite.specs.Verdicts.{is_before_match, is_unmatched};

use crate::judging::chosen::Chosen;

/// What comes of pongs that were matched in step with those that are due.
#[derive(Drop)]
pub(crate) struct InStep<'a, 'b> {
    /// Some of them stands in an earlier turn than its ping.
    pub is_early: bool,
    /// The due pongs that are left.
    pub due: Chosen<'a>,
    /// The got pongs that are left.
    pub got: Chosen<'b>,
}

/// Matches pongs from the front, as long as the next one has the payload of the next that is due. No list is made for
/// them: where a peer answers every ping in its order, these are all.
pub(super) fn match_in_step<'a, 'b>(due: Chosen<'a>, got: Chosen<'b>) -> InStep<'a, 'b>
    ensures early { (result.is_early || list_any is_before_match (matches_of result.due result.got))
        ≡ list_any is_before_match (matches_of due.entry got.entry) }
    ensures unmatched { list_any is_unmatched (matches_of result.due result.got)
        ≡ list_any is_unmatched (matches_of due.entry got.entry) }
{
    let mut due_left = due;
    let mut got_left = got;
    let mut is_early = false;
    while let Some(step) = next_in_step(&due_left, &got_left) {
        is_early = either(is_early, step.is_early);
        due_left = step.due;
        got_left = step.got;
    }
    InStep {
        is_early,
        due: due_left,
        got: got_left,
    }
}

/// The next pong that was got with the next that is due, where it has its payload.
fn next_in_step<'a, 'b>(due: &Chosen<'a>, got: &Chosen<'b>) -> Option<InStep<'a, 'b>>
    ensures { IfSome result (λ step. IsStepOf due.now got.now step) }
{
    let mut due_left = due.again();
    let mut got_left = got.again();
    let first = due_left.next()?;
    let pong = got_left.next()?;
    if first.payload != pong.payload {
        return None;
    }
    Some(InStep {
        is_early: pong.turn < first.turn,
        due: due_left,
        got: got_left,
    })
}

/// Whether one of the two holds.
pub(super) fn either(one: bool, other: bool) -> bool
    ensures { result ≡ (one || other) }
{
    one || other
}
