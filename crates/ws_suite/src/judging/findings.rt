//! What is found by comparing what was got with what is due: no list is made of them, and the rules read what came
//! of it.

ghost use Rattle.std.specs.Prelude.{◌≡◌, IfOk};
ghost use Rattle.ws_suite.specs.declared.evidence.Evidence.{Evidence};
ghost use Rattle.ws_suite.specs.InnerAnswered.{AreAnsweredEach};
ghost use Rattle.ws_suite.specs.InnerJudging.{AreFindingsOf, without_pings};

use crate::evidence::{Evidence, Replies};
use crate::judging::chosen::{Chosen, Wanted};
use crate::judging::pongs::{has_last_pong, match_pongs};
use crate::judging::replies::{any_before, are_fewer, are_left, begins, is_any};
use std::alloc::Global;
use ws_base::NoMemory;

/// What comes of the comparison.
#[derive(Clone, Copy)]
pub(crate) struct Findings {
    /// A message that was got stands in an earlier turn than the one due in its place.
    pub has_early_message: bool,
    /// A pong that was got stands in an earlier turn than the ping that it answers.
    pub has_early_pong: bool,
    /// A pong that was got answers no ping.
    pub has_unmatched_pong: bool,
    /// The messages that were got are a beginning of those due.
    pub begins: bool,
    /// Fewer messages were got than are due.
    pub is_short_of_messages: bool,
    /// Fewer pongs were got than are due.
    pub is_short_of_pongs: bool,
    /// Pongs are due.
    pub owes_pongs: bool,
    /// The last due pong is there.
    pub has_last_pong: bool,
    /// Messages and pongs were got in the order of those due.
    pub keeps_order: bool,
}

/// What is found in the evidence. Where what was got is what is due, one for one, it is known at once.
pub(super) fn findings_of(alloc: Global, x: &Evidence) -> Result<Findings, NoMemory>
    ensures { IfOk result (λ found. AreFindingsOf (without_pings x.now) found) }
{
    if x.got.replies.answer_each(&x.due.replies) {
        return Ok(found_of_answered(&x.due.replies));
    }
    found_by_walks(alloc, x)
}

/// What is found where each due reply was got, and no other.
fn found_of_answered(due: &Replies) -> Findings
    ensures { (x : Evidence) → x.due.replies ≡ due.now → AreAnsweredEach x.due.replies x.got.replies
        → AreFindingsOf (without_pings x) result }
{
    let owes_pongs = is_any(Chosen::among(due, Wanted::Pongs));
    Findings {
        has_early_message: false,
        has_early_pong: false,
        has_unmatched_pong: false,
        begins: true,
        is_short_of_messages: false,
        is_short_of_pongs: false,
        owes_pongs,
        has_last_pong: owes_pongs,
        keeps_order: true,
    }
}

/// What is found by walks over both lists of replies.
fn found_by_walks(alloc: Global, x: &Evidence) -> Result<Findings, NoMemory>
    ensures { IfOk result (λ found. AreFindingsOf (without_pings x.now) found) }
{
    let due = &x.due.replies;
    let got = &x.got.replies;
    let matched = match_pongs(
        alloc,
        Chosen::among(due, Wanted::Pongs),
        Chosen::among(got, Wanted::Pongs),
    )?;
    Ok(Findings {
        has_early_message: any_before(
            Chosen::among(got, Wanted::Messages),
            Chosen::among(due, Wanted::Messages),
        ),
        has_early_pong: matched.is_early,
        has_unmatched_pong: matched.is_unmatched,
        begins: begins(
            Chosen::among(got, Wanted::Messages),
            Chosen::among(due, Wanted::Messages),
        ),
        is_short_of_messages: are_fewer(
            Chosen::among(got, Wanted::Messages),
            Chosen::among(due, Wanted::Messages),
        ),
        is_short_of_pongs: are_fewer(
            Chosen::among(got, Wanted::Pongs),
            Chosen::among(due, Wanted::Pongs),
        ),
        owes_pongs: is_any(Chosen::among(due, Wanted::Pongs)),
        has_last_pong: has_last_pong(
            Chosen::among(due, Wanted::Pongs),
            Chosen::among(got, Wanted::Pongs),
        ),
        keeps_order: are_left(
            Chosen::among(got, Wanted::Answers),
            Chosen::among(due, Wanted::All),
        ),
    })
}
