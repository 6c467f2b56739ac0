//! Replies of one kind, and replies that are the same.

ghost use Rattle.std.specs.Prelude.{◌≡◌, ◌↔◌, ◌<◌, length, IsTrue};
ghost use Rattle.std.specs.List.{list_any, zip};
ghost use Rattle.ws_suite.specs.InnerChosen.{IsThere};
ghost use Rattle.ws_suite.specs.Kept.{what_of};
ghost use Rattle.ws_suite.specs.Matching.{IsBeginningOf, IsWithSomeLeftOut, bare};
ghost use Rattle.ws_suite.specs.Verdicts.{is_before};

use crate::evidence::{Kept, is_same};
use crate::judging::chosen::Chosen;

/// Whether any reply is to come.
pub(super) fn is_any(replies: Chosen<'_>) -> bool
    ensures { IsTrue result ↔ (0 < length replies.entry) }
{
    let mut left = replies;
    left.next().is_some()
}

/// Whether the first replies are fewer than the others.
pub(super) fn are_fewer(some: Chosen<'_>, others: Chosen<'_>) -> bool
    ensures { IsTrue result ↔ (length some.entry < length others.entry) }
{
    let mut left = some;
    let mut others_left = others;
    while let Some(_other) = others_left.next() {
        if left.next().is_none() {
            return true;
        }
    }
    false
}

/// Whether the first replies are a beginning of the others, without their turns.
pub(super) fn begins(front: Chosen<'_>, all: Chosen<'_>) -> bool
    ensures { IsTrue result ↔ IsBeginningOf (bare front.entry) (bare all.entry) }
{
    let mut left = front;
    let mut all_left = all;
    while let Some(one) = left.next() {
        if !is_there(&one, &all_left.next()) {
            return false;
        }
    }
    true
}

/// Whether the first replies are the others with some left out, without their turns. Both are gone over once.
pub(super) fn are_left(some: Chosen<'_>, all: Chosen<'_>) -> bool
    ensures { IsTrue result ↔ IsWithSomeLeftOut (bare some.entry) (bare all.entry) }
{
    let mut left = some;
    let mut all_left = all;
    let mut first = left.next();
    while let Some(reply) = all_left.next() {
        if is_there(&reply, &first) {
            first = left.next();
        }
    }
    first.is_none()
}

/// Whether there is such a reply, whatever its turn.
fn is_there(one: &Kept<'_>, other: &Option<Kept<'_>>) -> bool
    ensures { IsTrue result ↔ IsThere (what_of one.now) other.now }
{
    match other {
        Some(other) => is_same(one, other),
        None => false,
    }
}

/// Whether some reply stands in an earlier turn than the one at its place among the others.
pub(super) fn any_before(got: Chosen<'_>, due: Chosen<'_>) -> bool
    ensures { result ≡ list_any is_before (zip got.entry due.entry) }
{
    let mut left = got;
    let mut due_left = due;
    while let Some(one) = left.next() {
        match due_left.next() {
            Some(other) => {
                if one.turn < other.turn {
                    return true;
                }
            }
            None => return false,
        }
    }
    false
}
