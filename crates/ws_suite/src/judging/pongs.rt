//! Pongs and the pings that they answer (RFC 6455 section 5.5.3).

ghost use Rattle.std.specs.Prelude.{◌≡◌, ◌↔◌, ◌+◌, ◌≤◌, List, IfOk, IsTrue, None, OnOk, drop, false, find};
ghost use Rattle.std.specs.Prelude.{length, true};
ghost use Rattle.std.specs.List.{list_any};
ghost use Rattle.ws_suite.specs.declared.evidence.InTurn.{InTurn};
ghost use Rattle.ws_suite.specs.declared.evidence.Reply.{Reply};
ghost use Rattle.ws_suite.specs.InnerChosen.{IsLastOf};
ghost use Rattle.ws_suite.specs.InnerJudging.{AreLastPlaces};
ghost use Rattle.ws_suite.specs.Kept.{reply_in};
ghost use Rattle.ws_suite.specs.Matching.{IsLastPong, due_after, has_payload_of, matches_of};
ghost use Rattle.ws_suite.specs.Verdicts.{is_before_match, is_unmatched};

use crate::evidence::{Kept, is_same};
use crate::judging::chosen::Chosen;
use crate::judging::in_step::{either, match_in_step};
use crate::judging::noted::{Noted, how_many};
use crate::judging::replies::is_any;
use std::alloc::Global;
use ws_base::NoMemory;

/// What comes of the matching: each got pong with the first due pong after the last one matched that has its payload.
#[derive(Clone, Copy)]
pub(super) struct Matched {
    /// Some matched pong stands in an earlier turn than its ping.
    pub is_early: bool,
    /// Some pong has no match.
    pub is_unmatched: bool,
}

/// Matches the pongs from the front: those that come in step, and then the others, if there are any.
pub(super) fn match_pongs<'a>(
    alloc: Global,
    due: Chosen<'a>,
    got: Chosen<'a>,
) -> Result<Matched, NoMemory>
    ensures early { IfOk result (λ matched.
        matched.is_early ≡ list_any is_before_match (matches_of due.entry got.entry)) }
    ensures unmatched { IfOk result (λ matched.
        matched.is_unmatched ≡ list_any is_unmatched (matches_of due.entry got.entry)) }
{
    let passed = match_in_step(due, got);
    if !is_any(passed.got.again()) {
        return Ok(Matched {
            is_early: passed.is_early,
            is_unmatched: false,
        });
    }
    let others = match_others(alloc, passed.due, passed.got)?;
    Ok(Matched {
        is_early: either(passed.is_early, others.is_early),
        is_unmatched: others.is_unmatched,
    })
}

/// Matches the pongs from the front. Only a pong that has a match goes over those that are due, up to its match: so
/// each due pong is passed once.
fn match_others<'a>(alloc: Global, due: Chosen<'a>, got: Chosen<'a>) -> Result<Matched, NoMemory>
    ensures early { IfOk result (λ matched.
        matched.is_early ≡ list_any is_before_match (matches_of due.entry got.entry)) }
    ensures unmatched { IfOk result (λ matched.
        matched.is_unmatched ≡ list_any is_unmatched (matches_of due.entry got.entry)) }
{
    let places = last_places(alloc, due.again(), got.again())?;
    let _most = due.most();
    let mut left = due;
    let mut got_left = got;
    let mut next = 0;
    let mut is_early = false;
    let mut is_unmatched = false;
    while let Some(pong) = got_left.next() {
        let is_left = is_left(&pong, &places, next);
        let first = match_first(&pong, left, is_left);
        is_early = either(is_early, first.is_early);
        is_unmatched = either(is_unmatched, first.is_unmatched);
        next += first.passed;
        left = first.left;
    }
    Ok(Matched {
        is_early,
        is_unmatched,
    })
}

/// Where the payloads of the due pongs stand last, as far as they are those of got ones.
fn last_places<'a>(alloc: Global, due: Chosen<'a>, got: Chosen<'a>) -> Result<Noted<'a>, NoMemory>
    ensures { IfOk result (λ places. AreLastPlaces due.entry places) }
{
    let mut places = Noted::asked(alloc, got, how_many(due.again()))?;
    note_places(&mut places, due)?;
    Ok(places)
}

/// The places of these pongs are noted.
fn note_places<'a>(places: &mut Noted<'a>, due: Chosen<'a>) -> Result<(), NoMemory>
    ensures { OnOk result (AreLastPlaces due.entry places.new) }
{
    let _most = due.most();
    let mut left = due;
    let mut place = 0;
    while let Some(pong) = left.next() {
        places.note(pong.payload, place)?;
        place += 1;
    }
    Ok(())
}

/// Whether a due pong with the payload of this one may stand at this place or after it.
fn is_left<'a>(pong: &Kept<'a>, places: &Noted<'a>, next: usize) -> bool
    ensures { (due : List (InTurn Reply)) → AreLastPlaces due places.now → result ≡ false
        → find (has_payload_of (reply_in pong.now)) (drop next due) ≡ None }
{
    places.reaches(pong.payload, next)
}

/// What comes of one pong.
#[derive(Drop)]
struct First<'a> {
    is_early: bool,
    is_unmatched: bool,
    /// How many due pongs there are up to its match.
    passed: usize,
    /// The due pongs that are left for later ones.
    left: Chosen<'a>,
}

/// Matches one pong with the first due pong that has its payload, where it is known whether one may have it. Nothing is
/// gone over where none has it.
fn match_first<'a>(pong: &Kept<'_>, due: Chosen<'a>, is_left: bool) -> First<'a>
    requires { is_left ≡ false → find (has_payload_of (reply_in pong.now)) due ≡ None }
    ensures early { result.is_early ≡
        is_before_match (reply_in pong.now, find (has_payload_of (reply_in pong.now)) due.entry) }
    ensures no_match { result.is_unmatched ≡
        is_unmatched (reply_in pong.now, find (has_payload_of (reply_in pong.now)) due.entry) }
    ensures left { result.left ≡ due_after (reply_in pong.now) due.entry }
    ensures passed { drop result.passed due.entry ≡ result.left }
    ensures within { result.passed ≤ length due.entry }
{
    if is_left {
        first_match(pong, due)
    } else {
        unmatched(due)
    }
}

/// What comes of a pong that no due pong matches.
fn unmatched(due: Chosen<'_>) -> First<'_>
    ensures { result ≡ record { is_early = false; is_unmatched = true; passed = 0; left = due.entry } }
{
    First {
        is_early: false,
        is_unmatched: true,
        passed: 0,
        left: due,
    }
}

/// Matches one pong with the first due pong that has its payload.
fn first_match<'a>(pong: &Kept<'_>, due: Chosen<'a>) -> First<'a>
    ensures early { result.is_early ≡
        is_before_match (reply_in pong.now, find (has_payload_of (reply_in pong.now)) due.entry) }
    ensures no_match { result.is_unmatched ≡
        is_unmatched (reply_in pong.now, find (has_payload_of (reply_in pong.now)) due.entry) }
    ensures left { result.left ≡ due_after (reply_in pong.now) due.entry }
    ensures passed { drop result.passed due.entry ≡ result.left }
    ensures within { result.passed ≤ length due.entry }
{
    let _most = due.most();
    let mut left = due.again();
    let mut passed = 0;
    while let Some(one) = left.next() {
        passed += 1;
        if one.payload == pong.payload {
            return First {
                is_early: pong.turn < one.turn,
                is_unmatched: false,
                passed,
                left,
            };
        }
    }
    unmatched(due)
}

/// Whether the last got pong has the payload of the last due pong, and stands in no earlier turn than its ping.
pub(super) fn has_last_pong(due: Chosen<'_>, got: Chosen<'_>) -> bool
    ensures { IsTrue result ↔ IsLastPong due.entry got.entry }
{
    match (last_of(due), last_of(got)) {
        (Some(due), Some(got)) => is_same(&got, &due) && due.turn <= got.turn,
        _ => false,
    }
}

/// The last reply, if there is one.
fn last_of(replies: Chosen<'_>) -> Option<Kept<'_>>
    ensures { IsLastOf replies.entry result }
{
    let mut left = replies;
    let mut last = None;
    while let Some(reply) = left.next() {
        last = Some(reply);
    }
    last
}
