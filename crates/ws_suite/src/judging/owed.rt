//! The pongs that RFC 6455 asks of any end (sections 5.5.2 and 5.5.3): for the pings that it was sent in an earlier
//! turn than what ends the connection, at the latest for the last of them.

ghost use Rattle.std.specs.Prelude.{◌≡◌, ◌&&◌, ◌++◌, ◌∷◌, [], ℕ, nat_lt, IfOk, List, OnOk, false, true};
ghost use Rattle.ws_suite.specs.declared.evidence.InTurn.{InTurn};
ghost use Rattle.ws_suite.specs.declared.evidence.Reply.{Reply};
ghost use Rattle.ws_suite.specs.InnerMarks.{AreMet, AreLastTurns, AreOwedFindings, counted_of, is_answered_by};
ghost use Rattle.ws_suite.specs.InnerMarks.{is_turn_before};
ghost use Rattle.ws_suite.specs.InnerNoted.{IsAskedFor};
ghost use Rattle.ws_suite.specs.Kept.{first_of, reply_in};
ghost use Rattle.ws_suite.specs.Matching.{due_pongs, got_pongs};
ghost use Rattle.ws_suite.specs.Protocol.{close_of, is_before_end, is_owed};

use crate::evidence::{
    Ending, Evidence, InTurn, Kept, MarkedEvidence, is_close_ending, is_turn_before,
};
use crate::judging::chosen::{Chosen, Wanted};
use crate::judging::in_step::either;
use crate::judging::noted::{Noted, how_many};
use std::alloc::Global;
use ws_base::NoMemory;

/// What comes of the pings that had to be answered.
#[derive(Clone, Copy)]
pub(super) struct OwedPongs {
    /// There is a last one, and neither it nor a later ping is answered.
    pub lacks_last: bool,
    /// One before the last isn't answered.
    pub skips_one: bool,
}

/// Which pings had to be answered, and whether they were. Each is looked up once.
pub(super) fn owed_pongs(alloc: Global, marked: &MarkedEvidence) -> Result<OwedPongs, NoMemory>
    ensures { IfOk result (λ found. AreOwedFindings (counted_of marked.now) found) }
{
    let x = &marked.evidence;
    if are_all_met(x) {
        return Ok(all_met());
    }
    let mut pings = Chosen::among(&x.due.replies, Wanted::Pongs);
    let turns = last_turns(
        alloc,
        pings.again(),
        Chosen::among(&x.got.replies, Wanted::Pongs),
        Chosen::among(&marked.behind, Wanted::Pongs),
    )?;
    let mut lacks_last = false;
    let mut skips_one = false;
    let mut later_is_answered = false;
    while let Some(ping) = pings.next() {
        let is_answered = is_answered(&ping, &turns);
        if is_owed(x, ping.turn) {
            skips_one = either(skips_one, lacks_last);
            lacks_last = !is_answered;
        } else {
            later_is_answered = either(later_is_answered, is_answered);
        }
    }
    Ok(OwedPongs {
        lacks_last: lacks_last && !later_is_answered,
        skips_one,
    })
}

/// What comes of pings that are all answered.
fn all_met() -> OwedPongs
    ensures { result ≡ record { lacks_last = false; skips_one = false } }
{
    OwedPongs {
        lacks_last: false,
        skips_one: false,
    }
}

/// Whether it is seen without a map that each ping is answered, as most peers do: what was got is what an echo sends
/// back, or each ping has its pong at its place.
fn are_all_met(x: &Evidence) -> bool
    ensures { result ≡ true → AreMet (due_pongs x.now) (got_pongs x.now) }
{
    x.got.replies.answer_each(&x.due.replies)
        || are_met_in_step(
            Chosen::among(&x.due.replies, Wanted::Pongs),
            Chosen::among(&x.got.replies, Wanted::Pongs),
        )
}

/// Whether each ping is answered by the pong at its place.
fn are_met_in_step(due: Chosen<'_>, got: Chosen<'_>) -> bool
    ensures { result ≡ true → AreMet due.entry got.entry }
{
    let mut left = due;
    let mut got_left = got;
    while let Some(ping) = left.next() {
        if !is_met(&ping, &got_left.next()) {
            return false;
        }
    }
    true
}

/// Whether there is a next pong, and it answers this ping.
fn is_met(ping: &Kept<'_>, pong: &Option<Kept<'_>>) -> bool
    ensures { (others : List (InTurn Reply)) → result ≡ true
        → is_answered_by (first_of pong.now others) (reply_in ping.now) ≡ true }
{
    match pong {
        Some(pong) => ping.payload == pong.payload && ping.turn <= pong.turn,
        None => false,
    }
}

/// The last turn in which a pong of each payload was got, before the close or behind it, as far as the payloads are
/// those of these pings.
fn last_turns<'a>(
    alloc: Global,
    pings: Chosen<'a>,
    got: Chosen<'a>,
    behind: Chosen<'a>,
) -> Result<Noted<'a>, NoMemory>
    ensures last { IfOk result (AreLastTurns (got.entry ++ behind.entry)) }
    ensures asked { IfOk result (IsAskedFor pings.entry) }
{
    let coming = how_many(got.again()).saturating_add(how_many(behind.again()));
    let mut turns = Noted::asked(alloc, pings, coming)?;
    note_turns(&mut turns, got)?;
    note_turns(&mut turns, behind)?;
    Ok(turns)
}

/// These pongs came too: their turns are noted.
fn note_turns<'a>(turns: &mut Noted<'a>, pongs: Chosen<'a>) -> Result<(), NoMemory>
    ensures last { OnOk result ((gots : List (InTurn Reply)) → AreLastTurns gots turns.old
        → AreLastTurns (gots ++ pongs.entry) turns.new) }
    ensures asked { OnOk result ((pings : List (InTurn Reply)) → IsAskedFor pings turns.old
        → IsAskedFor pings turns.new) }
{
    let mut left = pongs;
    while let Some(pong) = left.next() {
        turns.note(pong.payload, pong.turn)?;
    }
    Ok(())
}

/// Whether a pong with the payload of this ping, which was asked for, was got in no earlier turn.
fn is_answered<'a>(ping: &Kept<'a>, turns: &Noted<'a>) -> bool
    ensures { (gots : List (InTurn Reply)) → AreLastTurns gots turns.now → IsAskedFor (reply_in ping.now ∷ []) turns.now
        → result ≡ is_answered_by gots (reply_in ping.now) }
{
    turns.reaches(ping.payload, ping.turn)
}

/// Whether a ping of this turn has to be answered.
fn is_owed(x: &Evidence, turn: usize) -> bool
    ensures { (pong : InTurn Reply) → pong.turn ≡ turn → result ≡ is_owed x.now pong }
{
    is_turn_before(end_of_owed(x), turn)
}

/// The first turn in which a ping needn't be answered, if there is one: that of the close or the fault that was sent,
/// or of the close that was got.
pub(crate) fn end_of_owed(x: &Evidence) -> Option<usize>
    ensures { (pong : InTurn Reply) → is_turn_before result pong.turn ≡ is_owed x.now pong }
{
    first_turn(ending_turn(&x.due.ending), close_turn(&x.got.ending))
}

/// The turn of what ends a direction, if there is such.
fn ending_turn(ending: &Option<InTurn<Ending>>) -> Option<usize>
    ensures { (pong : InTurn Reply) → is_turn_before result pong.turn ≡ is_before_end ending.now pong }
{
    match ending {
        Some(ending) => Some(ending.turn),
        None => None,
    }
}

/// The turn of a close, if there is one.
fn close_turn(ending: &Option<InTurn<Ending>>) -> Option<usize>
    ensures { (pong : InTurn Reply) → is_turn_before result pong.turn ≡ is_before_end (close_of ending.now) pong }
{
    match ending {
        Some(ending) => {
            if is_close_ending(&ending.what) {
                Some(ending.turn)
            } else {
                None
            }
        }
        None => None,
    }
}

/// The first of two turns, as far as there are any.
fn first_turn(one: Option<usize>, other: Option<usize>) -> Option<usize>
    ensures { (turn : ℕ) → is_turn_before result turn ≡ (is_turn_before one turn && is_turn_before other turn) }
{
    match (one, other) {
        (Some(one), Some(other)) => Some(earlier(one, other)),
        (Some(one), None) => Some(one),
        (None, other) => other,
    }
}

/// The earlier of two turns: what is before it is before both.
fn earlier(one: usize, other: usize) -> usize
    ensures { (turn : ℕ) → nat_lt turn result ≡ (nat_lt turn one && nat_lt turn other) }
{
    one.min(other)
}
