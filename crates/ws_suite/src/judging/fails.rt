//! The six Fails, in their order.

ghost use Rattle.std.specs.Prelude.{◌≡◌, ◌↔◌, IsTrue};
ghost use Rattle.ws_suite.specs.InnerJudging.{AreFindingsOf, IsFirstFail, without_pings};
ghost use Rattle.ws_suite.specs.Verdicts.{HasOtherClose, HasOtherEnd, HasOtherMessages, HasOtherPongs};
ghost use Rattle.ws_suite.specs.Verdicts.{IsEarly, IsEarlyClose, IsNotFrames};

use crate::evidence::{
    Ending, Evidence, InTurn, ends_with_close, ends_with_fault, is_close_ending,
};
use crate::judging::findings::Findings;
use crate::verdict::FailWhy;
use ws_scripts::Ended;
use ws_wire::Role;

/// The lowest Fail that applies.
pub(super) fn first_fail(tested: Role, x: &Evidence, found: Findings) -> Option<FailWhy>
    requires { AreFindingsOf (without_pings x.now) found }
    ensures { IsFirstFail tested (without_pings x.now) result }
{
    if is_not_frames(x) {
        return Some(FailWhy::NotFrames);
    }
    if is_early(x, found) {
        return Some(FailWhy::Early);
    }
    if has_other_messages(x, found) {
        return Some(FailWhy::Messages);
    }
    if has_other_pongs(x, found) {
        return Some(FailWhy::Pongs);
    }
    if has_other_close(x) {
        return Some(FailWhy::Close);
    }
    if has_other_end(tested, x) {
        return Some(FailWhy::End);
    }
    None
}

/// Whether what was got is not whole frames.
fn is_not_frames(x: &Evidence) -> bool
    ensures { IsTrue result ↔ IsNotFrames (without_pings x.now) }
{
    ends_with_fault(&x.got.ending)
        || (x.got.has_rest && (ends_with_close(&x.got.ending) || x.ended != Ended::Broken))
}

/// Whether a message, a pong or the close was got before what it answers was sent, and the close doesn't answer what
/// was doomed by then.
fn is_early(x: &Evidence, found: Findings) -> bool
    requires { AreFindingsOf (without_pings x.now) found }
    ensures { IsTrue result ↔ IsEarly (without_pings x.now) }
{
    found.has_early_message
        || found.has_early_pong
        || (is_early_close(&x.got.ending, &x.due.ending) && !x.answers_doom)
}

/// Whether a close was got before the close or the fault was sent.
pub(super) fn is_early_close(got: &Option<InTurn<Ending>>, due: &Option<InTurn<Ending>>) -> bool
    ensures { IsTrue result ↔ IsEarlyClose got.now due.now }
{
    match (got, due) {
        (Some(got), Some(due)) => is_close_ending(&got.what) && got.turn < due.turn,
        _ => false,
    }
}

/// Whether the messages that were got aren't those that are due, or after a fault aren't a beginning of them.
fn has_other_messages(x: &Evidence, found: Findings) -> bool
    requires { AreFindingsOf (without_pings x.now) found }
    ensures { IsTrue result ↔ HasOtherMessages (without_pings x.now) }
{
    !found.begins || (!ends_with_fault(&x.due.ending) && found.is_short_of_messages)
}

/// Whether a pong that was got has no match, or the last pong that is due isn't there.
fn has_other_pongs(x: &Evidence, found: Findings) -> bool
    requires { AreFindingsOf (without_pings x.now) found }
    ensures { IsTrue result ↔ HasOtherPongs (without_pings x.now) }
{
    found.has_unmatched_pong
        || (!ends_with_fault(&x.due.ending) && found.owes_pongs && !found.has_last_pong)
}

/// Whether a close is due and none was got, or one was got without a cause.
fn has_other_close(x: &Evidence) -> bool
    ensures { IsTrue result ↔ HasOtherClose (without_pings x.now) }
{
    if ends_with_close(&x.due.ending) {
        !ends_with_close(&x.got.ending)
    } else {
        x.due.ending.is_none() && ends_with_close(&x.got.ending)
    }
}

/// Whether the connection ended otherwise than the close or the fault, or the want of both, asks. After a close or a
/// fault a server ends it, and a client at least sends its close.
fn has_other_end(tested: Role, x: &Evidence) -> bool
    ensures { IsTrue result ↔ HasOtherEnd tested (without_pings x.now) }
{
    if x.due.ending.is_none() {
        x.ended != Ended::Tester
    } else {
        x.ended == Ended::Tester && (tested == Role::Server || !ends_with_close(&x.got.ending))
    }
}
