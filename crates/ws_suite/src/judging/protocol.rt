//! The verdict by RFC 6455 alone: what it orders of any end, whether it echoes or not. The Fails and the Looses are in
//! their order.

ghost use Rattle.std.specs.Prelude.{◌≡◌, ◌↔◌, IsTrue, IfOk, MatchOption};
ghost use Rattle.ws_session.specs.Faults.{IsLowest};
ghost use Rattle.ws_suite.specs.declared.evidence.Ending.TheVariants.{Closed};
ghost use Rattle.ws_wire.specs.declared.role.Role.TheVariants.{Server};
ghost use Rattle.ws_suite.specs.declared.verdict.FailWhy.{FailWhy};
ghost use Rattle.ws_suite.specs.declared.verdict.LooseWhy.{LooseWhy};
ghost use Rattle.ws_suite.specs.InnerJudging.{without_pings};
ghost use Rattle.ws_suite.specs.InnerMarks.{AreOwedFindings, IsLaterLoose, IsOwnLoose, counted_of};
ghost use Rattle.ws_suite.specs.Protocol.{BlamesFault, BreaksFrames, FailsProtocol, HasOwnClose, HasSameCode, HasToEnd};
ghost use Rattle.ws_suite.specs.Protocol.{HasNoClose, IsFreeToEnd, IsItsEnd, IsLooseByProtocol, IsProtocolVerdictOn};
ghost use Rattle.ws_suite.specs.Protocol.{IsTolerated, LacksClose, LeavesClose, LeavesPing, StaysOpen, is_tolerable};
ghost use Rattle.ws_suite.specs.Protocol.{is_tolerable_reason, is_too_big};
ghost use Rattle.ws_suite.specs.Verdicts.{fail_number, loose_number};

use crate::evidence::{
    Ending, Evidence, InTurn, MarkedEvidence, Marks, ends_with_close, ends_with_fault,
};
use crate::judging::fails::is_early_close;
use crate::judging::looses::{ends_late, has_other_code};
use crate::judging::owed::{OwedPongs, owed_pongs};
use crate::verdict::{FailWhy, LooseWhy, Verdict};
use std::alloc::Global;
use ws_base::NoMemory;
use ws_scripts::Ended;
use ws_session::Reason;
use ws_wire::Role;

/// The verdict on the evidence by the protocol.
pub(crate) fn verdict_by_protocol(
    alloc: Global,
    tested: Role,
    marked: &MarkedEvidence,
) -> Result<Verdict, NoMemory>
    ensures { IfOk result (λ verdict.
        IsProtocolVerdictOn tested (counted_of marked.now) marked.now.marks verdict) }
{
    let pongs = owed_pongs(alloc, marked)?;
    if let Some(why) = first_fail(tested, marked, pongs) {
        return Ok(Verdict::Fail(why));
    }
    match first_loose(tested, marked, pongs) {
        Some(why) => Ok(Verdict::Loose(why)),
        None => Ok(Verdict::Pass),
    }
}

// ---- words

/// Whether the close that was got is the tested end's own: it came in an earlier turn than the close or the fault that
/// was sent, or neither was sent.
fn has_own_close(x: &Evidence) -> bool
    ensures { IsTrue result ↔ HasOwnClose (without_pings x.now) }
{
    if x.due.ending.is_none() {
        return ends_with_close(&x.got.ending);
    }
    is_early_close(&x.got.ending, &x.due.ending) && !x.answers_doom
}

/// Whether what was got holds a message above the limit, which the standard doesn't bound.
pub(super) fn is_too_big(got: &Option<InTurn<Ending>>) -> bool
    ensures { result ≡ is_too_big got.now }
{
    match got {
        Some(got) => matches!(got.what, Ending::Failed(Reason::TooBig | Reason::FrameBig)),
        None => false,
    }
}

/// Whether the fault that was sent is one of those for which the standard doesn't order an end to fail.
fn is_tolerable(due: &Option<InTurn<Ending>>) -> bool
    ensures { result ≡ is_tolerable due.now }
{
    match due {
        Some(due) => match due.what {
            Ending::Failed(reason) => is_tolerable_reason(reason),
            Ending::Closed(_) | Ending::Doomed => false,
        },
        None => false,
    }
}

/// Whether the standard doesn't order the end that takes this fault to fail the connection.
fn is_tolerable_reason(reason: Reason) -> bool
    ensures { result ≡ is_tolerable_reason reason }
{
    match reason {
        Reason::NotShortest
        | Reason::BadLength
        | Reason::ControlCut
        | Reason::ControlLong
        | Reason::NothingToContinue
        | Reason::MessageOpen
        | Reason::TooBig
        | Reason::FrameBig => true,
        Reason::ReservedBits
        | Reason::Opcode
        | Reason::MaskWrong
        | Reason::NotText
        | Reason::TextCut
        | Reason::CloseOneByte
        | Reason::CloseCode
        | Reason::CloseReason => false,
    }
}

/// Whether a close was got with the code, or the want of one, of the close that was sent.
fn has_same_code(x: &Evidence) -> bool
    ensures { IsTrue result ↔ HasSameCode (without_pings x.now) }
{
    match (&x.got.ending, &x.due.ending) {
        (Some(got), Some(due)) => match got.what {
            Ending::Closed(code) => is_close_of(&due.what, code),
            Ending::Failed(_) | Ending::Doomed => false,
        },
        _ => false,
    }
}

/// Whether it is a close of this code, or of none.
fn is_close_of(ending: &Ending, code: Option<u16>) -> bool
    ensures { IsTrue result ↔ (ending.now ≡ Closed code) }
{
    match ending {
        Ending::Closed(sent) => *sent == code,
        Ending::Failed(_) | Ending::Doomed => false,
    }
}

// ---- the Fails

/// The lowest Fail that applies.
fn first_fail(tested: Role, marked: &MarkedEvidence, pongs: OwedPongs) -> Option<FailWhy>
    requires { AreOwedFindings (counted_of marked.now) pongs }
    ensures { MatchOption result
        ((why : FailWhy) → FailsProtocol tested (counted_of marked.now) marked.now.marks why → ⊥)
        (IsLowest FailWhy fail_number (FailsProtocol tested (counted_of marked.now) marked.now.marks)) }
{
    let x = &marked.evidence;
    let marks = marked.marks;
    if breaks_frames(x, marks) {
        return Some(FailWhy::NotFrames);
    }
    if leaves_ping(marked, pongs) {
        return Some(FailWhy::Pongs);
    }
    if leaves_close(x, marks) {
        return Some(FailWhy::Close);
    }
    if stays_open(tested, x, marks) {
        return Some(FailWhy::End);
    }
    None
}

/// Whether what was got breaks a rule of frames.
pub(super) fn breaks_frames(x: &Evidence, marks: Marks) -> bool
    ensures { IsTrue result ↔ BreaksFrames (without_pings x.now) marks }
{
    if ends_with_fault(&x.got.ending) {
        return !is_too_big(&x.got.ending);
    }
    if ends_with_close(&x.got.ending) {
        return x.got.has_rest && !marks.has_controls;
    }
    x.got.has_rest && x.ended == Ended::Peer && !ends_with_fault(&x.due.ending)
}

/// Whether the last ping that had to be answered wasn't.
fn leaves_ping(marked: &MarkedEvidence, pongs: OwedPongs) -> bool
    requires { AreOwedFindings (counted_of marked.now) pongs }
    ensures { IsTrue result ↔ LeavesPing (counted_of marked.now) marked.now.marks }
{
    let x = &marked.evidence;
    if !pongs.lacks_last || ends_with_fault(&x.due.ending) || is_too_big(&x.got.ending) {
        return false;
    }
    if ends_with_close(&x.got.ending) {
        return has_same_code(x) && !has_own_close(x);
    }
    x.ended == Ended::Tester && !marked.marks.ends_in_data
}

/// Whether a close had to be answered and wasn't.
pub(super) fn leaves_close(x: &Evidence, marks: Marks) -> bool
    ensures { IsTrue result ↔ LeavesClose (without_pings x.now) marks }
{
    if !lacks_close(x) || is_too_big(&x.got.ending) || marks.is_open {
        return false;
    }
    match x.ended {
        Ended::Tester => true,
        Ended::Peer => !marks.sends_data,
        Ended::Broken => false,
    }
}

/// Whether a close was sent and none was got.
fn lacks_close(x: &Evidence) -> bool
    ensures { IsTrue result ↔ LacksClose (without_pings x.now) }
{
    ends_with_close(&x.due.ending) && !ends_with_close(&x.got.ending)
}

/// Whether the tested end had to end the connection and didn't.
pub(super) fn stays_open(tested: Role, x: &Evidence, marks: Marks) -> bool
    ensures { IsTrue result ↔ StaysOpen tested (without_pings x.now) marks }
{
    if x.ended != Ended::Tester || is_too_big(&x.got.ending) || !must_end(x, marks) {
        return false;
    }
    is_free_to_end(x, marks) && is_its_end(tested, x)
}

/// Whether the tested end could end the connection: it closed it; or it is inside no data frame and, where it has to
/// answer a close, inside no message.
fn is_free_to_end(x: &Evidence, marks: Marks) -> bool
    ensures { IsTrue result ↔ IsFreeToEnd (without_pings x.now) marks }
{
    if ends_with_close(&x.got.ending) {
        return true;
    }
    !marks.ends_in_data && !(ends_with_close(&x.due.ending) && marks.is_open)
}

/// Whether it is the tested end that ends the connection: a server, but where it waits for the answer to its own close;
/// and a client before its close.
fn is_its_end(tested: Role, x: &Evidence) -> bool
    ensures { IsTrue result ↔ IsItsEnd tested (without_pings x.now) }
{
    match tested {
        Role::Server => ends_with_close(&x.due.ending) || !has_own_close(x),
        Role::Client => !ends_with_close(&x.got.ending),
    }
}

/// Whether a close was sent, or a fault for which the standard orders the end to fail the connection.
fn must_end(x: &Evidence, marks: Marks) -> bool
    ensures { IsTrue result ↔ HasToEnd (without_pings x.now) marks }
{
    if ends_with_fault(&x.due.ending) {
        return !marks.is_late && !is_tolerable(&x.due.ending);
    }
    ends_with_close(&x.due.ending)
}

// ---- the Looses

/// The lowest Loose that applies.
pub(super) fn first_loose(
    tested: Role,
    marked: &MarkedEvidence,
    pongs: OwedPongs,
) -> Option<LooseWhy>
    requires { AreOwedFindings (counted_of marked.now) pongs }
    ensures { MatchOption result
        ((why : LooseWhy) → IsLooseByProtocol tested (counted_of marked.now) marked.now.marks why → ⊥)
        (IsLowest LooseWhy loose_number (IsLooseByProtocol tested (counted_of marked.now) marked.now.marks)) }
{
    let x = &marked.evidence;
    let marks = marked.marks;
    if pongs.skips_one || pongs.lacks_last {
        return Some(LooseWhy::PongsSkipped);
    }
    if has_other_code(x) && !has_own_close(x) {
        return Some(LooseWhy::OtherCode);
    }
    if ends_late(tested, x) && must_end(x, marks) && !has_own_close(x) {
        return Some(LooseWhy::LateEnd);
    }
    if x.ended == Ended::Broken {
        return Some(LooseWhy::BrokenEnd);
    }
    if has_own_close(x) {
        return Some(own_close(x));
    }
    loose_end(tested, x, marks)
}

/// What is told of an own close: whether it blames a fault where none was sent.
fn own_close(x: &Evidence) -> LooseWhy
    requires { HasOwnClose (without_pings x.now) }
    ensures { IsOwnLoose (without_pings x.now) result }
{
    if blames_fault(x) && !ends_with_fault(&x.due.ending) {
        LooseWhy::OwnFault
    } else {
        LooseWhy::OwnClose
    }
}

/// Whether the close that was got blames a broken rule.
fn blames_fault(x: &Evidence) -> bool
    ensures { IsTrue result ↔ BlamesFault (without_pings x.now) }
{
    match &x.got.ending {
        Some(got) => match got.what {
            Ending::Closed(code) => code == Some(1002) || code == Some(1007),
            Ending::Failed(_) | Ending::Doomed => false,
        },
        None => false,
    }
}

/// The lowest of the Looses that stand behind those of an own close.
pub(super) fn loose_end(tested: Role, x: &Evidence, marks: Marks) -> Option<LooseWhy>
    ensures { MatchOption result ((why : LooseWhy) → IsLaterLoose tested (without_pings x.now) marks why → ⊥)
        (IsLowest LooseWhy loose_number (IsLaterLoose tested (without_pings x.now) marks)) }
{
    let is_closed = ends_with_close(&x.got.ending);
    if x.due.ending.is_none() && !is_closed && x.ended == Ended::Peer {
        return Some(LooseWhy::OwnEnd);
    }
    if marks.is_late && !is_closed && x.ended == Ended::Tester {
        return Some(LooseWhy::LateFault);
    }
    if is_tolerated(tested, x) {
        return Some(LooseWhy::Tolerated);
    }
    if has_no_close(x, marks) {
        return Some(LooseWhy::NoClose);
    }
    if is_closed && x.got.has_rest && marks.has_controls {
        return Some(LooseWhy::BehindClose);
    }
    if is_too_big(&x.got.ending) {
        return Some(LooseWhy::TooBig);
    }
    None
}

/// Whether the tester ended the connection after a fault for which the standard doesn't order an end to fail, with a
/// client before its close.
fn is_tolerated(tested: Role, x: &Evidence) -> bool
    ensures { IsTrue result ↔ IsTolerated tested (without_pings x.now) }
{
    if !is_tolerable(&x.due.ending) || x.ended != Ended::Tester {
        return false;
    }
    tested == Role::Server || !ends_with_close(&x.got.ending)
}

/// Whether no close was got, and one was sent, or a fault at which the tested end had to fail the connection and that
/// it had time for.
fn has_no_close(x: &Evidence, marks: Marks) -> bool
    ensures { IsTrue result ↔ HasNoClose (without_pings x.now) marks }
{
    if ends_with_close(&x.got.ending) || !must_end(x, marks) {
        return false;
    }
    ends_with_close(&x.due.ending) || x.ended == Ended::Tester
}
