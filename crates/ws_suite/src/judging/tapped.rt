//! The verdict on an end that was tapped: that by the protocol, without the names that aren't told of such an end.

ghost use Rattle.std.specs.Prelude.{◌≡◌, IfOk, MatchOption};
ghost use Rattle.ws_session.specs.Faults.{IsLowest};
ghost use Rattle.ws_suite.specs.declared.verdict.FailWhy.{FailWhy};
ghost use Rattle.ws_suite.specs.declared.verdict.LooseWhy.{LooseWhy};
ghost use Rattle.ws_suite.specs.InnerMarks.{AreOwedFindings, counted_of};
ghost use Rattle.ws_suite.specs.Tapped.{FailsTapped, IsLooseTapped, IsTappedVerdictOn, is_tapped_loose};
ghost use Rattle.ws_suite.specs.Verdicts.{fail_number, loose_number};

use crate::evidence::MarkedEvidence;
use crate::judging::owed::{OwedPongs, owed_pongs};
use crate::judging::protocol::{
    breaks_frames, first_loose, is_too_big, leaves_close, loose_end, stays_open,
};
use crate::verdict::{FailWhy, LooseWhy, Verdict};
use std::alloc::Global;
use ws_base::NoMemory;
use ws_wire::Role;

/// The verdict on the evidence of an end that was tapped.
pub(super) fn verdict_tapped(
    alloc: Global,
    tested: Role,
    is_first: bool,
    marked: &MarkedEvidence,
) -> Result<Verdict, NoMemory>
    ensures { IfOk result (λ verdict.
        IsTappedVerdictOn tested is_first (counted_of marked.now) marked.now.marks verdict) }
{
    let pongs = owed_pongs(alloc, marked)?;
    if let Some(why) = first_tapped_fail(tested, marked) {
        return Ok(Verdict::Fail(why));
    }
    match first_tapped_loose(tested, is_first, marked, pongs) {
        Some(why) => Ok(Verdict::Loose(why)),
        None => Ok(Verdict::Pass),
    }
}

/// The lowest Fail that applies: a ping that was left is none.
fn first_tapped_fail(tested: Role, marked: &MarkedEvidence) -> Option<FailWhy>
    ensures { MatchOption result
        ((why : FailWhy) → FailsTapped tested (counted_of marked.now) marked.now.marks why → ⊥)
        (IsLowest FailWhy fail_number (FailsTapped tested (counted_of marked.now) marked.now.marks)) }
{
    let x = &marked.evidence;
    let marks = marked.marks;
    if breaks_frames(x, marks) {
        return Some(FailWhy::NotFrames);
    }
    if leaves_close(x, marks) {
        return Some(FailWhy::Close);
    }
    if stays_open(tested, x, marks) {
        return Some(FailWhy::End);
    }
    None
}

/// The lowest Loose that applies: that by the protocol where it is told of an end that was tapped, and else one behind
/// it.
fn first_tapped_loose(
    tested: Role,
    is_first: bool,
    marked: &MarkedEvidence,
    pongs: OwedPongs,
) -> Option<LooseWhy>
    requires { AreOwedFindings (counted_of marked.now) pongs }
    ensures { MatchOption result
        ((why : LooseWhy) → IsLooseTapped tested is_first (counted_of marked.now) marked.now.marks why → ⊥)
        (IsLowest LooseWhy loose_number (IsLooseTapped tested is_first (counted_of marked.now) marked.now.marks)) }
{
    let x = &marked.evidence;
    let Some(why) = first_loose(tested, marked, pongs) else {
        return None;
    };
    if is_told(is_first, why) {
        return Some(why);
    }
    let Some(later) = loose_end(tested, x, marked.marks) else {
        return None;
    };
    if is_told(is_first, later) {
        return Some(later);
    }
    if is_too_big(&x.got.ending) {
        return Some(LooseWhy::TooBig);
    }
    None
}

/// Whether this Loose is told of an end that was tapped.
fn is_told(is_first: bool, why: LooseWhy) -> bool
    ensures { result ≡ is_tapped_loose is_first why }
{
    match why {
        LooseWhy::OwnFault | LooseWhy::OwnClose => false,
        LooseWhy::OwnEnd => is_first,
        LooseWhy::PongsSkipped
        | LooseWhy::PongElsewhere
        | LooseWhy::OtherCode
        | LooseWhy::LateEnd
        | LooseWhy::EchoShort
        | LooseWhy::BrokenEnd
        | LooseWhy::LateFault
        | LooseWhy::Tolerated
        | LooseWhy::NoClose
        | LooseWhy::BehindClose
        | LooseWhy::TooBig => true,
    }
}
