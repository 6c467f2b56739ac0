//! The judge: which rules the tested end broke, by what a transcript shows.

mod chosen;
mod fails;
mod findings;
mod in_step;
mod looses;
mod noted;
mod owed;
mod pongs;
mod protocol;
mod replies;
mod tapped;

ghost use Rattle.std.specs.Prelude.{◌≡◌, [], IfOk, MatchBool};
ghost use Rattle.ws_wire.specs.declared.role.Role.TheVariants.{Server};
ghost use Rattle.ws_suite.specs.declared.evidence.Evidence.{Evidence};
ghost use Rattle.ws_suite.specs.Doom.{HasDoomCounted};
ghost use Rattle.ws_suite.specs.Evidence.{got_turns, other_role, sent_turns};
ghost use Rattle.ws_suite.specs.Explanation.{IsBeyondClose};
ghost use Rattle.ws_suite.specs.InnerDoom.{AreDooms};
ghost use Rattle.ws_suite.specs.InnerJudging.{without_pings};
ghost use Rattle.ws_suite.specs.InnerMarks.{AreStreamsOf, IsEndingByTurn, counted_of};
ghost use Rattle.ws_suite.specs.Marks.{AreMarksOf, ArePongsBehind, HasUndefinedCodeCounted};
ghost use Rattle.ws_suite.specs.Matching.{ends_with_close};
ghost use Rattle.ws_suite.specs.Protocol.{IsMarkedEvidenceOf, IsProtocolVerdictOf, IsVerdictBy};
ghost use Rattle.ws_suite.specs.Tapped.{IsTappedVerdictOf};
ghost use Rattle.ws_suite.specs.Verdicts.{IsVerdictOf, IsVerdictOn};

use crate::evidence::{Evidence, MarkedEvidence, Shown, evidence_of, marked, with_doom};
use crate::judging::fails::first_fail;
use crate::judging::findings::findings_of;
use crate::judging::looses::first_loose;
pub(crate) use crate::judging::owed::end_of_owed;
pub(crate) use crate::judging::protocol::verdict_by_protocol;
use crate::judging::tapped::verdict_tapped;
use crate::verdict::Verdict;
use std::alloc::Global;
use ws_base::NoMemory;
use ws_scripts::{AsTranscript, Expectation, TranscriptRef};
use ws_wire::Role;

/// Whether a server kept the rules, by all that went over a connection from a client: the verdict of `judge_end` on the
/// role `Server`.
pub fn judge<T: AsTranscript>(alloc: Global, transcript: &T) -> Result<Verdict, NoMemory>
    ensures { IfOk result (λ verdict. IsVerdictOf Server (T.transcript transcript.now) verdict) }
{
    let verdict = judge_end(alloc, Role::Server, transcript)?;
    Ok(verdict)
}

/// Whether the tested end, which has this role, kept the rules, by all that went over a connection: the lowest `Fail`
/// that applies, else the lowest `Loose`, else `Pass`. What is due is what an echo sends back (RFC 6455 sections 5.4 to
/// 5.5.3).
pub fn judge_end<T: AsTranscript>(
    alloc: Global,
    tested: Role,
    transcript: &T,
) -> Result<Verdict, NoMemory>
    ensures { IfOk result (λ verdict. IsVerdictOf tested (T.transcript transcript.now) verdict) }
{
    let verdict = judge_by_echo(alloc, tested, &transcript.as_transcript())?;
    Ok(verdict)
}

/// The verdict by what an echo sends back.
fn judge_by_echo(
    alloc: Global,
    tested: Role,
    transcript: &TranscriptRef<'_>,
) -> Result<Verdict, NoMemory>
    ensures { IfOk result (λ verdict. IsVerdictOf tested transcript.now verdict) }
{
    let shown = evidence_of(alloc, tested, transcript)?;
    let counted = with_doom(tested, transcript, shown.evidence, shown.dooms);
    let verdict = verdict_on(alloc, tested, &counted)?;
    Ok(verdict)
}

/// Whether the tested end, which has this role, did what is expected of it: where that is an echo, the verdict of
/// `judge_end`, and else that by RFC 6455 alone, whatever messages the end sent and whenever it closed.
pub fn judge_with<T: AsTranscript>(
    alloc: Global,
    tested: Role,
    expectation: Expectation,
    transcript: &T,
) -> Result<Verdict, NoMemory>
    ensures { IfOk result (λ verdict. IsVerdictBy expectation tested (T.transcript transcript.now) verdict) }
{
    match expectation {
        Expectation::Echo => judge_by_echo(alloc, tested, &transcript.as_transcript()),
        Expectation::Protocol => judge_by_protocol(alloc, tested, &transcript.as_transcript()),
    }
}

/// The verdict by RFC 6455 alone.
fn judge_by_protocol(
    alloc: Global,
    tested: Role,
    transcript: &TranscriptRef<'_>,
) -> Result<Verdict, NoMemory>
    ensures { IfOk result (λ verdict. IsProtocolVerdictOf tested transcript.now verdict) }
{
    let marked = marked_evidence_of(alloc, tested, transcript)?;
    let verdict = verdict_by_protocol(alloc, tested, &marked)?;
    Ok(verdict)
}

/// Whether an end that was tapped, which has this role, kept RFC 6455, by what it was sent and what came from it. That
/// it closed first isn't told, and that it ended the connection where it was the first to do so; a ping that it left is
/// a skipped pong.
pub fn judge_tapped<T: AsTranscript>(
    alloc: Global,
    tested: Role,
    is_first: bool,
    transcript: &T,
) -> Result<Verdict, NoMemory>
    ensures { IfOk result (λ verdict. IsTappedVerdictOf tested is_first (T.transcript transcript.now) verdict) }
{
    let marked = marked_evidence_of(alloc, tested, &transcript.as_transcript())?;
    let verdict = verdict_tapped(alloc, tested, is_first, &marked)?;
    Ok(verdict)
}

/// The evidence of a transcript as it counts by the protocol.
fn marked_evidence_of(
    alloc: Global,
    tested: Role,
    transcript: &TranscriptRef<'_>,
) -> Result<MarkedEvidence, NoMemory>
    ensures { IfOk result (λ marked. IsMarkedEvidenceOf tested transcript.now (counted_of marked) marked.marks) }
{
    let shown = evidence_of(alloc, tested, transcript)?;
    let marked = marked_with_doom(alloc, tested, transcript, shown)?;
    Ok(marked)
}

/// The evidence as it counts by the protocol: a close whose code the standard leaves undefined counts as one, and then
/// what was doomed. The pongs behind the close stand beside it.
pub(crate) fn marked_with_doom(
    alloc: Global,
    tested: Role,
    transcript: &TranscriptRef<'_>,
    shown: Shown,
) -> Result<MarkedEvidence, NoMemory>
    requires ending { IsEndingByTurn (other_role tested) (got_turns transcript.now.turns) shown.evidence.got.ending }
    requires dooms { AreDooms tested (sent_turns transcript.now.turns) shown.evidence.got.ending shown.dooms }
    requires streams { AreStreamsOf tested transcript.now shown.streams }
    ensures { IfOk result (λ marked. (closed : Evidence)
        × HasUndefinedCodeCounted tested transcript.now shown.evidence closed
        × HasDoomCounted tested transcript.now closed marked.evidence
        × MatchBool (ends_with_close marked.evidence.got.ending)
        (ArePongsBehind (other_role tested) (got_turns transcript.now.turns) marked.behind) (marked.behind ≡ [])
        × AreMarksOf tested transcript.now marked.marks
        × IsBeyondClose (other_role tested) (got_turns transcript.now.turns) closed.got.ending marked.beyond) }
{
    let Shown {
        evidence,
        dooms,
        beyond: _,
        streams,
    } = shown;
    let closed = marked(alloc, tested, transcript, evidence, streams)?;
    let MarkedEvidence {
        evidence,
        behind,
        marks,
        beyond,
    } = closed;
    let counted = with_doom(tested, transcript, evidence, dooms);
    Ok(MarkedEvidence {
        evidence: counted,
        behind,
        marks,
        beyond,
    })
}

/// The verdict on the evidence, in which pings that were got count for nothing.
pub(crate) fn verdict_on(
    alloc: Global,
    tested: Role,
    evidence: &Evidence,
) -> Result<Verdict, NoMemory>
    ensures { IfOk result (λ verdict. IsVerdictOn tested (without_pings evidence.now) verdict) }
{
    let found = findings_of(alloc, evidence)?;
    if let Some(why) = first_fail(tested, evidence, found) {
        return Ok(Verdict::Fail(why));
    }
    match first_loose(tested, evidence, found) {
        Some(why) => Ok(Verdict::Loose(why)),
        None => Ok(Verdict::Pass),
    }
}
