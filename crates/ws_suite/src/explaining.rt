//! Why a verdict is told: what was owed and what came.

ghost use Rattle.std.specs.Prelude.{IfOk};
ghost use Rattle.ws_suite.specs.Explanation.{IsExplanationBy, IsExplanationOf, IsProtocolExplanationOf};

use crate::evidence::{
    Direction, Evidence, Found, MarkedEvidence, Shown, found_in, told_evidence_of, with_doom,
};
use crate::judging::{end_of_owed, marked_with_doom, verdict_by_protocol, verdict_on};
use crate::verdict::Verdict;
use std::alloc::Global;
use ws_base::NoMemory;
use ws_scripts::{AsTranscript, Ended, Expectation, TranscriptRef};
use ws_wire::Role;

/// A verdict, and what it is told on.
#[derive(Drop)]
pub struct Explanation {
    pub verdict: Verdict,
    /// What was owed for what was sent, each reply with the turn of its cause, and the close or the fault that was
    /// sent, as it counts.
    pub due: Direction,
    /// What came: messages, pings and pongs, and the close or the fault.
    pub got: Direction,
    /// The turn, from 0, of the first byte that follows the close that came.
    pub beyond: Option<usize>,
    /// Where the fault that came is, with the bytes that show it, and the first bytes behind the close.
    pub found: Found,
    /// How many turns there were.
    pub turns: usize,
    /// How the connection ended.
    pub ended: Ended,
}

/// The verdict of `judge_end` on a tested end of this role, and why it is told: what was owed and what came, by the
/// evidence that the verdict is made of. Each direction is read once.
pub fn explain<T: AsTranscript>(
    alloc: Global,
    tested: Role,
    transcript: &T,
) -> Result<Explanation, NoMemory>
    ensures { IfOk result (λ x. IsExplanationOf tested (T.transcript transcript.now) x) }
{
    explain_by_echo(alloc, tested, &transcript.as_transcript())
}

/// The verdict by what an echo sends back, and why it is told.
fn explain_by_echo(
    alloc: Global,
    tested: Role,
    transcript: &TranscriptRef<'_>,
) -> Result<Explanation, NoMemory>
    ensures { IfOk result (λ x. IsExplanationOf tested transcript.now x) }
{
    let told = told_evidence_of(alloc, tested, transcript)?;
    let Shown {
        evidence,
        dooms,
        beyond,
        streams,
    } = told;
    let found = found_in(alloc, transcript, streams.got)?;
    let counted = with_doom(tested, transcript, evidence, dooms);
    let verdict = verdict_on(alloc, tested, &counted)?;
    let Evidence {
        due,
        got,
        turns,
        ended,
        answers_doom: _,
    } = counted;
    Ok(Explanation {
        verdict,
        due,
        got,
        beyond,
        found,
        turns,
        ended,
    })
}

/// The verdict of `judge_with` on a tested end of this role, and why it is told. Of an end that needn't echo no message
/// is owed, and a pong only for a ping that it was sent in an earlier turn than what ends the connection.
pub fn explain_with<T: AsTranscript>(
    alloc: Global,
    tested: Role,
    expectation: Expectation,
    transcript: &T,
) -> Result<Explanation, NoMemory>
    ensures { IfOk result (λ x. IsExplanationBy expectation tested (T.transcript transcript.now) x) }
{
    match expectation {
        Expectation::Echo => explain_by_echo(alloc, tested, &transcript.as_transcript()),
        Expectation::Protocol => explain_by_protocol(alloc, tested, &transcript.as_transcript()),
    }
}

/// The verdict by RFC 6455 alone, and why it is told.
fn explain_by_protocol(
    alloc: Global,
    tested: Role,
    transcript: &TranscriptRef<'_>,
) -> Result<Explanation, NoMemory>
    ensures { IfOk result (λ x. IsProtocolExplanationOf tested transcript.now x) }
{
    let told = told_evidence_of(alloc, tested, transcript)?;
    let found = found_in(alloc, transcript, told.streams.got)?;
    let marked = marked_with_doom(alloc, tested, transcript, told)?;
    let verdict = verdict_by_protocol(alloc, tested, &marked)?;
    let end = end_of_owed(&marked.evidence);
    let MarkedEvidence {
        evidence,
        behind: _,
        marks: _,
        beyond,
    } = marked;
    let Evidence {
        due,
        got,
        turns,
        ended,
        answers_doom: _,
    } = evidence;
    let Direction {
        replies,
        ending,
        has_rest,
    } = due;
    let owed = replies.pongs_before(alloc, end)?;
    Ok(Explanation {
        verdict,
        due: Direction {
            replies: owed,
            ending,
            has_rest,
        },
        got,
        beyond,
        found,
        turns,
        ended,
    })
}
