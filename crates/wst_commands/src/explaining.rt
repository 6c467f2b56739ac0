//! A verdict, and why it is told. The lines stand in docs/FORMATS.md.

ghost use Rattle.std.specs.Prelude.{◌≡◌, IfOk, string_bytes};
ghost use Rattle.ws_suite.specs.Explanation.{IsExplanationBy};
ghost use Rattle.wst_commands.specs.Explaining.{IsCutIn, IsExplained, IsExplanationText, IsJudgementOf, IsLastGot};
ghost use Rattle.wst_commands.specs.Explaining.{is_cut, last_after};
ghost use Rattle.wst_commands.specs.InnerExplaining.{AreLastLines};

use crate::explanation_lines::{ExplanationLines, LastLines};
use std::alloc::Global;
use ws_base::NoMemory;
use ws_frame::DataStyle;
use ws_suite::{
    AsTranscript, Direction, Expectation, Explanation, TranscriptRef, Verdict, explain_with,
    judge_with,
};
use ws_wire::Role;

/// The verdict on a transcript, and the lines below its own.
#[derive(Drop)]
pub struct Judgement {
    pub verdict: Verdict,
    /// Why the verdict is told: no lines of a Pass, nor where they aren't asked for.
    pub below: String,
}

/// The verdict on a tested end of this role by all that went over a connection; where `explains` names a style also
/// why it is told, with payloads in this style, if it isn't Pass.
#[tactic(auto, using(crate::proofs::Explained::verdict_explained))]
pub fn judgement_of<T: AsTranscript>(
    alloc: Global,
    explains: Option<DataStyle>,
    tested: Role,
    expected: Expectation,
    transcript: &T,
) -> Result<Judgement, NoMemory>
    ensures { IfOk result (λ told. IsJudgementOf explains tested expected (T.transcript transcript.now) told) }
{
    let Some(style) = explains else {
        let verdict = judge_with(alloc, tested, expected, transcript)?;
        return Ok(Judgement {
            verdict,
            below: String::new(alloc),
        });
    };
    let explanation = explain_with(alloc, tested, expected, transcript)?;
    let below = lines_below(alloc, style, tested, expected, transcript, &explanation)?;
    Ok(Judgement {
        verdict: explanation.verdict,
        below,
    })
}

/// The lines below the verdict of an explanation.
fn lines_below<T: AsTranscript>(
    alloc: Global,
    style: DataStyle,
    tested: Role,
    expected: Expectation,
    transcript: &T,
    explanation: &Explanation,
) -> Result<String, NoMemory>
    requires { IsExplanationBy expected tested (T.transcript transcript.now) explanation.now }
    ensures { IfOk result (λ below.
        IsExplained style tested expected (T.transcript transcript.now) explanation.now.verdict (string_bytes below)) }
{
    match explanation.verdict {
        Verdict::Pass => Ok(String::new(alloc)),
        Verdict::Loose(_) => {
            let below = write_explanation(alloc, style, tested, expected, transcript, explanation)?;
            Ok(below)
        }
        Verdict::Fail(_) => {
            let below = write_explanation(alloc, style, tested, expected, transcript, explanation)?;
            Ok(below)
        }
    }
}

/// The lines of an explanation of the verdict on this transcript, each indented by two spaces and ended by LF.
fn write_explanation<T: AsTranscript>(
    alloc: Global,
    style: DataStyle,
    tested: Role,
    expected: Expectation,
    transcript: &T,
    explanation: &Explanation,
) -> Result<String, NoMemory>
    ensures { IfOk result (λ text.
        IsExplanationText style tested expected (T.transcript transcript.now) explanation.now (string_bytes text)) }
{
    let lines = ExplanationLines {
        alloc,
        style,
        last: last_lines(tested, expected, transcript, explanation),
    };
    let text = format!(in alloc; "{lines}")?;
    Ok(text)
}

/// The lines behind those of what was owed and of what came.
pub(crate) fn last_lines<'a, T: AsTranscript>(
    tested: Role,
    expected: Expectation,
    transcript: &T,
    explanation: &'a Explanation,
) -> LastLines<'a>
    ensures { AreLastLines tested expected (T.transcript transcript.now) explanation.now result }
{
    LastLines {
        tested,
        expected,
        explanation,
        cut: cut_in(&explanation.got, &transcript.as_transcript()),
    }
}

/// The turn in which what came ends inside a frame, if it does.
fn cut_in(got: &Direction, transcript: &TranscriptRef<'_>) -> Option<usize>
    ensures { IsCutIn (is_cut got.now) transcript.now.turns result }
{
    if got.ending.is_none() && got.has_rest {
        last_got(transcript)
    } else {
        None
    }
}

/// The last turn in which bytes were got.
fn last_got(transcript: &TranscriptRef<'_>) -> Option<usize>
    ensures { IsLastGot transcript.now.turns result }
{
    let mut walk = transcript.turns();
    let mut last = None;
    for number in 0..walk.len() {
        last = last_after(last, number, walk.take_first().got);
    }
    last
}

/// The last turn in which bytes were got, by that before this turn and what was got in it.
fn last_after(last: Option<usize>, number: usize, got: &[u8]) -> Option<usize>
    ensures { result ≡ last_after last number got.now }
{
    match got {
        [] => last,
        [_, ..] => Some(number),
    }
}
