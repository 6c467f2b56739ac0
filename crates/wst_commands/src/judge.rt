//! The command `judge`. Captures are told in docs/FORMATS.md, and verdicts in docs/VERDICTS.md.

ghost use Rattle.std.specs.Prelude.{◌≡◌, [], None, Some, false, string_bytes};
ghost use Rattle.ws_frame.specs.Devices.{watched};
ghost use Rattle.ws_frame.specs.Watching.{has_failed};
ghost use Rattle.ws_frame.specs.declared.source.DataStyle.TheVariants.{Hex};
ghost use Rattle.ws_scripts.specs.Pieces.{lent_turn};
ghost use Rattle.wst_commands.specs.Devices.{Delivers};
ghost use Rattle.wst_commands.specs.Explaining.{explanation_lines};
ghost use Rattle.wst_commands.specs.InnerExplaining.{explained_text};
ghost use Rattle.wst_commands.specs.Judge.{RunsJudge, TellsJudged, TellsVerdict, TellsVerdictWith, WritesVerdict};
ghost use Rattle.wst_commands.specs.Judge.{begins_masked, begins_unmasked, capture_fault, ended_verdict, exit_of};
ghost use Rattle.wst_commands.specs.Judge.{end_tested, end_tested_in, failed_verdict};

use crate::exit::Exit;
use crate::explaining::{Judgement, judgement_of, last_lines};
use crate::explanation_lines::{EndingLine, LastLines, Side, found_fault};
use crate::fault::Fault;
use crate::reading_capture::{ended_by, read_capture};
use crate::telling::deliver;
use crate::writing_explanation::write_explained;
use std::alloc::Global;
use std::io::{Read, Write};
use ws_frame::{DataStyle, Watched};
use ws_scripts::{AsTranscript, TurnRef};
use ws_suite::{
    CaptureFault, Expectation, Explanation, KeptTranscript, Verdict, explain_with, judge_with,
};
use ws_wire::Role;
use wst_words::JudgeOptions;

/// Judges the capture that the reader gives, in either format, and writes the verdict, and below it why it is told
/// where that is asked for.
#[inline(never)]
pub fn run_judge<R: Read, W: Write>(
    alloc: Global,
    options: JudgeOptions,
    reader: &mut Watched<R>,
    writer: &mut Watched<W>,
) -> Result<Exit, Fault>
    requires reader_works { has_failed reader.old ≡ false }
    requires writer_works { has_failed writer.old ≡ false }
    ensures { RunsJudge options result (watched R.remaining reader.old reader.new)
        (watched W.contents writer.old writer.new) }
{
    match read_capture(alloc, reader) {
        Ok(capture) => tell_verdict(alloc, options, capture.transcript(), writer),
        Err(stop) => ended_by(stop),
    }
}

/// What is told of a text that is no capture.
pub fn fault_of(fault: CaptureFault) -> Fault
    ensures { result ≡ capture_fault fault }
{
    match fault {
        CaptureFault::Damaged(line) => Fault::NotACapture(line),
        CaptureFault::NoMemory => Fault::NoMemory,
    }
}

/// Writes the verdict on a transcript, and why it is told where that is asked for. A Fail of an end whose frames are
/// those of the other one is told so.
fn tell_verdict<W: Write>(
    alloc: Global,
    options: JudgeOptions,
    transcript: &KeptTranscript,
    writer: &mut Watched<W>,
) -> Result<Exit, Fault>
    requires { has_failed writer.old ≡ false }
    ensures { TellsVerdict options transcript.now result (watched W.contents writer.old writer.new) }
{
    match write_verdict(alloc, options, transcript, writer) {
        Ok(exit) => ended_verdict(options.role, transcript, exit),
        Err(fault) => Err(fault),
    }
}

/// How a run ends that has written a verdict on a transcript and answered this exit.
fn ended_verdict(tested: Role, transcript: &KeptTranscript, exit: Exit) -> Result<Exit, Fault>
    ensures { result ≡ ended_verdict tested transcript.now exit }
{
    match exit {
        Exit::Damaged => failed_verdict(tested, transcript),
        Exit::Done | Exit::WrongWords | Exit::Failed => Ok(exit),
    }
}

/// How it ends where that is a Fail of this end.
fn failed_verdict(tested: Role, transcript: &KeptTranscript) -> Result<Exit, Fault>
    ensures { result ≡ failed_verdict tested transcript.now }
{
    match (tested, end_tested(transcript)) {
        (Role::Server, Some(Role::Client)) => Err(Fault::CaptureOfClient),
        (Role::Client, Some(Role::Server)) => Err(Fault::CaptureOfServer),
        (Role::Server, Some(Role::Server) | None) | (Role::Client, Some(Role::Client) | None) => {
            Ok(Exit::Damaged)
        }
    }
}

/// The end that was tested by the first turn of a transcript. `None` where that doesn't tell it.
fn end_tested(transcript: &KeptTranscript) -> Option<Role>
    ensures { result ≡ end_tested transcript.now.turns }
{
    let mut walk = transcript.as_transcript().turns();
    if walk.len() == 0 {
        return None;
    }
    end_tested_in(walk.take_first())
}

/// The end that was tested by the masks of a turn: a client masks its frames, and a server doesn't. `None` where one
/// of them sent no frame, or both are as the other.
fn end_tested_in(turn: TurnRef<'_>) -> Option<Role>
    ensures { result ≡ end_tested_in (lent_turn turn.entry) }
{
    if begins_masked(turn.got) && begins_unmasked(turn.sent) {
        return Some(Role::Client);
    }
    if begins_unmasked(turn.got) && begins_masked(turn.sent) {
        Some(Role::Server)
    } else {
        None
    }
}

/// Whether a frame begins here whose header says that it is masked.
fn begins_masked(bytes: &[u8]) -> bool
    ensures { result ≡ begins_masked bytes.now }
{
    match bytes {
        [_, second, ..] => *second > 127,
        _ => false,
    }
}

/// Whether a frame begins here whose header says that it is not.
fn begins_unmasked(bytes: &[u8]) -> bool
    ensures { result ≡ begins_unmasked bytes.now }
{
    match bytes {
        [_, second, ..] => *second < 128,
        _ => false,
    }
}

/// Writes the verdict on a transcript in its line, and below it why it is told where that is asked for.
fn write_verdict<W: Write>(
    alloc: Global,
    options: JudgeOptions,
    transcript: &KeptTranscript,
    writer: &mut Watched<W>,
) -> Result<Exit, Fault>
    requires { has_failed writer.old ≡ false }
    ensures { WritesVerdict options transcript.now result (watched W.contents writer.old writer.new) }
{
    if !options.explain {
        return tell_plain(alloc, options.role, options.expect, transcript, writer);
    }
    let (tested, expected) = (options.role, options.expect);
    match options.style {
        DataStyle::Hex => tell_explained(alloc, tested, expected, transcript, writer),
        DataStyle::Text | DataStyle::All => {
            tell_styled(alloc, options.style, tested, expected, transcript, writer)
        }
    }
}

/// Writes the verdict on a transcript in its line.
#[tactic(auto, using(crate::proofs::Told::line_told))]
fn tell_plain<W: Write>(
    alloc: Global,
    tested: Role,
    expected: Expectation,
    transcript: &KeptTranscript,
    writer: &mut Watched<W>,
) -> Result<Exit, Fault>
    requires { has_failed writer.old ≡ false }
    ensures { TellsVerdictWith None tested expected transcript.now result
        (watched W.contents writer.old writer.new) }
{
    let Ok(verdict) = judge_with(alloc, tested, expected, transcript) else {
        return Err(Fault::NoMemory);
    };
    tell_line(alloc, verdict, writer)
}

/// Writes a verdict in its line.
fn tell_line<W: Write>(
    alloc: Global,
    verdict: Verdict,
    writer: &mut Watched<W>,
) -> Result<Exit, Fault>
    requires { has_failed writer.old ≡ false }
    ensures { TellsJudged verdict [] result (watched W.contents writer.old writer.new) }
{
    match format!(in alloc; "{verdict}\n") {
        Ok(line) => Ok(deliver(exit_of(verdict), line.as_bytes(), writer)),
        Err(_) => Err(Fault::NoMemory),
    }
}

/// Writes the verdict on a transcript in its line, and below it why it is told, with payloads in this style: a text
/// that is made whole before it is written.
#[tactic(auto, using(crate::proofs::Told::line_told))]
fn tell_styled<W: Write>(
    alloc: Global,
    style: DataStyle,
    tested: Role,
    expected: Expectation,
    transcript: &KeptTranscript,
    writer: &mut Watched<W>,
) -> Result<Exit, Fault>
    requires { has_failed writer.old ≡ false }
    ensures { TellsVerdictWith (Some style) tested expected transcript.now result
        (watched W.contents writer.old writer.new) }
{
    let Ok(told) = judgement_of(alloc, Some(style), tested, expected, transcript) else {
        return Err(Fault::NoMemory);
    };
    tell_judgement(alloc, &told, writer)
}

/// Writes a verdict in its line, and what stands below it.
fn tell_judgement<W: Write>(
    alloc: Global,
    told: &Judgement,
    writer: &mut Watched<W>,
) -> Result<Exit, Fault>
    requires { has_failed writer.old ≡ false }
    ensures { TellsJudged told.now.verdict (string_bytes told.now.below) result
        (watched W.contents writer.old writer.new) }
{
    let Ok(text) = format!(in alloc; "{}\n{}", told.verdict, told.below) else {
        return Err(Fault::NoMemory);
    };
    Ok(deliver(exit_of(told.verdict), text.as_bytes(), writer))
}

/// Writes the verdict on a transcript in its line, and below it why it is told, with the first bytes of payloads.
#[tactic(auto, using(crate::proofs::Told::pass_told))]
fn tell_explained<W: Write>(
    alloc: Global,
    tested: Role,
    expected: Expectation,
    transcript: &KeptTranscript,
    writer: &mut Watched<W>,
) -> Result<Exit, Fault>
    requires { has_failed writer.old ≡ false }
    ensures { TellsVerdictWith (Some Hex) tested expected transcript.now result
        (watched W.contents writer.old writer.new) }
{
    let Ok(explanation) = explain_with(alloc, tested, expected, transcript) else {
        return Err(Fault::NoMemory);
    };
    match explanation.verdict {
        Verdict::Pass => tell_line(alloc, explanation.verdict, writer),
        Verdict::Loose(_) => {
            let lines = last_lines(tested, expected, transcript, &explanation);
            tell_lines(alloc, &lines, writer)
        }
        Verdict::Fail(_) => {
            let lines = last_lines(tested, expected, transcript, &explanation);
            tell_lines(alloc, &lines, writer)
        }
    }
}

/// Writes the line of the verdict of an explanation, and below it the lines of this. All memory is taken before the
/// first byte is written.
fn tell_lines<W: Write>(
    alloc: Global,
    lines: &LastLines<'_>,
    writer: &mut Watched<W>,
) -> Result<Exit, Fault>
    requires { has_failed writer.old ≡ false }
    ensures { TellsJudged lines.now.explanation.now.verdict
        (explanation_lines Hex lines.now.tested lines.now.expected lines.now.cut lines.now.explanation.now) result
        (watched W.contents writer.old writer.new) }
{
    let explanation = lines.explanation;
    let due = EndingLine {
        side: Side::Due,
        ending: &explanation.due.ending,
        fault: None,
    };
    let got = EndingLine {
        side: Side::Got,
        ending: &explanation.got.ending,
        fault: found_fault(explanation),
    };
    let Ok(line) = format!(in alloc; "{}\n", explanation.verdict) else {
        return Err(Fault::NoMemory);
    };
    let Ok(due_end) = format!(in alloc; "{due}") else {
        return Err(Fault::NoMemory);
    };
    let Ok(got_end) = format!(in alloc; "{got}{lines}") else {
        return Err(Fault::NoMemory);
    };
    Ok(deliver_explained(
        line.as_str(),
        explanation,
        due_end.as_str(),
        got_end.as_str(),
        writer,
    ))
}

/// Writes the line of the verdict of an explanation and the lines below it, and answers the exit of this verdict, or
/// that of a failure.
fn deliver_explained<W: Write>(
    line: &str,
    explanation: &Explanation,
    due_end: &str,
    got_end: &str,
    writer: &mut Watched<W>,
) -> Exit
    requires { has_failed writer.old ≡ false }
    ensures { Delivers (exit_of explanation.now.verdict)
        (explained_text line.now explanation.now due_end.now got_end.now) result
        (watched W.contents writer.old writer.new) }
{
    match write_explained(line, explanation, due_end, got_end, writer) {
        Ok(()) => exit_of(explanation.verdict),
        Err(_) => Exit::Failed,
    }
}

/// How a run ends that has written this verdict.
pub fn exit_of(verdict: Verdict) -> Exit
    ensures { result ≡ exit_of verdict }
{
    match verdict {
        Verdict::Pass | Verdict::Loose(_) => Exit::Done,
        Verdict::Fail(_) => Exit::Damaged,
    }
}
