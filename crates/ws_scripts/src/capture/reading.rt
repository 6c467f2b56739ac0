//! Reading a capture, in format 1 or in either format.

ghost use Rattle.std.specs.Prelude.{◌≡◌, ◌++◌, ◌∷◌, [], ℕ, IfErr, IfOk, MatchResult};
ghost use Rattle.ws_base.specs.declared.text_fault.LineFault.TheVariants.{NoMemory};
ghost use Rattle.ws_base.specs.declared.text_fault.TextFault.TheVariants as text_fault;
ghost use Rattle.ws_scripts.specs.Captures.{DamagesCapture, IsCaptureOf};
ghost use Rattle.ws_scripts.specs.Captures2.{IsAnyCaptureOf};
ghost use Rattle.ws_scripts.specs.InnerCapturing.{Adds, TellCapture, all_turns, begun_in, capture_goes_on};
ghost use Rattle.ws_scripts.specs.InnerCapturing.{data_in, end_in, ended_then};
ghost use Rattle.ws_scripts.specs.InnerCapturing.{first_with, no_turns, open_turns, part_with, second_with, turns_with};

use crate::any_transcript::KeptTranscript;
use crate::capture::line::{CaptureLine, Format, Line, read_line};
use crate::capture::{Capture, CaptureFault, KeptCapture, format1, format2};
use crate::kept_turns::KeptTurns;
use crate::transcript::{Ended, Transcript, Turn};
use std::alloc::Global;
use ws_base::{LineFault, Payload, TextFault};
use ws_formats::{PartialText, read_by_lines};

/// The transcript of a capture in format 1.
pub fn read_capture(alloc: Global, text: &[u8]) -> Result<Transcript, CaptureFault>
    ensures { MatchResult result (λ transcript. IsCaptureOf transcript text.now)
        (λ fault. DamagesCapture IsCaptureOf fault text.now) }
{
    let kept = read_format_1(alloc, text)?;
    match kept.transcript().to_list(alloc) {
        Ok(transcript) => Ok(transcript),
        Err(_) => Err(CaptureFault::NoMemory),
    }
}

/// The capture that a text is, in format 1, in little room.
fn read_format_1(alloc: Global, text: &[u8]) -> Result<KeptCapture, CaptureFault>
    ensures { MatchResult result (λ capture. IsCaptureOf capture.transcript text.now)
        (λ fault. DamagesCapture IsCaptureOf fault text.now) }
{
    match read_by_lines(alloc, PartialCapture::Nothing(false), text) {
        Ok(capture) => Ok(capture),
        Err(fault) => Err(capture_fault(fault)),
    }
}

/// The capture that a text is, in format 2 or in format 1, which tells no key.
pub fn read_capture2(alloc: Global, text: &[u8]) -> Result<Capture, CaptureFault>
    ensures { MatchResult result (λ capture. IsAnyCaptureOf capture text.now)
        (λ fault. DamagesCapture IsAnyCaptureOf fault text.now) }
{
    let kept = read_kept_capture(alloc, text)?;
    match kept.to_list(alloc) {
        Ok(capture) => Ok(capture),
        Err(_) => Err(CaptureFault::NoMemory),
    }
}

/// The capture that a text is, in either format, in little room.
fn read_kept_capture(alloc: Global, text: &[u8]) -> Result<KeptCapture, CaptureFault>
    ensures { MatchResult result (λ capture. IsAnyCaptureOf capture text.now)
        (λ fault. DamagesCapture IsAnyCaptureOf fault text.now) }
{
    match read_by_lines(alloc, PartialCapture::Nothing(true), text) {
        Ok(capture) => Ok(capture),
        Err(fault) => Err(capture_fault(fault)),
    }
}

/// The same fault of a capture.
pub(crate) fn capture_fault(fault: TextFault) -> CaptureFault
    ensures { (n : ℕ) → result ≡ CaptureFault.Damaged n → fault ≡ text_fault.Damaged n }
{
    match fault {
        TextFault::Damaged(line) => CaptureFault::Damaged(line),
        TextFault::NoMemory => CaptureFault::NoMemory,
    }
}

/// Turns of which the last may go on.
#[derive(Drop)]
pub(crate) struct OpenTurns {
    /// Those before the last.
    pub done: KeptTurns,
    /// The last, where there is any.
    pub last: Option<Turn>,
}

/// What was read of a capture.
#[derive(Drop)]
pub(crate) enum PartialCapture {
    /// No line: of a capture in either format, or else in format 1.
    Nothing(bool),
    /// The first line, in format 2.
    FirstOfTwo,
    /// The lines before those of the turns, and these turns.
    Turns(Format, Option<[u8; 4]>, OpenTurns),
    /// All lines.
    Whole(KeptCapture),
}

impl PartialText for PartialCapture {
    type Value = KeptCapture;

    ghost tells = { TellCapture };

    fn take_line(self, alloc: Global, line: &[u8]) -> Result<PartialCapture, LineFault> {
        match read_line(alloc, line) {
            Ok(line) => self.with(alloc, line),
            Err(fault) => Err(fault),
        }
    }

    fn value(self) -> Option<KeptCapture> {
        match self {
            PartialCapture::Whole(capture) => Some(capture),
            _ => None,
        }
    }

    ghost goes_on = { capture_goes_on };
}

impl PartialCapture {
    /// What is read with one more line, where it may stand there.
    fn with(self, alloc: Global, line: CaptureLine<Payload>) -> Result<PartialCapture, LineFault>
        ensures { Adds (part_with self line) result }
    {
        match self {
            PartialCapture::Nothing(both) => after_nothing(alloc, both, line),
            PartialCapture::FirstOfTwo => after_first(alloc, line),
            PartialCapture::Turns(format, key, turns) => after_turns(
                alloc, format, key, turns, line,
            ),
            PartialCapture::Whole(_) => Err(LineFault::Damaged),
        }
    }
}

/// What the first line makes.
fn after_nothing(
    alloc: Global,
    both: bool,
    line: CaptureLine<Payload>,
) -> Result<PartialCapture, LineFault>
    ensures { Adds (first_with both line) result }
{
    match line {
        CaptureLine::First(Format::One) => Ok(PartialCapture::Turns(
            Format::One,
            None,
            OpenTurns::none(alloc),
        )),
        CaptureLine::First(Format::Two) => {
            if both {
                Ok(PartialCapture::FirstOfTwo)
            } else {
                Err(LineFault::Damaged)
            }
        }
        _ => Err(LineFault::Damaged),
    }
}

/// What the second line makes, in format 2.
fn after_first(alloc: Global, line: CaptureLine<Payload>) -> Result<PartialCapture, LineFault>
    ensures { Adds (second_with line) result }
{
    match line {
        CaptureLine::Key(key) => Ok(PartialCapture::Turns(
            Format::Two,
            key,
            OpenTurns::none(alloc),
        )),
        _ => Err(LineFault::Damaged),
    }
}

/// What a line makes of turns.
fn after_turns(
    alloc: Global,
    format: Format,
    key: Option<[u8; 4]>,
    turns: OpenTurns,
    line: CaptureLine<Payload>,
) -> Result<PartialCapture, LineFault>
    ensures { Adds (turns_with format key turns line) result }
{
    match line {
        CaptureLine::Begin => match begun(alloc, format, turns) {
            Ok(turns) => Ok(PartialCapture::Turns(format, key, turns)),
            Err(fault) => Err(fault),
        },
        CaptureLine::Data(line) => match with_data(alloc, format, turns, line) {
            Ok(turns) => Ok(PartialCapture::Turns(format, key, turns)),
            Err(fault) => Err(fault),
        },
        CaptureLine::End(ended) => whole(format, key, turns, ended),
        _ => Err(LineFault::Damaged),
    }
}

/// The turns, where a turn begins.
fn begun(alloc: Global, format: Format, turns: OpenTurns) -> Result<OpenTurns, LineFault>
    ensures { Adds (begun_in format turns) result }
{
    match format {
        Format::One => Err(LineFault::Damaged),
        Format::Two => format2::begun(alloc, turns),
    }
}

/// The turns with one more line of bytes.
fn with_data(
    alloc: Global,
    format: Format,
    turns: OpenTurns,
    line: Line<Payload>,
) -> Result<OpenTurns, LineFault>
    ensures { Adds (data_in format turns line) result }
{
    match format {
        Format::One => format1::with_data(alloc, turns, line),
        Format::Two => format2::with_data(turns, line),
    }
}

/// The capture of these turns, after its last line.
fn whole(
    format: Format,
    key: Option<[u8; 4]>,
    turns: OpenTurns,
    ended: Ended,
) -> Result<PartialCapture, LineFault>
    ensures { Adds (ended_then key (all_turns turns) (end_in format ended)) result }
{
    let Some(ended) = end_in(format, ended) else {
        return Err(LineFault::Damaged);
    };
    match turns.all() {
        Ok(turns) => {
            let transcript = KeptTranscript::new(turns, ended);
            Ok(PartialCapture::Whole(KeptCapture::new(key, transcript)))
        }
        Err(fault) => Err(fault),
    }
}

/// How the connection ended, where the format tells that.
fn end_in(format: Format, ended: Ended) -> Option<Ended>
    ensures { result ≡ end_in format ended }
{
    match format {
        Format::One => format1::end(ended),
        Format::Two => Some(ended),
    }
}

impl OpenTurns {
    /// No turn.
    fn none(alloc: Global) -> OpenTurns
        ensures { result ≡ no_turns }
    {
        OpenTurns {
            done: KeptTurns::new(alloc),
            last: None,
        }
    }

    /// These turns, of which the last begins so.
    pub(crate) fn new(done: KeptTurns, sent: Payload, got: Payload) -> OpenTurns
        ensures { result ≡ open_turns done sent got }
    {
        let last = Some(Turn { sent, got });
        OpenTurns { done, last }
    }

    /// All of them.
    pub(crate) fn all(self) -> Result<KeptTurns, LineFault>
        ensures all { IfOk result (λ turns. turns ≡ all_turns self) }
        ensures memory { IfErr result (λ fault. fault ≡ NoMemory) }
    {
        let OpenTurns { done, last } = self;
        match last {
            Some(turn) => with_turn(done, turn),
            None => Ok(done),
        }
    }
}

/// The turns with one more.
pub(crate) fn with_turn(turns: KeptTurns, turn: Turn) -> Result<KeptTurns, LineFault>
    ensures longer { IfOk result (λ longer. longer ≡ turns ++ turn ∷ []) }
    ensures memory { IfErr result (λ fault. fault ≡ NoMemory) }
{
    match turns.with(turn.sent.as_slice(), turn.got.as_slice()) {
        Ok(longer) => Ok(longer),
        Err(_) => Err(LineFault::NoMemory),
    }
}
