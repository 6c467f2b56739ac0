//! What an end that needn't echo is judged by beside the evidence (RFC 6455 sections 5.4 to 5.6, 7.4 and 8.1).

ghost use Rattle.std.specs.Prelude.{◌≡◌, ◌↔◌, ◌⊎◌, ◌-◌, ◌%◌, ◌<◌, ℕ, IfOk, IsTrue, List, MatchOption, drop, false};
ghost use Rattle.std.specs.Prelude.{[], MatchBool, None, Some, map};
ghost use Rattle.std.specs.List.{concat};
ghost use Rattle.ws_wire.specs.declared.role.Role.{Role};
ghost use Rattle.ws_wire.specs.declared.opcode.Opcode.{Opcode};
ghost use Rattle.ws_wire.specs.Opcode.{IsOpcode};
ghost use Rattle.ws_suite.specs.Evidence.{got_turns, other_role};
ghost use Rattle.ws_suite.specs.Explanation.{IsBeyondClose};
ghost use Rattle.ws_suite.specs.InnerCollecting.{way_bytes};
ghost use Rattle.ws_suite.specs.InnerMarks.{AreStreamsOf, HasAllAsked, IsEndingByTurn, IsTold, IsToldStream};
ghost use Rattle.ws_suite.specs.InnerMarks.{IsTurnOfPlace, closed_with, evidence_closed, fault_of, first_asked};
ghost use Rattle.ws_suite.specs.Marks.{AreMarksOf, ArePongsBehind, EndsInDataFrame, EndsInFrame};
ghost use Rattle.ws_suite.specs.Marks.{FailsByUndefinedCode, HasOpenMessage, HasUndefinedCodeCounted, IsLate};
ghost use Rattle.ws_suite.specs.Matching.{ends_with_close};

use crate::evidence::behind::pongs_behind;
use crate::evidence::collecting::Way;
use crate::evidence::growing::other;
use crate::evidence::streams::{Seen, StreamEnd, Streams};
use crate::evidence::telling::bytes_of;
use crate::evidence::wire_frames::{are_controls, is_late, undefined_code};
use crate::evidence::{Direction, Ending, Evidence, InTurn, Replies, ends_with_close};
use crate::lemmas::{are_bytes, frame_laws};
use std::alloc::Global;
use ws_base::NoMemory;
use ws_scripts::TranscriptRef;
use ws_session::Reason;
use ws_wire::{Opcode, Role};

/// What is seen of the bytes of both directions beside their events.
#[derive(Clone, Copy)]
pub(crate) struct Marks {
    /// A message was sent, or a part of one.
    pub sends_data: bool,
    /// A fault was sent, and so that the tested end needn't have seen it.
    pub is_late: bool,
    /// A message that was got has begun and isn't whole.
    pub is_open: bool,
    /// What was got ends inside a data frame.
    pub ends_in_data: bool,
    /// What is behind the close that was got is right pings, pongs and closes alone.
    pub has_controls: bool,
}

/// The evidence as it counts by the protocol, and the marks beside it.
#[derive(Drop)]
pub(crate) struct MarkedEvidence {
    pub evidence: Evidence,
    /// The right pongs behind the close that was got.
    pub behind: Replies,
    pub marks: Marks,
    /// The turn of the first byte behind the close that was got.
    pub beyond: Option<usize>,
}

/// The evidence with a close counted whose code the standard leaves undefined, and its marks.
pub(crate) fn marked(
    alloc: Global,
    tested: Role,
    transcript: &TranscriptRef<'_>,
    shown: Evidence,
    streams: Streams,
) -> Result<MarkedEvidence, NoMemory>
    requires streams { AreStreamsOf tested transcript.now streams }
    requires ending { IsEndingByTurn (other_role tested) (got_turns transcript.now.turns) shown.got.ending }
    ensures closed { IfOk result (λ marked. HasUndefinedCodeCounted tested transcript.now shown marked.evidence) }
    ensures behind { IfOk result (λ marked. MatchBool (ends_with_close marked.evidence.got.ending)
        (ArePongsBehind (other_role tested) (got_turns transcript.now.turns) marked.behind) (marked.behind ≡ [])) }
    ensures marks { IfOk result (λ marked. AreMarksOf tested transcript.now marked.marks) }
    ensures beyond { IfOk result (λ marked. IsBeyondClose (other_role tested) (got_turns transcript.now.turns)
        marked.evidence.got.ending marked.beyond) }
{
    let sent = told_of(alloc, Way::Sent, transcript, streams.sent)?;
    let got = told_of(alloc, Way::Got, transcript, streams.got)?;
    let marks = Marks {
        sends_data: sent.seen.frame.came(),
        is_late: sent.is_late(),
        is_open: got.is_open(),
        ends_in_data: got.ends_in_data(),
        has_controls: are_controls(other(tested), got.behind()),
    };
    let evidence = with_close(shown, got.undefined_code());
    let is_closed = ends_with_close(&evidence.got.ending);
    let behind = answers_behind(alloc, tested, transcript, is_closed, &got)?;
    let beyond = if is_closed {
        got_turn(transcript, got.seen.after)
    } else {
        None
    };
    Ok(MarkedEvidence {
        evidence,
        behind,
        marks,
        beyond,
    })
}

/// The right pongs behind the close that was got, if one was.
fn answers_behind(
    alloc: Global,
    tested: Role,
    transcript: &TranscriptRef<'_>,
    is_closed: bool,
    got: &Told,
) -> Result<Replies, NoMemory>
    requires { IsToldStream (other_role tested) (concat (got_turns transcript.now.turns)) got.now }
    ensures { IfOk result (λ pongs. MatchBool is_closed
        (ArePongsBehind (other_role tested) (got_turns transcript.now.turns) pongs) (pongs ≡ [])) }
{
    if !is_closed {
        return Ok(Replies::new(alloc));
    }
    let role = other(tested);
    let pongs = pongs_behind(alloc, role, transcript, got.seen.after, got.behind())?;
    Ok(pongs)
}

/// The turn in which the byte at this place of all that was got stands, if there is one.
fn got_turn(transcript: &TranscriptRef<'_>, place: usize) -> Option<usize>
    ensures { IsTurnOfPlace (got_turns transcript.now.turns) place result }
{
    let mut walk = transcript.turns();
    let mut left = place;
    for number in 0..walk.len() {
        let len = walk.take_first().got.len();
        if left < len {
            return Some(number);
        }
        left -= len;
    }
    None
}

/// The evidence, where what was got ends with a close of this code, if there is one, in place of a fault.
fn with_close(shown: Evidence, code: Option<u16>) -> Evidence
    ensures { result ≡ evidence_closed shown code }
{
    let Evidence {
        due,
        got,
        turns,
        ended,
        answers_doom,
    } = shown;
    let Direction {
        replies,
        ending,
        has_rest,
    } = got;
    Evidence {
        due,
        got: Direction {
            replies,
            ending: closed_with(ending, code),
            has_rest,
        },
        turns,
        ended,
        answers_doom,
    }
}

/// A close of this code, if there is one, in place of a fault.
fn closed_with(ending: Option<InTurn<Ending>>, code: Option<u16>) -> Option<InTurn<Ending>>
    ensures { result ≡ closed_with ending code }
{
    match (ending, code) {
        (Some(ending), Some(code)) => Some(InTurn {
            turn: ending.turn,
            what: Ending::Closed(Some(code)),
        }),
        (ending, _) => ending,
    }
}

/// A stream, of which no bytes are kept but those that are asked about.
#[derive(Drop)]
pub(super) struct Told {
    pub(super) seen: Seen,
    /// From the first that is asked about on.
    pub(super) bytes: Vec<u8>,
}

/// A stream that was seen so.
fn told_of(
    alloc: Global,
    way: Way,
    transcript: &TranscriptRef<'_>,
    seen: Seen,
) -> Result<Told, NoMemory>
    ensures { IfOk result (λ told. IsTold seen (concat (map (way_bytes way) transcript.now.turns)) told) }
{
    let bytes = bytes_from(alloc, way, transcript, seen.first_asked())?;
    Ok(Told { seen, bytes })
}

/// All that goes this way, from this place on.
fn bytes_from(
    alloc: Global,
    way: Way,
    transcript: &TranscriptRef<'_>,
    place: usize,
) -> Result<Vec<u8>, NoMemory>
    ensures { IfOk result (λ bytes. bytes.items ≡ drop place (concat (map (way_bytes way) transcript.now.turns))) }
{
    let mut bytes = Vec::new(alloc);
    let mut walk = transcript.turns();
    let mut left = place;
    for _number in 0..walk.len() {
        let piece = bytes_of(way, walk.take_first());
        let passed = left.min(piece.len());
        left -= passed;
        bytes.extend_from_slice(&piece[passed..])?;
    }
    Ok(bytes)
}

impl Told {
    /// The bytes behind the last event.
    fn behind(&self) -> &[u8]
        requires { HasAllAsked self.now }
        ensures { result.now ≡ drop (self.now.seen.after - first_asked self.now.seen) self.now.bytes.items }
    {
        let passed = self.seen.after - self.seen.first_asked();
        &self.bytes.as_slice()[passed..]
    }

    /// The reason of the fault with which it ends, if it ends with one.
    fn fault(&self) -> Option<Reason>
        ensures { result ≡ fault_of self.now.seen.end }
    {
        match self.seen.end {
            Some(StreamEnd::Failed(reason)) => Some(reason),
            Some(StreamEnd::Closed) | None => None,
        }
    }

    /// Whether it ends with a fault that an end which takes it needn't have seen.
    fn is_late(&self) -> bool
        requires { HasAllAsked self.now }
        ensures { (role : Role) (bytes : List ℕ) → IsToldStream role bytes self.now → IsTrue result
            ↔ IsLate role bytes }
    {
        match self.fault() {
            Some(reason) => {
                let frames = self.bytes.as_slice();
                are_bytes(frames);
                is_late(reason, frames)
            }
            None => false,
        }
    }

    /// The code of the close with which it ends, where the standard leaves that undefined.
    pub(super) fn undefined_code(&self) -> Option<u16>
        requires { HasAllAsked self.now }
        ensures { (role : Role) (bytes : List ℕ) → IsToldStream role bytes self.now → MatchOption result
            ((code : ℕ) → FailsByUndefinedCode role bytes code → ⊥)
            (FailsByUndefinedCode role bytes) }
    {
        let Some(reason) = self.fault() else {
            return None;
        };
        match reason {
            Reason::CloseCode => undefined_code(self.bytes.as_slice()),
            _ => None,
        }
    }

    /// What the frame under way is, if there is one: its first byte says it.
    fn frame_under_way(&self) -> Option<Opcode>
        requires { HasAllAsked self.now }
        ensures { (role : Role) (bytes : List ℕ) → IsToldStream role bytes self.now → MatchOption result
            ((first : ℕ) → EndsInFrame role bytes first → ⊥)
            (λ kind. (first : ℕ) × EndsInFrame role bytes first × IsOpcode kind (first % 16)) }
    {
        frame_laws();
        match self.seen.end {
            Some(_) => None,
            None => match self.behind() {
                [] => None,
                [first, ..] => Some(Opcode::of(*first % 16)),
            },
        }
    }

    /// Whether a message has begun, be it with one byte, and isn't whole.
    fn is_open(&self) -> bool
        requires { HasAllAsked self.now }
        ensures { (role : Role) (bytes : List ℕ) → IsToldStream role bytes self.now → IsTrue result
            ↔ HasOpenMessage role bytes }
    {
        frame_laws();
        let begins = begins_message(self.frame_under_way());
        self.seen.frame.is_fragment() || begins
    }

    /// Whether it ends inside a data frame.
    fn ends_in_data(&self) -> bool
        requires { HasAllAsked self.now }
        ensures { (role : Role) (bytes : List ℕ) → IsToldStream role bytes self.now → IsTrue result
            ↔ EndsInDataFrame role bytes }
    {
        frame_laws();
        is_data(self.frame_under_way())
    }
}

/// Whether a frame, if there is one, begins a message.
fn begins_message(kind: Option<Opcode>) -> bool
    ensures none { kind ≡ None → result ≡ false }
    ensures some { (under_way : Opcode) (number : ℕ) → kind ≡ Some under_way → IsOpcode under_way number
        → IsTrue result ↔ ((number ≡ 1) ⊎ (number ≡ 2)) }
{
    match kind {
        Some(Opcode::Text | Opcode::Binary) => true,
        Some(
            Opcode::Continuation
            | Opcode::Close
            | Opcode::Ping
            | Opcode::Pong
            | Opcode::Reserved(_),
        )
        | None => false,
    }
}

/// Whether a frame, if there is one, is a data frame.
fn is_data(kind: Option<Opcode>) -> bool
    ensures none { kind ≡ None → result ≡ false }
    ensures some { (under_way : Opcode) (number : ℕ) → kind ≡ Some under_way → IsOpcode under_way number
        → IsTrue result ↔ (number < 8) }
{
    match kind {
        Some(Opcode::Continuation | Opcode::Text | Opcode::Binary) => true,
        Some(Opcode::Reserved(number)) => number < 8,
        Some(Opcode::Close | Opcode::Ping | Opcode::Pong) | None => false,
    }
}
