//! What was wrong in what came: where its first fault is, the bytes that show it, and the first bytes behind a close.

ghost use Rattle.std.specs.Prelude.{◌≡◌, ◌++◌, ℕ, IfOk, List, drop, length, take};
ghost use Rattle.std.specs.List.{concat};
ghost use Rattle.ws_wire.specs.declared.role.Role.{Role};
ghost use Rattle.ws_wire.specs.Frame.{stream_bytes};
ghost use Rattle.ws_wire.specs.Header.{HeaderFields, IsHeader, header_bytes};
ghost use Rattle.ws_session.specs.Faults.{IsFirstFault};
ghost use Rattle.ws_session.specs.InnerMasked.{masked_from};
ghost use Rattle.ws_session.specs.Sends.{most_limits};
ghost use Rattle.ws_suite.specs.Evidence.{got_turns};
ghost use Rattle.ws_suite.specs.Found.{IsFoundFault, ShowsFound, bytes_shown, is_of_payload};
ghost use Rattle.ws_suite.specs.InnerMarks.{IsSeen};

use crate::evidence::streams::{Seen, StreamEnd};
use std::alloc::Global;
use ws_base::NoMemory;
use ws_scripts::TranscriptRef;
use ws_session::Reason;
use ws_wire::{HeaderRead, mask, read_header};

/// Of a payload, and of what is behind a close, so many bytes are shown.
const SHOWN: usize = 16;

/// No header has more bytes (RFC 6455 section 5.2).
const MOST_OF_HEADER: usize = 14;

/// The first fault of what came.
#[derive(Drop)]
pub struct FoundFault {
    /// How many bytes of what came there are up to the one with which it is told.
    pub place: usize,
    /// Where the header of its frame decides it, that header as it came; else the payload of its frame up to the
    /// place, unmasked, of which the last 16 bytes.
    pub bytes: Vec<u8>,
}

/// What was found in the bytes that came.
#[derive(Drop)]
pub struct Found {
    pub fault: Option<FoundFault>,
    /// The first 16 bytes behind the close or the fault, or of a frame that is under way.
    pub behind: Vec<u8>,
}

/// What is found in the bytes that were got, of which this was seen.
pub(crate) fn found_in(
    alloc: Global,
    transcript: &TranscriptRef<'_>,
    seen: Seen,
) -> Result<Found, NoMemory>
    ensures { (role : Role) → IsSeen role (concat (got_turns transcript.now.turns)) seen
        → IfOk result (ShowsFound role (concat (got_turns transcript.now.turns))) }
{
    let fault = fault_in(alloc, transcript, seen)?;
    let behind = got_bytes(alloc, transcript, seen.after, SHOWN)?;
    Ok(Found { fault, behind })
}

/// The first fault, if there is one.
fn fault_in(
    alloc: Global,
    transcript: &TranscriptRef<'_>,
    seen: Seen,
) -> Result<Option<FoundFault>, NoMemory>
    ensures { (role : Role) → IsSeen role (concat (got_turns transcript.now.turns)) seen
        → IfOk result (IsFoundFault role (concat (got_turns transcript.now.turns))) }
{
    match seen.end {
        Some(StreamEnd::Failed(reason)) => {
            let bytes = bytes_of_fault(alloc, transcript, seen, reason)?;
            Ok(Some(FoundFault {
                place: seen.after,
                bytes,
            }))
        }
        Some(StreamEnd::Closed) => Ok(None),
        None => Ok(None),
    }
}

/// The bytes that show a fault.
fn bytes_of_fault(
    alloc: Global,
    transcript: &TranscriptRef<'_>,
    seen: Seen,
    reason: Reason,
) -> Result<Vec<u8>, NoMemory>
    ensures { (role : Role)
        (found : IsFirstFault role most_limits (concat (got_turns transcript.now.turns)) seen.after reason)
        → length (stream_bytes found.fault.before) ≡ seen.last
        → IfOk result (λ bytes. bytes.items ≡ bytes_shown reason found.fault.header found.fault.payload) }
{
    let mut front = got_bytes(alloc, transcript, seen.last, MOST_OF_HEADER)?;
    let head = head_of(front.as_slice());
    if !is_of_payload(reason) {
        front.truncate(head.len);
        return Ok(front);
    }
    let start = seen.last.saturating_add(head.len);
    let skipped = seen.after.saturating_sub(start).saturating_sub(SHOWN);
    let from = start.saturating_add(skipped);
    let mut bytes = got_bytes(alloc, transcript, from, seen.after.saturating_sub(from))?;
    unmask_from(head.key, skipped, bytes.as_mut_slice());
    Ok(bytes)
}

/// How many bytes a header has, and its key.
#[derive(Clone, Copy)]
struct Head {
    len: usize,
    key: Option<[u8; 4]>,
}

/// Those of the header at the front.
fn head_of(bytes: &[u8]) -> Head
    ensures { (header : HeaderFields) (more : List ℕ) → IsHeader header → bytes.now ≡ header_bytes header ++ more
        → (result.len ≡ length (header_bytes header)) × (result.key ≡ header.key) }
{
    match read_header(bytes) {
        HeaderRead::Need => Head { len: 0, key: None },
        HeaderRead::Got { header, used } => Head {
            len: used,
            key: header.key(),
        },
        HeaderRead::BadLength { header, used } => Head {
            len: used,
            key: header.key(),
        },
    }
}

/// Whether a reason is one of the payload: others the header decides.
fn is_of_payload(reason: Reason) -> bool
    ensures { result ≡ is_of_payload reason }
{
    match reason {
        Reason::NotText
        | Reason::TextCut
        | Reason::CloseOneByte
        | Reason::CloseCode
        | Reason::CloseReason => true,
        Reason::ReservedBits
        | Reason::Opcode
        | Reason::MaskWrong
        | Reason::NotShortest
        | Reason::BadLength
        | Reason::ControlCut
        | Reason::ControlLong
        | Reason::NothingToContinue
        | Reason::MessageOpen
        | Reason::TooBig
        | Reason::FrameBig => false,
    }
}

/// Unmasks a part of a payload in place, before which so many bytes stand, where there is a key.
fn unmask_from(key: Option<[u8; 4]>, skipped: usize, part: &mut [u8])
    ensures { part.new ≡ masked_from key skipped part.old }
{
    if let Some(key) = key {
        mask(key, skipped % 4, part);
    }
}

/// The bytes that were got from this place on, so many of them at most.
fn got_bytes(
    alloc: Global,
    transcript: &TranscriptRef<'_>,
    place: usize,
    most: usize,
) -> Result<Vec<u8>, NoMemory>
    ensures { IfOk result (λ bytes. bytes.items ≡ take most (drop place (concat (got_turns transcript.now.turns)))) }
{
    let mut bytes = Vec::new(alloc);
    let mut walk = transcript.turns();
    let mut left = place;
    for _number in 0..walk.len() {
        let piece = walk.take_first().got;
        let passed = left.min(piece.len());
        left -= passed;
        put_most(&mut bytes, most, &piece[passed..])?;
    }
    Ok(bytes)
}

/// Puts bytes behind others, until there are so many.
fn put_most(bytes: &mut Vec<u8>, most: usize, more: &[u8]) -> Result<(), NoMemory>
    ensures { (before : List ℕ) → bytes.old.items ≡ take most before
        → IfOk result (λ done. bytes.new.items ≡ take most (before ++ more.now)) }
{
    let wanted = most.saturating_sub(bytes.len());
    let (front, _) = more.split_at(wanted.min(more.len()));
    bytes.extend_from_slice(front)?;
    Ok(())
}
