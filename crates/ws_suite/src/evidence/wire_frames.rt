//! Frames as they stand on the wire, one after the other: of what comes behind a close or a fault no session tells
//! (RFC 6455 sections 5.2, 5.5 and 7.4).

ghost use Rattle.std.specs.Prelude.{◌≡◌, ◌↔◌, ◌≤◌, ◌%◌, ◌++◌, nat_le, ℕ, IsTrue, List, MatchOption, false, length};
ghost use Rattle.std.specs.Prelude.{take};
ghost use Rattle.std.specs.Int.{IsInRange};
ghost use Rattle.std.specs.List.{list_any};
ghost use Rattle.ws_wire.specs.Frame.{IsWireFrame, WireFrame, wire_bytes};
ghost use Rattle.ws_wire.specs.Masking.{masked_payload};
ghost use Rattle.ws_wire.specs.Stream.{BeginsNone, SplitsIntoAnyForm};
ghost use Rattle.ws_session.specs.Faults.{expects_key};
ghost use Rattle.ws_suite.specs.InnerMarks.{IsFrameFound, IsFrontFrame, IsPlainControl, IsRightClose, message_end};
ghost use Rattle.ws_suite.specs.Marks.{AreControls, HideFault, HoldsUndefinedCode, IsCutControl, IsRightControl};
ghost use Rattle.ws_suite.specs.Marks.{IsPartOfClose, IsRightPong, IsUndefinedCode, end_message, is_close_frame};
ghost use Rattle.ws_suite.specs.Marks.{payload_so_far};

use crate::evidence::cut_close::is_part_of_close;
use std::str;
use ws_session::Reason;
use ws_text::{CloseFault, ClosePayload, ControlBytes, MAX_CONTROL_PAYLOAD};
use ws_wire::{Header, HeaderRead, Opcode, Role, mask, read_header};

/// A whole frame at the front of some bytes.
#[derive(Clone, Copy)]
pub(super) struct WholeFrame<'a> {
    pub header: Header,
    /// Its payload as it stands on the wire.
    pub payload: &'a [u8],
    /// The bytes behind it.
    pub after: &'a [u8],
}

/// The frame at the front of the bytes, in any form, if it is whole.
pub(super) fn whole_frame(bytes: &[u8]) -> Option<WholeFrame<'_>>
    ensures { MatchOption result (BeginsNone IsWireFrame wire_bytes bytes.now) (IsFrontFrame bytes.now) }
{
    let HeaderRead::Got { header, used } = read_header(bytes) else {
        return None;
    };
    let (_, rest) = bytes.split_at(used);
    let len = header.payload_len();
    if (rest.len() as u64) < len {
        return None;
    }
    let (payload, after) = rest.split_at(len as usize);
    Some(WholeFrame {
        header,
        payload,
        after,
    })
}

/// Whether a fault was sent so that the end that takes it needn't have seen it: the bytes begin with the frame at
/// fault, and that isn't whole; or of a text the last fragment isn't before another message begins, and no close frame
/// is behind it.
pub(super) fn is_late(reason: Reason, bytes: &[u8]) -> bool
    ensures { (frames : List WireFrame) (rest : List ℕ) → SplitsIntoAnyForm bytes.now frames rest
        → IsTrue result ↔ HideFault reason frames }
{
    let Some(frame) = whole_frame(bytes) else {
        return true;
    };
    match reason {
        Reason::NotText => leaves_open(&frame),
        _ => false,
    }
}

/// Whether a frame isn't the last one of its message, nor is one behind it before another message begins, and none of
/// those is a close frame.
fn leaves_open(frame: &WholeFrame<'_>) -> bool
    ensures { (later : List WireFrame) (rest : List ℕ) → SplitsIntoAnyForm frame.now.after.now later rest
        → IsTrue result ↔ ((frame.now.header.fin ≡ false) × (end_message later ≡ false)
        × (list_any is_close_frame later ≡ false)) }
{
    !frame.header.fin() && !ends_message(frame.after) && !holds_close(frame.after)
}

/// Whether among the frames is the last fragment of the message under way, before another one begins.
fn ends_message(bytes: &[u8]) -> bool
    ensures { (frames : List WireFrame) (rest : List ℕ) → SplitsIntoAnyForm bytes.now frames rest
        → result ≡ end_message frames }
{
    let mut rest = bytes;
    while let Some(frame) = whole_frame(rest) {
        if let Some(ends) = message_end(&frame.header) {
            return ends;
        }
        rest = frame.after;
    }
    false
}

/// Whether a frame is the last fragment of the message under way, or begins another one; or neither.
fn message_end(header: &Header) -> Option<bool>
    ensures { (x : WireFrame) → x.header ≡ header.now → result ≡ message_end x }
{
    match header.kind() {
        Opcode::Continuation => { if header.fin() { Some(true) } else { None } }
        Opcode::Text | Opcode::Binary => Some(false),
        Opcode::Close | Opcode::Ping | Opcode::Pong | Opcode::Reserved(_) => None,
    }
}

/// Whether among the frames is a close.
fn holds_close(bytes: &[u8]) -> bool
    ensures { (frames : List WireFrame) (rest : List ℕ) → SplitsIntoAnyForm bytes.now frames rest
        → result ≡ list_any is_close_frame frames }
{
    let mut rest = bytes;
    while let Some(frame) = whole_frame(rest) {
        if is_close(&frame.header) {
            return true;
        }
        rest = frame.after;
    }
    false
}

/// Whether a frame is a close.
fn is_close(header: &Header) -> bool
    ensures { (x : WireFrame) → x.header ≡ header.now → result ≡ is_close_frame x }
{
    match header.kind() {
        Opcode::Close => true,
        Opcode::Continuation
        | Opcode::Text
        | Opcode::Binary
        | Opcode::Ping
        | Opcode::Pong
        | Opcode::Reserved(_) => false,
    }
}

/// Whether the bytes are pings, pongs and closes alone, right ones to an end of this role, the last perhaps cut.
pub(super) fn are_controls(role: Role, bytes: &[u8]) -> bool
    ensures { IsTrue result ↔ AreControls role bytes.now }
{
    let mut rest = bytes;
    while let Some(frame) = whole_frame(rest) {
        if !is_right_control(role, &frame) {
            return false;
        }
        rest = frame.after;
    }
    is_cut_control(role, rest)
}

/// Whether bytes that are no whole frame are nothing, or a part of a close, a ping or a pong that can still be right.
fn is_cut_control(role: Role, rest: &[u8]) -> bool
    ensures { IsTrue result ↔ IsCutControl role rest.now }
{
    match rest {
        [] => true,
        [first] => begins_control(*first),
        [first, second, more @ ..] => begins_control(*first)
            && is_cut_right(role, *first, *second, more),
    }
}

/// Whether the frame that begins so, with one of the first bytes of a control frame, can still be right.
fn is_cut_right(role: Role, first: u8, second: u8, more: &[u8]) -> bool
    ensures { IsTrue result ↔ ((nat_le 128 second ≡ expects_key role) × (second % 128 ≤ 125)
        × (first ≡ 0x88 → IsPartOfClose (payload_so_far role more.now) (second % 128))) }
{
    if (second >= 128) != (role == Role::Server) || second % 128 > 125 {
        return false;
    }
    first != 0x88 || is_part_of_close(role, (second % 128) as usize, more)
}

/// Whether a byte begins a close, a ping or a pong, with FIN and without reserved bits.
fn begins_control(first: u8) -> bool
    ensures { IsTrue result ↔ IsInRange 0x88 0x8a first }
{
    matches!(first, 0x88..=0x8a)
}

/// Whether a frame is a ping, a pong or a close that breaks no rule where it comes to an end of this role.
fn is_right_control(role: Role, frame: &WholeFrame<'_>) -> bool
    ensures { (x : WireFrame) → IsWireFrame x → IsFrameFound x frame.now → IsTrue result ↔ IsRightControl role x }
{
    if !is_plain(role, &frame.header, frame.payload) {
        return false;
    }
    match frame.header.kind() {
        Opcode::Close => is_right_close(frame),
        Opcode::Ping | Opcode::Pong => true,
        Opcode::Continuation | Opcode::Text | Opcode::Binary | Opcode::Reserved(_) => false,
    }
}

/// Whether a frame is a pong that breaks no rule where it comes to an end of this role.
pub(super) fn is_right_pong(role: Role, frame: &WholeFrame<'_>) -> bool
    ensures { (x : WireFrame) → IsWireFrame x → IsFrameFound x frame.now → IsTrue result ↔ IsRightPong role x }
{
    is_pong(&frame.header) && is_right_control(role, frame)
}

/// Whether a frame is a pong.
fn is_pong(header: &Header) -> bool
    ensures { IsTrue result ↔ (header.now.opcode ≡ 10) }
{
    match header.kind() {
        Opcode::Pong => true,
        Opcode::Continuation
        | Opcode::Text
        | Opcode::Binary
        | Opcode::Close
        | Opcode::Ping
        | Opcode::Reserved(_) => false,
    }
}

/// Whether a header breaks no rule but for its opcode, and the payload is as short as that of a control frame.
fn is_plain(role: Role, header: &Header, payload: &[u8]) -> bool
    ensures { IsTrue result ↔ IsPlainControl role header.now payload.now }
{
    header.fin()
        && header.rsv() == 0
        && !header.is_longer_than_needed()
        && header.key().is_some() == (role == Role::Server)
        && payload.len() <= MAX_CONTROL_PAYLOAD
}

/// Whether a close frame says nothing, or what may be said, or has a code that the standard leaves undefined.
fn is_right_close(frame: &WholeFrame<'_>) -> bool
    requires { length frame.now.payload.now ≤ 125 }
    ensures { (x : WireFrame) → IsWireFrame x → IsFrameFound x frame.now → IsTrue result ↔ IsRightClose x.payload }
{
    let room = control_payload(frame);
    let payload = room.as_slice();
    match ClosePayload::read(payload) {
        Ok(_) => true,
        Err(CloseFault::BadCode) => undefined_code_in(payload).is_some(),
        Err(CloseFault::OneByte) => false,
        Err(CloseFault::ReasonNotText) => false,
    }
}

/// The code of the close frame at the front of the bytes, where the standard leaves it undefined and the reason is
/// text.
pub(super) fn undefined_code(bytes: &[u8]) -> Option<u16>
    ensures { (x : WireFrame) (more : List ℕ) → IsWireFrame x → bytes.now ≡ wire_bytes x ++ more
        → length x.payload ≤ 125
        → MatchOption result ((code : ℕ) → HoldsUndefinedCode x.payload code → ⊥) (HoldsUndefinedCode x.payload) }
{
    match whole_frame(bytes) {
        None => None,
        Some(frame) => undefined_code_in(control_payload(&frame).as_slice()),
    }
}

/// The payload of a control frame, without its mask; its first bytes where it has more than a control frame may have.
pub(super) fn control_payload(frame: &WholeFrame<'_>) -> ControlBytes
    ensures payload { (x : WireFrame) → IsWireFrame x → IsFrameFound x frame.now → result ≡ take 125 x.payload }
    ensures short { length result ≤ 125 }
{
    let len = frame.payload.len().min(MAX_CONTROL_PAYLOAD);
    let (front, _) = frame.payload.split_at(len);
    let mut room = [0; MAX_CONTROL_PAYLOAD];
    let (part, _) = room.split_at_mut(len);
    part.copy_from_slice(front);
    unmask(frame.header.key(), part);
    ControlBytes::of(part)
}

/// Unmasks a payload in place, or the first bytes of one, where there is a key.
fn unmask(key: Option<[u8; 4]>, part: &mut [u8])
    ensures { part.new ≡ masked_payload key part.old }
{
    if let Some(key) = key {
        mask(key, 0, part);
    }
}

/// The code in the payload of a close frame, where the standard leaves that undefined and the reason is text.
fn undefined_code_in(payload: &[u8]) -> Option<u16>
    ensures { MatchOption result ((code : ℕ) → HoldsUndefinedCode payload.now code → ⊥)
        (HoldsUndefinedCode payload.now) }
{
    let [high, low, reason @ ..] = payload else {
        return None;
    };
    let code = u16::from_be_bytes([*high, *low]);
    if !is_undefined_code(code) {
        return None;
    }
    match str::from_utf8(reason) {
        Ok(_) => Some(code),
        Err(_) => None,
    }
}

/// Whether the standard leaves a code undefined and forbids nobody to send it: 1004 and 1016 to 2999, which it keeps
/// back (section 7.4.2), and those above 4999, of which it says nothing.
fn is_undefined_code(code: u16) -> bool
    ensures { IsTrue result ↔ IsUndefinedCode code }
{
    matches!(code, 1004 | 1016..=2999 | 5000..=65535)
}
