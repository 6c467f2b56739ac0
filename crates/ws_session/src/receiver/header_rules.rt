//! The rules of a header after the open message, told at its last byte (RFC 6455 sections 5.1 to 5.5).

ghost use Rattle.std.specs.Prelude.{◌+◌, ◌<◌, ◌↔◌, IsTrue, length, MatchOption};
ghost use Rattle.ws_session.specs.Faults.{open_payload, AppliesAtHeader};
ghost use Rattle.ws_session.specs.InnerChecking.{NoneAtHeader, IsFirstAtHeader};

use crate::limits::Limits;
use crate::reason::Reason;
use crate::receiver::assembly::Assembly;
use crate::receiver::header_kind::{
    begins_message, continues_message, is_control, is_data, is_reserved,
};
use ws_text::MAX_CONTROL_PAYLOAD;
use ws_wire::{Header, Role};

/// The reasons of a header, in the order in which they are told.
const HEADER_REASONS: [Reason; 11] = [
    Reason::ReservedBits,
    Reason::Opcode,
    Reason::MaskWrong,
    Reason::NotShortest,
    Reason::BadLength,
    Reason::ControlCut,
    Reason::ControlLong,
    Reason::NothingToContinue,
    Reason::MessageOpen,
    Reason::TooBig,
    Reason::FrameBig,
];

/// The first length that may not be written: its top bit is set.
const BAD_LENGTH: u64 = 1 << 63;

/// The lowest reason that applies at the end of a header.
#[inline(always)]
pub(super) fn reason_at_header(
    role: Role,
    limits: Limits,
    assembly: &Assembly,
    header: &Header,
) -> Option<Reason>
    ensures { MatchOption result (NoneAtHeader role limits assembly.now.opened header.now)
        (IsFirstAtHeader role limits assembly.now.opened header.now) }
{
    if is_fine(role, limits, assembly, header) {
        return None;
    }
    first_reason(role, limits, assembly, header)
}

/// The same, told by going through the reasons one by one.
#[cold]
#[inline(never)]
fn first_reason(role: Role, limits: Limits, assembly: &Assembly, header: &Header) -> Option<Reason>
    ensures { MatchOption result (NoneAtHeader role limits assembly.now.opened header.now)
        (IsFirstAtHeader role limits assembly.now.opened header.now) }
{
    for reason in HEADER_REASONS {
        if applies(role, limits, assembly, header, reason) {
            return Some(reason);
        }
    }
    None
}

/// Whether no reason applies to the header, as to most: told without going through the reasons one by one.
#[inline(always)]
pub(super) fn is_fine(role: Role, limits: Limits, assembly: &Assembly, header: &Header) -> bool
    ensures { IsTrue result → NoneAtHeader role limits assembly.now.opened header.now }
{
    let breaks = applies(role, limits, assembly, header, Reason::ReservedBits)
        || applies(role, limits, assembly, header, Reason::MaskWrong)
        || applies(role, limits, assembly, header, Reason::NotShortest)
        || applies(role, limits, assembly, header, Reason::BadLength);
    if breaks {
        return false;
    }
    if is_data(header) {
        return !applies(role, limits, assembly, header, Reason::NothingToContinue)
            && !applies(role, limits, assembly, header, Reason::MessageOpen)
            && !applies(role, limits, assembly, header, Reason::TooBig)
            && !applies(role, limits, assembly, header, Reason::FrameBig);
    }
    is_control(header)
        && !applies(role, limits, assembly, header, Reason::ControlCut)
        && !applies(role, limits, assembly, header, Reason::ControlLong)
}

/// Whether the reason applies at the end of the header. The reasons of a payload never do.
#[inline(always)]
fn applies(role: Role, limits: Limits, assembly: &Assembly, header: &Header, reason: Reason) -> bool
    ensures { IsTrue result ↔ AppliesAtHeader role limits assembly.now.opened header.now reason }
{
    match reason {
        Reason::ReservedBits => header.rsv() != 0,
        Reason::Opcode => is_reserved(header),
        Reason::MaskWrong => header.key().is_some() != (role == Role::Server),
        Reason::NotShortest => header.is_longer_than_needed(),
        Reason::BadLength => header.payload_len() >= BAD_LENGTH,
        Reason::ControlCut => is_control(header) && !header.fin(),
        Reason::ControlLong => is_control(header)
            && header.payload_len() > MAX_CONTROL_PAYLOAD as u64,
        Reason::NothingToContinue => continues_message(header) && !assembly.is_open(),
        Reason::MessageOpen => begins_message(header) && assembly.is_open(),
        Reason::TooBig => is_data(header) && is_too_big(limits, assembly, header),
        Reason::FrameBig => {
            is_data(header) && header.payload_len() > u64::from(limits.max_frame())
        }
        Reason::NotText
        | Reason::TextCut
        | Reason::CloseOneByte
        | Reason::CloseCode
        | Reason::CloseReason => false,
    }
}

/// Whether the frame takes the open message above the limit.
fn is_too_big(limits: Limits, assembly: &Assembly, header: &Header) -> bool
    ensures { IsTrue result ↔ (limits.max_message < length (open_payload assembly.now.opened) + header.now.len) }
{
    let limit = u64::from(limits.max_message());
    let open = assembly.open_len() as u64;
    open > limit || header.payload_len() > limit - open
}
