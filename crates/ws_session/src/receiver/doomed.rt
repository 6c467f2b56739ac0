//! Whether the frame under way is doomed: whatever bytes complete it, it is at fault (RFC 6455 sections 5.1 to 5.5, 7.4
//! and 8.1).
//!
//! What came of it broke no rule, so what is asked is whether some right frame begins so. A header that isn't whole is
//! completed by the one that breaks a rule only where each does, and a payload by zeros, behind the bytes that its code
//! or its text still wants.

ghost use Rattle.std.specs.Prelude.{◌≡◌, ◌↔◌, ◌+◌, ◌≤◌, ◌<◌, ℕ, List, length, IsTrue};
ghost use Rattle.ws_wire.specs.Reading.{BeginsNoHeader};
ghost use Rattle.ws_text.specs.Stream.{HasReadText, IsWanted};
ghost use Rattle.ws_session.specs.declared.receiver.under_way.UnderWay.TheVariants.{Data, Control};
ghost use Rattle.ws_session.specs.Limits.{LimitsValue};
ghost use Rattle.ws_session.specs.Faults.{IsControl};
ghost use Rattle.ws_session.specs.Doomed.{CanBeRight, IsDoomed};
ghost use Rattle.ws_session.specs.InnerAssembly.{HasReadOpen};
ghost use Rattle.ws_session.specs.InnerReceiving.{AssemblyValue, IsUnderWay, partial_of};
ghost use Rattle.ws_session.specs.InnerDoomed.{EndsText, CanEndText, CanEndClose};
ghost use Rattle.ws_wire.specs.declared.role.Role.{Role};

use crate::limits::Limits;
use crate::receiver::Receiver;
use crate::receiver::assembly::Assembly;
use crate::receiver::data_payload::is_of_text;
use crate::receiver::header_kind::is_close;
use crate::receiver::header_rules::reason_at_header;
use crate::receiver::least_header::least_header;
use crate::receiver::under_way::UnderWay;
use ws_text::{Utf8Stream, code_allowed, code_may_begin};
use ws_wire::{Header, Role};

impl Receiver {
    /// Whether a frame has begun to come that is at fault whatever bytes complete it.
    pub(crate) fn is_doomed(&self) -> bool
        ensures { IsTrue result
            ↔ IsDoomed self.now.role self.now.limits self.now.opened self.now.partial_frame }
    {
        match &self.frame {
            UnderWay::Header(start) => {
                if start.as_slice().is_empty() {
                    return false;
                }
                !start_can_be_right(self.role, self.limits, &self.assembly, start.as_slice())
            }
            UnderWay::Data { header, came } => !data_can_be_right(&self.assembly, header, *came),
            UnderWay::Control { header, payload } => {
                !control_can_be_right(header, payload.as_slice())
            }
        }
    }
}

/// Whether some right frame has a header that begins with these bytes. One byte leaves the length open, so that a close
/// frame can do without a payload.
fn start_can_be_right(role: Role, limits: Limits, assembly: &Assembly, start: &[u8]) -> bool
    requires begun { 0 < length start.now }
    requires unfinished { BeginsNoHeader start.now }
    requires read { HasReadOpen assembly.now.opened assembly.now.text }
    ensures { IsTrue result ↔ CanBeRight role limits assembly.now.opened start.now }
{
    let first = least_header(role, start, 0);
    let wanted = wanted_at_end(assembly, &first);
    let header = least_header(role, start, wanted as u8);
    if let Some(_) = reason_at_header(role, limits, assembly, &header) {
        return false;
    }
    if header.payload_len() < wanted as u64 {
        return false;
    }
    !is_half_code(&header) || start.len() == 1
}

/// Whether the frame is a close whose payload is half a code.
fn is_half_code(header: &Header) -> bool
    ensures { IsTrue result ↔ ((header.now.opcode ≡ 8) × (header.now.len ≡ 1)) }
{
    is_close(header) && header.payload_len() == 1
}

/// Whether some right frame begins with this header and with what came of its payload, so many bytes of a message.
fn data_can_be_right(assembly: &Assembly, header: &Header, came: usize) -> bool
    requires { came ≤ header.now.len }
    ensures { (role : Role) (limits : LimitsValue) → IsUnderWay role limits assembly.now (Data header.now came)
        → (IsTrue result ↔ CanBeRight role limits assembly.now.opened
        (partial_of assembly.now (Data header.now came))) }
{
    wanted_at_end(assembly, header) as u64 <= header.payload_len() - came as u64
}

/// How many more bytes the payload has to have for the text that ends with the frame: none where no text does.
fn wanted_at_end(assembly: &Assembly, header: &Header) -> usize
    ensures wanted { EndsText assembly.now.opened header.now → (text : List ℕ)
        → HasReadText assembly.now.text text → IsWanted text result }
    ensures other { ¬ (EndsText assembly.now.opened header.now) → result ≡ 0 }
    ensures bound { result ≤ 3 }
{
    if header.fin() && is_of_text(assembly, header) {
        return assembly.text().wanted();
    }
    0
}

/// Whether some right frame begins with this header of a control frame and with what came of its payload.
fn control_can_be_right(header: &Header, payload: &[u8]) -> bool
    requires opcode { IsControl header.now }
    requires part { length payload.now < header.now.len }
    requires short { header.now.len ≤ 125 }
    ensures { (role : Role) (limits : LimitsValue) (a : AssemblyValue)
        → IsUnderWay role limits a (Control header.now payload.now)
        → (IsTrue result ↔ CanBeRight role limits a.opened (partial_of a (Control header.now payload.now))) }
{
    if !is_close(header) {
        return true;
    }
    close_can_end(payload, header.payload_len() as usize - payload.len())
}

/// Whether so many more bytes, one at least, can make a close payload of these.
fn close_can_end(payload: &[u8], left: usize) -> bool
    requires some { 0 < left }
    requires short { length payload.now + left ≤ 125 }
    ensures { IsTrue result ↔ CanEndClose payload.now left }
{
    match payload {
        [] => left >= 2,
        [high] => code_may_begin(*high),
        [high, low, reason @ ..] => {
            if !code_allowed(u16::from_be_bytes([*high, *low])) {
                return false;
            }
            text_can_end(reason, left)
        }
    }
}

/// Whether so many more bytes can make a text of these.
fn text_can_end(bytes: &[u8], left: usize) -> bool
    ensures { IsTrue result ↔ CanEndText bytes.now left }
{
    let mut text = Utf8Stream::new();
    match text.push(bytes) {
        Ok(()) => text.wanted() <= left,
        Err(_) => false,
    }
}
