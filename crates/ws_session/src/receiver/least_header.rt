//! The header that completes the first bytes of one and breaks a rule only where each does (RFC 6455 section 5.2).

ghost use Rattle.std.specs.Prelude.{◌≡◌, ℕ, ◌+◌, ◌-◌, ◌%◌, ◌<◌, ◌≤◌, ◌↔◌, ◌++◌, IsTrue, length, take, replicate};
ghost use Rattle.std.specs.Prelude.{slice_index, EachIndex, Option};
ghost use Rattle.std.specs.Int.{w16, w64};
ghost use Rattle.ws_wire.specs.Header.{top_bit};
ghost use Rattle.ws_wire.specs.Reading.{BeginsNoHeader};
ghost use Rattle.ws_session.specs.declared.message.Message.{Message};
ghost use Rattle.ws_session.specs.Limits.{LimitsValue};
ghost use Rattle.ws_session.specs.Faults.{expects_key};
ghost use Rattle.ws_session.specs.LeastHeader.{IsLeastHeader, AreLeastBytes, HasLeastLength};

use crate::receiver::header_end::MAX_HEADER;
use ws_wire::{Header, HeaderRead, Role, laws, read_header};

/// The bit of MASK in the second byte.
const MASK_BIT: u8 = 0x80;

/// The seven bits beside MASK where two length bytes follow, and the least length that is written so: both are 126.
const TWO_BYTES: u8 = 126;

/// The seven bits beside MASK where eight length bytes follow. The least length that is written so is 65536: its sixth
/// byte is 1, and the others are 0.
const EIGHT_BYTES: u8 = 127;

/// The header with the least payload that begins with these bytes, the first ones of a header that isn't whole. Where
/// they leave the length open it is at least `least`, a number of bytes that the shortest form holds.
pub(super) fn least_header(role: Role, start: &[u8], least: u8) -> Header
    requires begun { 0 < length start.now }
    requires unfinished { BeginsNoHeader start.now }
    requires short { least ≤ 125 }
    ensures { (limits : LimitsValue) (opened : Option Message)
        → IsLeastHeader role limits opened start.now least result }
{
    laws::fourteen_bytes_hold_a_header();
    let bytes = least_bytes(role, start, least);
    match read_header(&bytes) {
        HeaderRead::Got { header, used: _ } => header,
        HeaderRead::BadLength { header, used: _ } => header,
        HeaderRead::Need => unreachable!(),
    }
}

/// The bytes, and after them those of the header with the least payload.
fn least_bytes(role: Role, start: &[u8], least: u8) -> [u8; MAX_HEADER]
    requires begun { 0 < length start.now }
    requires room { length start.now < 14 }
    requires short { least ≤ 125 }
    ensures { AreLeastBytes role start.now least result }
{
    if start.len() > 1 {
        return with_least_length(start);
    }
    let mut bytes = zero_filled(start);
    bytes[1] = second_byte(role, least);
    bytes
}

/// The bytes, and after them zeros, but for the length byte that the form asks for where those that came are all zero.
fn with_least_length(start: &[u8]) -> [u8; MAX_HEADER]
    requires two { 2 ≤ length start.now }
    requires room { length start.now < 14 }
    ensures size { length result ≡ 14 }
    ensures front { take (length start.now) result ≡ start.now }
    ensures two_bytes { slice_index start.now 1 % 128 ≡ 126 → HasLeastLength w16 126 start.now result }
    ensures eight_bytes { slice_index start.now 1 % 128 ≡ 127 → HasLeastLength w64 65536 start.now result }
{
    let mut bytes = zero_filled(start);
    if !are_zeros(&start[2..]) {
        return bytes;
    }
    let form = start[1] % MASK_BIT;
    if form == TWO_BYTES && start.len() < 4 {
        bytes[3] = TWO_BYTES;
        return bytes;
    }
    if form == EIGHT_BYTES && start.len() < 8 {
        bytes[7] = 1;
    }
    bytes
}

/// Whether none of the bytes is set.
fn are_zeros(bytes: &[u8]) -> bool
    ensures { IsTrue result ↔ EachIndex bytes.now (λ k. slice_index bytes.now k ≡ 0) }
{
    bytes.iter().all(|byte| *byte == 0)
}

/// The second byte of a header that comes to an endpoint of this role, with a length in the shortest form.
fn second_byte(role: Role, len: u8) -> u8
    requires { len ≤ 125 }
    ensures { result ≡ top_bit (expects_key role) + len }
{
    match role {
        Role::Client => len,
        Role::Server => MASK_BIT + len,
    }
}

/// The bytes, and zeros after them.
fn zero_filled(bytes: &[u8]) -> [u8; MAX_HEADER]
    requires { length bytes.now ≤ 14 }
    ensures { result ≡ bytes.now ++ replicate (14 - length bytes.now) 0 }
{
    let mut filled = [0; MAX_HEADER];
    let (front, _) = filled.split_at_mut(bytes.len());
    front.copy_from_slice(bytes);
    filled
}
