//! Whether a close of which the last bytes are missing can still be one that breaks no rule (RFC 6455 sections 5.5.1,
//! 7.4 and 8.1).

ghost use Rattle.std.specs.Prelude.{◌≡◌, ◌↔◌, ◌+◌, ◌<◌, ◌≤◌, length, IsTrue, Some};
ghost use Rattle.ws_wire.specs.Masking.{masked_payload};
ghost use Rattle.ws_session.specs.InnerDoomed.{CanEndClose, CanEndText};
ghost use Rattle.ws_suite.specs.Marks.{IsPartOfClose, payload_so_far};

use ws_text::{ControlBytes, MAX_CONTROL_PAYLOAD, Utf8Stream, code_allowed, code_may_begin};
use ws_wire::{Role, mask};

/// Whether a close of so many bytes, which comes to an end of this role and of which these bytes are behind the first
/// two, isn't doomed.
pub(super) fn is_part_of_close(role: Role, len: usize, more: &[u8]) -> bool
    requires { len ≤ 125 }
    ensures { IsTrue result ↔ IsPartOfClose (payload_so_far role more.now) len }
{
    if len == 0 {
        return true;
    }
    if came(role, more) >= len {
        return false;
    }
    let room = payload_so_far(role, more);
    let payload = room.as_slice();
    close_can_end(payload, len - payload.len())
}

/// How many bytes of the payload came.
fn came(role: Role, more: &[u8]) -> usize
    ensures { result ≡ length (payload_so_far role more.now) }
{
    match role {
        Role::Client => more.len(),
        Role::Server => more.len().saturating_sub(4),
    }
}

/// The payload so far, without its mask.
fn payload_so_far(role: Role, more: &[u8]) -> ControlBytes
    requires { length (payload_so_far role more.now) ≤ 125 }
    ensures { result ≡ payload_so_far role more.now }
{
    match role {
        Role::Client => ControlBytes::of(more),
        Role::Server => match more {
            [a, b, c, d, masked @ ..] => unmasked([*a, *b, *c, *d], masked),
            _ => ControlBytes::new(),
        },
    }
}

/// Bytes of a control frame without this mask.
fn unmasked(key: [u8; 4], masked: &[u8]) -> ControlBytes
    requires { length masked.now ≤ 125 }
    ensures { result ≡ masked_payload (Some key) masked.now }
{
    let mut room = [0; MAX_CONTROL_PAYLOAD];
    let (part, _) = room.split_at_mut(masked.len());
    part.copy_from_slice(masked);
    mask(key, 0, part);
    ControlBytes::of(part)
}

/// Whether so many more bytes, one at least, can make a close payload of these.
fn close_can_end(payload: &[u8], left: usize) -> bool
    requires some { 0 < left }
    requires short { length payload.now + left ≤ 125 }
    ensures { IsTrue result ↔ CanEndClose payload.now left }
{
    match payload {
        [] => left >= 2,
        [high] => code_may_begin(*high),
        [high, low, reason @ ..] => {
            if !code_allowed(u16::from_be_bytes([*high, *low])) {
                return false;
            }
            text_can_end(reason, left)
        }
    }
}

/// Whether so many more bytes can make a text of these.
fn text_can_end(bytes: &[u8], left: usize) -> bool
    ensures { IsTrue result ↔ CanEndText bytes.now left }
{
    let mut text = Utf8Stream::new();
    match text.push(bytes) {
        Ok(()) => text.wanted() <= left,
        Err(_) => false,
    }
}
