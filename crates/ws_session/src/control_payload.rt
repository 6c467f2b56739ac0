//! The payload of a control frame (RFC 6455 section 5.5).

ghost use Rattle.std.specs.Prelude.{◌≡◌, ◌≤◌, ◌+◌, ◌++◌, ◌∷◌, [], length};
ghost use Rattle.ws_session.specs.InnerMasked.{masked_from};

use std::marker::Model;
use ws_text::{ControlBytes, MAX_CONTROL_PAYLOAD};
use ws_wire::mask;

/// At most 125 bytes, kept in place.
#[derive(Clone, Copy)]
pub struct Small {
    bytes: ControlBytes,
}

impl Model for Small {
    ghost use Rattle.std.specs.Prelude.{◌≤◌, length, List, ℕ};

    ghost Value = { List ℕ };

    ghost view = { λ s. s.bytes };

    ghost invariant = { λ s. length s.bytes ≤ 125 };

    ghost inverse = { λ v. record { bytes = v } };
}

impl Small {
    /// The bytes as a slice.
    pub fn as_slice(&self) -> &[u8]
        ensures bytes { result.now ≡ self.now }
        ensures bound { length result.now ≤ 125 }
    {
        self.bytes.as_slice()
    }

    /// These bytes, kept in place.
    pub(crate) fn of(bytes: &[u8]) -> Small
        requires { length bytes.now ≤ 125 }
        ensures { result ≡ bytes.now }
    {
        Small {
            bytes: ControlBytes::of(bytes),
        }
    }

    /// These bytes one after the other, kept in place.
    pub(crate) fn joined(front: &[u8], back: &[u8]) -> Small
        requires { length front.now + length back.now ≤ 125 }
        ensures { result ≡ front.now ++ back.now }
    {
        let mut bytes = ControlBytes::of(front);
        bytes.push(back);
        Small { bytes }
    }

    /// More bytes come after these.
    pub(crate) fn push(&mut self, more: &[u8])
        requires { length self.old + length more.now ≤ 125 }
        ensures { self.new ≡ self.old ++ more.now }
    {
        self.bytes.push(more);
    }

    /// The first bytes of a payload, unmasked.
    pub(crate) fn unmasked(key: Option<[u8; 4]>, bytes: &[u8]) -> Small
        requires { length bytes.now ≤ 125 }
        ensures { result ≡ masked_from key 0 bytes.now }
    {
        let mut room = [0; MAX_CONTROL_PAYLOAD];
        let (part, _) = room.split_at_mut(bytes.len());
        part.copy_from_slice(bytes);
        unmask(key, 0, part);
        Small::of(part)
    }

    /// A payload of which these bytes came before, unmasked, and these are the others.
    pub(crate) fn whole(before: &[u8], key: Option<[u8; 4]>, more: &[u8]) -> Small
        requires { length before.now + length more.now ≤ 125 }
        ensures { result ≡ before.now ++ masked_from key (length before.now) more.now }
    {
        let mut payload = Small::of(before);
        payload.push_masked(key, more);
        payload
    }

    /// More bytes of the payload that these begin come after them, unmasked.
    pub(crate) fn push_masked(&mut self, key: Option<[u8; 4]>, more: &[u8])
        requires { length self.old + length more.now ≤ 125 }
        ensures { self.new ≡ self.old ++ masked_from key (length self.old) more.now }
    {
        let len = self.bytes.len();
        if let [byte] = more {
            self.bytes.push(&[unmasked(key, len, *byte)]);
            return;
        }
        let mut room = [0; MAX_CONTROL_PAYLOAD];
        let (part, _) = room.split_at_mut(more.len());
        part.copy_from_slice(more);
        unmask(key, len % 4, part);
        self.bytes.push(part);
    }
}

/// Unmasks a part of a payload in place, where there is a key. `phase` is the place of its first byte in the payload,
/// modulo 4.
pub(crate) fn unmask(key: Option<[u8; 4]>, phase: usize, part: &mut [u8])
    requires { phase ≤ 3 }
    ensures { part.new ≡ masked_from key phase part.old }
{
    if let Some(key) = key {
        mask(key, phase, part);
    }
}

/// The byte of a payload that has this place in it, unmasked.
pub(crate) fn unmasked(key: Option<[u8; 4]>, place: usize, byte: u8) -> u8
    ensures { result ∷ [] ≡ masked_from key place (byte ∷ []) }
{
    match key {
        None => byte,
        Some(key) => byte ^ key[place % 4],
    }
}
