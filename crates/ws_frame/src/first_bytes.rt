//! The first bytes of a header or of a payload, kept in place.

ghost use Rattle.std.specs.Prelude.{◌≡◌, ◌≤◌, [], ◌++◌, length, take};
ghost use Rattle.ws_wire.specs.Masking.{masked, AreKeyLanes};

use std::marker::Model;
use std::simd::{u8x4, u8x16};

/// How many bytes of a payload a line shows at most. A header has fewer.
pub(crate) const SHOWN: usize = 16;

/// The first bytes of some, at most sixteen: contracts see the list of them.
#[derive(Drop)]
pub(crate) struct FirstBytes {
    bytes: [u8; SHOWN],
    len: usize,
}

impl Model for FirstBytes {
    ghost use Rattle.std.specs.Prelude.{List, ℕ, take, ◌≤◌};

    ghost Value = { List ℕ };

    ghost view = { λ first. take first.len first.bytes };

    ghost invariant = { λ first. first.len ≤ 16 };
}

impl FirstBytes {
    /// None yet.
    pub(crate) fn new() -> FirstBytes
        ensures { result ≡ [] }
    {
        FirstBytes {
            bytes: [0; SHOWN],
            len: 0,
        }
    }

    /// The first of so many bytes at the front of some. Sixteen are copied where there are as many, whatever the count,
    /// since a copy of a size that is known takes no call.
    #[inline(always)]
    pub(crate) fn of_front(bytes: &[u8], count: usize) -> FirstBytes
        requires { count ≤ length bytes.now }
        ensures { result ≡ take 16 (take count bytes.now) }
    {
        if bytes.len() >= SHOWN {
            let mut block = [0; SHOWN];
            block.copy_from_slice(&bytes[..SHOWN]);
            return FirstBytes {
                bytes: block,
                len: count.min(SHOWN),
            };
        }
        let mut first = FirstBytes::new();
        first.push(&bytes[..count]);
        first
    }

    /// How many there are.
    pub(crate) fn len(&self) -> usize
        ensures count { result ≡ length self.now }
        ensures bound { result ≤ 16 }
    {
        self.len
    }

    /// The bytes as a slice.
    pub(crate) fn as_slice(&self) -> &[u8]
        ensures bytes { result.now ≡ self.now }
        ensures bound { length result.now ≤ 16 }
    {
        &self.bytes[..self.len]
    }

    /// The bytes, and behind them any others up to sixteen.
    #[inline(always)]
    pub(crate) fn lanes(&self) -> u8x16
        ensures front { take (length self.now) result ≡ self.now }
        ensures len { length result ≡ 16 }
    {
        u8x16::from_array(self.bytes)
    }

    /// More bytes come: the first sixteen of all are kept.
    pub(crate) fn push(&mut self, more: &[u8])
        ensures { self.new ≡ take 16 (self.old ++ more.now) }
    {
        let count = more.len().min(SHOWN - self.len);
        let end = self.len + count;
        self.bytes[self.len..end].copy_from_slice(&more[..count]);
        self.len = end;
    }

    /// Unmasks them, where they are the first of a payload under this key. All sixteen places are unmasked at once.
    #[inline(always)]
    pub(crate) fn unmask(&mut self, key: [u8; 4])
        ensures { self.new ≡ masked key 0 self.old }
    {
        mask_sixteen(key, &mut self.bytes);
    }
}

/// Masks as many bytes as a vector has.
#[inline(always)]
fn mask_sixteen(key: [u8; 4], bytes: &mut [u8])
    requires { length bytes.old ≡ 16 }
    ensures masked { bytes.new ≡ masked key 0 bytes.old }
    ensures len { length bytes.new ≡ 16 }
{
    let masked = u8x16::from_slice(bytes) ^ sixteen_lanes(key);
    masked.copy_to_slice(bytes);
}

/// The bytes of a key over a vector, as they stand over the first bytes of a payload.
#[inline(always)]
pub(crate) fn sixteen_lanes(key: [u8; 4]) -> u8x16
    ensures len { length result ≡ 16 }
    ensures lanes { AreKeyLanes key 0 result }
{
    u8x4::from_slice(&key).swizzle([0, 1, 2, 3, 0, 1, 2, 3, 0, 1, 2, 3, 0, 1, 2, 3])
}
