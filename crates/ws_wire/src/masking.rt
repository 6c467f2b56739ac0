//! Masking of payloads (RFC 6455 section 5.3).

ghost use Rattle.std.specs.Prelude.{◌≡◌, ◌≤◌, ℕ, List, length};
ghost use Rattle.ws_wire.specs.Masking.{masked, IsMasked, AreKeyLanes};

use std::simd::{u8x4, u8x8, u8x16, u8x32};

/// The key of an endpoint that masks nothing: a server puts its frames without one (section 5.1), whatever key it is
/// given.
pub const NO_KEY: [u8; KEY] = [0; KEY];

/// How many bytes are masked at once: a multiple of the key's four, so that each vector begins at
/// the same phase.
const LANES: usize = 32;

/// The same of what is less than those.
const HALF: usize = 16;

/// The same of what is less than those, which is masked without a loop.
const QUARTER: usize = 8;

/// The bytes of a key.
const KEY: usize = 4;

/// Masks or unmasks a part of a payload in place: the two are one. `phase` is the place of its
/// first byte in the payload, modulo 4, so a payload may be masked in parts. `mask_plainly` says the
/// same in a line. It isn't made a part of its callers, where the compiler finds worse instructions for
/// the key's lanes.
#[inline(never)]
pub fn mask(key: [u8; 4], phase: usize, bytes: &mut [u8])
    requires { phase ≤ 3 }
    ensures rule { IsMasked key phase bytes.old bytes.new }
    ensures bytes { bytes.new ≡ masked key phase bytes.old }
{
    let turned = turned_key(key, phase);
    if bytes.len() < HALF {
        mask_few(key, phase, turned, bytes);
        return;
    }
    let lanes = key_lanes(turned);
    let mut at = 0;
    while bytes.len() - at >= LANES {
        mask_lanes(lanes, &mut bytes[at..at + LANES]);
        at += LANES;
    }
    mask_rest(key, phase, turned, &mut bytes[at..]);
}

/// The same, one byte after the other.
pub fn mask_plainly(key: [u8; 4], phase: usize, bytes: &mut [u8])
    requires { phase ≤ 3 }
    ensures rule { IsMasked key phase bytes.old bytes.new }
    ensures bytes { bytes.new ≡ masked key phase bytes.old }
{
    for (i, byte) in bytes.iter_mut().enumerate() {
        *byte ^= key[(phase + i) % 4];
    }
}

/// The same by half as many lanes, of which less than two vectors are left as a rule.
fn mask_rest(key: [u8; 4], phase: usize, turned: u8x4, bytes: &mut [u8])
    requires phase { phase ≤ 3 }
    requires len { length turned ≡ 4 }
    requires turned { AreKeyLanes key phase turned }
    ensures { bytes.new ≡ masked key phase bytes.old }
{
    let lanes = half_key_lanes(turned);
    let mut at = 0;
    while bytes.len() - at >= HALF {
        mask_half_lanes(lanes, &mut bytes[at..at + HALF]);
        at += HALF;
    }
    mask_few(key, phase, turned, &mut bytes[at..]);
}

/// The same of what is as a rule less than half a vector: a quarter of a vector at once, if there are so many, and
/// then the rest.
fn mask_few(key: [u8; 4], phase: usize, turned: u8x4, bytes: &mut [u8])
    requires phase { phase ≤ 3 }
    requires len { length turned ≡ 4 }
    requires turned { AreKeyLanes key phase turned }
    ensures { bytes.new ≡ masked key phase bytes.old }
{
    if bytes.len() < QUARTER {
        mask_fewer(key, phase, turned, bytes);
        return;
    }
    mask_quarter_lanes(quarter_key_lanes(turned), &mut bytes[..QUARTER]);
    mask_fewer(key, phase, turned, &mut bytes[QUARTER..]);
}

/// The same of what is as a rule less than that: a key's bytes at once, if there are so many, and what is less one
/// byte after the other.
fn mask_fewer(key: [u8; 4], phase: usize, turned: u8x4, bytes: &mut [u8])
    requires phase { phase ≤ 3 }
    requires len { length turned ≡ 4 }
    requires turned { AreKeyLanes key phase turned }
    ensures { bytes.new ≡ masked key phase bytes.old }
{
    if bytes.len() < KEY {
        mask_plainly(key, phase, bytes);
        return;
    }
    mask_by_key(turned, &mut bytes[..KEY]);
    mask_plainly(key, phase, &mut bytes[KEY..]);
}

/// The key's bytes, turned to the phase of the first one.
fn turned_key(key: [u8; 4], phase: usize) -> u8x4
    requires { phase ≤ 3 }
    ensures len { length result ≡ 4 }
    ensures lanes { AreKeyLanes key phase result }
{
    // Where a payload begins the key stands as it is, and is loaded as one word.
    if phase == 0 {
        return u8x4::from_slice(&key);
    }
    u8x4::from_array([
        key[phase],
        key[(phase + 1) % 4],
        key[(phase + 2) % 4],
        key[(phase + 3) % 4],
    ])
}

/// Masks as many bytes as a key has.
fn mask_by_key(turned: u8x4, bytes: &mut [u8])
    requires lanes { length turned ≡ 4 }
    requires bytes { length bytes.old ≡ 4 }
    ensures { (key : List ℕ) (phase : ℕ) → AreKeyLanes key phase turned → bytes.new ≡ masked key phase bytes.old }
{
    let masked = u8x4::from_slice(bytes) ^ turned;
    masked.copy_to_slice(bytes);
}

/// The bytes of a turned key over a vector.
fn key_lanes(turned: u8x4) -> u8x32
    requires { length turned ≡ 4 }
    ensures len { length result ≡ 32 }
    ensures lanes { (key : List ℕ) (phase : ℕ) → AreKeyLanes key phase turned → AreKeyLanes key phase result }
{
    turned.swizzle([
        0, 1, 2, 3, 0, 1, 2, 3, 0, 1, 2, 3, 0, 1, 2, 3, 0, 1, 2, 3, 0, 1, 2, 3, 0, 1, 2, 3, 0, 1,
        2, 3,
    ])
}

/// The bytes of a turned key over half a vector.
fn half_key_lanes(turned: u8x4) -> u8x16
    requires { length turned ≡ 4 }
    ensures len { length result ≡ 16 }
    ensures lanes { (key : List ℕ) (phase : ℕ) → AreKeyLanes key phase turned → AreKeyLanes key phase result }
{
    turned.swizzle([0, 1, 2, 3, 0, 1, 2, 3, 0, 1, 2, 3, 0, 1, 2, 3])
}

/// The bytes of a turned key over a quarter of a vector.
fn quarter_key_lanes(turned: u8x4) -> u8x8
    requires { length turned ≡ 4 }
    ensures len { length result ≡ 8 }
    ensures lanes { (key : List ℕ) (phase : ℕ) → AreKeyLanes key phase turned → AreKeyLanes key phase result }
{
    turned.swizzle([0, 1, 2, 3, 0, 1, 2, 3])
}

/// Masks as many bytes as a quarter of a vector has.
fn mask_quarter_lanes(lanes: u8x8, bytes: &mut [u8])
    requires lanes { length lanes ≡ 8 }
    requires bytes { length bytes.old ≡ 8 }
    ensures { (key : List ℕ) (phase : ℕ) → AreKeyLanes key phase lanes → bytes.new ≡ masked key phase bytes.old }
{
    let masked = u8x8::from_slice(bytes) ^ lanes;
    masked.copy_to_slice(bytes);
}

/// Masks as many bytes as half a vector has.
fn mask_half_lanes(lanes: u8x16, bytes: &mut [u8])
    requires lanes { length lanes ≡ 16 }
    requires bytes { length bytes.old ≡ 16 }
    ensures { (key : List ℕ) (phase : ℕ) → AreKeyLanes key phase lanes → bytes.new ≡ masked key phase bytes.old }
{
    let masked = u8x16::from_slice(bytes) ^ lanes;
    masked.copy_to_slice(bytes);
}

/// Masks as many bytes as a vector has.
fn mask_lanes(lanes: u8x32, bytes: &mut [u8])
    requires lanes { length lanes ≡ 32 }
    requires bytes { length bytes.old ≡ 32 }
    ensures { (key : List ℕ) (phase : ℕ) → AreKeyLanes key phase lanes → bytes.new ≡ masked key phase bytes.old }
{
    let masked = u8x32::from_slice(bytes) ^ lanes;
    masked.copy_to_slice(bytes);
}
