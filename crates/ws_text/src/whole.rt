//! How much of a piece is whole characters: the bulk of it, checked by `simdutf8`, or by `std` where it is short.

ghost use Rattle.std.specs.Prelude.{◌≡◌, ◌≤◌, ◌<◌, ◌↔◌, ℕ, IsTrue, drop, length, take};
ghost use Rattle.std.specs.Str.{IsAscii};
ghost use Rattle.ws_text.specs.Text.{IsText};

use std::simd::Simd;
use std::simd::prelude::*;

/// The most bytes that are read one by one: to do so takes less than to look for their whole characters.
pub(crate) const HANDFUL: usize = 3;

/// How many bytes are looked at at once.
pub(crate) const LANES: usize = 64;

/// How many in a piece of fewer than `LANES`.
const FEWER_LANES: usize = 16;

/// How many in a piece of fewer than `FEWER_LANES`.
const FEW_LANES: usize = 8;

/// How many in a piece of fewer than `FEW_LANES`.
const LEAST_LANES: usize = 4;

/// The most bytes of a short piece. A longer one `simdutf8` looks at by vectors of its own.
const SHORT: usize = 256;

/// How many bytes at the front are a text: all whole characters before the first fault.
pub(crate) fn valid_prefix(bytes: &[u8]) -> usize
    ensures within { result ≤ length bytes.now }
    ensures text { IsText (take result bytes.now) }
{
    let front = &bytes[..last_start(bytes)];
    if front.len() < LANES {
        return few_valid(front);
    }
    match simdutf8::compat::from_utf8(front) {
        Ok(text) => text.len(),
        Err(error) => error.valid_up_to(),
    }
}

/// The same of less than a vector, which `simdutf8` leaves to `std` after some steps of its own: no longer front is a
/// text.
fn few_valid(bytes: &[u8]) -> usize
    ensures within { result ≤ length bytes.now }
    ensures text { IsText (take result bytes.now) }
    ensures longest { (len : ℕ) → len ≤ length bytes.now → IsText (take len bytes.now) → len ≤ result }
{
    match std::str::from_utf8(bytes) {
        Ok(text) => text.len(),
        Err(error) => error.valid_up_to(),
    }
}

/// The same of few bytes whose front is known to be ASCII: what is behind it is read alone. Of a handful none is read.
pub(crate) fn valid_behind(bytes: &[u8], ascii: usize) -> usize
    requires within { ascii ≤ length bytes.now }
    requires front { IsAscii (take ascii bytes.now) }
    ensures within { result ≤ length bytes.now }
    ensures text { IsText (take result bytes.now) }
    ensures longest { 3 < length (drop ascii bytes.now)
        → (len : ℕ) → len ≤ length bytes.now → IsText (take len bytes.now) → len ≤ result }
{
    let rest = &bytes[ascii..];
    if rest.len() <= HANDFUL {
        return ascii;
    }
    ascii + few_valid(rest)
}

/// Where the last character begins, if bytes of it are missing; else the number of bytes. What stands
/// before it is a text wherever the bytes begin one, and so it is read once.
fn last_start(bytes: &[u8]) -> usize
    ensures { result ≤ length bytes.now }
{
    match bytes {
        [.., 0xc0..=0xff] => bytes.len() - 1,
        [.., 0xe0..=0xff, _] => bytes.len() - 2,
        [.., 0xf0..=0xff, _, _] => bytes.len() - 3,
        _ => bytes.len(),
    }
}

/// Whether it is a short piece and ASCII, as many a text is: told without what `simdutf8` sets up for any text.
pub(crate) fn is_short_ascii(bytes: &[u8]) -> bool
    requires { 64 ≤ length bytes.now }
    ensures ascii { IsTrue result → IsAscii bytes.now }
    ensures short { IsAscii bytes.now → length bytes.now ≤ 256 → IsTrue result }
{
    bytes.len() <= SHORT && ascii_by::<LANES>(bytes) == bytes.len()
}

/// How many bytes at the front of few were seen to be ASCII: all, or those of the vectors before the first that isn't.
/// Less than the narrowest vector is looked at byte by byte. It stands apart, so that what is made a part of the
/// callers stays small.
#[inline(never)]
pub(crate) fn few_ascii(bytes: &[u8]) -> usize
    ensures within { result ≤ length bytes.now }
    ensures ascii { IsAscii (take result bytes.now) }
    ensures all { IsAscii bytes.now → result ≡ length bytes.now }
{
    if bytes.len() >= FEWER_LANES {
        return ascii_by::<FEWER_LANES>(bytes);
    }
    if bytes.len() >= FEW_LANES {
        return ascii_by::<FEW_LANES>(bytes);
    }
    if bytes.len() >= LEAST_LANES {
        return ascii_by::<LEAST_LANES>(bytes);
    }
    if bytes.is_ascii() { bytes.len() } else { 0 }
}

/// The same by vectors, of which the last begins before the others end.
fn ascii_by<const N: usize>(bytes: &[u8]) -> usize
    requires lanes { (0 < N) × (N ≤ 64) }
    requires enough { N ≤ length bytes.now }
    ensures within { result ≤ length bytes.now }
    ensures ascii { IsAscii (take result bytes.now) }
    ensures all { IsAscii bytes.now → result ≡ length bytes.now }
{
    let mut at = 0;
    while bytes.len() - at > N {
        if !is_ascii(Simd::<u8, N>::from_slice(&bytes[at..])) {
            return at;
        }
        at += N;
    }
    if is_ascii(Simd::<u8, N>::from_slice(&bytes[bytes.len() - N..])) {
        return bytes.len();
    }
    at
}

/// Whether no byte of the vector has its top bit set.
fn is_ascii<const N: usize>(block: Simd<u8, N>) -> bool
    requires { N ≤ 64 }
    ensures { IsTrue result ↔ IsAscii block.entry }
{
    block.simd_ge(Simd::splat(0x80)).to_bitmask() == 0
}
