//! The writer of hexadecimal digits, two a byte, by vectors.

ghost use Rattle.std.specs.Prelude.{◌≡◌, ◌*◌, ◌≤◌, ◌<◌, ℕ, length, false, slice_index};
ghost use Rattle.std.specs.Fmt.{digit_glyph};
ghost use Rattle.ws_formats.specs.Reading.{ArePairs};

use std::simd::prelude::*;

/// How many bytes are written as digits at once.
const LANES: usize = 16;

/// The digits, each at the place of its value.
const DIGITS: [u8; 16] = *b"0123456789abcdef";

/// The digits of sixteen bytes, two a byte, that of the high half first.
#[inline(always)]
pub fn digits_of(bytes: u8x16) -> u8x32
    requires { length bytes ≡ 16 }
    ensures pairs { ArePairs bytes result }
    ensures len { length result ≡ 32 }
{
    let high = look_up(bytes >> u8x16::splat(4));
    let low = look_up(bytes & u8x16::splat(15));
    high.shuffle(
        low,
        [
            0, 16, 1, 17, 2, 18, 3, 19, 4, 20, 5, 21, 6, 22, 7, 23, 8, 24, 9, 25, 10, 26, 11, 27,
            12, 28, 13, 29, 14, 30, 15, 31,
        ],
    )
}

/// The digits of half bytes.
#[inline(always)]
fn look_up(halves: u8x16) -> u8x16
    requires len { length halves ≡ 16 }
    requires small { (i : ℕ) → i < 16 → slice_index halves i < 16 }
    ensures len { length result ≡ 16 }
    ensures digits { (i : ℕ) → i < 16 → slice_index result i ≡ digit_glyph false (slice_index halves i) }
{
    u8x16::from_array(DIGITS).swizzle_dyn(halves)
}

/// Puts the digits of bytes into room of their number.
pub fn put_digits(bytes: &[u8], digits: &mut [u8])
    requires { length digits.old ≡ 2 * length bytes.now }
    ensures { ArePairs bytes.now digits.new }
{
    let mut at = 0;
    while bytes.len() - at >= LANES {
        put_sixteen_digits(
            &bytes[at..at + LANES],
            &mut digits[2 * at..2 * at + 2 * LANES],
        );
        at += LANES;
    }
    put_last_digits(&bytes[at..], &mut digits[2 * at..]);
}

/// The same of sixteen bytes.
#[inline(always)]
fn put_sixteen_digits(bytes: &[u8], digits: &mut [u8])
    requires sixteen { length bytes.now ≡ 16 }
    requires room { length digits.old ≡ 32 }
    ensures { ArePairs bytes.now digits.new }
{
    digits_of(u8x16::from_slice(bytes)).copy_to_slice(digits);
}

/// The same of less than a vector. The digits of what stands behind it there are left out.
fn put_last_digits(bytes: &[u8], digits: &mut [u8])
    requires few { length bytes.now ≤ 16 }
    requires room { length digits.old ≡ 2 * length bytes.now }
    ensures { ArePairs bytes.now digits.new }
{
    let mut block = [0; LANES];
    block[..bytes.len()].copy_from_slice(bytes);
    let all = digits_of(u8x16::from_array(block)).to_array();
    digits.copy_from_slice(&all[..2 * bytes.len()]);
}
