//! Bytes and masking keys that words spell in lower-case hexadecimal, two digits a byte.

ghost use Rattle.std.specs.Prelude.{◌≡◌, ◌↔◌, ℕ, ◌*◌, ◌≤◌, ◌<◌, ◌/◌, ◌%◌, IsTrue, false, length, slice_index, take};
ghost use Rattle.std.specs.Fmt.{digit_glyph};
ghost use Rattle.ws_formats.specs.Words.{IsHexWord, IsKeyOrDash, IsKeyWord};
ghost use Rattle.ws_formats.specs.Reading.{AreDigits, ArePairs, IsDigit, IsPair, Reads, ReadsInto};
ghost use Rattle.ws_base.specs.Finding.{Finds};

use std::alloc::Global;
use std::simd::Simd;
use std::simd::prelude::*;
use ws_base::{LineFault, Payload};

/// The key that a dash stands for.
const KEY_OF_A_DASH: [u8; 4] = [0; 4];

/// How many digits spell a key.
const KEY_DIGITS: usize = 8;

/// How many digits are looked at at once.
const LANES: usize = 64;

/// How many in a word of fewer than `LANES`.
const FEWER_LANES: usize = 16;

/// How many in a word of fewer than `FEWER_LANES`.
const LEAST_LANES: usize = 8;

/// How many bytes are put in place of their digits at once.
const BLOCK: usize = 256;

/// How many bytes are read from their digits at once.
const MANY: usize = 16;

/// How many where fewer than `MANY` are left.
const FEW: usize = 4;

/// The bytes that a word spells: two digits each, or a dash for none.
pub fn read_hex(alloc: Global, word: &[u8]) -> Result<Payload, LineFault>
    ensures { Reads result (λ bytes. IsHexWord bytes word.now) }
{
    if word == b"-".as_slice() {
        return Ok(Payload::new(alloc));
    }
    // A word that spells nothing is refused before memory is taken.
    if !are_pairs(word) {
        return Err(LineFault::Damaged);
    }
    let Ok(mut bytes) = vec![in alloc; 0u8; word.len() / 2] else {
        return Err(LineFault::NoMemory);
    };
    put_pairs(word, bytes.as_mut_slice());
    Ok(Payload::from_vec(bytes))
}

/// The same, in a room that is used again, in place of what is in it.
pub fn read_hex_into(room: &mut Vec<u8>, word: &[u8]) -> Result<(), LineFault>
    ensures { ReadsInto room.new.items result (λ bytes. IsHexWord bytes word.now) }
{
    if word == b"-".as_slice() {
        room.clear();
        return Ok(());
    }
    if !are_pairs(word) {
        return Err(LineFault::Damaged);
    }
    if room.resize(word.len() / 2, 0).is_err() {
        return Err(LineFault::NoMemory);
    }
    put_pairs(word, room.as_mut_slice());
    Ok(())
}

/// The same, in the room of the word itself.
pub fn read_hex_in_place(word: &mut Vec<u8>) -> Result<(), LineFault>
    ensures { ReadsInto word.new.items result (λ bytes. IsHexWord bytes word.old.items) }
{
    if word.as_slice() == b"-".as_slice() {
        word.clear();
        return Ok(());
    }
    if !are_pairs(word.as_slice()) {
        return Err(LineFault::Damaged);
    }
    let len = word.len() / 2;
    put_pairs_in_front(word.as_mut_slice());
    word.truncate(len);
    Ok(())
}

/// Whether this is pairs of lower-case hexadecimal digits, and one at least.
fn are_pairs(word: &[u8]) -> bool
    ensures { IsTrue result ↔ ((0 < length word.now) × (length word.now % 2 ≡ 0) × AreDigits word.now) }
{
    !word.is_empty() && word.len() % 2 == 0 && are_digits(word)
}

/// Whether all of these are lower-case hexadecimal digits.
pub fn are_digits(word: &[u8]) -> bool
    ensures { IsTrue result ↔ AreDigits word.now }
{
    if word.len() >= LANES {
        return are_digits_by::<LANES>(word);
    }
    if word.len() >= FEWER_LANES {
        return are_digits_by::<FEWER_LANES>(word);
    }
    if word.len() >= LEAST_LANES {
        return are_digits_by::<LEAST_LANES>(word);
    }
    is_block_of_digits(word)
}

/// The same by vectors, of which the last begins before the others end.
fn are_digits_by<const N: usize>(word: &[u8]) -> bool
    requires lanes { (0 < N) × (N ≤ 64) }
    requires enough { N ≤ length word.now }
    ensures { IsTrue result ↔ AreDigits word.now }
{
    let mut at = 0;
    while word.len() - at > N {
        if !are_lanes_digits(Simd::<u8, N>::from_slice(&word[at..])) {
            return false;
        }
        at += N;
    }
    are_lanes_digits(Simd::<u8, N>::from_slice(&word[word.len() - N..]))
}

/// Whether each lane is a digit: at most nine after `0`, or at most five after `a`.
#[inline(always)]
fn are_lanes_digits<const N: usize>(block: Simd<u8, N>) -> bool
    requires { N ≤ 64 }
    ensures { IsTrue result ↔ AreDigits block.entry }
{
    let past_nine = (block - Simd::splat(b'0')).saturating_sub(Simd::splat(9));
    let past_f = (block - Simd::splat(b'a')).saturating_sub(Simd::splat(5));
    past_nine
        .simd_min(past_f)
        .simd_ne(Simd::splat(0))
        .to_bitmask()
        == 0
}

/// The same of less than a vector. It goes to their end, and its tests don't branch.
fn is_block_of_digits(word: &[u8]) -> bool
    ensures { IsTrue result ↔ AreDigits word.now }
{
    let mut wrong: u8 = 0;
    for byte in word {
        wrong = wrong.max(wrong_digit(*byte));
    }
    wrong == 0
}

/// Zero where this is a lower-case hexadecimal digit, and one else.
fn wrong_digit(byte: u8) -> u8
    ensures { (result ≡ 0) ↔ IsDigit byte }
{
    if is_digit(byte) { 0 } else { 1 }
}

/// Whether this is a lower-case hexadecimal digit.
fn is_digit(byte: u8) -> bool
    ensures { IsTrue result ↔ IsDigit byte }
{
    ((b'0' <= byte) & (byte <= b'9')) | ((b'a' <= byte) & (byte <= b'f'))
}

/// Puts the bytes that pairs of digits spell where the first half of the digits is.
fn put_pairs_in_front(digits: &mut [u8])
    requires digits { AreDigits digits.old }
    requires even { length digits.old % 2 ≡ 0 }
    ensures len { length digits.new ≡ length digits.old }
    ensures pairs { ArePairs (take (length digits.old / 2) digits.new) digits.old }
{
    let mut block = [0; BLOCK];
    let len = digits.len() / 2;
    let mut at = 0;
    while at < len {
        let count = BLOCK.min(len - at);
        let bytes = &mut block[..count];
        put_pairs(&digits[2 * at..2 * (at + count)], bytes);
        digits[at..at + count].copy_from_slice(bytes);
        at += count;
    }
}

/// Puts the bytes that pairs of digits spell into room of their number, by vectors as long as they fit.
fn put_pairs(word: &[u8], bytes: &mut [u8])
    requires digits { AreDigits word.now }
    requires room { length word.now ≡ 2 * length bytes.old }
    ensures { ArePairs bytes.new word.now }
{
    let mut at = 0;
    while bytes.len() - at >= MANY {
        put_sixteen(&word[2 * at..2 * at + 2 * MANY], &mut bytes[at..at + MANY]);
        at += MANY;
    }
    put_few_pairs(&word[2 * at..], &mut bytes[at..]);
}

/// The same by shorter vectors.
fn put_few_pairs(word: &[u8], bytes: &mut [u8])
    requires digits { AreDigits word.now }
    requires room { length word.now ≡ 2 * length bytes.old }
    ensures { ArePairs bytes.new word.now }
{
    let mut at = 0;
    while bytes.len() - at >= FEW {
        put_four(&word[2 * at..2 * at + 2 * FEW], &mut bytes[at..at + FEW]);
        at += FEW;
    }
    put_last_pairs(&word[2 * at..], &mut bytes[at..]);
}

/// The same, pair by pair.
fn put_last_pairs(word: &[u8], bytes: &mut [u8])
    requires digits { AreDigits word.now }
    requires room { length word.now ≡ 2 * length bytes.old }
    ensures { ArePairs bytes.new word.now }
{
    'bytes: for i in 0..bytes.len() {
        bytes[i] = value_of(word[2 * i]) * 16 + value_of(word[2 * i + 1]);
    }
}

/// Puts sixteen bytes.
#[inline(always)]
fn put_sixteen(word: &[u8], bytes: &mut [u8])
    requires digits { AreDigits word.now }
    requires pairs { length word.now ≡ 32 }
    requires room { length bytes.old ≡ 16 }
    ensures { ArePairs bytes.new word.now }
{
    let digits = u8x32::from_slice(word);
    let high = digits.swizzle([0, 2, 4, 6, 8, 10, 12, 14, 16, 18, 20, 22, 24, 26, 28, 30]);
    let low = digits.swizzle([1, 3, 5, 7, 9, 11, 13, 15, 17, 19, 21, 23, 25, 27, 29, 31]);
    joined(high, low).copy_to_slice(bytes);
}

/// Puts four bytes.
#[inline(always)]
fn put_four(word: &[u8], bytes: &mut [u8])
    requires digits { AreDigits word.now }
    requires pairs { length word.now ≡ 8 }
    requires room { length bytes.old ≡ 4 }
    ensures { ArePairs bytes.new word.now }
{
    let digits = u8x8::from_slice(word);
    let high = digits.swizzle([0, 2, 4, 6]);
    let low = digits.swizzle([1, 3, 5, 7]);
    joined(high, low).copy_to_slice(bytes);
}

/// The bytes whose first digits are these, and their second digits those.
#[inline(always)]
fn joined<const N: usize>(high: Simd<u8, N>, low: Simd<u8, N>) -> Simd<u8, N>
    requires high { AreDigits high }
    requires low { AreDigits low }
    ensures len { length result ≡ N }
    ensures pairs { (k : ℕ) → k < N →
        IsPair (slice_index result k) (slice_index high.entry k) (slice_index low.entry k) }
{
    lane_values(high) * Simd::splat(16) + lane_values(low)
}

/// The values of digits: for each the lesser of how far it stands behind `0` and how far behind what is ten before `a`.
/// The other of the two is larger, or wraps.
#[inline(always)]
fn lane_values<const N: usize>(digits: Simd<u8, N>) -> Simd<u8, N>
    requires { AreDigits digits }
    ensures len { length result ≡ N }
    ensures small { (k : ℕ) → k < N → slice_index result k < 16 }
    ensures value { (k : ℕ) → k < N →
        digit_glyph false (slice_index result k) ≡ slice_index digits.entry k }
{
    (digits - Simd::splat(b'0')).simd_min(digits - Simd::splat(b'a' - 10))
}

/// The value of a lower-case hexadecimal digit.
fn value_of(digit: u8) -> u8
    requires { IsDigit digit }
    ensures small { result < 16 }
    ensures value { digit_glyph false result ≡ digit }
{
    if digit < b'a' {
        digit - b'0'
    } else {
        digit - b'a' + 10
    }
}

/// The masking key that a word spells: eight digits.
pub fn read_key(word: &[u8]) -> Option<[u8; 4]>
    ensures { Finds result (λ key. IsKeyWord key word.now) }
{
    if word.len() != KEY_DIGITS || !are_digits(word) {
        return None;
    }
    let mut key = [0; 4];
    put_four(word, &mut key);
    Some(key)
}

/// The masking key that a word spells, where a dash stands for four zeros.
pub fn read_key_or_dash(word: &[u8]) -> Option<[u8; 4]>
    ensures { Finds result (λ key. IsKeyOrDash key word.now) }
{
    if word == b"-".as_slice() {
        Some(KEY_OF_A_DASH)
    } else {
        read_key(word)
    }
}
