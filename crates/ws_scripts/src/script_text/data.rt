//! The bytes that a line of a script tells, in one of four notations, and as they are written.

ghost use Rattle.std.specs.Prelude.{◌≡◌, ◌==◌, ◌↔◌, ◌∷◌, [], ℕ, IsTrue, Some, slice_index};
ghost use Rattle.std.specs.List.{list_all};
ghost use Rattle.ws_base.specs.Finding.{Finds};
ghost use Rattle.ws_formats.specs.Reading.{Reads};
ghost use Rattle.ws_scripts.specs.ScriptLines.{IsDataWord, IsQuoted, IsRepeated};
ghost use Rattle.ws_scripts.specs.InnerScripting.{EndsIn};
ghost use Rattle.ws_scripts.specs.ScriptTexts.{is_counted, written_data};

use crate::script_text::numbers::read_number;
use crate::script_text::quoted::unquote;
use crate::script_text::words::after_name;
use std::alloc::Global;
use std::fmt;
use ws_base::{LineFault, Payload};
use ws_formats::{HexDigits, read_hex};

/// The most bytes that are told by one byte and their number.
const MAX_TIMES: u32 = 16_777_216;

/// The most bytes that are written one by one though they are all the same.
const MAX_SPELLED: usize = 16;

/// The bytes that a word tells: two digits each, or `-` for none; `PAIR*N` for one byte N times; or `"TEXT"`.
pub(crate) fn read_data(alloc: Global, word: &[u8]) -> Result<Payload, LineFault>
    ensures { Reads result (λ bytes. IsDataWord bytes word.now) }
{
    if begins_with_quote(word) {
        return read_quoted(alloc, word);
    }
    if has_star(word) {
        return read_repeated(alloc, word);
    }
    read_hex(alloc, word)
}

/// Whether a quote stands first.
fn begins_with_quote(word: &[u8]) -> bool
    ensures { IsTrue result ↔ (slice_index word.now 0 ≡ 34) }
{
    match word {
        [b'"', ..] => true,
        _ => false,
    }
}

/// Whether a star stands third.
fn has_star(word: &[u8]) -> bool
    ensures { IsTrue result ↔ (slice_index word.now 2 ≡ 42) }
{
    match word {
        [_, _, b'*', ..] => true,
        _ => false,
    }
}

/// The text between two quotes.
fn read_quoted(alloc: Global, word: &[u8]) -> Result<Payload, LineFault>
    ensures { Reads result (λ bytes. IsQuoted bytes word.now) }
{
    let Some(after) = after_name(b"\"", word) else {
        return Err(LineFault::Damaged);
    };
    let Some(text) = before_quote(after) else {
        return Err(LineFault::Damaged);
    };
    unquote(alloc, text)
}

/// What stands before a quote that stands last.
fn before_quote(text: &[u8]) -> Option<&[u8]>
    ensures { EndsIn (34 ∷ []) text.now result }
{
    match text {
        [front @ .., b'"'] => Some(front),
        _ => None,
    }
}

/// One byte so many times.
fn read_repeated(alloc: Global, word: &[u8]) -> Result<Payload, LineFault>
    ensures { Reads result (λ bytes. IsRepeated bytes word.now) }
{
    if word.len() < 2 {
        return Err(LineFault::Damaged);
    }
    let (pair, rest) = word.split_at(2);
    let Some(digits) = after_name(b"*", rest) else {
        return Err(LineFault::Damaged);
    };
    let Some(times) = read_number(MAX_TIMES, digits) else {
        return Err(LineFault::Damaged);
    };
    if times == 0 {
        return Err(LineFault::Damaged);
    }
    let one = read_hex(alloc, pair)?;
    let Some(byte) = only_byte(one.as_slice()) else {
        return Err(LineFault::Damaged);
    };
    match vec![in alloc; byte; times as usize] {
        Ok(bytes) => Ok(Payload::from_vec(bytes)),
        Err(_) => Err(LineFault::NoMemory),
    }
}

/// The byte, where there is one alone.
fn only_byte(bytes: &[u8]) -> Option<u8>
    ensures { Finds result (λ byte. bytes.now ≡ byte ∷ []) }
{
    match bytes {
        [byte] => Some(*byte),
        _ => None,
    }
}

/// Bytes as a script is written: `-` for none, `PAIR*N` for more than sixteen that are all the same, or else two digits
/// each.
#[derive(Drop)]
pub(crate) struct Data<'a>(pub &'a [u8]);

impl fmt::Display for Data<'_> {
    ghost output = { λ bytes. Some (written_data bytes.0.now) };

    fn fmt<W: fmt::Write>(&self, f: &mut fmt::Formatter<W>) -> fmt::Result {
        let [first, ..] = self.0 else {
            return write!(f, "-");
        };
        if is_counted(*first, self.0) {
            write!(f, "{}*{}", HexDigits(&[*first]), self.0.len())
        } else {
            write!(f, "{}", HexDigits(self.0))
        }
    }
}

/// Whether the bytes are told by this one and their number.
fn is_counted(byte: u8, bytes: &[u8]) -> bool
    ensures { result ≡ is_counted byte bytes.now }
{
    bytes.len() > MAX_SPELLED && bytes.len() <= MAX_TIMES as usize && are_all(byte, bytes)
}

/// Whether each byte is this one.
fn are_all(byte: u8, bytes: &[u8]) -> bool
    ensures { result ≡ list_all (λ (other : ℕ). other == byte) bytes.now }
{
    for other in bytes {
        if *other != byte {
            return false;
        }
    }
    true
}
