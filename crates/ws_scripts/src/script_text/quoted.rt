//! A text between quotes, with the escapes of JSON (RFC 8259 section 7).

ghost use Rattle.std.specs.Prelude.{◌≡◌, ◌+◌, ◌*◌, ◌<◌, ◌&&◌, if◌then◌else◌, IfErr, IfOk, IfSome};
ghost use Rattle.std.specs.Prelude.{None, Some, chars, length};
ghost use Rattle.std.specs.List.{list_all};
ghost use Rattle.std.specs.Char.Utf16.{is_high_surrogate, is_low_surrogate, surrogate_pair_char};
ghost use Rattle.ws_base.specs.declared.text_fault.LineFault.TheVariants.{NoMemory};
ghost use Rattle.ws_formats.specs.Reading.{Reads};
ghost use Rattle.ws_scripts.specs.QuotedTexts.{IsQuotedText, escaped_by, is_unescaped};
ghost use Rattle.ws_scripts.specs.InnerQuoting.{IsTakenOff, Unescapes, escaped_front, first_character};
ghost use Rattle.ws_scripts.specs.InnerQuoting.{from_unit, front_character, is_plain_byte};
ghost use Rattle.ws_scripts.specs.InnerQuoting.{paired_with, unit_behind, unit_digits, one_digit};

use std::alloc::Global;
use ws_base::{LineFault, Payload};

/// The bytes for which a text between quotes stands.
pub(crate) fn unquote(alloc: Global, inner: &[u8]) -> Result<Payload, LineFault>
    ensures { Reads result (λ bytes. IsQuotedText bytes inner.now) }
{
    if are_plain(inner) {
        return copy(alloc, inner);
    }
    match std::str::from_utf8(inner) {
        Ok(text) => unescape(alloc, text),
        Err(_) => Err(LineFault::Damaged),
    }
}

/// Whether each byte is a character of ASCII that stands as itself, as all of most texts are. It looks at all of them:
/// so it takes many at once.
fn are_plain(inner: &[u8]) -> bool
    ensures { result ≡ list_all is_plain_byte inner.now }
{
    let mut plain = true;
    for byte in inner {
        plain = plain & is_plain(*byte);
    }
    plain
}

/// Whether a byte is such a character.
#[inline(always)]
fn is_plain(byte: u8) -> bool
    ensures { result ≡ is_plain_byte byte }
{
    (byte >= b' ') & (byte <= b'~') & (byte != b'"') & (byte != b'\\')
}

/// The bytes as they are.
fn copy(alloc: Global, bytes: &[u8]) -> Result<Payload, LineFault>
    ensures bytes { IfOk result (λ copied. copied ≡ bytes.now) }
    ensures memory { IfErr result (λ fault. fault ≡ NoMemory) }
{
    match bytes.to_vec(alloc) {
        Ok(bytes) => Ok(Payload::from_vec(bytes)),
        Err(_) => Err(LineFault::NoMemory),
    }
}

/// The bytes of the characters for which those of a text stand.
fn unescape(alloc: Global, text: &str) -> Result<Payload, LineFault>
    ensures { Reads result (λ bytes. Unescapes bytes (chars text.now)) }
{
    let mut payload = String::with_capacity(alloc, text.len())?;
    let mut rest = text;
    while !rest.is_empty() {
        let Some((character, after)) = take_character(rest) else {
            return Err(LineFault::Damaged);
        };
        payload.push(character)?;
        rest = after;
    }
    Ok(Payload::from_vec(payload.into_bytes()))
}

/// The character for which the front of a text stands, and what follows.
fn take_character(text: &str) -> Option<(char, &str)>
    ensures taken { IsTakenOff (front_character (chars text.now)) result }
    ensures shorter { IfSome result (λ taken. length taken.1.now < length text.now) }
{
    let (first, rest) = take_first(text)?;
    if first == '\\' {
        return take_escape(rest);
    }
    if is_unescaped(first) {
        Some((first, rest))
    } else {
        None
    }
}

/// The first character, and what follows.
fn take_first(text: &str) -> Option<(char, &str)>
    ensures taken { IsTakenOff (first_character (chars text.now)) result }
    ensures shorter { IfSome result (λ taken. length taken.1.now < length text.now) }
{
    let mut rest = text.chars();
    let first = rest.next()?;
    Some((first, rest.as_str()))
}

/// Whether a character may stand as itself.
fn is_unescaped(c: char) -> bool
    ensures { result ≡ is_unescaped c }
{
    ((c >= ' ' && c <= '~') || c >= '\u{a0}') && (c != '"' && c != '\\')
}

/// The character of an escape, behind its backslash, and what follows.
fn take_escape(text: &str) -> Option<(char, &str)>
    ensures taken { IsTakenOff (escaped_front (chars text.now)) result }
    ensures shorter { IfSome result (λ taken. length taken.1.now < length text.now) }
{
    let (letter, rest) = take_first(text)?;
    if letter == 'u' {
        return take_from_unit(rest);
    }
    let character = escaped_by(letter)?;
    Some((character, rest))
}

/// The character for which a backslash and this letter stand.
fn escaped_by(letter: char) -> Option<char>
    ensures { result ≡ escaped_by letter }
{
    match letter {
        '"' => Some('"'),
        '\\' => Some('\\'),
        '/' => Some('/'),
        'b' => Some('\u{8}'),
        'f' => Some('\u{c}'),
        'n' => Some('\n'),
        'r' => Some('\r'),
        't' => Some('\t'),
        _ => None,
    }
}

/// The character of four digits, or of these and the escape that follows them, and what follows.
fn take_from_unit(text: &str) -> Option<(char, &str)>
    ensures taken { IsTakenOff (from_unit (unit_digits (chars text.now))) result }
    ensures shorter { IfSome result (λ taken. length taken.1.now < length text.now) }
{
    let (unit, rest) = take_unit(text)?;
    match char::from_u32(unit) {
        Some(character) => Some((character, rest)),
        None => take_low(unit, rest),
    }
}

/// The character of a pair whose first half this is, and what follows.
fn take_low(high: u32, text: &str) -> Option<(char, &str)>
    ensures taken { IsTakenOff (paired_with high (unit_behind (chars text.now))) result }
    ensures shorter { IfSome result (λ taken. length taken.1.now < length text.now) }
{
    let (low, rest) = take_unit_behind(text)?;
    let character = pair(high, low)?;
    Some((character, rest))
}

/// The character of two halves.
fn pair(high: u32, low: u32) -> Option<char>
    ensures { result ≡ if is_high_surrogate high && is_low_surrogate low
        then Some (surrogate_pair_char high low) else None }
{
    if (0xd800..0xdc00).contains(&high) && (0xdc00..0xe000).contains(&low) {
        char::from_u32(0x1_0000 + (high - 0xd800) * 0x400 + (low - 0xdc00))
    } else {
        None
    }
}

/// The number of four digits behind a backslash and `u`, and what follows.
fn take_unit_behind(text: &str) -> Option<(u32, &str)>
    ensures taken { IsTakenOff (unit_behind (chars text.now)) result }
    ensures shorter { IfSome result (λ taken. length taken.1.now < length text.now) }
{
    let (mark, rest) = take_first(text)?;
    let (letter, rest) = take_first(rest)?;
    if mark == '\\' && letter == 'u' {
        take_unit(rest)
    } else {
        None
    }
}

/// The number of four digits, and what follows.
fn take_unit(text: &str) -> Option<(u32, &str)>
    ensures taken { IsTakenOff (unit_digits (chars text.now)) result }
    ensures shorter { IfSome result (λ taken. length taken.1.now < length text.now) }
{
    let (number, rest) = take_digit(0, text)?;
    let (number, rest) = take_digit(number, rest)?;
    let (number, rest) = take_digit(number, rest)?;
    take_digit(number, rest)
}

/// The number of these digits and one more, and what follows.
fn take_digit(number: u32, text: &str) -> Option<(u32, &str)>
    requires { number < 4096 }
    ensures taken { IsTakenOff (one_digit number (chars text.now)) result }
    ensures most { IfSome result (λ taken. taken.0 < number * 16 + 16) }
    ensures shorter { IfSome result (λ taken. length taken.1.now < length text.now) }
{
    let (digit, rest) = take_first(text)?;
    let value = digit.to_digit(16)?;
    Some((number * 16 + value, rest))
}
