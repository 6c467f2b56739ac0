//! Text between quotation marks, with what can't be seen escaped as JSON does it (RFC 8259 section 7).

ghost use Rattle.std.specs.Prelude.{◌≡◌, ◌<◌, ◌≤◌, ◌++◌, IfOk, OnOk, false, length, slice_index, take, true};
ghost use Rattle.std.specs.Char.Escape.{encode_utf16};
ghost use Rattle.std.specs.List.{flat_map, list_all};
ghost use Rattle.std.specs.Str.{chars, is_utf8};
ghost use Rattle.ws_formats.specs.QuotedText.{escape_of, is_escaped, is_invisible, is_shown_plainly};
ghost use Rattle.ws_formats.specs.QuotedText.{quoted_end, quoted_if_text, quoted_word, shown_character, unit_escape};

use crate::digits::put_digits;
use ws_base::NoMemory;

/// So many characters of a text are shown at most.
const SHOWN: usize = 64;

/// How many digits a unit of UTF-16 has.
const UNIT_DIGITS: usize = 4;

/// Puts a payload between quotation marks behind what stands in the line, where it is UTF-8: at most 64 characters of
/// it, and two dots where there are more. Answers whether it is; where it isn't, nothing is put. At an error a
/// beginning of that was put.
pub fn put_text(payload: &[u8], line: &mut Vec<u8>) -> Result<bool, NoMemory>
    ensures text { IfOk result (λ is_text. is_text ≡ is_utf8 payload.now) }
    ensures put { OnOk result (line.new.items ≡ line.old.items ++ quoted_if_text payload.now) }
{
    // Most payloads are ASCII that is shown as it is.
    if are_plain(payload) {
        put_plain(payload, line)?;
        return Ok(true);
    }
    let Ok(text) = str::from_utf8(payload) else {
        return Ok(false);
    };
    put_quoted(text, line)?;
    Ok(true)
}

/// Puts a text between quotation marks.
fn put_quoted(text: &str, line: &mut Vec<u8>) -> Result<(), NoMemory>
    ensures { OnOk result (line.new.items ≡ line.old.items ++ quoted_word (chars text.now)) }
{
    let bytes = text.as_bytes();
    // One byte more tells whether a character follows those that are shown.
    if are_plain(&bytes[..(SHOWN + 1).min(bytes.len())]) {
        return put_plain(bytes, line);
    }
    put_characters(text, line)
}

/// Whether each byte is a character that is shown as it is.
fn are_plain(bytes: &[u8]) -> bool
    ensures { result ≡ list_all is_shown_plainly bytes.now }
{
    for byte in bytes {
        if !is_shown_plainly(*byte) {
            return false;
        }
    }
    true
}

/// Whether a byte is: visible ASCII or a space, but the mark and the backslash.
fn is_shown_plainly(byte: u8) -> bool
    ensures { result ≡ is_shown_plainly byte }
{
    (b' '..=b'~').contains(&byte) && byte != b'"' && byte != b'\\'
}

/// Puts a text whose first bytes are plain, in one copy.
fn put_plain(bytes: &[u8], line: &mut Vec<u8>) -> Result<(), NoMemory>
    requires plain { list_all is_shown_plainly (take 65 bytes.now) ≡ true }
    ensures { OnOk result (line.new.items ≡ line.old.items ++ quoted_word (chars bytes.now)) }
{
    line.extend_from_slice(b"\"")?;
    line.extend_from_slice(&bytes[..SHOWN.min(bytes.len())])?;
    put_end(bytes.len() > SHOWN, line)
}

/// Puts any text: plain bytes in one copy, and what stands between two runs of these one character after the other.
fn put_characters(text: &str, line: &mut Vec<u8>) -> Result<(), NoMemory>
    ensures { OnOk result (line.new.items ≡ line.old.items ++ quoted_word (chars text.now)) }
{
    line.extend_from_slice(b"\"")?;
    let mut left = text;
    let mut count = 0;
    while count < SHOWN {
        let bytes = left.as_bytes();
        let run = plain_len(bytes, SHOWN - count);
        line.extend_from_slice(&bytes[..run])?;
        left = &left[run..];
        count += run;
        if count < SHOWN {
            let mut others = left.chars();
            let Some(character) = others.next() else {
                return put_end(false, line);
            };
            put_character(character, line)?;
            left = others.as_str();
            count += 1;
        }
    }
    put_end(!left.is_empty(), line)
}

/// How many bytes at the front are shown as they are, up to so many.
fn plain_len(bytes: &[u8], most: usize) -> usize
    ensures few { result ≤ most }
    ensures within { result ≤ length bytes.now }
    ensures plain { list_all is_shown_plainly (take result bytes.now) ≡ true }
    ensures all { result < most → result < length bytes.now
        → is_shown_plainly (slice_index bytes.now result) ≡ false }
{
    let mut count = 0;
    while count < most && count < bytes.len() && is_shown_plainly(bytes[count]) {
        count += 1;
    }
    count
}

/// Puts the second mark, and two dots where more characters follow.
fn put_end(more: bool, line: &mut Vec<u8>) -> Result<(), NoMemory>
    ensures { OnOk result (line.new.items ≡ line.old.items ++ quoted_end more) }
{
    let end = if more {
        b"\"..".as_slice()
    } else {
        b"\"".as_slice()
    };
    line.extend_from_slice(end)?;
    Ok(())
}

/// Puts a character as it is shown.
fn put_character(character: char, line: &mut Vec<u8>) -> Result<(), NoMemory>
    ensures { OnOk result (line.new.items ≡ line.old.items ++ shown_character character) }
{
    if is_escaped(character) {
        return put_escape(character, line);
    }
    let mut room = [0; 4];
    line.extend_from_slice(character.encode_utf8(&mut room).as_bytes())?;
    Ok(())
}

/// Whether a character is escaped.
fn is_escaped(character: char) -> bool
    ensures { result ≡ is_escaped character }
{
    character == '"' || character == '\\' || character.is_control() || is_invisible(character)
}

/// Whether it has no shape of its own, or turns the order in which others are shown.
pub fn is_invisible(character: char) -> bool
    ensures { result ≡ is_invisible character }
{
    matches!(
        character,
        '\u{ad}'
            | '\u{61c}'
            | '\u{180e}'
            | '\u{200b}'..='\u{200f}'
            | '\u{2028}'..='\u{202e}'
            | '\u{2060}'..='\u{206f}'
            | '\u{feff}'
            | '\u{fff9}'..='\u{fffb}'
            | '\u{fffe}'..='\u{ffff}'
            | '\u{e0000}'..='\u{e007f}'
    )
}

/// Puts the escape of a character.
fn put_escape(character: char, line: &mut Vec<u8>) -> Result<(), NoMemory>
    ensures { OnOk result (line.new.items ≡ line.old.items ++ escape_of character) }
{
    match character {
        '"' => line.extend_from_slice(b"\\\"")?,
        '\\' => line.extend_from_slice(b"\\\\")?,
        '\n' => line.extend_from_slice(b"\\n")?,
        '\r' => line.extend_from_slice(b"\\r")?,
        '\t' => line.extend_from_slice(b"\\t")?,
        other => return put_units(other, line),
    }
    Ok(())
}

/// Puts the escapes of a character's units in UTF-16.
fn put_units(character: char, line: &mut Vec<u8>) -> Result<(), NoMemory>
    ensures { OnOk result (line.new.items ≡ line.old.items ++ flat_map unit_escape (encode_utf16 character)) }
{
    let code = character as u32;
    if code < 0x1_0000 {
        return put_unit(code as u16, line);
    }
    let above = code - 0x1_0000;
    put_unit(0xd800 + (above / 0x400) as u16, line)?;
    put_unit(0xdc00 + (above % 0x400) as u16, line)
}

/// Puts the escape of a unit.
fn put_unit(unit: u16, line: &mut Vec<u8>) -> Result<(), NoMemory>
    ensures { OnOk result (line.new.items ≡ line.old.items ++ unit_escape unit) }
{
    let mut digits = [0; UNIT_DIGITS];
    put_digits(&unit.to_be_bytes(), &mut digits);
    line.extend_from_slice(b"\\u")?;
    line.extend_from_slice(&digits)?;
    Ok(())
}
