//! Words that are put straight at the end of a text.

ghost use Rattle.std.specs.Prelude.{◌≡◌, ◌≤◌, ◌++◌, decimal, length, OnOk, string_bytes};
ghost use Rattle.ws_formats.specs.Words.{hex, hex_word};
ghost use Rattle.ws_session.specs.Words.{kind_word};

use itoa::Buffer;
use ws_base::NoMemory;
use ws_formats::put_digits;
use ws_session::Kind;

/// How many bytes are put as digits at once.
const BLOCK: usize = 64;

/// Puts a number at the end of a text, in decimal digits.
pub fn push_number(text: &mut String, number: u64) -> Result<(), NoMemory>
    ensures { OnOk result (string_bytes text.new ≡ string_bytes text.old ++ decimal number) }
{
    let mut digits = Buffer::new();
    text.push_str(digits.format(number))?;
    Ok(())
}

/// Puts bytes at the end of a text, two digits each, or a dash where there are none.
pub fn push_hex(text: &mut String, bytes: &[u8]) -> Result<(), NoMemory>
    ensures { OnOk result (string_bytes text.new ≡ string_bytes text.old ++ hex_word bytes.now) }
{
    if bytes.is_empty() {
        text.push_str("-")?;
        return Ok(());
    }
    push_blocks(text, bytes)?;
    Ok(())
}

/// Puts bytes at the end of a text, two digits each.
fn push_blocks(text: &mut String, bytes: &[u8]) -> Result<(), NoMemory>
    ensures { OnOk result (string_bytes text.new ≡ string_bytes text.old ++ hex bytes.now) }
{
    let mut at = 0;
    while at < bytes.len() {
        let end = at + (bytes.len() - at).min(BLOCK);
        push_block(text, &bytes[at..end])?;
        at = end;
    }
    Ok(())
}

/// Puts the digits of a few bytes at once.
fn push_block(text: &mut String, bytes: &[u8]) -> Result<(), NoMemory>
    requires { length bytes.now ≤ 64 }
    ensures { OnOk result (string_bytes text.new ≡ string_bytes text.old ++ hex bytes.now) }
{
    let mut digits = [0; 2 * BLOCK];
    let room = &mut digits[..2 * bytes.len()];
    put_digits(bytes, room);
    // The digits are ASCII, so they need no check.
    let added = unsafe { str::from_utf8_unchecked(room) };
    text.push_str(added)?;
    Ok(())
}

/// Puts the word of a kind of message at the end of a text.
pub fn push_kind(text: &mut String, kind: Kind) -> Result<(), NoMemory>
    ensures { OnOk result (string_bytes text.new ≡ string_bytes text.old ++ kind_word kind) }
{
    match kind {
        Kind::Text => text.push_str("text")?,
        Kind::Binary => text.push_str("binary")?,
    }
    Ok(())
}
