//! A payload as a line shows it, where all of it is at hand.

ghost use Rattle.std.specs.Prelude.{◌≡◌, ◌≤◌, ◌++◌, OnOk, length};
ghost use Rattle.ws_formats.specs.Words.{hex, hex_word};
ghost use Rattle.ws_frame.specs.Lines.{close_word, first_word, payload_word, readable_word, text_word};

use crate::first_bytes::SHOWN;
use crate::source::DataStyle;
use itoa::Buffer;
use ws_base::NoMemory;
use ws_formats::{put_digits, put_text};
use ws_wire::Opcode;

/// How many bytes are put as digits at once.
const BLOCK: usize = 64;

/// Puts a payload, unmasked, in this style behind what stands in the line. The opcode is that of its frame.
pub(crate) fn put_payload(
    style: DataStyle,
    opcode: u8,
    payload: &[u8],
    line: &mut Vec<u8>,
) -> Result<(), NoMemory>
    ensures { OnOk result (line.new.items ≡ line.old.items ++ payload_word style opcode payload.now) }
{
    match style {
        DataStyle::Hex => put_first(payload, line),
        DataStyle::Text => put_readable(opcode, payload, line),
        DataStyle::All => put_all(payload, line),
    }
}

/// Puts a payload as text, by the opcode.
fn put_readable(opcode: u8, payload: &[u8], line: &mut Vec<u8>) -> Result<(), NoMemory>
    ensures { OnOk result (line.new.items ≡ line.old.items ++ readable_word opcode payload.now) }
{
    match Opcode::of(opcode) {
        Opcode::Close => put_close(payload, line),
        _ => put_text_or_first(payload, line),
    }
}

/// Puts the payload of a close frame as text: its code and its reason, where it has a code.
fn put_close(payload: &[u8], line: &mut Vec<u8>) -> Result<(), NoMemory>
    ensures { OnOk result (line.new.items ≡ line.old.items ++ close_word payload.now) }
{
    match payload {
        [high, low, reason @ ..] => {
            let code = 256 * u16::from(*high) + u16::from(*low);
            let mut digits = Buffer::new();
            line.extend_from_slice(digits.format(code).as_bytes())?;
            line.extend_from_slice(b":")?;
            put_text_or_first(reason, line)
        }
        payload => put_text_or_first(payload, line),
    }
}

/// Puts a payload as text, where it is text, and else its first bytes as digits.
fn put_text_or_first(payload: &[u8], line: &mut Vec<u8>) -> Result<(), NoMemory>
    ensures { OnOk result (line.new.items ≡ line.old.items ++ text_word payload.now) }
{
    if put_text(payload, line)? {
        return Ok(());
    }
    put_first(payload, line)
}

/// Puts the first bytes of a payload as digits.
fn put_first(payload: &[u8], line: &mut Vec<u8>) -> Result<(), NoMemory>
    ensures { OnOk result (line.new.items ≡ line.old.items ++ first_word payload.now) }
{
    if payload.is_empty() {
        line.extend_from_slice(b"-")?;
        return Ok(());
    }
    if payload.len() > SHOWN {
        put_block(&payload[..SHOWN], line)?;
        line.extend_from_slice(b"..")?;
        return Ok(());
    }
    put_block(payload, line)
}

/// Puts a whole payload as digits, or a dash where it is empty.
fn put_all(payload: &[u8], line: &mut Vec<u8>) -> Result<(), NoMemory>
    ensures { OnOk result (line.new.items ≡ line.old.items ++ hex_word payload.now) }
{
    if payload.is_empty() {
        line.extend_from_slice(b"-")?;
        return Ok(());
    }
    put_hex(payload, line)
}

/// Puts bytes as digits, two a byte.
fn put_hex(bytes: &[u8], line: &mut Vec<u8>) -> Result<(), NoMemory>
    ensures { OnOk result (line.new.items ≡ line.old.items ++ hex bytes.now) }
{
    let mut at = 0;
    while at < bytes.len() {
        let end = at + (bytes.len() - at).min(BLOCK);
        put_block(&bytes[at..end], line)?;
        at = end;
    }
    Ok(())
}

/// Puts a few bytes as digits.
fn put_block(bytes: &[u8], line: &mut Vec<u8>) -> Result<(), NoMemory>
    requires few { length bytes.now ≤ 64 }
    ensures { OnOk result (line.new.items ≡ line.old.items ++ hex bytes.now) }
{
    let mut digits = [0; 2 * BLOCK];
    let room = &mut digits[..2 * bytes.len()];
    put_digits(bytes, room);
    line.extend_from_slice(room)?;
    Ok(())
}
