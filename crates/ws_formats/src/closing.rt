//! The words of a close frame: its code and its reason, or neither.

ghost use Rattle.std.specs.Prelude.{string_bytes};
ghost use Rattle.ws_formats.specs.Words.{AreCloseWords, IsHexWord};
ghost use Rattle.ws_formats.specs.Reading.{Reads};

use crate::hexadecimal::read_hex;
use crate::numbers::read_u16;
use std::alloc::Global;
use ws_base::LineFault;

/// The code and the reason that two words tell: a number of at most 16 bits and the reason's bytes, which are UTF-8, in
/// hexadecimal; or `none` and `-` for neither.
pub fn read_close(
    alloc: Global,
    code: &[u8],
    reason: &[u8],
) -> Result<Option<(u16, String)>, LineFault>
    ensures { Reads result (λ given. AreCloseWords given code.now reason.now) }
{
    if code == b"none".as_slice() {
        if reason == b"-".as_slice() {
            return Ok(None);
        }
        return Err(LineFault::Damaged);
    }
    let Some(code) = read_u16(code) else {
        return Err(LineFault::Damaged);
    };
    let reason = read_text(alloc, reason)?;
    Ok(Some((code, reason)))
}

/// The text that a word spells.
fn read_text(alloc: Global, word: &[u8]) -> Result<String, LineFault>
    ensures { Reads result (λ text. IsHexWord (string_bytes text) word.now) }
{
    let bytes = read_hex(alloc, word)?;
    match String::from_utf8(bytes.into_vec()) {
        Ok(text) => Ok(text),
        Err(_) => Err(LineFault::Damaged),
    }
}
