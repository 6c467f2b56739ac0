//! Bytes in lower-case hexadecimal, two digits a byte.

ghost use Rattle.std.specs.Prelude.{◌≤◌, Some, length};
ghost use Rattle.std.specs.Fmt.{WritesOnOk};
ghost use Rattle.ws_formats.specs.Words.{hex, hex_word};

use crate::digits::put_digits;
use std::fmt;

/// How many bytes are written at once.
const BLOCK: usize = 64;

/// Bytes as two digits each, in calls of up to 128 digits. A writer without room for a block gets none of it.
#[derive(Drop)]
pub struct HexDigits<'a>(pub &'a [u8]);

impl fmt::Display for HexDigits<'_> {
    ghost output = { λ bytes. Some (hex bytes.0.now) };

    fn fmt<W: fmt::Write>(&self, f: &mut fmt::Formatter<W>) -> fmt::Result {
        let bytes = self.0;
        let mut at = 0;
        while at < bytes.len() {
            let end = at + (bytes.len() - at).min(BLOCK);
            write_block(f, &bytes[at..end])?;
            at = end;
        }
        Ok(())
    }
}

/// Writes the digits of a few bytes at once.
fn write_block<W: fmt::Write>(f: &mut fmt::Formatter<W>, bytes: &[u8]) -> fmt::Result
    requires { length bytes.now ≤ 64 }
    ensures { WritesOnOk W.write_str_gives f.old result (hex bytes.now) f.new }
{
    let mut digits = [0; 2 * BLOCK];
    let room = &mut digits[..2 * bytes.len()];
    put_digits(bytes, room);
    // The digits are ASCII, so they need no check.
    let text = unsafe { str::from_utf8_unchecked(room) };
    f.write_str(text)
}

/// Bytes as two digits each, or a dash where there are none.
#[derive(Drop)]
pub struct Hex<'a>(pub &'a [u8]);

impl fmt::Display for Hex<'_> {
    ghost output = { λ bytes. Some (hex_word bytes.0.now) };

    fn fmt<W: fmt::Write>(&self, f: &mut fmt::Formatter<W>) -> fmt::Result {
        if self.0.is_empty() {
            write!(f, "-")
        } else {
            write!(f, "{}", HexDigits(self.0))
        }
    }
}
