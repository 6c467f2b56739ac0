//! Texts of the input, as they are written in JSON and to a terminal.

ghost use Rattle.std.specs.Prelude.{◌≡◌, Some};
ghost use Rattle.std.specs.List.{flat_map};
ghost use Rattle.std.specs.Str.{chars};
ghost use Rattle.ws_runs.specs.Shown.{byte_in_string, byte_on_terminal, character_in_string, character_on_terminal};
ghost use Rattle.ws_runs.specs.Shown.{in_string, is_hidden, on_terminal, text_in_string, text_on_terminal};

use std::fmt;
use ws_formats::{HexDigits, is_invisible};

/// A text as a string in JSON, without the quotation marks around it.
#[derive(Clone, Copy)]
pub(crate) struct QuotedText<'a>(pub(crate) &'a str);

impl fmt::Display for QuotedText<'_> {
    ghost output = { λ text. Some (text_in_string text.0.now) };

    fn fmt<W: fmt::Write>(&self, f: &mut fmt::Formatter<W>) -> fmt::Result {
        for character in self.0.chars() {
            write!(f, "{}", QuotedCharacter(character))?;
        }
        Ok(())
    }
}

/// A character of a string in JSON. A control character is written by its number.
#[derive(Clone, Copy)]
struct QuotedCharacter(char);

impl fmt::Display for QuotedCharacter {
    ghost output = { λ character. Some (character_in_string character.0) };

    fn fmt<W: fmt::Write>(&self, f: &mut fmt::Formatter<W>) -> fmt::Result {
        match self.0 {
            '"' => write!(f, "\\\""),
            '\\' => write!(f, "\\\\"),
            '\0'..='\u{1f}' | '\u{7f}'..='\u{9f}' => write!(
                f,
                "\\u00{}",
                HexDigits(&[self.0 as u8])
            ),
            other => write!(f, "{other}"),
        }
    }
}

/// Bytes as a string in JSON, without the quotation marks around it.
#[derive(Clone, Copy)]
pub(crate) struct QuotedBytes<'a>(pub(crate) &'a [u8]);

impl fmt::Display for QuotedBytes<'_> {
    ghost output = { λ text. Some (in_string text.0.now) };

    fn fmt<W: fmt::Write>(&self, f: &mut fmt::Formatter<W>) -> fmt::Result {
        for byte in self.0 {
            write!(f, "{}", QuotedByte(*byte))?;
        }
        Ok(())
    }
}

/// A byte of a string in JSON. What isn't printable ASCII is written by its number, so that no two are written alike.
#[derive(Clone, Copy)]
struct QuotedByte(u8);

impl fmt::Display for QuotedByte {
    ghost output = { λ byte. Some (byte_in_string byte.0) };

    fn fmt<W: fmt::Write>(&self, f: &mut fmt::Formatter<W>) -> fmt::Result {
        match self.0 {
            b'"' => write!(f, "\\\""),
            b'\\' => write!(f, "\\\\"),
            0x20..=0x7e => write!(f, "{}", char::from(self.0)),
            byte => write!(f, "\\u00{}", HexDigits(&[byte])),
        }
    }
}

/// A text on a terminal. A character that can't be seen, and could change what is, is a question mark.
#[derive(Clone, Copy)]
pub(crate) struct ShownText<'a>(pub(crate) &'a str);

impl fmt::Display for ShownText<'_> {
    ghost output = { λ text. Some (text_on_terminal text.0.now) };

    fn fmt<W: fmt::Write>(&self, f: &mut fmt::Formatter<W>) -> fmt::Result {
        for character in self.0.chars() {
            write!(f, "{}", ShownCharacter(character))?;
        }
        Ok(())
    }
}

/// A character on a terminal.
#[derive(Clone, Copy)]
struct ShownCharacter(char);

impl fmt::Display for ShownCharacter {
    ghost output = { λ character. Some (character_on_terminal character.0) };

    fn fmt<W: fmt::Write>(&self, f: &mut fmt::Formatter<W>) -> fmt::Result {
        if is_hidden(self.0) {
            write!(f, "?")
        } else {
            write!(f, "{}", self.0)
        }
    }
}

/// Whether a character can't be seen: a control character, or one that has no shape of its own.
fn is_hidden(character: char) -> bool
    ensures { result ≡ is_hidden character }
{
    character.is_control() || is_invisible(character)
}

/// Bytes on a terminal: what isn't printable ASCII is written as a question mark.
#[derive(Clone, Copy)]
pub(crate) struct ShownBytes<'a>(pub(crate) &'a [u8]);

impl fmt::Display for ShownBytes<'_> {
    ghost output = { λ text. Some (on_terminal text.0.now) };

    fn fmt<W: fmt::Write>(&self, f: &mut fmt::Formatter<W>) -> fmt::Result {
        for byte in self.0 {
            write!(f, "{}", ShownByte(*byte))?;
        }
        Ok(())
    }
}

/// A byte on a terminal.
#[derive(Clone, Copy)]
struct ShownByte(u8);

impl fmt::Display for ShownByte {
    ghost output = { λ byte. Some (byte_on_terminal byte.0) };

    fn fmt<W: fmt::Write>(&self, f: &mut fmt::Formatter<W>) -> fmt::Result {
        match self.0 {
            0x20..=0x7e => write!(f, "{}", char::from(self.0)),
            _ => write!(f, "?"),
        }
    }
}
