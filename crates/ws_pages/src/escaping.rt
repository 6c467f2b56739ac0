//! Texts of the input on a page.

ghost use Rattle.std.specs.Prelude.{Some};
ghost use Rattle.std.specs.List.{flat_map};
ghost use Rattle.std.specs.Str.{chars};
ghost use Rattle.ws_pages.specs.PageText.{byte_on_page, character_on_page, on_page, plain_on_page};

use std::fmt;
use ws_formats::is_invisible;

/// A text on a page.
#[derive(Clone, Copy)]
pub(crate) struct Escaped<'a>(pub(crate) &'a [u8]);

impl fmt::Display for Escaped<'_> {
    ghost output = { λ text. Some (on_page text.0.now) };

    fn fmt<W: fmt::Write>(&self, f: &mut fmt::Formatter<W>) -> fmt::Result {
        match str::from_utf8(self.0) {
            Ok(text) => write!(f, "{}", EscapedText(text)),
            Err(_) => write!(f, "{}", EscapedBytes(self.0)),
        }
    }
}

/// The characters of a text on a page.
#[derive(Clone, Copy)]
struct EscapedText<'a>(&'a str);

impl fmt::Display for EscapedText<'_> {
    ghost output = { λ text. Some (flat_map character_on_page (chars text.0.now)) };

    fn fmt<W: fmt::Write>(&self, f: &mut fmt::Formatter<W>) -> fmt::Result {
        for character in self.0.chars() {
            write!(f, "{}", EscapedCharacter(character))?;
        }
        Ok(())
    }
}

/// The bytes of a text that isn't UTF-8, on a page.
#[derive(Clone, Copy)]
struct EscapedBytes<'a>(&'a [u8]);

impl fmt::Display for EscapedBytes<'_> {
    ghost output = { λ text. Some (flat_map byte_on_page text.0.now) };

    fn fmt<W: fmt::Write>(&self, f: &mut fmt::Formatter<W>) -> fmt::Result {
        for byte in self.0 {
            write!(f, "{}", EscapedByte(*byte))?;
        }
        Ok(())
    }
}

/// A byte on a page.
#[derive(Clone, Copy)]
struct EscapedByte(u8);

impl fmt::Display for EscapedByte {
    ghost output = { λ byte. Some (byte_on_page byte.0) };

    fn fmt<W: fmt::Write>(&self, f: &mut fmt::Formatter<W>) -> fmt::Result {
        if self.0 < 128 {
            write!(f, "{}", EscapedCharacter(char::from(self.0)))
        } else {
            write!(f, "&#xFFFD;")
        }
    }
}

/// A character on a page.
#[derive(Clone, Copy)]
struct EscapedCharacter(char);

impl fmt::Display for EscapedCharacter {
    ghost output = { λ character. Some (character_on_page character.0) };

    fn fmt<W: fmt::Write>(&self, f: &mut fmt::Formatter<W>) -> fmt::Result {
        match self.0 {
            '&' => write!(f, "&amp;"),
            '<' => write!(f, "&lt;"),
            '>' => write!(f, "&gt;"),
            '"' => write!(f, "&quot;"),
            '\'' => write!(f, "&#39;"),
            '\n' => write!(f, "\n"),
            other => write!(f, "{}", PlainCharacter(other)),
        }
    }
}

/// A character that is no mark of HTML, on a page.
#[derive(Clone, Copy)]
struct PlainCharacter(char);

impl fmt::Display for PlainCharacter {
    ghost output = { λ character. Some (plain_on_page character.0) };

    fn fmt<W: fmt::Write>(&self, f: &mut fmt::Formatter<W>) -> fmt::Result {
        if self.0.is_control() || is_invisible(self.0) {
            write!(f, "&#xFFFD;")
        } else {
            write!(f, "{}", self.0)
        }
    }
}
