//! Texts as XML 1.0 writes them (sections 2.2, 2.4 and 2.10).

ghost use Rattle.std.specs.Prelude.{◌≡◌, Some};
ghost use Rattle.ws_reports.specs.Escaping.{content_byte, escaped, quoted, quoted_byte};

use std::fmt;

/// A text between tags.
#[derive(Clone, Copy)]
pub struct Escaped<'a>(pub &'a [u8]);

impl fmt::Display for Escaped<'_> {
    ghost output = { λ text. Some (escaped text.0.now) };

    fn fmt<W: fmt::Write>(&self, f: &mut fmt::Formatter<W>) -> fmt::Result {
        for byte in self.0 {
            write!(f, "{}", ContentByte(*byte))?;
        }
        Ok(())
    }
}

/// A text between the quotation marks of an attribute.
#[derive(Clone, Copy)]
pub struct Quoted<'a>(pub &'a [u8]);

impl fmt::Display for Quoted<'_> {
    ghost output = { λ text. Some (quoted text.0.now) };

    fn fmt<W: fmt::Write>(&self, f: &mut fmt::Formatter<W>) -> fmt::Result {
        for byte in self.0 {
            write!(f, "{}", QuotedByte(*byte))?;
        }
        Ok(())
    }
}

/// A byte of a text between tags. What isn't ASCII, or is no character of XML, is written as the replacement character.
#[derive(Clone, Copy)]
struct ContentByte(u8);

impl fmt::Display for ContentByte {
    ghost output = { λ byte. Some (content_byte byte.0) };

    fn fmt<W: fmt::Write>(&self, f: &mut fmt::Formatter<W>) -> fmt::Result {
        match self.0 {
            b'&' => write!(f, "&amp;"),
            b'<' => write!(f, "&lt;"),
            b'>' => write!(f, "&gt;"),
            b'"' => write!(f, "&quot;"),
            b'\t' => write!(f, "&#9;"),
            b'\r' => write!(f, "&#13;"),
            b'\n' | 0x20..=0x7f => write!(f, "{}", char::from(self.0)),
            _ => write!(f, "&#xFFFD;"),
        }
    }
}

/// A byte of an attribute. A line feed is written by its number, since a reader would make a space of it.
#[derive(Clone, Copy)]
struct QuotedByte(u8);

impl fmt::Display for QuotedByte {
    ghost output = { λ byte. Some (quoted_byte byte.0) };

    fn fmt<W: fmt::Write>(&self, f: &mut fmt::Formatter<W>) -> fmt::Result {
        match self.0 {
            b'\n' => write!(f, "&#10;"),
            byte => write!(f, "{}", ContentByte(byte)),
        }
    }
}
