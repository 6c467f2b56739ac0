//! Texts between the quotation marks of an attribute, as XML 1.0 writes them.

ghost use Rattle.std.specs.Prelude.{◌≡◌, Some};
ghost use Rattle.ws_junit.specs.XmlTexts.{character_in_attribute, is_no_xml, quoted_text};

use std::fmt;

/// A text between the quotation marks of an attribute.
#[derive(Clone, Copy)]
pub(crate) struct QuotedText<'a>(pub(crate) &'a str);

impl fmt::Display for QuotedText<'_> {
    ghost output = { λ text. Some (quoted_text text.0.now) };

    fn fmt<W: fmt::Write>(&self, f: &mut fmt::Formatter<W>) -> fmt::Result {
        for character in self.0.chars() {
            write!(f, "{}", QuotedCharacter(character))?;
        }
        Ok(())
    }
}

/// A character of an attribute. What isn't one of XML, or controls something, is the replacement character.
#[derive(Clone, Copy)]
struct QuotedCharacter(char);

impl fmt::Display for QuotedCharacter {
    ghost output = { λ character. Some (character_in_attribute character.0) };

    fn fmt<W: fmt::Write>(&self, f: &mut fmt::Formatter<W>) -> fmt::Result {
        match self.0 {
            '&' => write!(f, "&amp;"),
            '<' => write!(f, "&lt;"),
            '>' => write!(f, "&gt;"),
            '"' => write!(f, "&quot;"),
            other if is_no_xml(other) => write!(f, "&#xFFFD;"),
            other => write!(f, "{other}"),
        }
    }
}

/// Whether it is a control character, or no character of XML.
fn is_no_xml(character: char) -> bool
    ensures { result ≡ is_no_xml character }
{
    character.is_control() || character == '\u{fffe}' || character == '\u{ffff}'
}
