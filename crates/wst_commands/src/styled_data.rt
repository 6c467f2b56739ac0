//! A payload as the lines of an explanation show it, in the style that is asked for.

ghost use Rattle.std.specs.Prelude.{◌≡◌, IfOk, MatchOption, string_bytes};
ghost use Rattle.wst_commands.specs.Explaining.{shown_data};
ghost use Rattle.wst_commands.specs.InnerExplaining.{printed_styled};
ghost use Rattle.ws_frame.specs.Lines.{text_word};

use crate::explanation_lines::Shown;
use std::alloc::Global;
use std::fmt;
use ws_base::NoMemory;
use ws_formats::{Hex, put_text};
use ws_frame::DataStyle;

/// A payload that is shown in a style. Text takes memory; where that runs out, nothing is written.
#[derive(Drop)]
pub(crate) struct StyledData<'a> {
    pub(crate) alloc: Global,
    pub(crate) style: DataStyle,
    pub(crate) payload: &'a [u8],
}

impl fmt::Display for StyledData<'_> {
    ghost use Rattle.std.specs.Prelude.{Some};

    ghost output = { λ styled. Some (printed_styled styled) };

    fn fmt<W: fmt::Write>(&self, f: &mut fmt::Formatter<W>) -> fmt::Result {
        match self.style {
            DataStyle::Hex => write!(f, "{}", Shown(self.payload)),
            DataStyle::Text => match text_of(self.alloc, self.payload) {
                Ok(Some(text)) => write!(f, "{text}"),
                Ok(None) => write!(f, "{}", Shown(self.payload)),
                Err(_) => Err(fmt::Error),
            },
            DataStyle::All => write!(f, "{}", Hex(self.payload)),
        }
    }
}

/// A payload as text between quotation marks. `None` where it is none: then its first bytes are shown.
fn text_of(alloc: Global, payload: &[u8]) -> Result<Option<String>, NoMemory>
    ensures { IfOk result (λ found. MatchOption found (text_word payload.now ≡ shown_data payload.now)
        (λ text. string_bytes text ≡ text_word payload.now)) }
{
    let mut word = Vec::new(alloc);
    if !put_text(payload, &mut word)? {
        return Ok(None);
    }
    // What is put is UTF-8: characters of the payload and escapes.
    let text = unsafe { String::from_utf8_unchecked(word) };
    Ok(Some(text))
}
