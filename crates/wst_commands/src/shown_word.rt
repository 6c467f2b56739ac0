//! A word of the command line, as it is printed again.

ghost use Rattle.std.specs.Prelude.{◌≡◌, Some};
ghost use Rattle.std.specs.List.{list_any};
ghost use Rattle.std.specs.Str.{chars};
ghost use Rattle.wst_commands.specs.ShownWords.{is_unseen, shown_word};

use crate::styled_data::StyledData;
use std::alloc::Global;
use std::fmt;
use ws_formats::is_invisible;
use ws_frame::DataStyle;

/// A word as it is printed: between quotation marks and escaped, where a terminal could obey it.
#[derive(Clone, Copy)]
pub(crate) struct ShownWord<'a> {
    pub(crate) alloc: Global,
    pub(crate) word: &'a str,
}

impl fmt::Display for ShownWord<'_> {
    ghost output = { λ shown. Some (shown_word shown.word.now) };

    fn fmt<W: fmt::Write>(&self, f: &mut fmt::Formatter<W>) -> fmt::Result {
        if has_unseen(self.word) {
            let text = StyledData {
                alloc: self.alloc,
                style: DataStyle::Text,
                payload: self.word.as_bytes(),
            };
            write!(f, "{text}")
        } else {
            write!(f, "{}", self.word)
        }
    }
}

/// Whether one of the characters can't be seen.
fn has_unseen(word: &str) -> bool
    ensures { result ≡ list_any is_unseen (chars word.now) }
{
    word.chars().any(|character| is_unseen(character))
}

/// Whether a character can't be seen: a control character, or one that has no shape of its own.
fn is_unseen(character: char) -> bool
    ensures { result ≡ is_unseen character }
{
    character.is_control() || is_invisible(character)
}
