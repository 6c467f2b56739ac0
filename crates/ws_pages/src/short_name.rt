//! The name of a peer where there is little room.

ghost use Rattle.std.specs.Prelude.{◌≡◌, Some};
ghost use Rattle.ws_pages.specs.ShortNames.{begins_character, is_cut_short, short_front, short_name, title_attribute};

use crate::escaping::Escaped;
use std::fmt;

/// How many characters of a name are shown.
const SHOWN: usize = 24;

/// The first characters of a name.
pub(crate) fn short_front(name: &[u8]) -> &[u8]
    ensures { result.now ≡ short_front name.now }
{
    let mut begun = 0;
    for place in 0..name.len() {
        if begins_character(name[place]) {
            if begun == SHOWN {
                return &name[..place];
            }
            begun += 1;
        }
    }
    name
}

/// Whether a byte begins a character of UTF-8.
fn begins_character(byte: u8) -> bool
    ensures { result ≡ begins_character byte }
{
    byte / 64 != 2
}

/// Whether a name has more than the characters that are shown.
fn is_cut_short(name: &[u8]) -> bool
    ensures { result ≡ is_cut_short name.now }
{
    short_front(name).len() < name.len()
}

/// The name, or its first characters and two dots.
#[derive(Clone, Copy)]
pub(crate) struct ShortName<'a>(pub(crate) &'a [u8]);

impl fmt::Display for ShortName<'_> {
    ghost output = { λ name. Some (short_name name.0.now) };

    fn fmt<W: fmt::Write>(&self, f: &mut fmt::Formatter<W>) -> fmt::Result {
        let front = Escaped(short_front(self.0));
        let end = if is_cut_short(self.0) { ".." } else { "" };
        write!(f, "{front}{end}")
    }
}

/// An attribute with the whole name, if that is cut short.
#[derive(Clone, Copy)]
pub(crate) struct TitleAttribute<'a>(pub(crate) &'a [u8]);

impl fmt::Display for TitleAttribute<'_> {
    ghost output = { λ name. Some (title_attribute name.0.now) };

    fn fmt<W: fmt::Write>(&self, f: &mut fmt::Formatter<W>) -> fmt::Result {
        if !is_cut_short(self.0) {
            return Ok(());
        }
        let name = Escaped(self.0);
        write!(f, " title=\"{name}\"")
    }
}
