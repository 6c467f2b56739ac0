//! The cases that are run only if they are named.

ghost use Rattle.std.specs.Prelude.{◌≡◌, map};
ghost use Rattle.ws_titles.specs.TitleTable.{hostile_titles};
ghost use Rattle.ws_titles.specs.Titles.{title_pair};

use crate::table::Title;

/// Their titles.
pub(crate) fn titles() -> &'static [Title]
    ensures { map title_pair result.now ≡ hostile_titles }
{
    &TITLES
}

static TITLES: [Title; 6] = [
    Title("x.1", "Text of 5 bytes, its length in two bytes"),
    Title("x.2", "Length with its top bit set, byte by byte"),
    Title("x.3", "Text without a mask"),
    Title("x.4", "Text, then a close with code 1001, byte by byte"),
    Title("x.5", "Header of a message of 4294967296 bytes"),
    Title("x.6", "Nothing is sent"),
];
