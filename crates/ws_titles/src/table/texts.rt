//! Group 6, its first five sections: texts as a whole and in fragments.

ghost use Rattle.std.specs.Prelude.{◌≡◌, map};
ghost use Rattle.ws_titles.specs.TitleTable.{text_titles};
ghost use Rattle.ws_titles.specs.Titles.{title_pair};

use crate::table::Title;

/// Their titles.
pub(crate) fn titles() -> &'static [Title]
    ensures { map title_pair result.now ≡ text_titles }
{
    &TITLES
}

static TITLES: [Title; 14] = [
    Title("6.1.1", "Empty text"),
    Title("6.1.2", "Text of three empty fragments"),
    Title(
        "6.1.3",
        "Text of three fragments, the first and the last empty",
    ),
    Title("6.2.1", "Text with letters of two bytes"),
    Title("6.2.2", "Text with letters of two bytes, in two fragments"),
    Title(
        "6.2.3",
        "Text with letters of two bytes, in fragments of one byte",
    ),
    Title("6.2.4", "Greek word in fragments of one byte"),
    Title("6.3.1", "Surrogate inside a text"),
    Title("6.3.2", "Surrogate inside a text, in fragments of one byte"),
    Title(
        "6.4.1",
        "Code point above U+10FFFF, in the second of three turns",
    ),
    Title(
        "6.4.2",
        "Code point above U+10FFFF, cut by the ends of turns",
    ),
    Title("6.4.3", "Code point above U+10FFFF, in writes of 17 bytes"),
    Title("6.4.4", "Code point above U+10FFFF, byte by byte"),
    Title("6.5.1", "Greek word"),
];
