//! Group 6, text at the edges of each length of a character.

ghost use Rattle.std.specs.Prelude.{◌≡◌, map};
ghost use Rattle.ws_titles.specs.TitleTable.{edge_titles};
ghost use Rattle.ws_titles.specs.Titles.{title_pair};

use crate::table::Title;

/// Their titles.
pub(crate) fn titles() -> &'static [Title]
    ensures { map title_pair result.now ≡ edge_titles }
{
    &TITLES
}

static TITLES: [Title; 29] = [
    Title("6.6.1", "Greek word, cut in a character: ce"),
    Title("6.6.2", "Greek word, cut between characters: ceba"),
    Title("6.6.3", "Greek word, cut in a character: cebae1"),
    Title("6.6.4", "Greek word, cut in a character: cebae1bd"),
    Title("6.6.5", "Greek word, cut between characters: cebae1bdb9"),
    Title("6.6.6", "Greek word, cut in a character: cebae1bdb9cf"),
    Title(
        "6.6.7",
        "Greek word, cut between characters: cebae1bdb9cf83",
    ),
    Title("6.6.8", "Greek word, cut in a character: cebae1bdb9cf83ce"),
    Title(
        "6.6.9",
        "Greek word, cut between characters: cebae1bdb9cf83cebc",
    ),
    Title(
        "6.6.10",
        "Greek word, cut in a character: cebae1bdb9cf83cebcce",
    ),
    Title("6.6.11", "Greek word, not cut: cebae1bdb9cf83cebcceb5"),
    Title("6.7.1", "First code point of 1 byte: 00"),
    Title("6.7.2", "First code point of 2 bytes: c280"),
    Title("6.7.3", "First code point of 3 bytes: e0a080"),
    Title("6.7.4", "First code point of 4 bytes: f0908080"),
    Title("6.8.1", "First sequence of 5 bytes, no UTF-8: f888808080"),
    Title("6.8.2", "First sequence of 6 bytes, no UTF-8: fc8480808080"),
    Title("6.9.1", "Last code point of 1 byte: 7f"),
    Title("6.9.2", "Last code point of 2 bytes: dfbf"),
    Title("6.9.3", "Last code point of 3 bytes: efbfbf"),
    Title("6.9.4", "Last code point of 4 bytes: f48fbfbf"),
    Title("6.10.1", "Last sequence of 4 bytes, no UTF-8: f7bfbfbf"),
    Title("6.10.2", "Last sequence of 5 bytes, no UTF-8: fbbfbfbfbf"),
    Title("6.10.3", "Last sequence of 6 bytes, no UTF-8: fdbfbfbfbfbf"),
    Title("6.11.1", "Last code point before the surrogates: ed9fbf"),
    Title("6.11.2", "First code point after the surrogates: ee8080"),
    Title("6.11.3", "Replacement character: efbfbd"),
    Title("6.11.4", "Last code point: f48fbfbf"),
    Title(
        "6.11.5",
        "First sequence above the last code point: f4908080",
    ),
];
