//! Group 5: fragments, and control frames between them.

ghost use Rattle.std.specs.Prelude.{◌≡◌, map};
ghost use Rattle.ws_titles.specs.TitleTable.{fragment_titles};
ghost use Rattle.ws_titles.specs.Titles.{title_pair};

use crate::table::Title;

/// Their titles.
pub(crate) fn titles() -> &'static [Title]
    ensures { map title_pair result.now ≡ fragment_titles }
{
    &TITLES
}

static TITLES: [Title; 20] = [
    Title("5.1", "Ping in two fragments"),
    Title("5.2", "Pong in two fragments"),
    Title("5.3", "Text in two fragments, in one write"),
    Title("5.4", "Text in two fragments, frame by frame"),
    Title("5.5", "Text in two fragments, byte by byte"),
    Title("5.6", "Ping between two fragments of a text, in one write"),
    Title(
        "5.7",
        "Ping between two fragments of a text, frame by frame",
    ),
    Title("5.8", "Ping between two fragments of a text, byte by byte"),
    Title("5.9", "Continuation of nothing, in one write"),
    Title("5.10", "Continuation of nothing, frame by frame"),
    Title("5.11", "Continuation of nothing, byte by byte"),
    Title("5.12", "Unfinished continuation of nothing, in one write"),
    Title("5.13", "Unfinished continuation of nothing, frame by frame"),
    Title("5.14", "Unfinished continuation of nothing, byte by byte"),
    Title(
        "5.15",
        "Unfinished continuation of nothing after a fragmented text",
    ),
    Title(
        "5.16",
        "Unfinished continuation of nothing before a fragmented text",
    ),
    Title("5.17", "Continuation of nothing before a fragmented text"),
    Title("5.18", "New text inside a fragmented one"),
    Title(
        "5.19",
        "Text in five fragments with two pings, in two turns",
    ),
    Title(
        "5.20",
        "Text in five fragments with two pings, frame by frame",
    ),
];
