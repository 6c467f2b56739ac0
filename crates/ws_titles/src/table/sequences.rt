//! Group 6, sequences of bytes that are no text.

ghost use Rattle.std.specs.Prelude.{◌≡◌, map};
ghost use Rattle.ws_titles.specs.TitleTable.{sequence_titles};
ghost use Rattle.ws_titles.specs.Titles.{title_pair};

use crate::table::Title;

/// Their titles.
pub(crate) fn titles() -> &'static [Title]
    ensures { map title_pair result.now ≡ sequence_titles }
{
    &TITLES
}

static TITLES: [Title; 27] = [
    Title("6.12.1", "Continuation byte alone: 80"),
    Title("6.12.2", "Continuation byte alone: bf"),
    Title("6.12.3", "Continuation bytes alone: 80bf"),
    Title("6.12.4", "Continuation bytes alone: 80bf80"),
    Title("6.12.5", "Continuation bytes alone: 80bf80bf"),
    Title("6.12.6", "Continuation bytes alone: 80bf80bf80"),
    Title("6.12.7", "Continuation bytes alone: 80bf80bf80bf"),
    Title("6.12.8", "All 64 continuation bytes"),
    Title(
        "6.13.1",
        "Start of a sequence of 2 bytes, then a space: c020",
    ),
    Title(
        "6.13.2",
        "Start of a sequence of 3 bytes, then a space: e020",
    ),
    Title(
        "6.13.3",
        "Start of a sequence of 4 bytes, then a space: f020",
    ),
    Title(
        "6.13.4",
        "Start of a sequence of 5 bytes, then a space: f820",
    ),
    Title(
        "6.13.5",
        "Start of a sequence of 6 bytes, then a space: fc20",
    ),
    Title("6.14.1", "Sequence of 2 bytes without its last: c0"),
    Title("6.14.2", "Sequence of 3 bytes without its last: e080"),
    Title("6.14.3", "Sequence of 4 bytes without its last: f08080"),
    Title("6.14.4", "Sequence of 5 bytes without its last: f8808080"),
    Title("6.14.5", "Sequence of 6 bytes without its last: fc80808080"),
    Title("6.14.6", "Sequence of 2 bytes without its last: df"),
    Title("6.14.7", "Sequence of 3 bytes without its last: efbf"),
    Title("6.14.8", "Sequence of 4 bytes without its last: f7bfbf"),
    Title("6.14.9", "Sequence of 5 bytes without its last: fbbfbfbf"),
    Title(
        "6.14.10",
        "Sequence of 6 bytes without its last: fdbfbfbfbf",
    ),
    Title("6.15.1", "The sequences of 6.14, one after the other"),
    Title("6.16.1", "Byte that UTF-8 never has: fe"),
    Title("6.16.2", "Byte that UTF-8 never has: ff"),
    Title("6.16.3", "Bytes that UTF-8 never has: fefeffff"),
];
