//! Group 3: reserved bits.

ghost use Rattle.std.specs.Prelude.{◌≡◌, map};
ghost use Rattle.ws_titles.specs.TitleTable.{reserved_bit_titles};
ghost use Rattle.ws_titles.specs.Titles.{title_pair};

use crate::table::Title;

/// Their titles.
pub(crate) fn titles() -> &'static [Title]
    ensures { map title_pair result.now ≡ reserved_bit_titles }
{
    &TITLES
}

static TITLES: [Title; 7] = [
    Title("3.1", "RSV3 set in a text"),
    Title("3.2", "RSV2 set in the second of two texts, then a ping"),
    Title(
        "3.3",
        "RSV2 and RSV3 set in the second of two texts, frame by frame",
    ),
    Title("3.4", "RSV1 set in the second of two texts, byte by byte"),
    Title("3.5", "RSV1 and RSV3 set in a binary message"),
    Title("3.6", "RSV1 and RSV2 set in a ping"),
    Title("3.7", "All three reserved bits set in a close"),
];
