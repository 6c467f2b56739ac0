//! Group 1, framing: messages of each form of length.

ghost use Rattle.std.specs.Prelude.{◌≡◌, map};
ghost use Rattle.ws_titles.specs.TitleTable.{framing_titles};
ghost use Rattle.ws_titles.specs.Titles.{title_pair};

use crate::table::Title;

/// Their titles.
pub(crate) fn titles() -> &'static [Title]
    ensures { map title_pair result.now ≡ framing_titles }
{
    &TITLES
}

static TITLES: [Title; 16] = [
    Title("1.1.1", "Empty text message"),
    Title("1.1.2", "Text message of 125 bytes"),
    Title("1.1.3", "Text message of 126 bytes"),
    Title("1.1.4", "Text message of 127 bytes"),
    Title("1.1.5", "Text message of 128 bytes"),
    Title("1.1.6", "Text message of 65535 bytes"),
    Title("1.1.7", "Text message of 65536 bytes"),
    Title(
        "1.1.8",
        "Text message of 65536 bytes, in writes of 997 bytes",
    ),
    Title("1.2.1", "Empty binary message"),
    Title("1.2.2", "Binary message of 125 bytes"),
    Title("1.2.3", "Binary message of 126 bytes"),
    Title("1.2.4", "Binary message of 127 bytes"),
    Title("1.2.5", "Binary message of 128 bytes"),
    Title("1.2.6", "Binary message of 65535 bytes"),
    Title("1.2.7", "Binary message of 65536 bytes"),
    Title(
        "1.2.8",
        "Binary message of 65536 bytes, in writes of 997 bytes",
    ),
];
