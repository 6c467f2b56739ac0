//! Group 7: the closing handshake, close codes and reasons.

ghost use Rattle.std.specs.Prelude.{◌≡◌, map};
ghost use Rattle.ws_titles.specs.TitleTable.{close_titles};
ghost use Rattle.ws_titles.specs.Titles.{title_pair};

use crate::table::Title;

/// Their titles.
pub(crate) fn titles() -> &'static [Title]
    ensures { map title_pair result.now ≡ close_titles }
{
    &TITLES
}

static TITLES: [Title; 35] = [
    Title("7.1.1", "Text, then a close"),
    Title("7.1.2", "Close, then another close"),
    Title("7.1.3", "Close, then a ping"),
    Title("7.1.4", "Close, then a text"),
    Title("7.1.5", "Close between two fragments of a text"),
    Title("7.1.6", "Text of 262144 bytes, a close, then a ping"),
    Title("7.3.1", "Close without a payload"),
    Title("7.3.2", "Close with a payload of one byte"),
    Title("7.3.3", "Close with code 1000 and no reason"),
    Title("7.3.4", "Close with code 1000 and a reason"),
    Title(
        "7.3.5",
        "Close with a reason of 123 bytes, the most that is allowed",
    ),
    Title("7.3.6", "Close with a reason of 124 bytes, one too many"),
    Title("7.5.1", "Close with a reason that is not UTF-8"),
    Title("7.7.1", "Close with code 1000, which is allowed"),
    Title("7.7.2", "Close with code 1001, which is allowed"),
    Title("7.7.3", "Close with code 1002, which is allowed"),
    Title("7.7.4", "Close with code 1003, which is allowed"),
    Title("7.7.5", "Close with code 1007, which is allowed"),
    Title("7.7.6", "Close with code 1008, which is allowed"),
    Title("7.7.7", "Close with code 1009, which is allowed"),
    Title("7.7.8", "Close with code 1010, which is allowed"),
    Title("7.7.9", "Close with code 1011, which is allowed"),
    Title("7.7.10", "Close with code 3000, which is allowed"),
    Title("7.7.11", "Close with code 3999, which is allowed"),
    Title("7.7.12", "Close with code 4000, which is allowed"),
    Title("7.7.13", "Close with code 4999, which is allowed"),
    Title("7.9.1", "Close with code 0, which is not allowed"),
    Title("7.9.2", "Close with code 999, which is not allowed"),
    Title("7.9.3", "Close with code 1004, which is not allowed"),
    Title("7.9.4", "Close with code 1005, which is not allowed"),
    Title("7.9.5", "Close with code 1006, which is not allowed"),
    Title("7.9.6", "Close with code 1016, which is not allowed"),
    Title("7.9.7", "Close with code 1100, which is not allowed"),
    Title("7.9.8", "Close with code 2000, which is not allowed"),
    Title("7.9.9", "Close with code 2999, which is not allowed"),
];
