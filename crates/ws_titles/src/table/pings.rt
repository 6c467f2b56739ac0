//! Group 2: pings and pongs.

ghost use Rattle.std.specs.Prelude.{◌≡◌, map};
ghost use Rattle.ws_titles.specs.TitleTable.{ping_titles};
ghost use Rattle.ws_titles.specs.Titles.{title_pair};

use crate::table::Title;

/// Their titles.
pub(crate) fn titles() -> &'static [Title]
    ensures { map title_pair result.now ≡ ping_titles }
{
    &TITLES
}

static TITLES: [Title; 11] = [
    Title("2.1", "Ping without a payload"),
    Title("2.2", "Ping with a text as its payload"),
    Title("2.3", "Ping with a payload that is not text"),
    Title("2.4", "Ping of 125 bytes, the most that is allowed"),
    Title("2.5", "Ping of 126 bytes, one too many"),
    Title("2.6", "Ping of 125 bytes, byte by byte"),
    Title("2.7", "Unprompted pong without a payload"),
    Title("2.8", "Unprompted pong with a payload"),
    Title("2.9", "Unprompted pong, then a ping"),
    Title("2.10", "Ten pings in one write"),
    Title("2.11", "Ten pings, byte by byte"),
];
