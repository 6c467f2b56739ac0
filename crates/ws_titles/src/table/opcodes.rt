//! Group 4: reserved opcodes.

ghost use Rattle.std.specs.Prelude.{◌≡◌, map};
ghost use Rattle.ws_titles.specs.TitleTable.{opcode_titles};
ghost use Rattle.ws_titles.specs.Titles.{title_pair};

use crate::table::Title;

/// Their titles.
pub(crate) fn titles() -> &'static [Title]
    ensures { map title_pair result.now ≡ opcode_titles }
{
    &TITLES
}

static TITLES: [Title; 10] = [
    Title("4.1.1", "Reserved opcode 3 without a payload"),
    Title("4.1.2", "Reserved opcode 4 with a payload"),
    Title("4.1.3", "Reserved opcode 5 after a text, then a ping"),
    Title("4.1.4", "Reserved opcode 6 after a text, frame by frame"),
    Title("4.1.5", "Reserved opcode 7 after a text, byte by byte"),
    Title("4.2.1", "Reserved opcode 11 without a payload"),
    Title("4.2.2", "Reserved opcode 12 with a payload"),
    Title("4.2.3", "Reserved opcode 13 after a text, then a ping"),
    Title("4.2.4", "Reserved opcode 14 after a text, frame by frame"),
    Title("4.2.5", "Reserved opcode 15 after a text, byte by byte"),
];
