//! The groups of cases.

ghost use Rattle.std.specs.Prelude.{◌≡◌, map};
ghost use Rattle.ws_titles.specs.GroupTitles.{group_titles};
ghost use Rattle.ws_titles.specs.Titles.{title_pair};

use crate::table::Title;

/// The groups: of each the first part of the names of its cases, and what they try.
pub fn group_titles() -> &'static [Title]
    ensures { map title_pair result.now ≡ group_titles }
{
    &GROUPS
}

static GROUPS: [Title; 8] = [
    Title("1", "Lengths of messages"),
    Title("2", "Pings and pongs"),
    Title("3", "Reserved bits"),
    Title("4", "Reserved opcodes"),
    Title("5", "Fragments"),
    Title("6", "Valid and invalid text"),
    Title("7", "The closing handshake"),
    Title("x", "Cases that are run only if they are named"),
];
