//! Group 6, code points that are seldom seen.

ghost use Rattle.std.specs.Prelude.{◌≡◌, map};
ghost use Rattle.ws_titles.specs.TitleTable.{code_point_titles};
ghost use Rattle.ws_titles.specs.Titles.{title_pair};

use crate::table::Title;

/// Their titles.
pub(crate) fn titles() -> &'static [Title]
    ensures { map title_pair result.now ≡ code_point_titles }
{
    &TITLES
}

static TITLES: [Title; 41] = [
    Title("6.22.1", "Noncharacter U+FFFE: efbfbe"),
    Title("6.22.2", "Noncharacter U+FFFF: efbfbf"),
    Title("6.22.3", "Noncharacter U+1FFFE: f09fbfbe"),
    Title("6.22.4", "Noncharacter U+1FFFF: f09fbfbf"),
    Title("6.22.5", "Noncharacter U+2FFFE: f0afbfbe"),
    Title("6.22.6", "Noncharacter U+2FFFF: f0afbfbf"),
    Title("6.22.7", "Noncharacter U+3FFFE: f0bfbfbe"),
    Title("6.22.8", "Noncharacter U+3FFFF: f0bfbfbf"),
    Title("6.22.9", "Noncharacter U+4FFFE: f18fbfbe"),
    Title("6.22.10", "Noncharacter U+4FFFF: f18fbfbf"),
    Title("6.22.11", "Noncharacter U+5FFFE: f19fbfbe"),
    Title("6.22.12", "Noncharacter U+5FFFF: f19fbfbf"),
    Title("6.22.13", "Noncharacter U+6FFFE: f1afbfbe"),
    Title("6.22.14", "Noncharacter U+6FFFF: f1afbfbf"),
    Title("6.22.15", "Noncharacter U+7FFFE: f1bfbfbe"),
    Title("6.22.16", "Noncharacter U+7FFFF: f1bfbfbf"),
    Title("6.22.17", "Noncharacter U+8FFFE: f28fbfbe"),
    Title("6.22.18", "Noncharacter U+8FFFF: f28fbfbf"),
    Title("6.22.19", "Noncharacter U+9FFFE: f29fbfbe"),
    Title("6.22.20", "Noncharacter U+9FFFF: f29fbfbf"),
    Title("6.22.21", "Noncharacter U+AFFFE: f2afbfbe"),
    Title("6.22.22", "Noncharacter U+AFFFF: f2afbfbf"),
    Title("6.22.23", "Noncharacter U+BFFFE: f2bfbfbe"),
    Title("6.22.24", "Noncharacter U+BFFFF: f2bfbfbf"),
    Title("6.22.25", "Noncharacter U+CFFFE: f38fbfbe"),
    Title("6.22.26", "Noncharacter U+CFFFF: f38fbfbf"),
    Title("6.22.27", "Noncharacter U+DFFFE: f39fbfbe"),
    Title("6.22.28", "Noncharacter U+DFFFF: f39fbfbf"),
    Title("6.22.29", "Noncharacter U+EFFFE: f3afbfbe"),
    Title("6.22.30", "Noncharacter U+EFFFF: f3afbfbf"),
    Title("6.22.31", "Noncharacter U+FFFFE: f3bfbfbe"),
    Title("6.22.32", "Noncharacter U+FFFFF: f3bfbfbf"),
    Title("6.22.33", "Noncharacter U+10FFFE: f48fbfbe"),
    Title("6.22.34", "Noncharacter U+10FFFF: f48fbfbf"),
    Title("6.23.1", "Code point U+FFF9 of the Specials: efbfb9"),
    Title("6.23.2", "Code point U+FFFA of the Specials: efbfba"),
    Title("6.23.3", "Code point U+FFFB of the Specials: efbfbb"),
    Title("6.23.4", "Code point U+FFFC of the Specials: efbfbc"),
    Title("6.23.5", "Code point U+FFFD of the Specials: efbfbd"),
    Title("6.23.6", "Code point U+FFFE of the Specials: efbfbe"),
    Title("6.23.7", "Code point U+FFFF of the Specials: efbfbf"),
];
