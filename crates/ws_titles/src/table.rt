//! The table of titles, in parts that follow the table of cases.

mod closes;
mod code_points;
mod edges;
mod fragments;
mod framing;
mod hostile;
mod opcodes;
mod overlong;
mod pings;
mod reserved_bits;
mod sequences;
mod texts;

ghost use Rattle.std.specs.Prelude.{◌≡◌, ◌<◌, [], get_or, map};
ghost use Rattle.ws_titles.specs.TitleTable.{title_parts};
ghost use Rattle.ws_titles.specs.Titles.{title_pair};

/// The name of a case or a group, and its title.
#[derive(Clone, Copy)]
pub struct Title(pub &'static str, pub &'static str);

/// How many parts the table has.
pub(crate) const PARTS: usize = 12;

/// The titles of a part.
pub(crate) fn titles(part: usize) -> &'static [Title]
    requires { part < 12 }
    ensures { map title_pair result.now ≡ get_or title_parts part [] }
{
    match part {
        0 => framing::titles(),
        1 => pings::titles(),
        2 => reserved_bits::titles(),
        3 => opcodes::titles(),
        4 => fragments::titles(),
        5 => texts::titles(),
        6 => edges::titles(),
        7 => sequences::titles(),
        8 => overlong::titles(),
        9 => code_points::titles(),
        10 => closes::titles(),
        _ => hostile::titles(),
    }
}
