//! The words of the command `convert`.

ghost use Rattle.std.specs.Prelude.{◌≡◌, map};
ghost use Rattle.clap.specs.Words.{found_of, rows_of};
ghost use Rattle.wst_words.specs.Convert.{AsksToConvert, convert_command};
ghost use Rattle.wst_words.specs.Arguments.{argument_row};

use crate::arguments::Argument;
use crate::arguments::ArgumentKind::{End, Word};
use crate::commands::HelpText;
use crate::options::{end_if_any, word_of};
use clap::ArgMatches;
use ws_wire::Role;

/// The options of `convert`.
#[derive(Clone, Copy)]
pub struct ConvertOptions<'a> {
    /// The program that wrote what is read, where it is no capture.
    pub from: Option<&'a str>,
    /// The end of it that is judged, where it is told.
    pub role: Option<Role>,
}

/// Its arguments.
static ARGUMENTS: [Argument; 2] = [
    Argument {
        name: "from",
        kind: Word,
        default: None,
        value_name: "PROGRAM",
        heading: None,
        help: "Read what `tshark` printed of a stream that it follows",
    },
    Argument {
        name: "role",
        kind: End,
        default: None,
        value_name: "END",
        heading: None,
        help: "With --from, the endpoint to judge: `client` or `server`\n[default: server]",
    },
];

/// The arguments of `convert`.
pub(crate) fn arguments() -> &'static [Argument]
    ensures { map argument_row result.now ≡ convert_command.arguments }
{
    &ARGUMENTS
}

/// The options that were met.
pub(crate) fn convert_options<'a>(options: &ArgMatches<'a>) -> ConvertOptions<'a>
    ensures { AsksToConvert (rows_of (found_of options.now)) result }
{
    ConvertOptions {
        from: word_of(options, "from"),
        role: end_if_any(options, "role"),
    }
}

/// What help says of `convert`.
pub(crate) fn help<'a>() -> HelpText<'a> {
    HelpText {
        about: "Convert a capture to format 2, which keeps all of it",
        usage: Some("wst convert [OPTIONS] < CAPTURE"),
        after_help: AFTER_HELP,
    }
}

/// What follows the options of `convert`.
const AFTER_HELP: &str =
    "A capture is read from stdin, in format 1 or 2. Only format 2 keeps the masking
key, turns in which nothing was received, and whether the connection broke.
With --from tshark, what `tshark -q -z follow,tcp,raw,N` printed of connection N
of a pcap is read: its opening handshake is checked, and left out.

Exit status:
  0  written
  1  stdin is no capture, or not what tshark prints, or lacks bytes
  2  usage error
  3  an I/O or memory error

Examples:
  wst convert < old.capture > new.capture
  # prints the key as -, since format 1 has none
  printf '%s\\n' 'wst-capture 1' '> 81810000000061' '< 810161' \\
    'end peer' | wst convert
  # judges the server of the first connection of a pcap
  tshark -r my.pcap -q -z follow,tcp,raw,0 | wst convert --from tshark |
    wst judge --expect protocol --explain";
