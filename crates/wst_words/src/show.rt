//! The words of the command `show`.

ghost use Rattle.std.specs.Prelude.{◌≡◌, MatchOption, map};
ghost use Rattle.clap.specs.Words.{found_of, rows_of};
ghost use Rattle.wst_words.specs.Options.{LacksOneOf};
ghost use Rattle.wst_words.specs.Show.{AsksToShow, show_command};
ghost use Rattle.wst_words.specs.Arguments.{argument_row};

use crate::arguments::Argument;
use crate::arguments::ArgumentKind::{End, Flag, Number, Style};
use crate::commands::HelpText;
use crate::options::{end_if_any, flag_of, number_if_any, style_of};
use clap::ArgMatches;
use ws_frame::DataStyle;
use ws_wire::Role;

/// The options of `show`.
#[derive(Clone, Copy)]
pub struct ShowOptions {
    /// The end that sent the frames of a stream, where it is told.
    pub from: Option<Role>,
    /// At most so many bytes of a stream are read, where that is told.
    pub budget: Option<u64>,
    /// The input is a capture.
    pub capture: bool,
    /// The tested end of the capture, where it is told.
    pub role: Option<Role>,
    /// How payloads are shown.
    pub style: DataStyle,
}

/// How payloads are shown. Other commands that show frames have it too.
pub(crate) const DATA: Argument = Argument {
    name: "data",
    kind: Style,
    default: Some("hex"),
    value_name: "HOW",
    heading: None,
    help: "Print DATA as `hex` (up to 16 bytes), as `text` if it is\nUTF-8, or `all` of it as hex",
};

/// Its arguments.
static ARGUMENTS: [Argument; 5] = [
    Argument {
        name: "from",
        kind: End,
        default: None,
        value_name: "END",
        heading: None,
        help: "Who sent the bytes: `client` or `server` [default: server]",
    },
    Argument {
        name: "budget",
        kind: Number,
        default: None,
        value_name: "N",
        heading: None,
        help: "Read at most N bytes [default: 1073741824]",
    },
    Argument {
        name: "capture",
        kind: Flag,
        default: None,
        value_name: "",
        heading: None,
        help: "Read a capture, and print both directions, turn by turn",
    },
    Argument {
        name: "role",
        kind: End,
        default: None,
        value_name: "END",
        heading: None,
        help: "With --capture, the tested endpoint: `client` or `server`\n[default: server]",
    },
    DATA,
];

/// The arguments of `show`.
pub(crate) fn arguments() -> &'static [Argument]
    ensures { map argument_row result.now ≡ show_command.arguments }
{
    &ARGUMENTS
}

/// The options that were met. `None` where one has no value.
pub(crate) fn show_options(options: &ArgMatches<'_>) -> Option<ShowOptions>
    ensures { MatchOption result (LacksOneOf (rows_of (found_of options.now)) show_command.arguments)
        (AsksToShow (rows_of (found_of options.now))) }
{
    let budget = number_if_any(options, "budget")?;
    let capture = flag_of(options, "capture")?;
    let style = style_of(options, "data")?;
    Some(ShowOptions {
        from: end_if_any(options, "from"),
        budget,
        capture,
        role: end_if_any(options, "role"),
        style,
    })
}

/// What help says of `show`.
pub(crate) fn help<'a>() -> HelpText<'a> {
    HelpText {
        about: "Print the frames of a byte stream or a capture, one line each",
        usage: Some("wst show [OPTIONS] < BYTES"),
        after_help: AFTER_HELP,
    }
}

/// What follows the options of `show`.
const AFTER_HELP: &str = "Each frame on stdin is printed as one line:
  OFFSET KIND fin=0|1 rsv=R key=KEY len=LENGTH FORM DATA
It ends in !mask if the frame should be masked and is not, or the reverse, and
in !form if the length is written in more bytes than needed.

Exit status:
  0  all frames were printed
  1  the stream ends inside a frame, a length is bad, or it is no capture
  2  usage error
  3  the budget is used up, or an I/O or memory error

Examples:
  # prints: 0 text fin=1 rsv=0 key=- len=5 short 48656c6c6f
  printf '\\201\\005Hello' | wst show
  # what a client sent
  wst show --from client < client.bytes
  # both directions of a test case
  wst test --capture own 1.1.1 | wst show --capture";
