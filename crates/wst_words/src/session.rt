//! The words of the command `session`.

ghost use Rattle.std.specs.Prelude.{◌≡◌, MatchOption, map};
ghost use Rattle.clap.specs.Words.{found_of, rows_of};
ghost use Rattle.wst_words.specs.Options.{LacksOneOf};
ghost use Rattle.wst_words.specs.Session.{AsksForSession, session_command};
ghost use Rattle.wst_words.specs.Arguments.{argument_row};

use crate::arguments::Argument;
use crate::arguments::ArgumentKind::{End, Flag, Number};
use crate::commands::HelpText;
use crate::options::{end_of, flag_of, number_of, number_or};
use clap::ArgMatches;
use ws_wire::Role;

/// The options of `session`.
#[derive(Clone, Copy)]
pub struct SessionOptions {
    /// The role of the endpoint.
    pub role: Role,
    /// It takes messages of at most so many bytes.
    pub limit: u64,
    /// It takes data frames of at most so many bytes.
    pub frame: u64,
    /// It is an echo: it sends each message back, and nothing of its own accord.
    pub echo: bool,
}

/// Its arguments.
static ARGUMENTS: [Argument; 4] = [
    Argument {
        name: "role",
        kind: End,
        default: Some("server"),
        value_name: "END",
        heading: None,
        help: "The endpoint is a `client` or a `server`",
    },
    Argument {
        name: "limit",
        kind: Number,
        default: Some("1048576"),
        value_name: "N",
        heading: None,
        help: "Largest message that it accepts, in bytes",
    },
    Argument {
        name: "frame",
        kind: Number,
        default: None,
        value_name: "N",
        heading: None,
        help: "Largest data frame that it accepts [default: as --limit]",
    },
    Argument {
        name: "echo",
        kind: Flag,
        default: None,
        value_name: "",
        heading: None,
        help: "Send back each message; only take and end are calls then",
    },
];

/// The arguments of `session`.
pub(crate) fn arguments() -> &'static [Argument]
    ensures { map argument_row result.now ≡ session_command.arguments }
{
    &ARGUMENTS
}

/// The options that were met. `None` where one has no value.
pub(crate) fn session_options(options: &ArgMatches<'_>) -> Option<SessionOptions>
    ensures { MatchOption result (LacksOneOf (rows_of (found_of options.now)) session_command.arguments)
        (AsksForSession (rows_of (found_of options.now))) }
{
    let role = end_of(options, "role")?;
    let limit = number_of(options, "limit")?;
    let frame = number_or(options, "frame", limit)?;
    let echo = flag_of(options, "echo")?;
    Some(SessionOptions {
        role,
        limit,
        frame,
        echo,
    })
}

/// What help says of `session`.
pub(crate) fn help<'a>() -> HelpText<'a> {
    HelpText {
        about: "Make calls at one endpoint, in memory, and print its answers",
        usage: Some("wst session [OPTIONS] < CALLS"),
        after_help: AFTER_HELP,
    }
}

/// What follows the options of `session`.
const AFTER_HELP: &str = "Limits are 1 to 16777216. The script on stdin has one call per line:
  begin text|binary fin|part HEX KEY   send a message's first frame
  more fin|part HEX KEY                send its next frame
  ping HEX KEY, pong HEX KEY           send a ping or a pong
  close CODE|none HEX KEY              send a close with this reason
  take HEX KEY                         these bytes arrive from the peer
  end                                  the stream from the peer ends
HEX is pairs of hexadecimal digits, or - for none. KEY is a masking key of
eight digits, or - for zeros.

Exit status:
  0  all calls were made
  1  a line is no call, and none was made
  2  usage error
  3  an I/O or memory error

Examples:
  # Hello arrives at a server, which then sends hi
  printf '%s\\n' 'take 818537fa213d7f9f4d5158 -' \\
    'begin text fin 6869 -' | wst session
  # an unmasked frame, in two pieces
  printf '%s\\n' 'take 8101 -' 'take 61 -' | wst session
  # the same bytes at a client that echoes
  echo 'take 810161 37fa213d' | wst session --role client --echo";
