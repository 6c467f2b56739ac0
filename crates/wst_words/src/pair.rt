//! The words of the command `pair`.

ghost use Rattle.std.specs.Prelude.{◌≡◌, MatchOption, map};
ghost use Rattle.clap.specs.Words.{found_of, rows_of};
ghost use Rattle.wst_words.specs.Options.{LacksOneOf};
ghost use Rattle.wst_words.specs.Pair.{AsksToPair, pair_command};
ghost use Rattle.wst_words.specs.Arguments.{argument_row};

use crate::arguments::Argument;
use crate::arguments::ArgumentKind::Number;
use crate::commands::HelpText;
use crate::options::{number_of, number_or};
use clap::ArgMatches;

/// The options of `pair`.
#[derive(Clone, Copy)]
pub struct PairOptions {
    /// The client takes messages of at most so many bytes.
    pub limit_client: u64,
    /// The server takes messages of at most so many bytes.
    pub limit_server: u64,
    /// The client takes data frames of at most so many bytes.
    pub frame_client: u64,
    /// The server takes data frames of at most so many bytes.
    pub frame_server: u64,
}

/// Its arguments.
static ARGUMENTS: [Argument; 4] = [
    Argument {
        name: "limit-client",
        kind: Number,
        default: Some("1048576"),
        value_name: "N",
        heading: None,
        help: "Largest message to the client",
    },
    Argument {
        name: "limit-server",
        kind: Number,
        default: Some("1048576"),
        value_name: "N",
        heading: None,
        help: "Largest message to the server",
    },
    Argument {
        name: "frame-client",
        kind: Number,
        default: None,
        value_name: "N",
        heading: None,
        help: "Largest data frame to the client\n[default: as --limit-client]",
    },
    Argument {
        name: "frame-server",
        kind: Number,
        default: None,
        value_name: "N",
        heading: None,
        help: "Largest data frame to the server\n[default: as --limit-server]",
    },
];

/// The arguments of `pair`.
pub(crate) fn arguments() -> &'static [Argument]
    ensures { map argument_row result.now ≡ pair_command.arguments }
{
    &ARGUMENTS
}

/// The options that were met. `None` where one has no value.
pub(crate) fn pair_options(options: &ArgMatches<'_>) -> Option<PairOptions>
    ensures { MatchOption result (LacksOneOf (rows_of (found_of options.now)) pair_command.arguments)
        (AsksToPair (rows_of (found_of options.now))) }
{
    let limit_client = number_of(options, "limit-client")?;
    let limit_server = number_of(options, "limit-server")?;
    let frame_client = number_or(options, "frame-client", limit_client)?;
    let frame_server = number_or(options, "frame-server", limit_server)?;
    Some(PairOptions {
        limit_client,
        limit_server,
        frame_client,
        frame_server,
    })
}

/// What help says of `pair`.
pub(crate) fn help<'a>() -> HelpText<'a> {
    HelpText {
        about: "Play moves at a joined client and server, in memory",
        usage: Some("wst pair [OPTIONS] < MOVES"),
        after_help: AFTER_HELP,
    }
}

/// What follows the options of `pair`.
const AFTER_HELP: &str =
    "Limits are in bytes: 1 to 16777216. The script on stdin has one move per line:
  begin END text|binary fin|part HEX KEY   END sends a message's first frame
  more END fin|part HEX KEY                END sends its next frame
  ping END HEX KEY, pong END HEX KEY       END sends a ping or a pong
  close END CODE|none HEX KEY              END sends a close with this reason
  arrive END N KEY                         at most N bytes arrive at END
  cut END                                  the stream to END ends
END is client or server. HEX is pairs of hexadecimal digits, or - for none.
KEY is a masking key of eight digits, or - for zeros.

Exit status:
  0  all moves were played
  1  a line is no move, and nothing was played
  2  usage error
  3  an I/O or memory error

Examples:
  # the client sends Hello, and all of it arrives
  printf '%s\\n' 'begin client text fin 48656c6c6f 37fa213d' \\
    'arrive server 100 -' | wst pair
  # a ping, and the pong that answers it
  printf '%s\\n' 'ping server 70 -' 'arrive client 9 -' \\
    'arrive server 9 -' | wst pair
  # the stream to the client ends without a close
  echo 'cut client' | wst pair";
