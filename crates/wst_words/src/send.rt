//! The words of the command `send`.

ghost use Rattle.std.specs.Prelude.{◌≡◌, IfOk, MatchOption, map};
ghost use Rattle.clap.specs.Words.{found_of, rows_of};
ghost use Rattle.wst_words.specs.Arguments.{argument_row};
ghost use Rattle.wst_words.specs.Options.{LacksOneOf};
ghost use Rattle.wst_words.specs.RunOptions.{AsksForRun};
ghost use Rattle.wst_words.specs.Send.{AsksToSend, send_command};

use crate::arguments::Argument;
use crate::arguments::ArgumentKind::Flag;
use crate::commands::HelpText;
use crate::options::{flag_of, style_of, word_of};
use crate::run_options::{
    BUDGET, CONNECT, DEADLINE, EXPECT, HEADER, KEY, PROTOCOLS, ROLE, RunOptions, TARGET, TIMEOUT,
    WAIT, run_options,
};
use crate::show::DATA;
use clap::ArgMatches;
use std::alloc::{AllocError, Global};
use ws_frame::DataStyle;

/// What `send` is asked to send its script to, and how.
#[derive(Drop)]
pub struct SendOptions<'a> {
    /// Over which end, and how. A time limit is always given.
    pub run: RunOptions<'a>,
    /// The capture is written in place of the frames.
    pub capture: bool,
    /// How payloads are shown.
    pub style: DataStyle,
    /// Each line stands behind the time since the connection began.
    pub time: bool,
    /// The lines of both heads are written too.
    pub heads: bool,
}

/// Its arguments.
static ARGUMENTS: [Argument; 15] = [
    ROLE,
    EXPECT,
    KEY,
    Argument {
        default: Some("2"),
        help: "Wait SECONDS for progress, or `none`",
        ..TIMEOUT
    },
    Argument {
        help: "End connection after SECONDS [default: no limit]",
        ..DEADLINE
    },
    WAIT,
    BUDGET,
    PROTOCOLS,
    HEADER,
    CONNECT,
    TARGET,
    Argument {
        name: "capture",
        kind: Flag,
        default: None,
        value_name: "",
        heading: Some("Output"),
        help: "Print the capture instead of the frames",
    },
    Argument {
        heading: Some("Output"),
        ..DATA
    },
    Argument {
        name: "time",
        kind: Flag,
        default: None,
        value_name: "",
        heading: Some("Output"),
        help: "Begin each line with the seconds since connecting",
    },
    Argument {
        name: "heads",
        kind: Flag,
        default: None,
        value_name: "",
        heading: Some("Output"),
        help: "Print the request and the response too",
    },
];

/// The arguments of `send`.
pub(crate) fn arguments() -> &'static [Argument]
    ensures { map argument_row result.now ≡ send_command.arguments }
{
    &ARGUMENTS
}

/// What the words give. `None` where a word has no value.
pub(crate) fn send_options<'a>(
    alloc: Global,
    options: &ArgMatches<'a>,
) -> Result<Option<SendOptions<'a>>, AllocError>
    ensures { IfOk result (λ found. MatchOption found
        (LacksOneOf (rows_of (found_of options.now)) send_command.arguments)
        (AsksToSend (rows_of (found_of options.now)))) }
{
    let found = run_options(alloc, options)?;
    match found {
        Some(run) => Ok(options_with(options, run)),
        None => Ok(None),
    }
}

/// What the words give, with this run.
fn options_with<'a>(options: &ArgMatches<'a>, run: RunOptions<'a>) -> Option<SendOptions<'a>>
    requires { AsksForRun (rows_of (found_of options.now)) run }
    ensures { MatchOption result (LacksOneOf (rows_of (found_of options.now)) send_command.arguments)
        (AsksToSend (rows_of (found_of options.now))) }
{
    let _seconds = word_of(options, "timeout")?;
    let capture = flag_of(options, "capture")?;
    let style = style_of(options, "data")?;
    let time = flag_of(options, "time")?;
    let heads = flag_of(options, "heads")?;
    Some(SendOptions {
        run,
        capture,
        style,
        time,
        heads,
    })
}

/// What help says of `send`.
pub(crate) fn help<'a>() -> HelpText<'a> {
    HelpText {
        about: "Send a script's frames to a server or a client, and print the replies",
        usage: Some("wst send [OPTIONS] <TARGET> < SCRIPT"),
        after_help: AFTER_HELP,
    }
}

/// What follows the options of `send`.
const AFTER_HELP: &str =
    "The script on stdin has one step per line. SCRIPTS in `man wst` has them all:
  text \"Hello\"         a frame: text, binary, cont, close, ping, pong or op3
  text fin=0 rsv=4 c3  no FIN; rsv: 4 RSV1, 2 RSV2, 1 RSV3; payload c3 in hex
  ping key=- -         no mask (key=37fa213d sets one), no payload
  close=1000           a close frame with this code
  wait                 the turn ends: wait for echoes and pongs that are due
                       (with --expect protocol: for the last pong)
A text in quotes is UTF-8, with JSON's escapes; other payloads are in hex.

Printed are frames sent (`>`) and received (`<`), and last who ended the
connection: `end peer`, `end tester` (wst did) or `end broken`.
With --role client, the first connection gets the script.

Exit status:
  0  the script was run, whoever ended the connection
  1  the script is invalid, or the handshake was refused
  2  usage error
  3  no connection, cannot listen, or an I/O or memory error

Examples:
  echo 'text key=- \"Hello\"' | wst send own
  # a ping between two fragments
  printf '%s\\n' 'text fin=0 \"a\"' 'ping \"b\"' 'cont \"c\"' | wst send own
  # the script of a test case
  wst cases 7.7.1 | wst send ws://localhost:9001/echo";
