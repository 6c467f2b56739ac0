//! The words of the command `tap`.

ghost use Rattle.std.specs.Prelude.{◌≡◌, MatchOption, map};
ghost use Rattle.clap.specs.Words.{found_of, rows_of};
ghost use Rattle.wst_words.specs.Options.{LacksOneOf};
ghost use Rattle.wst_words.specs.Tap.{AsksToTap, tap_command};
ghost use Rattle.wst_words.specs.Arguments.{argument_row};

use crate::arguments::Argument;
use crate::arguments::ArgumentKind::{Flag, FreeCount, NeededWord, Word};
use crate::commands::HelpText;
use crate::options::{count_if_any, flag_of, style_of, word_of};
use crate::show::DATA;
use clap::ArgMatches;
use ws_frame::DataStyle;

/// What `tap` is asked to tap.
#[derive(Clone, Copy)]
pub struct TapOptions<'a> {
    /// The address at which it listens: an IP address or the name of a host, and a port.
    pub listen: &'a str,
    /// The server to which it passes what its clients send: an address, or a `ws` URL.
    pub target: &'a str,
    /// It taps so many connections at a time, as a word.
    pub at_once: &'a str,
    /// It taps so many connections, or goes on until it is ended where no count is given.
    pub count: Option<u32>,
    /// How payloads are shown.
    pub style: DataStyle,
    /// Each line stands behind the time since its connection began.
    pub time: bool,
}

/// Its arguments.
static ARGUMENTS: [Argument; 6] = [
    Argument {
        name: "at-once",
        kind: Word,
        default: Some("1"),
        value_name: "N",
        heading: None,
        help: "Connections at a time, 1 to 1000",
    },
    Argument {
        name: "listen",
        kind: NeededWord,
        default: None,
        value_name: "LISTEN",
        heading: None,
        help: "HOST:PORT to listen at; for port 0 the system chooses one",
    },
    Argument {
        name: "target",
        kind: NeededWord,
        default: None,
        value_name: "TARGET",
        heading: None,
        help: "HOST:PORT or ws:// URL of the server",
    },
    Argument {
        name: "count",
        kind: FreeCount,
        default: None,
        value_name: "COUNT",
        heading: None,
        help: "Stop after COUNT connections [default: never]",
    },
    DATA,
    Argument {
        name: "time",
        kind: Flag,
        default: None,
        value_name: "",
        heading: None,
        help: "Begin each line with the seconds since connecting",
    },
];

/// The arguments of `tap`.
pub(crate) fn arguments() -> &'static [Argument]
    ensures { map argument_row result.now ≡ tap_command.arguments }
{
    &ARGUMENTS
}

/// What the words give. `None` where a word has no value.
pub(crate) fn tap_options<'a>(options: &ArgMatches<'a>) -> Option<TapOptions<'a>>
    ensures { MatchOption result (LacksOneOf (rows_of (found_of options.now)) tap_command.arguments)
        (AsksToTap (rows_of (found_of options.now))) }
{
    let listen = word_of(options, "listen")?;
    let target = word_of(options, "target")?;
    let at_once = word_of(options, "at-once")?;
    let count = count_if_any(options, "count")?;
    let style = style_of(options, "data")?;
    let time = flag_of(options, "time")?;
    Some(TapOptions {
        listen,
        target,
        at_once,
        count,
        style,
        time,
    })
}

/// What help says of `tap`.
pub(crate) fn help<'a>() -> HelpText<'a> {
    HelpText {
        about: "Forward bytes between clients and a server, and print the frames",
        usage: None,
        after_help: AFTER_HELP,
    }
}

/// What follows the options of `tap`.
const AFTER_HELP: &str =
    "Bytes are forwarded unchanged, as soon as they arrive. Of connection N, lines
with `N >` are what the client sent, lines with `N <` what the server sent:
the first line of each head, and then each frame, as `wst show` prints it.

Exit status:
  0  COUNT connections were forwarded, however they ended
  2  usage error
  3  cannot listen, cannot accept, or an I/O or memory error

Examples:
  # between one client and a server at port 9001
  wst tap 127.0.0.1:9002 127.0.0.1:9001 1
  # between a test case and an echo
  wst serve 127.0.0.1:9001 1 & wst tap 127.0.0.1:9002 127.0.0.1:9001 1 &
  sleep 1; wst test 127.0.0.1:9002 1.1.2
  # only what browsers send, to a server at port 9001; Ctrl-C ends it
  wst tap --at-once 16 localhost:9002 localhost:9001 | grep ' > '";
