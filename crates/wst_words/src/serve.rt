//! The words of the command `serve`.

ghost use Rattle.std.specs.Prelude.{◌≡◌, MatchOption, map};
ghost use Rattle.clap.specs.Words.{found_of, rows_of};
ghost use Rattle.wst_words.specs.Options.{LacksOneOf};
ghost use Rattle.wst_words.specs.Serve.{AsksToServe, serve_command};
ghost use Rattle.wst_words.specs.Arguments.{argument_row};

use crate::arguments::Argument;
use crate::arguments::ArgumentKind::{FreeCount, NeededWord, Number, Word};
use crate::commands::HelpText;
use crate::options::{count_if_any, number_of, number_or, word_of};
use clap::ArgMatches;

/// What `serve` is asked to serve.
#[derive(Clone, Copy)]
pub struct ServeOptions<'a> {
    /// The server takes messages of at most so many bytes.
    pub limit: u64,
    /// It takes data frames of at most so many bytes.
    pub frame: u64,
    /// It reads at most so many bytes of a connection behind the head of its request.
    pub budget: u64,
    /// It ends a connection on which no byte has come for so many seconds, as a word, where that is given.
    pub timeout: Option<&'a str>,
    /// It ends a connection that has lasted for so many seconds, as a word, where that is given.
    pub deadline: Option<&'a str>,
    /// It serves so many connections at a time, as a word.
    pub at_once: &'a str,
    /// The subprotocols that it knows, joined by commas, where they are given.
    pub protocols: Option<&'a str>,
    /// The address at which it listens: an IP address or the name of a host, and a port.
    pub address: &'a str,
    /// It serves so many connections, or goes on until it is ended where no count is given.
    pub count: Option<u32>,
}

/// Its arguments.
static ARGUMENTS: [Argument; 9] = [
    Argument {
        name: "limit",
        kind: Number,
        default: Some("1048576"),
        value_name: "N",
        heading: None,
        help: "Largest message, 1 to 16777216",
    },
    Argument {
        name: "frame",
        kind: Number,
        default: None,
        value_name: "N",
        heading: None,
        help: "Largest data frame [default: as --limit]",
    },
    Argument {
        name: "budget",
        kind: Number,
        default: Some("1073741824"),
        value_name: "N",
        heading: None,
        help: "Read up to N bytes per client",
    },
    Argument {
        name: "timeout",
        kind: Word,
        default: None,
        value_name: "SECONDS",
        heading: None,
        help: "Seconds of silence that end a connection, 1 to 3600\n[default: no limit]",
    },
    Argument {
        name: "deadline",
        kind: Word,
        default: None,
        value_name: "SECONDS",
        heading: None,
        help: "Longest connection, 1 to 86400 [default: no limit]",
    },
    Argument {
        name: "at-once",
        kind: Word,
        default: Some("1"),
        value_name: "N",
        heading: None,
        help: "Connections at a time, 1 to 1000",
    },
    Argument {
        name: "protocols",
        kind: Word,
        default: None,
        value_name: "LIST",
        heading: None,
        help: "Subprotocols of the server, separated by commas",
    },
    Argument {
        name: "address",
        kind: NeededWord,
        default: None,
        value_name: "ADDR",
        heading: None,
        help: "HOST:PORT to listen at; for port 0 the system chooses one",
    },
    Argument {
        name: "count",
        kind: FreeCount,
        default: None,
        value_name: "COUNT",
        heading: None,
        help: "Stop after COUNT connections [default: never]",
    },
];

/// The arguments of `serve`.
pub(crate) fn arguments() -> &'static [Argument]
    ensures { map argument_row result.now ≡ serve_command.arguments }
{
    &ARGUMENTS
}

/// What the words give. `None` where a word has no value.
pub(crate) fn serve_options<'a>(options: &ArgMatches<'a>) -> Option<ServeOptions<'a>>
    ensures { MatchOption result (LacksOneOf (rows_of (found_of options.now)) serve_command.arguments)
        (AsksToServe (rows_of (found_of options.now))) }
{
    let limit = number_of(options, "limit")?;
    let frame = number_or(options, "frame", limit)?;
    let budget = number_of(options, "budget")?;
    let address = word_of(options, "address")?;
    let count = count_if_any(options, "count")?;
    let at_once = word_of(options, "at-once")?;
    Some(ServeOptions {
        limit,
        frame,
        budget,
        timeout: word_of(options, "timeout"),
        deadline: word_of(options, "deadline"),
        at_once,
        protocols: word_of(options, "protocols"),
        address,
        count,
    })
}

/// What help says of `serve`.
pub(crate) fn help<'a>() -> HelpText<'a> {
    HelpText {
        about: "Run an echo server, to try WebSocket clients with",
        usage: None,
        after_help: AFTER_HELP,
    }
}

/// What follows the options of `serve`.
const AFTER_HELP: &str =
    "Each message is sent back. `listening on ADDR` is printed first, and then a line
for each connection that has ended. Beyond N connections, clients wait.

Exit status:
  0  COUNT connections were served, however they ended
  2  usage error
  3  cannot listen, cannot accept, or an I/O or memory error

Examples:
  # prints: 1 refused Upgrade
  wst serve 127.0.0.1:9001 1 & sleep 1; curl -s http://127.0.0.1:9001/
  # a test case
  wst serve 127.0.0.1:9001 1 & sleep 1; wst test 127.0.0.1:9001 1.1.1
  # for a browser: new WebSocket('ws://localhost:9001'); Ctrl-C ends it
  wst serve --at-once 16 localhost:9001";
