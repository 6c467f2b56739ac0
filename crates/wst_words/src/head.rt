//! The words of the command `head`.

ghost use Rattle.std.specs.Prelude.{◌≡◌, map};
ghost use Rattle.clap.specs.Words.{found_of, rows_of};
ghost use Rattle.wst_words.specs.Head.{AsksForHead, head_command};
ghost use Rattle.wst_words.specs.Arguments.{argument_row};

use crate::arguments::Argument;
use crate::arguments::ArgumentKind::Word;
use crate::commands::HelpText;
use crate::options::word_of;
use clap::ArgMatches;

/// What `head` is asked for.
#[derive(Clone, Copy)]
pub struct HeadOptions<'a> {
    /// The subprotocols that the server knows, joined by commas, where they are given.
    pub protocols: Option<&'a str>,
}

/// Its arguments.
static ARGUMENTS: [Argument; 1] = [Argument {
    name: "protocols",
    kind: Word,
    default: None,
    value_name: "LIST",
    heading: None,
    help: "Subprotocols of the server, separated by commas",
}];

/// The arguments of `head`.
pub(crate) fn arguments() -> &'static [Argument]
    ensures { map argument_row result.now ≡ head_command.arguments }
{
    &ARGUMENTS
}

/// What the words give.
pub(crate) fn head_options<'a>(options: &ArgMatches<'a>) -> HeadOptions<'a>
    ensures { AsksForHead (rows_of (found_of options.now)) result }
{
    HeadOptions {
        protocols: word_of(options, "protocols"),
    }
}

/// What help says of `head`.
pub(crate) fn help<'a>() -> HelpText<'a> {
    HelpText {
        about: "Answer the head of an upgrade request, as a server does",
        usage: Some("wst head [OPTIONS] < REQUEST"),
        after_help: AFTER_HELP,
    }
}

/// What follows the options of `head`.
const AFTER_HELP: &str =
    "The head of a request is read from stdin, up to its empty line. The response
that accepts or refuses it is written to stdout.

Exit status:
  0  the request is accepted
  1  the request is refused, or stdin ends inside the head
  2  usage error
  3  an I/O or memory error

Examples:
  # accepted
  printf '%s\\r\\n' 'GET /chat HTTP/1.1' 'Host: example.com' \\
    'Upgrade: websocket' 'Connection: Upgrade' \\
    'Sec-WebSocket-Key: dGhlIHNhbXBsZSBub25jZQ==' \\
    'Sec-WebSocket-Version: 13' '' | wst head
  # refused: it asks for no upgrade
  printf 'GET / HTTP/1.1\\r\\nHost: example.com\\r\\n\\r\\n' | wst head
  # with subprotocols
  wst head --protocols chat,superchat < request.head";
