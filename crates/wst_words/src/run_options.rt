//! The arguments that commands share which run scripts over a tested end, and what they give.

ghost use Rattle.std.specs.Prelude.{◌≡◌, IfOk, MatchOption, codes, map};
ghost use Rattle.clap.specs.Words.{found_of, rows_of};
ghost use Rattle.wst_words.specs.Options.{LacksOneOf, given_words};
ghost use Rattle.wst_words.specs.RunOptions.{AsksForRun, run_arguments_without_timeout};

use crate::arguments::Argument;
use crate::arguments::ArgumentKind::{EachWord, End, Expected, NeededWord, Number, Word};
use crate::options::{end_of, expectation_of, number_of, word_of, words_of};
use clap::ArgMatches;
use std::alloc::{AllocError, Global};
use ws_scripts::Expectation;
use ws_wire::Role;

/// Over which end scripts are run, and how.
#[derive(Drop)]
pub struct RunOptions<'a> {
    /// The tested end.
    pub role: Role,
    /// What is expected of it.
    pub expect: Expectation,
    /// The masking key of the client's frames that have none of their own, as a word.
    pub key: &'a str,
    /// For so many seconds, or without a limit, as a word, the tested end is waited for, where that is given.
    pub timeout: Option<&'a str>,
    /// For so many seconds, as a word, a connection may last, where that is given.
    pub deadline: Option<&'a str>,
    /// For so many seconds, or without a limit, as a word, a client is waited for, where that is given.
    pub wait: Option<&'a str>,
    /// At most so many bytes are read of the tested end in one script behind its head.
    pub budget: u64,
    /// The subprotocols that are offered, or of a server known, joined by commas, where they are given.
    pub protocols: Option<&'a str>,
    /// The headers that the request has behind its own, each a word, in their order.
    pub headers: Vec<&'a str>,
    /// The address at which the connection is made, where that is given.
    pub connect: Option<&'a str>,
    /// The tested end: `own`, `tung`, an address or a URL. Clients come to the address.
    pub target: &'a str,
}

pub(crate) const ROLE: Argument = Argument {
    name: "role",
    kind: End,
    default: Some("server"),
    value_name: "END",
    heading: Some("Target"),
    help: "Test a `server` or a `client`",
};

pub(crate) const EXPECT: Argument = Argument {
    name: "expect",
    kind: Expected,
    default: Some("echo"),
    value_name: "WHAT",
    heading: Some("Target"),
    help: "`echo`: it must send back each message; `protocol`:\nit need not; RFC 6455 alone counts",
};

pub(crate) const KEY: Argument = Argument {
    name: "key",
    kind: Word,
    default: Some("37fa213d"),
    value_name: "HEX8",
    heading: Some("Target"),
    help: "Masking key, in lower-case hex",
};

pub(crate) const TIMEOUT: Argument = Argument {
    name: "timeout",
    kind: Word,
    default: None,
    value_name: "SECONDS",
    heading: Some("Limits"),
    help: "Wait SECONDS for progress, or `none` [default: 10]",
};

pub(crate) const DEADLINE: Argument = Argument {
    name: "deadline",
    kind: Word,
    default: None,
    value_name: "SECONDS",
    heading: Some("Limits"),
    help: "End connection after SECONDS [default: 10 x timeout]",
};

pub(crate) const WAIT: Argument = Argument {
    name: "wait",
    kind: Word,
    default: None,
    value_name: "SECONDS",
    heading: Some("Limits"),
    help: "Wait SECONDS for clients, or `none` [default: 60]",
};

pub(crate) const BUDGET: Argument = Argument {
    name: "budget",
    kind: Number,
    default: Some("67108864"),
    value_name: "N",
    heading: Some("Limits"),
    help: "Read up to N bytes a connection",
};

/// How many failures end a run of cases, which `send` doesn't know.
pub(crate) const MAX_FAIL: Argument = Argument {
    name: "max-fail",
    kind: Word,
    default: None,
    value_name: "N",
    heading: Some("Limits"),
    help: "Stop after N FAILs or missing connections, 1 to 1000",
};

/// How many cases run at a time, which `send` doesn't know.
pub(crate) const AT_ONCE: Argument = Argument {
    name: "at-once",
    kind: Word,
    default: None,
    value_name: "N",
    heading: Some("Limits"),
    help: "Connections at a time, 1 to 100 [default: 1]",
};

pub(crate) const PROTOCOLS: Argument = Argument {
    name: "protocols",
    kind: Word,
    default: None,
    value_name: "LIST",
    heading: Some("Handshake"),
    help: "Offer these subprotocols, separated by commas",
};

pub(crate) const HEADER: Argument = Argument {
    name: "header",
    kind: EachWord,
    default: None,
    value_name: "NAME: VALUE",
    heading: Some("Handshake"),
    help: "Add a header to the request, up to 32 times",
};

pub(crate) const CONNECT: Argument = Argument {
    name: "connect",
    kind: Word,
    default: None,
    value_name: "HOST:PORT",
    heading: Some("Target"),
    help: "Connect here instead, and still request TARGET",
};

pub(crate) const TARGET: Argument = Argument {
    name: "target",
    kind: NeededWord,
    default: None,
    value_name: "TARGET",
    heading: None,
    help: "HOST:PORT, a ws:// URL, or in memory the echo of wst (`own`) or of
tungstenite (`tung`). With --role client: where wst listens",
};

/// What the words give. `None` where a word has no value.
pub(crate) fn run_options<'a>(
    alloc: Global,
    options: &ArgMatches<'a>,
) -> Result<Option<RunOptions<'a>>, AllocError>
    ensures { IfOk result (λ found. MatchOption found
        (LacksOneOf (rows_of (found_of options.now)) run_arguments_without_timeout)
        (AsksForRun (rows_of (found_of options.now)))) }
{
    let headers = words_of(alloc, options, "header")?;
    Ok(options_with(options, headers))
}

/// What the words give, with these headers.
fn options_with<'a>(options: &ArgMatches<'a>, headers: Vec<&'a str>) -> Option<RunOptions<'a>>
    requires { map (λ word. word.now) headers.items ≡ given_words (codes "header") (rows_of (found_of options.now)) }
    ensures { MatchOption result (LacksOneOf (rows_of (found_of options.now)) run_arguments_without_timeout)
        (AsksForRun (rows_of (found_of options.now))) }
{
    let role = end_of(options, "role")?;
    let expect = expectation_of(options, "expect")?;
    let key = word_of(options, "key")?;
    let budget = number_of(options, "budget")?;
    let target = word_of(options, "target")?;
    Some(RunOptions {
        role,
        expect,
        key,
        timeout: word_of(options, "timeout"),
        deadline: word_of(options, "deadline"),
        wait: word_of(options, "wait"),
        budget,
        protocols: word_of(options, "protocols"),
        headers,
        connect: word_of(options, "connect"),
        target,
    })
}
