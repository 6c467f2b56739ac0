//! The words of the command `test`.

ghost use Rattle.std.specs.Prelude.{◌≡◌, IfOk, MatchOption, codes, map};
ghost use Rattle.clap.specs.Words.{found_of, rows_of};
ghost use Rattle.wst_words.specs.Options.{LacksOneOf, given_words};
ghost use Rattle.wst_words.specs.RunOptions.{AsksForRun};
ghost use Rattle.wst_words.specs.Test.{AsksToTest, test_command};
ghost use Rattle.wst_words.specs.Arguments.{argument_row};

use crate::arguments::Argument;
use crate::arguments::ArgumentKind::{Flag, Words};
use crate::commands::HelpText;
use crate::judge::EXPLAINED_DATA_HELP;
use crate::options::{flag_of, style_of, word_of, words_of};
use crate::run_options::{
    AT_ONCE, BUDGET, CONNECT, DEADLINE, EXPECT, HEADER, KEY, MAX_FAIL, PROTOCOLS, ROLE, RunOptions,
    TARGET, TIMEOUT, WAIT, run_options,
};
use crate::show::DATA;
use clap::ArgMatches;
use std::alloc::{AllocError, Global};
use ws_frame::DataStyle;

/// What `test` is asked to run.
#[derive(Drop)]
pub struct TestOptions<'a> {
    /// Over which end, and how.
    pub run: RunOptions<'a>,
    /// Behind so many failures, as a word, the run ends, where that is given.
    pub max_fail: Option<&'a str>,
    /// So many cases run at a time, as a word, where that is given.
    pub at_once: Option<&'a str>,
    /// The capture is written in place of the verdict.
    pub capture: bool,
    /// Below a verdict other than PASS it is told why.
    pub explain: bool,
    /// How the lines that tell why show payloads.
    pub style: DataStyle,
    /// The name of each case is told before it runs.
    pub progress: bool,
    /// Behind the total the verdicts other than PASS are told, each with its cases.
    pub summary: bool,
    /// The input has the lines of an earlier run, and what is otherwise is told.
    pub known: bool,
    /// A JUnit document is written in place of lines.
    pub junit: bool,
    /// The names of the cases in the order in which they run. None stands for all.
    pub ids: Vec<&'a str>,
}

/// Its arguments.
static ARGUMENTS: [Argument; 21] = [
    ROLE,
    EXPECT,
    KEY,
    TIMEOUT,
    DEADLINE,
    WAIT,
    BUDGET,
    PROTOCOLS,
    HEADER,
    CONNECT,
    TARGET,
    MAX_FAIL,
    AT_ONCE,
    Argument {
        name: "capture",
        kind: Flag,
        default: None,
        value_name: "",
        heading: Some("Output"),
        help: "Print the capture of the one case instead of its verdict",
    },
    Argument {
        name: "explain",
        kind: Flag,
        default: None,
        value_name: "",
        heading: Some("Output"),
        help: "Print what was expected and received, and the rule",
    },
    Argument {
        heading: Some("Output"),
        help: EXPLAINED_DATA_HELP,
        ..DATA
    },
    Argument {
        name: "progress",
        kind: Flag,
        default: None,
        value_name: "",
        heading: Some("Output"),
        help: "Print each ID to stderr before its case runs",
    },
    Argument {
        name: "summary",
        kind: Flag,
        default: None,
        value_name: "",
        heading: Some("Output"),
        help: "Print each verdict but PASS with its cases, after the total",
    },
    Argument {
        name: "known",
        kind: Flag,
        default: None,
        value_name: "",
        heading: Some("CI"),
        help: "Read an earlier run from stdin, and print what differs",
    },
    Argument {
        name: "junit",
        kind: Flag,
        default: None,
        value_name: "",
        heading: Some("CI"),
        help: "Write a JUnit document (incomplete if a signal ends wst)",
    },
    Argument {
        name: "ids",
        kind: Words,
        default: None,
        value_name: "ID",
        heading: None,
        help: "Cases to run, such as 2.5 or 7.*, in this order [default: all]",
    },
];

/// The arguments of `test`.
pub(crate) fn arguments() -> &'static [Argument]
    ensures { map argument_row result.now ≡ test_command.arguments }
{
    &ARGUMENTS
}

/// What the words give. `None` where a word has no value.
pub(crate) fn test_options<'a>(
    alloc: Global,
    options: &ArgMatches<'a>,
) -> Result<Option<TestOptions<'a>>, AllocError>
    ensures { IfOk result (λ found. MatchOption found
        (LacksOneOf (rows_of (found_of options.now)) test_command.arguments)
        (AsksToTest (rows_of (found_of options.now)))) }
{
    let ids = words_of(alloc, options, "ids")?;
    let found = run_options(alloc, options)?;
    match found {
        Some(run) => Ok(options_with(options, run, ids)),
        None => Ok(None),
    }
}

/// What the words give, with this run and these names of cases.
fn options_with<'a>(
    options: &ArgMatches<'a>,
    run: RunOptions<'a>,
    ids: Vec<&'a str>,
) -> Option<TestOptions<'a>>
    requires run { AsksForRun (rows_of (found_of options.now)) run }
    requires ids { map (λ id. id.now) ids.items ≡ given_words (codes "ids") (rows_of (found_of options.now)) }
    ensures { MatchOption result (LacksOneOf (rows_of (found_of options.now)) test_command.arguments)
        (AsksToTest (rows_of (found_of options.now))) }
{
    let capture = flag_of(options, "capture")?;
    let explain = flag_of(options, "explain")?;
    let style = style_of(options, "data")?;
    let progress = flag_of(options, "progress")?;
    let summary = flag_of(options, "summary")?;
    let known = flag_of(options, "known")?;
    let junit = flag_of(options, "junit")?;
    Some(TestOptions {
        run,
        max_fail: word_of(options, "max-fail"),
        at_once: word_of(options, "at-once"),
        capture,
        explain,
        style,
        progress,
        summary,
        known,
        junit,
        ids,
    })
}

/// What help says of `test`.
pub(crate) fn help<'a>() -> HelpText<'a> {
    HelpText {
        about: "Run test cases against a server or a client, one connection each",
        usage: None,
        after_help: AFTER_HELP,
    }
}

/// What follows the options of `test`.
const AFTER_HELP: &str =
    "Each case gives PASS, LOOSE WHY (permitted, but not the reference behaviour),
FAIL WHY (a rule is broken), FAIL Head NAME (the handshake failed; --header and
--protocols may mend it) or `no connection` (with --at-once, also if the server
accepts one at a time). See `wst judge --help` for --explain, `man wst` for all.
With --role client, start your client after `listening on`: it must reconnect
for each next case. Clients for Autobahn's fuzzing server run unchanged.

Exit status:
  0  no FAIL; with --known, no case is new, no failure new, changed or fixed
  1  a FAIL or, with --timeout, no connection; with --known, one of these
  2  usage error
  3  no connection (with --timeout, three in a row), I/O or memory error

Examples:
  wst test --timeout 5 --explain ws://localhost:9001/echo
  wst test --timeout 5 --expect protocol ws://localhost:9001/chat
  wst test --timeout 5 --wait 60 --role client 127.0.0.1:9001";
