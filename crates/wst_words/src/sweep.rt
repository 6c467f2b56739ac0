//! The words of the command `sweep`.

ghost use Rattle.std.specs.Prelude.{◌≡◌, IfOk, MatchOption, map};
ghost use Rattle.clap.specs.Words.{found_of, rows_of};
ghost use Rattle.wst_words.specs.Arguments.{argument_row};
ghost use Rattle.wst_words.specs.Options.{LacksOneOf};
ghost use Rattle.wst_words.specs.RunOptions.{AsksForRun};
ghost use Rattle.wst_words.specs.Sweep.{AsksToSweep, sweep_command};

use crate::arguments::Argument;
use crate::arguments::ArgumentKind::{Flag, Number};
use crate::commands::HelpText;
use crate::options::{flag_of, number_of, word_of};
use crate::run_options::{
    AT_ONCE, BUDGET, CONNECT, DEADLINE, EXPECT, HEADER, KEY, MAX_FAIL, PROTOCOLS, ROLE, RunOptions,
    TARGET, TIMEOUT, WAIT, run_options,
};
use clap::ArgMatches;
use std::alloc::{AllocError, Global};

/// Which scripts `sweep` is asked to run, and against what.
#[derive(Drop)]
pub struct SweepOptions<'a> {
    /// Over which end, and how.
    pub run: RunOptions<'a>,
    /// Behind so many failures, as a word, the run ends, where that is given.
    pub max_fail: Option<&'a str>,
    /// So many scripts run at a time, as a word, where that is given.
    pub at_once: Option<&'a str>,
    /// Scripts of at most so many steps.
    pub steps: u64,
    /// Those that are LOOSE are told too.
    pub all: bool,
    /// The steps of each script are told before it runs.
    pub progress: bool,
}

/// Its arguments.
static ARGUMENTS: [Argument; 16] = [
    ROLE,
    EXPECT,
    KEY,
    TIMEOUT,
    DEADLINE,
    WAIT,
    BUDGET,
    PROTOCOLS,
    HEADER,
    CONNECT,
    TARGET,
    MAX_FAIL,
    AT_ONCE,
    Argument {
        name: "steps",
        kind: Number,
        default: Some("2"),
        value_name: "N",
        heading: Some("Limits"),
        help: "Longest script, 0 to 4 steps",
    },
    Argument {
        name: "all",
        kind: Flag,
        default: None,
        value_name: "",
        heading: Some("Output"),
        help: "Print LOOSE scripts too",
    },
    Argument {
        name: "progress",
        kind: Flag,
        default: None,
        value_name: "",
        heading: Some("Output"),
        help: "Print the steps of each script to stderr before it runs",
    },
];

/// The arguments of `sweep`.
pub(crate) fn arguments() -> &'static [Argument]
    ensures { map argument_row result.now ≡ sweep_command.arguments }
{
    &ARGUMENTS
}

/// What the words give. `None` where a word has no value.
pub(crate) fn sweep_options<'a>(
    alloc: Global,
    options: &ArgMatches<'a>,
) -> Result<Option<SweepOptions<'a>>, AllocError>
    ensures { IfOk result (λ found. MatchOption found
        (LacksOneOf (rows_of (found_of options.now)) sweep_command.arguments)
        (AsksToSweep (rows_of (found_of options.now)))) }
{
    let found = run_options(alloc, options)?;
    match found {
        Some(run) => Ok(options_with(options, run)),
        None => Ok(None),
    }
}

/// What the words give, with this run.
fn options_with<'a>(options: &ArgMatches<'a>, run: RunOptions<'a>) -> Option<SweepOptions<'a>>
    requires { AsksForRun (rows_of (found_of options.now)) run }
    ensures { MatchOption result (LacksOneOf (rows_of (found_of options.now)) sweep_command.arguments)
        (AsksToSweep (rows_of (found_of options.now))) }
{
    let steps = number_of(options, "steps")?;
    let all = flag_of(options, "all")?;
    let progress = flag_of(options, "progress")?;
    Some(SweepOptions {
        run,
        max_fail: word_of(options, "max-fail"),
        at_once: word_of(options, "at-once"),
        steps,
        all,
        progress,
    })
}

/// What help says of `sweep`.
pub(crate) fn help<'a>() -> HelpText<'a> {
    HelpText {
        about: "Run every short script against a server or a client",
        usage: None,
        after_help: AFTER_HELP,
    }
}

/// What follows the options of `sweep`.
const AFTER_HELP: &str =
    "A script has up to N of 27 steps, each a frame or a wait; `man wst` lists them.
close=1000 is added where no step ends the connection. Short ones run first: the
first that is printed is among the shortest that break a rule. Up to 2 steps are
757 scripts, 3 are 20440, and 4 are 551881. With --role client, a client for
Autobahn's fuzzing server can be tested unchanged, as with `test`. With
--at-once, a server that accepts one connection at a time lets the others wait.

Exit status:
  0  no FAIL
  1  a FAIL
  2  usage error
  3  no connection, cannot listen, or an I/O or memory error

Examples:
  # an echo in memory
  wst sweep own
  # a server
  wst sweep --timeout 5 ws://localhost:9001/echo
  # a script that was printed, once more
  printf '%s\\n' 'text fin=0 \"a\"' 'text \"a\"' | wst send localhost:9001";
