//! The words of the command `report`.

ghost use Rattle.std.specs.Prelude.{◌≡◌, MatchOption, map};
ghost use Rattle.clap.specs.Words.{found_of, rows_of};
ghost use Rattle.wst_words.specs.Options.{LacksOneOf};
ghost use Rattle.wst_words.specs.Report.{AsksToReport, report_command};
ghost use Rattle.wst_words.specs.Arguments.{argument_row};

use crate::arguments::Argument;
use crate::arguments::ArgumentKind::{Flag, Word};
use crate::commands::HelpText;
use crate::options::{flag_of, word_of};
use clap::ArgMatches;

/// The options of `report`.
#[derive(Clone, Copy)]
pub struct ReportOptions<'a> {
    /// An index in JSON is written.
    pub json: bool,
    /// A summary is written.
    pub summary: bool,
    /// A JUnit document is written.
    pub junit: bool,
    /// What stands in the head of a page, such as its date. Nothing where none is given.
    pub date: Option<&'a str>,
}

/// Its arguments.
static ARGUMENTS: [Argument; 4] = [
    Argument {
        name: "json",
        kind: Flag,
        default: None,
        value_name: "",
        heading: None,
        help: "Write a JSON index like that of the Autobahn test suite",
    },
    Argument {
        name: "summary",
        kind: Flag,
        default: None,
        value_name: "",
        heading: None,
        help: "Write the verdicts of each peer, the most frequent first",
    },
    Argument {
        name: "junit",
        kind: Flag,
        default: None,
        value_name: "",
        heading: None,
        help: "Write a JUnit document with a test suite for each peer",
    },
    Argument {
        name: "date",
        kind: Word,
        default: None,
        value_name: "TEXT",
        heading: None,
        help: "Print TEXT in the head of the page, such as a date",
    },
];

/// The arguments of `report`.
pub(crate) fn arguments() -> &'static [Argument]
    ensures { map argument_row result.now ≡ report_command.arguments }
{
    &ARGUMENTS
}

/// The options that were met. `None` where one has no value.
pub(crate) fn report_options<'a>(options: &ArgMatches<'a>) -> Option<ReportOptions<'a>>
    ensures { MatchOption result (LacksOneOf (rows_of (found_of options.now)) report_command.arguments)
        (AsksToReport (rows_of (found_of options.now))) }
{
    let json = flag_of(options, "json")?;
    let summary = flag_of(options, "summary")?;
    let junit = flag_of(options, "junit")?;
    Some(ReportOptions {
        json,
        summary,
        junit,
        date: word_of(options, "date"),
    })
}

/// What help says of `report`.
pub(crate) fn help<'a>() -> HelpText<'a> {
    HelpText {
        about: "Write a page, an index, a summary or JUnit XML of runs of `wst test`",
        usage: Some("wst report [OPTIONS] < RUNS"),
        after_help: AFTER_HELP,
    }
}

/// What follows the options of `report`.
const AFTER_HELP: &str =
    "What `wst test` printed is read from stdin, for one peer or several: a line
`# NAME` names the peer of the lines after it, in UTF-8, and lines `#: TEXT`
after that say more of it, such as its version.

Exit status:
  0  written
  1  a line of stdin is no verdict or no name
  2  usage error
  3  an I/O or memory error

Examples:
  # a page with one column
  { echo '# mine'; wst test own; } | wst report > page.html
  # a page with a column for each file
  for file in *.txt; do echo \"# $file\"; cat \"$file\"; done |
    wst report > page.html
  # one run for a page and for a CI system
  wst test own > run.txt; wst report < run.txt > page.html
  wst report --junit < run.txt > junit.xml
  # prints: FAIL Close 1: 7.1.1
  echo '7.1.1 FAIL Close' | wst report --summary";
