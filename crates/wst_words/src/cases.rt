//! The words of the command `cases`.

ghost use Rattle.std.specs.Prelude.{◌≡◌, MatchOption, map};
ghost use Rattle.clap.specs.Words.{found_of, rows_of};
ghost use Rattle.wst_words.specs.Cases.{AsksForCases, cases_command};
ghost use Rattle.wst_words.specs.Arguments.{argument_row};
ghost use Rattle.wst_words.specs.Options.{LacksOneOf};

use crate::arguments::Argument;
use crate::arguments::ArgumentKind::{Flag, FreeWord};
use crate::commands::HelpText;
use crate::options::{flag_of, word_of};
use clap::ArgMatches;

/// What `cases` is asked for.
#[derive(Clone, Copy)]
pub struct CasesOptions<'a> {
    /// The titles of the cases are listed.
    pub titles: bool,
    /// The name of the case whose text is written, or what the names of the cases that are listed begin with, and a
    /// star. All are listed where none is given.
    pub id: Option<&'a str>,
}

/// Its arguments.
static ARGUMENTS: [Argument; 2] = [
    Argument {
        name: "titles",
        kind: Flag,
        default: None,
        value_name: "",
        heading: None,
        help: "List `ID TITLE`: what each case tries, in a few words",
    },
    Argument {
        name: "id",
        kind: FreeWord,
        default: None,
        value_name: "ID",
        heading: None,
        help: "Print the script of this case, or list those of a pattern such as 2.*",
    },
];

/// The arguments of `cases`.
pub(crate) fn arguments() -> &'static [Argument]
    ensures { map argument_row result.now ≡ cases_command.arguments }
{
    &ARGUMENTS
}

/// What the words give. `None` where an option has no value.
pub(crate) fn cases_options<'a>(options: &ArgMatches<'a>) -> Option<CasesOptions<'a>>
    ensures { MatchOption result (LacksOneOf (rows_of (found_of options.now)) cases_command.arguments)
        (AsksForCases (rows_of (found_of options.now))) }
{
    let titles = flag_of(options, "titles")?;
    Some(CasesOptions {
        titles,
        id: word_of(options, "id"),
    })
}

/// What help says of `cases`.
pub(crate) fn help<'a>() -> HelpText<'a> {
    HelpText {
        about: "List the test cases, or write one as a script",
        usage: None,
        after_help: AFTER_HELP,
    }
}

/// What follows the options of `cases`.
const AFTER_HELP: &str =
    "Each case is listed as `ID TURNS`; a turn ends where it waits for replies. The
first number of an ID is its group:
  1  lengths of messages  4  reserved opcodes  6  valid and invalid text
  2  pings and pongs      5  fragments         7  the closing handshake
  3  reserved bits
The script of a case can be changed and sent with `wst send`.

Exit status:
  0  written
  2  usage error, or no case has this ID
  3  an I/O or memory error

Examples:
  # the cases of group 3
  wst cases '3.*'
  # the script of a case
  wst cases 1.1.7
  # a case, changed
  wst cases 3.1 | sed 's/rsv=1/rsv=2/' | wst send own";
