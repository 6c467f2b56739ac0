//! The words of the command `judge`.

ghost use Rattle.std.specs.Prelude.{◌≡◌, MatchOption, map};
ghost use Rattle.clap.specs.Words.{found_of, rows_of};
ghost use Rattle.wst_words.specs.Options.{LacksOneOf};
ghost use Rattle.wst_words.specs.Judge.{AsksToJudge, judge_command};
ghost use Rattle.wst_words.specs.Arguments.{argument_row};

use crate::arguments::Argument;
use crate::arguments::ArgumentKind::{End, Flag};
use crate::commands::HelpText;
use crate::options::{end_of, expectation_of, flag_of, style_of};
use crate::run_options::EXPECT;
use crate::show::DATA;
use clap::ArgMatches;
use ws_frame::DataStyle;
use ws_scripts::Expectation;
use ws_wire::Role;

/// The options of `judge`.
#[derive(Clone, Copy)]
pub struct JudgeOptions {
    /// The tested end.
    pub role: Role,
    /// What is expected of it.
    pub expect: Expectation,
    /// Below a verdict other than PASS it is told why.
    pub explain: bool,
    /// How the lines that tell why show payloads.
    pub style: DataStyle,
}

/// What help says of `--data` where it is about the lines that tell why.
pub(crate) const EXPLAINED_DATA_HELP: &str =
    "With --explain: payloads as `hex` (up to 16 bytes), as\n`text` if UTF-8, or `all` of them as hex";

/// Its arguments.
static ARGUMENTS: [Argument; 4] = [
    Argument {
        name: "role",
        kind: End,
        default: Some("server"),
        value_name: "END",
        heading: None,
        help: "Judge a `client` or a `server`",
    },
    Argument {
        heading: None,
        ..EXPECT
    },
    Argument {
        name: "explain",
        kind: Flag,
        default: None,
        value_name: "",
        heading: None,
        help: "Print what was expected and received, and the rule",
    },
    Argument {
        help: EXPLAINED_DATA_HELP,
        ..DATA
    },
];

/// The arguments of `judge`.
pub(crate) fn arguments() -> &'static [Argument]
    ensures { map argument_row result.now ≡ judge_command.arguments }
{
    &ARGUMENTS
}

/// The options that were met. `None` where one has no value.
pub(crate) fn judge_options(options: &ArgMatches<'_>) -> Option<JudgeOptions>
    ensures { MatchOption result (LacksOneOf (rows_of (found_of options.now)) judge_command.arguments)
        (AsksToJudge (rows_of (found_of options.now))) }
{
    let role = end_of(options, "role")?;
    let expect = expectation_of(options, "expect")?;
    let explain = flag_of(options, "explain")?;
    let style = style_of(options, "data")?;
    Some(JudgeOptions {
        role,
        expect,
        explain,
        style,
    })
}

/// What help says of `judge`.
pub(crate) fn help<'a>() -> HelpText<'a> {
    HelpText {
        about: "Judge a capture, and print which rule the tested endpoint broke",
        usage: Some("wst judge [OPTIONS] < CAPTURE"),
        after_help: AFTER_HELP,
    }
}

/// What follows the options of `judge`.
const AFTER_HELP: &str = "A capture is read from stdin, in format 1 or 2. One line is printed: PASS,
LOOSE WHY (permitted, but not the reference behaviour), or FAIL WHY (a rule is
broken). VERDICTS in `man wst` says what each WHY means.
With --explain, `due N` is what was expected in turn N, `got N` what arrived.
`due N end RULE`: the tester broke RULE, so the peer had to end the connection.
`got N failed RULE`: the peer broke RULE. `got N cut`: the end came inside a
frame. `end WHO N`: the connection ended in turn N, by `tester` or `peer`;
`broken`: it broke off. `..` follows the first 16 bytes. `ours` in a rule: RFC
6455 asks less than that.

Exit status:
  0  PASS or LOOSE
  1  FAIL, or stdin is no capture
  2  usage error
  3  an I/O or memory error

Examples:
  # PASS: a text came back, and a close was answered
  printf '%s\\n' 'wst-capture 1' '> 81810000000061' '< 810161' \\
    '> 88820000000003e8' '< 880203e8' 'end peer' | wst judge
  # a test case, run by a server in memory
  wst test --capture tung 3.2 | wst judge --explain
  # a script of your own
  wst send --capture localhost:9001 < my.script | wst judge --explain";
