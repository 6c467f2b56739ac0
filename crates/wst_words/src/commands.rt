//! The commands of `wst`, and what `clap` is told of them.

ghost use Rattle.std.specs.Prelude.{◌≡◌, IfOk, false, map};
ghost use Rattle.clap.specs.Words.{app_of, shape_of};
ghost use Rattle.clap.specs.declared.builder.command.Command.TheViews.{out-Command as fields_of};
ghost use Rattle.wst_words.specs.Commands.{command_shape, with_arguments, with_commands};
ghost use Rattle.wst_words.specs.Arguments.{Places, argument_row};
ghost use Rattle.wst_words.specs.Words.{row_of, wst_app};

use crate::arguments::{Argument, NameParsers, arg_of};
use crate::{
    cases, convert, head, judge, pair, report, send, serve, session, show, sweep, tap, test,
};
use clap::Command;
use clap::builder::ValueParser;
use std::alloc::{AllocError, Global};

/// A command of `wst`.
#[derive(Clone, Copy)]
pub(crate) enum CommandName {
    Show,
    Head,
    Pair,
    Session,
    Judge,
    Convert,
    Cases,
    Test,
    Send,
    Sweep,
    Report,
    Serve,
    Tap,
}

/// What help says of a command. The rest of what its manual page says is in `docs/manual`, so `--help` stays short.
#[derive(Clone, Copy)]
pub(crate) struct HelpText<'a> {
    /// What the command does, in one sentence of one line.
    pub(crate) about: &'a str,
    /// How it is called, where the words of `clap` don't say it: a command that reads stdin.
    pub(crate) usage: Option<&'a str>,
    /// What follows the options: notes, exit statuses and examples.
    pub(crate) after_help: &'a str,
}

/// All commands, in the order in which help lists them.
static COMMANDS: [CommandName; 13] = [
    CommandName::Show,
    CommandName::Head,
    CommandName::Pair,
    CommandName::Session,
    CommandName::Judge,
    CommandName::Convert,
    CommandName::Cases,
    CommandName::Test,
    CommandName::Send,
    CommandName::Sweep,
    CommandName::Report,
    CommandName::Serve,
    CommandName::Tap,
];

/// The word for a command.
fn name_of<'a>(command: CommandName) -> &'a str
    ensures { result.now ≡ (row_of command).name }
{
    match command {
        CommandName::Show => "show",
        CommandName::Head => "head",
        CommandName::Pair => "pair",
        CommandName::Session => "session",
        CommandName::Judge => "judge",
        CommandName::Convert => "convert",
        CommandName::Cases => "cases",
        CommandName::Test => "test",
        CommandName::Send => "send",
        CommandName::Sweep => "sweep",
        CommandName::Report => "report",
        CommandName::Serve => "serve",
        CommandName::Tap => "tap",
    }
}

/// Its arguments.
fn arguments_of(command: CommandName) -> &'static [Argument]
    ensures { map argument_row result.now ≡ (row_of command).arguments }
{
    match command {
        CommandName::Show => show::arguments(),
        CommandName::Head => head::arguments(),
        CommandName::Pair => pair::arguments(),
        CommandName::Session => session::arguments(),
        CommandName::Judge => judge::arguments(),
        CommandName::Convert => convert::arguments(),
        CommandName::Cases => cases::arguments(),
        CommandName::Test => test::arguments(),
        CommandName::Send => send::arguments(),
        CommandName::Sweep => sweep::arguments(),
        CommandName::Report => report::arguments(),
        CommandName::Serve => serve::arguments(),
        CommandName::Tap => tap::arguments(),
    }
}

/// What help says of it.
fn help_of<'a>(command: CommandName) -> HelpText<'a> {
    match command {
        CommandName::Show => show::help(),
        CommandName::Head => head::help(),
        CommandName::Pair => pair::help(),
        CommandName::Session => session::help(),
        CommandName::Judge => judge::help(),
        CommandName::Convert => convert::help(),
        CommandName::Cases => cases::help(),
        CommandName::Test => test::help(),
        CommandName::Send => send::help(),
        CommandName::Sweep => sweep::help(),
        CommandName::Report => report::help(),
        CommandName::Serve => serve::help(),
        CommandName::Tap => tap::help(),
    }
}

/// What `wst --version` prints after the name: the version, and the logic that proved the program, as
/// the last words of `rt version` tell it. (Kits of several names have one logic.)
const VERSION: &str = "0.2.0 (rattle logic dac8208d650f15bf)";

/// `wst` with its commands, as `clap` is told of them.
pub(crate) fn wst_command<'a>(alloc: Global) -> Result<Command<'a>, AllocError>
    ensures { IfOk result (λ command. (places : Places) × (app_of command ≡ wst_app places)) }
{
    let names = NameParsers {
        ends: ValueParser::from(["client", "server"].as_slice()),
        expectations: ValueParser::from(["echo", "protocol"].as_slice()),
        styles: ValueParser::from(["hex", "text", "all"].as_slice()),
    };
    let named = Command::new(alloc, "wst").bin_name("wst")?;
    let wst = named
        .version(VERSION)
        .about("Test WebSocket servers and clients frame by frame (RFC 6455)")
        .after_help(AFTER_HELP)
        .subcommand_required(true);
    let command = with_commands(alloc, wst, &COMMANDS, names)?;
    Ok(command)
}

/// A command with these subcommands besides.
fn with_commands<'a>(
    alloc: Global,
    above: Command<'a>,
    commands: &[CommandName],
    names: NameParsers<'a>,
) -> Result<Command<'a>, AllocError>
    ensures { IfOk result (λ command. app_of command
        ≡ with_commands names.entry (app_of above.entry) (map row_of commands.now)) }
{
    let mut command = above;
    for name in commands {
        let subcommand = command_of(alloc, *name, names)?;
        command = command.subcommand(subcommand)?;
    }
    Ok(command)
}

/// What `clap` is told of a command.
fn command_of<'a>(
    alloc: Global,
    name: CommandName,
    names: NameParsers<'a>,
) -> Result<Command<'a>, AllocError>
    ensures shape { IfOk result (λ command. shape_of command ≡ command_shape names.entry (row_of name)) }
    ensures local { IfOk result (λ command. (fields_of command).has_globals ≡ false) }
{
    let help = help_of(name);
    let named = Command::new(alloc, name_of(name))
        .about(help.about)
        .after_help(help.after_help);
    let bare = with_usage(named, help.usage);
    let command = with_arguments(alloc, bare, arguments_of(name), names)?;
    Ok(command)
}

/// A command that is called so, where it is said how.
fn with_usage<'a>(bare: Command<'a>, usage: Option<&'a str>) -> Command<'a>
    ensures app { app_of result ≡ app_of bare.entry }
    ensures local { (fields_of result).has_globals ≡ (fields_of bare.entry).has_globals }
{
    match usage {
        Some(usage) => bare.override_usage(usage),
        None => bare,
    }
}

/// A command with these arguments besides.
fn with_arguments<'a>(
    alloc: Global,
    bare: Command<'a>,
    arguments: &[Argument],
    names: NameParsers<'a>,
) -> Result<Command<'a>, AllocError>
    requires { (fields_of bare).has_globals ≡ false }
    ensures app { IfOk result (λ command. app_of command
        ≡ with_arguments names.entry (app_of bare.entry) (map argument_row arguments.now)) }
    ensures local { IfOk result (λ command. (fields_of command).has_globals ≡ false) }
{
    let mut command = bare;
    for argument in arguments {
        command = command.arg(arg_of(alloc, argument, names))?;
    }
    Ok(command)
}

/// What follows the options of `wst`.
const AFTER_HELP: &str = "Exit status:
  0  done
  1  a verdict is FAIL, or the input is damaged or refused
  2  usage error
  3  input, output, the network, the budget or memory failed

Examples:
  # test an echo server, and explain each FAIL
  wst test --timeout 5 --explain ws://localhost:9001/echo
  # send it a frame that it should refuse
  echo 'text key=- \"Hello\"' | wst send ws://localhost:9001/echo
  # test any other server, by the protocol alone
  wst test --timeout 5 --expect protocol --explain ws://localhost:9001/chat
  # prints: 0 text fin=1 rsv=0 key=- len=5 short 48656c6c6f
  printf '\\201\\005Hello' | wst show

`wst COMMAND --help` lists the options of a command. The manual page, `man wst`,
describes inputs, outputs and verdicts in full.";
