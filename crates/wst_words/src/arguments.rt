//! The arguments of commands: rows of tables, and what `clap` is given for each.

ghost use Rattle.std.specs.Prelude.{◌≡◌, false};
ghost use Rattle.clap.specs.Words.{rule_of};
ghost use Rattle.wst_words.specs.Arguments.{argument_row, argument_rule, each_rule, free_rule, kind_rule};
ghost use Rattle.wst_words.specs.Arguments.{needed_rule, option_rule};

use clap::builder::ValueParser;
use clap::{Arg, ArgAction};
use std::alloc::Global;

/// What an argument is, and what it takes.
#[derive(Clone, Copy)]
pub(crate) enum ArgumentKind {
    /// An option that takes the name of an end of the connection.
    End,
    /// An option that takes the name of what is expected of the tested end.
    Expected,
    /// An option that takes the name of a style in which payloads are shown.
    Style,
    /// An option that takes a number of 64 bits.
    Number,
    /// An option that takes any word.
    Word,
    /// An option that takes any word, each time that it is given.
    EachWord,
    /// An option without a value.
    Flag,
    /// Any word, which may not be left out.
    NeededWord,
    /// Any word, which may be left out.
    FreeWord,
    /// A number of 32 bits, which may be left out.
    FreeCount,
    /// The words that are left, as many as there are.
    Words,
}

/// An argument of a command.
#[derive(Clone, Copy)]
pub(crate) struct Argument {
    /// The name that it is read by. An option is written with two hyphens before it.
    pub(crate) name: &'static str,
    pub(crate) kind: ArgumentKind,
    /// The value where it is left out, if it has one then.
    pub(crate) default: Option<&'static str>,
    /// What help calls its value.
    pub(crate) value_name: &'static str,
    /// The heading below which help lists it. Without one, it stands among the arguments or the options.
    pub(crate) heading: Option<&'static str>,
    /// What help says of it, in one or two lines.
    pub(crate) help: &'static str,
}

/// What reads the names that an option may take.
#[derive(Clone, Copy)]
pub(crate) struct NameParsers<'a> {
    /// Those of the ends of a connection.
    pub(crate) ends: ValueParser<'a>,
    /// Those of what is expected of the tested end.
    pub(crate) expectations: ValueParser<'a>,
    /// Those of the styles in which payloads are shown.
    pub(crate) styles: ValueParser<'a>,
}

/// What `clap` is told of an argument.
pub(crate) fn arg_of<'a>(alloc: Global, argument: &Argument, names: NameParsers<'a>) -> Arg<'a>
    ensures rule { rule_of result ≡ argument_rule names.entry (argument_row argument.now) }
    ensures local { result.global ≡ false }
{
    let arg = arg_of_kind(alloc, argument, names);
    let headed = match argument.heading {
        Some(heading) => arg.help_heading(heading),
        None => arg,
    };
    match argument.default {
        Some(default) => headed.default_value(default),
        None => headed,
    }
}

/// What it is told but for a default value.
fn arg_of_kind<'a>(alloc: Global, argument: &Argument, names: NameParsers<'a>) -> Arg<'a>
    ensures rule { rule_of result ≡ kind_rule names.entry argument.now.kind argument.now.name.now }
    ensures local { result.global ≡ false }
{
    match argument.kind {
        ArgumentKind::End => named_arg(alloc, argument).value_parser(names.ends),
        ArgumentKind::Expected => named_arg(alloc, argument).value_parser(names.expectations),
        ArgumentKind::Style => named_arg(alloc, argument).value_parser(names.styles),
        ArgumentKind::Number => option_arg(alloc, argument).value_parser(clap::value_parser!(u64)),
        ArgumentKind::Word => option_arg(alloc, argument),
        ArgumentKind::EachWord => each_arg(alloc, argument),
        ArgumentKind::Flag => Arg::new(alloc, argument.name)
            .long(argument.name)
            .help(argument.help)
            .action(ArgAction::SetTrue),
        ArgumentKind::NeededWord => needed_arg(alloc, argument),
        ArgumentKind::FreeWord => free_arg(alloc, argument),
        ArgumentKind::FreeCount => free_arg(alloc, argument).value_parser(clap::value_parser!(u32)),
        ArgumentKind::Words => Arg::new(alloc, argument.name)
            .value_name(argument.value_name)
            .help(argument.help)
            .action(ArgAction::Append),
    }
}

/// An option that takes one of some names, which its own help says.
fn named_arg<'a>(alloc: Global, argument: &Argument) -> Arg<'a>
    ensures rule { rule_of result ≡ option_rule argument.now.name.now }
    ensures local { result.global ≡ false }
{
    option_arg(alloc, argument).hide_possible_values(true)
}

/// An option that takes one value.
fn option_arg<'a>(alloc: Global, argument: &Argument) -> Arg<'a>
    ensures rule { rule_of result ≡ option_rule argument.now.name.now }
    ensures local { result.global ≡ false }
{
    Arg::new(alloc, argument.name)
        .long(argument.name)
        .value_name(argument.value_name)
        .help(argument.help)
        .action(ArgAction::Set)
}

/// An option that takes one value each time that it is given.
fn each_arg<'a>(alloc: Global, argument: &Argument) -> Arg<'a>
    ensures rule { rule_of result ≡ each_rule argument.now.name.now }
    ensures local { result.global ≡ false }
{
    Arg::new(alloc, argument.name)
        .long(argument.name)
        .value_name(argument.value_name)
        .help(argument.help)
        .action(ArgAction::Append)
}

/// A word that may not be left out.
fn needed_arg<'a>(alloc: Global, argument: &Argument) -> Arg<'a>
    ensures rule { rule_of result ≡ needed_rule argument.now.name.now }
    ensures local { result.global ≡ false }
{
    free_arg(alloc, argument).required(true)
}

/// A word.
fn free_arg<'a>(alloc: Global, argument: &Argument) -> Arg<'a>
    ensures rule { rule_of result ≡ free_rule argument.now.name.now }
    ensures local { result.global ≡ false }
{
    Arg::new(alloc, argument.name)
        .value_name(argument.value_name)
        .help(argument.help)
        .action(ArgAction::Set)
}
