//! What the words give an argument: a function for each kind.

ghost use Rattle.std.specs.Prelude.{◌≡◌, IfOk, MatchOption, map, option_map};
ghost use Rattle.clap.specs.Words.{first_of, found_of, rows_of};
ghost use Rattle.wst_words.specs.Options.{GivesCount, GivesEnd, GivesFlag, GivesNumber, GivesNumberOr};
ghost use Rattle.wst_words.specs.Options.{GivesNoCount, GivesNoEnd, GivesNoFlag, GivesNoNumber, GivesNoNumberOr};
ghost use Rattle.wst_words.specs.Options.{GivesEndIfAny, GivesExpectation, GivesNoExpectation, GivesNumberIfAny};
ghost use Rattle.wst_words.specs.Options.{GivesCountIfAny, GivesNoCountIfAny, GivesNoStyle, GivesStyle};
ghost use Rattle.wst_words.specs.Options.{expectation_named, given_words, role_named, style_named};

use clap::ArgMatches;
use std::alloc::{AllocError, Global};
use ws_frame::DataStyle;
use ws_scripts::Expectation;
use ws_wire::Role;

/// The end that the option of this name gives. `None` where it gives none.
pub(crate) fn end_of(options: &ArgMatches<'_>, name: &str) -> Option<Role>
    ensures { MatchOption result (GivesNoEnd (rows_of (found_of options.now)) name.now)
        (GivesEnd (rows_of (found_of options.now)) name.now) }
{
    let word = word_of(options, name)?;
    Some(role_of(word))
}

/// The end that the option of this name gives, where it is given.
pub(crate) fn end_if_any(options: &ArgMatches<'_>, name: &str) -> Option<Role>
    ensures { GivesEndIfAny (rows_of (found_of options.now)) name.now result }
{
    match word_of(options, name) {
        None => None,
        Some(word) => Some(role_of(word)),
    }
}

/// What the option of this name expects of the tested end. `None` where it gives none.
pub(crate) fn expectation_of(options: &ArgMatches<'_>, name: &str) -> Option<Expectation>
    ensures { MatchOption result (GivesNoExpectation (rows_of (found_of options.now)) name.now)
        (GivesExpectation (rows_of (found_of options.now)) name.now) }
{
    let word = word_of(options, name)?;
    Some(expectation_named(word))
}

/// The style in which the option of this name has payloads shown. `None` where it gives none.
pub(crate) fn style_of(options: &ArgMatches<'_>, name: &str) -> Option<DataStyle>
    ensures { MatchOption result (GivesNoStyle (rows_of (found_of options.now)) name.now)
        (GivesStyle (rows_of (found_of options.now)) name.now) }
{
    let word = word_of(options, name)?;
    Some(style_named(word))
}

/// The number that the option of this name gives. `None` where it gives none.
pub(crate) fn number_of(options: &ArgMatches<'_>, name: &str) -> Option<u64>
    ensures { MatchOption result (GivesNoNumber (rows_of (found_of options.now)) name.now)
        (GivesNumber (rows_of (found_of options.now)) name.now) }
{
    options.get_one::<u64>(name)
}

/// The number that the option of this name gives, or the other one where it is left out. `None` where it gives none.
pub(crate) fn number_or(options: &ArgMatches<'_>, name: &str, other: u64) -> Option<u64>
    ensures { MatchOption result (GivesNoNumberOr (rows_of (found_of options.now)) name.now)
        (GivesNumberOr other (rows_of (found_of options.now)) name.now) }
{
    match word_of(options, name) {
        None => Some(other),
        Some(_) => number_of(options, name),
    }
}

/// The number that the option of this name gives, where it is given. `None` where it gives none.
pub(crate) fn number_if_any(options: &ArgMatches<'_>, name: &str) -> Option<Option<u64>>
    ensures { MatchOption result (GivesNoNumberOr (rows_of (found_of options.now)) name.now)
        (GivesNumberIfAny (rows_of (found_of options.now)) name.now) }
{
    match word_of(options, name) {
        None => Some(None),
        Some(_) => match number_of(options, name) {
            None => None,
            Some(number) => Some(Some(number)),
        },
    }
}

/// The count that the word of this name gives. `None` where it gives none.
pub(crate) fn count_of(options: &ArgMatches<'_>, name: &str) -> Option<u32>
    ensures { MatchOption result (GivesNoCount (rows_of (found_of options.now)) name.now)
        (GivesCount (rows_of (found_of options.now)) name.now) }
{
    options.get_one::<u32>(name)
}

/// The count that the word of this name gives, where it is given. `None` where it gives none.
pub(crate) fn count_if_any(options: &ArgMatches<'_>, name: &str) -> Option<Option<u32>>
    ensures { MatchOption result (GivesNoCountIfAny (rows_of (found_of options.now)) name.now)
        (GivesCountIfAny (rows_of (found_of options.now)) name.now) }
{
    match word_of(options, name) {
        None => Some(None),
        Some(_) => match count_of(options, name) {
            None => None,
            Some(count) => Some(Some(count)),
        },
    }
}

/// Whether the flag of this name is set. `None` where it has no value.
pub(crate) fn flag_of(options: &ArgMatches<'_>, name: &str) -> Option<bool>
    ensures { MatchOption result (GivesNoFlag (rows_of (found_of options.now)) name.now)
        (GivesFlag (rows_of (found_of options.now)) name.now) }
{
    options.get_one::<bool>(name)
}

/// The word that the argument of this name gives. `None` where it gives none.
pub(crate) fn word_of<'a>(options: &ArgMatches<'a>, name: &str) -> Option<&'a str>
    ensures { first_of name.now (rows_of (found_of options.now)) ≡ option_map (λ word. word.now) result }
{
    options.get_str(name)
}

/// The words that the argument of this name gives, in their order.
pub(crate) fn words_of<'a>(
    alloc: Global,
    options: &ArgMatches<'a>,
    name: &str,
) -> Result<Vec<&'a str>, AllocError>
    ensures { IfOk result (λ words. map (λ word. word.now) words.items
        ≡ given_words name.now (rows_of (found_of options.now))) }
{
    match options.get_strs(name) {
        Some(words) => {
            let words = words.to_vec(alloc)?;
            Ok(words)
        }
        None => Ok(Vec::new(alloc)),
    }
}

/// The end that a word names.
fn role_of(word: &str) -> Role
    ensures { result ≡ role_named word.now }
{
    match word {
        "client" => Role::Client,
        _ => Role::Server,
    }
}

/// What a word expects of the tested end.
fn expectation_named(word: &str) -> Expectation
    ensures { result ≡ expectation_named word.now }
{
    match word {
        "protocol" => Expectation::Protocol,
        _ => Expectation::Echo,
    }
}

/// The style that a word names.
fn style_named(word: &str) -> DataStyle
    ensures { result ≡ style_named word.now }
{
    match word {
        "text" => DataStyle::Text,
        "all" => DataStyle::All,
        _ => DataStyle::Hex,
    }
}
