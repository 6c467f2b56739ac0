//! The command `cases`. What it writes is told in docs/FORMATS.md.

ghost use Rattle.std.specs.Prelude.{◌≡◌, ◌++◌, IfOk, false, flat_map, string_bytes};
ghost use Rattle.std.specs.List.{All};
ghost use Rattle.ws_frame.specs.Devices.{watched};
ghost use Rattle.ws_frame.specs.Watching.{has_failed};
ghost use Rattle.ws_scripts.specs.Scripts.{CanBeRun};
ghost use Rattle.wst_commands.specs.Cases.{ListsCases, WritesCases, asked_for, case_line, titled_line};

use crate::exit::Exit;
use crate::given_cases::{NoCases, cases_of, is_glob, tell_no_cases};
use crate::telling::deliver;
use std::alloc::Global;
use std::io::Write;
use ws_base::NoMemory;
use ws_frame::Watched;
use ws_suite::{Case, turns, write_script};
use ws_titles::title_of;
use wst_words::CasesOptions;

/// The number of turns doesn't depend on the masking key.
const ANY_KEY: [u8; 4] = [0; 4];

/// Writes the case that the word names as text, or a line for each case that it stands for: its name, and how many
/// turns it has, or its title.
#[inline(never)]
pub fn run_cases<W: Write, F: Write>(
    alloc: Global,
    options: CasesOptions<'_>,
    writer: &mut Watched<W>,
    faults: &mut Watched<F>,
) -> Exit
    requires { has_failed writer.old ≡ false }
    ensures { ListsCases options.entry result (watched W.contents writer.old writer.new)
        (watched F.contents faults.old faults.new) }
{
    match write_cases(alloc, options.titles, asked_for(options.id), writer) {
        Ok(exit) => exit,
        Err(why) => tell_no_cases(alloc, why, faults),
    }
}

/// The word that is given, a star where there is none.
fn asked_for(word: Option<&str>) -> &str
    ensures { result.now ≡ asked_for word.entry }
{
    match word {
        Some(word) => word,
        None => "*",
    }
}

/// Writes what a word asks for.
fn write_cases<'a, W: Write>(
    alloc: Global,
    with_titles: bool,
    word: &'a str,
    writer: &mut Watched<W>,
) -> Result<Exit, NoCases<'a>>
    requires { has_failed writer.old ≡ false }
    ensures { WritesCases with_titles word.now result (watched W.contents writer.old writer.new) }
{
    let cases = cases_of(alloc, &[word])?;
    if with_titles {
        let lines = titled_lines(alloc, cases.as_slice())?;
        Ok(deliver(Exit::Done, lines.as_bytes(), writer))
    } else if is_glob(word) {
        let lines = lines_of(alloc, cases.as_slice())?;
        Ok(deliver(Exit::Done, lines.as_bytes(), writer))
    } else {
        let text = write_script(alloc, &cases[0])?;
        Ok(deliver(Exit::Done, text.as_slice(), writer))
    }
}

/// The lines of these cases.
fn lines_of(alloc: Global, cases: &[Case]) -> Result<String, NoMemory>
    requires { All CanBeRun cases.now }
    ensures { IfOk result (λ lines. string_bytes lines ≡ flat_map case_line cases.now) }
{
    let mut lines = String::new(alloc);
    for case in cases {
        push_line(alloc, case, &mut lines)?;
    }
    Ok(lines)
}

/// Puts the line of a case at the end of the lines.
fn push_line(alloc: Global, case: &Case, lines: &mut String) -> Result<(), NoMemory>
    requires { CanBeRun case.now }
    ensures { IfOk result (λ _. string_bytes lines.new ≡ string_bytes lines.old ++ case_line case.now) }
{
    let turns = turns(alloc, case, ANY_KEY)?;
    let line = format!(in alloc; "{} {}\n", case.id, turns.len())?;
    lines.push_str(line.as_str())?;
    Ok(())
}

/// The lines of these cases, with their titles.
fn titled_lines(alloc: Global, cases: &[Case]) -> Result<String, NoMemory>
    ensures { IfOk result (λ lines. string_bytes lines ≡ flat_map titled_line cases.now) }
{
    let mut lines = String::new(alloc);
    for case in cases {
        push_titled(alloc, case, &mut lines)?;
    }
    Ok(lines)
}

/// Puts the line of a case, with its title, at the end of the lines.
fn push_titled(alloc: Global, case: &Case, lines: &mut String) -> Result<(), NoMemory>
    ensures { IfOk result (λ _. string_bytes lines.new ≡ string_bytes lines.old ++ titled_line case.now) }
{
    let titled = format!(in alloc; "{} {}\n", case.id, title_of(case.id.as_str()))?;
    lines.push_str(titled.as_str())?;
    Ok(())
}
