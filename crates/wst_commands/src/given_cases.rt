//! The cases that the words of a command line stand for. How words stand for cases is told in docs/FORMATS.md.

ghost use Rattle.std.specs.Prelude.{◌≡◌, ◌⊎◌, ⊤, IfOk, MatchBool, MatchOption, MatchResult, filter, map, take};
ghost use Rattle.std.specs.Prelude.{string_bytes};
ghost use Rattle.std.specs.Prelude.{◌-◌, false, length, true};
ghost use Rattle.std.specs.List.{list_any};
ghost use Rattle.ws_frame.specs.Devices.{watched};
ghost use Rattle.wst_commands.specs.Devices.{StaysFailed, Tells};
ghost use Rattle.wst_commands.specs.Faults.{LacksMemory};
ghost use Rattle.wst_commands.specs.GivenCases.{AreCasesFor, AreNamesFor, GrowsByCase, GrowsByCases, HaveNoGlob};
ghost use Rattle.wst_commands.specs.GivenCases.{LackCases, TellsNoCases};
ghost use Rattle.wst_commands.specs.GivenCases.{case_advice, ids_for, is_address_byte, is_glob, is_meant, names_of};
ghost use Rattle.wst_commands.specs.GivenCases.{no_case_line, or_all};
ghost use Rattle.wst_commands.specs.declared.exit.Exit.TheVariants.{WrongWords};

use crate::exit::Exit;
use crate::fault::{Fault, tell_fault};
use crate::shown_word::ShownWord;
use crate::telling::tell;
use std::alloc::{AllocError, Global};
use std::io::Write;
use ws_base::NoMemory;
use ws_frame::Watched;
use ws_scripts::all_ids;
use ws_suite::{Case, case};

/// Why there are no cases for some words.
#[derive(Clone, Copy)]
pub enum NoCases<'a> {
    /// This word stands for none.
    NoSuchCase(&'a str),
    /// Memory ran out.
    NoMemory,
}

impl From<NoMemory> for NoCases<'_> {
    ghost use Rattle.wst_commands.specs.declared.given_cases.NoCases.TheVariants as why;

    ghost from_gives = { λ _ given. given ≡ why.NoMemory };

    fn from(_refused: NoMemory) -> Self {
        NoCases::NoMemory
    }
}

/// The cases that the words stand for; all that are listed where there are no words.
pub fn cases_of<'a>(alloc: Global, words: &[&'a str]) -> Result<Vec<Case>, NoCases<'a>>
    ensures { MatchResult result (λ cases. AreCasesFor (or_all (names_of words.now)) cases.items)
        (LackCases (or_all (names_of words.now))) }
{
    if words.is_empty() {
        let all = ["*"];
        cases_for(alloc, &all)
    } else {
        cases_for(alloc, words)
    }
}

/// The cases that the words stand for.
fn cases_for<'a>(alloc: Global, words: &[&'a str]) -> Result<Vec<Case>, NoCases<'a>>
    ensures { MatchResult result (λ cases. AreCasesFor (names_of words.now) cases.items)
        (LackCases (names_of words.now)) }
{
    let names = names_for(alloc, words)?;
    let mut cases = Vec::new(alloc);
    for word in words {
        let there = push_cases(alloc, names.as_slice(), *word, &mut cases)?;
        if !there {
            return Err(NoCases::NoSuchCase(*word));
        }
    }
    Ok(cases)
}

/// The names of all cases, in their order; none where no word needs them.
fn names_for(alloc: Global, words: &[&str]) -> Result<Vec<String>, NoMemory>
    ensures { IfOk result (λ names. AreNamesFor words.now (map string_bytes names.items)) }
{
    if has_glob(words) {
        let names = all_ids(alloc)?;
        Ok(names.into_vec())
    } else {
        Ok(Vec::new(alloc))
    }
}

/// Whether one of the words ends in a star.
fn has_glob(words: &[&str]) -> bool
    ensures { MatchBool result ⊤ (HaveNoGlob words.now) }
{
    for word in words {
        if is_glob(*word) {
            return true;
        }
    }
    false
}

/// Puts the cases that a word stands for at the end of the cases. Answers whether there is one, and each id has one.
fn push_cases(
    alloc: Global,
    names: &[String],
    word: &str,
    cases: &mut Vec<Case>,
) -> Result<bool, NoMemory>
    ensures { IfOk result (λ there. GrowsByCases (ids_for (map string_bytes names.now) word.now) there
        cases.old.items cases.new.items) }
{
    let found = ids_for(alloc, names, word)?;
    let ids = found.as_slice();
    if ids.is_empty() {
        return Ok(false);
    }
    for id in ids {
        let there = push_case(alloc, *id, cases)?;
        if !there {
            return Ok(false);
        }
    }
    Ok(true)
}

/// Puts the case with this name at the end of the cases. Answers whether there is one.
fn push_case(alloc: Global, name: &str, cases: &mut Vec<Case>) -> Result<bool, NoMemory>
    ensures { IfOk result (λ there. GrowsByCase name.now there cases.old.items cases.new.items) }
{
    match case(alloc, name)? {
        Some(found) => {
            cases.push(found)?;
            Ok(true)
        }
        None => Ok(false),
    }
}

/// Whether a word ends in a star, and so stands for the cases whose names begin with what is before that.
pub fn is_glob(word: &str) -> bool
    ensures { result ≡ is_glob word.now }
{
    before_star(word.as_bytes()).is_some()
}

/// What stands before a star that stands last.
fn before_star(word: &[u8]) -> Option<&[u8]>
    ensures { MatchOption result (is_glob word.now ≡ false)
        (λ front. (is_glob word.now ≡ true) × (front.now ≡ take (length word.now - 1) word.now)) }
{
    if word.is_empty() {
        return None;
    }
    let last = word.len() - 1;
    if word[last] == b'*' {
        Some(&word[..last])
    } else {
        None
    }
}

/// The ids that stand for a word, where `names` are the names of all cases, in their order.
pub fn ids_for<'a>(
    alloc: Global,
    names: &'a [String],
    word: &'a str,
) -> Result<Vec<&'a str>, AllocError>
    ensures { IfOk result (λ ids. names_of ids.items ≡ ids_for (map string_bytes names.now) word.now) }
{
    match before_star(word.as_bytes()) {
        Some(front) => names_meant(alloc, front, names),
        None => {
            let mut ids = Vec::new(alloc);
            ids.push(word)?;
            Ok(ids)
        }
    }
}

/// The names that are meant by what stands before a star, in their order.
fn names_meant<'a>(
    alloc: Global,
    front: &[u8],
    names: &'a [String],
) -> Result<Vec<&'a str>, AllocError>
    ensures { IfOk result (λ ids. names_of ids.items ≡ filter (is_meant front.now) (map string_bytes names.now)) }
{
    let mut ids = Vec::new(alloc);
    for name in names {
        if is_meant(front, name.as_bytes()) {
            ids.push(name.as_str())?;
        }
    }
    Ok(ids)
}

/// Whether a name is meant by what stands before a star: it begins with that, and with `x` only where that does too.
fn is_meant(front: &[u8], name: &[u8]) -> bool
    ensures { result ≡ is_meant front.now name.now }
{
    name.starts_with(front) && (!name.starts_with(b"x") || front.starts_with(b"x"))
}

/// Tells why there are no cases in its line, where the fault output takes it, and answers the exit that it stands for.
pub fn tell_no_cases<F: Write>(alloc: Global, why: NoCases<'_>, faults: &mut Watched<F>) -> Exit
    ensures told { TellsNoCases why.entry result (watched F.contents faults.old faults.new) }
    ensures still { StaysFailed faults.old faults.new }
{
    match why {
        NoCases::NoSuchCase(id) => tell_no_case(alloc, id, faults),
        NoCases::NoMemory => tell_fault(alloc, Fault::NoMemory, faults),
    }
}

/// Tells that there is no case of this name, and how to find one.
fn tell_no_case<F: Write>(alloc: Global, id: &str, faults: &mut Watched<F>) -> Exit
    ensures told { ((result ≡ WrongWords) × Tells (no_case_line id.now) (watched F.contents faults.old faults.new))
        ⊎ LacksMemory result (watched F.contents faults.old faults.new) }
    ensures still { StaysFailed faults.old faults.new }
{
    let shown = ShownWord { alloc, word: id };
    let advice = case_advice(id);
    match format!(in alloc; "no such case: {shown}\n  {advice}\n") {
        Ok(line) => {
            tell(line.as_bytes(), faults);
            Exit::WrongWords
        }
        Err(_) => tell_fault(alloc, Fault::NoMemory, faults),
    }
}

/// What to type instead of a word that stands for no case.
fn case_advice(id: &str) -> &'static str
    ensures { result.now ≡ case_advice id.now }
{
    if has_address_byte(id.as_bytes()) {
        "TARGET comes before IDs, and --known reads stdin: wst test --known TARGET '2.*' < known.txt"
    } else {
        "wst cases lists them; a star stands for a group: '2.*'"
    }
}

/// Whether one of these bytes is of addresses and paths, and of no case's name.
fn has_address_byte(id: &[u8]) -> bool
    ensures { result ≡ list_any is_address_byte id.now }
{
    id.iter().any(|byte| is_address_byte(*byte))
}

/// Whether a byte is one of addresses and paths, and of no case's name.
fn is_address_byte(byte: u8) -> bool
    ensures { result ≡ is_address_byte byte }
{
    byte == b':' || byte == b'/'
}
