//! The cases: 240 scripts in seven groups, each a module with rows as they stand in the table of cases, and six more
//! that are run only where they are named. `case` and `ids` read the same rows.

mod closes;
mod fragments;
mod framing;
mod hostile;
mod opcodes;
mod payloads;
mod pings;
mod pushing;
mod reserved_bits;
mod row;
mod scripting;
mod sequences;
mod utf8;

ghost use Rattle.std.specs.Prelude.{◌≡◌, ◌<◌, ◌++◌, [], get_or, map, IfOk, IfSome, MatchOption, string_bytes, true};
ghost use Rattle.std.specs.List.{list_all, Contains};
ghost use Rattle.ws_scripts.specs.CaseNames.{case_names, listed_names};
ghost use Rattle.ws_scripts.specs.InnerCases.{names_by_part, section_names_of, section_fits, section_names};
ghost use Rattle.ws_scripts.specs.Scripts.{CanBeRun};

use crate::cases::row::Section;
use crate::cases::scripting::{count_of, name_of, place_of, script_of};
use crate::script::Case;
use std::alloc::Global;
use ws_base::{NoMemory, Sequence};

/// The case with this name, as `5.19`. `None` where there is none.
pub fn case(alloc: Global, id: &str) -> Result<Option<Case>, NoMemory>
    ensures found { IfOk result (λ found. MatchOption found (¬ (Contains case_names id.now))
        (λ case. Contains case_names id.now × (string_bytes case.id ≡ id.now))) }
    ensures run { IfOk result (λ found. IfSome found CanBeRun) }
{
    for part in 0..ALL_PARTS {
        let found = case_in(alloc, sections(part), id)?;
        if found.is_some() {
            return Ok(found);
        }
    }
    Ok(None)
}

/// The case with this name among these.
fn case_in(alloc: Global, sections: &[Section], id: &str) -> Result<Option<Case>, NoMemory>
    requires { list_all section_fits sections.now ≡ true }
    ensures found { IfOk result (λ found. MatchOption found (¬ (Contains (section_names_of sections.now) id.now))
        (λ case. Contains (section_names_of sections.now) id.now × (string_bytes case.id ≡ id.now))) }
    ensures run { IfOk result (λ found. IfSome found CanBeRun) }
{
    for section in sections {
        if let Some(place) = place_of(*section, id) {
            let case = script_of(alloc, *section, place, id)?;
            return Ok(Some(case));
        }
    }
    Ok(None)
}

/// The names of the 240 cases, in the order of the table. The six whose names begin with `x` are not among them.
pub fn ids(alloc: Global) -> Result<Sequence<String>, NoMemory>
    ensures { IfOk result (λ names. map string_bytes names ≡ listed_names) }
{
    let mut names = Vec::new(alloc);
    for part in 0..LISTED_PARTS {
        push_all(alloc, sections(part), &mut names)?;
    }
    Ok(Sequence::from_vec(names))
}

/// The names of all cases: those that `ids` lists, then the six that begin with `x`.
pub fn all_ids(alloc: Global) -> Result<Sequence<String>, NoMemory>
    ensures { IfOk result (λ names. map string_bytes names ≡ case_names) }
{
    let mut all = Vec::new(alloc);
    for part in 0..ALL_PARTS {
        push_all(alloc, sections(part), &mut all)?;
    }
    Ok(Sequence::from_vec(all))
}

/// Puts the names of the cases of some sections at the end of the names.
fn push_all(alloc: Global, sections: &[Section], names: &mut Vec<String>) -> Result<(), NoMemory>
    ensures { IfOk result (λ _. map string_bytes names.new.items ≡
        map string_bytes names.old.items ++ section_names_of sections.now) }
{
    for section in sections {
        push_names(alloc, *section, names)?;
    }
    Ok(())
}

/// Puts the names of a section's cases at the end of the names.
fn push_names(alloc: Global, section: Section, names: &mut Vec<String>) -> Result<(), NoMemory>
    ensures { IfOk result (λ _. map string_bytes names.new.items ≡
        map string_bytes names.old.items ++ section_names section) }
{
    for place in 0..count_of(section) {
        names.push(name_of(alloc, section, place)?)?;
    }
    Ok(())
}

/// How many parts of the table of cases `ids` lists.
const LISTED_PARTS: usize = 8;

/// How many parts it has.
const ALL_PARTS: usize = 9;

/// A part of the table of cases. The groups stand in their order, the sixth in two parts, and then the cases that are
/// not listed.
fn sections(part: usize) -> &'static [Section]
    requires { part < 9 }
    ensures fits { list_all section_fits result.now ≡ true }
    ensures names { section_names_of result.now ≡ get_or names_by_part part [] }
{
    match part {
        0 => framing::sections(),
        1 => pings::sections(),
        2 => reserved_bits::sections(),
        3 => opcodes::sections(),
        4 => fragments::sections(),
        5 => utf8::sections(),
        6 => sequences::sections(),
        7 => closes::sections(),
        _ => hostile::sections(),
    }
}
