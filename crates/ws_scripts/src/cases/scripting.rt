//! From a row of the table to a script.

ghost use Rattle.std.specs.Prelude.{◌≡◌, ◌<◌, ◌≤◌, [], length, map, get_or, string_bytes, true};
ghost use Rattle.std.specs.Prelude.{IfOk, MatchOption};
ghost use Rattle.ws_base.specs.Finding.{Finds};
ghost use Rattle.std.specs.List.{Contains};
ghost use Rattle.ws_scripts.specs.CaseNames.{numbered, numbered_name};
ghost use Rattle.ws_scripts.specs.InnerCases.{IsNamedAt, row_fits, row_name, section_count, section_fits};
ghost use Rattle.ws_scripts.specs.InnerCases.{section_names};
ghost use Rattle.ws_scripts.specs.Scripts.{CanBeRun, CutsOff, FitHeaders};

use crate::cases::pushing::{push_act, push_close, push_frame};
use crate::cases::row::{Finish, Row, Section};
use crate::script::{Case, Chop, Step};
use std::alloc::Global;
use ws_base::{NoMemory, Sequence};
use ws_formats::read_u32;

/// How many characters of each plane are its last two.
const LAST_CHARACTERS: usize = 34;

/// How many cases a section has.
pub(crate) fn count_of(section: Section) -> usize
    ensures { result ≡ section_count section }
{
    match section {
        Section::Rows(rows) => rows.len(),
        Section::Texts(_, texts) => texts.len(),
        Section::Joined(_, _) => 1,
        Section::Fronts(_, text) => text.len(),
        Section::NonCharacters(_) => LAST_CHARACTERS,
        Section::Codes(_, codes) => codes.len(),
    }
}

/// The name of the case at this place of a section.
pub(crate) fn name_of(alloc: Global, section: Section, place: usize) -> Result<String, NoMemory>
    requires { place < section_count section }
    ensures { IfOk result (λ name. IsNamedAt section place (string_bytes name)) }
{
    match section {
        Section::Rows(rows) => row_name(alloc, &rows[place]),
        Section::Texts(front, _)
        | Section::Joined(front, _)
        | Section::Fronts(front, _)
        | Section::NonCharacters(front)
        | Section::Codes(front, _) => numbered_name(alloc, front, place + 1),
    }
}

/// The name of a row.
fn row_name(alloc: Global, row: &Row) -> Result<String, NoMemory>
    ensures { IfOk result (λ name. string_bytes name ≡ row_name row.now) }
{
    let name = String::from_str(alloc, row.0)?;
    Ok(name)
}

/// This front, a dot and this number.
fn numbered_name(alloc: Global, front: &str, number: usize) -> Result<String, NoMemory>
    ensures { IfOk result (λ name. string_bytes name ≡ numbered_name front.now number) }
{
    let name = format!(in alloc; "{front}.{number}")?;
    Ok(name)
}

/// At which place of a section the case with this name stands.
pub(crate) fn place_of(section: Section, id: &str) -> Option<usize>
    requires { section_fits section ≡ true }
    ensures { MatchOption result (¬ (Contains (section_names section) id.now))
        (λ place. IsNamedAt section place id.now) }
{
    match section {
        Section::Rows(rows) => row_of(rows, id),
        Section::Texts(front, _)
        | Section::Joined(front, _)
        | Section::Fronts(front, _)
        | Section::NonCharacters(front)
        | Section::Codes(front, _) => place_by_number(front, count_of(section), id),
    }
}

/// At which place the row with this name stands.
fn row_of(rows: &[Row], id: &str) -> Option<usize>
    ensures { MatchOption result (¬ (Contains (map row_name rows.now) id.now))
        (λ place. (place < length rows.now) × (get_or (map row_name rows.now) place [] ≡ id.now)) }
{
    for (place, row) in rows.iter().enumerate() {
        if row.0 == id {
            return Some(place);
        }
    }
    None
}

/// The place of a name that is this front, a dot and a number from 1 to `count`.
fn place_by_number(front: &str, count: usize, id: &str) -> Option<usize>
    requires { count ≤ 65535 }
    ensures { MatchOption result (¬ (Contains (numbered front.now count) id.now))
        (λ place. (place < count) × (get_or (numbered front.now count) place [] ≡ id.now)) }
{
    match number_behind(front.as_bytes(), id.as_bytes()) {
        Some(number) if 0 < number && number as usize <= count => Some(number as usize - 1),
        _ => None,
    }
}

/// The number behind this front and a dot.
fn number_behind(front: &[u8], name: &[u8]) -> Option<u32>
    ensures { Finds result (λ number. (number ≤ 4294967295) × (name.now ≡ numbered_name front.now number)) }
{
    match name.strip_prefix(front) {
        Some([b'.', number @ ..]) => read_u32(number),
        _ => None,
    }
}

/// The script of the case at this place of a section.
pub(crate) fn script_of(
    alloc: Global,
    section: Section,
    place: usize,
    id: &str,
) -> Result<Case, NoMemory>
    requires place { place < section_count section }
    requires fits { section_fits section ≡ true }
    ensures run { IfOk result (λ case. CanBeRun case) }
    ensures name { IfOk result (λ case. string_bytes case.id ≡ id.now) }
{
    let steps = steps_of(alloc, section, place)?;
    let id = String::from_str(alloc, id)?;
    Ok(Case {
        id,
        steps: Sequence::from_vec(steps),
        chop: chop_of(section, place),
    })
}

/// How the bytes of the case are cut.
fn chop_of(section: Section, place: usize) -> Chop
    requires place { place < section_count section }
    requires fits { section_fits section ≡ true }
    ensures { CutsOff result }
{
    match section {
        Section::Rows(rows) => rows[place].1,
        _ => Chop::Whole,
    }
}

/// The steps of the case.
fn steps_of(alloc: Global, section: Section, place: usize) -> Result<Vec<Step>, NoMemory>
    requires place { place < section_count section }
    requires fits { section_fits section ≡ true }
    ensures { IfOk result (λ steps. FitHeaders steps.items) }
{
    match section {
        Section::Rows(rows) => row_steps(alloc, &rows[place]),
        Section::Texts(_, texts) => text_steps(alloc, texts[place].to_vec(alloc)?),
        Section::Joined(_, texts) => text_steps(alloc, joined(alloc, texts)?),
        Section::Fronts(_, text) => text_steps(alloc, text[..place + 1].to_vec(alloc)?),
        Section::NonCharacters(_) => text_steps(alloc, last_character(alloc, place)?),
        Section::Codes(_, codes) => close_steps(alloc, codes[place]),
    }
}

/// The steps of a row.
fn row_steps(alloc: Global, row: &Row) -> Result<Vec<Step>, NoMemory>
    requires { row_fits row.now ≡ true }
    ensures { IfOk result (λ steps. FitHeaders steps.items) }
{
    let mut steps = Vec::new(alloc);
    for act in row.3 {
        push_act(alloc, *act, &mut steps)?;
    }
    match row.2 {
        Finish::Plain => {}
        Finish::Closed => push_close(alloc, &mut steps)?,
    }
    Ok(steps)
}

/// A text message of this payload. Where it is UTF-8, a close in a turn of its own follows.
fn text_steps(alloc: Global, payload: Vec<u8>) -> Result<Vec<Step>, NoMemory>
    ensures { IfOk result (λ steps. FitHeaders steps.items) }
{
    let is_text = std::str::from_utf8(&payload).is_ok();
    let mut steps = Vec::new(alloc);
    push_frame(true, 0, 1, payload, &mut steps)?;
    if is_text {
        push_close(alloc, &mut steps)?;
    }
    Ok(steps)
}

/// A close with this code and without a reason.
fn close_steps(alloc: Global, code: u16) -> Result<Vec<Step>, NoMemory>
    ensures { IfOk result (λ steps. FitHeaders steps.items) }
{
    let mut steps = Vec::new(alloc);
    push_frame(true, 0, 8, code.to_be_bytes().to_vec(alloc)?, &mut steps)?;
    Ok(steps)
}

/// The payloads one after the other.
fn joined(alloc: Global, texts: &[&[u8]]) -> Result<Vec<u8>, NoMemory> {
    let mut bytes = Vec::new(alloc);
    for text in texts {
        bytes.extend_from_slice(text)?;
    }
    Ok(bytes)
}

/// The character at this place among the last two of each plane: U+FFFE, U+FFFF, U+1FFFE, and so on.
fn last_character(alloc: Global, place: usize) -> Result<Vec<u8>, NoMemory>
    requires { place < 34 }
{
    let code = (place / 2) as u32 * 0x10000 + 0xfffe + (place % 2) as u32;
    let Some(character) = char::from_u32(code) else {
        unreachable!()
    };
    let mut text = String::new(alloc);
    text.push(character)?;
    Ok(text.into_bytes())
}
