//! The names of the cases, one case, and what is sent for it.

ghost use Rattle.std.specs.Prelude.{IfOk, IfSome};
ghost use Rattle.ws_scripts.specs.Scripts.{CanBeRun};

use crate::streams;
use crate::tally::Tally;
use std::alloc::Global;
use ws_base::{NoMemory, Sequence};
use ws_suite::{Case, CutTurn, case, ids, turns};

/// The case that is made and sent.
const NAME: &str = "5.19";

const KEY: [u8; 4] = [0; 4];

/// Asks for the names of all cases, for a case, and for what is sent for it.
pub fn make(alloc: Global, tally: &mut Tally) -> Result<(), NoMemory> {
    let names = ids_again(alloc, tally)?;
    compare_names(names.as_slice(), tally);
    let case = script(alloc, tally)?;
    tally.compare(case.id.as_str() == NAME);
    let turns = turns_again(alloc, &case, tally)?;
    tally.compare(turns.len() == streams::FRAGMENTS.pieces.len());
    for (place, pieces) in turns.as_slice().iter().enumerate() {
        tally.compare(is_turn(pieces, place));
    }
    Ok(())
}

/// Compares how many names there are, and the first and the last.
fn compare_names(names: &[String], tally: &mut Tally) {
    tally.compare(names.len() == 240);
    tally.compare(names.first().is_some_and(|name| name.as_str() == "1.1.1"));
    tally.compare(names.last().is_some_and(|name| name.as_str() == "7.9.9"));
}

/// Whether these are the pieces of the turn at this place: one piece.
fn is_turn(pieces: &CutTurn, place: usize) -> bool {
    match streams::FRAGMENTS.pieces.get(place) {
        Some(wanted) => pieces.len() == 1 && pieces.piece(0) == *wanted,
        None => false,
    }
}

/// The names, asked for again where memory runs out.
fn ids_again(alloc: Global, tally: &mut Tally) -> Result<Sequence<String>, NoMemory> {
    tally.call();
    match names_of(alloc) {
        Ok(names) => Ok(names),
        Err(NoMemory) => {
            tally.refuse("ids");
            names_of(alloc)
        }
    }
}

fn names_of(alloc: Global) -> Result<Sequence<String>, NoMemory> {
    ids(alloc)
}

/// The case, asked for again where memory runs out. A case that is not there is told as want of memory.
pub fn script(alloc: Global, tally: &mut Tally) -> Result<Case, NoMemory>
    ensures { IfOk result (λ case. CanBeRun case) }
{
    tally.call();
    match made(alloc) {
        Ok(Some(case)) => return Ok(case),
        Ok(None) => return Err(NoMemory),
        Err(NoMemory) => tally.refuse("case"),
    }
    match made(alloc)? {
        Some(case) => Ok(case),
        None => Err(NoMemory),
    }
}

/// The case, where it is there.
fn made(alloc: Global) -> Result<Option<Case>, NoMemory>
    ensures { IfOk result (λ made. IfSome made CanBeRun) }
{
    case(alloc, NAME)
}

/// What is sent, asked for again where memory runs out.
fn turns_again(alloc: Global, case: &Case, tally: &mut Tally) -> Result<Sequence<CutTurn>, NoMemory>
    requires { CanBeRun case.now }
{
    tally.call();
    match sent_for(alloc, case) {
        Ok(turns) => Ok(turns),
        Err(NoMemory) => {
            tally.refuse("turns");
            sent_for(alloc, case)
        }
    }
}

fn sent_for(alloc: Global, case: &Case) -> Result<Sequence<CutTurn>, NoMemory>
    requires { CanBeRun case.now }
{
    turns(alloc, case, KEY)
}
