//! What a connection of a client under test is for.

ghost use Rattle.std.specs.Prelude.{◌≡◌, MatchOption};
ghost use Rattle.ws_paths.specs.Paths.{IsPlaceNamed, IsPurpose, AsksWithin, TakesNumber};
ghost use Rattle.ws_paths.specs.Paths.{next_purpose, number_to_run, place_for, purpose_for};

use crate::named_case::{cut_path, named_case};

/// What a connection of a client under test is for, by the path of its request. Cases are numbered from 1.
#[derive(Clone, Copy, Debug, PartialEq, Eq)]
pub enum Purpose {
    /// It is told how many cases there are.
    CaseCount,
    /// This case is run.
    RunCase(u32),
    /// It is told the name of this case, and how many turns it has.
    CaseInfo(u32),
    /// It is told what came of this case.
    CaseStatus(u32),
    /// It is told nothing, and the run ends with it.
    UpdateReports,
    /// This case is run, which comes after the last one that was run for a path without a meaning of its own.
    NextCase(u32),
    /// It asks for a case, and names none.
    NoCase,
}

impl Purpose {
    /// The case that is run, if one is.
    pub fn number_to_run(self) -> Option<u32>
        ensures { result ≡ number_to_run self }
    {
        match self {
            Purpose::RunCase(number) | Purpose::NextCase(number) => Some(number),
            Purpose::CaseCount
            | Purpose::CaseInfo(_)
            | Purpose::CaseStatus(_)
            | Purpose::UpdateReports
            | Purpose::NoCase => None,
        }
    }
}

/// What is asked for of a case that is named by its number.
#[derive(Clone, Copy)]
enum Wanted {
    Run,
    Info,
    Status,
}

/// What a connection with this path is for, where there are so many cases, and the first `asked` of them were run for
/// paths without a meaning of their own.
pub(crate) fn purpose_of(path: &[u8], count: u32, asked: u32) -> Purpose
    ensures purpose { IsPurpose count asked path.now result }
    ensures within { AsksWithin count result }
{
    let (place, query) = cut_path(path);
    if place.ends_with(b"/getCaseCount") {
        return Purpose::CaseCount;
    }
    if place.ends_with(b"/updateReports") {
        return Purpose::UpdateReports;
    }
    let Some(wanted) = wanted_at(place) else {
        return next_case(count, asked);
    };
    match named_case(query, count) {
        Some(number) => purpose_for(wanted, number),
        None => Purpose::NoCase,
    }
}

/// What is asked for at a place of paths, where that is asked of a case.
fn wanted_at(place: &[u8]) -> Option<Wanted>
    ensures { MatchOption result (¬ (TakesNumber place.now)) (λ wanted. IsPlaceNamed (place_for wanted) place.now) }
{
    if place.ends_with(b"/runCase") {
        Some(Wanted::Run)
    } else if place.ends_with(b"/getCaseInfo") {
        Some(Wanted::Info)
    } else if place.ends_with(b"/getCaseStatus") {
        Some(Wanted::Status)
    } else {
        None
    }
}

/// What a connection is for that asks so for the case of this number.
fn purpose_for(wanted: Wanted, number: u32) -> Purpose
    ensures { result ≡ purpose_for wanted number }
{
    match wanted {
        Wanted::Run => Purpose::RunCase(number),
        Wanted::Info => Purpose::CaseInfo(number),
        Wanted::Status => Purpose::CaseStatus(number),
    }
}

/// What a connection is for whose path has no meaning of its own.
fn next_case(count: u32, asked: u32) -> Purpose
    ensures { result ≡ next_purpose count asked }
{
    if asked < count {
        Purpose::NextCase(asked + 1)
    } else {
        Purpose::NoCase
    }
}
