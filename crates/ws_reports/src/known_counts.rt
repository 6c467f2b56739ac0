//! How the cases of a run stand beside an earlier run, and how many stand so.

ghost use Rattle.std.specs.Prelude.{◌≡◌, IfOk, MatchOption, string_bytes};
ghost use Rattle.ws_reports.specs.KnownCounts.{HasNoRoomFor, change_by, change_since, counts_line, counts_with};
ghost use Rattle.ws_reports.specs.KnownCounts.{no_counts};

use crate::verdict_words::tells_fail;
use std::alloc::Global;
use ws_base::NoMemory;

/// How the verdict of a case stands beside the one that is known of it.
#[derive(Clone, Copy)]
pub enum Change {
    /// It is the same.
    Same,
    /// It is a Fail, and the known one is none, or none is known.
    New,
    /// The known one is a Fail, and it is none.
    Fixed,
    /// Any other.
    Changed,
}

/// How a verdict stands beside the one that is known.
pub(crate) fn change_since(known: &str, verdict: &str) -> Change
    ensures { result ≡ change_since known.now verdict.now }
{
    if known == verdict {
        return Change::Same;
    }
    change_by(tells_fail(known.as_bytes()), tells_fail(verdict.as_bytes()))
}

/// How another verdict stands, where it was a Fail or not, and is one or not.
pub(crate) fn change_by(was_fail: bool, is_fail: bool) -> Change
    ensures { result ≡ change_by was_fail is_fail }
{
    match (was_fail, is_fail) {
        (false, true) => Change::New,
        (true, false) => Change::Fixed,
        (true, true) | (false, false) => Change::Changed,
    }
}

/// How many cases of a run stand so beside an earlier run.
#[derive(Clone, Copy)]
pub struct KnownCounts {
    pub same: usize,
    pub new: usize,
    pub fixed: usize,
    pub changed: usize,
}

impl KnownCounts {
    /// Of no case.
    pub fn none() -> KnownCounts
        ensures { result ≡ no_counts }
    {
        KnownCounts {
            same: 0,
            new: 0,
            fixed: 0,
            changed: 0,
        }
    }

    /// With one case more. `None` where 64 bits can't count it.
    pub fn with(self, change: Change) -> Option<KnownCounts>
        ensures { MatchOption result (HasNoRoomFor self change) (λ counts. counts ≡ counts_with self change) }
    {
        match change {
            Change::Same => Some(KnownCounts {
                same: self.same.checked_add(1)?,
                ..self
            }),
            Change::New => Some(KnownCounts {
                new: self.new.checked_add(1)?,
                ..self
            }),
            Change::Fixed => Some(KnownCounts {
                fixed: self.fixed.checked_add(1)?,
                ..self
            }),
            Change::Changed => Some(KnownCounts {
                changed: self.changed.checked_add(1)?,
                ..self
            }),
        }
    }
}

/// The line of these counts.
pub(crate) fn counts_line(alloc: Global, counts: KnownCounts) -> Result<String, NoMemory>
    ensures { IfOk result (λ line. string_bytes line ≡ counts_line counts) }
{
    Ok(format!(in alloc;
        "known: {} same, {} new, {} fixed, {} changed\n",
        counts.same, counts.new, counts.fixed, counts.changed
    )?)
}
