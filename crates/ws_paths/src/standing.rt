//! How the cases of a run stand.

ghost use Rattle.std.specs.Prelude.{◌≡◌, ◌≤◌, IfOk, length};
ghost use Rattle.ws_paths.specs.Paths.{IsPurpose, AsksWithin};
ghost use Rattle.ws_paths.specs.Standings.{after_connection, behavior_of, ends_run, none_run};

use crate::behavior::Behavior;
use crate::purpose::{Purpose, purpose_of};
use std::alloc::Global;
use std::marker::Model;
use ws_base::NoMemory;

/// How the cases of a run stand: what came of each, and how many were run for paths without a meaning of their own.
#[derive(Drop)]
pub struct Standing {
    behaviors: Vec<Behavior>,
    count: u32,
    asked: u32,
}

impl Model for Standing {
    ghost use Rattle.std.specs.Prelude.{◌≡◌, ◌<◌, ◌^◌, length};
    ghost use Rattle.ws_paths.specs.Standings.{StandingValue};

    ghost Value = { StandingValue };

    ghost view = { λ standing. record { behaviors = standing.behaviors.items; asked = standing.asked } };

    ghost invariant = { λ standing. length standing.behaviors.items ≡ standing.count };
}

impl Standing {
    /// So many cases, none of which was run.
    pub fn new(alloc: Global, count: u32) -> Result<Standing, NoMemory>
        ensures { IfOk result (λ standing. standing ≡ none_run count) }
    {
        let Ok(behaviors) = vec![in alloc; Behavior::Unimplemented; count as usize] else {
            return Err(NoMemory);
        };
        Ok(Standing {
            behaviors,
            count,
            asked: 0,
        })
    }

    /// How many cases there are.
    pub fn count(&self) -> u32
        ensures { result ≡ length self.now.behaviors }
    {
        self.count
    }

    /// What a connection with this path is for.
    pub fn purpose(&self, path: &[u8]) -> Purpose
        ensures purpose { IsPurpose (length self.now.behaviors) self.now.asked path.now result }
        ensures within { AsksWithin (length self.now.behaviors) result }
    {
        purpose_of(path, self.count, self.asked)
    }

    /// What came of a case the last time that it was run.
    pub fn behavior(&self, number: u32) -> Behavior
        requires from_one { 1 ≤ number }
        requires there { number ≤ length self.now.behaviors }
        ensures { result ≡ behavior_of self.now number }
    {
        self.behaviors[number as usize - 1]
    }

    /// A connection for this purpose has ended, and if it was one for a case, this came of that.
    pub fn on_end(&mut self, purpose: Purpose, behavior: Behavior)
        requires { AsksWithin (length self.old.behaviors) purpose }
        ensures { self.new ≡ after_connection self.old purpose behavior }
    {
        if let Some(number) = purpose.number_to_run() {
            self.behaviors[number as usize - 1] = behavior;
        }
        if let Purpose::NextCase(number) = purpose {
            self.asked = number;
        }
    }

    /// Whether a run ends with a connection for this purpose.
    pub fn ends_with(&self, purpose: Purpose) -> bool
        ensures { result ≡ ends_run (length self.now.behaviors) purpose }
    {
        match purpose {
            Purpose::UpdateReports => true,
            Purpose::NextCase(number) => number == self.count,
            Purpose::CaseCount
            | Purpose::RunCase(_)
            | Purpose::CaseInfo(_)
            | Purpose::CaseStatus(_)
            | Purpose::NoCase => false,
        }
    }
}
