//! The verdicts that a run keeps for its summary.

ghost use Rattle.std.specs.Prelude.{◌≡◌, [], MatchOption, OnErr, OnOk};
ghost use Rattle.ws_reports.specs.Kept.{GoesLast, GoesTo, verdict_after, kept_with};

use std::alloc::Global;
use std::marker::Model;
use ws_base::{NoMemory, Payload};

/// The verdict of a case, by its words.
#[derive(Drop)]
pub struct KeptVerdict {
    /// The name of the case.
    pub id: Payload,
    /// The words of its verdict.
    pub words: Payload,
}

/// The verdicts other than PASS of the cases that were run, each case once: of one that was run more than once the
/// last. Contracts see their list.
#[derive(Drop)]
pub struct KeptVerdicts {
    items: Vec<KeptVerdict>,
}

impl Model for KeptVerdicts {
    ghost use Rattle.std.specs.Prelude.{List};
    ghost use Rattle.ws_reports.specs.declared.kept.KeptVerdict.{KeptVerdict};

    ghost Value = { List KeptVerdict };

    ghost view = { λ kept. kept.items.items };
}

impl KeptVerdicts {
    /// Of no case.
    pub fn new(alloc: Global) -> KeptVerdicts
        ensures { result ≡ [] }
    {
        KeptVerdicts {
            items: Vec::new(alloc),
        }
    }

    /// As a slice.
    pub fn as_slice(&self) -> &[KeptVerdict]
        ensures { result.now ≡ self.now }
    {
        self.items.as_slice()
    }

    /// With the verdict of one case more, if one is to be kept. Where memory runs out, they are as before.
    pub fn keep_any(&mut self, verdict: Option<KeptVerdict>) -> Result<(), NoMemory>
        ensures kept { OnOk result (self.new ≡ kept_with self.old verdict) }
        ensures lacks { OnErr result (self.new ≡ self.old) }
    {
        match verdict {
            Some(verdict) => self.keep(verdict),
            None => Ok(()),
        }
    }

    /// With the verdict of one case more.
    fn keep(&mut self, verdict: KeptVerdict) -> Result<(), NoMemory>
        ensures kept { OnOk result (self.new ≡ verdict_after self.old verdict) }
        ensures lacks { OnErr result (self.new ≡ self.old) }
    {
        match place_of(self.items.as_slice(), verdict.id.as_slice()) {
            Some(place) => {
                self.items[place] = verdict;
                Ok(())
            }
            None => self.add(verdict),
        }
    }

    /// With the verdict of a case that is none of them.
    fn add(&mut self, verdict: KeptVerdict) -> Result<(), NoMemory>
        requires { GoesLast verdict.id self.old }
        ensures kept { OnOk result (self.new ≡ verdict_after self.old verdict) }
        ensures lacks { OnErr result (self.new ≡ self.old) }
    {
        if verdict.words.as_slice() == b"PASS".as_slice() {
            return Ok(());
        }
        self.items.push(verdict)?;
        Ok(())
    }
}

/// The place of a case among these.
fn place_of(kept: &[KeptVerdict], id: &[u8]) -> Option<usize>
    ensures { MatchOption result (GoesLast id.now kept.now) (GoesTo id.now kept.now) }
{
    for place in 0..kept.len() {
        if kept[place].id.as_slice() == id {
            return Some(place);
        }
    }
    None
}
