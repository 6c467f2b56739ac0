//! The payloads of pings that were sent and aren't answered yet, or of pongs that were got (RFC 6455 section 5.5.3).

ghost use Rattle.std.specs.Prelude.{◌≡◌, ◌++◌, ◌∷◌, [], OnErr, OnOk};
ghost use Rattle.ws_suite.specs.InnerUnanswered.{fingerprint};
ghost use Rattle.ws_suite.specs.Progress.{is_pong_owed, without_ping};

mod packed;
mod prints;

use packed::PackedPayloads;
use prints::{Prints, count_one, discount_one, is_counted};
use std::alloc::Global;
use std::collections::BTreeMap;
use std::hash::{DefaultHasher, Hasher};
use std::marker::Model;
use ws_base::NoMemory;

/// Payloads of pings or of pongs in their order, and how many of them have each fingerprint: so one that isn't there is
/// mostly known by its fingerprint alone. Contracts see their list.
#[derive(Drop)]
pub(crate) struct ControlPayloads {
    alloc: Global,
    payloads: PackedPayloads,
    /// At least as many as there are: there may be more after `NoMemory`.
    prints: Prints,
}

impl Model for ControlPayloads {
    ghost use Rattle.std.specs.Prelude.{◌≤◌, List, ℕ};
    ghost use Rattle.ws_suite.specs.InnerUnanswered.{print_count, with_print};

    ghost Value = { List (List ℕ) };

    ghost view = { λ x. x.payloads };

    ghost invariant = { λ x. (print : ℕ) → with_print print x.payloads ≤ print_count x.prints print };
}

impl ControlPayloads {
    /// No payload.
    pub(super) fn new(alloc: Global) -> ControlPayloads
        ensures { result ≡ [] }
    {
        ControlPayloads {
            alloc,
            payloads: PackedPayloads::new(alloc),
            prints: BTreeMap::new(alloc),
        }
    }

    /// One more, behind the others.
    pub(super) fn add(&mut self, payload: &[u8]) -> Result<(), NoMemory>
        ensures ok { OnOk result (self.new ≡ self.old ++ payload.now ∷ []) }
        ensures err { OnErr result (self.new ≡ self.old) }
    {
        count_one(&mut self.prints, fingerprint(payload))?;
        self.payloads.push(payload)
    }

    /// None is there any more. Their memory is given back.
    pub(super) fn clear(&mut self)
        ensures { self.new ≡ [] }
    {
        self.payloads = PackedPayloads::new(self.alloc);
        self.prints = BTreeMap::new(self.alloc);
    }

    /// Whether this one is there.
    pub(super) fn contains(&self, payload: &[u8]) -> bool
        ensures { result ≡ is_pong_owed payload.now self.now }
    {
        let print = fingerprint(payload);
        if !is_counted(&self.prints, print) {
            return false;
        }
        self.payloads.contains(payload)
    }

    /// A pong was got, and these are the pings that aren't answered yet: whether it is owed. It answers the first with
    /// its payload, which most often is the first of all.
    pub(super) fn answer(&mut self, payload: &[u8]) -> bool
        ensures owed { result ≡ is_pong_owed payload.now self.old }
        ensures left { self.new ≡ without_ping payload.now self.old }
    {
        let print = fingerprint(payload);
        if !is_counted(&self.prints, print) {
            return false;
        }
        if !self.payloads.take_out(payload) {
            return false;
        }
        discount_one(&mut self.prints, print);
        true
    }
}

/// The fingerprint of a payload. That two payloads share one is rare, and changes no answer.
fn fingerprint(payload: &[u8]) -> u64
    ensures { result ≡ fingerprint payload.now }
{
    let mut hasher = DefaultHasher::new();
    hasher.write(payload);
    hasher.finish()
}
