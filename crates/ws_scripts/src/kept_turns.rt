//! Turns that take little room.

ghost use Rattle.std.specs.Prelude.{◌≡◌, ◌++◌, ◌∷◌, [], IfOk};
ghost use Rattle.ws_scripts.specs.Pieces.{turn_with};

use crate::pieces::Pieces;
use crate::turn_walk::TurnWalk;
use std::alloc::Global;
use std::marker::Model;
use ws_base::NoMemory;

/// Turns, whose bytes stand one behind the other: beside these each takes two bytes, and eight more for each direction
/// of 255 bytes or more. Contracts see the list of them.
#[derive(Drop)]
pub(crate) struct KeptTurns {
    /// Of each turn first what was sent, then what was got.
    pairs: Pieces,
}

impl Model for KeptTurns {
    ghost use Rattle.std.specs.Prelude.{List};
    ghost use Rattle.ws_scripts.specs.declared.transcript.Turn.{Turn};
    ghost use Rattle.ws_scripts.specs.Pieces.{AreInPairs, turns_of_pairs};

    ghost Value = { List Turn };

    ghost view = { λ turns. turns_of_pairs turns.pairs };

    ghost invariant = { λ turns. AreInPairs turns.pairs };
}

impl KeptTurns {
    /// No turns.
    pub(crate) fn new(alloc: Global) -> KeptTurns
        ensures { result ≡ [] }
    {
        KeptTurns {
            pairs: Pieces::new(alloc),
        }
    }

    /// These turns and one more, in which these bytes were sent and those got.
    pub(crate) fn with(self, sent: &[u8], got: &[u8]) -> Result<KeptTurns, NoMemory>
        ensures { IfOk result (λ turns. turns ≡ self ++ turn_with sent.now got.now ∷ []) }
    {
        let KeptTurns { mut pairs } = self;
        pairs.push(sent)?;
        pairs.push(got)?;
        Ok(KeptTurns { pairs })
    }

    /// The turns, one after the other.
    pub(crate) fn walk(&self) -> TurnWalk<'_>
        ensures { result ≡ self.now }
    {
        TurnWalk::of_pairs(self.pairs.walk())
    }
}
