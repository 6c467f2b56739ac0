//! Turns that are lent, one after the other, whichever way they are kept.

ghost use Rattle.std.specs.Prelude.{◌≡◌, ◌<◌, ◌∷◌, length};
ghost use Rattle.ws_scripts.specs.Pieces.{AreInPairs, lent_turn, turns_of_pairs};

use crate::pieces::PieceWalk;
use crate::transcript::Turn;
use std::marker::Model;

/// A turn that is lent.
#[derive(Clone, Copy)]
pub struct TurnRef<'a> {
    /// The bytes that the tester sent.
    pub sent: &'a [u8],
    /// The bytes that the tested end sent.
    pub got: &'a [u8],
}

/// The turns that are still to come. Contracts see the list of them.
#[derive(Drop)]
pub struct TurnWalk<'a> {
    /// Those of a list, or none.
    listed: &'a [Turn],
    /// Those that are kept in pairs, or none.
    pairs: PieceWalk<'a>,
}

impl<'a> Model for TurnWalk<'a> {
    ghost use Rattle.std.specs.Prelude.{◌≡◌, ◌<◌, ◌++◌, List, [], length};
    ghost use Rattle.ws_scripts.specs.declared.transcript.Turn.{Turn};
    ghost use Rattle.ws_scripts.specs.Pieces.{AreInPairs, turns_of_pairs};

    ghost Value = { List Turn };

    ghost view = { λ walk. walk.listed.now ++ turns_of_pairs walk.pairs };

    ghost invariant = { λ walk. AreInPairs walk.pairs × (0 < length walk.listed.now → walk.pairs ≡ []) };
}

impl<'a> TurnWalk<'a> {
    /// The turns of a list.
    pub(crate) fn of_list(turns: &'a [Turn]) -> TurnWalk<'a>
        ensures { result ≡ turns.now }
    {
        TurnWalk {
            listed: turns,
            pairs: PieceWalk::none(),
        }
    }

    /// The turns of these pairs.
    pub(crate) fn of_pairs(pairs: PieceWalk<'a>) -> TurnWalk<'a>
        requires { AreInPairs pairs }
        ensures { result ≡ turns_of_pairs pairs.entry }
    {
        TurnWalk { listed: &[], pairs }
    }

    /// The same turns once more.
    pub(crate) fn again(&self) -> TurnWalk<'a>
        ensures { result ≡ self.now }
    {
        TurnWalk {
            listed: self.listed,
            pairs: self.pairs.again(),
        }
    }

    /// How many are to come.
    pub fn len(&self) -> usize
        ensures { result ≡ length self.now }
    {
        if self.listed.is_empty() {
            self.pairs.len() / 2
        } else {
            self.listed.len()
        }
    }

    /// The next turn, which is there.
    pub fn take_first(&mut self) -> TurnRef<'a>
        requires { 0 < length self.old }
        ensures { self.old ≡ lent_turn result ∷ self.new }
    {
        if let Some((turn, others)) = self.listed.split_first() {
            self.listed = others;
            return TurnRef {
                sent: turn.sent.as_slice(),
                got: turn.got.as_slice(),
            };
        }
        let sent = self.pairs.take_first();
        let got = self.pairs.take_first();
        TurnRef { sent, got }
    }
}
