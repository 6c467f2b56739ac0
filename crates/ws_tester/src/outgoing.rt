//! What a script has still to send.

ghost use Rattle.std.specs.Prelude.{◌≡◌, ◌≤◌, [], drop, length};
ghost use Rattle.ws_tester.specs.Outgoings.{after_first, first_piece, first_turn, next_outgoing};
ghost use Rattle.ws_tester.specs.Outgoings.{without_front};
ghost use Rattle.ws_tester.specs.RunStates.{is_nothing, some_turn};

use std::alloc::Global;
use std::collections::VecDeque;
use std::marker::Model;
use ws_base::Sequence;
use ws_suite::CutTurn;

/// The turn under way, how many of its pieces were sent, and how many bytes of the next one; and the turns after it.
/// Contracts see what is still to be sent.
#[derive(Drop)]
pub struct Outgoing {
    alloc: Global,
    turn: CutTurn,
    number: usize,
    sent: usize,
    later: VecDeque<CutTurn>,
}

impl Model for Outgoing {
    ghost use Rattle.std.specs.Prelude.{drop};
    ghost use Rattle.ws_tester.specs.Outgoings.{FitsPiece, OutgoingValue, pieces_left};

    ghost Value = { OutgoingValue };

    ghost view = { λ x. record { rest = pieces_left x.sent (drop x.number x.turn); later = x.later.items } };

    ghost invariant = { λ x. FitsPiece x.sent (drop x.number x.turn) };
}

impl Outgoing {
    /// All turns are still to be sent, and the first is under way.
    pub fn new(alloc: Global, script: Sequence<CutTurn>) -> Outgoing
        ensures rest { result.rest ≡ first_turn script }
        ensures later { result.later ≡ after_first script }
    {
        let mut outgoing = Outgoing {
            alloc,
            turn: CutTurn::none(alloc),
            number: 0,
            sent: 0,
            later: VecDeque::from(script.into_vec()),
        };
        outgoing.next();
        outgoing
    }

    /// The piece that is next, or none.
    pub fn piece(&self) -> &[u8]
        ensures { result.now ≡ first_piece self.now.rest }
    {
        &self.turn.piece(self.number)[self.sent..]
    }

    /// Whether all of the turn is sent.
    pub fn is_empty(&self) -> bool
        ensures { result ≡ is_nothing (first_piece self.now.rest) }
    {
        self.piece().is_empty()
    }

    /// Whether there is a turn after this one.
    pub fn has_more(&self) -> bool
        ensures { result ≡ some_turn self.now.later }
    {
        !self.later.is_empty()
    }

    /// So many bytes of the piece that is next were sent.
    pub fn take(&mut self, count: usize)
        requires { count ≤ length (first_piece self.old.rest) }
        ensures rest { self.new.rest ≡ without_front count self.old.rest }
        ensures later { self.new.later ≡ self.old.later }
    {
        let left = self.turn.piece(self.number).len().saturating_sub(self.sent);
        if count < left {
            self.sent += count;
        } else {
            self.next_piece();
        }
    }

    /// The piece that is next was sent whole. Once no piece is left, the memory of the turn is given back.
    fn next_piece(&mut self)
        ensures rest { self.new.rest ≡ drop 1 self.old.rest }
        ensures later { self.new.later ≡ self.old.later }
    {
        let next = self.number.saturating_add(1);
        if next < self.turn.len() {
            self.number = next;
            self.sent = 0;
        } else {
            self.stop();
        }
    }

    /// Nothing more of the turn is sent.
    pub fn stop(&mut self)
        ensures rest { self.new.rest ≡ [] }
        ensures later { self.new.later ≡ self.old.later }
    {
        self.turn = CutTurn::none(self.alloc);
        self.number = 0;
        self.sent = 0;
    }

    /// The next turn is under way, if there is one.
    pub fn next(&mut self)
        ensures { self.new ≡ next_outgoing self.old }
    {
        match self.later.pop_front() {
            Some(turn) => {
                self.turn = turn;
                self.number = 0;
                self.sent = 0;
            }
            None => self.stop(),
        }
    }
}
