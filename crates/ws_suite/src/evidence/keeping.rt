//! What is kept of the replies of a direction: all of them, or what a run asks about.

ghost use Rattle.std.specs.Prelude.{◌≡◌, ◌↔◌, [], ◌∷◌, ◌++◌, List, IsTrue, None, OnOk, Some};
ghost use Rattle.ws_suite.specs.declared.evidence.InTurn.{InTurn};
ghost use Rattle.ws_suite.specs.declared.evidence.Reply.{Reply};
ghost use Rattle.ws_suite.specs.Growing.{AnswersTally, IsAnsweredPong, IsTallyOf};
ghost use Rattle.ws_suite.specs.Kept.{reply_in};
ghost use Rattle.ws_suite.specs.InnerTally.{pong_of};
ghost use Rattle.ws_suite.specs.LastPings.{answers_due};

use crate::evidence::{Kept, Replies, ReplyKind};
use std::alloc::Global;
use std::marker::Model;
use ws_base::NoMemory;
use ws_text::{ControlBytes, MAX_CONTROL_PAYLOAD};

/// Keeps the replies of a direction, which are told one after the other, or as much of them as will be asked about.
pub(crate) trait KeepsReplies {
    /// What is kept stands for this list of replies, of which the first ones may have been handed on before.
    ghost keeps: { List (InTurn Reply) → Self → List (InTurn Reply) → Type 0 };

    /// Stands for no replies.
    fn none(alloc: Global) -> Self
        ensures { keeps [] result [] };

    /// One more reply is told, whose payload is lent. Answers `NoMemory` where it can't be kept.
    fn keep(&mut self, reply: Kept<'_>) -> Result<(), NoMemory>
        ensures { OnOk result ((handed replies : List (InTurn Reply)) → keeps handed self.old replies →
            keeps handed self.new (replies ++ reply_in reply.entry ∷ [])) };
}

/// All replies.
#[derive(Drop)]
pub(crate) struct AllReplies {
    pub list: Replies,
}

impl KeepsReplies for AllReplies {
    ghost use Rattle.ws_suite.specs.Growing.{AreAll};

    ghost keeps = { λ handed kept replies. AreAll kept replies };

    fn none(alloc: Global) -> AllReplies {
        AllReplies {
            list: Replies::new(alloc),
        }
    }

    fn keep(&mut self, reply: Kept<'_>) -> Result<(), NoMemory> {
        self.list.push(reply)?;
        Ok(())
    }
}

/// What a run keeps: the tally of all replies, and those that were told since the last ones were handed on.
#[derive(Drop)]
pub(crate) struct RunReplies {
    pub(crate) tally: ReplyTally,
    pub(crate) fresh: Replies,
}

impl KeepsReplies for RunReplies {
    ghost use Rattle.ws_suite.specs.Growing.{AreKeptSince};

    ghost keeps = { λ handed kept replies. AreKeptSince handed kept replies };

    fn none(alloc: Global) -> RunReplies {
        RunReplies {
            tally: ReplyTally::none(),
            fresh: Replies::new(alloc),
        }
    }

    fn keep(&mut self, reply: Kept<'_>) -> Result<(), NoMemory> {
        self.tally.keep(reply)?;
        self.fresh.push(reply)?;
        Ok(())
    }
}

impl RunReplies {
    /// All that were told were handed on.
    pub(crate) fn hand_on(&mut self)
        ensures tally { self.new.tally ≡ self.old.tally }
        ensures fresh { self.new.fresh ≡ [] }
    {
        self.fresh.clear();
    }
}

/// How many messages there are, and the last pong: all that is asked to tell whether what an echo owes has come. It
/// takes the same memory however many replies there are.
#[derive(Drop)]
pub(crate) struct ReplyTally {
    pub(crate) messages: u64,
    pub(crate) last_pong: LastPong,
}

impl ReplyTally {
    /// That of no replies.
    fn none() -> ReplyTally
        ensures { IsTallyOf result [] }
    {
        ReplyTally {
            messages: 0,
            last_pong: LastPong::none(),
        }
    }

    /// One more reply is told.
    fn keep(&mut self, reply: Kept<'_>) -> Result<(), NoMemory>
        ensures { OnOk result ((replies : List (InTurn Reply)) → IsTallyOf self.old replies →
            IsTallyOf self.new (replies ++ reply_in reply.entry ∷ [])) }
    {
        match reply.kind {
            ReplyKind::Text | ReplyKind::Binary => {
                // There is no room for a greater number, as there is none for a list of so many.
                let Some(messages) = self.messages.checked_add(1) else {
                    return Err(NoMemory);
                };
                self.messages = messages;
            }
            ReplyKind::Pong => self.last_pong.keep(reply.turn, reply.payload)?,
            ReplyKind::Ping => {}
        }
        Ok(())
    }

    /// Whether these replies answer the due ones: there are no fewer messages, and the last due pong is there.
    pub(crate) fn answers(&self, due: &ReplyTally) -> bool
        ensures { IsTrue result ↔ AnswersTally due.now self.now }
    {
        self.messages >= due.messages && self.last_pong.answers(&due.last_pong)
    }
}

/// The last pong, if there is one, kept in place. Contracts see it as that reply.
#[derive(Drop)]
pub(crate) struct LastPong {
    turn: Option<usize>,
    payload: ControlBytes,
}

impl Model for LastPong {
    ghost use Rattle.std.specs.Prelude.{Option};
    ghost use Rattle.ws_suite.specs.declared.evidence.InTurn.{InTurn};
    ghost use Rattle.ws_suite.specs.declared.evidence.Reply.{Reply};
    ghost use Rattle.ws_suite.specs.InnerTally.{pong_kept};

    ghost Value = { Option (InTurn Reply) };

    ghost view = { λ p. pong_kept p.turn p.payload };
}

impl LastPong {
    /// There is none.
    pub(super) fn none() -> LastPong
        ensures { result ≡ None }
    {
        LastPong {
            turn: None,
            payload: ControlBytes::new(),
        }
    }

    /// One more pong has come.
    pub(super) fn keep(&mut self, turn: usize, payload: &[u8]) -> Result<(), NoMemory>
        ensures { OnOk result (self.new ≡ Some (pong_of turn payload.now)) }
    {
        // No pong has a longer payload.
        if payload.len() > MAX_CONTROL_PAYLOAD {
            return Err(NoMemory);
        }
        self.turn = Some(turn);
        self.payload = ControlBytes::of(payload);
        Ok(())
    }

    /// Whether the last due pong is there, if there is one: this is it, and stands in no earlier turn.
    fn answers(&self, due: &LastPong) -> bool
        ensures { IsTrue result ↔ IsAnsweredPong due.now self.now }
    {
        match (due.turn, self.turn) {
            (None, _) => true,
            (Some(_), None) => false,
            (Some(due_turn), Some(turn)) => {
                self.payload.as_slice() == due.payload.as_slice() && due_turn <= turn
            }
        }
    }

    /// Whether this pong, which was got, answers the last due one, if there is one.
    pub(super) fn is_answered_by(&self, pong: &Kept<'_>) -> bool
        ensures { result ≡ answers_due self.now (reply_in pong.now) }
    {
        match self.turn {
            None => true,
            Some(turn) => self.payload.as_slice() == pong.payload && turn <= pong.turn,
        }
    }
}
