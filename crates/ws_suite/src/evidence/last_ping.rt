//! The last ping that was sent, and whether a pong that was got answers it, as the protocol has it (RFC 6455 sections
//! 5.5.2 and 5.5.3): one with its payload, of no earlier turn, whatever came between.

ghost use Rattle.std.specs.Prelude.{◌≡◌, ◌<◌, ℕ, [], ◌∷◌, ◌++◌, List, OnOk, None};
ghost use Rattle.std.specs.List.{AllByRecursion, last_or};
ghost use Rattle.ws_suite.specs.declared.evidence.InTurn.{InTurn};
ghost use Rattle.ws_suite.specs.declared.evidence.Reply.{Reply};
ghost use Rattle.ws_suite.specs.Kept.{reply_in, reply_of};
ghost use Rattle.ws_suite.specs.LastPings.{AreOfTurn, IsLastPingOf, lent_pong};
ghost use Rattle.ws_suite.specs.Matching.{is_pong, pong_replies};

use crate::evidence::keeping::LastPong;
use crate::evidence::unanswered::ControlPayloads;
use crate::evidence::{Kept, Replies, ReplyKind};
use std::alloc::Global;
use ws_base::NoMemory;

/// The last ping that was sent, as the pong that is due for it, and whether it is answered. A ping may be answered by a
/// pong that came before it in its turn: so the payloads of the pongs of the turn that has begun last are kept, until
/// the next turn begins.
#[derive(Drop)]
pub(crate) struct LastPing {
    due: LastPong,
    is_answered: bool,
    in_turn: ControlPayloads,
}

impl LastPing {
    /// No ping was sent, and nothing was got.
    pub(super) fn new(alloc: Global) -> LastPing
        ensures { (turn : ℕ) → IsLastPingOf turn [] [] result }
    {
        LastPing {
            due: LastPong::none(),
            is_answered: true,
            in_turn: ControlPayloads::new(alloc),
        }
    }

    /// The next turn begins: nothing was got in it yet.
    pub(super) fn begin_turn(&mut self)
        ensures { (turn next : ℕ) (dues gots : List (InTurn Reply)) → AllByRecursion (λ x. x.turn < next) gots →
            IsLastPingOf turn dues gots self.old → IsLastPingOf next dues gots self.new }
    {
        self.in_turn.clear();
    }

    /// These are due from now on, after those before them, for what was sent in the turn that has begun last.
    pub(super) fn note_due(&mut self, fresh: &Replies) -> Result<(), NoMemory>
        ensures { OnOk result ((turn : ℕ) (dues gots : List (InTurn Reply)) → AreOfTurn turn fresh.now →
            IsLastPingOf turn dues gots self.old → IsLastPingOf turn (dues ++ fresh.now) gots self.new) }
    {
        if let Some(pong) = last_pong_of(fresh) {
            self.due.keep(pong.turn, pong.payload)?;
            self.is_answered = self.in_turn.contains(pong.payload);
        }
        Ok(())
    }

    /// These were got in that turn, after those before them.
    pub(super) fn note_got(&mut self, fresh: &Replies) -> Result<(), NoMemory>
        ensures { OnOk result ((turn : ℕ) (dues gots : List (InTurn Reply)) → AreOfTurn turn fresh.now →
            IsLastPingOf turn dues gots self.old → IsLastPingOf turn dues (gots ++ fresh.now) self.new) }
    {
        let mut left = fresh.iter();
        while let Some(reply) = left.next() {
            self.note(&reply)?;
        }
        Ok(())
    }

    /// One more reply was got.
    fn note(&mut self, reply: &Kept<'_>) -> Result<(), NoMemory>
        ensures { OnOk result ((turn : ℕ) (dues gots : List (InTurn Reply)) → reply.now.turn ≡ turn →
            IsLastPingOf turn dues gots self.old →
            IsLastPingOf turn dues (gots ++ reply_in reply.now ∷ []) self.new) }
    {
        match reply.kind {
            ReplyKind::Text | ReplyKind::Binary | ReplyKind::Ping => {}
            ReplyKind::Pong => {
                self.in_turn.add(reply.payload)?;
                let answers = self.due.is_answered_by(reply);
                self.is_answered = self.is_answered || answers;
            }
        }
        Ok(())
    }

    /// Whether the last ping that was sent is answered; so it is told where none was.
    pub(super) fn is_answered(&self) -> bool
        ensures { result ≡ self.now.is_answered }
    {
        self.is_answered
    }
}

/// The last pong of these replies, if there is one.
fn last_pong_of(replies: &Replies) -> Option<Kept<'_>>
    ensures { last_or None (pong_replies replies.now) ≡ lent_pong result }
{
    let mut last = None;
    let mut left = replies.iter();
    while let Some(reply) = left.next() {
        if is_pong(reply.kind) {
            last = Some(reply);
        }
    }
    last
}

/// Whether it is a pong.
fn is_pong(kind: ReplyKind) -> bool
    ensures { (payload : List ℕ) → result ≡ is_pong (reply_of kind payload) }
{
    match kind {
        ReplyKind::Pong => true,
        ReplyKind::Text | ReplyKind::Binary | ReplyKind::Ping => false,
    }
}
