//! What was got is compared with what is due as it comes, so that it is known when what is due can't come any more.

ghost use Rattle.std.specs.Prelude.{◌≡◌, ◌↔◌, ◌∷◌, ◌++◌, [], List, IfOk, IsTrue, OnOk, false, find, is_some, true};
ghost use Rattle.ws_suite.specs.declared.evidence.InTurn.{InTurn};
ghost use Rattle.ws_suite.specs.declared.evidence.Reply.{Reply};
ghost use Rattle.ws_suite.specs.InnerPairing.{IsSeenAstray, Meets, MeetsFirst, WaitsFor};
ghost use Rattle.ws_suite.specs.Kept.{reply_in, what_of};
ghost use Rattle.ws_suite.specs.Matching.{due_after, has_payload_of, is_message};
ghost use Rattle.ws_suite.specs.Pairings.{ArePaired, IsPairingOf};

use crate::evidence::kept::{Kept, Replies, ReplyKind, Waiting, is_same, place_of_match};
use std::alloc::Global;
use ws_base::NoMemory;

/// What is left to compare of the messages that are due and that were got, and which pings are open: it takes memory
/// for what isn't answered yet, and for what came before it was due. Once a message differs, nothing more is kept.
#[derive(Drop)]
pub(crate) struct Pairing {
    /// The messages that are due, and haven't come.
    due: Waiting,
    /// Those that came before they are due: there are none while one that is due hasn't come.
    early: Waiting,
    /// Whether one differs from the one that is due at its place.
    differs: bool,
    /// The pings that no pong has answered, as the pongs that are due.
    pings: Waiting,
    /// The pongs that were got, from the first that has no match by now.
    unmatched: Waiting,
}

/// What a message meets among those that it is compared with.
#[derive(Clone, Copy)]
enum Meeting {
    Nobody,
    Same,
    Other,
}

impl Pairing {
    /// Nothing is due, and nothing was got.
    pub(super) fn new(alloc: Global) -> Pairing
        ensures { IsPairingOf [] [] result }
    {
        Pairing {
            due: Waiting::new(alloc),
            early: Waiting::new(alloc),
            differs: false,
            pings: Waiting::new(alloc),
            unmatched: Waiting::new(alloc),
        }
    }

    /// These are due from now on, after those before them.
    pub(super) fn take_due(&mut self, fresh: &Replies) -> Result<(), NoMemory>
        ensures { OnOk result ((dues gots : List (InTurn Reply)) → IsPairingOf dues gots self.old →
            IsPairingOf (dues ++ fresh.now) gots self.new) }
    {
        let mut left = fresh.iter();
        while let Some(reply) = left.next() {
            self.add_due(reply)?;
        }
        Ok(())
    }

    /// These were got, after those before them.
    pub(super) fn take_got(&mut self, fresh: &Replies) -> Result<(), NoMemory>
        ensures { OnOk result ((dues gots : List (InTurn Reply)) → IsPairingOf dues gots self.old →
            IsPairingOf dues (gots ++ fresh.now) self.new) }
    {
        let mut left = fresh.iter();
        while let Some(reply) = left.next() {
            self.add_got(reply)?;
        }
        Ok(())
    }

    /// Whether what is due can't come any more: messages differ, or there are more than are due, or all are there and a
    /// pong has no match.
    pub(super) fn cannot_come(&self) -> bool
        ensures { IsTrue result ↔ IsSeenAstray self.now }
    {
        self.differs
            || !self.early.is_empty()
            || (self.due.is_empty() && !self.unmatched.is_empty())
    }

    /// One more reply is due.
    fn add_due(&mut self, reply: Kept<'_>) -> Result<(), NoMemory>
        ensures { OnOk result ((dues gots : List (InTurn Reply)) → IsPairingOf dues gots self.old →
            IsPairingOf (dues ++ reply_in reply.entry ∷ []) gots self.new) }
    {
        if self.differs {
            return Ok(());
        }
        match reply.kind {
            ReplyKind::Text | ReplyKind::Binary => self.add_due_message(reply),
            ReplyKind::Pong => add_ping(&mut self.pings, &mut self.unmatched, reply),
            ReplyKind::Ping => Ok(()),
        }
    }

    /// One more reply was got.
    fn add_got(&mut self, reply: Kept<'_>) -> Result<(), NoMemory>
        ensures { OnOk result ((dues gots : List (InTurn Reply)) → IsPairingOf dues gots self.old →
            IsPairingOf dues (gots ++ reply_in reply.entry ∷ []) self.new) }
    {
        if self.differs {
            return Ok(());
        }
        match reply.kind {
            ReplyKind::Text | ReplyKind::Binary => self.add_got_message(reply),
            ReplyKind::Pong => add_pong(&mut self.pings, &mut self.unmatched, reply),
            ReplyKind::Ping => Ok(()),
        }
    }

    /// One more message is due.
    fn add_due_message(&mut self, reply: Kept<'_>) -> Result<(), NoMemory>
        requires kind { is_message (what_of reply) ≡ true }
        requires alike { self.old.differs ≡ false }
        ensures { OnOk result ((dues gots : List (InTurn Reply)) → IsPairingOf dues gots self.old →
            IsPairingOf (dues ++ reply_in reply.entry ∷ []) gots self.new) }
    {
        if !meet(&mut self.due, &mut self.early, reply)? {
            self.give_up();
        }
        Ok(())
    }

    /// One more message was got.
    fn add_got_message(&mut self, reply: Kept<'_>) -> Result<(), NoMemory>
        requires kind { is_message (what_of reply) ≡ true }
        requires alike { self.old.differs ≡ false }
        ensures { OnOk result ((dues gots : List (InTurn Reply)) → IsPairingOf dues gots self.old →
            IsPairingOf dues (gots ++ reply_in reply.entry ∷ []) self.new) }
    {
        if !meet(&mut self.early, &mut self.due, reply)? {
            self.give_up();
        }
        Ok(())
    }

    /// A message differs: nothing that comes changes that.
    fn give_up(&mut self)
        ensures { self.new.differs ≡ true }
    {
        self.differs = true;
        self.due.clear();
        self.early.clear();
        self.pings.clear();
        self.unmatched.clear();
    }
}

/// One more message comes to those of its side. It is compared with the first of the other side, if there is one: both
/// are done with. Answers whether they are the same, or there is none yet.
fn meet(mine: &mut Waiting, others: &mut Waiting, reply: Kept<'_>) -> Result<bool, NoMemory>
    ensures { IfOk result (λ same. Meets mine.old others.old reply.entry mine.new others.new same) }
{
    match what_meets(others, &reply) {
        Meeting::Nobody => {
            mine.push(reply)?;
            Ok(true)
        }
        Meeting::Same => {
            others.drop_first();
            Ok(true)
        }
        Meeting::Other => Ok(false),
    }
}

/// What a message meets.
fn what_meets(others: &Waiting, reply: &Kept<'_>) -> Meeting
    ensures { MeetsFirst others.now reply.now result }
{
    match others.walk().next() {
        None => Meeting::Nobody,
        Some(first) => {
            if is_same(&first, reply) {
                Meeting::Same
            } else {
                Meeting::Other
            }
        }
    }
}

/// One more pong is due. It may be the match of the first that waits: no other that is due has its payload, so none is
/// left after it.
fn add_ping(pings: &mut Waiting, unmatched: &mut Waiting, due: Kept<'_>) -> Result<(), NoMemory>
    ensures { OnOk result ((dues gots : List (InTurn Reply)) → ArePaired dues gots pings.old unmatched.old →
        ArePaired (dues ++ reply_in due.entry ∷ []) gots pings.new unmatched.new) }
{
    if waits_for(unmatched, &due) {
        pings.clear();
        unmatched.drop_first();
    } else {
        pings.push(due)?;
    }
    Ok(())
}

/// Whether the first of these pongs, if there is one, has the payload of the one that is due.
fn waits_for(unmatched: &Waiting, due: &Kept<'_>) -> bool
    ensures { WaitsFor unmatched.now (reply_in due.now) result }
{
    match unmatched.walk().next() {
        None => false,
        Some(first) => first.payload == due.payload,
    }
}

/// One more pong was got. It is matched where all before it have a match: so each ping is gone over once for those that
/// have a match, and once for the first that has none.
fn add_pong(pings: &mut Waiting, unmatched: &mut Waiting, pong: Kept<'_>) -> Result<(), NoMemory>
    ensures { OnOk result ((dues gots : List (InTurn Reply)) → ArePaired dues gots pings.old unmatched.old →
        ArePaired dues (gots ++ reply_in pong.entry ∷ []) pings.new unmatched.new) }
{
    if !unmatched.is_empty() {
        unmatched.push(pong)?;
        return Ok(());
    }
    if !answer(pings, &pong) {
        unmatched.push(pong)?;
    }
    Ok(())
}

/// A pong answers the first of these pings that has its payload, if one has it: that one, and those before it, are
/// there no more.
fn answer(pings: &mut Waiting, pong: &Kept<'_>) -> bool
    ensures answered { result ≡ is_some (find (has_payload_of (reply_in pong.now)) pings.old) }
    ensures left { pings.new ≡ due_after (reply_in pong.now) pings.old }
{
    match place_of_match(pong, pings.walk()) {
        None => false,
        Some(passed) => {
            pings.drop_front(passed);
            true
        }
    }
}
