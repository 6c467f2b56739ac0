//! Replies that wait for others: those that have waited longest are taken away first.

ghost use Rattle.std.specs.Prelude.{◌≡◌, ◌↔◌, ◌≤◌, ◌∷◌, ◌++◌, [], List, drop, find, length, IsTrue, None, OnErr, OnOk};
ghost use Rattle.std.specs.Prelude.{Some};
ghost use Rattle.ws_suite.specs.declared.evidence.InTurn.{InTurn};
ghost use Rattle.ws_suite.specs.declared.evidence.Reply.{Reply};
ghost use Rattle.ws_suite.specs.InnerWaiting.{IsPlaceOfMatch};
ghost use Rattle.ws_suite.specs.Kept.{reply_in};

use crate::evidence::kept::{Head, Kept, Walk};
use std::alloc::Global;
use std::marker::Model;
use ws_base::NoMemory;

/// Replies in their order, each with its turn, of which the first ones are taken away. Contracts see the list of those
/// that are there.
#[derive(Drop)]
pub(crate) struct Waiting {
    alloc: Global,
    heads: Vec<Head>,
    payloads: Vec<u8>,
    /// How many heads, and how many bytes of payloads, stand before the first reply that is there.
    heads_gone: usize,
    bytes_gone: usize,
}

impl Model for Waiting {
    ghost use Rattle.std.specs.Prelude.{◌≡◌, ◌≤◌, List, drop, length};
    ghost use Rattle.ws_suite.specs.declared.evidence.InTurn.{InTurn};
    ghost use Rattle.ws_suite.specs.declared.evidence.Reply.{Reply};
    ghost use Rattle.ws_suite.specs.InnerWaiting.{HasPlaces};
    ghost use Rattle.ws_suite.specs.Kept.{kept_replies};

    ghost Value = { List (InTurn Reply) };

    ghost view = { λ w. kept_replies (drop w.heads_gone w.heads.items) (drop w.bytes_gone w.payloads.items) };

    ghost invariant = { λ w. HasPlaces w.heads.items w.payloads.items w.heads_gone w.bytes_gone };
}

impl Waiting {
    /// No replies.
    pub(crate) fn new(alloc: Global) -> Waiting
        ensures { result ≡ [] }
    {
        Waiting {
            alloc,
            heads: Vec::new(alloc),
            payloads: Vec::new(alloc),
            heads_gone: 0,
            bytes_gone: 0,
        }
    }

    /// One more reply, behind the others.
    pub(crate) fn push(&mut self, reply: Kept<'_>) -> Result<(), NoMemory>
        ensures ok { OnOk result (self.new ≡ self.old ++ reply_in reply.entry ∷ []) }
        ensures err { OnErr result (self.new ≡ self.old) }
    {
        let head = Head::of(&reply)?;
        self.heads.reserve(1)?;
        self.payloads.extend_from_slice(reply.payload)?;
        self.heads.push_reserved(head);
        Ok(())
    }

    /// Those that are there, one after the other.
    pub(crate) fn walk(&self) -> Walk<'_>
        ensures { result ≡ self.now }
    {
        Walk {
            heads: &self.heads.as_slice()[self.heads_gone..],
            payloads: &self.payloads.as_slice()[self.bytes_gone..],
        }
    }

    /// Whether there is none.
    pub(crate) fn is_empty(&self) -> bool
        ensures { IsTrue result ↔ (self.now ≡ []) }
    {
        self.heads_gone >= self.heads.len()
    }

    /// None is there any more. Their memory is given back.
    pub(crate) fn clear(&mut self)
        ensures { self.new ≡ [] }
    {
        self.heads = Vec::new(self.alloc);
        self.payloads = Vec::new(self.alloc);
        self.heads_gone = 0;
        self.bytes_gone = 0;
    }

    /// The first one is taken away.
    pub(crate) fn drop_first(&mut self)
        ensures { self.new ≡ drop 1 self.old }
    {
        let Some(head) = self.heads.get(self.heads_gone) else {
            return;
        };
        self.bytes_gone += head.len as usize;
        self.heads_gone += 1;
        self.make_room();
    }

    /// Where more than half of what is kept is gone, of the heads or of the bytes, the rest moves to the front: so
    /// nothing is kept for long that is gone, and no more moves than has gone.
    fn make_room(&mut self)
        ensures { self.new ≡ self.old }
    {
        if self.is_empty() {
            self.clear();
        } else {
            self.move_heads();
            self.move_bytes();
        }
    }

    /// The heads move.
    fn move_heads(&mut self)
        ensures { self.new ≡ self.old }
    {
        if self.heads_gone > self.heads.len() / 2 {
            drop_heads(&mut self.heads, self.heads_gone);
            self.heads_gone = 0;
        }
    }

    /// The bytes move.
    fn move_bytes(&mut self)
        ensures { self.new ≡ self.old }
    {
        if self.bytes_gone > self.payloads.len() / 2 {
            drop_bytes(&mut self.payloads, self.bytes_gone);
            self.bytes_gone = 0;
        }
    }

    /// So many are taken away from the front.
    pub(crate) fn drop_front(&mut self, count: usize)
        requires { count ≤ length self.old }
        ensures { self.new ≡ drop count self.old }
    {
        let mut gone = 0;
        while gone < count {
            self.drop_first();
            gone += 1;
        }
    }
}

/// Drops so many heads from the front of some.
fn drop_heads(heads: &mut Vec<Head>, count: usize)
    requires { count ≤ length heads.old.items }
    ensures { heads.new.items ≡ drop count heads.old.items }
{
    let left = heads.len() - count;
    heads.copy_within(count.., 0);
    heads.truncate(left);
}

/// Drops so many bytes from the front of some, and gives back room that is more than twice what is left.
fn drop_bytes(bytes: &mut Vec<u8>, count: usize)
    requires { count ≤ length bytes.old.items }
    ensures { bytes.new.items ≡ drop count bytes.old.items }
{
    let left = bytes.len() - count;
    bytes.copy_within(count.., 0);
    bytes.truncate(left);
    bytes.shrink_to(left.saturating_mul(2));
}

/// How many replies stand up to the first that has the payload of this pong, and with it, if one has it.
pub(crate) fn place_of_match(pong: &Kept<'_>, due: Walk<'_>) -> Option<usize>
    ensures { IsPlaceOfMatch (reply_in pong.now) due.entry result }
{
    let _most = due.most();
    let mut left = due;
    let mut passed = 0;
    while let Some(one) = left.next() {
        passed += 1;
        if one.payload == pong.payload {
            return Some(passed);
        }
    }
    None
}
