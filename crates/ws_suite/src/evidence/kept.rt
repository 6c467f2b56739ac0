//! Replies that take little room: their payloads stand one behind the other, and each reply has a small head.

ghost use Rattle.std.specs.Prelude.{◌≡◌, ◌↔◌, ◌≤◌, ◌∷◌, ◌++◌, ◌&&◌, [], filter, length, IfOk, IsTrue, OnErr, OnOk};
ghost use Rattle.ws_suite.specs.InnerAnswered.{AreAnsweredEach, AreHeadsAnswered};
ghost use Rattle.ws_suite.specs.InnerMarks.{is_pong_before, is_pong_kind, is_turn_before, joined_payloads};
ghost use Rattle.ws_suite.specs.Kept.{first_of, reply_in, turn_in, what_of, IsHeadOf};

use std::alloc::Global;
use std::marker::Model;
use ws_base::NoMemory;

mod waiting;

pub(crate) use waiting::{Waiting, place_of_match};

/// What a reply is, but for its payload.
#[derive(Clone, Copy)]
pub enum ReplyKind {
    Text,
    Binary,
    Pong,
    Ping,
}

/// What the upper half of a turn's number counts.
const HALF: usize = 4_294_967_296;

/// The head of a reply: its turn, what it is, and how many bytes its payload has. As the number of the turn is kept in
/// two parts, a head takes twelve bytes.
#[derive(Clone, Copy)]
pub(crate) struct Head {
    turn_low: u32,
    len: u32,
    turn_high: u16,
    kind: ReplyKind,
}

impl Head {
    /// The head of this reply.
    fn of(reply: &Kept<'_>) -> Result<Head, NoMemory>
        ensures { IfOk result (IsHeadOf reply.now) }
    {
        // No payload is longer than the longest message, and no memory holds as many turns.
        let Ok(len) = u32::try_from(reply.payload.len()) else {
            return Err(NoMemory);
        };
        let Ok(turn_high) = u16::try_from(reply.turn / HALF) else {
            return Err(NoMemory);
        };
        Ok(Head {
            turn_low: (reply.turn % HALF) as u32,
            len,
            turn_high,
            kind: reply.kind,
        })
    }

    /// The number of its turn.
    #[tactic(auto, unfolding(crate::specs::Kept::turn_in))]
    fn turn(&self) -> usize
        ensures { result ≡ turn_in self.now }
    {
        self.turn_high as usize * HALF + self.turn_low as usize
    }
}

/// Replies in their order, each with its turn. Contracts see the list of them.
#[derive(Drop)]
pub struct Replies {
    heads: Vec<Head>,
    payloads: Vec<u8>,
}

impl Model for Replies {
    ghost use Rattle.std.specs.Prelude.{◌≡◌, List, length};
    ghost use Rattle.ws_suite.specs.declared.evidence.InTurn.{InTurn};
    ghost use Rattle.ws_suite.specs.declared.evidence.Reply.{Reply};
    ghost use Rattle.ws_suite.specs.Kept.{payloads_len, kept_replies};

    ghost Value = { List (InTurn Reply) };

    ghost view = { λ r. kept_replies r.heads.items r.payloads.items };

    ghost invariant = { λ r. payloads_len r.heads.items ≡ length r.payloads.items };
}

impl Replies {
    /// No replies.
    pub(crate) fn new(alloc: Global) -> Replies
        ensures { result ≡ [] }
    {
        Replies {
            heads: Vec::new(alloc),
            payloads: Vec::new(alloc),
        }
    }

    /// One more reply, whose payload goes straight behind the others.
    pub(crate) fn push(&mut self, reply: Kept<'_>) -> Result<(), NoMemory>
        ensures ok { OnOk result (self.new ≡ self.old ++ reply_in reply.entry ∷ []) }
        ensures err { OnErr result (self.new ≡ self.old) }
    {
        let head = Head::of(&reply)?;
        self.heads.reserve(1)?;
        self.payloads.extend_from_slice(reply.payload)?;
        self.heads.push_reserved(head);
        Ok(())
    }

    /// None of them is there any more. Their room stays.
    pub(crate) fn clear(&mut self)
        ensures { self.new ≡ [] }
    {
        self.heads.clear();
        self.payloads.clear();
    }

    /// Whether these are the due ones, one for one, and none stands in an earlier turn than its cause. They are
    /// compared as they are kept: their heads, and then all payloads at once.
    pub(crate) fn answer_each(&self, due: &Replies) -> bool
        ensures { IsTrue result ↔ AreAnsweredEach due.now self.now }
    {
        are_heads_answered(due.heads.as_slice(), self.heads.as_slice())
            && due.payloads.as_slice() == self.payloads.as_slice()
    }

    /// Of them the pongs of turns before this one, or all pongs. Their heads go together in the room that they have,
    /// and only their payloads are copied.
    pub(crate) fn pongs_before(self, alloc: Global, end: Option<usize>) -> Result<Replies, NoMemory>
        ensures { IfOk result (λ pongs. pongs ≡ filter (is_pong_before end) self) }
    {
        let payloads = pong_payloads(alloc, self.iter(), end)?;
        let Replies { heads, payloads: _ } = self;
        let mut kept = heads;
        kept.retain(|head| is_pong_before(head.kind, head.turn(), end));
        Ok(Replies {
            heads: kept,
            payloads,
        })
    }

    /// The replies, one after the other.
    pub fn iter(&self) -> Walk<'_>
        ensures { result ≡ self.now }
    {
        Walk {
            heads: self.heads.as_slice(),
            payloads: self.payloads.as_slice(),
        }
    }
}

/// The payloads of the pongs of turns before this one, or of all pongs, one behind the other.
fn pong_payloads(alloc: Global, replies: Walk<'_>, end: Option<usize>) -> Result<Vec<u8>, NoMemory>
    ensures { IfOk result (λ bytes. bytes.items ≡ joined_payloads (filter (is_pong_before end) replies.entry)) }
{
    let mut left = replies;
    let mut payloads = Vec::new(alloc);
    while let Some(reply) = left.next() {
        if is_pong_before(reply.kind, reply.turn, end) {
            payloads.extend_from_slice(reply.payload)?;
        }
    }
    Ok(payloads)
}

/// Whether a reply of this kind and turn is a pong of a turn before this one.
fn is_pong_before(kind: ReplyKind, turn: usize, end: Option<usize>) -> bool
    ensures { result ≡ (is_pong_kind kind && is_turn_before end turn) }
{
    are_one_kind(kind, ReplyKind::Pong) && is_turn_before(end, turn)
}

/// Whether a turn is before another one, if there is such.
pub(crate) fn is_turn_before(end: Option<usize>, turn: usize) -> bool
    ensures { result ≡ is_turn_before end turn }
{
    match end {
        Some(end) => turn < end,
        None => true,
    }
}

/// Whether replies with these heads are the due ones, where they have the same payloads.
fn are_heads_answered(due: &[Head], got: &[Head]) -> bool
    ensures { IsTrue result ↔ AreHeadsAnswered due.now got.now }
{
    let mut due_left = due;
    let mut got_left = got;
    while let Some((first, due_rest)) = due_left.split_first() {
        let Some((head, got_rest)) = got_left.split_first() else {
            return false;
        };
        if !is_head_answered(first, head) {
            return false;
        }
        due_left = due_rest;
        got_left = got_rest;
    }
    got_left.is_empty()
}

/// Whether a reply with this head is the due one, where it has the same payload.
fn is_head_answered(due: &Head, got: &Head) -> bool
    ensures { IsTrue result ↔ (got.now.kind ≡ due.now.kind) × (got.now.len ≡ due.now.len)
        × (turn_in due.now ≤ turn_in got.now) }
{
    are_one_kind(got.kind, due.kind) && got.len == due.len && due.turn() <= got.turn()
}

/// Whether two replies are of one kind.
fn are_one_kind(one: ReplyKind, other: ReplyKind) -> bool
    ensures { IsTrue result ↔ (one ≡ other) }
{
    match (one, other) {
        (ReplyKind::Text, ReplyKind::Text)
        | (ReplyKind::Binary, ReplyKind::Binary)
        | (ReplyKind::Pong, ReplyKind::Pong)
        | (ReplyKind::Ping, ReplyKind::Ping) => true,
        _ => false,
    }
}

/// A reply, whose payload is lent.
#[derive(Clone, Copy)]
pub struct Kept<'a> {
    pub turn: usize,
    pub kind: ReplyKind,
    pub payload: &'a [u8],
}

/// The replies that are still to come. Contracts see the list of them.
#[derive(Drop)]
pub struct Walk<'a> {
    heads: &'a [Head],
    payloads: &'a [u8],
}

impl<'a> Model for Walk<'a> {
    ghost use Rattle.std.specs.Prelude.{◌≡◌, List, length};
    ghost use Rattle.ws_suite.specs.declared.evidence.InTurn.{InTurn};
    ghost use Rattle.ws_suite.specs.declared.evidence.Reply.{Reply};
    ghost use Rattle.ws_suite.specs.Kept.{payloads_len, kept_replies};

    ghost Value = { List (InTurn Reply) };

    ghost view = { λ w. kept_replies w.heads.now w.payloads.now };

    ghost invariant = { λ w. payloads_len w.heads.now ≡ length w.payloads.now };
}

impl<'a> Walk<'a> {
    /// The next reply, if there is one.
    pub fn next(&mut self) -> Option<Kept<'a>>
        ensures { self.old ≡ first_of result self.new }
    {
        let (head, heads) = self.heads.split_first()?;
        let (payload, payloads) = self.payloads.split_at(head.len as usize);
        self.heads = heads;
        self.payloads = payloads;
        Some(Kept {
            turn: head.turn(),
            kind: head.kind,
            payload,
        })
    }

    /// The same replies once more.
    pub(crate) fn again(&self) -> Walk<'a>
        ensures { result ≡ self.now }
    {
        Walk {
            heads: self.heads,
            payloads: self.payloads,
        }
    }

    /// No more replies than this are to come.
    pub(crate) fn most(&self) -> usize
        ensures { length self.now ≤ result }
    {
        self.heads.len()
    }
}

/// Whether two replies are one, whatever their turns.
pub(crate) fn is_same(one: &Kept<'_>, other: &Kept<'_>) -> bool
    ensures { IsTrue result ↔ (what_of one.now ≡ what_of other.now) }
{
    are_one_kind(one.kind, other.kind) && one.payload == other.payload
}
