//! Replies of one kind, as the judge goes over them.

ghost use Rattle.std.specs.Prelude.{◌≡◌, ◌≤◌, List, ℕ, length};
ghost use Rattle.ws_suite.specs.InnerChosen.{wanted_among, wants};
ghost use Rattle.ws_suite.specs.Kept.{first_of, reply_of};

use crate::evidence::{Kept, Replies, ReplyKind, Walk};
use std::marker::Model;

/// Which replies are passed on.
#[derive(Clone, Copy)]
pub(crate) enum Wanted {
    Messages,
    Pongs,
    /// Messages and pongs.
    Answers,
    All,
}

/// Whether replies of this kind are wanted.
fn is_wanted(wanted: Wanted, kind: ReplyKind) -> bool
    ensures { (payload : List ℕ) → result ≡ wants wanted (reply_of kind payload) }
{
    match wanted {
        Wanted::Messages => match kind {
            ReplyKind::Text | ReplyKind::Binary => true,
            ReplyKind::Pong | ReplyKind::Ping => false,
        },
        Wanted::Pongs => match kind {
            ReplyKind::Pong => true,
            ReplyKind::Text | ReplyKind::Binary | ReplyKind::Ping => false,
        },
        Wanted::Answers => match kind {
            ReplyKind::Text | ReplyKind::Binary | ReplyKind::Pong => true,
            ReplyKind::Ping => false,
        },
        Wanted::All => true,
    }
}

/// The wanted ones among the replies that are still to come. Contracts see the list of them.
#[derive(Drop)]
pub(crate) struct Chosen<'a> {
    walk: Walk<'a>,
    wanted: Wanted,
}

impl<'a> Model for Chosen<'a> {
    ghost use Rattle.std.specs.Prelude.{List};
    ghost use Rattle.ws_suite.specs.declared.evidence.InTurn.{InTurn};
    ghost use Rattle.ws_suite.specs.declared.evidence.Reply.{Reply};
    ghost use Rattle.ws_suite.specs.InnerChosen.{wanted_among};

    ghost Value = { List (InTurn Reply) };

    ghost view = { λ c. wanted_among c.wanted c.walk };
}

impl<'a> Chosen<'a> {
    /// The wanted ones among replies.
    pub(crate) fn among(replies: &'a Replies, wanted: Wanted) -> Chosen<'a>
        ensures { result ≡ wanted_among wanted replies.entry.now }
    {
        Chosen {
            walk: replies.iter(),
            wanted,
        }
    }

    /// The next reply, if there is one.
    pub(crate) fn next(&mut self) -> Option<Kept<'a>>
        ensures { self.old ≡ first_of result self.new }
    {
        while let Some(reply) = self.walk.next() {
            if is_wanted(self.wanted, reply.kind) {
                return Some(reply);
            }
        }
        None
    }

    /// The same replies once more.
    pub(crate) fn again(&self) -> Chosen<'a>
        ensures { result ≡ self.now }
    {
        Chosen {
            walk: self.walk.again(),
            wanted: self.wanted,
        }
    }

    /// No more replies than this are to come.
    pub(crate) fn most(&self) -> usize
        ensures { length self.now ≤ result }
    {
        self.walk.most()
    }
}
