//! Messages that take little room: their payloads stand one behind the other, and each message has a small head.

ghost use Rattle.std.specs.Prelude.{◌≡◌, ◌∷◌, ◌++◌, [], OnErr, OnOk};
ghost use Rattle.ws_pair.specs.KeptMessages.{first_message, whole_message};

use std::alloc::Global;
use std::marker::Model;
use ws_base::NoMemory;
use ws_session::Kind;

/// The head of a message: what it is, and how many bytes its payload has.
#[derive(Clone, Copy)]
pub(crate) struct Head {
    pub kind: Kind,
    pub len: u32,
}

/// Messages in their order. Contracts see the list of them.
#[derive(Drop)]
pub struct Messages {
    heads: Vec<Head>,
    payloads: Vec<u8>,
}

impl Model for Messages {
    ghost use Rattle.std.specs.Prelude.{◌≡◌, length};
    ghost use Rattle.ws_pair.specs.KeptMessages.{MessageList, kept_messages, kept_len};

    ghost Value = { MessageList };

    ghost view = { λ m. record { items = kept_messages m.heads.items m.payloads.items } };

    ghost invariant = { λ m. kept_len m.heads.items ≡ length m.payloads.items };
}

impl Messages {
    /// No messages.
    pub(crate) fn new(alloc: Global) -> Messages
        ensures { result.items ≡ [] }
    {
        Messages {
            heads: Vec::new(alloc),
            payloads: Vec::new(alloc),
        }
    }

    /// One more message, whose payload goes straight behind the others.
    pub(crate) fn push(&mut self, kind: Kind, payload: &[u8]) -> Result<(), NoMemory>
        ensures longer { OnOk result (self.new.items ≡ self.old.items ++ whole_message kind payload.now ∷ []) }
        ensures kept { OnErr result (self.new ≡ self.old) }
    {
        // No payload is longer than the longest message.
        let Ok(len) = u32::try_from(payload.len()) else {
            return Err(NoMemory);
        };
        self.heads.reserve(1)?;
        self.payloads.extend_from_slice(payload)?;
        self.heads.push_reserved(Head { kind, len });
        Ok(())
    }

    /// The messages, one after the other.
    pub fn iter(&self) -> MessageWalk<'_>
        ensures { result ≡ self.now.items }
    {
        MessageWalk {
            heads: self.heads.as_slice(),
            payloads: self.payloads.as_slice(),
        }
    }
}

/// A message, whose payload is lent.
#[derive(Clone, Copy)]
pub struct MessageRef<'a> {
    pub kind: Kind,
    pub payload: &'a [u8],
}

/// The messages that are still to come. Contracts see the list of them.
#[derive(Drop)]
pub struct MessageWalk<'a> {
    heads: &'a [Head],
    payloads: &'a [u8],
}

impl<'a> Model for MessageWalk<'a> {
    ghost use Rattle.std.specs.Prelude.{◌≡◌, List, length};
    ghost use Rattle.ws_session.specs.declared.message.Message.{Message};
    ghost use Rattle.ws_pair.specs.KeptMessages.{kept_messages, kept_len};

    ghost Value = { List Message };

    ghost view = { λ w. kept_messages w.heads.now w.payloads.now };

    ghost invariant = { λ w. kept_len w.heads.now ≡ length w.payloads.now };
}

impl<'a> MessageWalk<'a> {
    /// The next message, if there is one.
    pub fn next(&mut self) -> Option<MessageRef<'a>>
        ensures { self.old ≡ first_message result self.new }
    {
        let (head, heads) = self.heads.split_first()?;
        let (payload, payloads) = self.payloads.split_at(head.len as usize);
        self.heads = heads;
        self.payloads = payloads;
        Some(MessageRef {
            kind: head.kind,
            payload,
        })
    }
}
