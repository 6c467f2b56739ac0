//! A room of the caller for the payload of one event, and what is told beside it.

ghost use Rattle.std.specs.Prelude.{◌≡◌, []};

use crate::event_room::EventRoom;
use crate::message::Kind;
use crate::reason::Reason;
use std::alloc::Global;
use std::marker::Model;

/// What the bytes of one frame gave, but for its payload.
#[derive(Clone, Copy)]
pub enum EventKind {
    /// A data frame without FIN: the message goes on.
    Part,
    /// A data frame with FIN: the message is whole, and the room holds its payload.
    Message(Kind),
    /// The room holds its payload.
    Ping,
    /// The room holds its payload.
    Pong,
    /// A close frame with this code, whose reason the room holds, or empty.
    Close(Option<u16>),
    /// The bytes break a rule, at the last of those that were used.
    Failed(Reason),
}

/// What one call took of a piece, whose payload lies in the room.
#[derive(Clone, Copy)]
pub struct TakenInto {
    /// How many bytes of the piece, from its front.
    pub used: usize,
    /// What the last of them completed. Where nothing is completed the piece is used whole.
    pub event: Option<EventKind>,
}

/// A room for one payload: a call fills it, and the next one empties it. Contracts see the bytes that it holds. What it
/// asked for serves the next message too; a room above 128 KiB is given back by the next call.
#[derive(Drop)]
pub struct PayloadRoom {
    pub(crate) room: EventRoom,
}

impl Model for PayloadRoom {
    ghost use Rattle.std.specs.Prelude.{List, ℕ};
    ghost use Rattle.ws_session.specs.Lent.{payload_in};

    ghost Value = { List ℕ };

    ghost view = { λ r. payload_in r.room };
}

impl PayloadRoom {
    /// A room that holds nothing and has asked for no memory.
    pub fn new(alloc: Global) -> PayloadRoom
        ensures { result ≡ [] }
    {
        PayloadRoom {
            room: EventRoom::new(alloc),
        }
    }

    /// The payload of the last event, or the reason of a close, or nothing where it has none.
    pub fn as_slice(&self) -> &[u8]
        ensures { result.now ≡ self.now }
    {
        self.room.payload()
    }

    /// Empties the room and gives its memory back.
    pub fn forget(&mut self)
        ensures { self.new ≡ [] }
    {
        self.room.forget();
    }
}
