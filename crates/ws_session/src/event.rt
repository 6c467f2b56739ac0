//! What a session tells.

ghost use Rattle.std.specs.Prelude.{Some};
ghost use Rattle.ws_session.specs.Words.{stop_words};

use crate::control_payload::Small;
use crate::message::Message;
use crate::reason::Reason;
use std::error::Error;
use std::fmt;
use ws_base::NoMemory;
use ws_text::Close;

/// What the bytes of one frame gave.
#[derive(Drop)]
pub enum Event {
    /// A data frame without FIN: the message goes on.
    Part,
    /// A data frame with FIN: the message is whole.
    Message(Message),
    Ping(Small),
    Pong(Small),
    /// A close frame, with what it says, or empty.
    Close(Option<Close>),
    /// The bytes break a rule, at the last of those that were used.
    Failed(Reason),
}

/// What one call took of a piece.
#[derive(Drop)]
pub struct Taken {
    /// How many bytes of the piece, from its front.
    pub used: usize,
    /// What the last of them completed. Where nothing is completed the piece is used whole.
    pub event: Option<Event>,
}

/// An event of a piece that was taken whole.
#[derive(Drop)]
pub struct PlacedEvent {
    pub event: Event,
    /// How many bytes of the piece the event takes, with its last one.
    pub end: usize,
}

/// Memory ran out inside a piece.
#[derive(Clone, Copy, Debug)]
pub struct TakeStop {
    /// How many bytes of the piece were taken, from its front.
    pub used: usize,
}

impl From<TakeStop> for NoMemory {
    fn from(_stop: TakeStop) -> NoMemory {
        NoMemory
    }
}

impl fmt::Display for TakeStop {
    ghost output = { λ stop. Some (stop_words stop.used) };

    fn fmt<W: fmt::Write>(&self, f: &mut fmt::Formatter<W>) -> fmt::Result {
        write!(f, "no memory after {} bytes", self.used)
    }
}

impl Error for TakeStop {}
