//! Messages (RFC 6455 section 5.6).

ghost use Rattle.std.specs.Prelude.{◌≡◌, ◌≤◌, Some};
ghost use Rattle.ws_base.specs.Finding.{Finds};
ghost use Rattle.ws_session.specs.Messages.{opcode_of};
ghost use Rattle.ws_session.specs.Words.{kind_word};

use crate::opcode::{BINARY, TEXT};
use std::fmt;
use ws_base::Payload;

/// The kind of a message.
#[derive(Clone, Copy, Debug)]
pub enum Kind {
    /// The payload is text, in UTF-8.
    Text,
    /// The payload is any bytes.
    Binary,
}

impl Kind {
    /// The kind that a word names, as `Display` writes it.
    pub fn from_word(word: &[u8]) -> Option<Kind>
        ensures { Finds result (λ kind. word.now ≡ kind_word kind) }
    {
        match word {
            b"text" => Some(Kind::Text),
            b"binary" => Some(Kind::Binary),
            _ => None,
        }
    }

    /// The opcode that begins such a message.
    pub(crate) fn opcode(self) -> u8
        ensures value { result ≡ opcode_of self }
        ensures bound { result ≤ 2 }
    {
        match self {
            Kind::Text => TEXT,
            Kind::Binary => BINARY,
        }
    }
}

impl fmt::Display for Kind {
    ghost output = { λ kind. Some (kind_word kind) };

    fn fmt<W: fmt::Write>(&self, f: &mut fmt::Formatter<W>) -> fmt::Result {
        match *self {
            Kind::Text => write!(f, "text"),
            Kind::Binary => write!(f, "binary"),
        }
    }
}

/// A whole message.
#[derive(Drop)]
pub struct Message {
    pub kind: Kind,
    /// The joined payloads of its frames, unmasked.
    pub payload: Payload,
}
