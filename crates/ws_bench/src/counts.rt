//! What a server counts.

use std::fmt;

/// The messages and pings of a stream, and the bytes of their payloads.
#[derive(Clone, Copy)]
pub struct Counts {
    messages: u64,
    bytes: u64,
}

impl Counts {
    /// Nothing was counted yet.
    pub fn new() -> Counts {
        Counts {
            messages: 0,
            bytes: 0,
        }
    }

    /// One more message or ping, of so many bytes.
    pub fn on_message(&mut self, len: usize) {
        self.messages = self.messages.saturating_add(1);
        self.bytes = self.bytes.saturating_add(len as u64);
    }
}

impl fmt::Display for Counts {
    fn fmt<W: fmt::Write>(&self, f: &mut fmt::Formatter<W>) -> fmt::Result {
        write!(f, "{} messages, {} bytes", self.messages, self.bytes)
    }
}
