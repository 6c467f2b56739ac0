//! One line of a stream, kept in place.

ghost use Rattle.std.specs.Prelude.{◌≡◌, ◌≤◌, ◌+◌, [], ◌++◌, length};

use crate::line::MAX_LINE;
use std::marker::Model;

/// The bytes of at most one line: contracts see the list of them.
#[derive(Drop)]
pub struct OneLine {
    bytes: [u8; MAX_LINE],
    len: usize,
}

impl Model for OneLine {
    ghost use Rattle.std.specs.Prelude.{List, ℕ, take, ◌≤◌};

    ghost Value = { List ℕ };

    ghost view = { λ line. take line.len line.bytes };

    ghost invariant = { λ line. line.len ≤ 200 };
}

impl OneLine {
    /// No line.
    pub(crate) fn none() -> OneLine
        ensures { result ≡ [] }
    {
        OneLine {
            bytes: [0; MAX_LINE],
            len: 0,
        }
    }

    /// A line of these bytes.
    pub(crate) fn of(bytes: &[u8]) -> OneLine
        requires { length bytes.now ≤ 200 }
        ensures { result ≡ bytes.now }
    {
        let mut line = OneLine::none();
        line.push(bytes);
        line
    }

    /// The bytes of the line, its line end among them.
    pub fn as_slice(&self) -> &[u8]
        ensures bytes { result.now ≡ self.now }
        ensures bound { length result.now ≤ 200 }
    {
        &self.bytes[..self.len]
    }

    /// Puts bytes behind those that stand in it.
    fn push(&mut self, bytes: &[u8])
        requires { length self.old + length bytes.now ≤ 200 }
        ensures { self.new ≡ self.old ++ bytes.now }
    {
        let end = self.len + bytes.len();
        self.bytes[self.len..end].copy_from_slice(bytes);
        self.len = end;
    }
}
