//! A short line, kept in place.

ghost use Rattle.std.specs.Prelude.{◌≡◌, ◌≤◌, ◌+◌, [], ◌++◌, length};
ghost use Rattle.ws_lines.specs.TurnLines.{turn_line};

use itoa::Buffer;
use std::marker::Model;

/// How many bytes a short line has at most.
const MAX_LINE: usize = 32;

/// A short line: contracts see its bytes.
#[derive(Drop)]
pub(crate) struct LineBytes {
    bytes: [u8; MAX_LINE],
    len: usize,
}

impl Model for LineBytes {
    ghost use Rattle.std.specs.Prelude.{List, ℕ, take, ◌≤◌};

    ghost Value = { List ℕ };

    ghost view = { λ line. take line.len line.bytes };

    ghost invariant = { λ line. line.len ≤ 32 };
}

impl LineBytes {
    /// The line that begins the turn of this number.
    pub(crate) fn of_turn(number: u64) -> LineBytes
        ensures { result ≡ turn_line number }
    {
        let mut line = LineBytes::new();
        let mut digits = Buffer::new();
        line.push(b"turn ");
        line.push(digits.format(number).as_bytes());
        line.push(b"\n");
        line
    }

    /// The bytes of the line.
    pub(crate) fn as_slice(&self) -> &[u8]
        ensures { result.now ≡ self.now }
    {
        &self.bytes[..self.len]
    }

    /// No bytes.
    fn new() -> LineBytes
        ensures { result ≡ [] }
    {
        LineBytes {
            bytes: [0; MAX_LINE],
            len: 0,
        }
    }

    /// Puts bytes behind those that stand in it.
    fn push(&mut self, bytes: &[u8])
        requires { length self.old + length bytes.now ≤ 32 }
        ensures pushed { self.new ≡ self.old ++ bytes.now }
        ensures len { length self.new ≡ length self.old + length bytes.now }
    {
        let end = self.len + bytes.len();
        self.bytes[self.len..end].copy_from_slice(bytes);
        self.len = end;
    }
}
