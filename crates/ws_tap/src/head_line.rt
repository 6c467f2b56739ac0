//! The line that tells of a head.

ghost use Rattle.std.specs.Prelude.{◌≡◌, ◌≤◌, ◌+◌, [], ◌++◌, length, map};
ghost use Rattle.ws_tap.specs.Texts.{head_line, shown_byte, source_at, side_mark};

use crate::first_line::first_line;
use crate::heads::MAX_HEAD;
use crate::tapped::TappedEnd;
use itoa::Buffer;
use std::marker::Model;
use ws_wire::Role;

/// How many bytes the line of a head has at most: its own, a number, a mark and a line end.
const MAX_LINE: usize = MAX_HEAD + 32;

/// The line that tells of a head: contracts see its bytes.
#[derive(Drop)]
pub(crate) struct HeadLine {
    bytes: [u8; MAX_LINE],
    len: usize,
}

impl Model for HeadLine {
    ghost use Rattle.std.specs.Prelude.{List, ℕ, take, ◌≤◌};

    ghost Value = { List ℕ };

    ghost view = { λ line. take line.len line.bytes };

    ghost invariant = { λ line. line.len ≤ 8224 };
}

impl HeadLine {
    /// The line of this head of an end.
    pub(crate) fn of(end: TappedEnd, head: &[u8]) -> HeadLine
        requires { length head.now ≤ 8192 }
        ensures { result ≡ head_line (source_at end.role end.tapped) head.now }
    {
        let mut line = HeadLine::new();
        let mut digits = Buffer::new();
        line.push(digits.format(end.tapped.number).as_bytes());
        line.push(mark_of(end.role));
        line.push_shown(first_line(head));
        line.push(b"\n");
        line
    }

    /// The bytes of the line.
    pub(crate) fn as_slice(&self) -> &[u8]
        ensures { result.now ≡ self.now }
    {
        &self.bytes[..self.len]
    }

    /// No bytes.
    fn new() -> HeadLine
        ensures { result ≡ [] }
    {
        HeadLine {
            bytes: [0; MAX_LINE],
            len: 0,
        }
    }

    /// Puts bytes behind those that stand in it.
    fn push(&mut self, bytes: &[u8])
        requires { length self.old + length bytes.now ≤ 8224 }
        ensures pushed { self.new ≡ self.old ++ bytes.now }
        ensures len { length self.new ≡ length self.old + length bytes.now }
    {
        let end = self.len + bytes.len();
        self.bytes[self.len..end].copy_from_slice(bytes);
        self.len = end;
    }

    /// Puts bytes behind those that stand in it, each as it is shown.
    fn push_shown(&mut self, bytes: &[u8])
        requires { length self.old + length bytes.now ≤ 8224 }
        ensures pushed { self.new ≡ self.old ++ map shown_byte bytes.now }
        ensures len { length self.new ≡ length self.old + length bytes.now }
    {
        for byte in bytes {
            self.push(&[shown_byte(*byte)]);
        }
    }
}

/// A byte of a head as it is shown: a question mark in the place of one that a terminal may obey.
fn shown_byte(byte: u8) -> u8
    ensures { result ≡ shown_byte byte }
{
    if (b' '..=b'~').contains(&byte) {
        byte
    } else {
        b'?'
    }
}

/// The mark of an end.
fn mark_of(role: Role) -> &'static [u8]
    ensures mark { result.now ≡ side_mark role }
    ensures short { length result.now ≤ 3 }
{
    match role {
        Role::Client => b" > ",
        Role::Server => b" < ",
    }
}
