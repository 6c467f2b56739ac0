//! The line of a reply with the first bytes of its payload, kept in place.

ghost use Rattle.std.specs.Prelude.{◌≡◌, ◌≤◌, ◌+◌, ◌*◌, [], ◌++◌, length};
ghost use Rattle.ws_formats.specs.Words.{hex};
ghost use Rattle.ws_frame.specs.declared.source.DataStyle.TheVariants.{Hex};
ghost use Rattle.ws_suite.specs.Kept.{reply_in};
ghost use Rattle.wst_commands.specs.Explaining.{reply_line, shown_data};
ghost use Rattle.wst_commands.specs.InnerExplaining.{kind_start, line_start};

use crate::explanation_lines::{SHOWN, Side};
use itoa::Buffer;
use std::marker::Model;
use ws_formats::put_digits;
use ws_suite::{Kept, ReplyKind};

/// How many bytes the line of a reply has at most.
const MAX_LINE: usize = 128;

/// The line of a reply: contracts see its bytes.
#[derive(Drop)]
pub(crate) struct ReplyText {
    bytes: [u8; MAX_LINE],
    len: usize,
}

impl Model for ReplyText {
    ghost use Rattle.std.specs.Prelude.{List, ℕ, take, ◌≤◌};

    ghost Value = { List ℕ };

    ghost view = { λ line. take line.len line.bytes };

    ghost invariant = { λ line. line.len ≤ 128 };
}

impl ReplyText {
    /// The line of this reply.
    pub(crate) fn of(side: Side, reply: Kept<'_>) -> ReplyText
        ensures { result ≡ reply_line Hex side (reply_in reply.entry) }
    {
        let mut line = ReplyText::new();
        line.push_start(side, reply.turn);
        line.push_kind(reply.kind);
        line.push_data(reply.payload);
        line.push(b"\n");
        line
    }

    /// The bytes of the line.
    pub(crate) fn as_slice(&self) -> &[u8]
        ensures { result.now ≡ self.now }
    {
        &self.bytes[..self.len]
    }

    /// No bytes.
    fn new() -> ReplyText
        ensures { result ≡ [] }
    {
        ReplyText {
            bytes: [0; MAX_LINE],
            len: 0,
        }
    }

    /// Puts what a line begins with: its side, and its turn, which is counted from 0.
    fn push_start(&mut self, side: Side, turn: usize)
        requires { self.old ≡ [] }
        ensures pushed { self.new ≡ line_start side turn }
        ensures len { length self.new ≤ 48 }
    {
        let mut digits = Buffer::new();
        self.push(b"  ");
        self.push(side.word().as_bytes());
        self.push(b" ");
        self.push(digits.format(turn as u128 + 1).as_bytes());
        self.push(b" ");
    }

    /// Puts the word of a kind.
    fn push_kind(&mut self, kind: ReplyKind)
        requires { length self.old ≤ 48 }
        ensures pushed { self.new ≡ self.old ++ kind_start kind }
        ensures len { length self.new ≤ length self.old + 7 }
    {
        match kind {
            ReplyKind::Text => self.push(b"text "),
            ReplyKind::Binary => self.push(b"binary "),
            ReplyKind::Pong => self.push(b"pong "),
            ReplyKind::Ping => self.push(b"ping "),
        }
    }

    /// Puts the first bytes of a payload as digits.
    fn push_data(&mut self, payload: &[u8])
        requires { length self.old ≤ 55 }
        ensures pushed { self.new ≡ self.old ++ shown_data payload.now }
        ensures len { length self.new ≤ length self.old + 34 }
    {
        if payload.is_empty() {
            self.push(b"-");
        } else if payload.len() > SHOWN {
            self.push_digits(&payload[..SHOWN]);
            self.push(b"..");
        } else {
            self.push_digits(payload);
        }
    }

    /// Puts the digits of a few bytes, two a byte.
    fn push_digits(&mut self, bytes: &[u8])
        requires few { length bytes.now ≤ 16 }
        requires room { length self.old ≤ 55 }
        ensures pushed { self.new ≡ self.old ++ hex bytes.now }
        ensures len { length self.new ≡ length self.old + 2 * length bytes.now }
    {
        let mut digits = [0; 2 * SHOWN];
        let end = 2 * bytes.len();
        put_digits(bytes, &mut digits[..end]);
        self.push(&digits[..end]);
    }

    /// Puts bytes behind those that stand in it.
    fn push(&mut self, bytes: &[u8])
        requires { length self.old + length bytes.now ≤ 128 }
        ensures pushed { self.new ≡ self.old ++ bytes.now }
        ensures len { length self.new ≡ length self.old + length bytes.now }
    {
        let end = self.len + bytes.len();
        self.bytes[self.len..end].copy_from_slice(bytes);
        self.len = end;
    }
}
