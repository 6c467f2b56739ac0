//! Replies that wait until they are written.

ghost use Rattle.std.specs.Prelude.{◌≡◌, ◌≤◌, [], List, drop, length, OnOk};
ghost use Rattle.ws_session.specs.Replies.{echo_reply_to};
ghost use Rattle.ws_session.specs.Taking.{HasTakenAll};
ghost use Rattle.ws_session.specs.declared.event.PlacedEvent.{PlacedEvent};
ghost use Rattle.ws_echo.specs.EchoMachines.{most_replies};
ghost use Rattle.ws_echo.specs.InnerEchoing.{piece_call};

use std::alloc::Global;
use std::marker::Model;
use ws_base::NoMemory;
use ws_session::Echo;

/// Room for so many bytes is kept for the next replies, so that it needn't be got again for each. More is given back
/// once nothing waits.
const KEPT: usize = 131_072;

/// Replies of an echo, of which the first bytes were written. Contracts see those that are left.
#[derive(Drop)]
pub(crate) struct Replies {
    bytes: Vec<u8>,
    written: usize,
}

impl Model for Replies {
    ghost use Rattle.std.specs.Prelude.{List, ℕ, drop};

    ghost Value = { List ℕ };

    ghost view = { λ x. drop x.written x.bytes.items };
}

impl Replies {
    /// There are none.
    pub fn new(alloc: Global) -> Replies
        ensures { result ≡ [] }
    {
        Replies {
            bytes: Vec::new(alloc),
            written: 0,
        }
    }

    /// Those that are left.
    pub fn as_slice(&self) -> &[u8]
        ensures { result.now ≡ self.now }
    {
        self.bytes.get(self.written..).unwrap_or(&[])
    }

    /// How many bytes are left.
    pub fn len(&self) -> usize
        ensures { result ≡ length self.now }
    {
        self.as_slice().len()
    }

    /// Has an echo take a piece, and puts what it replies behind those that are left.
    pub fn answer(&mut self, echo: &mut Echo, piece: &[u8], key: [u8; 4]) -> Result<(), NoMemory>
        ensures taken { OnOk result ((told : List PlacedEvent) × HasTakenAll echo_reply_to echo.old echo.new
            (piece_call piece.now key self.old self.new) [] told) }
        ensures fits { length self.new ≤ most_replies }
    {
        self.written = closed_up(&mut self.bytes, self.written);
        echo.pass(piece, key, &mut self.bytes)?;
        Ok(())
    }

    /// So many of them were written. Once none is left, room for many of them is given back.
    pub fn take(&mut self, count: usize)
        requires { count ≤ length self.old }
        ensures { self.new ≡ drop count self.old }
    {
        self.written += count;
        if self.len() == 0 {
            self.clear();
        }
    }

    /// Nothing more of them is written.
    pub fn clear(&mut self)
        ensures { self.new ≡ [] }
    {
        if self.bytes.capacity() > KEPT {
            self.bytes = Vec::new(*self.bytes.allocator());
        } else {
            self.bytes.clear();
        }
        self.written = 0;
    }
}

/// Moves the bytes behind the first so many to the front, once they are no more than those: so each byte is moved once
/// at most, and the room is at most twice what waits. Answers how many bytes are in front of them now.
#[tactic(auto, using(crate::proofs::ReplyLemmas::none_left))]
fn closed_up(bytes: &mut Vec<u8>, written: usize) -> usize
    ensures left { drop result bytes.new.items ≡ drop written bytes.old.items }
    ensures within { result ≤ length bytes.new.items }
{
    let len = bytes.len();
    if written >= len {
        bytes.clear();
        return 0;
    }
    if written < len - written {
        return written;
    }
    remove_front(bytes, written);
    0
}

/// Removes the first bytes.
fn remove_front(bytes: &mut Vec<u8>, count: usize)
    requires { count ≤ length bytes.old.items }
    ensures { bytes.new.items ≡ drop count bytes.old.items }
{
    let left = bytes.len() - count;
    bytes.copy_within(count.., 0);
    bytes.truncate(left);
}
