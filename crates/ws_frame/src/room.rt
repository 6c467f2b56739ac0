//! A fixed room for lines that wait to be written.

ghost use Rattle.std.specs.Prelude.{◌≡◌, ◌≤◌, ◌+◌, ◌*◌, [], ◌++◌, length, take};
ghost use Rattle.ws_frame.specs.Lines.{hex};

use crate::first_bytes::sixteen_lanes;
use std::marker::Model;
use std::simd::u8x16;
use ws_formats::digits_of;

/// How many bytes a room holds. It stands in what is moved and on the stack: no larger than writing needs.
pub(crate) const ROOM: usize = 2048;

/// The digits of a masking key.
const KEY_DIGITS: usize = 8;

/// Bytes in a fixed room: contracts see the list of them.
#[derive(Drop)]
pub(crate) struct Room {
    bytes: [u8; ROOM],
    len: usize,
}

impl Model for Room {
    ghost use Rattle.std.specs.Prelude.{List, ℕ, take, ◌≤◌};

    ghost Value = { List ℕ };

    ghost view = { λ room. take room.len room.bytes };

    ghost invariant = { λ room. room.len ≤ 2048 };
}

impl Room {
    /// An empty room.
    pub(crate) fn new() -> Room
        ensures { result ≡ [] }
    {
        Room {
            bytes: [0; ROOM],
            len: 0,
        }
    }

    /// How many bytes stand in it.
    pub(crate) fn len(&self) -> usize
        ensures count { result ≡ length self.now }
        ensures bound { result ≤ 2048 }
    {
        self.len
    }

    /// The bytes that stand in it.
    pub(crate) fn as_slice(&self) -> &[u8]
        ensures { result.now ≡ self.now }
    {
        &self.bytes[..self.len]
    }

    /// Takes everything out of it.
    pub(crate) fn clear(&mut self)
        ensures { self.new ≡ [] }
    {
        self.len = 0;
    }

    /// Puts bytes behind those that stand in it. It is made a part of its callers, where the size of a word is known.
    #[inline(always)]
    pub(crate) fn push(&mut self, bytes: &[u8])
        requires { length self.old + length bytes.now ≤ 2048 }
        ensures pushed { self.new ≡ self.old ++ bytes.now }
        ensures len { length self.new ≡ length self.old + length bytes.now }
    {
        let end = self.len + bytes.len();
        self.bytes[self.len..end].copy_from_slice(bytes);
        self.len = end;
    }

    /// Puts the front of a block behind them. The whole block is copied, since its size is known to the compiler where
    /// that of the front isn't; what follows is put over the rest of it.
    #[inline(always)]
    pub(crate) fn push_front(&mut self, block: &[u8], len: usize)
        requires front { len ≤ length block.now }
        requires room { length self.old + length block.now ≤ 2048 }
        ensures pushed { self.new ≡ self.old ++ take len block.now }
        ensures len { length self.new ≡ length self.old + len }
    {
        let start = self.len;
        self.bytes[start..start + block.len()].copy_from_slice(block);
        self.len = start + len;
    }

    /// Puts the digits of the first of a few bytes behind them, two a byte. The digits of all are made at once.
    #[inline(always)]
    pub(crate) fn push_hex(&mut self, bytes: u8x16, count: usize)
        requires whole { length bytes ≡ 16 }
        requires few { count ≤ 16 }
        requires room { length self.old + 32 ≤ 2048 }
        ensures pushed { self.new ≡ self.old ++ hex (take count bytes) }
        ensures len { length self.new ≡ length self.old + 2 * count }
    {
        let digits = digits_of(bytes).to_array();
        self.push_front(&digits, 2 * count);
    }

    /// Puts the digits of a masking key behind them, two a byte.
    #[inline(always)]
    pub(crate) fn push_key(&mut self, key: [u8; 4])
        requires { length self.old + 8 ≤ 2048 }
        ensures pushed { self.new ≡ self.old ++ hex key }
        ensures len { length self.new ≡ length self.old + 8 }
    {
        let digits = digits_of(sixteen_lanes(key)).to_array();
        self.push(&digits[..KEY_DIGITS]);
    }
}
