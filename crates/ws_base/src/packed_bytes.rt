//! Some bytes kept in place with a length of one byte, which contracts see as their list.

ghost use Rattle.std.specs.Prelude.{◌≡◌, ◌≤◌, ◌+◌, ◌++◌, [], length};

use std::marker::Model;

/// At most `N` bytes, kept in place, where `N` is at most 255: as `ShortBytes`, but packed. Their length is one byte,
/// and nothing is left free beside them.
#[derive(Clone, Copy)]
pub struct PackedBytes<const N: usize> {
    bytes: [u8; N],
    len: u8,
}

impl<const N: usize> Model for PackedBytes<N> {
    ghost use Rattle.std.specs.Prelude.{◌-◌, ◌++◌, length, take, replicate, List, ℕ};
    ghost use Rattle.ws_base.specs.InnerKept.{IsPadded};

    ghost Value = { List ℕ };

    ghost view = { λ s. take s.len s.bytes };

    ghost invariant = { λ s. IsPadded N s.len s.bytes };

    ghost inverse = { λ v. record { bytes = v ++ replicate (N - length v) 0; len = length v } };
}

impl<const N: usize> PackedBytes<N> {
    /// No bytes.
    #[inline]
    pub fn new() -> PackedBytes<N>
        ensures { result ≡ [] }
    {
        PackedBytes {
            bytes: [0; N],
            len: 0,
        }
    }

    /// These bytes.
    #[inline]
    pub fn of(bytes: &[u8]) -> PackedBytes<N>
        requires few { N ≤ 255 }
        requires room { length bytes.now ≤ N }
        ensures { result ≡ bytes.now }
    {
        let mut kept = PackedBytes::new();
        kept.push(bytes);
        kept
    }

    /// The bytes as a slice.
    #[inline]
    pub fn as_slice(&self) -> &[u8]
        ensures bytes { result.now ≡ self.now }
        ensures bound { length result.now ≤ N }
    {
        &self.bytes[..self.len as usize]
    }

    /// How many bytes there are.
    #[inline]
    pub fn len(&self) -> usize
        ensures count { result ≡ length self.now }
        ensures bound { result ≤ N }
    {
        self.as_slice().len()
    }

    /// Puts more bytes after these, all of which fit.
    #[inline]
    pub fn push(&mut self, more: &[u8])
        requires few { N ≤ 255 }
        requires room { length self.old + length more.now ≤ N }
        ensures { self.new ≡ self.old ++ more.now }
    {
        let len = self.len as usize;
        let end = len + more.len();
        let bytes = &mut self.bytes[..];
        bytes[len..end].copy_from_slice(more);
        self.len = end as u8;
    }
}
