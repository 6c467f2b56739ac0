//! A few bytes kept in place, which contracts see as their list.

ghost use Rattle.std.specs.Prelude.{◌≡◌, ◌≤◌, ◌+◌, ◌++◌, [], length, take};

use std::marker::Model;

/// At most `N` bytes, kept in place, which contracts see as their list. The places after them are zero, so that the
/// same bytes are kept in one way alone, and may be copied.
#[derive(Clone, Copy)]
pub struct ShortBytes<const N: usize> {
    bytes: [u8; N],
    len: usize,
}

impl<const N: usize> Model for ShortBytes<N> {
    ghost use Rattle.std.specs.Prelude.{◌-◌, ◌++◌, length, take, replicate, List, ℕ};
    ghost use Rattle.ws_base.specs.InnerKept.{IsPadded};

    ghost Value = { List ℕ };

    ghost view = { λ s. take s.len s.bytes };

    ghost invariant = { λ s. IsPadded N s.len s.bytes };

    ghost inverse = { λ v. record { bytes = v ++ replicate (N - length v) 0; len = length v } };
}

impl<const N: usize> ShortBytes<N> {
    /// No bytes.
    #[inline]
    pub fn new() -> ShortBytes<N>
        ensures { result ≡ [] }
    {
        ShortBytes {
            bytes: [0; N],
            len: 0,
        }
    }

    /// These bytes.
    #[inline]
    pub fn of(bytes: &[u8]) -> ShortBytes<N>
        requires { length bytes.now ≤ N }
        ensures { result ≡ bytes.now }
    {
        let mut kept = ShortBytes::new();
        kept.push(bytes);
        kept
    }

    /// The bytes as a slice.
    #[inline]
    pub fn as_slice(&self) -> &[u8]
        ensures bytes { result.now ≡ self.now }
        ensures bound { length result.now ≤ N }
    {
        &self.bytes[..self.len]
    }

    /// How many bytes there are.
    #[inline]
    pub fn len(&self) -> usize
        ensures count { result ≡ length self.now }
        ensures bound { result ≤ N }
    {
        self.as_slice().len()
    }

    /// Puts more bytes after these, all of which fit.
    #[inline]
    pub fn push(&mut self, more: &[u8])
        requires { length self.old + length more.now ≤ N }
        ensures { self.new ≡ self.old ++ more.now }
    {
        let end = self.len + more.len();
        let bytes = &mut self.bytes[..];
        bytes[self.len..end].copy_from_slice(more);
        self.len = end;
    }

    /// Puts more bytes after these, as many as fit: of all that come so the first `N` are kept.
    #[inline]
    pub fn fill(&mut self, more: &[u8])
        ensures { self.new ≡ take N (self.old ++ more.now) }
    {
        let room = N - self.len;
        self.push(&more[..room.min(more.len())]);
    }
}
