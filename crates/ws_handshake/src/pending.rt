//! Bytes that are still to be written.

ghost use Rattle.std.specs.Prelude.{◌≡◌, ◌≤◌, [], drop, length};
ghost use Rattle.ws_tester.specs.RunStates.{is_nothing};

use std::marker::Model;

/// Bytes that are to be written, of which some were. Contracts see those that are left.
#[derive(Drop)]
pub(crate) struct Pending {
    bytes: Vec<u8>,
    written: usize,
}

impl Model for Pending {
    ghost use Rattle.std.specs.Prelude.{List, ℕ, drop};

    ghost Value = { List ℕ };

    ghost view = { λ x. drop x.written x.bytes.items };
}

impl Pending {
    /// All of them are to be written.
    pub fn new(bytes: Vec<u8>) -> Pending
        ensures { result ≡ bytes.items }
    {
        Pending { bytes, written: 0 }
    }

    /// Those that are left.
    pub fn as_slice(&self) -> &[u8]
        ensures { result.now ≡ self.now }
    {
        self.bytes.get(self.written..).unwrap_or(&[])
    }

    /// Whether none is left.
    pub fn is_empty(&self) -> bool
        ensures { result ≡ is_nothing self.now }
    {
        self.as_slice().is_empty()
    }

    /// So many of them were written.
    pub fn take(&mut self, count: usize)
        requires { count ≤ length self.old }
        ensures { self.new ≡ drop count self.old }
    {
        self.written += count;
    }

    /// Nothing more of them is written.
    pub fn stop(&mut self)
        ensures { self.new ≡ [] }
    {
        self.bytes.clear();
        self.written = 0;
    }
}
