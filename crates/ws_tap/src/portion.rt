//! Bytes that came from an end of a tapped connection at a time.

ghost use Rattle.std.specs.Prelude.{◌≡◌, ◌≤◌, [], length};

use std::alloc::Global;
use std::marker::Model;
use ws_base::ShortBytes;

/// So many bytes are held without memory.
pub(crate) const FEW: usize = 256;

/// Bytes that came from an end at a time, in the memory in which they came, or in place where they are few: contracts
/// see them as their list. A tap holds them until the other end has taken them.
#[derive(Drop)]
pub struct Portion {
    many: Vec<u8>,
    few: ShortBytes<FEW>,
}

impl Model for Portion {
    ghost use Rattle.std.specs.Prelude.{◌≡◌, ◌⊎◌, ◌++◌, [], List, ℕ};

    ghost Value = { List ℕ };

    ghost view = { λ portion. portion.many.items ++ portion.few };

    ghost invariant = { λ portion. (portion.many.items ≡ []) ⊎ (portion.few ≡ []) };
}

impl Portion {
    /// No bytes.
    pub(crate) fn none(alloc: Global) -> Portion
        ensures { result ≡ [] }
    {
        Portion::of(Vec::new(alloc))
    }

    /// These bytes, in their memory.
    pub fn of(bytes: Vec<u8>) -> Portion
        ensures { result ≡ bytes.items }
    {
        Portion {
            many: bytes,
            few: ShortBytes::new(),
        }
    }

    /// These few bytes, for which no memory is taken.
    pub(crate) fn few(alloc: Global, bytes: &[u8]) -> Portion
        requires { length bytes.now ≤ 256 }
        ensures { result ≡ bytes.now }
    {
        Portion {
            many: Vec::new(alloc),
            few: ShortBytes::of(bytes),
        }
    }

    /// The bytes.
    pub(crate) fn as_slice(&self) -> &[u8]
        ensures { result.now ≡ self.now }
    {
        if self.many.is_empty() {
            self.few.as_slice()
        } else {
            self.many.as_slice()
        }
    }

    /// How many they are.
    pub(crate) fn len(&self) -> usize
        ensures { result ≡ length self.now }
    {
        self.as_slice().len()
    }
}
