//! A list on the heap, which contracts see as a list.

ghost use Rattle.std.specs.Prelude.{◌≡◌, [], length};

use std::alloc::Global;
use std::marker::Model;

/// Items on the heap, in order, which contracts see as their list. Made from a `Vec` and made one again without taking
/// memory.
#[derive(Drop, Debug)]
pub struct Sequence<T> {
    items: Vec<T>,
}

/// The bytes that a frame or a message carries.
pub type Payload = Sequence<u8>;

impl<T> Model for Sequence<T> {
    ghost use Rattle.std.specs.Prelude.{List};

    ghost Value = { List T };

    ghost view = { λ s. s.items.items };
}

impl<T> Sequence<T> {
    /// No items.
    pub fn new(alloc: Global) -> Sequence<T>
        ensures { result ≡ [] }
    {
        Sequence {
            items: Vec::new(alloc),
        }
    }

    /// The items as a slice.
    pub fn as_slice(&self) -> &[T]
        ensures { result.now ≡ self.now }
    {
        self.items.as_slice()
    }

    /// How many items there are.
    pub fn len(&self) -> usize
        ensures { result ≡ length self.now }
    {
        self.items.len()
    }

    /// The same items as a `Vec`.
    pub fn into_vec(self) -> Vec<T>
        ensures { result.items ≡ self }
    {
        let Self { items } = self;
        items
    }

    /// These items.
    pub fn from_vec(items: Vec<T>) -> Sequence<T>
        ensures { result ≡ items.items }
    {
        Sequence { items }
    }
}
