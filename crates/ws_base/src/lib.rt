//! What every layer shares: want of memory, lists that contracts see as lists, on the heap or kept in place, and what
//! is wrong with a text of lines.
//!
//! The layers above use the contracts of `Sequence`, `ShortBytes` and `PackedBytes`.
#![tactic(auto)]

mod memory;
mod packed_bytes;
mod sequence;
mod short_bytes;
mod text_fault;

pub use memory::NoMemory;
pub use packed_bytes::PackedBytes;
pub use sequence::{Payload, Sequence};
pub use short_bytes::ShortBytes;
pub use text_fault::{LineFault, TextFault};
