//! A tap between a client and a server: their bytes are passed on unchanged, and told line by line: the first line of
//! each head (RFC 6455 section 4), and each frame behind it as `show` has it (section 5.2).
//!
//! The layer above uses the contract of `Tap`, a machine with two sides: over each list of what it was told of both
//! ends (`HasTapped`) what came from the one is to be written to the other, and the lines that are due are told.
//! `tap_ends` runs it over the readers and writers of both ends, until both have ended.
#![tactic(auto)]

mod first_line;
mod head_line;
mod head_room;
mod heads;
mod keeping;
mod kept_lines;
pub mod laws;
mod pipe;
mod portion;
mod release;
mod tap;
mod tap_lines;
mod tapped;
mod tapping;
mod telling;

pub use portion::Portion;
pub use tap::Tap;
pub use tapped::Tapped;
pub use tapping::{TapEnd, TapSide, TapWriter, Wakes, tap_ends};
