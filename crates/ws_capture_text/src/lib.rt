//! Captures as text, without the values that they tell: checked, and written in format 2.
//!
//! The layers above use the contract of `check_capture`, that a text is a capture, or at which line it is damaged, and
//! that of `write_as_capture2`: what is written is what format 2 has for the capture that a text is.
#![tactic(auto)]

mod checking;
mod digits;
mod joining;
mod line_kind;
mod mark;
mod stage;
mod writing;

pub use checking::check_capture;
pub use writing::write_as_capture2;
