//! `test_row_sessions`: answers rows of calls at a session, an echo or a tap.
#![tactic(auto)]

mod answering;
mod dooms;
mod echoes;
mod printing;
mod streams;
mod takes;
mod tap_devices;
mod taps;

pub use answering::answer;
