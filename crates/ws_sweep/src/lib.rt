//! Every short script: the steps of which they are made, their order, and the script of each as a case (RFC 6455
//! sections 5 to 8). No verdict is in it, and no peer.
//!
//! The layer above uses four contracts: that of `ShortScripts`, which gives the scripts by their numbers from 0 on,
//! that of `short_case`, the case of one, with a close behind it where it asks for one, that of `ShortCases`, which
//! makes the cases of one script after the other, and that of `tell_steps`, which tells such a case in a line.
#![tactic(auto)]

mod alphabet;
pub mod laws;
mod lemmas;
mod scripting;
mod short_cases;
mod short_script;
mod telling;

pub use alphabet::step_line;
pub use scripting::short_case;
pub use short_cases::ShortCases;
pub use short_script::{MAX_STEPS, STEPS, ShortScript, ShortScripts, script_count};
pub use telling::tell_steps;
