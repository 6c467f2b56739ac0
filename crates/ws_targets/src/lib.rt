//! Where a server is that is to be tested, and what a request asks it for, as a word names both: a host and a port, or
//! a `ws` URL (RFC 6455 sections 3 and 4.1; RFC 3986 section 3). Which hosts and paths can be asked for is that of
//! `ws_upgrade`.
//!
//! The layers above use the contract of `read_target`: it gives the one target that the definition has for a word, and
//! refuses a word for which there is none. `target_advice` says what is wrong with such a word, where that is known to
//! be typed often.
#![tactic(auto)]

mod advice;
mod place;
mod target;

pub use advice::{Advice, target_advice};
pub use place::is_address;
pub use target::{Target, TargetFault, asks_for_tls, read_target};
