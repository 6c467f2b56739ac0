//! Peers at work: what a tester says to the end that it tests and what that answers, as a talk, and the run of a script
//! over a peer
//! (RFC 6455 sections 4 to 8).
//!
//! The layers above use three contracts: that of `run_case_with`, by which the transcript is that of a talk which the
//! peer has had, that of `run_over_echo_as`, by which over a new echo of either role this talk is an echo's, and its
//! verdict Pass, and that of `drive`.
#![tactic(auto)]

mod app_peer;
mod app_run;
mod driving;
mod echo_peer;
mod echo_run;
pub mod laws;
mod lemmas;
mod peer;
mod running;
mod tung_peer;

pub use app_peer::{AppPeer, AppStep};
pub use app_run::run_over_app;
pub use driving::{DriveEnd, drive};
pub use echo_peer::EchoPeer;
pub use echo_run::{run_over_echo, run_over_echo_as, tester_key};
pub use peer::{Going, Peer};
pub use running::{run_case, run_case_with};
pub use tung_peer::TungPeer;
