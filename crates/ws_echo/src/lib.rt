//! An echo as a machine: what comes is taken by a session that sends each message back, and what it replies is to be
//! written (RFC 6455 sections 5.5, 5.6 and 7.1).
//!
//! The layers above use `EchoMachine`: what comes of it follows from all that it was told (`EchoGives`).
#![tactic(auto)]

mod echo_machine;
mod lemmas;
mod replies;

pub use echo_machine::{EchoEnd, EchoMachine, EchoPlan, EchoStop};
pub use lemmas::echo_laws;
