//! A run of `wst` over watched devices, by its words, and the commands that ask for connections: `test`, `send`,
//! `sweep`, `serve` and `tap`. The others stand in `wst_commands`. No rule of the protocol stands here.
//!
//! The layer above uses `run`: what the words ask for is done, over the devices and the network that it is given, and
//! what came of it is one of four exits; and `words_are_no_text` where there are no words.
#![tactic(auto)]

mod clients_at;
mod running;
mod send;
mod sending_noted;
mod site;
mod sweep;
mod sweeping_clients;
mod tap;
mod test;

pub use running::{run, words_are_no_text};
pub use send::{SendPlan, plan_send, send_over};
pub use site::Site;
pub use sweep::{SweepPlan, SweepRefusal, plan_sweep, sweep_over, tell_sweep_refusal};
pub use test::{TestPlan, plan_test, run_plan};
