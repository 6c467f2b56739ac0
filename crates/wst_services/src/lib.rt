//! The services of `wst`: the commands `serve` and `tap`, whose clients come to an address that is listened at, and
//! `head`, which answers a head as a server does. No rule of the protocol stands here.
//!
//! The layers above use `plan_serve` and `run_serve`, the command `serve`, of which `serve_over` says whose connections
//! its lines tell (`ServesOver`); `tap_over`, connections between clients and a server, which are told frame by frame;
//! `tell_listening`, the line that tells of the address; and `run_head` (`RunsHead`).
#![tactic(auto)]

mod head;
mod serve;
mod served_lines;
mod serving_clients;
mod tapping;

pub use head::run_head;
pub use serve::{ServePlan, plan_serve, run_serve};
pub use serving_clients::{listening_line, serve_over, tell_listening};
pub use tapping::{TapPlan, tap_over};
