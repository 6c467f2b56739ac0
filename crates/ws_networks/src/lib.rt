//! A network: names that are looked up, connections that are begun and not waited for, listeners, and machines that are
//! run over connections to names.
//!
//! The layers above use the trait `Network`, beside which a `Poller` waits and has the time; `NetworkLoop`, a loop in
//! which connections are begun, asked for, and made or missed while its slots go on (`HaveComeOn`): the addresses of a
//! name are tried one after the other. `listen` does so for a listener (`Listens`). `run_at` runs one machine over a
//! connection to a name until it is done: what it was told is what the stream did, since it was made (`HasMet`), and
//! its lines were taken in their place among all that happened (`HasMetShowing`).
#![tactic(auto)]

mod bounds;
mod dialing;
mod listening;
mod meeting;
mod network;
mod network_loop;

pub use bounds::{Bounds, Limits};
pub use dialing::{Dial, Dialled, Missed, Tries, ask, begin_dial};
pub use listening::{Unheard, listen};
pub use meeting::{Errand, Met, run_at};
pub use network::{Network, Progress};
pub use network_loop::{Attempt, NetworkLoop, Taken};
