//! Sockets of a network: what listens, why nothing connects, and the waits for a tested end. No rule of the protocol
//! stands here.
//!
//! The layers above use `listen_over`, which listens at an address, or tells why not; `ConnectFault`, why there is no
//! connection; `Network`, beside which it is told once that a run waits, by a `WaitTeller`; `Resumed`, a device whose
//! calls are made again where a signal interrupted them.
#![tactic(auto)]

mod connecting;
mod listening;
mod meeting;
mod resuming;
mod waiting;
mod waits;

pub use connecting::{connect_fault, lookup_fault};
pub use listening::{Heard, listen_over};
pub use meeting::{ConnectFault, Meeting};
pub use resuming::Resumed;
pub use waiting::{
    Network, Notice, PATIENCE, Running, WaitTeller, law_one_wait_is_told, tell_wait,
};
pub use waits::Waits;
