//! Cases that are run over a server at an address, several at a time, in one loop. No rule of the protocol stands here.
//!
//! The layer above uses `AtOnce`, which runs the cases of a source as a `CaseRunner` does: the sink is told of them in
//! the order of the source, of each as soon as it was told of all before it, and what is told of each came of it over a
//! connection of its own.
#![tactic(auto)]

mod crowd;
mod running_at_once;

pub use running_at_once::AtOnce;
