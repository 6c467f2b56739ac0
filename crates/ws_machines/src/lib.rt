//! Machines: what goes over a stream is done by one that is told what happened and says what it wants next, and by a
//! loop outside of it that owns the stream, the clock and the waiting.
//!
//! The layers above use the traits `Machine`, whose calls extend each list of what it was told (`Extends`), and
//! `Stream`, whose calls say so of what it did, and `run_machine`: what the machine was told is what the stream did
//! (`RunTogether`). `Either` is one of two machines, and `Exchange` the plainest one.
#![tactic(auto)]

mod either;
mod exchange;
mod machine;
mod running;
mod stream;

pub use either::Either;
pub use exchange::Exchange;
pub use machine::Machine;
pub use running::{run_machine, serve};
pub use stream::{ReadOutcome, Stream, StreamEvent, WriteOutcome};
