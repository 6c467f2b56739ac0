//! One loop over many streams: slots, each of which owns a stream that doesn't wait and the machine that is told of it.
//!
//! The layers above use the traits `NonBlocking`, whose calls say what the stream did, `Poller`, which waits for all of
//! them and has the time, and `LineSink`, which takes the lines of the machines. `Loop::run` serves the slots of a
//! loop: what each machine was told is what its own stream did, and what the clock says (`HaveRun`); what has ended
//! first is told first (`IsFirstToEnd`), and where memory runs out for one, the others go on. `Loop::run_listening`
//! does the same while a `Listener` is asked for clients, each of which gets a place that is empty (`HasArrived`).
#![tactic(auto)]

mod fault;
mod inside;
pub mod laws;
mod limits;
mod line_sink;
mod listener;
mod listening;
mod looping;
mod non_blocking;
mod pace;
mod places;
mod poller;
mod rounds;
mod serving;
mod slot;
mod watch;

pub use fault::LoopFault;
pub use line_sink::{LineSink, NoLines};
pub use listener::{Listener, TryAccept};
pub use listening::Arrival;
pub use looping::{Ending, Loop};
pub use non_blocking::{NonBlocking, TryRead, TryWrite};
pub use pace::Pace;
pub use places::Place;
pub use poller::{Mark, Poller, Readiness, WaitFailed, Wake};
pub use slot::Slot;
pub use watch::Watch;
