//! The tester of a script as a machine: it is told what happened on the stream to the tested end, a server or a client
//! whose handshake is done, and says what it wants (RFC 6455 sections 5 to 7).
//!
//! The layers above use `Tester`, which is a machine: it was told what `WasTold` says, it wants what `wanted_in` says,
//! and what comes of it is the transcript of the run, of which `IsRecordOf` says what it has by all that was told.
#![tactic(auto)]

mod outcome;
mod outgoing;
mod standing;
mod tester;

pub use tester::{TestPlan, Tester};
