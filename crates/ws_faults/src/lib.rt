//! Which frame of a stream has the text or close payload that is the stream's first violation (RFC 6455 sections 5.5.1,
//! 5.6 and 8.1).
//!
//! The layers above use the contracts of `FaultFinder::fault`, the place of that frame, whatever pieces the stream came
//! in; and of `marked_frames`, the places of both directions of a transcript.
#![tactic(auto)]

mod finding;
pub mod laws;
mod marking;

pub use finding::FaultFinder;
pub use marking::{MarkedFrames, marked_frames};
