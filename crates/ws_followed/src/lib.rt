//! What `tshark` prints of a stream that it follows, as a capture: the segments of both ends, and the turns in which
//! the frames behind their heads went (RFC 6455 sections 4 and 5.2).
//!
//! The layers above use the contract of `read_followed`: the capture of the connection that a text is, or the line at
//! which it is none or lacks bytes, or what is wrong with its heads.
#![tactic(auto)]

mod closes;
mod conversion;
mod front;
mod gaps;
mod reading;
mod segment;
mod turns;

pub use conversion::{FollowedFault, read_followed};
