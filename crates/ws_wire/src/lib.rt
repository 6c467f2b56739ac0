//! Frames on the wire (RFC 6455 sections 5.2 and 5.3): headers, masking, and a stream of bytes as frames and a rest.
//!
//! The layers above use three facts: a written header is the bytes of its fields, reading finds exactly the header that
//! stands at the front, and no header or frame begins another, so a stream is its frames in one way.
#![tactic(auto)]

mod appending;
mod header;
pub mod laws;
mod masking;
mod opcode;
mod reading;
mod role;
mod writing;

pub use appending::append_frame;
pub use header::{Form, Header};
pub use masking::{NO_KEY, mask, mask_plainly};
pub use opcode::Opcode;
pub use reading::{HeaderRead, read_header};
pub use role::Role;
pub use writing::HeadBytes;
