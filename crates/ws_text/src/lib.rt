//! Text by pieces, and close payloads: UTF-8 checked to the byte at which nothing can complete it
//! (RFC 6455 section 8.1), and what a close frame says (sections 5.5.1 and 7.4). A session checks each
//! text message by `Utf8Stream::push`, and each close frame by `ClosePayload::read`. Nothing here
//! takes memory.
#![tactic(auto)]

mod closing;
pub mod laws;
mod streaming;
mod unfinished;
mod whole;

pub use closing::{
    Close, CloseFault, ClosePayload, ControlBytes, MAX_CONTROL_PAYLOAD, MAX_REASON, code_allowed,
    code_may_begin,
};
pub use streaming::Utf8Stream;
