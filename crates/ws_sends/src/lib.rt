//! A frame that an endpoint is asked to send, with its masking key, and the words of a script that tell it.
//!
//! Scripts of moves and of calls use the contract of `read_send`: a send is told by its name and its further words, and
//! by no others.
#![tactic(auto)]

mod keyed_send;

pub use keyed_send::{KeyedSend, read_send};
