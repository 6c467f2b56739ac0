//! Clients of a listener that are served by echoes (RFC 6455), so many at a time, in one loop. Nothing is printed here.
//!
//! The layer above uses `serve_clients`: a sink takes how the connection of each client has ended, with the client's
//! number, as connections end (`ServesAll`). Each end follows from what the streams of clients did (`IsClientEnd`), and
//! each number is that of a client that the listener gave.
#![tactic(auto)]

mod client_end;
mod guests;
mod news_sink;
mod serving;

pub use client_end::ClientEnd;
pub use guests::Service;
pub use news_sink::{News, NewsSink};
pub use serving::{ServingEnd, serve_clients};
