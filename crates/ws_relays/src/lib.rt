//! Connections between clients and a server that are tapped, so many at a time, in one loop over a network. Each is a
//! pair of places: what came from the one end is written to the other, and told.
//!
//! The layer above uses `tap_clients`: clients are taken, each is joined to the server, and what both send is passed on
//! and told, until as many as are to be have ended. Each keeps its place, and none waits for another one.
#![tactic(auto)]

mod ages;
mod ends;
mod once;
mod relay;
mod relays;
mod tapping;

pub use relays::RelayEnd;
pub use tapping::{Over, ShortageSink, Tapping, TappingEnd, tap_clients};
