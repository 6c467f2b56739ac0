//! Clients that come to a listener, in one loop: the request of each is read and answered, and then it is said of each
//! what is played to it, and when. No client waits for another one's request.
//!
//! The layer above uses `Clients`: `next` serves all of them until the request of one is decided, what was played to
//! one has ended, or a time has come; `play` plays a machine to one whose request was accepted, `leave` leaves one. Who
//! waits stays where it is. What was played goes on, whatever else happens, until it is told what has come of it, and
//! that follows from what its machine was told (`PlaysOn`); that nobody can come any more is the last word of the
//! listener (`IsDeaf`).
#![tactic(auto)]

mod clients;
mod counted;
mod leaving;
mod talking;

pub use clients::{Clients, Event};
pub use counted::Counted;
pub use leaving::Leaver;
pub use talking::Talk;
