//! Machines that are run over connections, so many at a time, in one loop: what came of each is handed out in the order
//! in which they were begun. Nothing is printed here.
//!
//! The layer above uses `Errands`: what stands at a place of its line belongs to the machine that was begun there
//! (`IsErrandAt`), and what is handed out follows from that machine and from what its stream did (`IsErrandEnd`).
#![tactic(auto)]

mod errands;

pub use errands::{Came, Errands};
