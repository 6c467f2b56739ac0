//! A long piece, cut into parts that are taken one after the other: what they tell takes the memory of one part.
//!
//! The layers above use the contract of `cut_part`, the one call.
#![tactic(auto)]

mod cutting;

pub use cutting::cut_part;
