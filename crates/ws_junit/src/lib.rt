//! The JUnit document of runs: a test suite for each peer, with counts.
//!
//! The layers above use the contract of `junit_text`.
#![tactic(auto)]

mod document;
mod elements;
mod xml_text;

pub use document::junit_text;
