//! A fixed room through which bytes go to a writer: they are written once no more of them fit in.
//!
//! The layers above use the contracts of `put` and `flush`: what was put is what was written and what waits; where a
//! write failed, a beginning of it was written.
#![tactic(auto)]

mod room;

pub use room::{Room, flush, put};
