//! One WebSocket endpoint at work (RFC 6455 sections 5 to 7): a script of calls, what each call answers, and the lines
//! that tell it.
//!
//! The layers above use the contract of `Caller`, which takes the lines of a script, one after the other: its report
//! tells what each call of the script answers, by the frames sent and the bytes taken so far.
#![tactic(auto)]

mod calling;
mod calls;
mod echo_running;
mod echo_script;
mod report;
mod report_lines;
mod running;
mod script;
mod taking_words;

pub use calling::Caller;
pub use calls::{Call, EchoCall};
pub use report::{CallAnswer, PlacedInStream};
