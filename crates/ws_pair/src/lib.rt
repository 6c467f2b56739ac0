//! Two WebSocket sessions, a client's and a server's, joined by two ordered streams of bytes (RFC 6455 sections 5 to
//! 7): what each end delivers, whatever is sent and however the bytes are cut.
//!
//! The layers above use one contract, that of `run_pair`, or of `Player`, whose moves come one by one: each end
//! delivers exactly the other's messages whose last byte has reached it before it reported a size fault.
#![tactic(auto)]

mod endpoint;
pub mod laws;
mod lemmas;
mod messages;
mod moves;
mod playing;
mod report;
mod report_lines;
mod running;
mod script;

pub use messages::{MessageRef, MessageWalk, Messages};
pub use moves::{End, Move};
pub use playing::Player;
pub use report::{Answer, EndReport, Report};
pub use report_lines::{ReportFault, write_report};
pub use running::run_pair;
pub use script::read_moves;
