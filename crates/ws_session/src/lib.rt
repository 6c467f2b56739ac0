//! One endpoint of a WebSocket connection (RFC 6455 sections 5 to 8): what it tells of whatever bytes come, however
//! they are cut, what it answers, and the frames that it sends.
//!
//! The layers above use the contract of `Session::take_all`, that the events, their places and the answers are those of
//! the joined bytes, and those of `begin`, `more`, `ping`, `pong` and `close`: a frame is sent as it was asked for, or
//! refused for the first reason that applies, and then nothing has changed. An `Echo` is a session that sends each
//! message back.
//!
//! Worked examples to copy: `crates/ws_calls/src/running.rt` makes the calls of a session, and `crates/ws_pair/src`
//! joins a client and a server by two `Vec`s.
#![tactic(auto)]

mod control_payload;
mod echo;
mod event;
mod event_room;
mod feeding;
pub mod laws;
mod limits;
mod message;
mod opcode;
mod outgoing;
mod payload_room;
mod reason;
mod receiver;
mod replying;
mod send_fault;
mod sending;
mod session;
mod status;

pub use control_payload::Small;
pub use echo::Echo;
pub use event::{Event, PlacedEvent, TakeStop, Taken};
pub use feeding::{Run, feed_all};
pub use limits::{Limits, MAX_MESSAGE};
pub use message::{Kind, Message};
pub use outgoing::Outgoing;
pub use payload_room::{EventKind, PayloadRoom, TakenInto};
pub use reason::Reason;
pub use send_fault::SendFault;
pub use session::Session;
pub use status::Status;
