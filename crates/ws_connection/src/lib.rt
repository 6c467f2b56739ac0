//! One connection over a watched reader and a watched writer: the opening handshake, read from the device, and what
//! comes behind it, on either side (RFC 6455 sections 4.1, 4.2 and 5 to 7). The device is any: a socket, or bytes in
//! memory.
//!
//! The layers above use `serve_one` (the clauses with `Serves`), `read_head` (those with `ReadsHead`) with
//! `RequestHead` and `ResponseHead`, `probe_machine`, the machine of a probe for their loop (`BeginsProbe`),
//! `protocols_of`, whose `Protocols` these take, and `headers_of`, whose `RequestHeaders` a request has. For a caller
//! with one stream that waits there are drivers over the machines of `ws_handshake` and `ws_tester`: `probe` (`Probes`)
//! over a `Connection`, `admit` (`Admits`) over one as a server, and `run_script` (`Records`) over one whose handshake
//! is done. A `Connection` is a stream of `ws_machines`: what it tells is what its devices did (`DidCalls`). Its
//! devices keep its limits of time (`WaitingRead`).
#![tactic(auto)]

mod admitting;
mod connection;
mod device_calls;
mod driving;
mod ending;
mod incoming;
mod probing;
mod protocols;
mod reading_head;
mod request_headers;
mod serving;
mod streaming;
mod upgrade_request;
mod waiting;

pub use admitting::admit;
pub use connection::Connection;
pub use driving::{ScriptRun, probe, run_script};
pub use ending::EndsDirection;
pub use incoming::Incoming;
pub use probing::{Asked, NONCE, probe_machine};
pub use protocols::{Protocols, protocols_of};
pub use reading_head::{HeadEnd, HeadRoom, read_head};
pub use request_headers::{RequestHeaders, headers_of};
pub use serving::{Served, serve_one};
pub use upgrade_request::UpgradeRequest;
pub use waiting::{NoTimer, WaitTimer, WaitingRead};
pub use ws_handshake::{
    AcceptedRequest, Admission, HeadDecider, HeadRefusal, Probe, RequestDecision, RequestHead,
    ResponseDecision, ResponseHead,
};
