//! The opening handshake as a machine (RFC 6455 section 4): a head is read piece by piece until it is decided. A probe
//! puts the request of a client, judges the answer, and goes on as the tester of a script. The machine of a server
//! reads the request of a client, and answers it.
//!
//! The layers above use the machines `ProbeMachine`, of which `WasProbed` says what it was told, `wanted_of` what it
//! wants, and `ProbeGives` what comes of it; and `AdmitMachine` (`WasAdmitted`, `wanted_to_admit`, `AdmitGives`); and
//! `HeadDecider` with `RequestHead` and `ResponseHead`, which decide heads however they are read, and `request_in`.
#![tactic(auto)]

mod admission;
mod admit_machine;
mod head_decider;
mod head_reading;
mod pending;
mod probe_end;
mod probe_machine;
mod request_head;
mod response_head;

pub use admission::{AcceptedRequest, Admission, request_in};
pub use admit_machine::AdmitMachine;
pub use head_decider::HeadDecider;
pub use head_reading::HEAD_READ_SIZE;
pub use probe_end::{HeadRefusal, Probe};
pub use probe_machine::{ProbeMachine, ProbePlan, ProbeStage};
pub use request_head::{RequestDecision, RequestHead};
pub use response_head::{ResponseDecision, ResponseHead};
