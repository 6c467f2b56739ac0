//! What decides the head of a request for an upgrade (RFC 6455 section 4.2.1).

ghost use Rattle.std.specs.Prelude.{map};
ghost use Rattle.ws_handshake.specs.Requests.{DecidesRequest, NeedsRequest};

use crate::head_decider::HeadDecider;
use ws_upgrade::{HeadFault, RequestRead, read_request_with};

/// What is decided on the head of a request.
#[derive(Clone, Copy)]
pub enum RequestDecision {
    /// It is accepted: the accept value of its key, the place of the subprotocol that is chosen among those that are
    /// known, if any is, and the length of its head. What was read after it belongs to what follows the handshake.
    Accepted {
        accept: [u8; 28],
        protocol: Option<usize>,
        used: usize,
    },
    /// It is to be refused.
    Refused(HeadFault),
}

/// Decides the heads of requests, as `read_request_with` does.
#[derive(Clone, Copy)]
pub struct RequestHead<'a> {
    /// The subprotocols that are known.
    pub known: &'a [&'a [u8]],
}

impl HeadDecider for RequestHead<'_> {
    type Decision = RequestDecision;

    ghost needs = { λ head. NeedsRequest (map (λ name. name.now) head.known.now) };

    ghost decides = { λ head. DecidesRequest (map (λ name. name.now) head.known.now) };

    fn decide(&self, bytes: &[u8]) -> Option<RequestDecision> {
        match read_request_with(bytes, self.known) {
            RequestRead::Need => None,
            RequestRead::Got { upgrade, used } => Some(RequestDecision::Accepted {
                accept: upgrade.accept,
                protocol: upgrade.protocol,
                used,
            }),
            RequestRead::Refused(fault) => Some(RequestDecision::Refused(fault)),
        }
    }
}
