//! What decides the head of a response to a request for an upgrade (RFC 6455 section 4.1).

ghost use Rattle.std.specs.Prelude.{map};
ghost use Rattle.ws_handshake.specs.Responses.{DecidesResponse, NeedsResponse};

use crate::head_decider::HeadDecider;
use ws_upgrade::{HeadFault, ResponseRead, read_response_with};

/// What is decided on the head of a response.
#[derive(Clone, Copy)]
pub enum ResponseDecision {
    /// It accepts, and its head has this length. What was read after it are frames. The subprotocol is the place of the
    /// one that it names among those that were offered.
    Accepted {
        used: usize,
        protocol: Option<usize>,
    },
    /// It is to be refused.
    Refused(HeadFault),
}

/// Decides the heads of responses to a request with this nonce, as `read_response_with` does.
#[derive(Clone, Copy)]
pub struct ResponseHead<'a> {
    pub nonce: [u8; 16],
    /// The subprotocols that the request offers.
    pub offers: &'a [&'a [u8]],
}

impl HeadDecider for ResponseHead<'_> {
    type Decision = ResponseDecision;

    ghost needs = { λ head. NeedsResponse head.nonce (map (λ name. name.now) head.offers.now) };

    ghost decides = { λ head. DecidesResponse head.nonce (map (λ name. name.now) head.offers.now) };

    fn decide(&self, bytes: &[u8]) -> Option<ResponseDecision> {
        match read_response_with(bytes, self.nonce, self.offers) {
            ResponseRead::Need => None,
            ResponseRead::Got { used, protocol } => {
                Some(ResponseDecision::Accepted { used, protocol })
            }
            ResponseRead::Refused(fault) => Some(ResponseDecision::Refused(fault)),
        }
    }
}
