//! Reading the head of a response (RFC 6455 section 4.1).

ghost use Rattle.std.specs.Prelude.{◌<◌, [], IfSome, MatchOption, MatchResult, map};
ghost use Rattle.httparse.specs.Grammar.{ResponseHead};
ghost use Rattle.httparse.specs.Spans.{IsResponseAt, IsResponseWithin};
ghost use Rattle.ws_upgrade.specs.Heads.{ResponseParts, IsResponseRefusal};
ghost use Rattle.ws_upgrade.specs.Reading.{ChecksHead, OpensResponse, response_heads, response_read};
ghost use Rattle.ws_upgrade.specs.Reading.{HasStatusCode, IsResponseRead, ChecksEachResponse, HoldsResponse};
ghost use Rattle.ws_upgrade.specs.Reading.{LacksStatusCode};

use crate::accepting::{accept_of, key_text};
use crate::faults::HeadFault;
use crate::headers::Headers;
use crate::protocols::PROTOCOL_HEADER;
use crate::reading::{MAX_HEAD, MAX_HEADERS, head_part};
use httparse::spans::{EMPTY_HEADER_SPAN, HeaderSpan, ResponseSpans, parse_response};
use httparse::{Error, Status};

/// The status of a response that switches to the protocol asked for.
const SWITCHING_PROTOCOLS: u16 = 101;

/// What stands at the front of some bytes.
#[derive(Clone, Copy)]
pub enum ResponseRead {
    /// Less than a whole head: read more.
    Need,
    /// A head that accepts the upgrade: its length, where the first frame begins, and the place
    /// among the offers of the subprotocol that it names; `None` where it names none.
    Got {
        used: usize,
        protocol: Option<usize>,
    },
    /// The bytes are to be refused.
    Refused(HeadFault),
}

/// Reads the head of a response at the front of some bytes, to a request with this nonce that
/// offers neither extensions nor subprotocols. It takes no memory. What follows the head doesn't
/// matter.
///
/// A head is what the grammar of `httparse` says, looked for in the first 8192 bytes, with at most
/// 64 headers. `Need` comes where more bytes may complete one. Refusals come in this order:
/// `Head`, `TooLarge`, `Status`, `Version`, `Upgrade`, `Connection`, `Accept`, `Extension`,
/// `Protocol`; where there are more than 64 headers, either of the first two may come.
pub fn read_response(bytes: &[u8], nonce: [u8; 16]) -> ResponseRead
    // Of each head that stands at the front: it is accepted, or refused for the first rule that it
    // breaks.
    ensures checked { ChecksEachResponse nonce [] bytes.now result }

    // What each answer says of the bytes.
    ensures read { IsResponseRead nonce [] bytes.now result }
    ensures within { HoldsResponse bytes.now result }
{
    read_response_with(bytes, nonce, &[])
}

/// Reads the head of a response as `read_response` does, to a request that offers these
/// subprotocols. `Protocol` comes where the response names more than one member, or one that was not
/// offered, byte for byte.
pub fn read_response_with(bytes: &[u8], nonce: [u8; 16], offers: &[&[u8]]) -> ResponseRead
    // Of each head that stands at the front: it is accepted with the place of what it names, or
    // refused for the first rule that it breaks.
    ensures checked { ChecksEachResponse nonce (map (λ name. name.now) offers.now) bytes.now result }

    // What each answer says of the bytes.
    ensures read { IsResponseRead nonce (map (λ name. name.now) offers.now) bytes.now result }
    ensures within { HoldsResponse bytes.now result }
{
    let front = head_part(bytes);
    let mut spans = [EMPTY_HEADER_SPAN; MAX_HEADERS];
    match parse_response(front, &mut spans) {
        Ok(Status::Complete(head)) => answer(front, &spans, head, &nonce, offers),
        Ok(Status::Partial) => {
            if bytes.len() < MAX_HEAD {
                ResponseRead::Need
            } else {
                ResponseRead::Refused(HeadFault::TooLarge)
            }
        }
        Err(error) => match error {
            Error::TooManyHeaders => ResponseRead::Refused(HeadFault::TooLarge),
            _ => ResponseRead::Refused(HeadFault::Head),
        },
    }
}

/// The status of a response, below 1000, whose head stands at the front of some bytes as `read_response` looks for it.
/// `None` where none does. It takes no memory.
pub fn status_of(bytes: &[u8]) -> Option<u16>
    ensures status { MatchOption result (LacksStatusCode bytes.now) (HasStatusCode bytes.now) }
    ensures bound { IfSome result (λ status. status < 1000) }
{
    let mut spans = [EMPTY_HEADER_SPAN; MAX_HEADERS];
    match parse_response(head_part(bytes), &mut spans) {
        Ok(Status::Complete(head)) => Some(head.code),
        Ok(Status::Partial) | Err(_) => None,
    }
}

/// What is answered to the head that was found.
fn answer(
    front: &[u8],
    spans: &[HeaderSpan],
    head: ResponseSpans,
    nonce: &[u8; 16],
    offers: &[&[u8]],
) -> ResponseRead
    requires { IsResponseWithin front.now spans.now head }
    ensures { (grammar : ResponseHead) → IsResponseAt front.now spans.now head grammar
        → ChecksHead (response_heads nonce.now (map (λ name. name.now) offers.now)) grammar head.len
        (response_read result) }
{
    let headers = Headers::new(front, &spans[..head.headers]);
    match check(head.code, head.version, &headers, nonce, offers) {
        Ok(protocol) => ResponseRead::Got {
            used: head.len,
            protocol,
        },
        Err(fault) => ResponseRead::Refused(fault),
    }
}

/// The place among the offers of what an accepting response names, or the refusal of the first rule
/// that a response breaks.
fn check(
    status: u16,
    minor: u8,
    headers: &Headers<'_, '_>,
    nonce: &[u8; 16],
    offers: &[&[u8]],
) -> Result<Option<usize>, HeadFault>
    ensures { let response : ResponseParts = record { minor = minor; status = status; headers = headers.now }
        in let offered = map (λ name. name.now) offers.now
        in MatchResult result (λ protocol. OpensResponse nonce.now offered response protocol)
        (λ fault. IsResponseRefusal nonce.now offered response fault) }
{
    if status != SWITCHING_PROTOCOLS {
        return Err(HeadFault::Status);
    }
    if minor != 1 {
        return Err(HeadFault::Version);
    }
    if !headers.has_member(b"Upgrade", b"websocket") {
        return Err(HeadFault::Upgrade);
    }
    if !headers.has_member(b"Connection", b"upgrade") {
        return Err(HeadFault::Connection);
    }
    if !headers.has_only_value(b"Sec-WebSocket-Accept", &accept_of(&key_text(nonce))) {
        return Err(HeadFault::Accept);
    }
    if !headers.has_no_member(b"Sec-WebSocket-Extensions") {
        return Err(HeadFault::Extension);
    }
    let protocol = headers.only_offered(PROTOCOL_HEADER, offers)?;
    Ok(protocol)
}
