//! Reading the head of a request (RFC 6455 section 4.2.1).

ghost use Rattle.std.specs.Prelude.{ℕ, List, [], MatchOption, MatchResult, map};
ghost use Rattle.httparse.specs.Grammar.{RequestHead};
ghost use Rattle.httparse.specs.Spans.{IsRequestAt, IsRequestWithin};
ghost use Rattle.ws_upgrade.specs.Heads.{RequestParts, IsOnlyKey, IsRequestRefusal};
ghost use Rattle.ws_upgrade.specs.Reading.{ChecksHead, OpensRequest, request_heads, request_read};
ghost use Rattle.ws_upgrade.specs.Reading.{IsRequestRead, ChecksEachRequest, HoldsRequest};

use crate::accepting::{accept_of, is_key};
use crate::faults::HeadFault;
use crate::headers::Headers;
use crate::protocols::PROTOCOL_HEADER;
use crate::reading::{MAX_HEAD, MAX_HEADERS, head_part};
use httparse::spans::{EMPTY_HEADER_SPAN, HeaderSpan, RequestSpans, parse_request};
use httparse::{Error, Status};

/// What an accepted request asks for. The slices are parts of the bytes that were read.
#[derive(Clone, Copy)]
pub struct Upgrade<'a> {
    /// The value of its `Host` header.
    pub host: &'a [u8],
    /// Its target.
    pub path: &'a [u8],
    /// The accept value of its key, for `response`.
    pub accept: [u8; 28],
    /// The place, among the subprotocols that are known, of the first one that it offers and that is
    /// known; `None` where it offers none of them.
    pub protocol: Option<usize>,
}

/// What stands at the front of some bytes.
#[derive(Clone, Copy)]
pub enum RequestRead<'a> {
    /// Less than a whole head: read more.
    Need,
    /// A head that asks for an upgrade, and its length.
    Got { upgrade: Upgrade<'a>, used: usize },
    /// The bytes are to be refused.
    Refused(HeadFault),
}

/// Reads the head of a request at the front of some bytes. It takes no memory. What follows the
/// head doesn't matter.
///
/// A head is what the grammar of `httparse` says, looked for in the first 8192 bytes, with at most
/// 64 headers. `Need` comes where more bytes may complete one; also inside a target, where a byte
/// that is no UTF-8 may be refused only at the target's end. Refusals come in this order: `Head`,
/// `TooLarge`, `Method`, `Version`, `Host`, `Upgrade`, `Connection`, `Key`, `WsVersion`; where
/// there are more than 64 headers, or a target doesn't end, either of the first two may come.
/// Offers of extensions and subprotocols are ignored.
pub fn read_request(bytes: &[u8]) -> RequestRead<'_>
    // Of each head that stands at the front: it is accepted with its parts, or refused for the first
    // rule that it breaks.
    ensures checked { ChecksEachRequest [] bytes.now result }

    // What each answer says of the bytes.
    ensures read { IsRequestRead [] bytes.now result }
    ensures within { HoldsRequest bytes.now result }
{
    read_request_with(bytes, &[])
}

/// Reads the head of a request as `read_request` does, and chooses one of the subprotocols that are
/// known: the first that the request offers and that is known, whatever the order in which they are
/// known. Names are compared byte for byte; no request is refused for what it offers.
pub fn read_request_with<'b>(bytes: &'b [u8], known: &[&[u8]]) -> RequestRead<'b>
    // Of each head that stands at the front: it is accepted with its parts and the choice, or
    // refused for the first rule that it breaks.
    ensures checked { ChecksEachRequest (map (λ name. name.now) known.now) bytes.now result }

    // What each answer says of the bytes.
    ensures read { IsRequestRead (map (λ name. name.now) known.now) bytes.now result }
    ensures within { HoldsRequest bytes.now result }
{
    let front = head_part(bytes);
    let mut spans = [EMPTY_HEADER_SPAN; MAX_HEADERS];
    match parse_request(front, &mut spans) {
        Ok(Status::Complete(head)) => answer(front, &spans, head, known),
        Ok(Status::Partial) => {
            if bytes.len() < MAX_HEAD {
                RequestRead::Need
            } else {
                RequestRead::Refused(HeadFault::TooLarge)
            }
        }
        Err(error) => match error {
            Error::TooManyHeaders => RequestRead::Refused(HeadFault::TooLarge),
            _ => RequestRead::Refused(HeadFault::Head),
        },
    }
}

/// What is answered to the head that was found.
fn answer<'b>(
    front: &'b [u8],
    spans: &[HeaderSpan],
    head: RequestSpans,
    known: &[&[u8]],
) -> RequestRead<'b>
    requires { IsRequestWithin front.now spans.now head }
    ensures { (grammar : RequestHead) → IsRequestAt front.now spans.now head grammar
        → ChecksHead (request_heads (map (λ name. name.now) known.now)) grammar head.len (request_read result) }
{
    let headers = Headers::new(front, &spans[..head.headers]);
    let (method, target) = (head.method.of(front), head.path.of(front));
    match check(method, target, head.version, &headers, known) {
        Ok(upgrade) => RequestRead::Got {
            upgrade,
            used: head.len,
        },
        Err(fault) => RequestRead::Refused(fault),
    }
}

/// What a request asks for, or the refusal of the first rule that it breaks.
fn check<'b>(
    method: &[u8],
    target: &'b [u8],
    minor: u8,
    headers: &Headers<'_, 'b>,
    known: &[&[u8]],
) -> Result<Upgrade<'b>, HeadFault>
    ensures { let request : RequestParts =
        record { method = method.now; target = target.now; minor = minor; headers = headers.now }
        in MatchResult result (λ upgrade. OpensRequest (map (λ name. name.now) known.now) request upgrade)
        (λ fault. IsRequestRefusal request fault) }
{
    if method != b"GET".as_slice() {
        return Err(HeadFault::Method);
    }
    if minor != 1 {
        return Err(HeadFault::Version);
    }
    let Some(host) = headers.only_value(b"Host") else {
        return Err(HeadFault::Host);
    };
    if !headers.has_member(b"Upgrade", b"websocket") {
        return Err(HeadFault::Upgrade);
    }
    if !headers.has_member(b"Connection", b"upgrade") {
        return Err(HeadFault::Connection);
    }
    let Some(key) = only_key(headers) else {
        return Err(HeadFault::Key);
    };
    if !headers.has_only_value(b"Sec-WebSocket-Version", b"13") {
        return Err(HeadFault::WsVersion);
    }
    Ok(Upgrade {
        host,
        path: target,
        accept: accept_of(key),
        protocol: headers.first_known(PROTOCOL_HEADER, known),
    })
}

/// The only key of a request, if it has one and that is right.
fn only_key<'b>(headers: &Headers<'_, 'b>) -> Option<&'b [u8]>
    ensures { MatchOption result ((key : List ℕ) → ¬ (IsOnlyKey headers.now key))
        (λ key. IsOnlyKey headers.now key.now) }
{
    let key = headers.only_value(b"Sec-WebSocket-Key")?;
    if is_key(key) { Some(key) } else { None }
}
