//! The head of a response, read by one who knows of its request no more than its bytes (RFC 6455 section 4.1).

ghost use Rattle.std.specs.Prelude.{◌≡◌, ℕ, List, IfOk, IfSome, MatchOption, length, map};
ghost use Rattle.httparse.specs.Grammar.{RequestHead};
ghost use Rattle.base64.specs.GeneralPurpose.{IsBytes};
ghost use Rattle.ws_upgrade.specs.Accept.{key_of};
ghost use Rattle.ws_upgrade.specs.Heads.{IsOnlyKey};
ghost use Rattle.ws_upgrade.specs.Openings.{AsksWith, IsResponseTo};
ghost use Rattle.ws_upgrade.specs.Protocols.{protocols_in};
ghost use Rattle.ws_upgrade.specs.Reading.{HoldsResponse};

use crate::accepting::nonce_of;
use crate::headers::Headers;
use crate::protocols::PROTOCOL_HEADER;
use crate::reading::{MAX_HEADERS, head_part};
use crate::responses::{ResponseRead, read_response_with};
use httparse::Status;
use httparse::spans::{EMPTY_HEADER_SPAN, parse_request};
use std::alloc::Global;
use ws_base::NoMemory;

/// Reads the head of a response as `read_response_with` does, to the request whose head stands at the front of other
/// bytes: by its key, and by the subprotocols that it offers. `None` where no head of a request stands there, or it has
/// not exactly one right key.
pub fn read_response_to(
    alloc: Global,
    request: &[u8],
    response: &[u8],
) -> Result<Option<ResponseRead>, NoMemory>
    ensures read { IfOk result (λ found. MatchOption found
        ((head : RequestHead) (len : ℕ) (nonce : List ℕ) → AsksWith request.now head len nonce → ⊥)
        (IsResponseTo request.now response.now)) }
    ensures within { IfOk result (λ found. IfSome found (HoldsResponse response.now)) }
{
    let front = head_part(request);
    let mut spans = [EMPTY_HEADER_SPAN; MAX_HEADERS];
    let Ok(Status::Complete(head)) = parse_request(front, &mut spans) else {
        return Ok(None);
    };
    let headers = Headers::new(front, &spans[..head.headers]);
    let Some(nonce) = only_nonce(&headers) else {
        return Ok(None);
    };
    let offers = offers_in(alloc, &headers)?;
    Ok(Some(read_response_with(response, nonce, offers.as_slice())))
}

/// The nonce whose base64 is the only key of a request.
fn only_nonce(headers: &Headers<'_, '_>) -> Option<[u8; 16]>
    ensures { MatchOption result ((nonce : List ℕ) → IsBytes nonce → length nonce ≡ 16 →
        IsOnlyKey headers.now (key_of nonce) → ⊥)
        (λ nonce. IsBytes nonce × (length nonce ≡ 16) × IsOnlyKey headers.now (key_of nonce)) }
{
    let key = headers.only_value(b"Sec-WebSocket-Key")?;
    nonce_of(key)
}

/// The subprotocols that a request offers, in their order.
fn offers_in<'b>(alloc: Global, headers: &Headers<'_, 'b>) -> Result<Vec<&'b [u8]>, NoMemory>
    ensures { IfOk result (λ offers. map (λ name. name.now) offers.items ≡ protocols_in headers.now) }
{
    let mut offers = Vec::new(alloc);
    for name in headers.members(PROTOCOL_HEADER) {
        offers.push(name)?;
    }
    Ok(offers)
}
