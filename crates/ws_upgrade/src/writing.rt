//! The heads that are written (RFC 6455 sections 4.1, 4.2.2 and 4.4).

ghost use Rattle.std.specs.Prelude.{◌≡◌, ◌↔◌, IfOk, OnOk, IsErrOf, MatchResult, map, option_map};
ghost use Rattle.ws_upgrade.specs.Accept.{key_of};
ghost use Rattle.ws_upgrade.specs.Protocols.{AreOffers, CanBeNamed};
ghost use Rattle.ws_upgrade.specs.AddedHeaders.{AreAddedHeaders, header_pair};
ghost use Rattle.ws_upgrade.specs.Texts.{IsHost, IsPath, request_text, request_text_for, request_bytes};
ghost use Rattle.ws_upgrade.specs.Texts.{response_text, response_bytes, refusal_bytes};

use crate::accepting::key_text;
use crate::added_headers::{AddedHeader, AddedHeaders};
use crate::faults::{HeadFault, RequestFault, ResponseFault};
use crate::head_lines::{
    push_chosen, push_header, push_headers, push_protocols, push_request_line,
};
use crate::parts::{Host, Path};
use crate::protocols::{Offers, ProtocolName};
use std::alloc::Global;
use ws_base::NoMemory;

/// What tells a client that only version 13 is spoken.
const UPGRADE_REQUIRED: &[u8] = b"HTTP/1.1 426 Upgrade Required\r\n\
    Upgrade: websocket\r\n\
    Connection: Upgrade, close\r\n\
    Sec-WebSocket-Version: 13\r\n\
    Content-Length: 0\r\n\r\n";

/// What answers every other refusal.
const BAD_REQUEST: &[u8] = b"HTTP/1.1 400 Bad Request\r\n\
    Connection: close\r\n\
    Content-Length: 0\r\n\r\n";

/// The head with which a client asks a host for an upgrade at a path, with the key for this nonce.
/// The host has 1 to 255 visible ASCII characters, and a port where it needs one; the path begins
/// with `/` and has at most 2048 bytes, visible ASCII characters but ``"#<>\^`{|}``.
pub fn request(
    alloc: Global,
    host: &[u8],
    path: &[u8],
    nonce: [u8; 16],
) -> Result<Vec<u8>, RequestFault>
    ensures text { IfOk result (λ text. text.items ≡ request_bytes host.now path.now nonce) }
    ensures asked { OnOk result (IsHost host.now × IsPath path.now) }

    // Which refusal it is.
    ensures bad_host { IsErrOf result RequestFault.BadHost ↔ ¬ (IsHost host.now) }
    ensures bad_path { IsErrOf result RequestFault.BadPath ↔ (IsHost host.now × ¬ (IsPath path.now)) }
    ensures bad_protocol { ¬ (IsErrOf result RequestFault.BadProtocol) }
    ensures bad_header { ¬ (IsErrOf result RequestFault.BadHeader) }
    ensures memory { IsErrOf result RequestFault.NoMemory → (IsHost host.now × IsPath path.now) }
{
    let text = request_with(alloc, host, path, nonce, &[])?;
    Ok(text)
}

/// The head of `request` that also offers subprotocols, in this order: at most 16 names, no two of
/// them equal. A name has 1 to 64 bytes: letters, digits and ``!#$%&'*+-.^_`|~``.
pub fn request_with(
    alloc: Global,
    host: &[u8],
    path: &[u8],
    nonce: [u8; 16],
    offers: &[&[u8]],
) -> Result<Vec<u8>, RequestFault>
    ensures text { IfOk result (λ text. text.items
        ≡ request_text host.now path.now (key_of nonce) (map (λ name. name.now) offers.now)) }
    ensures asked { OnOk result
        (IsHost host.now × IsPath path.now × AreOffers (map (λ name. name.now) offers.now)) }

    // Which refusal it is.
    ensures bad_host { IsErrOf result RequestFault.BadHost ↔ ¬ (IsHost host.now) }
    ensures bad_path { IsErrOf result RequestFault.BadPath ↔ (IsHost host.now × ¬ (IsPath path.now)) }
    ensures bad_protocol { IsErrOf result RequestFault.BadProtocol
        ↔ (IsHost host.now × IsPath path.now × ¬ (AreOffers (map (λ name. name.now) offers.now))) }
    ensures bad_header { ¬ (IsErrOf result RequestFault.BadHeader) }
    ensures memory { IsErrOf result RequestFault.NoMemory
        → (IsHost host.now × IsPath path.now × AreOffers (map (λ name. name.now) offers.now)) }
{
    let text = request_for(alloc, host, path, nonce, offers, &[])?;
    Ok(text)
}

/// The head of `request_with` that also has these headers, behind all others and in this order: those of which
/// `are_added_headers` says that they can be added.
pub fn request_for(
    alloc: Global,
    host: &[u8],
    path: &[u8],
    nonce: [u8; 16],
    offers: &[&[u8]],
    headers: &[AddedHeader<'_>],
) -> Result<Vec<u8>, RequestFault>
    ensures text { IfOk result (λ text. text.items ≡ request_text_for host.now path.now (key_of nonce)
        (map (λ name. name.now) offers.now) (map header_pair headers.now)) }
    ensures asked { OnOk result (IsHost host.now × IsPath path.now × AreOffers (map (λ name. name.now) offers.now)
        × AreAddedHeaders (map header_pair headers.now)) }

    // Which refusal it is.
    ensures bad_host { IsErrOf result RequestFault.BadHost ↔ ¬ (IsHost host.now) }
    ensures bad_path { IsErrOf result RequestFault.BadPath ↔ (IsHost host.now × ¬ (IsPath path.now)) }
    ensures bad_protocol { IsErrOf result RequestFault.BadProtocol
        ↔ (IsHost host.now × IsPath path.now × ¬ (AreOffers (map (λ name. name.now) offers.now))) }
    ensures bad_header { IsErrOf result RequestFault.BadHeader
        ↔ (IsHost host.now × IsPath path.now × AreOffers (map (λ name. name.now) offers.now)
        × ¬ (AreAddedHeaders (map header_pair headers.now))) }
    ensures memory { IsErrOf result RequestFault.NoMemory
        → (IsHost host.now × IsPath path.now × AreOffers (map (λ name. name.now) offers.now)
        × AreAddedHeaders (map header_pair headers.now)) }
{
    let Some(host) = Host::new(host) else {
        return Err(RequestFault::BadHost);
    };
    let Some(path) = Path::new(path) else {
        return Err(RequestFault::BadPath);
    };
    let Some(offers) = Offers::new(offers) else {
        return Err(RequestFault::BadProtocol);
    };
    let Some(headers) = AddedHeaders::new(headers) else {
        return Err(RequestFault::BadHeader);
    };
    let text = request_of(alloc, &host, &path, nonce, &offers, &headers)?;
    Ok(text)
}

/// The head of `request_for`, made of parts that were proved fit: only memory can lack.
pub fn request_of(
    alloc: Global,
    host: &Host<'_>,
    path: &Path<'_>,
    nonce: [u8; 16],
    offers: &Offers<'_, '_>,
    headers: &AddedHeaders<'_, '_>,
) -> Result<Vec<u8>, NoMemory>
    ensures { IfOk result (λ text. text.items
        ≡ request_text_for host.now path.now (key_of nonce) offers.now headers.now) }
{
    let mut text = Vec::new(alloc);
    push_request_line(&mut text, path.as_bytes())?;
    push_header(&mut text, b"Host", host.as_bytes())?;
    push_header(&mut text, b"Upgrade", b"websocket")?;
    push_header(&mut text, b"Connection", b"Upgrade")?;
    push_header(&mut text, b"Sec-WebSocket-Key", &key_text(&nonce))?;
    push_header(&mut text, b"Sec-WebSocket-Version", b"13")?;
    push_protocols(&mut text, offers.as_slice())?;
    push_headers(&mut text, headers.as_slice())?;
    text.extend_from_slice(b"\r\n")?;
    Ok(text)
}

/// The head with which a server accepts, with the accept value of the client's key.
pub fn response(alloc: Global, accept: &[u8; 28]) -> Result<Vec<u8>, NoMemory>
    ensures { IfOk result (λ text. text.items ≡ response_bytes accept.now) }
{
    let text = response_of(alloc, accept, None)?;
    Ok(text)
}

/// The head with which a server accepts, with the accept value of the client's key and the name of
/// the subprotocol that it chose, if any.
pub fn response_with(
    alloc: Global,
    accept: &[u8; 28],
    protocol: Option<&[u8]>,
) -> Result<Vec<u8>, ResponseFault>
    ensures text { IfOk result (λ text. text.items
        ≡ response_text accept.now (option_map (λ name. name.now) protocol.entry)) }
    ensures named { OnOk result (CanBeNamed (option_map (λ name. name.now) protocol.entry)) }

    // Which refusal it is.
    ensures bad_protocol { IsErrOf result ResponseFault.BadProtocol
        ↔ ¬ (CanBeNamed (option_map (λ name. name.now) protocol.entry)) }
    ensures memory { IsErrOf result ResponseFault.NoMemory
        → CanBeNamed (option_map (λ name. name.now) protocol.entry) }
{
    let protocol = name_of(protocol)?;
    let text = response_of(alloc, accept, protocol)?;
    Ok(text)
}

/// The head of `response_with`, made of a name that was proved fit, if of any: only memory can lack.
pub fn response_of(
    alloc: Global,
    accept: &[u8; 28],
    protocol: Option<ProtocolName<'_>>,
) -> Result<Vec<u8>, NoMemory>
    ensures { IfOk result (λ text. text.items ≡ response_text accept.now protocol.entry) }
{
    let mut text = Vec::new(alloc);
    text.extend_from_slice(b"HTTP/1.1 101 Switching Protocols\r\n")?;
    push_header(&mut text, b"Upgrade", b"websocket")?;
    push_header(&mut text, b"Connection", b"Upgrade")?;
    push_header(&mut text, b"Sec-WebSocket-Accept", accept)?;
    push_chosen(&mut text, protocol)?;
    text.extend_from_slice(b"\r\n")?;
    Ok(text)
}

/// The head with which a server refuses a request. It takes no memory.
pub fn refusal(fault: HeadFault) -> &'static [u8]
    ensures { result.now ≡ refusal_bytes fault }
{
    match fault {
        HeadFault::WsVersion => UPGRADE_REQUIRED,
        _ => BAD_REQUEST,
    }
}

/// The name of these bytes, if any are given. `BadProtocol` where they are no name.
fn name_of(protocol: Option<&[u8]>) -> Result<Option<ProtocolName<'_>>, ResponseFault>
    ensures { let given = option_map (λ name. name.now) protocol.entry
        in MatchResult result (λ named. (named ≡ given) × CanBeNamed given)
        (λ fault. (fault ≡ ResponseFault.BadProtocol) × ¬ (CanBeNamed given)) }
{
    let Some(bytes) = protocol else {
        return Ok(None);
    };
    match ProtocolName::new(bytes) {
        Some(name) => Ok(Some(name)),
        None => Err(ResponseFault::BadProtocol),
    }
}
