//! Rows of the opening handshake.

use crate::answer_words::{put, put_hex, put_number, put_shown};
use crate::row_fault::RowFault;
use crate::words::bytes_of;
use std::alloc::Global;
use ws_upgrade::{
    HeadFault, RequestRead, ResponseRead, accept_of, read_request, read_response, refusal, request,
    response,
};

/// `accept_of KEY`: the accept value.
pub fn accept(alloc: Global, words: &[&str], out: &mut String) -> Result<(), RowFault> {
    let [key] = words else {
        return Err(RowFault::NotARow);
    };
    let key = bytes_of(alloc, key)?;
    put_hex(out, "", &accept_of(key.as_slice()))
}

/// `request HOST PATH NONCE`: the text, or why there is none.
pub fn make_request(alloc: Global, words: &[&str], out: &mut String) -> Result<(), RowFault> {
    let [host, path, nonce] = words else {
        return Err(RowFault::NotARow);
    };
    let (host, path) = (bytes_of(alloc, host)?, bytes_of(alloc, path)?);
    let nonce = nonce_of(alloc, nonce)?;
    match request(alloc, host.as_slice(), path.as_slice(), nonce) {
        Ok(text) => put_hex(out, "", text.as_slice()),
        Err(fault) => put_shown(out, "refused ", &fault),
    }
}

/// `response ACCEPT`: the text.
pub fn make_response(alloc: Global, words: &[&str], out: &mut String) -> Result<(), RowFault> {
    let [accept] = words else {
        return Err(RowFault::NotARow);
    };
    let accept = bytes_of(alloc, accept)?;
    let Ok(accept) = <&[u8; 28]>::try_from(accept.as_slice()) else {
        return Err(RowFault::NotARow);
    };
    let text = response(alloc, accept)?;
    put_hex(out, "", text.as_slice())
}

/// `refusal FAULT`: the text.
pub fn refuse(words: &[&str], out: &mut String) -> Result<(), RowFault> {
    let [fault] = words else {
        return Err(RowFault::NotARow);
    };
    put_hex(out, "", refusal(fault_of(fault)?))
}

/// `read_request BYTES`: `need`, `refused` and why, or `got` and how many bytes follow the head.
pub fn read_a_request(alloc: Global, words: &[&str], out: &mut String) -> Result<(), RowFault> {
    let [bytes] = words else {
        return Err(RowFault::NotARow);
    };
    let bytes = bytes_of(alloc, bytes)?;
    match read_request(bytes.as_slice()) {
        RequestRead::Need => put(out, "need"),
        RequestRead::Refused(fault) => put_shown(out, "refused ", &fault),
        RequestRead::Got { used, .. } => put_follow(out, bytes.len().saturating_sub(used)),
    }
}

/// `upgrade BYTES`: the host, the path and the accept value of an accepted request, or `none`.
pub fn tell_upgrade(alloc: Global, words: &[&str], out: &mut String) -> Result<(), RowFault> {
    let [bytes] = words else {
        return Err(RowFault::NotARow);
    };
    let bytes = bytes_of(alloc, bytes)?;
    let RequestRead::Got { upgrade, .. } = read_request(bytes.as_slice()) else {
        return put(out, "none");
    };
    put_hex(out, "host ", upgrade.host)?;
    put_hex(out, " path ", upgrade.path)?;
    put_hex(out, " accept ", &upgrade.accept)
}

/// `read_response NONCE BYTES`: `need`, `refused` and why, or `got` and how many bytes follow the head.
pub fn read_a_response(alloc: Global, words: &[&str], out: &mut String) -> Result<(), RowFault> {
    let [nonce, bytes] = words else {
        return Err(RowFault::NotARow);
    };
    let nonce = nonce_of(alloc, nonce)?;
    let bytes = bytes_of(alloc, bytes)?;
    match read_response(bytes.as_slice(), nonce) {
        ResponseRead::Need => put(out, "need"),
        ResponseRead::Refused(fault) => put_shown(out, "refused ", &fault),
        ResponseRead::Got { used, .. } => put_follow(out, bytes.len().saturating_sub(used)),
    }
}

/// An accepted head, behind which so many bytes follow.
pub fn put_follow(out: &mut String, follow: usize) -> Result<(), RowFault> {
    put_number(out, "got, ", follow as u64)?;
    put(out, " follow")
}

/// The 16 bytes of a nonce.
pub fn nonce_of(alloc: Global, word: &str) -> Result<[u8; 16], RowFault> {
    let bytes = bytes_of(alloc, word)?;
    match <[u8; 16]>::try_from(bytes.as_slice()) {
        Ok(nonce) => Ok(nonce),
        Err(_) => Err(RowFault::NotARow),
    }
}

/// The fault of this name.
fn fault_of(word: &str) -> Result<HeadFault, RowFault> {
    match word {
        "Head" => Ok(HeadFault::Head),
        "Method" => Ok(HeadFault::Method),
        "Version" => Ok(HeadFault::Version),
        "Host" => Ok(HeadFault::Host),
        "Upgrade" => Ok(HeadFault::Upgrade),
        "Connection" => Ok(HeadFault::Connection),
        "Key" => Ok(HeadFault::Key),
        "WsVersion" => Ok(HeadFault::WsVersion),
        "Status" => Ok(HeadFault::Status),
        "Accept" => Ok(HeadFault::Accept),
        "Extension" => Ok(HeadFault::Extension),
        "Protocol" => Ok(HeadFault::Protocol),
        "TooLarge" => Ok(HeadFault::TooLarge),
        _ => Err(RowFault::NotARow),
    }
}
