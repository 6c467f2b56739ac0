//! Rows of subprotocols in the opening handshake.

use crate::answer_words::{put, put_hex, put_number, put_shown};
use crate::row_fault::RowFault;
use crate::upgrades::{nonce_of, put_follow};
use crate::words::{bytes_of, pieces_of};
use std::alloc::Global;
use ws_upgrade::{
    AddedHeader, RequestRead, ResponseRead, read_request_with, read_response_with, request_for,
    request_with, response_with,
};

/// `request_with HOST PATH NONCE OFFER ..`: the text, or why there is none.
pub fn make_request(alloc: Global, words: &[&str], out: &mut String) -> Result<(), RowFault> {
    let [host, path, nonce, offers @ ..] = words else {
        return Err(RowFault::NotARow);
    };
    let (host, path) = (bytes_of(alloc, host)?, bytes_of(alloc, path)?);
    let nonce = nonce_of(alloc, nonce)?;
    let offers = pieces_of(alloc, offers)?;
    let offers = slices_of(alloc, &offers)?;
    match request_with(alloc, host.as_slice(), path.as_slice(), nonce, &offers) {
        Ok(text) => put_hex(out, "", text.as_slice()),
        Err(fault) => put_shown(out, "refused ", &fault),
    }
}

/// `request_for HOST PATH NONCE OFFER NAME VALUE ..`: the text, or why there is none. Where the offer has no byte there
/// is none.
pub fn make_request_for(alloc: Global, words: &[&str], out: &mut String) -> Result<(), RowFault> {
    let [host, path, nonce, offer, parts @ ..] = words else {
        return Err(RowFault::NotARow);
    };
    let (host, path) = (bytes_of(alloc, host)?, bytes_of(alloc, path)?);
    let nonce = nonce_of(alloc, nonce)?;
    let offer = bytes_of(alloc, offer)?;
    let offers = offers_of(alloc, offer.as_slice())?;
    let parts = pieces_of(alloc, parts)?;
    let headers = headers_of(alloc, &parts)?;
    match request_for(
        alloc,
        host.as_slice(),
        path.as_slice(),
        nonce,
        &offers,
        &headers,
    ) {
        Ok(text) => put_hex(out, "", text.as_slice()),
        Err(fault) => put_shown(out, "refused ", &fault),
    }
}

/// The headers whose names and values these are by turns.
fn headers_of(alloc: Global, parts: &[Vec<u8>]) -> Result<Vec<AddedHeader<'_>>, RowFault> {
    let mut headers = Vec::new(alloc);
    for pair in parts.chunks(2) {
        let [name, value] = pair else {
            return Err(RowFault::NotARow);
        };
        headers.push(AddedHeader {
            name: name.as_slice(),
            value: value.as_slice(),
        })?;
    }
    Ok(headers)
}

/// The list of one offer, or of none where it has no byte.
fn offers_of(alloc: Global, offer: &[u8]) -> Result<Vec<&[u8]>, RowFault> {
    let mut offers = Vec::new(alloc);
    if !offer.is_empty() {
        offers.push(offer)?;
    }
    Ok(offers)
}

/// `response_with ACCEPT`, and `response_with ACCEPT NAME`: the text, or why there is none.
pub fn make_response(alloc: Global, words: &[&str], out: &mut String) -> Result<(), RowFault> {
    let [accept, names @ ..] = words else {
        return Err(RowFault::NotARow);
    };
    let accept = bytes_of(alloc, accept)?;
    let Ok(accept) = <&[u8; 28]>::try_from(accept.as_slice()) else {
        return Err(RowFault::NotARow);
    };
    let names = pieces_of(alloc, names)?;
    let name = names.first().map(|name| name.as_slice());
    match response_with(alloc, accept, name) {
        Ok(text) => put_hex(out, "", text.as_slice()),
        Err(fault) => put_shown(out, "refused ", &fault),
    }
}

/// `read_request_with BYTES KNOWN ..`: `need`, `refused` and why, or `got`, how many bytes follow the head, and the
/// place of the subprotocol that is chosen, or `none`.
pub fn read_a_request(alloc: Global, words: &[&str], out: &mut String) -> Result<(), RowFault> {
    let [bytes, known @ ..] = words else {
        return Err(RowFault::NotARow);
    };
    let bytes = bytes_of(alloc, bytes)?;
    let known = pieces_of(alloc, known)?;
    let known = slices_of(alloc, &known)?;
    match read_request_with(bytes.as_slice(), &known) {
        RequestRead::Need => put(out, "need"),
        RequestRead::Refused(fault) => put_shown(out, "refused ", &fault),
        RequestRead::Got { upgrade, used } => {
            put_got(out, bytes.len().saturating_sub(used), upgrade.protocol)
        }
    }
}

/// `read_response_with NONCE BYTES OFFER ..`: `need`, `refused` and why, or `got`, how many bytes follow the head, and
/// the place of the subprotocol that it names, or `none`.
pub fn read_a_response(alloc: Global, words: &[&str], out: &mut String) -> Result<(), RowFault> {
    let [nonce, bytes, offers @ ..] = words else {
        return Err(RowFault::NotARow);
    };
    let nonce = nonce_of(alloc, nonce)?;
    let bytes = bytes_of(alloc, bytes)?;
    let offers = pieces_of(alloc, offers)?;
    let offers = slices_of(alloc, &offers)?;
    match read_response_with(bytes.as_slice(), nonce, &offers) {
        ResponseRead::Need => put(out, "need"),
        ResponseRead::Refused(fault) => put_shown(out, "refused ", &fault),
        ResponseRead::Got { used, protocol } => {
            put_got(out, bytes.len().saturating_sub(used), protocol)
        }
    }
}

/// Tells an accepted head.
fn put_got(out: &mut String, follow: usize, protocol: Option<usize>) -> Result<(), RowFault> {
    put_follow(out, follow)?;
    match protocol {
        Some(place) => put_number(out, ", protocol ", place as u64),
        None => put(out, ", no protocol"),
    }
}

/// The same names as slices.
fn slices_of(alloc: Global, names: &[Vec<u8>]) -> Result<Vec<&[u8]>, RowFault> {
    let mut slices = Vec::new(alloc);
    for name in names {
        slices.push(name.as_slice())?;
    }
    Ok(slices)
}
