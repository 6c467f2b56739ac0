//! Rows of a server's opening handshake as a machine: the head of a request, and the answer to it.

use crate::machine_words::{play, put_unread};
use std::alloc::Global;
use test_row_frames::{RowFault, put, put_hex, put_shown};
use ws_handshake::{Admission, AdmitMachine};
use ws_upgrade::are_offers;

/// `admit KNOWN WORD ..`: a server that knows the subprotocols of this list, joined by commas, or none, `-`, reads a
/// request and answers it. What the words tell and ask says `machine_words.rt`. At the end stands what came of it:
/// `accepted` with the path and with what came behind the head, `refused FAULT`, or `lost`; or `goes on`, and how many
/// bytes weren't read.
pub fn tell_admission(alloc: Global, words: &[&str], out: &mut String) -> Result<(), RowFault> {
    let [known, words @ ..] = words else {
        return Err(RowFault::NotARow);
    };
    let names = names_of(alloc, known)?;
    if !are_offers(names.as_slice()) {
        return Err(RowFault::NotARow);
    }
    let machine = AdmitMachine::new(alloc, names.as_slice());
    let (end, unread) = play(alloc, machine, words, out)?;
    put_admission(end, out)?;
    put_unread(out, unread)
}

/// The names of a list.
fn names_of<'a>(alloc: Global, list: &'a str) -> Result<Vec<&'a [u8]>, RowFault> {
    if list == "-" {
        return Ok(Vec::new(alloc));
    }
    let names = list.as_bytes().split(|byte| *byte == b',').collect(alloc)?;
    Ok(names)
}

/// What came of it, where it is done.
fn put_admission(end: Option<Admission>, out: &mut String) -> Result<(), RowFault> {
    match end {
        Some(Admission::Accepted(request)) => {
            put_hex(out, "accepted ", request.path.as_slice())?;
            put_hex(out, " ", request.behind.as_slice())
        }
        Some(Admission::Refused(fault)) => put_shown(out, "refused ", &fault),
        Some(Admission::Lost) => put(out, "lost"),
        None => put(out, "goes on"),
    }
}
