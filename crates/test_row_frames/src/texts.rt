//! Rows of text by pieces, and of close payloads.

use crate::answer_words::{put, put_hex, put_number, put_shown};
use crate::row_fault::RowFault;
use crate::words::{bytes_of, code_of, small_number_of};
use std::alloc::Global;
use ws_text::{ClosePayload, MAX_CONTROL_PAYLOAD, Utf8Stream, code_allowed, code_may_begin};

/// `text PIECE ..`: what the joined pieces turn out to be: `whole`, `cut`, or `fault` and the place, in all of them,
/// of the first byte from which on nothing completes them.
pub fn judge_pieces(alloc: Global, words: &[&str], out: &mut String) -> Result<(), RowFault> {
    let mut stream = Utf8Stream::new();
    let mut read: usize = 0;
    for word in words {
        let piece = bytes_of(alloc, word)?;
        if let Err(place) = stream.push(piece.as_slice()) {
            return put_number(out, "fault ", read.saturating_add(place) as u64);
        }
        read = read.saturating_add(piece.len());
    }
    put_end(out, &stream)
}

/// `push PIECE ..`: what each push answers, and how the text stands before the first and after each.
pub fn push_pieces(alloc: Global, words: &[&str], out: &mut String) -> Result<(), RowFault> {
    let mut stream = Utf8Stream::new();
    put_end(out, &stream)?;
    for word in words {
        let piece = bytes_of(alloc, word)?;
        match stream.push(piece.as_slice()) {
            Ok(()) => put(out, ", ok")?,
            Err(place) => put_number(out, ", fault ", place as u64)?,
        }
        put(out, " ")?;
        put_end(out, &stream)?;
    }
    Ok(())
}

/// `copy PIECE PIECE PIECE`: reads the first piece, makes a copy, and reads the second piece by the original and the
/// third by the copy. How the original stands, and how the copy.
pub fn push_to_copy(alloc: Global, words: &[&str], out: &mut String) -> Result<(), RowFault> {
    let [first, second, third] = words else {
        return Err(RowFault::NotARow);
    };
    let mut stream = Utf8Stream::new();
    let _ = stream.push(bytes_of(alloc, first)?.as_slice());
    let mut copy = stream;
    let _ = stream.push(bytes_of(alloc, second)?.as_slice());
    let _ = copy.push(bytes_of(alloc, third)?.as_slice());
    put_end(out, &stream)?;
    put(out, ", ")?;
    put_end(out, &copy)
}

/// `wanted PIECE ..`: how many bytes the text still wants before the first piece and after each.
pub fn count_wanted(alloc: Global, words: &[&str], out: &mut String) -> Result<(), RowFault> {
    let mut stream = Utf8Stream::new();
    put_number(out, "", stream.wanted() as u64)?;
    for word in words {
        let piece = bytes_of(alloc, word)?;
        let _ = stream.push(piece.as_slice());
        put_number(out, " ", stream.wanted() as u64)?;
    }
    Ok(())
}

/// `code_allowed CODE`: `yes` or `no`.
pub fn allow_code(words: &[&str], out: &mut String) -> Result<(), RowFault> {
    let [code] = words else {
        return Err(RowFault::NotARow);
    };
    put_answer(out, code_allowed(code_of(code)?))
}

/// `code_may_begin BYTE`: whether a code may have this higher byte: `yes` or `no`.
pub fn begin_code(words: &[&str], out: &mut String) -> Result<(), RowFault> {
    let [high] = words else {
        return Err(RowFault::NotARow);
    };
    put_answer(out, code_may_begin(small_number_of(high)?))
}

fn put_answer(out: &mut String, is_so: bool) -> Result<(), RowFault> {
    put(out, if is_so { "yes" } else { "no" })
}

/// `close_payload BYTES`: `empty`, a code and a reason, or `fault` with its number and its name.
pub fn read_close(alloc: Global, words: &[&str], out: &mut String) -> Result<(), RowFault> {
    let [payload] = words else {
        return Err(RowFault::NotARow);
    };
    let payload = bytes_of(alloc, payload)?;
    if payload.len() > MAX_CONTROL_PAYLOAD {
        return Err(RowFault::NotARow);
    }
    match ClosePayload::read(payload.as_slice()) {
        Ok(None) => put(out, "empty"),
        Ok(Some(close)) => {
            put_number(out, "", u64::from(close.code()))?;
            put_hex(out, " ", close.reason().as_bytes())
        }
        Err(fault) => {
            put_number(out, "fault ", fault as u64)?;
            put_shown(out, " ", &fault)
        }
    }
}

/// How a text stands: `whole`, or `cut` where it ends inside a character or has failed.
fn put_end(out: &mut String, stream: &Utf8Stream) -> Result<(), RowFault> {
    put(out, if stream.is_whole() { "whole" } else { "cut" })
}
