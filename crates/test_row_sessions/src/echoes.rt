//! Rows of whole streams, given to an echo in pieces. An answer is the events, each with the number of bytes that
//! were taken by then, what was put, the status, and the status after the stream's end.

use crate::printing::put_event;
use std::alloc::Global;
use test_row_frames::{
    RowFault, bytes_of, limits_of, put, put_hex, put_number, put_shown, role_of, session_key_of,
};
use ws_session::{Echo, Event};

/// `echo ROLE LIMIT KEY PIECE ..`, by calls that each take up to the end of one frame.
pub fn take_frames(alloc: Global, words: &[&str], out: &mut String) -> Result<(), RowFault> {
    let [role, limit, key, pieces @ ..] = words else {
        return Err(RowFault::NotARow);
    };
    let key = session_key_of(key)?;
    let mut echo = Echo::new(alloc, limits_of(limit)?, role_of(role)?);
    let mut written = Vec::new(alloc);
    let mut before: usize = 0;
    for word in pieces {
        let piece = bytes_of(alloc, word)?;
        take_piece(&mut echo, piece.as_slice(), before, key, &mut written, out)?;
        before = before.saturating_add(piece.len());
    }
    put_end(out, &mut echo, written.as_slice())
}

/// Takes a piece frame by frame.
fn take_piece(
    echo: &mut Echo,
    piece: &[u8],
    before: usize,
    key: [u8; 4],
    written: &mut Vec<u8>,
    out: &mut String,
) -> Result<(), RowFault> {
    let mut place = before;
    let mut rest = piece;
    // A call uses at least one byte where there is one.
    for _ in 0..piece.len() {
        let taken = echo.take(rest, key, written)?;
        place = place.saturating_add(taken.used);
        rest = &rest[taken.used..];
        if let Some(event) = &taken.event {
            put_placed(out, place, event)?;
        }
    }
    Ok(())
}

/// An event, with the number of bytes that were taken by then.
fn put_placed(out: &mut String, place: usize, event: &Event) -> Result<(), RowFault> {
    put_number(out, "", place as u64)?;
    put(out, " ")?;
    put_event(out, event)?;
    put(out, ", ")
}

/// What was put, and how the echo stands before and after the stream's end.
fn put_end(out: &mut String, echo: &mut Echo, written: &[u8]) -> Result<(), RowFault> {
    put_hex(out, "put ", written)?;
    put_shown(out, ", ", &echo.status())?;
    echo.end();
    put_shown(out, ", ended ", &echo.status())
}
