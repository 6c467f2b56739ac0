//! Rows of whole streams, given to a session in pieces.

use crate::printing::put_event;
use std::alloc::Global;
use test_row_frames::{
    RowFault, limits_of, most_of, pieces_of, put, put_hex, put_shown, role_of, session_key_of,
};
use ws_session::{Limits, feed_all};

/// `limits BYTES`: `yes` where that is the limit of a message, else `no`.
pub fn make_limits(words: &[&str], out: &mut String) -> Result<(), RowFault> {
    let [most] = words else {
        return Err(RowFault::NotARow);
    };
    let is_limit = Limits::new(most_of(most)?).is_some();
    put(out, if is_limit { "yes" } else { "no" })
}

/// `feed_all ROLE LIMIT KEY PIECE ..`: the events, what was put, and the status.
pub fn feed(alloc: Global, words: &[&str], out: &mut String) -> Result<(), RowFault> {
    let [role, limit, key, pieces @ ..] = words else {
        return Err(RowFault::NotARow);
    };
    let (role, limits, key) = (role_of(role)?, limits_of(limit)?, session_key_of(key)?);
    let pieces = pieces_of(alloc, pieces)?;
    let run = feed_all(alloc, role, limits, &pieces, key)?;
    for event in run.events.as_slice() {
        put_event(out, event)?;
        put(out, ", ")?;
    }
    put_hex(out, "put ", run.put.as_slice())?;
    put_shown(out, ", ", &run.status)
}
