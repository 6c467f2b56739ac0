//! Which row is answered by which call.

use crate::{dooms, echoes, streams, takes, taps};
use std::alloc::Global;
use test_row_frames::RowFault;

/// Puts the answer of a call, where it is one of these. Answers whether it is.
pub fn answer(
    alloc: Global,
    call: &str,
    words: &[&str],
    out: &mut String,
) -> Result<bool, RowFault> {
    match call {
        "limits" => streams::make_limits(words, out)?,
        "feed_all" => streams::feed(alloc, words, out)?,
        "take" => takes::take_frames(alloc, words, out)?,
        "echo" => echoes::take_frames(alloc, words, out)?,
        "doomed" => dooms::mark_lengths(alloc, words, out)?,
        "tap" => taps::tap_moves(alloc, words, out)?,
        "tap_orders" => taps::tap_orders(alloc, words, out)?,
        _ => return Ok(false),
    }
    Ok(true)
}
