//! Which row is answered by which call.

use crate::{
    clients, handshakes, lanes, probes, stream_calls, streams, taps, transcripts, watching,
};
use std::alloc::Global;
use test_row_frames::RowFault;

/// Puts the answer of a call, where it is one of these. Answers whether it is.
pub fn answer(
    alloc: Global,
    call: &str,
    words: &[&str],
    out: &mut String,
) -> Result<bool, RowFault> {
    match call {
        "watched_reads" => watching::read_watched(alloc, words, out)?,
        "watched_writes" => watching::write_watched(alloc, words, out)?,
        "write_whole" => watching::write_texts(alloc, words, out)?,
        "read_input" => streams::read_all(alloc, words, out)?,
        "show" => streams::show_frames(alloc, words, out)?,
        "drive" => streams::drive_echo(alloc, words, out)?,
        "lanes" => lanes::compare_lanes(words, out)?,
        "transcripts" => transcripts::count_alike(alloc, words, out)?,
        _ => return answer_of_connections(alloc, call, words, out),
    }
    Ok(true)
}

/// Puts the answer of a call of connections, where it is one of these. Answers whether it is.
fn answer_of_connections(
    alloc: Global,
    call: &str,
    words: &[&str],
    out: &mut String,
) -> Result<bool, RowFault> {
    match call {
        "read_head" => handshakes::read_a_head(alloc, words, out)?,
        "serve" => handshakes::serve_connection(alloc, words, out)?,
        "probe" => probes::probe_server(alloc, words, out)?,
        "admit" => clients::admit_client(alloc, words, out)?,
        "stream" => stream_calls::call_stream(alloc, words, out)?,
        "exchange" => stream_calls::run_exchange(alloc, words, out)?,
        "tap" => taps::tap_devices(alloc, words, out)?,
        _ => return Ok(false),
    }
    Ok(true)
}
