//! Rows of captures and of the judge.

use std::alloc::Global;
use test_row_frames::{RowFault, bytes_of, put_hex, put_shown};
use ws_base::Sequence;
use ws_suite::{
    CaptureFault, Ended, Expectation, Transcript, Turn, judge, judge_end, judge_with, read_capture,
    write_capture,
};
use ws_wire::Role;

/// `capture TEXT`: the capture that is written of what is read from the text, or why it is none.
pub fn write_again(alloc: Global, words: &[&str], out: &mut String) -> Result<(), RowFault> {
    let [text] = words else {
        return Err(RowFault::NotARow);
    };
    let text = bytes_of(alloc, text)?;
    match read_capture(alloc, text.as_slice()) {
        Ok(transcript) => put_capture(alloc, &transcript, out),
        Err(fault) => put_shown(out, "", &fault),
    }
}

/// What is written of a transcript.
fn put_capture(alloc: Global, transcript: &Transcript, out: &mut String) -> Result<(), RowFault> {
    let written = write_capture(alloc, transcript)?;
    put_hex(out, "", written.as_slice())
}

/// `capture_fault`: what is told where memory runs out for a capture.
pub fn tell_no_memory(words: &[&str], out: &mut String) -> Result<(), RowFault> {
    let [] = words else {
        return Err(RowFault::NotARow);
    };
    put_shown(out, "", &CaptureFault::NoMemory)
}

/// `judge END SENT GOT ..`: the verdict on these turns and this end, `tester`, `peer` or `broken`.
pub fn judge_turns(alloc: Global, words: &[&str], out: &mut String) -> Result<(), RowFault> {
    let transcript = transcript_of(alloc, words)?;
    put_shown(out, "", &judge(alloc, &transcript)?)
}

/// `judge_client END SENT GOT ..`: the same where a client is tested.
pub fn judge_client_turns(alloc: Global, words: &[&str], out: &mut String) -> Result<(), RowFault> {
    let transcript = transcript_of(alloc, words)?;
    put_shown(out, "", &judge_end(alloc, Role::Client, &transcript)?)
}

/// `protocol END SENT GOT ..`, `protocol_client ..`: the verdict by the protocol alone where an end of this role is
/// tested.
pub fn judge_by_protocol(
    alloc: Global,
    tested: Role,
    words: &[&str],
    out: &mut String,
) -> Result<(), RowFault> {
    let transcript = transcript_of(alloc, words)?;
    let verdict = judge_with(alloc, tested, Expectation::Protocol, &transcript)?;
    put_shown(out, "", &verdict)
}

/// `written END SENT GOT ..`: the capture in format 1 of these turns and this end.
pub fn write_turns(alloc: Global, words: &[&str], out: &mut String) -> Result<(), RowFault> {
    let transcript = transcript_of(alloc, words)?;
    put_capture(alloc, &transcript, out)
}

/// An end, and turns of two words each.
pub fn transcript_of(alloc: Global, words: &[&str]) -> Result<Transcript, RowFault> {
    let [end, turns @ ..] = words else {
        return Err(RowFault::NotARow);
    };
    let ended = end_of(end)?;
    let turns = turns_of(alloc, turns)?;
    Ok(Transcript { turns, ended })
}

fn end_of(word: &str) -> Result<Ended, RowFault> {
    match word {
        "tester" => Ok(Ended::Tester),
        "peer" => Ok(Ended::Peer),
        "broken" => Ok(Ended::Broken),
        _ => Err(RowFault::NotARow),
    }
}

/// Turns of two words each: what was sent, and what was got.
fn turns_of(alloc: Global, words: &[&str]) -> Result<Sequence<Turn>, RowFault> {
    let mut turns = Vec::new(alloc);
    let mut sent = None;
    for word in words {
        let bytes = bytes_of(alloc, word)?;
        match sent {
            None => sent = Some(bytes),
            Some(before) => {
                turns.push(Turn {
                    sent: before,
                    got: bytes,
                })?;
                sent = None;
            }
        }
    }
    match sent {
        None => Ok(Sequence::from_vec(turns)),
        Some(_) => Err(RowFault::NotARow),
    }
}
