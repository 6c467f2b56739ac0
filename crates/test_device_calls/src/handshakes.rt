//! Rows of heads that are read, and of connections that are served.

use crate::answers::{put_reads, put_writes};
use crate::devices::{sink_of, source_of};
use crate::words::{limits, number_or, pieces_of, value_of};
use std::alloc::Global;
use std::cell::RefCell;
use test_row_frames::{RowFault, put, put_number, put_shown};
use ws_connection::{
    HeadEnd, HeadRoom, RequestDecision, RequestHead, protocols_of, read_head, serve_one,
};
use ws_frame::{Counting, Watched};

/// A budget that no stream here uses up.
const BUDGET: u64 = 1_000_000;

/// `read_head SETTING .. BYTES`: what is decided of the head of a request, how many bytes were read, and how often the
/// reader was asked.
pub fn read_a_head(alloc: Global, words: &[&str], out: &mut String) -> Result<(), RowFault> {
    let notes = RefCell::new(Vec::new(alloc));
    let pieces = pieces_of(alloc, words)?;
    let source = source_of(words, pieces.as_slice(), &notes)?;
    let mut reader = Watched::new(Counting::new(alloc, source));
    let mut room = HeadRoom::new();
    match read_head(&mut reader, &mut room, &RequestHead { known: &[] }) {
        HeadEnd::Decided(RequestDecision::Accepted { used, .. }) => {
            put_number(out, "accepted ", used as u64)?;
        }
        HeadEnd::Decided(RequestDecision::Refused(fault)) => put_shown(out, "refused ", &fault)?,
        HeadEnd::Cut => put(out, "cut")?,
        HeadEnd::ReadFault => put(out, "read fault")?,
    }
    put_number(out, ", ", room.as_slice().len() as u64)?;
    put(out, " bytes")?;
    put_reads(words, reader, out)
}

/// `serve SETTING .. BYTES`, with `budget=`, and `known=` for subprotocols joined by commas: what came of a connection,
/// what was written, and how often both devices were asked.
pub fn serve_connection(alloc: Global, words: &[&str], out: &mut String) -> Result<(), RowFault> {
    let Some(known) = protocols_of(alloc, value_of(words, "known="))? else {
        return Err(RowFault::NotARow);
    };
    let notes = RefCell::new(Vec::new(alloc));
    let pieces = pieces_of(alloc, words)?;
    let source = source_of(words, pieces.as_slice(), &notes)?;
    let sink = sink_of(alloc, words, &notes)?;
    let mut reader = Watched::new(Counting::new(alloc, source));
    let mut writer = Watched::new(Counting::new(alloc, sink));
    let budget = number_or(words, "budget=", BUDGET)?;
    let served = serve_one(
        alloc,
        &mut reader,
        &mut writer,
        limits()?,
        budget,
        known.as_slice(),
    );
    put_shown(out, "", &served)?;
    put_writes(words, writer, out)?;
    put_reads(words, reader, out)
}
