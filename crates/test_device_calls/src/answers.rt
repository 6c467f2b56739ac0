//! What rows answer of their devices.

use crate::devices::{Sink, Source};
use crate::words::asks_for;
use test_row_frames::{RowFault, put, put_hex, put_number};
use ws_frame::{Counting, Watched};

/// `, N reads` or `, N writes`, `failed` behind it where one has failed, and with `+asked` the length that each was
/// asked for.
pub fn put_calls(
    words: &[&str],
    what: &str,
    lengths: &[usize],
    has_failed: bool,
    out: &mut String,
) -> Result<(), RowFault> {
    put_number(out, ", ", lengths.len() as u64)?;
    put(out, " ")?;
    put(out, what)?;
    put(out, if has_failed { " failed" } else { "" })?;
    if asks_for(words, "+asked") {
        put(out, " of")?;
        for length in lengths {
            put_number(out, " ", *length as u64)?;
        }
    }
    Ok(())
}

/// How often a reader was asked, unless `+noreads` says that this isn't told.
pub fn put_reads(
    words: &[&str],
    reader: Watched<Counting<Source<'_>>>,
    out: &mut String,
) -> Result<(), RowFault> {
    if asks_for(words, "+noreads") {
        return Ok(());
    }
    let has_failed = reader.failed();
    let device = reader.into_inner();
    put_calls(words, "reads", device.lengths.as_slice(), has_failed, out)
}

/// What was written to a writer, and how often it was asked, unless `+nowrites` says that this isn't told, or `+noout`
/// neither; with `+flushes` how often it was flushed.
pub fn put_writes(
    words: &[&str],
    writer: Watched<Counting<Sink<'_>>>,
    out: &mut String,
) -> Result<(), RowFault> {
    if asks_for(words, "+noout") {
        return Ok(());
    }
    let has_failed = writer.failed();
    let device = writer.into_inner();
    put_hex(out, ", out ", device.inner.taken.as_slice())?;
    if asks_for(words, "+nowrites") {
        return Ok(());
    }
    put_calls(words, "writes", device.lengths.as_slice(), has_failed, out)?;
    if asks_for(words, "+flushes") {
        put_number(out, ", ", device.flushes)?;
        put(out, " flushes")?;
    }
    Ok(())
}
