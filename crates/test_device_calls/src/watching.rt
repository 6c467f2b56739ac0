//! Rows of watched devices, call by call, and of texts that are written whole.

use crate::answers::{put_reads, put_writes};
use crate::devices::{Sink, Source, sink_of, source_of};
use crate::words::pieces_of;
use std::alloc::Global;
use std::cell::RefCell;
use std::io;
use std::io::Read;
use test_row_frames::{RowFault, bytes_of, number_of, put, put_hex, put_number};
use ws_frame::{Counting, Watched, write_whole};

/// `watched_reads SETTING .. BYTES ; LENGTH ..`: what a read of each length, at most 16, answers, and whether a read
/// has failed by then; then how often the device was asked.
pub fn read_watched(alloc: Global, words: &[&str], out: &mut String) -> Result<(), RowFault> {
    let mut parts = words.split(|word| *word == ";");
    let (Some(settings), Some(lengths)) = (parts.next(), parts.next()) else {
        return Err(RowFault::NotARow);
    };
    let notes = RefCell::new(Vec::new(alloc));
    let pieces = pieces_of(alloc, settings)?;
    let source = source_of(settings, pieces.as_slice(), &notes)?;
    let mut reader = Watched::new(Counting::new(alloc, source));
    for length in lengths {
        read_once(&mut reader, number_of(length)? as usize, out)?;
    }
    put_reads(settings, reader, out)
}

/// One read.
fn read_once(
    reader: &mut Watched<Counting<Source<'_>>>,
    length: usize,
    out: &mut String,
) -> Result<(), RowFault> {
    let mut room = [0; 16];
    let length = length.min(16);
    match reader.read(&mut room[..length]) {
        Ok(count) => {
            put_hex(out, "", &room[..count.min(16)])?;
            put(out, " ")?;
        }
        Err(_) => put(out, "err ")?,
    }
    put_state(reader.failed(), out)
}

/// Whether a call has failed by now.
fn put_state(has_failed: bool, out: &mut String) -> Result<(), RowFault> {
    put(out, if has_failed { "failed " } else { "fine " })?;
    Ok(())
}

/// `watched_writes SETTING .. ; CALL ..`: how many bytes a write of each of these bytes takes, and what each `flush`
/// answers, and whether a call has failed by then; then what was written, and how often the device was asked, with
/// `+flushes` also to flush.
pub fn write_watched(alloc: Global, words: &[&str], out: &mut String) -> Result<(), RowFault> {
    let mut parts = words.split(|word| *word == ";");
    let (Some(settings), Some(calls)) = (parts.next(), parts.next()) else {
        return Err(RowFault::NotARow);
    };
    let notes = RefCell::new(Vec::new(alloc));
    let sink = sink_of(alloc, settings, &notes)?;
    let mut writer = Watched::new(Counting::new(alloc, sink));
    for call in calls {
        let answer = call_once(alloc, &mut writer, call)?;
        match answer {
            Ok(count) => {
                put_number(out, "", count as u64)?;
                put(out, " ")?;
            }
            Err(_) => put(out, "err ")?,
        }
        put_state(writer.failed(), out)?;
    }
    put_writes(settings, writer, out)
}

/// A write, or a flush, which moves no bytes.
fn call_once(
    alloc: Global,
    writer: &mut Watched<Counting<Sink<'_>>>,
    call: &str,
) -> Result<io::Result<usize>, RowFault> {
    use std::io::Write;

    if call == "flush" {
        return Ok(writer.flush().map(|()| 0));
    }
    let bytes = bytes_of(alloc, call)?;
    Ok(writer.write(bytes.as_slice()))
}

/// `write_whole SETTING .. ; TEXT ..`: whether each text is `done` or `stopped`; then what was written, and how often
/// the device was asked.
pub fn write_texts(alloc: Global, words: &[&str], out: &mut String) -> Result<(), RowFault> {
    let mut parts = words.split(|word| *word == ";");
    let (Some(settings), Some(texts)) = (parts.next(), parts.next()) else {
        return Err(RowFault::NotARow);
    };
    let notes = RefCell::new(Vec::new(alloc));
    let sink = sink_of(alloc, settings, &notes)?;
    let mut writer = Watched::new(Counting::new(alloc, sink));
    for text in texts {
        let is_done = write_whole(&mut writer, bytes_of(alloc, text)?.as_slice()).is_ok();
        put(out, if is_done { "done " } else { "stopped " })?;
    }
    put_writes(settings, writer, out)
}
