//! Rows of a connection as a stream: what each of its calls tells, and a machine that is run over it.

ghost use Rattle.std.specs.Prelude.{◌<◌, length};

use crate::devices::{Notes, Sink, Source, sink_of, source_of};
use crate::words::{pieces_of, value_of};
use std::alloc::Global;
use std::cell::RefCell;
use test_row_frames::{RowFault, bytes_of, number_of, put, put_hex, put_number};
use ws_connection::Connection;
use ws_machines::{Exchange, Machine, ReadOutcome, Stream, WriteOutcome, run_machine};

/// How many bytes a connection may be read of.
const BUDGET: u64 = 1_000_000;

/// `stream SETTING .. PIECE .. ; CALL ..`, of which a call is `read=NUMBER` of at most 16 bytes, `write=BYTES`, `end`
/// or `begin`, a wait begins: what a connection that brings these pieces tells of each; then what was written, and the
/// calls of both devices.
pub fn call_stream(alloc: Global, words: &[&str], out: &mut String) -> Result<(), RowFault> {
    let mut parts = words.split(|word| *word == ";");
    let (Some(settings), Some(calls)) = (parts.next(), parts.next()) else {
        return Err(RowFault::NotARow);
    };
    let notes = RefCell::new(Vec::new(alloc));
    let pieces = pieces_of(alloc, settings)?;
    let source = source_of(settings, pieces.as_slice(), &notes)?;
    let sink = sink_of(alloc, settings, &notes)?;
    let mut connection = Connection::new(source, sink, BUDGET);
    for call in calls {
        call_once(alloc, &mut connection, call, out)?;
    }
    put_devices(connection, &notes, out)
}

/// One call.
fn call_once<S: Stream>(
    alloc: Global,
    stream: &mut S,
    call: &str,
    out: &mut String,
) -> Result<(), RowFault> {
    if call == "end" {
        stream.end_direction();
        put(out, "end, ")?;
        return Ok(());
    }
    if call == "begin" {
        stream.begin_wait();
        return Ok(());
    }
    if let Some(word) = value_of(&[call], "write=") {
        let bytes = bytes_of(alloc, word)?;
        return write_once(stream, bytes.as_slice(), out);
    }
    match value_of(&[call], "read=") {
        Some(word) => read_once(stream, number_of(word)? as usize, out),
        None => Err(RowFault::NotARow),
    }
}

/// One read.
fn read_once<S: Stream>(stream: &mut S, len: usize, out: &mut String) -> Result<(), RowFault> {
    let mut room = [0; 16];
    if len == 0 || len > 16 {
        return Err(RowFault::NotARow);
    }
    match stream.read(&mut room[..len]) {
        ReadOutcome::Came(count) => {
            put_hex(out, "came ", &room[..count.min(16)])?;
            put(out, ", ")?;
        }
        ReadOutcome::Ended => put(out, "ended, ")?,
        ReadOutcome::Failed => put(out, "read failed, ")?,
        ReadOutcome::NothingCame => put(out, "nothing came, ")?,
        ReadOutcome::DeadlinePassed(waited) => put(out, late_word(waited))?,
    }
    Ok(())
}

/// One write.
fn write_once<S: Stream>(stream: &mut S, bytes: &[u8], out: &mut String) -> Result<(), RowFault> {
    if bytes.is_empty() {
        return Err(RowFault::NotARow);
    }
    match stream.write(bytes) {
        WriteOutcome::Taken(count) => {
            put_number(out, "took ", count as u64)?;
            put(out, ", ")?;
        }
        WriteOutcome::Failed => put(out, "write failed, ")?,
        WriteOutcome::DeadlinePassed(waited) => put(out, late_word(waited))?,
    }
    Ok(())
}

/// What is put where the deadline has passed.
fn late_word(waited: bool) -> &'static str {
    if waited {
        "too late and waited, "
    } else {
        "too late, "
    }
}

/// `exchange SETTING .. PIECE .. ; MOST BYTES`: what comes for these bytes, at most so many, of a connection that
/// brings these pieces; then what was written, and the calls of both devices.
pub fn run_exchange(alloc: Global, words: &[&str], out: &mut String) -> Result<(), RowFault> {
    let mut parts = words.split(|word| *word == ";");
    let (Some(settings), Some([most, bytes])) = (parts.next(), parts.next()) else {
        return Err(RowFault::NotARow);
    };
    let most = number_of(most)? as usize;
    if most == 0 {
        return Err(RowFault::NotARow);
    }
    let notes = RefCell::new(Vec::new(alloc));
    let pieces = pieces_of(alloc, settings)?;
    let source = source_of(settings, pieces.as_slice(), &notes)?;
    let sink = sink_of(alloc, settings, &notes)?;
    let mut connection = Connection::new(source, sink, BUDGET);
    let mut exchange = Exchange::new(alloc, bytes_of(alloc, bytes)?.into_vec(), most);
    let mut room = [0; 8];
    run_machine(&mut exchange, &mut connection, &mut room)?;
    let came = exchange.into_end()?;
    put_hex(out, "came ", came.as_slice())?;
    put(out, ", ")?;
    put_devices(connection, &notes, out)
}

/// What was written, and the calls of both devices.
pub fn put_devices(
    connection: Connection<Source<'_>, Sink<'_>>,
    notes: &Notes,
    out: &mut String,
) -> Result<(), RowFault> {
    let (_reader, writer) = connection.into_parts();
    match notes.try_borrow() {
        Ok(letters) => {
            put_hex(out, "out ", writer.taken.as_slice())?;
            put_hex(out, ", calls ", letters.as_slice())?;
        }
        Err(_) => return Err(RowFault::NotARow),
    }
    Ok(())
}
