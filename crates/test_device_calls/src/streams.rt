//! Rows of streams over devices: an input that is read, frames that are shown, and an echo that is driven.

use crate::answers::{put_reads, put_writes};
use crate::devices::{sink_of, source_of};
use crate::words::{limits, number_or, pieces_of, sender_of, value_of};
use std::alloc::Global;
use std::cell::RefCell;
use test_row_frames::{RowFault, bytes_of, number_of, put, put_hex, put_number, put_shown};
use ws_frame::{Counting, InputEnd, ShowEnd, Watched, read_input, show};
use ws_peer::{DriveEnd, drive};
use ws_session::Echo;
use ws_wire::Role;

/// A budget that no stream here uses up.
const BUDGET: u64 = 1_000_000;

/// `read_input SETTING .. BYTES`, with `budget=`: how the reading ended, what was read, and how often it was asked.
pub fn read_all(alloc: Global, words: &[&str], out: &mut String) -> Result<(), RowFault> {
    let notes = RefCell::new(Vec::new(alloc));
    let pieces = pieces_of(alloc, words)?;
    let source = source_of(words, pieces.as_slice(), &notes)?;
    let mut reader = Watched::new(Counting::new(alloc, source));
    let budget = match value_of(words, "budget=") {
        Some(word) => Some(number_of(word)?),
        None => None,
    };
    let (input, end) = read_input(alloc, &mut reader, budget);
    let end = match end {
        InputEnd::End => "end",
        InputEnd::Budget => "budget",
        InputEnd::Fault => "fault",
        InputEnd::NoMemory => "no memory",
    };
    put(out, end)?;
    put_hex(out, " ", input.as_slice())?;
    put_reads(words, reader, out)
}

/// `show SETTING .. BYTES`, with `from=` and `budget=`: how it ended, what was written, and how often both devices were
/// asked.
pub fn show_frames(alloc: Global, words: &[&str], out: &mut String) -> Result<(), RowFault> {
    let notes = RefCell::new(Vec::new(alloc));
    let pieces = pieces_of(alloc, words)?;
    let source = source_of(words, pieces.as_slice(), &notes)?;
    let sink = sink_of(alloc, words, &notes)?;
    let mut reader = Watched::new(Counting::new(alloc, source));
    let mut writer = Watched::new(Counting::new(alloc, sink));
    let budget = number_or(words, "budget=", BUDGET)?;
    let end = show(&mut reader, &mut writer, sender_of(words), budget);
    put_show_end(end, out)?;
    put_writes(words, writer, out)?;
    put_reads(words, reader, out)
}

/// How `show` ended.
fn put_show_end(end: ShowEnd, out: &mut String) -> Result<(), RowFault> {
    match end {
        ShowEnd::Done => put(out, "done")?,
        ShowEnd::CutAt(place) => put_number(out, "cut at ", place)?,
        ShowEnd::BadLengthAt(place) => put_number(out, "bad length at ", place)?,
        ShowEnd::Budget => put(out, "budget")?,
        ShowEnd::ReadFault => put(out, "read fault")?,
        ShowEnd::WriteFault => put(out, "write fault")?,
        ShowEnd::NoMemory => put(out, "no memory")?,
    }
    Ok(())
}

/// `drive SETTING .. FIRST BYTES`, with `budget=`: how an echo ended, a server's, that is fed the first bytes before
/// the others are read; what was written, and how often both devices were asked.
pub fn drive_echo(alloc: Global, words: &[&str], out: &mut String) -> Result<(), RowFault> {
    let [settings @ .., first, bytes] = words else {
        return Err(RowFault::NotARow);
    };
    let first = bytes_of(alloc, first)?;
    let notes = RefCell::new(Vec::new(alloc));
    let pieces = pieces_of(alloc, &[*bytes])?;
    let source = source_of(settings, pieces.as_slice(), &notes)?;
    let sink = sink_of(alloc, settings, &notes)?;
    let mut reader = Watched::new(Counting::new(alloc, source));
    let mut writer = Watched::new(Counting::new(alloc, sink));
    let mut echo = Echo::new(alloc, limits()?, Role::Server);
    let budget = number_or(settings, "budget=", BUDGET)?;
    let end = drive(
        alloc,
        first.as_slice(),
        &mut reader,
        &mut writer,
        &mut echo,
        [0; 4],
        budget,
    );
    put_drive_end(end, out)?;
    put_writes(settings, writer, out)?;
    put_reads(settings, reader, out)
}

/// How an echo was driven to its end.
fn put_drive_end(end: DriveEnd, out: &mut String) -> Result<(), RowFault> {
    match end {
        DriveEnd::Done(status) => put_shown(out, "", &status)?,
        DriveEnd::ReadFault => put(out, "read fault")?,
        DriveEnd::WriteFault => put(out, "write fault")?,
        DriveEnd::Budget => put(out, "budget")?,
        DriveEnd::NoMemory => put(out, "no memory")?,
    }
    Ok(())
}
