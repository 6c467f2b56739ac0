//! Rows of whole runs of `wst` over devices and over a network in memory.

use crate::books::{book_of, put_book};
use crate::memory_net::MemoryNet;
use crate::memory_network::MemoryConnector;
use std::alloc::Global;
use std::cell::RefCell;
use test_device_calls::{
    asks_for, number_or, pieces_of, put_reads, put_writes, sink_of, source_of, value_of,
};
use test_row_frames::{RowFault, bytes_of, put_hex, put_number};
use ws_frame::{Counting, Watched};
use wst_run::{Site, run, words_are_no_text};

/// `run SETTING .. WORDS INPUT`: the status of a run of these words, what it wrote, how often both devices were asked,
/// and what it told on the fault output, which takes at most `faults-room=` bytes, unless `+nofaults` says that this
/// isn't told; then what came of its network, where `+` and a name asks for it.
pub fn run_command(alloc: Global, words: &[&str], out: &mut String) -> Result<(), RowFault> {
    let [settings @ .., line, input] = words else {
        return Err(RowFault::NotARow);
    };
    let line = command_line(alloc, line)?;
    let notes = RefCell::new(Vec::new(alloc));
    let pieces = pieces_of(alloc, &[*input])?;
    let source = source_of(settings, pieces.as_slice(), &notes)?;
    let sink = sink_of(alloc, settings, &notes)?;
    let mut reader = Watched::new(Counting::new(alloc, source));
    let mut writer = Watched::new(Counting::new(alloc, sink));
    let mut told = sink_of(alloc, &[], &notes)?;
    told.room = number_or(settings, "faults-room=", 1_000_000_000)? as usize;
    let mut faults = Watched::new(told);
    let brought = brought_by(alloc, settings)?;
    let book = book_of(alloc, settings, brought.as_slice())?;
    let net = MemoryNet { book: &book };
    let site = Site {
        alloc,
        net: &net,
        connector: &MemoryConnector { book: &book },
    };
    let exit = run(site, line.as_slice(), &mut reader, &mut writer, &mut faults);
    put_number(out, "status ", u64::from(exit.status()))?;
    put_writes(settings, writer, out)?;
    put_reads(settings, reader, out)?;
    if !asks_for(settings, "+nofaults") {
        put_hex(out, ", faults ", faults.into_inner().taken.as_slice())?;
    }
    put_book(settings, &book, out)
}

/// What each connection of the network brings.
fn brought_by(alloc: Global, settings: &[&str]) -> Result<Vec<u8>, RowFault> {
    match value_of(settings, "net=") {
        Some(word) => Ok(bytes_of(alloc, word)?.into_vec()),
        None => Ok(Vec::new(alloc)),
    }
}

/// The name of the program and these words, which are parted by spaces.
fn command_line(alloc: Global, word: &str) -> Result<Vec<String>, RowFault> {
    let Ok(words) = String::from_utf8(bytes_of(alloc, word)?.into_vec()) else {
        return Err(RowFault::NotARow);
    };
    let mut line = Vec::new(alloc);
    line.push(String::from_str(alloc, "wst")?)?;
    for word in words.as_str().split(' ') {
        line.push(String::from_str(alloc, word)?)?;
    }
    Ok(line)
}

/// `no_words`: the status where memory runs out for the words of a command line, and what is told.
pub fn tell_no_words(alloc: Global, words: &[&str], out: &mut String) -> Result<(), RowFault> {
    let [] = words else {
        return Err(RowFault::NotARow);
    };
    let mut faults = Watched::new(Vec::new(alloc));
    let exit = words_are_no_text(alloc, true, &mut faults);
    put_number(out, "status ", u64::from(exit.status()))?;
    put_hex(out, ", faults ", faults.into_inner().as_slice())
}
