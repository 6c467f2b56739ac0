//! Rows of taps over devices that fail.

use crate::devices::{Notes, Sink, Source, sink_of, source_of};
use crate::words::{asks_for, failing_of, value_of};
use std::alloc::Global;
use std::cell::RefCell;
use test_row_frames::{RowFault, bytes_of, put, put_hex, put_number, put_shown};
use ws_frame::{DataStyle, Failing, Role, Watched};
use ws_tap::{TapEnd, TapSide, Tapped, Wakes, tap_ends};

/// Nothing is waited for.
#[derive(Drop)]
struct NoWait {}

impl Wakes for NoWait {
    fn wait(&mut self) -> bool {
        false
    }
}

/// `tap SETTING .. CLIENT SERVER`: the two ends send these bytes. `client=` and `server=` say which reads of them fail,
/// `to-client=` and `to-server=` which writes to them, `lines=` which writes of the lines, `refuses=client` or `server`
/// to which of them the direction can't be ended, and `+stopped` that neither takes a byte yet. How the tap ended; how
/// many bytes of the client are left, unless `+noleft` says that this isn't told; and what was written to the server,
/// to the client, and as lines, or whether the bytes of `all-to-server=`, `all-to-client=` and `all-lines=` begin with
/// it; with `+ends` whether the directions to the server and to the client were ended. Payloads are shown by `+text` or
/// `+all` in that style.
pub fn tap_devices(alloc: Global, words: &[&str], out: &mut String) -> Result<(), RowFault> {
    let [settings @ .., client, server] = words else {
        return Err(RowFault::NotARow);
    };
    let notes = RefCell::new(Vec::new(alloc));
    let mut sent = Vec::new(alloc);
    sent.push(bytes_of(alloc, client)?.into_vec())?;
    sent.push(bytes_of(alloc, server)?.into_vec())?;
    let (client, server) = sent.as_slice().split_at(1);
    let mut client = TapSide {
        reader: reader_of(settings, "client=", client, &notes)?,
        writer: writer_to(alloc, settings, "to-client=", "client", &notes)?,
    };
    let mut server = TapSide {
        reader: reader_of(settings, "server=", server, &notes)?,
        writer: writer_to(alloc, settings, "to-server=", "server", &notes)?,
    };
    let mut lines = sink_of(alloc, settings, &notes)?;
    lines.writes = failing_of(settings, "lines=")?;
    let mut output = Watched::new(lines);
    let tapped = Tapped {
        number: 1,
        style: style_of(settings),
    };
    let ended = tap_ends(
        alloc,
        tapped,
        &mut client,
        &mut server,
        &mut NoWait {},
        &mut output,
    );
    put(out, end_word(ended.ok()))?;
    if !asks_for(settings, "+noleft") {
        put_number(out, ", ", client.reader.left() as u64)?;
        put(out, " left")?;
    }
    let all = [
        value_of(settings, "all-to-server="),
        value_of(settings, "all-to-client="),
        value_of(settings, "all-lines="),
    ];
    put_taken(alloc, "to-server", all[0], &server.writer, out)?;
    put_taken(alloc, "to-client", all[1], &client.writer, out)?;
    put_taken(alloc, "lines", all[2], &output.into_inner(), out)?;
    if asks_for(settings, "+ends") {
        put_shown(out, ", ended ", &server.writer.is_ended)?;
        put_shown(out, " ", &client.writer.is_ended)?;
    }
    Ok(())
}

/// How payloads are shown: by `+text`, by `+all`, or by their first bytes.
fn style_of(settings: &[&str]) -> DataStyle {
    if asks_for(settings, "+text") {
        DataStyle::Text
    } else if asks_for(settings, "+all") {
        DataStyle::All
    } else {
        DataStyle::Hex
    }
}

/// The reader of an end, whose reads fail as the setting of this name says.
fn reader_of<'a>(
    settings: &[&str],
    name: &str,
    pieces: &'a [Vec<u8>],
    notes: &'a Notes,
) -> Result<Source<'a>, RowFault> {
    let mut source = source_of(settings, pieces, notes)?;
    source.reads = failing_of(settings, name)?;
    Ok(source)
}

/// The writer to an end, whose writes fail as the setting of this name says.
fn writer_to<'a>(
    alloc: Global,
    settings: &[&str],
    name: &str,
    end: &str,
    notes: &'a Notes,
) -> Result<Sink<'a>, RowFault> {
    let mut sink = sink_of(alloc, settings, notes)?;
    sink.writes = failing_of(settings, name)?;
    sink.refuses = value_of(settings, "refuses=") == Some(end);
    if asks_for(settings, "+stopped") {
        sink.waits = Failing::From(1);
    }
    Ok(sink)
}

/// How a tap ended, or that its output has failed.
fn end_word<'a>(end: Option<TapEnd>) -> &'a str {
    match end {
        Some(TapEnd::Ended(Role::Client)) => "client",
        Some(TapEnd::Ended(Role::Server)) => "server",
        Some(TapEnd::Broken) => "broken",
        None => "output failed",
    }
}

/// What was written to a writer, or where the bytes are given that it may begin: whether it does; and whether its
/// direction was ended.
fn put_taken(
    alloc: Global,
    name: &str,
    all: Option<&str>,
    writer: &Sink<'_>,
    out: &mut String,
) -> Result<(), RowFault> {
    let taken = writer.taken.as_slice();
    put(out, ", ")?;
    put(out, name)?;
    put(out, " ")?;
    match all {
        Some(all) => {
            let is_front = bytes_of(alloc, all)?.as_slice().starts_with(taken);
            put(out, if is_front { "front" } else { "other" })
        }
        None => {
            put_hex(out, "", taken)?;
            put(out, if writer.is_ended { " ended" } else { "" })
        }
    }
}
