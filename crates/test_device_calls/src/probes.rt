//! Rows of cases that are run against a server in memory.

ghost use Rattle.std.specs.Prelude.{IfOk};
ghost use Rattle.ws_scripts.specs.Scripts.{CanBeRun};

use crate::devices::{Notes, Sink, Source, sink_of, source_of};
use crate::words::{asks_for, number_or, pieces_of, value_of};
use std::alloc::Global;
use std::cell::RefCell;
use test_row_frames::{RowFault, put, put_hex, put_number, put_shown};
use ws_base::Sequence;
use ws_connection::{Asked, Connection, NONCE, Probe, UpgradeRequest, probe, protocols_of};
use ws_suite::{Case, Chop, Ended, Expectation, Transcript, case, judge_with};
use ws_upgrade::request_for;
use ws_wire::Role;

/// The host that is asked.
const HOST: &[u8] = b"localhost:9001";

/// The key of each frame.
const KEY: [u8; 4] = [0x37, 0xfa, 0x21, 0x3d];

/// More bytes than any server here sends.
const BUDGET: u64 = 100_000;

/// `probe SETTING .. PIECE ..`, with `case=`, which is without steps where it is missing, `budget=`, `offers=` for
/// subprotocols joined by commas, `+timeouts` where reads can wait in vain, and `+protocol` where no echo is expected;
/// the pieces are what the server sends: what came of it, how often both devices were asked, and how many bytes were
/// written and are left to be read; with `+verdict` the verdict, with `+notes` their calls, and with `+written` what
/// was written.
pub fn probe_server(alloc: Global, words: &[&str], out: &mut String) -> Result<(), RowFault> {
    let Some(offers) = protocols_of(alloc, value_of(words, "offers="))? else {
        return Err(RowFault::NotARow);
    };
    let notes = RefCell::new(Vec::new(alloc));
    let pieces = pieces_of(alloc, words)?;
    let source = source_of(words, pieces.as_slice(), &notes)?;
    let sink = sink_of(alloc, words, &notes)?;
    let budget = number_or(words, "budget=", BUDGET)?;
    let mut connection = Connection::new(source, sink, budget);
    let case = case_of(alloc, words)?;
    // What is asked for can be asked for.
    let Ok(_text) = request_for(alloc, HOST, b"/", NONCE, offers.as_slice(), &[]) else {
        return Err(RowFault::NotARow);
    };
    let asked = Asked {
        request: UpgradeRequest {
            host: HOST,
            path: b"/",
            protocols: offers.as_slice(),
            headers: &[],
        },
        key: KEY,
        expected: expectation_of(words),
        has_timeouts: asks_for(words, "+timeouts"),
    };
    let ran = probe(alloc, &case, &asked, &mut connection)?;
    put_probe(alloc, words, &ran, out)?;
    let (reader, writer) = connection.into_parts();
    put_parts(words, &reader, &writer, out)?;
    put_notes(words, &notes, out)
}

/// What is expected of the tested end: an echo, or by `+protocol` what RFC 6455 orders of any end.
pub fn expectation_of(words: &[&str]) -> Expectation {
    if asks_for(words, "+protocol") {
        Expectation::Protocol
    } else {
        Expectation::Echo
    }
}

/// The case of this name, or one without steps.
fn case_of(alloc: Global, words: &[&str]) -> Result<Case, RowFault>
    ensures { IfOk result (λ case. CanBeRun case) }
{
    let Some(name) = value_of(words, "case=") else {
        return Ok(no_steps(alloc));
    };
    match case(alloc, name)? {
        Some(case) => Ok(case),
        None => Err(RowFault::NotARow),
    }
}

/// A script without steps.
fn no_steps(alloc: Global) -> Case
    ensures { CanBeRun result }
{
    Case {
        id: String::new(alloc),
        steps: Sequence::new(alloc),
        chop: Chop::Whole,
    }
}

/// What came of a connection.
fn put_probe(
    alloc: Global,
    words: &[&str],
    probe: &Probe,
    out: &mut String,
) -> Result<(), RowFault> {
    match probe {
        Probe::Ran(transcript) => {
            if asks_for(words, "+verdict") {
                let expected = expectation_of(words);
                let verdict = judge_with(alloc, Role::Server, expected, transcript)?;
                put_shown(out, "", &verdict)?;
                put(out, ", ")?;
            }
            put_transcript(alloc, transcript, out)
        }
        Probe::Refused(refusal) => put_shown(out, "refused ", &refusal.fault),
        Probe::NoConnection => put(out, "no connection"),
    }
}

/// How a script that was run ended, how many turns it had, and what all of them sent and got.
fn put_transcript(
    alloc: Global,
    transcript: &Transcript,
    out: &mut String,
) -> Result<(), RowFault> {
    let (mut sent, mut got) = (Vec::new(alloc), Vec::new(alloc));
    for turn in transcript.turns.as_slice() {
        sent.extend_from_slice(turn.sent.as_slice())?;
        got.extend_from_slice(turn.got.as_slice())?;
    }
    put(out, ended_word(transcript.ended))?;
    put_number(out, ", ", transcript.turns.len() as u64)?;
    put_hex(out, " turns, sent ", sent.as_slice())?;
    put_hex(out, ", got ", got.as_slice())
}

/// How a script that was run ended.
pub fn ended_word(ended: Ended) -> &'static str {
    match ended {
        Ended::Tester => "tester",
        Ended::Peer => "peer",
        Ended::Broken => "broken",
    }
}

/// What is left of a connection.
fn put_parts(
    words: &[&str],
    reader: &Source<'_>,
    writer: &Sink<'_>,
    out: &mut String,
) -> Result<(), RowFault> {
    put_number(out, ", ", writer.taken.len() as u64)?;
    put_number(out, " written, ", writer.calls)?;
    put_number(out, " writes, ", reader.calls)?;
    put_number(out, " reads, ", reader.left() as u64)?;
    put(out, " left")?;
    if asks_for(words, "+written") {
        put_hex(out, ", out ", writer.taken.as_slice())?;
    }
    Ok(())
}

/// The calls of both devices.
fn put_notes(words: &[&str], notes: &Notes, out: &mut String) -> Result<(), RowFault> {
    if asks_for(words, "+notes") {
        match notes.try_borrow() {
            Ok(letters) => put_hex(out, ", calls ", letters.as_slice())?,
            Err(_) => return Err(RowFault::NotARow),
        }
    }
    Ok(())
}
