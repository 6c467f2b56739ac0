//! Rows of clients that are admitted, and of scripts that are run over their connections.

ghost use Rattle.std.specs.Prelude.{IfOk};
ghost use Rattle.ws_connection.specs.Connections.{IsReady};
ghost use Rattle.ws_scripts.specs.Scripts.{CanBeRun};

use crate::devices::{Sink, Source, sink_of, source_of};
use crate::probes::{ended_word, expectation_of};
use crate::stream_calls::put_devices;
use crate::words::{asks_for, number_or, pieces_of, value_of};
use std::alloc::Global;
use std::cell::RefCell;
use test_row_frames::{RowFault, bytes_of, put, put_hex, put_shown};
use ws_connection::{Admission, Connection, ScriptRun, admit, protocols_of, run_script};
use ws_scripts::read_script;
use ws_suite::{Case, Transcript};
use ws_wire::Role;

/// More bytes than any client here sends.
const BUDGET: u64 = 100_000;

/// `admit SETTING .. PIECE ..`, with `script=` for the text of a script, `known=` for subprotocols joined by commas,
/// `budget=`, `+timeouts` where reads can wait in vain, and `+protocol` where no echo is expected; the pieces are what
/// the client sends. What came of its request; of one that is accepted its path, and what is recorded of the script;
/// then what was written, and the calls of both devices.
pub fn admit_client(alloc: Global, words: &[&str], out: &mut String) -> Result<(), RowFault> {
    let Some(known) = protocols_of(alloc, value_of(words, "known="))? else {
        return Err(RowFault::NotARow);
    };
    let notes = RefCell::new(Vec::new(alloc));
    let pieces = pieces_of(alloc, words)?;
    let source = source_of(words, pieces.as_slice(), &notes)?;
    let sink = sink_of(alloc, words, &notes)?;
    let mut connection = Connection::new(source, sink, number_or(words, "budget=", BUDGET)?);
    match admit(alloc, known.as_slice(), &mut connection)? {
        Admission::Accepted(request) => {
            put_hex(out, "accepted ", request.path.as_slice())?;
            put(out, ", ")?;
            run_behind(alloc, words, request.behind, &mut connection, out)?;
        }
        Admission::Refused(fault) => {
            put_shown(out, "refused ", &fault)?;
            put(out, ", ")?;
        }
        Admission::Lost => put(out, "lost, ")?,
    }
    put_devices(connection, &notes, out)
}

/// Runs the script of the row against the client, behind what came with its head.
fn run_behind(
    alloc: Global,
    words: &[&str],
    first: Vec<u8>,
    connection: &mut Connection<Source<'_>, Sink<'_>>,
    out: &mut String,
) -> Result<(), RowFault>
    requires { IsReady connection.old }
{
    let script = script_of(alloc, words)?;
    let plan = ScriptRun {
        tested: Role::Client,
        expected: expectation_of(words),
        key: None,
        has_timeouts: asks_for(words, "+timeouts"),
    };
    let transcript = run_script(alloc, &script, plan, first, connection)?;
    put_turns(&transcript, out)
}

/// The script that the row tells.
fn script_of(alloc: Global, words: &[&str]) -> Result<Case, RowFault>
    ensures { IfOk result (λ script. CanBeRun script) }
{
    let text = bytes_of(alloc, value_of(words, "script=").unwrap_or("-"))?;
    match read_script(alloc, text.as_slice()) {
        Ok(script) => Ok(script),
        Err(_) => Err(RowFault::NotARow),
    }
}

/// How a run ended, and the bytes of each turn.
fn put_turns(transcript: &Transcript, out: &mut String) -> Result<(), RowFault> {
    put(out, ended_word(transcript.ended))?;
    for turn in transcript.turns.as_slice() {
        put_hex(out, " > ", turn.sent.as_slice())?;
        put_hex(out, " < ", turn.got.as_slice())?;
    }
    put(out, ", ")
}
