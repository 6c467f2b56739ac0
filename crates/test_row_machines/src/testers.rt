//! Rows of the tester of a script as a machine: what it is told, what it wants then, and what is recorded.

ghost use Rattle.std.specs.Prelude.{[], IfOk};
ghost use Rattle.ws_machines.specs.Machines.{HasNext};
ghost use Rattle.ws_tester.specs.Following.{WasTold};
ghost use Rattle.ws_tester.specs.RunStates.{wanted_in};

use crate::machine_words::{play, put_unread};
use std::alloc::Global;
use test_row_frames::{RowFault, bytes_of, expectation_of, number_of, put, put_hex, role_of};
use ws_base::Sequence;
use ws_suite::{CutTurn, Ended, Transcript, read_script, turns_with};
use ws_tester::{TestPlan, Tester};
use ws_wire::Role;

/// `tester ROLE EXPECTATION WAITS BUDGET SCRIPT FIRST WORD ..`: a script is run against an end of this role, of whom
/// this is expected, where waits can be in vain (`waits`) or can't (`endless`), at most so many bytes are read, and
/// `FIRST` came with the head. The frames to a server are masked with a key of zeros. What the words tell and ask says
/// `machine_words.rt`. At the end stands how the run ended with the bytes of each turn behind `>` and `<`, or `goes
/// on`, and how many bytes weren't read.
pub fn tell_tester(alloc: Global, words: &[&str], out: &mut String) -> Result<(), RowFault> {
    let [role, expected, waits, budget, text, first, words @ ..] = words else {
        return Err(RowFault::NotARow);
    };
    let plan = TestPlan {
        tested: role_of(role)?,
        expected: expectation_of(expected)?,
        has_timeouts: can_wait_in_vain(waits)?,
    };
    let tester = tester_of(alloc, plan, text, first, number_of(budget)?)?;
    let (end, unread) = play(alloc, tester, words, out)?;
    put_record(end, out)?;
    put_unread(out, unread)
}

/// Whether waits can be in vain.
fn can_wait_in_vain(word: &str) -> Result<bool, RowFault> {
    match word {
        "waits" => Ok(true),
        "endless" => Ok(false),
        _ => Err(RowFault::NotARow),
    }
}

/// A tester of the script that the text tells.
pub fn tester_of(
    alloc: Global,
    plan: TestPlan,
    text: &str,
    first: &str,
    budget: u64,
) -> Result<Tester, RowFault>
    ensures { IfOk result (λ tester. WasTold tester tester [] × HasNext (wanted_in tester.run)) }
{
    let text = bytes_of(alloc, text)?;
    let Ok(case) = read_script(alloc, text.as_slice()) else {
        return Err(RowFault::NotARow);
    };
    let first = bytes_of(alloc, first)?.into_vec();
    let turns: Sequence<CutTurn> = turns_with(alloc, &case, key_for(plan.tested))?;
    let tester = Tester::new(alloc, plan, turns, first, budget)?;
    Ok(tester)
}

/// The key of frames to an end of this role: payloads stand in them as they are.
fn key_for(tested: Role) -> Option<[u8; 4]> {
    match tested {
        Role::Server => Some([0, 0, 0, 0]),
        Role::Client => None,
    }
}

/// What is recorded, where it is done.
fn put_record(end: Option<Transcript>, out: &mut String) -> Result<(), RowFault> {
    match end {
        Some(transcript) => put_transcript(&transcript, out),
        None => put(out, "goes on"),
    }
}

/// How a run ended, and the bytes of each turn.
pub fn put_transcript(transcript: &Transcript, out: &mut String) -> Result<(), RowFault> {
    put(out, end_word(transcript.ended))?;
    for turn in transcript.turns.as_slice() {
        put_hex(out, " > ", turn.sent.as_slice())?;
        put_hex(out, " < ", turn.got.as_slice())?;
    }
    Ok(())
}

/// How a connection ended.
fn end_word(ended: Ended) -> &'static str {
    match ended {
        Ended::Tester => "tester",
        Ended::Peer => "peer",
        Ended::Broken => "broken",
    }
}
