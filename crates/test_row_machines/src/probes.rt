//! Rows of a probe as a machine: its request, the head of the answer, and the script behind it.

use crate::machine_words::{play, put_unread};
use crate::testers::put_transcript;
use std::alloc::Global;
use test_row_frames::{RowFault, bytes_of, number_of, put, put_number, put_shown};
use ws_base::Sequence;
use ws_handshake::{Probe, ProbeMachine, ProbePlan, ResponseHead};
use ws_suite::{CutTurn, Expectation, read_script, turns_with};
use ws_tester::TestPlan;
use ws_upgrade::HeadFault;
use ws_wire::Role;

/// The nonce of the request.
const NONCE: [u8; 16] = *b"the sample nonce";

/// `probe BUDGET SCRIPT REQUEST WORD ..`: a server is asked by these bytes, which offer no subprotocol, and behind the
/// head of its answer a script is run against it as an echo, where waits can be in vain; at most so many bytes are read
/// behind the head. The frames are masked with a key of zeros. What the words tell and ask says `machine_words.rt`. At
/// the end stands what came of it: `no connection`, `refused FAULT`, with the status if there is one, or how the run
/// ended with the bytes of each turn behind `>` and `<`; or `goes on`, and how many bytes weren't read.
pub fn tell_probe(alloc: Global, words: &[&str], out: &mut String) -> Result<(), RowFault> {
    let [budget, text, request, words @ ..] = words else {
        return Err(RowFault::NotARow);
    };
    let machine = ProbeMachine::new(
        alloc,
        plan_of(number_of(budget)?),
        script_of(alloc, text)?,
        bytes_of(alloc, request)?.into_vec(),
    );
    let (end, unread) = play(alloc, machine, words, out)?;
    put_probe(end, out)?;
    put_unread(out, unread)
}

/// What is asked.
fn plan_of(budget: u64) -> ProbePlan<'static> {
    ProbePlan {
        head: ResponseHead {
            nonce: NONCE,
            offers: &[],
        },
        test: TestPlan {
            tested: Role::Server,
            expected: Expectation::Echo,
            has_timeouts: true,
        },
        budget,
    }
}

/// The pieces of a script's turns.
fn script_of(alloc: Global, text: &str) -> Result<Sequence<CutTurn>, RowFault> {
    let text = bytes_of(alloc, text)?;
    let Ok(case) = read_script(alloc, text.as_slice()) else {
        return Err(RowFault::NotARow);
    };
    let turns = turns_with(alloc, &case, Some([0, 0, 0, 0]))?;
    Ok(turns)
}

/// What came of it, where it is done.
fn put_probe(end: Option<Probe>, out: &mut String) -> Result<(), RowFault> {
    match end {
        Some(Probe::NoConnection) => put(out, "no connection"),
        Some(Probe::Refused(refusal)) => put_refusal(out, refusal.fault, refusal.status),
        Some(Probe::Ran(transcript)) => put_transcript(&transcript, out),
        None => put(out, "goes on"),
    }
}

/// Why the server's head is refused, and its status, if there is one.
fn put_refusal(out: &mut String, fault: HeadFault, status: Option<u16>) -> Result<(), RowFault> {
    put_shown(out, "refused ", &fault)?;
    match status {
        Some(status) => put_number(out, " ", u64::from(status)),
        None => Ok(()),
    }
}
