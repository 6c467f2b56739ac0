//! A case run over a new peer, and over another new one where memory runs out.

ghost use Rattle.ws_scripts.specs.Scripts.{CanBeRun};

use crate::captures::judge_again;
use crate::scripts::script;
use crate::streams;
use crate::tally::Tally;
use std::alloc::Global;
use ws_base::NoMemory;
use ws_peer::{EchoPeer, TungPeer, run_case};
use ws_suite::{Case, Ended, Transcript, Verdict};

const KEY: [u8; 4] = [0; 4];

/// Runs the case over an echo.
pub fn run_over_echo(alloc: Global, tally: &mut Tally) -> Result<(), NoMemory> {
    let case = script(alloc, tally)?;
    let transcript = run_echo_again(alloc, &case, tally)?;
    compare_run(alloc, &transcript, tally)
}

/// Runs the case over `tungstenite`.
pub fn run_over_tungstenite(alloc: Global, tally: &mut Tally) -> Result<(), NoMemory> {
    let case = script(alloc, tally)?;
    let transcript = run_tungstenite_again(alloc, &case, tally)?;
    compare_run(alloc, &transcript, tally)
}

/// Compares what was sent and got, and how it ended, and asks for the verdict.
fn compare_run(alloc: Global, transcript: &Transcript, tally: &mut Tally) -> Result<(), NoMemory> {
    tally.compare(transcript.ended == Ended::Peer);
    tally.compare(transcript.turns.len() == streams::FRAGMENTS.pieces.len());
    let mut got = Vec::new(alloc);
    for (place, turn) in transcript.turns.as_slice().iter().enumerate() {
        tally.compare(is_sent(turn.sent.as_slice(), place));
        got.extend_from_slice(turn.got.as_slice())?;
    }
    tally.compare(got.as_slice() == streams::FRAGMENTS.echoed);
    let verdict = judge_again(alloc, transcript, tally)?;
    tally.compare(matches!(verdict, Verdict::Pass));
    Ok(())
}

/// Whether this is what is sent in the turn at this place.
fn is_sent(sent: &[u8], place: usize) -> bool {
    match streams::FRAGMENTS.pieces.get(place) {
        Some(piece) => sent == *piece,
        None => false,
    }
}

/// One run over a new echo.
fn run_echo_again(alloc: Global, case: &Case, tally: &mut Tally) -> Result<Transcript, NoMemory>
    requires { CanBeRun case.now }
{
    tally.call();
    match run_echo(alloc, case) {
        Ok(transcript) => return Ok(transcript),
        Err(NoMemory) => tally.refuse("run_case over an echo"),
    }
    run_echo(alloc, case)
}

fn run_echo(alloc: Global, case: &Case) -> Result<Transcript, NoMemory>
    requires { CanBeRun case.now }
{
    let mut peer = EchoPeer::new(alloc);
    run_case(alloc, case, &mut peer, KEY)
}

/// One run over a new peer of `tungstenite`.
fn run_tungstenite_again(
    alloc: Global,
    case: &Case,
    tally: &mut Tally,
) -> Result<Transcript, NoMemory>
    requires { CanBeRun case.now }
{
    tally.call();
    let mut first = TungPeer::new(alloc)?;
    match run_tungstenite(alloc, case, &mut first) {
        Ok(transcript) => return Ok(transcript),
        Err(NoMemory) => tally.refuse("run_case over tungstenite"),
    }
    let mut second = TungPeer::new(alloc)?;
    run_tungstenite(alloc, case, &mut second)
}

fn run_tungstenite(alloc: Global, case: &Case, peer: &mut TungPeer) -> Result<Transcript, NoMemory>
    requires { CanBeRun case.now }
{
    run_case(alloc, case, peer, KEY)
}
