//! A script run over a peer (RFC 6455 sections 4 to 8): its pieces are fed turn by turn, and what was really fed and
//! what came for it is recorded.

ghost use Rattle.std.specs.Prelude.{◌≡◌, ℕ, List, [], ◌∷◌, IfOk, OnOk};
ghost use Rattle.ws_scripts.specs.Scripts.{AreTurns, CanBeRun};
ghost use Rattle.ws_peer.specs.Talks.{Entry, Finished};
ghost use Rattle.ws_peer.specs.Runs.{IsRunOf, Talked, with_finish};
ghost use Rattle.ws_peer.specs.InnerTurnRuns.{IsTurnRun};

use crate::peer::{Going, Peer};
use std::alloc::Global;
use std::collections::VecDeque;
use ws_base::{NoMemory, Payload, Sequence};
use ws_suite::{Case, CutTurn, Ended, Transcript, Turn, turns_with};

/// Runs a script over a peer that is a server, its frames masked with `key`: `run_case_with` with this key.
pub fn run_case<P: Peer>(
    alloc: Global,
    case: &Case,
    peer: &mut P,
    key: [u8; 4],
) -> Result<Transcript, NoMemory>
    requires { CanBeRun case.now }
    ensures { IfOk result (λ transcript. (turns : List (List (List ℕ))) × AreTurns case.now (Some key) turns
        × (talk : List Entry) × IsRunOf turns talk transcript × Talked P.agrees peer.old peer.new talk) }
{
    let transcript = run_case_with(alloc, case, peer, Some(key))?;
    Ok(transcript)
}

/// Runs a script over a peer, its frames masked with `key`, or plain where there is none, since the peer is a client
/// (RFC 6455 section 5.1): feeds the pieces of each turn in their order until the peer ends, and finishes it where it
/// doesn't.
pub fn run_case_with<P: Peer>(
    alloc: Global,
    case: &Case,
    peer: &mut P,
    key: Option<[u8; 4]>,
) -> Result<Transcript, NoMemory>
    requires { CanBeRun case.now }
    ensures { IfOk result (λ transcript. (turns : List (List (List ℕ))) × AreTurns case.now key turns
        × (talk : List Entry) × IsRunOf turns talk transcript × Talked P.agrees peer.old peer.new talk) }
{
    let script = turns_with(alloc, case, key)?;
    let mut left = VecDeque::from(script.into_vec());
    let mut recorded = Vec::new(alloc);
    while let Some(pieces) = left.pop_front() {
        let (turn, going) = run_turn(alloc, pieces, peer)?;
        recorded.push(turn)?;
        if going == Going::Ended {
            return Ok(Transcript {
                turns: Sequence::from_vec(recorded),
                ended: Ended::Peer,
            });
        }
    }
    finish(alloc, peer, &mut recorded)?;
    Ok(Transcript {
        turns: Sequence::from_vec(recorded),
        ended: Ended::Tester,
    })
}

/// Feeds the pieces of a turn until the peer ends: what is recorded of the turn, and whether the peer goes on.
fn run_turn<P: Peer>(
    alloc: Global,
    pieces: CutTurn,
    peer: &mut P,
) -> Result<(Turn, Going), NoMemory>
    ensures { IfOk result (λ run. (part : List Entry) × IsTurnRun pieces part run.0 run.1
        × Talked P.agrees peer.old peer.new part) }
{
    let mut got = Vec::new(alloc);
    let count = pieces.len();
    for number in 0..count {
        let going = peer.feed(pieces.piece(number), &mut got)?;
        if going == Going::Ended {
            let sent = pieces.into_first(number + 1);
            return Ok((turn_of(sent, got), Going::Ended));
        }
    }
    let sent = pieces.into_first(count);
    Ok((turn_of(sent, got), Going::More))
}

/// What was sent and got in a turn.
fn turn_of(sent: Vec<u8>, got: Vec<u8>) -> Turn
    ensures sent { result.sent ≡ sent.items }
    ensures got { result.got ≡ got.items }
{
    Turn {
        sent: Payload::from_vec(sent),
        got: Payload::from_vec(got),
    }
}

/// Finishes the peer. What it puts counts to the last turn; where there is none, it is a turn of its own.
fn finish<P: Peer>(alloc: Global, peer: &mut P, turns: &mut Vec<Turn>) -> Result<(), NoMemory>
    ensures { OnOk result ((left : List ℕ) × (turns.new.items ≡ with_finish turns.old.items left)
        × Talked P.agrees peer.old peer.new (Finished left ∷ [])) }
{
    match turns.pop() {
        Some(last) => {
            let mut got = last.got.into_vec();
            peer.finish(&mut got)?;
            turns.push(turn_of(last.sent.into_vec(), got))?;
        }
        None => {
            let mut got = Vec::new(alloc);
            peer.finish(&mut got)?;
            if !got.is_empty() {
                turns.push(turn_of(Vec::new(alloc), got))?;
            }
        }
    }
    Ok(())
}
