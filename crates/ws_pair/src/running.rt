//! Moves at two joined sessions, one after the other.

ghost use Rattle.std.specs.Prelude.{◌≡◌, ◌≤◌, length, IfOk};
ghost use Rattle.ws_pair.specs.Link.{Link, BothLimits, new_link};
ghost use Rattle.ws_pair.specs.Moves.{IsMoveAnswered, Plays};
ghost use Rattle.ws_pair.specs.Headline.{both_limits, AtEachEnd, HasDelivered, IsWholeWhereClean, HasPut, HasReached};
ghost use Rattle.ws_pair.specs.Headline.{HasStatus, HasSession, HasNothingAfterClose};
ghost use Rattle.ws_pair.specs.InnerPlaying.{AreJoined};

use crate::endpoint::Endpoint;
use crate::lemmas::session_laws;
use crate::moves::{End, Move};
use crate::report::{Answer, Report};
use std::alloc::Global;
use ws_base::NoMemory;
use ws_session::Limits;
use ws_wire::Role;

/// Plays the moves, one after the other, at a new client and a new server that are joined by two ordered streams of
/// bytes. `client` and `server` are what each takes at most. Each end has delivered, in order, exactly the other's
/// messages whose last byte has reached it before it reported a size fault; an end that reports a clean close has
/// delivered every message the other sent and reports its close code; and no end has put a frame behind its close
/// (RFC 6455 sections 5 to 7). `NoMemory` where a growth was refused, also of a send: then the run stops.
pub fn run_pair(
    alloc: Global,
    client: Limits,
    server: Limits,
    moves: &[Move],
) -> Result<Report, NoMemory>
    // What was answered, move by move, and that the moves lead to a link with these answers.
    ensures answers { IfOk result (λ report. (link : Link)
        × Plays (both_limits client server) new_link moves.now report.answers.items link) }

    // The headline, at both ends.
    ensures delivered { IfOk result (AtEachEnd HasDelivered (both_limits client server) moves.now) }
    ensures clean { IfOk result (AtEachEnd IsWholeWhereClean (both_limits client server) moves.now) }
    ensures nothing_after_close { IfOk result (λ report. HasNothingAfterClose report.client.put.items
        × HasNothingAfterClose report.server.put.items) }

    // What each end has put, what has reached it, how it stands, and its own session.
    ensures put { IfOk result (AtEachEnd HasPut (both_limits client server) moves.now) }
    ensures reached { IfOk result (AtEachEnd HasReached (both_limits client server) moves.now) }
    ensures status { IfOk result (AtEachEnd HasStatus (both_limits client server) moves.now) }
    ensures session { IfOk result (AtEachEnd HasSession (both_limits client server) moves.now) }
{
    session_laws();
    let mut client = Endpoint::new(alloc, Role::Client, client);
    let mut server = Endpoint::new(alloc, Role::Server, server);
    let mut answers = Vec::new(alloc);
    for next in moves {
        let answer = play(&mut client, &mut server, next)?;
        answers.push(answer)?;
    }
    Ok(Report {
        answers,
        client: client.into_report(),
        server: server.into_report(),
    })
}

/// One move, at the end where it happens.
pub(crate) fn play(
    client: &mut Endpoint,
    server: &mut Endpoint,
    next: &Move,
) -> Result<Answer, NoMemory>
    requires client { client.old.reached ≤ length server.old.put.items }
    requires server { server.old.reached ≤ length client.old.put.items }
    ensures { (limits : BothLimits) (link : Link) → AreJoined limits link client.old server.old →
        IfOk result (λ answer. (after : Link) × IsMoveAnswered limits link next.now answer after
        × AreJoined limits after client.new server.new) }
{
    session_laws();
    match next.side() {
        End::Client => {
            let answer = client.act(&server.put, next)?;
            Ok(answer)
        }
        End::Server => {
            let answer = server.act(&client.put, next)?;
            Ok(answer)
        }
    }
}
