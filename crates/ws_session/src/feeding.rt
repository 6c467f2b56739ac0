//! A session over a whole stream, in whatever pieces it comes.

ghost use Rattle.std.specs.Prelude.{◌≡◌, [], map, false, IfOk};
ghost use Rattle.ws_wire.specs.Frame.{stream_bytes};
ghost use Rattle.ws_session.specs.Events.{HasEvents};
ghost use Rattle.ws_session.specs.Replies.{replies_of, under_key};
ghost use Rattle.ws_session.specs.Exchange.{status_of, joined_pieces};
ghost use Rattle.ws_session.specs.Taking.{events_in};

use crate::event::{Event, PlacedEvent};
use crate::limits::Limits;
use crate::session::Session;
use crate::status::Status;
use std::alloc::Global;
use ws_base::{NoMemory, Payload, Sequence};
use ws_wire::Role;

/// What a session made of a stream that has not ended.
#[derive(Drop)]
pub struct Run {
    pub events: Sequence<Event>,
    /// What it put, byte for byte.
    pub put: Payload,
    pub status: Status,
}

/// Feeds the pieces to a new session, one after the other: the events of the joined bytes, however they are cut, what
/// is owed for them, and the status while the stream may go on. `key` masks what a client puts.
pub fn feed_all(
    alloc: Global,
    role: Role,
    limits: Limits,
    pieces: &[Vec<u8>],
    key: [u8; 4],
) -> Result<Run, NoMemory>
    ensures events { IfOk result (λ run. HasEvents role limits (joined_pieces pieces.now) run.events) }
    ensures put { IfOk result (λ run. run.put ≡ stream_bytes (map (under_key role key) (replies_of [] run.events))) }
    ensures status { IfOk result (λ run. run.status ≡ status_of (replies_of [] run.events) false run.events) }
{
    let mut session = Session::new(alloc, role, limits);
    let mut told = Vec::new(alloc);
    let mut put = Vec::new(alloc);
    for piece in pieces {
        session.take_all(piece, key, &mut put, &mut told)?;
    }
    let events = without_places(alloc, told)?;
    Ok(Run {
        events: Sequence::from_vec(events),
        put: Payload::from_vec(put),
        status: session.status(),
    })
}

/// The events alone.
fn without_places(alloc: Global, told: Vec<PlacedEvent>) -> Result<Vec<Event>, NoMemory>
    ensures { IfOk result (λ events. events.items ≡ events_in told.items) }
{
    let mut events = Vec::new(alloc);
    for placed in told {
        events.push(placed.event)?;
    }
    Ok(events)
}
