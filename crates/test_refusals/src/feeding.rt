//! Streams that `feed_all` takes whole.

use crate::events::is_told_at;
use crate::streams::Stream;
use crate::tally::Tally;
use std::alloc::Global;
use ws_base::NoMemory;
use ws_session::{Limits, Run, feed_all};
use ws_wire::{NO_KEY, Role};

/// Feeds a stream to a session.
pub fn feed(alloc: Global, stream: &Stream, tally: &mut Tally) -> Result<(), NoMemory> {
    let Some(limits) = Limits::new(stream.limit) else {
        return Err(NoMemory);
    };
    let mut pieces = Vec::new(alloc);
    for piece in stream.pieces {
        pieces.push(Vec::from_slice(alloc, piece)?)?;
    }
    let run = feed_again(alloc, limits, &pieces, tally)?;
    compare_run(&run, stream, tally);
    Ok(())
}

/// One call, made again where memory runs out.
fn feed_again(
    alloc: Global,
    limits: Limits,
    pieces: &[Vec<u8>],
    tally: &mut Tally,
) -> Result<Run, NoMemory> {
    tally.call();
    match feed_once(alloc, limits, pieces) {
        Ok(run) => Ok(run),
        Err(NoMemory) => {
            tally.refuse("feed_all");
            feed_once(alloc, limits, pieces)
        }
    }
}

fn feed_once(alloc: Global, limits: Limits, pieces: &[Vec<u8>]) -> Result<Run, NoMemory> {
    feed_all(alloc, Role::Server, limits, pieces, NO_KEY)
}

/// Compares a run with what a server makes of the stream.
fn compare_run(run: &Run, stream: &Stream, tally: &mut Tally) {
    tally.compare(run.put.as_slice() == stream.put);
    tally.compare(run.status == stream.status);
    tally.compare(run.events.len() == stream.events.len());
    for (place, event) in run.events.as_slice().iter().enumerate() {
        tally.compare(is_told_at(event, stream.events, place));
    }
}
