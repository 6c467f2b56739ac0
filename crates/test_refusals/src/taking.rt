//! Streams that a session or an echo takes, by single calls of `take` or `take_into`.

ghost use Rattle.std.specs.Prelude.{◌≡◌, ◌≤◌, length, IfOk};

use crate::events::{Told, is_lent_at, is_told_at};
use crate::streams::Stream;
use crate::tally::Tally;
use std::alloc::Global;
use ws_base::NoMemory;
use ws_session::{Echo, Limits, PayloadRoom, Session, Status, Taken};
use ws_wire::{NO_KEY, Role};

/// An endpoint that takes bytes.
#[derive(Drop)]
enum Taker {
    Session(Session),
    /// It lends what it read in the room.
    Lending(Session, PayloadRoom),
    Echo(Echo),
}

/// What a call took: how many bytes, and where it told an event whether it is the one that the list says.
#[derive(Clone, Copy)]
struct Step {
    used: usize,
    right: Option<bool>,
}

impl Taker {
    fn status(&self) -> Status {
        match self {
            Taker::Session(session) | Taker::Lending(session, _) => session.status(),
            Taker::Echo(echo) => echo.status(),
        }
    }

    /// The call that takes bytes.
    fn call(&self) -> &'static str {
        match self {
            Taker::Session(_) => "take",
            Taker::Lending(..) => "take_into",
            Taker::Echo(_) => "Echo::take",
        }
    }

    /// The bytes that a session keeps. An echo doesn't tell them.
    fn held(&self) -> usize {
        match self {
            Taker::Session(session) | Taker::Lending(session, _) => session.held(),
            Taker::Echo(_) => 0,
        }
    }

    /// One call, whose event is compared with the one at this place of the list.
    fn take(
        &mut self,
        piece: &[u8],
        out: &mut Vec<u8>,
        events: &[Told],
        place: usize,
    ) -> Result<Step, NoMemory>
        ensures { IfOk result (λ step. step.used ≤ length piece.now) }
    {
        match self {
            Taker::Session(session) => {
                let taken = take_by(session, piece, out)?;
                Ok(step_of(&taken, events, place))
            }
            Taker::Lending(session, room) => lend_by(session, piece, out, room, events, place),
            Taker::Echo(echo) => {
                let taken = take_by_echo(echo, piece, out)?;
                Ok(step_of(&taken, events, place))
            }
        }
    }
}

/// One call of a session.
fn take_by(session: &mut Session, piece: &[u8], out: &mut Vec<u8>) -> Result<Taken, NoMemory>
    ensures { IfOk result (λ taken. taken.used ≤ length piece.now) }
{
    let taken = session.take(piece, NO_KEY, out)?;
    Ok(taken)
}

/// One call of an echo.
fn take_by_echo(echo: &mut Echo, piece: &[u8], out: &mut Vec<u8>) -> Result<Taken, NoMemory>
    ensures { IfOk result (λ taken. taken.used ≤ length piece.now) }
{
    let taken = echo.take(piece, NO_KEY, out)?;
    Ok(taken)
}

/// One call of a session that lends, whose event is compared with the one at this place of the list.
fn lend_by(
    session: &mut Session,
    piece: &[u8],
    out: &mut Vec<u8>,
    room: &mut PayloadRoom,
    events: &[Told],
    place: usize,
) -> Result<Step, NoMemory>
    ensures { IfOk result (λ step. step.used ≤ length piece.now) }
{
    let taken = session.take_into(piece, NO_KEY, out, room)?;
    let right = match taken.event {
        Some(kind) => Some(is_lent_at(kind, room.as_slice(), events, place)),
        None => None,
    };
    Ok(Step {
        used: taken.used,
        right,
    })
}

/// What a call took, its event compared with the one at this place of the list.
fn step_of(taken: &Taken, events: &[Told], place: usize) -> Step
    ensures { result.used ≡ taken.now.used }
{
    let right = match &taken.event {
        Some(event) => Some(is_told_at(event, events, place)),
        None => None,
    };
    Step {
        used: taken.used,
        right,
    }
}

/// An endpoint, what it put, and how many events it told.
#[derive(Drop)]
struct Played {
    taker: Taker,
    out: Vec<u8>,
    told: usize,
}

/// A session takes a stream.
pub fn take(alloc: Global, stream: &Stream, tally: &mut Tally) -> Result<(), NoMemory> {
    match Limits::new(stream.limit) {
        Some(limits) => {
            let taker = Taker::Session(Session::new(alloc, Role::Server, limits));
            take_stream(alloc, taker, stream, stream.put, tally)
        }
        None => Err(NoMemory),
    }
}

/// A session takes a stream, and lends what it read.
pub fn take_into(alloc: Global, stream: &Stream, tally: &mut Tally) -> Result<(), NoMemory> {
    match Limits::new(stream.limit) {
        Some(limits) => {
            let session = Session::new(alloc, Role::Server, limits);
            let taker = Taker::Lending(session, PayloadRoom::new(alloc));
            take_stream(alloc, taker, stream, stream.put, tally)
        }
        None => Err(NoMemory),
    }
}

/// An echo takes a stream.
pub fn take_as_echo(alloc: Global, stream: &Stream, tally: &mut Tally) -> Result<(), NoMemory> {
    match Limits::new(stream.limit) {
        Some(limits) => {
            let taker = Taker::Echo(Echo::new(alloc, limits, Role::Server));
            take_stream(alloc, taker, stream, stream.echoed, tally)
        }
        None => Err(NoMemory),
    }
}

/// Takes a stream, after which so much is put.
fn take_stream(
    alloc: Global,
    taker: Taker,
    stream: &Stream,
    put: &[u8],
    tally: &mut Tally,
) -> Result<(), NoMemory> {
    let out = Vec::new(alloc);
    let mut played = Played {
        taker,
        out,
        told: 0,
    };
    for piece in stream.pieces {
        // No room is left, so that each reply wants memory.
        played.out = Vec::from_slice(alloc, played.out.as_slice())?;
        take_piece(&mut played, piece, stream, put, tally)?;
    }
    tally.compare(played.out.as_slice() == put);
    tally.compare(played.told == stream.events.len());
    tally.compare(played.taker.status() == stream.status);
    tally.compare(played.taker.held() == 0);
    Ok(())
}

/// Takes a piece frame by frame.
fn take_piece(
    played: &mut Played,
    piece: &[u8],
    stream: &Stream,
    put: &[u8],
    tally: &mut Tally,
) -> Result<(), NoMemory> {
    let mut rest = piece;
    // A call uses at least one byte where there is one.
    for _ in 0..piece.len() {
        if rest.is_empty() {
            return Ok(());
        }
        let step = take_again(played, rest, stream.events, put, tally)?;
        rest = &rest[step.used..];
        if let Some(right) = step.right {
            tally.compare(right);
            played.told = played.told.saturating_add(1);
        }
    }
    tally.compare(rest.is_empty());
    Ok(())
}

/// One call. Where memory runs out nothing has changed, and the same call is made again.
fn take_again(
    played: &mut Played,
    piece: &[u8],
    events: &[Told],
    put: &[u8],
    tally: &mut Tally,
) -> Result<Step, NoMemory>
    ensures { IfOk result (λ step. step.used ≤ length piece.now) }
{
    tally.call();
    let (status, held, len) = (played.taker.status(), played.taker.held(), played.out.len());
    let place = played.told;
    match played.taker.take(piece, &mut played.out, events, place) {
        Ok(step) => return Ok(step),
        Err(NoMemory) => tally.refuse(played.taker.call()),
    }
    tally.compare(played.taker.status() == status);
    tally.compare(played.taker.held() == held);
    tally.compare(played.out.len() == len && put.starts_with(played.out.as_slice()));
    let step = played.taker.take(piece, &mut played.out, events, place)?;
    Ok(step)
}
