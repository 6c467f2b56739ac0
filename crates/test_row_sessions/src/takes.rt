//! Rows of streams that a session takes by single calls of `take`, and another one beside it by `take_into`.

ghost use Rattle.std.specs.Prelude.{◌≤◌, length, IfOk};

use crate::printing::{put_event, put_lent};
use std::alloc::Global;
use test_row_frames::{
    RowFault, bytes_of, limits_of, put, put_hex, put_number, put_shown, role_of, session_key_of,
};
use ws_session::{Event, EventKind, Limits, PayloadRoom, Session, Status, Taken, TakenInto};
use ws_wire::Role;

/// A session, what it put, how many bytes it has used, and the status that was told last.
#[derive(Drop)]
struct Taker {
    session: Session,
    put: Vec<u8>,
    used: usize,
    stood: Status,
    /// The session that lends what it read, and what it put.
    lending: Session,
    room: PayloadRoom,
    also_put: Vec<u8>,
}

impl Taker {
    /// Nothing was taken.
    fn new(alloc: Global, role: Role, limits: Limits) -> Taker {
        let session = new_session(alloc, role, limits);
        let stood = session.status();
        Taker {
            session,
            put: Vec::new(alloc),
            used: 0,
            stood,
            lending: new_session(alloc, role, limits),
            room: new_room(alloc),
            also_put: Vec::new(alloc),
        }
    }
}

// Each call of a session by a function of its own, which says no more of it than the bytes that were used: what is
// proved of what stands on it is small then.

fn new_session(alloc: Global, role: Role, limits: Limits) -> Session {
    Session::new(alloc, role, limits)
}

fn new_room(alloc: Global) -> PayloadRoom {
    PayloadRoom::new(alloc)
}

fn copy_of(session: &Session) -> Result<Session, RowFault> {
    let copy = session.copy()?;
    Ok(copy)
}

fn take_by(
    session: &mut Session,
    piece: &[u8],
    key: [u8; 4],
    out: &mut Vec<u8>,
) -> Result<Taken, RowFault>
    ensures { IfOk result (λ taken. taken.used ≤ length piece.now) }
{
    let taken = session.take(piece, key, out)?;
    Ok(taken)
}

fn lend_by(
    session: &mut Session,
    piece: &[u8],
    key: [u8; 4],
    out: &mut Vec<u8>,
    room: &mut PayloadRoom,
) -> Result<TakenInto, RowFault> {
    let lent = session.take_into(piece, key, out, room)?;
    Ok(lent)
}

/// `take ROLE LIMIT KEY PIECE ..`, by calls that each use up to the end of one frame: each event, and each status
/// that is new, with the number of bytes that were used by then; then how many were used in all, what was put, and
/// how many bytes are held. A piece of one byte is given by one call, so all are used only where that call uses it.
/// Where a session that is given the same by `take_into` differs, the row says so.
pub fn take_frames(alloc: Global, words: &[&str], out: &mut String) -> Result<(), RowFault> {
    let [role, limit, key, pieces @ ..] = words else {
        return Err(RowFault::NotARow);
    };
    let key = session_key_of(key)?;
    let mut taker = Taker::new(alloc, role_of(role)?, limits_of(limit)?);
    for word in pieces {
        let piece = bytes_of(alloc, word)?;
        take_piece(&mut taker, piece.as_slice(), key, out)?;
    }
    put_number(out, "used ", taker.used as u64)?;
    put_hex(out, ", put ", taker.put.as_slice())?;
    put_number(out, ", held ", taker.session.held() as u64)
}

/// Takes a piece frame by frame. A call uses at least one byte where there is one; an empty piece is given once.
fn take_piece(
    taker: &mut Taker,
    piece: &[u8],
    key: [u8; 4],
    out: &mut String,
) -> Result<(), RowFault> {
    let mut rest = take_once(taker, piece, key, out)?;
    for _ in 1..piece.len() {
        if rest.is_empty() {
            return Ok(());
        }
        rest = take_once(taker, rest, key, out)?;
    }
    Ok(())
}

/// One call of each: what it tells, and the bytes that it leaves.
fn take_once<'a>(
    taker: &mut Taker,
    piece: &'a [u8],
    key: [u8; 4],
    out: &mut String,
) -> Result<&'a [u8], RowFault> {
    let taken = take_by(&mut taker.session, piece, key, &mut taker.put)?;
    taker.used = taker.used.saturating_add(taken.used);
    let mut told = String::new(*out.allocator());
    if let Some(event) = &taken.event {
        put_number(&mut told, "", taker.used as u64)?;
        put_event_between(&mut told, event)?;
    }
    put(out, told.as_str())?;
    put_status(taker, out)?;
    lend_once(taker, piece, key, taken.used, told.as_str(), out)?;
    Ok(&piece[taken.used..])
}

/// An event behind the number of bytes that were used by then.
fn put_event_between(out: &mut String, event: &Event) -> Result<(), RowFault> {
    put(out, " ")?;
    put_event(out, event)?;
    put(out, ", ")
}

/// The status, where it is new.
fn put_status(taker: &mut Taker, out: &mut String) -> Result<(), RowFault> {
    let stands = taker.session.status();
    if stands != taker.stood {
        put_number(out, "", taker.used as u64)?;
        put_shown(out, " status ", &stands)?;
        put(out, ", ")?;
        taker.stood = stands;
    }
    Ok(())
}

/// Whether a room holds nothing where what is told has no payload.
fn holds_payload_alone(event: Option<EventKind>, held: &[u8]) -> bool {
    let has_payload = match event {
        Some(kind) => !matches!(
            kind,
            EventKind::Part | EventKind::Close(None) | EventKind::Failed(_)
        ),
        None => false,
    };
    has_payload || held.is_empty()
}

/// The call of `take_into`, which has to use as much, and to tell, put and hold the same. A copy of the session takes
/// it, so that a copy is seen to go on as what it was made of.
fn lend_once(
    taker: &mut Taker,
    piece: &[u8],
    key: [u8; 4],
    used: usize,
    told: &str,
    out: &mut String,
) -> Result<(), RowFault> {
    taker.lending = copy_of(&taker.lending)?;
    let lent = lend_by(
        &mut taker.lending,
        piece,
        key,
        &mut taker.also_put,
        &mut taker.room,
    )?;
    let mut also_told = String::new(*out.allocator());
    if let Some(kind) = lent.event {
        put_number(&mut also_told, "", taker.used as u64)?;
        put(&mut also_told, " ")?;
        put_lent(&mut also_told, kind, taker.room.as_slice())?;
        put(&mut also_told, ", ")?;
    }
    let is_same = lent.used == used
        && also_told.as_bytes() == told.as_bytes()
        && holds_payload_alone(lent.event, taker.room.as_slice())
        && stands_alike(taker);
    if !is_same {
        put(out, "take_into differs: ")?;
        put(out, also_told.as_str())?;
    }
    Ok(())
}

/// Whether both sessions have put and hold the same, and have the same status.
fn stands_alike(taker: &Taker) -> bool {
    taker.also_put.as_slice() == taker.put.as_slice()
        && taker.lending.held() == taker.session.held()
        && taker.lending.status() == taker.session.status()
}
