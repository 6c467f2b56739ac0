//! Taking a stream as a server, in four ways. Each reads the same pieces into a buffer of its own.

use crate::counts::Counts;
use crate::pieces::{BLOCK, Pieces};
use anyhow::{Context, Result, bail};
use std::alloc::Global;
use std::io::Read;
use tungstenite::{NoMask, WebSocket};
use ws_session::{Event, EventKind, Limits, MAX_MESSAGE, PayloadRoom, Session, Status};
use ws_wire::{NO_KEY, Role};

/// Takes a stream of messages and pings up to a close frame by a session.
pub fn take<R: Read + Drop>(alloc: Global, mut pieces: Pieces<R>) -> Result<Counts> {
    let limits = Limits::new(MAX_MESSAGE).context("bad limits")?;
    let mut session = Session::new(alloc, Role::Server, limits);
    let mut counts = Counts::new();
    let mut replies = Vec::new(alloc);
    let mut block = vec![in alloc; 0u8; BLOCK]?;
    for _ in 0..u64::MAX {
        let len = pieces.read(&mut block)?;
        if len == 0 {
            break;
        }
        take_piece(&mut session, &block[..len], &mut replies, &mut counts)?;
    }
    let status = session.status();
    match status {
        Status::Clean(_) => Ok(counts),
        _ => bail!("the stream ended, and the session is {status}"),
    }
}

/// Takes a whole piece, and counts the messages and pings that end in it. The pongs are let go.
fn take_piece(
    session: &mut Session,
    piece: &[u8],
    replies: &mut Vec<u8>,
    counts: &mut Counts,
) -> Result<()> {
    let mut rest = piece;
    // A call uses at least one byte where there is one.
    for _ in 0..piece.len() {
        if rest.is_empty() {
            break;
        }
        let taken = session.take(rest, NO_KEY, replies)?;
        rest = &rest[taken.used..];
        match &taken.event {
            Some(Event::Message(message)) => counts.on_message(message.payload.len()),
            Some(Event::Ping(payload)) => counts.on_message(payload.as_slice().len()),
            _ => {}
        }
    }
    replies.clear();
    Ok(())
}

/// Takes such a stream by a session that lends what it read.
pub fn take_lent<R: Read + Drop>(alloc: Global, mut pieces: Pieces<R>) -> Result<Counts> {
    let limits = Limits::new(MAX_MESSAGE).context("bad limits")?;
    let mut session = Session::new(alloc, Role::Server, limits);
    let mut counts = Counts::new();
    let mut replies = Vec::new(alloc);
    let mut room = PayloadRoom::new(alloc);
    let mut block = vec![in alloc; 0u8; BLOCK]?;
    for _ in 0..u64::MAX {
        let len = pieces.read(&mut block)?;
        if len == 0 {
            break;
        }
        lend_piece(
            &mut session,
            &block[..len],
            &mut replies,
            &mut room,
            &mut counts,
        )?;
    }
    let status = session.status();
    match status {
        Status::Clean(_) => Ok(counts),
        _ => bail!("the stream ended, and the session is {status}"),
    }
}

/// Takes a whole piece as `take_piece` does, through a room.
fn lend_piece(
    session: &mut Session,
    piece: &[u8],
    replies: &mut Vec<u8>,
    room: &mut PayloadRoom,
    counts: &mut Counts,
) -> Result<()> {
    let mut rest = piece;
    // A call uses at least one byte where there is one.
    for _ in 0..piece.len() {
        if rest.is_empty() {
            break;
        }
        let taken = session.take_into(rest, NO_KEY, replies, room)?;
        rest = &rest[taken.used..];
        if let Some(EventKind::Message(_) | EventKind::Ping) = taken.event {
            counts.on_message(room.as_slice().len());
        }
    }
    replies.clear();
    Ok(())
}

/// Takes a stream of messages and pings up to a close frame by a socket of `tungstenite`.
pub fn take_by_tungstenite<R: Read + Drop>(alloc: Global, pieces: Pieces<R>) -> Result<Counts> {
    let role = tungstenite::Role::Server;
    let mut socket = WebSocket::from_raw_socket(alloc, pieces, NoMask, role, None);
    let mut counts = Counts::new();
    for _ in 0..u64::MAX {
        let message = match socket.read() {
            Ok(message) => message,
            Err(fault) => bail!("tungstenite: {fault}"),
        };
        if message.is_close() {
            return Ok(counts);
        }
        counts.on_message(message.len());
    }
    bail!("the stream is too long")
}

/// Reads a stream to its end: how many bytes it has.
pub fn read_only<R: Read + Drop>(alloc: Global, mut pieces: Pieces<R>) -> Result<u64> {
    let mut total: u64 = 0;
    let mut block = vec![in alloc; 0u8; BLOCK]?;
    for _ in 0..u64::MAX {
        let len = pieces.read(&mut block)?;
        if len == 0 {
            break;
        }
        total = total.saturating_add(len as u64);
    }
    Ok(total)
}
