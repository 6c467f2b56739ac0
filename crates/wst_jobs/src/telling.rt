//! A session of either end over the other's stream in segments, and a digest of all events.

use crate::chance::Chance;
use crate::digest::Digest;
use std::alloc::{AllocError, Global};
use std::fmt::Write;
use ws_session::{Event, Kind, Limits, Session};
use ws_wire::Role;

/// The bytes of a piece, as a TCP segment brings them.
const SEGMENT: usize = 1448;

/// An endpoint that takes a stream.
#[derive(Drop)]
struct Endpoint {
    session: Session,
    /// What it writes.
    replies: Vec<u8>,
    /// How many bytes it took.
    place: u64,
}

/// Takes a stream in segments at a new session, then its end. Each event goes to the digest with its place, and so do
/// what the session writes and how it stands. Nothing where memory ran out.
pub fn tell_stream(
    alloc: Global,
    role: Role,
    limits: Limits,
    stream: &[u8],
    chance: &mut Chance,
    digest: &mut Digest,
) -> Option<()> {
    let mut endpoint = Endpoint {
        session: Session::new(alloc, role, limits),
        replies: Vec::new(alloc),
        place: 0,
    };
    let mut rest = stream;
    for _ in 0..stream.len() {
        if rest.is_empty() {
            break;
        }
        let (piece, after) = rest.split_at(SEGMENT.min(rest.len()));
        endpoint.take_piece(piece, chance.key(), digest)?;
        rest = after;
    }
    endpoint.session.end();
    put_status(alloc, &endpoint.session, digest).ok()
}

/// Puts how a session stands.
fn put_status(alloc: Global, session: &Session, digest: &mut Digest) -> Result<(), AllocError> {
    let status = session.status();
    let text = format!(in alloc; "{status}")?;
    digest.add(text.as_bytes());
    Ok(())
}

impl Endpoint {
    /// Takes a whole piece. A client masks its replies with the key.
    fn take_piece(&mut self, piece: &[u8], key: [u8; 4], digest: &mut Digest) -> Option<()> {
        let mut rest = piece;
        // A call uses at least one byte where there is one.
        for _ in 0..piece.len() {
            if rest.is_empty() {
                break;
            }
            let taken = self.session.take(rest, key, &mut self.replies).ok()?;
            rest = &rest[taken.used..];
            self.place = self.place.wrapping_add(taken.used as u64);
            if let Some(event) = &taken.event {
                put_event(event, self.place, digest);
            }
        }
        if !self.replies.is_empty() {
            digest.add(self.replies.as_slice());
            self.replies.clear();
        }
        Some(())
    }
}

/// Puts an event: its kind, its code, its place, and how many bytes and which ones it holds.
fn put_event(event: &Event, place: u64, digest: &mut Digest) {
    let (kind, code, payload): (u8, u16, &[u8]) = match event {
        Event::Part => (b'.', 0, &[]),
        Event::Message(message) => {
            let kind = match message.kind {
                Kind::Text => b't',
                Kind::Binary => b'b',
            };
            (kind, 0, message.payload.as_slice())
        }
        Event::Ping(payload) => (b'?', 0, payload.as_slice()),
        Event::Pong(payload) => (b'!', 0, payload.as_slice()),
        Event::Close(Some(close)) => (b'c', close.code(), close.reason().as_bytes()),
        Event::Close(None) => (b'n', 0, &[]),
        Event::Failed(reason) => (b'f', *reason as u16, &[]),
    };
    digest.add(&[kind]);
    digest.add(&code.to_be_bytes());
    digest.add(&place.to_be_bytes());
    digest.add(&(payload.len() as u64).to_be_bytes());
    digest.add(payload);
}
