//! A session of the library as a server, over a client's stream in pieces.

use crate::chance::Chance;
use crate::digest::Digest;
use crate::frames::{Frames, Mix};
use crate::pool::Writing;
use anyhow::{Context, Result};
use std::alloc::Global;
use std::fmt::Write;
use ws_session::{Event, Limits, Session};
use ws_wire::{NO_KEY, Role};

/// What a client sent, as bytes.
pub const STREAM: Writing = Writing {
    masked: true,
    digits: false,
};

/// The bytes of a block of the stream, at least.
const BLOCK: usize = 65_536;

/// The largest message that is taken.
const LIMIT: u32 = 1_048_576;

/// What is told where the server stops before the stream's end.
const STOPPED: &str = "the server has no memory, or the stream breaks a rule";

/// How many bytes a piece has.
#[derive(Clone, Copy)]
pub enum Pieces {
    /// As a TCP segment brings them.
    Segments,
    /// By chance, up to 200.
    Small,
    /// One.
    Bytes,
}

/// Takes a stream of at least so many bytes, answers each eighth message, and takes a close frame. Puts how it stands
/// then, and the digest of all that came of it.
pub fn serve(
    alloc: Global,
    frames: &Frames,
    mix: Mix,
    (size, pieces): (usize, Pieces),
    chance: &mut Chance,
    results: &mut String,
) -> Result<()> {
    let mut digest = Digest::new();
    let limits = Limits::new(LIMIT).context("bad limits")?;
    let mut server = Server {
        session: Session::new(alloc, Role::Server, limits),
        replies: Vec::new(alloc),
        messages: 0,
    };
    let mut block = Vec::new(alloc);
    let mut left = size;
    for _ in 0..size {
        if left == 0 {
            break;
        }
        block.clear();
        for _ in 0..BLOCK {
            if block.len() >= BLOCK {
                break;
            }
            frames.put_cut(&frames.part(mix, chance), STREAM, chance, &mut block)?;
        }
        left = left.saturating_sub(block.len());
        server
            .take_block(block.as_slice(), pieces, chance, &mut digest)
            .context(STOPPED)?;
    }
    block.clear();
    frames.put_close(STREAM, &mut block)?;
    server
        .take_block(block.as_slice(), pieces, chance, &mut digest)
        .context(STOPPED)?;
    write!(results, " {} {digest}", server.session.status())?;
    Ok(())
}

/// A server's session, and what it writes.
#[derive(Drop)]
struct Server {
    session: Session,
    replies: Vec<u8>,
    messages: u64,
}

impl Server {
    /// Takes a block in pieces; nothing where memory ran out or the stream breaks a rule.
    fn take_block(
        &mut self,
        block: &[u8],
        pieces: Pieces,
        chance: &mut Chance,
        digest: &mut Digest,
    ) -> Option<()> {
        let mut rest = block;
        for _ in 0..block.len() {
            if rest.is_empty() {
                break;
            }
            let count = match pieces {
                Pieces::Segments => 1448,
                Pieces::Small => 1 + chance.below(200),
                Pieces::Bytes => 1,
            };
            let (piece, after) = rest.split_at(count.min(rest.len()));
            self.take_piece(piece, digest)?;
            rest = after;
        }
        Some(())
    }

    /// Takes a whole piece. What it has the server write goes to the digest.
    fn take_piece(&mut self, piece: &[u8], digest: &mut Digest) -> Option<()> {
        let mut rest = piece;
        // A call uses at least one byte where there is one.
        for _ in 0..piece.len() {
            if rest.is_empty() {
                break;
            }
            let taken = self.session.take(rest, NO_KEY, &mut self.replies).ok()?;
            rest = &rest[taken.used..];
            if let Some(event) = &taken.event {
                self.on_event(event, digest)?;
            }
        }
        if !self.replies.is_empty() {
            digest.add(self.replies.as_slice());
            self.replies.clear();
        }
        Some(())
    }

    /// Takes what an event holds, and answers each eighth message.
    fn on_event(&mut self, event: &Event, digest: &mut Digest) -> Option<()> {
        match event {
            Event::Message(message) => {
                digest.add(message.payload.as_slice());
                self.messages = self.messages.wrapping_add(1);
                if self.messages % 8 == 0 {
                    let (kind, payload) = (message.kind, message.payload.as_slice());
                    self.session
                        .begin(kind, payload, true, NO_KEY, &mut self.replies)
                        .ok()?;
                }
            }
            Event::Ping(payload) | Event::Pong(payload) => digest.add(payload.as_slice()),
            Event::Part => digest.add(b"part"),
            Event::Close(_) => digest.add(b"close"),
            Event::Failed(_) => return None,
        }
        Some(())
    }
}
