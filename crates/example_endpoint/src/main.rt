//! `example_endpoint`: the endpoint of a server behind the opening handshake, over the standard input and output. It is
//! an example of the library, and no crate uses it.
//!
//! What a client sends comes on the input. The output gets what is answered: each message again, for a ping a pong, for
//! a close a close, and for a fault a close with its code. How the session ended goes to the fault output.
#![tactic(auto)]

use anyhow::{Context, Result};
use std::alloc::Global;
use std::io::{Read, Write};
use ws_session::{Event, Limits, Session};
use ws_wire::{NO_KEY, Role};

/// The most bytes of a message that is taken.
const MAX_MESSAGE: u32 = 1_048_576;

/// The most bytes of one read.
const READ_SIZE: usize = 4096;

fn main(rt: HostRuntime) -> Result<()> {
    let limits = Limits::new(MAX_MESSAGE).context("bad limits")?;
    let mut session = Session::new(rt.alloc(), Role::Server, limits);
    serve(rt.alloc(), &mut session, &mut rt.stdin(), &mut rt.stdout())?;
    eprintln!(rt; "{}", session.status())?;
    Ok(())
}

/// Reads until the session or the stream is over, and writes what is due for each read.
fn serve<R: Read, W: Write>(
    alloc: Global,
    session: &mut Session,
    reader: &mut R,
    writer: &mut W,
) -> Result<()> {
    let mut block = [0; READ_SIZE];
    let mut replies = Vec::new(alloc);
    for _ in 0..u64::MAX {
        let len = reader.read(&mut block)?;
        if len == 0 {
            session.end();
            break;
        }
        replies.clear();
        answer(session, &block[..len], &mut replies)?;
        writer.write_all(&replies)?;
        if session.status().is_over() {
            break;
        }
    }
    Ok(())
}

/// Takes what was read, frame by frame, and sends each message back.
fn answer(session: &mut Session, piece: &[u8], replies: &mut Vec<u8>) -> Result<()> {
    let mut rest = piece;
    for _ in 0..piece.len() {
        if rest.is_empty() {
            break;
        }
        let taken = session.take(rest, NO_KEY, replies)?;
        rest = &rest[taken.used..];
        if let Some(Event::Message(message)) = taken.event {
            let payload = message.payload.as_slice();
            session.begin(message.kind, payload, true, NO_KEY, replies)?;
        }
    }
    Ok(())
}
