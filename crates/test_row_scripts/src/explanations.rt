//! Rows of explanations: what was owed and what came.

use crate::captures::transcript_of;
use std::alloc::Global;
use test_row_frames::{RowFault, put, put_hex, put_number, put_shown, role_of};
use ws_suite::{Direction, Ending, Kept, ReplyKind, explain};

/// `explain ROLE END SENT GOT ..`: the verdict on these turns and this end where a `server` or a `client` is tested;
/// what was owed, what came, and where bytes follow the close that came, each with its turn, from 1.
pub fn explain_turns(alloc: Global, words: &[&str], out: &mut String) -> Result<(), RowFault> {
    let [role, words @ ..] = words else {
        return Err(RowFault::NotARow);
    };
    let tested = role_of(role)?;
    let transcript = transcript_of(alloc, words)?;
    let told = explain(alloc, tested, &transcript)?;
    put_shown(out, "", &told.verdict)?;
    tell_direction("due", &told.due, out)?;
    tell_direction("got", &told.got, out)?;
    if let Some(turn) = told.beyond {
        put_turn(out, "got", turn)?;
        put(out, "beyond")?;
    }
    Ok(())
}

/// Each reply and the end of a direction, behind this word.
fn tell_direction(word: &str, told: &Direction, out: &mut String) -> Result<(), RowFault> {
    let mut replies = told.replies.iter();
    while let Some(reply) = replies.next() {
        put_turn(out, word, reply.turn)?;
        tell_reply(reply, out)?;
    }
    if let Some(ending) = &told.ending {
        put_turn(out, word, ending.turn)?;
        tell_ending(ending.what, out)?;
    }
    Ok(())
}

/// A word, and the number of a turn, from 1.
fn put_turn(out: &mut String, word: &str, turn: usize) -> Result<(), RowFault> {
    put(out, ", ")?;
    put(out, word)?;
    put_number(out, " ", turn.saturating_add(1) as u64)?;
    put(out, " ")
}

fn tell_reply(reply: Kept<'_>, out: &mut String) -> Result<(), RowFault> {
    let word = match reply.kind {
        ReplyKind::Text => "text ",
        ReplyKind::Binary => "binary ",
        ReplyKind::Pong => "pong ",
        ReplyKind::Ping => "ping ",
    };
    put_hex(out, word, reply.payload)
}

fn tell_ending(ending: Ending, out: &mut String) -> Result<(), RowFault> {
    match ending {
        Ending::Closed(None) => put(out, "close none"),
        Ending::Closed(Some(code)) => put_number(out, "close ", u64::from(code)),
        Ending::Failed(reason) => put_shown(out, "end ", &reason),
        Ending::Doomed => put(out, "end Doomed"),
    }
}
