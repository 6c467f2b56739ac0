//! Answers in words.

use test_row_frames::{RowFault, put, put_hex, put_number, put_shown};
use ws_session::{Event, EventKind};

/// An event of a session.
pub fn put_event(out: &mut String, event: &Event) -> Result<(), RowFault> {
    match event {
        Event::Part => put(out, "part"),
        Event::Message(message) => {
            put_shown(out, "", &message.kind)?;
            put_hex(out, " ", message.payload.as_slice())
        }
        Event::Ping(payload) => put_hex(out, "ping ", payload.as_slice()),
        Event::Pong(payload) => put_hex(out, "pong ", payload.as_slice()),
        Event::Close(None) => put(out, "close none"),
        Event::Close(Some(close)) => put_close(out, close.code(), close.reason().as_bytes()),
        Event::Failed(reason) => put_shown(out, "failed ", reason),
    }
}

/// What a session lends of an event: what it is, and its payload. It is written as the event.
pub fn put_lent(out: &mut String, kind: EventKind, payload: &[u8]) -> Result<(), RowFault> {
    match kind {
        EventKind::Part => put(out, "part"),
        EventKind::Message(kind) => {
            put_shown(out, "", &kind)?;
            put_hex(out, " ", payload)
        }
        EventKind::Ping => put_hex(out, "ping ", payload),
        EventKind::Pong => put_hex(out, "pong ", payload),
        EventKind::Close(None) => put(out, "close none"),
        EventKind::Close(Some(code)) => put_close(out, code, payload),
        EventKind::Failed(reason) => put_shown(out, "failed ", &reason),
    }
}

/// A close frame with this code and reason.
fn put_close(out: &mut String, code: u16, reason: &[u8]) -> Result<(), RowFault> {
    put_number(out, "close ", u64::from(code))?;
    put_hex(out, " ", reason)
}
