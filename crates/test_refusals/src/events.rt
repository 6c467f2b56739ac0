//! Events, as a list says them.

use ws_session::{Event, EventKind, Kind, Reason};

/// An event.
pub enum Told {
    Part,
    Text(&'static [u8]),
    Binary(&'static [u8]),
    Ping(&'static [u8]),
    Pong(&'static [u8]),
    /// A close frame with this code.
    Close(u16),
    Failed(Reason),
}

/// Whether an event is the one that a list says.
pub fn is_told(event: &Event, told: &Told) -> bool {
    match (event, told) {
        (Event::Part, Told::Part) => true,
        (Event::Message(message), Told::Text(payload)) => {
            matches!(message.kind, Kind::Text) && message.payload.as_slice() == *payload
        }
        (Event::Message(message), Told::Binary(payload)) => {
            matches!(message.kind, Kind::Binary) && message.payload.as_slice() == *payload
        }
        (Event::Ping(got), Told::Ping(payload)) => got.as_slice() == *payload,
        (Event::Pong(got), Told::Pong(payload)) => got.as_slice() == *payload,
        (Event::Close(Some(close)), Told::Close(code)) => close.code() == *code,
        (Event::Failed(got), Told::Failed(reason)) => *got == *reason,
        _ => false,
    }
}

/// Whether the event at a place is the one that a list says there.
pub fn is_told_at(event: &Event, events: &[Told], place: usize) -> bool {
    match events.get(place) {
        Some(told) => is_told(event, told),
        None => false,
    }
}

/// Whether what is lent is the event that a list says: what it is, and its payload.
pub fn is_lent(kind: EventKind, lent: &[u8], told: &Told) -> bool {
    match (kind, told) {
        (EventKind::Part, Told::Part) => lent.is_empty(),
        (EventKind::Message(Kind::Text), Told::Text(payload)) => lent == *payload,
        (EventKind::Message(Kind::Binary), Told::Binary(payload)) => lent == *payload,
        (EventKind::Ping, Told::Ping(payload)) => lent == *payload,
        (EventKind::Pong, Told::Pong(payload)) => lent == *payload,
        (EventKind::Close(Some(got)), Told::Close(code)) => got == *code,
        (EventKind::Failed(got), Told::Failed(reason)) => got == *reason,
        _ => false,
    }
}

/// Whether what is lent is the event at a place that a list says there.
pub fn is_lent_at(kind: EventKind, lent: &[u8], events: &[Told], place: usize) -> bool {
    match events.get(place) {
        Some(told) => is_lent(kind, lent, told),
        None => false,
    }
}
