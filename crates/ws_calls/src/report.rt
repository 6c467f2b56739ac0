//! What came of the calls of one endpoint.

use ws_base::{Payload, Sequence};
use ws_session::{Event, SendFault};

/// An event, and how many bytes were taken since the start up to it: those up to and with its last, or to the place of
/// a fault.
#[derive(Drop)]
pub struct PlacedInStream {
    pub place: u64,
    pub event: Event,
}

/// What came of one call.
#[derive(Drop)]
pub enum CallAnswer {
    /// The frame was sent: these bytes were put.
    Sent(Payload),
    /// It wasn't, for this reason, and nothing has changed. Want of memory is none: it ends the run.
    Refused(SendFault),
    /// A piece of so many bytes was taken whole. It gave these events, and these bytes were put.
    Taken {
        events: Sequence<PlacedInStream>,
        len: u64,
        put: Payload,
    },
    /// The stream has ended.
    Ended,
}
