//! What came of two joined sessions.

use crate::messages::Messages;
use ws_session::{SendFault, Session, Status};

/// What came of one move.
#[derive(Clone, Copy)]
pub enum Answer {
    /// The frame was sent.
    Did,
    /// It wasn't, for this reason, and nothing has changed. Want of memory is none: it ends the run.
    Refused(SendFault),
    /// So many bytes came.
    Arrived(u32),
    /// The stream to this end has ended.
    Cut,
}

/// One end after all moves.
#[derive(Drop)]
pub struct EndReport {
    /// All bytes that it wrote.
    pub put: Vec<u8>,
    /// How many bytes reached it, also after its session was over.
    pub reached: u64,
    /// The messages that it delivered, in order.
    pub delivered: Messages,
    pub status: Status,
    /// Its session, as the moves left it.
    pub session: Session,
}

/// Both ends after all moves, and what came of each move.
#[derive(Drop)]
pub struct Report {
    pub answers: Vec<Answer>,
    pub client: EndReport,
    pub server: EndReport,
}
