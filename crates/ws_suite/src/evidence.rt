//! What a transcript shows of the tested end: the events of both directions, each with its turn.

ghost use Rattle.std.specs.Prelude.{◌≡◌, ◌↔◌, IsTrue};
ghost use Rattle.ws_suite.specs.InnerDoom.{HasEndedInTurn};
ghost use Rattle.ws_suite.specs.Matching.{ends_with_close, ends_with_fault, is_close_ending};
ghost use Rattle.ws_suite.specs.Verdicts.{IsCloseInTurn};

mod behind;
mod collecting;
mod cut_close;
mod doom;
mod found;
mod growing;
mod keeping;
mod kept;
mod last_ping;
mod marks;
mod pairing;
mod streams;
mod telling;
mod unanswered;
mod undefined_close;
mod watching;
mod wire_frames;

pub(crate) use doom::with_doom;
pub(crate) use found::found_in;
pub use found::{Found, FoundFault};
pub use growing::RunEvidence;
pub(crate) use keeping::KeepsReplies;
pub(crate) use kept::{is_same, is_turn_before};
pub use kept::{Kept, Replies, ReplyKind, Walk};
pub(crate) use marks::{MarkedEvidence, Marks, marked};
pub(crate) use telling::{Shown, evidence_of, told_evidence_of};
pub use undefined_close::has_undefined_close;
use ws_scripts::Ended;
use ws_session::{Message, Reason, Small};

/// Something, and the number of its turn, from 0.
#[derive(Drop)]
pub struct InTurn<T> {
    pub turn: usize,
    pub what: T,
}

/// What an echo sends back for one event, or what came from a tested end.
#[derive(Drop)]
pub enum Reply {
    /// The message itself.
    Message(Message),
    /// A pong with the payload of the ping.
    Pong(Small),
    /// A ping, which only an explanation tells: it answers nothing.
    Ping(Small),
}

/// What ends the events of a direction.
#[derive(Clone, Copy)]
pub enum Ending {
    /// A close frame with this code, or an empty one.
    Closed(Option<u16>),
    /// The bytes break a rule.
    Failed(Reason),
    /// They end inside a frame that breaks one whatever bytes complete it.
    Doomed,
}

/// One direction of a connection.
#[derive(Drop)]
pub struct Direction {
    /// The replies that are due for what was sent, or that were got, in their order.
    pub replies: Replies,
    /// The close or the fault, if there is one: nothing follows it.
    pub ending: Option<InTurn<Ending>>,
    /// Bytes stand after the last event.
    pub has_rest: bool,
}

/// Both directions, the number of turns, and how the connection ended.
#[derive(Drop)]
pub(crate) struct Evidence {
    pub due: Direction,
    pub got: Direction,
    pub turns: usize,
    pub ended: Ended,
    /// The close that was got answers what was doomed when it came, before the fault itself was sent.
    pub answers_doom: bool,
}

/// Whether the events end with a fault.
pub(crate) fn ends_with_fault(ending: &Option<InTurn<Ending>>) -> bool
    ensures { result ≡ ends_with_fault ending.now }
{
    match ending {
        Some(ending) => !is_close_ending(&ending.what),
        None => false,
    }
}

/// Whether they end with a close.
pub(crate) fn ends_with_close(ending: &Option<InTurn<Ending>>) -> bool
    ensures { result ≡ ends_with_close ending.now }
{
    match ending {
        Some(ending) => is_close_ending(&ending.what),
        None => false,
    }
}

/// Whether it is a close.
pub(crate) fn is_close_ending(ending: &Ending) -> bool
    ensures { result ≡ is_close_ending ending.now }
{
    match ending {
        Ending::Closed(_) => true,
        Ending::Failed(_) | Ending::Doomed => false,
    }
}

/// Whether a close or a fault was got in this turn.
pub(crate) fn ends_in_turn(got: &Option<InTurn<Ending>>, turn: usize) -> bool
    ensures { IsTrue result ↔ HasEndedInTurn got.now turn }
{
    match got {
        Some(got) => got.turn == turn,
        None => false,
    }
}

/// Whether a close was got in this turn.
pub(crate) fn is_close_in_turn(got: &Option<InTurn<Ending>>, turn: usize) -> bool
    ensures { IsTrue result ↔ IsCloseInTurn got.now turn }
{
    match got {
        Some(got) => is_close_ending(&got.what) && got.turn == turn,
        None => false,
    }
}
