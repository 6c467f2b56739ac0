//! What one direction says, piece by piece: a session takes the bytes, and what it tells is collected.

ghost use Rattle.std.specs.Prelude.{◌≡◌, ◌<◌, ◌≤◌, ℕ, List, [], ◌∷◌, ◌++◌, length, take, true, IfOk, OnOk};
ghost use Rattle.std.specs.Prelude.{option_to_list};
ghost use Rattle.ws_wire.specs.declared.role.Role.{Role};
ghost use Rattle.ws_session.specs.Exchange.{is_over};
ghost use Rattle.ws_session.specs.Lent.{event_if_any, event_in};
ghost use Rattle.ws_suite.specs.declared.evidence.InTurn.{InTurn};
ghost use Rattle.ws_suite.specs.declared.evidence.Reply.{Reply};
ghost use Rattle.ws_suite.specs.Evidence.{ending_in};
ghost use Rattle.ws_suite.specs.InnerCollecting.{AreCollected, EventLaws, HasTakenWay, found_by, reply_if_any};
ghost use Rattle.ws_suite.specs.InnerMarks.{HasSeenBytes, seen_if_any, seen_with};
ghost use Rattle.ws_suite.specs.InnerProgress.{TellsAdded};

use crate::evidence::streams::{LastFrame, Seen, StreamEnd};
use crate::evidence::{Ending, InTurn, KeepsReplies, Kept, ReplyKind};
use crate::lemmas::session_laws;
use std::alloc::Global;
use ws_base::NoMemory;
use ws_parts::cut_part;
use ws_session::{EventKind, Kind, Limits, PayloadRoom, Session, TakenInto};
use ws_wire::{NO_KEY, Role};

/// One of the two directions, and what is collected of it.
#[derive(Clone, Copy)]
pub(super) enum Way {
    /// From the tester to the tested end.
    Sent,
    /// From the tested end to the tester.
    Got,
    /// From the tested end to the tester, its pings with it.
    Told,
}

/// What is collected of a direction so far.
#[derive(Drop)]
pub(super) struct Collected<K> {
    pub replies: K,
    pub ending: Option<InTurn<Ending>>,
    pub has_rest: bool,
}

/// A direction: the session of the end that takes it, what is collected, and what is seen of its bytes.
#[derive(Drop)]
pub(super) struct Taken<K> {
    pub session: Session,
    pub collected: Collected<K>,
    pub seen: Seen,
}

/// The rooms for what sessions tell and put, one after the other: what one frame asked for serves the next.
#[derive(Drop)]
pub(super) struct Rooms {
    told: PayloadRoom,
    put: Vec<u8>,
}

impl Rooms {
    /// Rooms that have asked for no memory.
    pub(super) fn new(alloc: Global) -> Rooms {
        Rooms {
            told: PayloadRoom::new(alloc),
            put: Vec::new(alloc),
        }
    }

    /// The payload of the event that was told last.
    pub(super) fn payload(&self) -> &[u8]
        ensures { result.now ≡ self.now.told }
    {
        self.told.as_slice()
    }
}

/// A direction of which an end with this role has taken nothing.
pub(super) fn nothing_taken<K: KeepsReplies>(alloc: Global, way: Way, role: Role) -> Taken<K>
    ensures taken { HasTakenWay (K.keeps []) way role [] result.session result.collected }
    ensures seen { HasSeenBytes role result.session [] result.seen }
{
    Taken {
        session: Session::new(alloc, role, Limits::largest()),
        collected: Collected {
            replies: K::none(alloc),
            ending: None,
            has_rest: false,
        },
        seen: Seen::nothing(),
    }
}

/// Takes a piece of the turn with this number, which is the last, and collects what it says. It is taken part by part,
/// so that where a byte is at fault, the memory for what is behind it is hardly more.
pub(super) fn take_piece<K: KeepsReplies>(
    way: Way,
    number: usize,
    piece: &[u8],
    rooms: &mut Rooms,
    taken: &mut Taken<K>,
) -> Result<(), NoMemory>
    ensures taken { (handed : List (InTurn Reply)) (role : Role) (turns : List (List ℕ)) (last : List ℕ) →
        number ≡ length turns →
        HasTakenWay (K.keeps handed) way role (turns ++ last ∷ []) taken.old.session taken.old.collected →
        OnOk result (HasTakenWay (K.keeps handed) way role (turns ++ (last ++ piece.now) ∷ [])
        taken.new.session taken.new.collected) }
    ensures seen { (role : Role) (bytes : List ℕ) → HasSeenBytes role taken.old.session bytes taken.old.seen →
        OnOk result (HasSeenBytes role taken.new.session (bytes ++ piece.now) taken.new.seen) }
    ensures over { is_over taken.old.session.status ≡ true → taken.new.session ≡ taken.old.session }
{
    let mut rest = piece;
    while !rest.is_empty() {
        let (part, after) = cut_part(rest);
        take_part(way, number, part, rooms, taken)?;
        rest = after;
    }
    Ok(())
}

/// The same of a part of it. Each event is collected before more bytes are taken: so there is no list of them.
fn take_part<K: KeepsReplies>(
    way: Way,
    number: usize,
    part: &[u8],
    rooms: &mut Rooms,
    taken: &mut Taken<K>,
) -> Result<(), NoMemory>
    ensures taken { (handed : List (InTurn Reply)) (role : Role) (turns : List (List ℕ)) (last : List ℕ) →
        number ≡ length turns →
        HasTakenWay (K.keeps handed) way role (turns ++ last ∷ []) taken.old.session taken.old.collected →
        OnOk result (HasTakenWay (K.keeps handed) way role (turns ++ (last ++ part.now) ∷ [])
        taken.new.session taken.new.collected) }
    ensures seen { (role : Role) (bytes : List ℕ) → HasSeenBytes role taken.old.session bytes taken.old.seen →
        OnOk result (HasSeenBytes role taken.new.session (bytes ++ part.now) taken.new.seen) }
    ensures over { is_over taken.old.session.status ≡ true → taken.new.session ≡ taken.old.session }
{
    session_laws();
    let mut rest = part;
    while !rest.is_empty() {
        let front = take_front(way, number, rest, rooms, taken)?;
        rest = &rest[front.used..];
    }
    Ok(())
}

/// Takes the front of a piece, up to its next event, and collects that: how many bytes these are, and the event, whose
/// payload is in the room. Nobody reads what the session puts.
#[inline]
pub(super) fn take_front<K: KeepsReplies>(
    way: Way,
    number: usize,
    piece: &[u8],
    rooms: &mut Rooms,
    taken: &mut Taken<K>,
) -> Result<TakenInto, NoMemory>
    requires { 0 < length piece.now }
    ensures used { IfOk result (λ front. (0 < front.used) × (front.used ≤ length piece.now)) }
    ensures told { IfOk result (λ front. TellsAdded taken.old.session taken.new.session (take front.used piece.now)
        (option_to_list (event_if_any front.event rooms.new.told))) }
    ensures taken { EventLaws → (handed : List (InTurn Reply)) (role : Role) (turns : List (List ℕ)) (last : List ℕ) →
        number ≡ length turns →
        HasTakenWay (K.keeps handed) way role (turns ++ last ∷ []) taken.old.session taken.old.collected →
        IfOk result (λ front. HasTakenWay (K.keeps handed) way role (turns ++ (last ++ take front.used piece.now) ∷ [])
        taken.new.session taken.new.collected) }
    ensures seen { (role : Role) (bytes : List ℕ) → HasSeenBytes role taken.old.session bytes taken.old.seen →
        IfOk result (λ front. HasSeenBytes role taken.new.session (bytes ++ take front.used piece.now)
        taken.new.seen) }
    ensures over { is_over taken.old.session.status ≡ true → taken.new.session ≡ taken.old.session }
{
    rooms.put.clear();
    let front = taken
        .session
        .take_into(piece, NO_KEY, &mut rooms.put, &mut rooms.told)?;
    taken.seen.take(front.used)?;
    taken.collected.has_rest = front.event.is_none();
    collect_found(
        way,
        number,
        front.event,
        &rooms.told,
        &mut taken.collected,
        &mut taken.seen,
    )?;
    Ok(front)
}

/// Collects what an event says, if there is one, and sees where it ends. Its payload is lent.
#[inline]
fn collect_found<K: KeepsReplies>(
    way: Way,
    turn: usize,
    event: Option<EventKind>,
    told: &PayloadRoom,
    collected: &mut Collected<K>,
    seen: &mut Seen,
) -> Result<(), NoMemory>
    ensures collected { OnOk result (AreCollected K.keeps way turn (option_to_list (event_if_any event told.now))
        collected.old collected.new) }
    ensures seen { OnOk result (seen.new ≡ seen_if_any seen.old event) }
{
    match event {
        Some(event) => see_event(way, turn, event, told, collected, seen),
        None => Ok(()),
    }
}

/// Collects what an event says, and sees where it ends. Its kind is asked about once: each arm collects what this kind
/// says.
#[inline]
fn see_event<K: KeepsReplies>(
    way: Way,
    turn: usize,
    event: EventKind,
    told: &PayloadRoom,
    collected: &mut Collected<K>,
    seen: &mut Seen,
) -> Result<(), NoMemory>
    ensures collected { OnOk result (AreCollected K.keeps way turn (event_in event told.now ∷ [])
        collected.old collected.new) }
    ensures seen { OnOk result (seen.new ≡ seen_with seen.old event) }
{
    match event {
        EventKind::Part => {
            seen.note_frame(LastFrame::Fragment);
            collect_event(way, turn, event, told, collected)
        }
        EventKind::Message(_) => {
            seen.note_frame(LastFrame::Message);
            collect_event(way, turn, event, told, collected)
        }
        EventKind::Ping => {
            seen.note_control();
            collect_event(way, turn, event, told, collected)
        }
        EventKind::Pong => {
            seen.note_control();
            collect_event(way, turn, event, told, collected)
        }
        EventKind::Close(_) => {
            seen.note_end(StreamEnd::Closed);
            collect_event(way, turn, event, told, collected)
        }
        EventKind::Failed(reason) => {
            seen.note_end(StreamEnd::Failed(reason));
            collect_event(way, turn, event, told, collected)
        }
    }
}

/// Collects what an event says.
#[inline]
fn collect_event<K: KeepsReplies>(
    way: Way,
    turn: usize,
    event: EventKind,
    told: &PayloadRoom,
    collected: &mut Collected<K>,
) -> Result<(), NoMemory>
    ensures { OnOk result (AreCollected K.keeps way turn (event_in event told.now ∷ [])
        collected.old collected.new) }
{
    if let Some(what) = ending_of(event) {
        collected.ending = Some(InTurn { turn, what });
    }
    if let Some(kind) = reply_of(way, event) {
        collected.replies.keep(Kept {
            turn,
            kind,
            payload: told.as_slice(),
        })?;
    }
    Ok(())
}

/// The close or the fault that an event is.
#[inline]
fn ending_of(event: EventKind) -> Option<Ending>
    ensures { (payload : List ℕ) → ending_in (event_in event payload) ≡ option_to_list result }
{
    match event {
        EventKind::Part | EventKind::Message(_) | EventKind::Ping | EventKind::Pong => None,
        EventKind::Close(code) => Some(Ending::Closed(code)),
        EventKind::Failed(reason) => Some(Ending::Failed(reason)),
    }
}

/// What the reply that is due for an event that was sent, or that an event that was got is, or what is told of it; its
/// payload is that of the event.
#[inline]
fn reply_of(way: Way, event: EventKind) -> Option<ReplyKind>
    ensures { (payload : List ℕ) → found_by way (event_in event payload) ≡ reply_if_any result payload }
{
    match (way, event) {
        (_, EventKind::Message(Kind::Text)) => Some(ReplyKind::Text),
        (_, EventKind::Message(Kind::Binary)) => Some(ReplyKind::Binary),
        (Way::Sent, EventKind::Ping) | (Way::Got | Way::Told, EventKind::Pong) => {
            Some(ReplyKind::Pong)
        }
        (Way::Told, EventKind::Ping) => Some(ReplyKind::Ping),
        _ => None,
    }
}
