//! Bytes that are taken while a run waits: what is progress of them is noted, and which pings aren't answered yet.

ghost use Rattle.std.specs.Prelude.{◌≡◌, ◌||◌, ℕ, List, [], ◌∷◌, ◌++◌, length, take, true, IfOk, OnOk};
ghost use Rattle.std.specs.Prelude.{option_to_list};
ghost use Rattle.ws_wire.specs.declared.role.Role.{Role};
ghost use Rattle.ws_session.specs.declared.event.Event.{Event};
ghost use Rattle.ws_session.specs.Exchange.{is_over};
ghost use Rattle.ws_session.specs.Lent.{event_if_any, event_in};
ghost use Rattle.ws_suite.specs.declared.evidence.InTurn.{InTurn};
ghost use Rattle.ws_suite.specs.declared.evidence.Reply.{Reply};
ghost use Rattle.ws_suite.specs.InnerCollecting.{HasTakenWay};
ghost use Rattle.ws_suite.specs.InnerProgress.{TellsAdded, noted_pings, notes_progress};
ghost use Rattle.ws_suite.specs.Progress.{after_pongs, has_progress, with_pings};

use crate::evidence::KeepsReplies;
use crate::evidence::collecting::{Rooms, Taken, Way, take_front};
use crate::evidence::unanswered::ControlPayloads;
use crate::lemmas::session_laws;
use ws_base::NoMemory;
use ws_parts::cut_part;
use ws_session::EventKind;

/// Takes a piece of the turn with this number, which is the last, and collects what it says, as `take_piece` does. It
/// tells whether an event that was got is progress, and notes which pings aren't answered.
pub(super) fn take_watched<K: KeepsReplies>(
    way: Way,
    number: usize,
    piece: &[u8],
    rooms: &mut Rooms,
    taken: &mut Taken<K>,
    pings: &mut ControlPayloads,
) -> Result<bool, NoMemory>
    ensures taken { (handed : List (InTurn Reply)) (role : Role) (turns : List (List ℕ)) (last : List ℕ) →
        number ≡ length turns →
        HasTakenWay (K.keeps handed) way role (turns ++ last ∷ []) taken.old.session taken.old.collected →
        OnOk result (HasTakenWay (K.keeps handed) way role (turns ++ (last ++ piece.now) ∷ [])
        taken.new.session taken.new.collected) }
    ensures noted { IfOk result (λ progress. (later : List Event)
        × TellsAdded taken.old.session taken.new.session piece.now later
        × (pings.new ≡ noted_pings way pings.old later) × (progress ≡ notes_progress way pings.old later)) }
    ensures over { is_over taken.old.session.status ≡ true → taken.new.session ≡ taken.old.session }
{
    let mut progress = false;
    let mut rest = piece;
    while !rest.is_empty() {
        let (part, after) = cut_part(rest);
        let has_progress = take_watched_part(way, number, part, rooms, taken, pings)?;
        progress = or_before(has_progress, progress);
        rest = after;
    }
    Ok(progress)
}

/// The same of a part of it.
fn take_watched_part<K: KeepsReplies>(
    way: Way,
    number: usize,
    part: &[u8],
    rooms: &mut Rooms,
    taken: &mut Taken<K>,
    pings: &mut ControlPayloads,
) -> Result<bool, NoMemory>
    ensures taken { (handed : List (InTurn Reply)) (role : Role) (turns : List (List ℕ)) (last : List ℕ) →
        number ≡ length turns →
        HasTakenWay (K.keeps handed) way role (turns ++ last ∷ []) taken.old.session taken.old.collected →
        OnOk result (HasTakenWay (K.keeps handed) way role (turns ++ (last ++ part.now) ∷ [])
        taken.new.session taken.new.collected) }
    ensures noted { IfOk result (λ progress. (later : List Event)
        × TellsAdded taken.old.session taken.new.session part.now later
        × (pings.new ≡ noted_pings way pings.old later) × (progress ≡ notes_progress way pings.old later)) }
    ensures over { is_over taken.old.session.status ≡ true → taken.new.session ≡ taken.old.session }
{
    session_laws();
    let mut progress = false;
    let mut rest = part;
    while !rest.is_empty() {
        let front = take_front(way, number, rest, rooms, taken)?;
        progress = note(way, front.event, rooms.payload(), pings, progress)?;
        rest = &rest[front.used..];
    }
    Ok(progress)
}

/// Whether there is progress now, or there was some before.
fn or_before(now: bool, before: bool) -> bool
    ensures { result ≡ (now || before) }
{
    now || before
}

/// Notes an event, if there is one, whose payload is lent: whether it is progress, or there was some before.
fn note(
    way: Way,
    event: Option<EventKind>,
    payload: &[u8],
    pings: &mut ControlPayloads,
    before: bool,
) -> Result<bool, NoMemory>
    ensures pings { OnOk result (pings.new
        ≡ noted_pings way pings.old (option_to_list (event_if_any event payload.now))) }
    ensures progress { IfOk result (λ progress.
        progress ≡ (notes_progress way pings.old (option_to_list (event_if_any event payload.now)) || before)) }
{
    let Some(event) = event else {
        return Ok(before);
    };
    match way {
        Way::Sent => {
            note_sent(event, payload, pings)?;
            Ok(before)
        }
        Way::Got | Way::Told => Ok(note_got(event, payload, pings) || before),
    }
}

/// Notes an event that was sent: a ping isn't answered yet.
fn note_sent(event: EventKind, payload: &[u8], pings: &mut ControlPayloads) -> Result<(), NoMemory>
    ensures { OnOk result (pings.new ≡ with_pings pings.old (event_in event payload.now ∷ [])) }
{
    match event {
        EventKind::Ping => {
            pings.add(payload)?;
            Ok(())
        }
        EventKind::Part
        | EventKind::Message(_)
        | EventKind::Pong
        | EventKind::Close(_)
        | EventKind::Failed(_) => Ok(()),
    }
}

/// Notes an event that was got: whether it is progress. A pong is where it is owed.
fn note_got(event: EventKind, payload: &[u8], pings: &mut ControlPayloads) -> bool
    ensures pings { pings.new ≡ after_pongs pings.old (event_in event payload.now ∷ []) }
    ensures progress { result ≡ has_progress pings.old (event_in event payload.now ∷ []) }
{
    match event {
        EventKind::Ping => false,
        EventKind::Pong => pings.answer(payload),
        EventKind::Part | EventKind::Message(_) | EventKind::Close(_) | EventKind::Failed(_) =>
            true,
    }
}
