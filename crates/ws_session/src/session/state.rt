//! What a session keeps, and the calls on it: each as the session's of that name.

ghost use Rattle.std.specs.Prelude.{◌≡◌, ◌↔◌, ◌+◌, ◌≤◌, ◌<◌, ℕ, List, [], length, None, true, false, IfOk, OnOk};
ghost use Rattle.std.specs.Prelude.{IsOkAnd, unwrap_or};
ghost use Rattle.std.specs.Prelude.{OnErr, IsTrue};
ghost use Rattle.ws_session.specs.declared.status.Status.TheVariants.{Open};
ghost use Rattle.ws_session.specs.declared.session.Answering.{Answering};
ghost use Rattle.ws_session.specs.Limits.{most_beside};
ghost use Rattle.ws_session.specs.Faults.{open_payload};
ghost use Rattle.ws_session.specs.Doomed.{IsDoomed};
ghost use Rattle.ws_session.specs.Exchange.{is_over};
ghost use Rattle.ws_session.specs.PingsAndPongs.{begins_ping_or_pong};
ghost use Rattle.ws_session.specs.Taking.{HasTaken, TakesNothing};
ghost use Rattle.ws_session.specs.Lent.{event_if_any, payload_in};
ghost use Rattle.ws_session.specs.Memory.{WantsMemory, WantsMemoryToTell};
ghost use Rattle.ws_session.specs.InnerInvariant.{CanAnswer, reply_by};
ghost use Rattle.ws_session.specs.InnerReceiver.{status_by};

mod copying;
mod sends;

use crate::event_room::EventRoom;
use crate::limits::Limits;
use crate::payload_room::{EventKind, TakenInto};
use crate::receiver::Receiver;
use crate::sending::Sending;
use crate::session::Answering;
use crate::status::Status;
use std::alloc::Global;
use std::marker::Model;
use ws_base::NoMemory;
use ws_wire::Role;

/// What a session keeps: its receiving side, its sending side, and how it stands. Contracts see it as they see the
/// session. It is a type of its own since each of its calls changes one part after the other: what holds between them
/// is told of the parts, and a session is one of which some exchange stands, which no part alone can show.
#[derive(Drop)]
pub(super) struct State {
    receiver: Receiver,
    sending: Sending,
    status: Status,
}

impl Model for State {
    ghost use Rattle.ws_session.specs.Exchange.{SessionValue};

    ghost Value = { SessionValue };

    ghost use Rattle.ws_session.specs.InnerReceiver.{session_with};
    ghost use Rattle.ws_session.specs.InnerStanding.{IsStanding};

    ghost view = { λ s. session_with s.receiver s.sending s.status };

    ghost invariant = { λ s. IsStanding s.receiver s.sending s.status };
}

impl State {
    /// Nothing was sent or taken.
    pub(super) fn new(alloc: Global, role: Role, limits: Limits) -> State
        ensures { result ≡ record {
          role = role;
          limits = limits;
          opened = None;
          partial_frame = [];
          kept = 0;
          sending = None;
          status = Open;
        } }
    {
        State {
            receiver: Receiver::new(alloc, role, limits),
            sending: Sending::new(),
            status: Status::Open,
        }
    }

    /// What it asks for memory.
    pub(super) fn alloc(&self) -> Global {
        self.receiver.alloc()
    }

    pub(super) fn status(&self) -> Status
        ensures { result ≡ self.now.status }
    {
        self.status
    }

    pub(super) fn held(&self) -> usize
        ensures held { result ≡ length (open_payload self.now.opened) + length self.now.partial_frame }
        ensures bound { result ≤ self.now.limits.max_message + most_beside }
        ensures most { self.now.kept ≤ self.now.limits.max_message }
        ensures told { self.now.kept ≤ result }
        ensures over { is_over self.now.status ≡ true → result ≡ 0 }
    {
        self.receiver.held()
    }

    pub(super) fn is_doomed(&self) -> bool
        ensures doomed { IsTrue result
            ↔ IsDoomed self.now.role self.now.limits self.now.opened self.now.partial_frame }
        ensures over { is_over self.now.status ≡ true → result ≡ false }
    {
        self.receiver.is_doomed()
    }

    pub(super) fn is_in_ping_or_pong(&self) -> bool
        ensures { result ≡ begins_ping_or_pong self.now.partial_frame }
    {
        self.receiver.is_in_ping_or_pong()
    }

    /// All is over: nothing is kept any more.
    pub(super) fn end_with(&mut self, status: Status)
        requires { is_over status ≡ true }
        ensures { self.new ≡ record self.old { opened = None; partial_frame = []; kept = 0; status = status } }
    {
        self.receiver.end();
        self.status = status;
    }

    /// Takes the front of a piece, leaves what it tells in the room, and where it is echoing sends each message back.
    pub(super) fn take_by(
        &mut self,
        answering: Answering,
        piece: &[u8],
        key: [u8; 4],
        out: &mut Vec<u8>,
        room: &mut EventRoom,
    ) -> Result<TakenInto, NoMemory>
        requires can { CanAnswer answering self.old.sending }
        requires nothing { room.old ≡ None }
        ensures taken { IfOk result (λ taken. HasTaken (reply_by answering) self.old self.new
            (record { piece = piece.now; key = key; before = out.old.items; after = out.new.items })
            (record { used = taken.used; event = room.new })) }
        ensures over { is_over self.old.status ≡ true → IsOkAnd result (λ taken. TakesNothing self.old self.new
            (record { piece = piece.now; key = key; before = out.old.items; after = out.new.items })
            (record { used = taken.used; event = room.new })) }
        ensures kind { IfOk result (λ taken. event_if_any taken.event (payload_in room.new) ≡ room.new) }
        ensures held { IfOk result (λ taken. length (payload_in room.new) + (length (open_payload self.new.opened)
            + length self.new.partial_frame) ≤ self.new.limits.max_message + most_beside) }
        ensures role { self.new.role ≡ self.old.role }
        ensures limits { self.new.limits ≡ self.old.limits }
        ensures used { IfOk result (λ taken. (0 < length piece.now → 0 < taken.used)
            × (taken.used ≤ length piece.now)) }
        ensures sending { self.new.sending ≡ self.old.sending }
        ensures kept { OnErr result ((self.new ≡ self.old) × (out.new.items ≡ out.old.items)) }
        ensures memory { OnErr result (WantsMemory (reply_by answering) self.old piece.now) }
    {
        if self.status.is_over() {
            return Ok(TakenInto {
                used: piece.len(),
                event: None,
            });
        }
        match self
            .receiver
            .take(&self.status, answering, piece, key, out, room)
        {
            Ok(used) => {
                if !room.tells() {
                    return Ok(TakenInto { used, event: None });
                }
                let event = room.kind();
                if let Some(status) = status_by_event(event) {
                    self.status = status;
                }
                Ok(TakenInto { used, event })
            }
            Err(refused) => {
                self.receiver.cut();
                Err(refused)
            }
        }
    }

    /// Takes a piece that gives no event, whole. `false` where it would give one: then, and where a growth was refused,
    /// nothing has changed.
    pub(super) fn take_quiet(
        &mut self,
        piece: &[u8],
        room: &mut EventRoom,
    ) -> Result<bool, NoMemory>
        requires going { is_over self.old.status ≡ false }
        requires nothing { room.old ≡ None }
        ensures nothing { room.new ≡ None }
        ensures taken { (answering : Answering) (key before : List ℕ) → CanAnswer answering self.old.sending
            → IfOk result (λ taken. taken ≡ true → HasTaken (reply_by answering) self.old self.new
            (record { piece = piece.now; key = key; before = before; after = before })
            (record { used = length piece.now; event = None })) }
        ensures same { IfOk result (λ taken. taken ≡ false → self.new ≡ self.old) }
        ensures tells { IfOk result (λ taken. taken ≡ false → WantsMemoryToTell self.old piece.now) }
        ensures role { self.new.role ≡ self.old.role }
        ensures limits { self.new.limits ≡ self.old.limits }
        ensures sending { self.new.sending ≡ self.old.sending }
        ensures kept { OnErr result (self.new ≡ self.old) }
        ensures memory { OnErr result (WantsMemoryToTell self.old piece.now) }
    {
        match self.receiver.take_quiet(piece, room) {
            Ok(true) => Ok(true),
            Ok(false) => {
                self.receiver.cut();
                Ok(false)
            }
            Err(refused) => {
                self.receiver.cut();
                Err(refused)
            }
        }
    }
}

/// The status that an event gives a session that isn't over, if it gives one.
fn status_by_event(event: Option<EventKind>) -> Option<Status>
    ensures { (old : Status) (payload : List ℕ) → status_by old (event_if_any event payload) ≡ unwrap_or result old }
{
    match event {
        Some(EventKind::Failed(reason)) => Some(Status::Failed(reason)),
        Some(EventKind::Close(code)) => Some(Status::Clean(code)),
        None
        | Some(EventKind::Part)
        | Some(EventKind::Message(_))
        | Some(EventKind::Ping)
        | Some(EventKind::Pong) => None,
    }
}
