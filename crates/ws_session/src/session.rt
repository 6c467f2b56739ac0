//! One endpoint: the bytes that it takes, and the frames that it sends (RFC 6455 sections 5 to 7).

ghost use Rattle.std.specs.Prelude.{◌≡◌, ◌↔◌, ◌+◌, ◌≤◌, ◌<◌, ℕ, List, [], length, None, Bool, true, false, IfOk};
ghost use Rattle.std.specs.Prelude.{IsOkAnd, OnErr, IsTrue};
ghost use Rattle.ws_wire.specs.Frame.{Frame, KeyedFrame};
ghost use Rattle.ws_session.specs.declared.status.Status.TheVariants.{Lost};
ghost use Rattle.ws_session.specs.Limits.{most_beside};
ghost use Rattle.ws_session.specs.Faults.{open_payload};
ghost use Rattle.ws_session.specs.Doomed.{IsDoomed, EndsDoomed};
ghost use Rattle.ws_session.specs.PingsAndPongs.{begins_ping_or_pong};
ghost use Rattle.ws_session.specs.Replies.{reply_to};
ghost use Rattle.ws_session.specs.Exchange.{HasExchanged, HasSomeExchange, is_over};
ghost use Rattle.ws_session.specs.Taking.{HasTaken, TakesNothing};
ghost use Rattle.ws_session.specs.Lent.{event_if_any, payload_in, taken_in};
ghost use Rattle.ws_session.specs.Memory.{WantsMemory};
ghost use Rattle.ws_session.specs.InnerInvariant.{CanAnswer, reply_by};

mod copying;
mod passing;
mod sends;
mod state;
mod whole_piece;

use crate::event::Taken;
use crate::event_room::EventRoom;
use crate::limits::Limits;
use crate::payload_room::{PayloadRoom, TakenInto};
use crate::session::state::State;
use crate::status::Status;
use std::alloc::Global;
use std::marker::Model;
use ws_base::NoMemory;
use ws_wire::Role;

/// One endpoint of a connection: it takes bytes and gives events and bytes. No stream, clock or random source is its
/// own.
///
/// What `take` and the sends put at `out` is to be written to the other end, and then cleared. Once
/// `status().is_over()`, write it and end the connection (RFC 6455 section 7.1.1). Call `end` where the stream ends.
/// Section 5.3 asks a client for a fresh masking key for each frame, which nobody can guess: keys are handed in, and
/// all that a call puts is masked under its one key.
#[derive(Drop)]
pub struct Session {
    state: State,
    /// The room of `take`, made once and not at each call. It is empty between two calls: what is told is handed out.
    room: EventRoom,
}

/// Whether messages are sent back.
#[derive(Clone, Copy, PartialEq, Eq)]
pub(crate) enum Answering {
    Plain,
    Echoing,
}

impl Model for Session {
    ghost use Rattle.std.specs.Prelude.{◌≡◌, None};
    ghost use Rattle.ws_session.specs.Exchange.{SessionValue, HasSomeExchange};

    ghost Value = { SessionValue };

    ghost view = { λ s. s.state };

    // No byte is kept beside the state: what was told has left the room.
    ghost invariant = { λ s. HasSomeExchange s.state × (s.room ≡ None) };
}

impl Session {
    /// A session that has sent and taken nothing.
    pub fn new(alloc: Global, role: Role, limits: Limits) -> Session
        ensures role { result.role ≡ role }
        ensures limits { result.limits ≡ limits }
        ensures exchanged { HasExchanged result [] [] false }
    {
        Session {
            state: State::new(alloc, role, limits),
            room: EventRoom::new(alloc),
        }
    }

    /// How the session stands.
    pub fn status(&self) -> Status
        ensures { result ≡ self.now.status }
    {
        self.state.status()
    }

    /// Does nothing: every session agrees with some frames sent and some bytes taken, and keeps at most the payload of
    /// one message, also after a call that memory was refused to.
    pub fn agrees(&self)
        ensures exchange { HasSomeExchange self.now }
        ensures kept { self.now.kept ≤ self.now.limits.max_message }
    {
        let _ = self.state.held();
    }

    /// The number of input bytes that are kept: those of the open message and of the unfinished frame,
    /// at most 139 more than the limit of a message, and none once the session is over.
    pub fn held(&self) -> usize
        ensures held { result ≡ length (open_payload self.now.opened) + length self.now.partial_frame }
        ensures bound { result ≤ self.now.limits.max_message + most_beside }
        ensures over { is_over self.now.status ≡ true → result ≡ 0 }

        // No payload byte is kept that isn't told.
        ensures kept { self.now.kept ≤ result }
    {
        self.state.held()
    }

    /// Whether the frame under way is doomed: it has begun, and whatever bytes complete it, it is at fault. So nothing
    /// that the other end sends can keep the connection from failing, although no fault has come: its place may be
    /// many bytes off. Of a session that is over nothing is under way.
    pub fn is_doomed(&self) -> bool
        ensures doomed { IsTrue result
            ↔ IsDoomed self.now.role self.now.limits self.now.opened self.now.partial_frame }
        ensures over { is_over self.now.status ≡ true → result ≡ false }

        // So it is of the whole stream, as far as it was taken.
        ensures stream { (sent : List Frame) (taken : List ℕ) (ended : Bool) → HasExchanged self.now sent taken ended
            → is_over self.now.status ≡ false → (IsTrue result ↔ ((frames : List KeyedFrame) × (rest : List ℕ)
            × EndsDoomed self.now.role self.now.limits taken frames rest)) }
    {
        self.state.is_doomed()
    }

    /// Whether the frame under way is a ping or a pong, which each end may send at any time: its first byte says so.
    /// False where no frame is under way.
    pub fn is_in_ping_or_pong(&self) -> bool
        ensures { result ≡ begins_ping_or_pong self.now.partial_frame }
    {
        self.state.is_in_ping_or_pong()
    }

    /// The stream has ended: a session that waits for the other's close is lost, and keeps neither its open message nor
    /// the unfinished frame. One that is over stays as it is.
    pub fn end(&mut self)
        ensures exchanged { (sent : List Frame) (bytes : List ℕ) (ended : Bool) →
            HasExchanged self.old sent bytes ended → HasExchanged self.new sent bytes true }
        ensures lost { is_over self.old.status ≡ false → self.new.status ≡ Lost }
        ensures forgets { is_over self.old.status ≡ false → (self.new.opened ≡ None) × (self.new.partial_frame ≡ []) }
        ensures drops { is_over self.old.status ≡ false → self.new.kept ≡ 0 }
        ensures over { is_over self.old.status ≡ true → self.new ≡ self.old }
        ensures role { self.new.role ≡ self.old.role }
        ensures limits { self.new.limits ≡ self.old.limits }
        ensures sending { self.new.sending ≡ self.old.sending }
    {
        if !self.state.status().is_over() {
            self.state.end_with(Status::Lost);
        }
    }

    /// Takes bytes from the front of a piece, up to the end of one frame or to a fault, and puts what
    /// is owed for that at the end of `out`. `key` masks what a client puts. Call it again with the
    /// rest of the piece. Once the session is over a piece is used whole and says nothing.
    /// `NoMemory` where a growth was refused: then nothing is taken and nothing changed.
    pub fn take(&mut self, piece: &[u8], key: [u8; 4], out: &mut Vec<u8>) -> Result<Taken, NoMemory>
        ensures taken { IfOk result (λ taken. HasTaken reply_to self.old self.new
            (record { piece = piece.now; key = key; before = out.old.items; after = out.new.items }) taken) }
        ensures over { is_over self.old.status ≡ true → IsOkAnd result (λ taken. TakesNothing self.old self.new
            (record { piece = piece.now; key = key; before = out.old.items; after = out.new.items }) taken) }

        // At least one byte is used where there is one, and want of memory leaves all as it was.
        ensures used { IfOk result (λ taken. (0 < length piece.now → 0 < taken.used)
            × (taken.used ≤ length piece.now)) }
        ensures role { self.new.role ≡ self.old.role }
        ensures limits { self.new.limits ≡ self.old.limits }
        ensures kept { OnErr result ((self.new ≡ self.old) × (out.new.items ≡ out.old.items)) }

        // Memory is wanted where the bytes that would be used hold payload of a data frame, or an answer is owed.
        ensures memory { OnErr result (WantsMemory reply_to self.old piece.now) }
    {
        self.take_owned(Answering::Plain, piece, key, out)
    }

    /// Takes bytes as `take` does, and lends the payload of what it tells: `room` is emptied first, and holds it then.
    /// So nothing is handed on by value, and a message's memory serves the next message too.
    pub fn take_into(
        &mut self,
        piece: &[u8],
        key: [u8; 4],
        out: &mut Vec<u8>,
        room: &mut PayloadRoom,
    ) -> Result<TakenInto, NoMemory>
        ensures taken { IfOk result (λ taken. HasTaken reply_to self.old self.new
            (record { piece = piece.now; key = key; before = out.old.items; after = out.new.items })
            (taken_in taken room.new)) }
        ensures over { is_over self.old.status ≡ true → IsOkAnd result (λ taken. TakesNothing self.old self.new
            (record { piece = piece.now; key = key; before = out.old.items; after = out.new.items })
            (taken_in taken room.new)) }

        // At least one byte is used where there is one, and want of memory leaves all but the room as it was.
        ensures used { IfOk result (λ taken. (0 < length piece.now → 0 < taken.used)
            × (taken.used ≤ length piece.now)) }
        ensures role { self.new.role ≡ self.old.role }
        ensures limits { self.new.limits ≡ self.old.limits }

        // The room holds the payload of what is told, and nothing where it has none or nothing is told.
        ensures lent { IfOk result (λ taken. room.new ≡ payload_in (event_if_any taken.event room.new)) }
        ensures empty { OnErr result (room.new ≡ []) }

        // What is lent and what is kept are no more than a message, a header and a control frame's payload.
        ensures held { IfOk result (λ taken. length room.new + (length (open_payload self.new.opened)
            + length self.new.partial_frame) ≤ self.new.limits.max_message + most_beside) }
        ensures kept { OnErr result ((self.new ≡ self.old) × (out.new.items ≡ out.old.items)) }

        // Memory is wanted where the bytes that would be used hold payload of a data frame, or an answer is owed.
        ensures memory { OnErr result (WantsMemory reply_to self.old piece.now) }
    {
        let room = &mut room.room;
        room.clear();
        let Ok(taken) = self.take_by(Answering::Plain, piece, key, out, room) else {
            room.clear();
            return Err(NoMemory);
        };
        Ok(taken)
    }

    /// Takes bytes as `take` does, and where it is echoing sends each message back.
    pub(crate) fn take_owned(
        &mut self,
        answering: Answering,
        piece: &[u8],
        key: [u8; 4],
        out: &mut Vec<u8>,
    ) -> Result<Taken, NoMemory>
        requires { CanAnswer answering self.old.sending }
        ensures taken { IfOk result (λ taken. HasTaken (reply_by answering) self.old self.new
            (record { piece = piece.now; key = key; before = out.old.items; after = out.new.items }) taken) }
        ensures over { is_over self.old.status ≡ true → IsOkAnd result (λ taken. TakesNothing self.old self.new
            (record { piece = piece.now; key = key; before = out.old.items; after = out.new.items }) taken) }
        ensures role { self.new.role ≡ self.old.role }
        ensures limits { self.new.limits ≡ self.old.limits }
        ensures used { IfOk result (λ taken. (0 < length piece.now → 0 < taken.used)
            × (taken.used ≤ length piece.now)) }
        ensures sending { self.new.sending ≡ self.old.sending }
        ensures kept { OnErr result ((self.new ≡ self.old) × (out.new.items ≡ out.old.items)) }
        ensures memory { OnErr result (WantsMemory (reply_by answering) self.old piece.now) }
    {
        let Ok(TakenInto { used, event: told }) = self
            .state
            .take_by(answering, piece, key, out, &mut self.room)
        else {
            self.room.clear();
            return Err(NoMemory);
        };
        let Some(_) = told else {
            return Ok(Taken { used, event: None });
        };
        let event = self.room.event();
        Ok(Taken { used, event })
    }

    /// The same, and leaves what it tells in the room.
    pub(crate) fn take_by(
        &mut self,
        answering: Answering,
        piece: &[u8],
        key: [u8; 4],
        out: &mut Vec<u8>,
        room: &mut EventRoom,
    ) -> Result<TakenInto, NoMemory>
        requires can { CanAnswer answering self.old.sending }
        requires nothing { room.old ≡ None }
        ensures taken { IfOk result (λ taken. HasTaken (reply_by answering) self.old self.new
            (record { piece = piece.now; key = key; before = out.old.items; after = out.new.items })
            (record { used = taken.used; event = room.new })) }
        ensures over { is_over self.old.status ≡ true → IsOkAnd result (λ taken. TakesNothing self.old self.new
            (record { piece = piece.now; key = key; before = out.old.items; after = out.new.items })
            (record { used = taken.used; event = room.new })) }
        ensures kind { IfOk result (λ taken. event_if_any taken.event (payload_in room.new) ≡ room.new) }
        ensures held { IfOk result (λ taken. length (payload_in room.new) + (length (open_payload self.new.opened)
            + length self.new.partial_frame) ≤ self.new.limits.max_message + most_beside) }
        ensures role { self.new.role ≡ self.old.role }
        ensures limits { self.new.limits ≡ self.old.limits }
        ensures used { IfOk result (λ taken. (0 < length piece.now → 0 < taken.used)
            × (taken.used ≤ length piece.now)) }
        ensures sending { self.new.sending ≡ self.old.sending }
        ensures kept { OnErr result ((self.new ≡ self.old) × (out.new.items ≡ out.old.items)) }
        ensures memory { OnErr result (WantsMemory (reply_by answering) self.old piece.now) }
    {
        self.state.take_by(answering, piece, key, out, room)
    }
}
