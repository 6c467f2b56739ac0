//! A piece that is taken whole, whatever number of frames it holds (RFC 6455 section 5.4).

ghost use Rattle.std.specs.Prelude.{◌≡◌, ◌+◌, ◌^◌, ◌≤◌, ◌<◌, ℕ, List, length, drop, None, true, false, IsOk, IfOk};
ghost use Rattle.std.specs.Prelude.{IfErr, OnOk, OnErr};
ghost use Rattle.ws_session.specs.declared.session.Answering.{Answering};
ghost use Rattle.ws_session.specs.Replies.{reply_to};
ghost use Rattle.ws_session.specs.Exchange.{is_over};
ghost use Rattle.ws_session.specs.Taking.{HasTaken, HasTakenAll, front_taken};
ghost use Rattle.ws_session.specs.Memory.{WantsMemoryToTell};
ghost use Rattle.ws_session.specs.InnerInvariant.{CanAnswer, HasTakenFront, reply_by};

use crate::event::{PlacedEvent, TakeStop};
use crate::event_room::EventRoom;
use crate::session::{Answering, Session};
use ws_base::NoMemory;

impl Session {
    /// Takes a whole piece: puts each event that it gives at the end of `events`, with the number of the piece's bytes
    /// up to there, and what is owed at the end of `out`. `key` masks what a client puts. Bytes after the peer's close
    /// or a fault say nothing. Once the session is over nothing happens.
    /// `TakeStop` where a growth was refused: the bytes that it counts were taken, with their events and replies.
    pub fn take_all(
        &mut self,
        piece: &[u8],
        key: [u8; 4],
        out: &mut Vec<u8>,
        events: &mut Vec<PlacedEvent>,
    ) -> Result<(), TakeStop>
        ensures taken { HasTakenAll reply_to self.old self.new
            (record { piece = front_taken piece.now result; key = key; before = out.old.items; after = out.new.items })
            events.old.items events.new.items }
        ensures over { is_over self.old.status ≡ true → IsOk result × (self.new ≡ self.old)
            × (out.new.items ≡ out.old.items) × (events.new.items ≡ events.old.items) }

        // Where memory ran out some bytes are left.
        ensures used { IfErr result (λ stop. stop.used < length piece.now) }

        // Memory is wanted where the bytes that would be used next hold payload of a data frame, or an event comes.
        ensures memory { IfErr result (λ stop. WantsMemoryToTell self.new (drop stop.used piece.now)) }
        ensures role { self.new.role ≡ self.old.role }
        ensures limits { self.new.limits ≡ self.old.limits }
    {
        self.take_all_by(Answering::Plain, piece, key, out, events)
    }

    /// Takes a whole piece as `take_all` does, and where it is echoing sends each message back.
    pub(crate) fn take_all_by(
        &mut self,
        answering: Answering,
        piece: &[u8],
        key: [u8; 4],
        out: &mut Vec<u8>,
        events: &mut Vec<PlacedEvent>,
    ) -> Result<(), TakeStop>
        requires { CanAnswer answering self.old.sending }
        ensures taken { HasTakenAll (reply_by answering) self.old self.new
            (record { piece = front_taken piece.now result; key = key; before = out.old.items; after = out.new.items })
            events.old.items events.new.items }
        ensures over { is_over self.old.status ≡ true → IsOk result × (self.new ≡ self.old)
            × (out.new.items ≡ out.old.items) × (events.new.items ≡ events.old.items) }
        ensures used { IfErr result (λ stop. stop.used < length piece.now) }
        ensures memory { IfErr result (λ stop. WantsMemoryToTell self.new (drop stop.used piece.now)) }
        ensures sending { self.new.sending ≡ self.old.sending }
    {
        let mut room = EventRoom::new(self.state.alloc());
        self.take_all_through(answering, piece, key, out, events, &mut room)
    }

    /// The same, through a room for one event after the other.
    fn take_all_through(
        &mut self,
        answering: Answering,
        piece: &[u8],
        key: [u8; 4],
        out: &mut Vec<u8>,
        events: &mut Vec<PlacedEvent>,
        room: &mut EventRoom,
    ) -> Result<(), TakeStop>
        requires { CanAnswer answering self.old.sending }
        ensures taken { HasTakenAll (reply_by answering) self.old self.new
            (record { piece = front_taken piece.now result; key = key; before = out.old.items; after = out.new.items })
            events.old.items events.new.items }
        ensures over { is_over self.old.status ≡ true → IsOk result × (self.new ≡ self.old)
            × (out.new.items ≡ out.old.items) × (events.new.items ≡ events.old.items) }
        ensures used { IfErr result (λ stop. stop.used < length piece.now) }
        ensures memory { IfErr result (λ stop. WantsMemoryToTell self.new (drop stop.used piece.now)) }
        ensures sending { self.new.sending ≡ self.old.sending }
    {
        let mut used = 0;
        while used < piece.len() && !self.status().is_over() {
            room.clear();
            match self.take_front(answering, &piece[used..], used, key, out, events, room) {
                Ok(more) => used += more,
                Err(_) => return Err(TakeStop { used }),
            }
        }
        Ok(())
    }

    /// Takes the front of what is left of a piece, of which so many bytes were taken before, as much as one call takes:
    /// how much that is. Where there is no room for an event, only what gives none is taken. `NoMemory` leaves all as
    /// it was.
    fn take_front(
        &mut self,
        answering: Answering,
        piece: &[u8],
        before: usize,
        key: [u8; 4],
        out: &mut Vec<u8>,
        events: &mut Vec<PlacedEvent>,
        room: &mut EventRoom,
    ) -> Result<usize, NoMemory>
        requires answering { CanAnswer answering self.old.sending }
        requires going { is_over self.old.status ≡ false }
        requires end { before + length piece.now < 2 ^ 64 }
        requires nothing { room.old ≡ None }
        ensures used { IfOk result (λ used. (0 < length piece.now → 0 < used) × (used ≤ length piece.now)) }
        ensures taken { IfOk result (λ used. HasTakenFront (reply_by answering) self.old self.new
            (record { piece = piece.now; key = key; before = out.old.items; after = out.new.items })
            before used events.old.items events.new.items) }
        ensures sending { self.new.sending ≡ self.old.sending }
        ensures kept { OnErr result ((self.new ≡ self.old) × (out.new.items ≡ out.old.items)
            × (events.new.items ≡ events.old.items)) }
        ensures memory { OnErr result (WantsMemoryToTell self.old piece.now) }
    {
        if events.reserve(1).is_err() {
            return self.take_unplaced(piece, room);
        }
        let taken = self.take_by(answering, piece, key, out, room)?;
        if let Some(event) = room.event() {
            events.push_reserved(PlacedEvent {
                event,
                end: before + taken.used,
            });
        }
        Ok(taken.used)
    }

    /// Takes a piece for whose event there is no room: whole, where it gives none, and else nothing.
    fn take_unplaced(&mut self, piece: &[u8], room: &mut EventRoom) -> Result<usize, NoMemory>
        requires going { is_over self.old.status ≡ false }
        requires nothing { room.old ≡ None }
        ensures whole { IfOk result (λ used. used ≡ length piece.now) }
        ensures taken { (answering : Answering) (key before : List ℕ) → CanAnswer answering self.old.sending
            → OnOk result (HasTaken (reply_by answering) self.old self.new
            (record { piece = piece.now; key = key; before = before; after = before })
            (record { used = length piece.now; event = None })) }
        ensures role { self.new.role ≡ self.old.role }
        ensures limits { self.new.limits ≡ self.old.limits }
        ensures sending { self.new.sending ≡ self.old.sending }
        ensures kept { OnErr result (self.new ≡ self.old) }
        ensures memory { OnErr result (WantsMemoryToTell self.old piece.now) }
    {
        if self.state.take_quiet(piece, room)? {
            return Ok(piece.len());
        }
        Err(NoMemory)
    }
}
