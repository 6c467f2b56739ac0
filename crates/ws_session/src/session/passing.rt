//! A piece of which nobody looks at the events (RFC 6455 section 5.4).

ghost use Rattle.std.specs.Prelude.{◌≡◌, ◌<◌, List, [], length, drop, true, IsOk, IfErr};
ghost use Rattle.ws_session.specs.declared.event.PlacedEvent.{PlacedEvent};
ghost use Rattle.ws_session.specs.declared.session.Answering.{Answering};
ghost use Rattle.ws_session.specs.Replies.{reply_to};
ghost use Rattle.ws_session.specs.Exchange.{is_over};
ghost use Rattle.ws_session.specs.Taking.{HasTakenAll, front_taken};
ghost use Rattle.ws_session.specs.Memory.{WantsMemory};
ghost use Rattle.ws_session.specs.InnerInvariant.{CanAnswer, reply_by};

use crate::event::TakeStop;
use crate::event_room::EventRoom;
use crate::session::{Answering, Session};

impl Session {
    /// Takes a whole piece as `take_all` does, and lets each event go: for those who look at none. What is owed is put
    /// at the end of `out`. `TakeStop` where a growth was refused: the bytes that it counts were taken, with their
    /// replies.
    pub fn pass(&mut self, piece: &[u8], key: [u8; 4], out: &mut Vec<u8>) -> Result<(), TakeStop>
        ensures taken { (told : List PlacedEvent) × HasTakenAll reply_to self.old self.new
            (record { piece = front_taken piece.now result; key = key; before = out.old.items; after = out.new.items })
            [] told }
        ensures over { is_over self.old.status ≡ true → IsOk result × (self.new ≡ self.old)
            × (out.new.items ≡ out.old.items) }

        // Where memory ran out some bytes are left.
        ensures used { IfErr result (λ stop. stop.used < length piece.now) }

        // Memory is wanted where the bytes that would be used next hold payload of a data frame, or an answer is owed.
        ensures memory { IfErr result (λ stop. WantsMemory reply_to self.new (drop stop.used piece.now)) }
        ensures role { self.new.role ≡ self.old.role }
        ensures limits { self.new.limits ≡ self.old.limits }
    {
        self.pass_by(Answering::Plain, piece, key, out)
    }

    /// Takes a whole piece as `pass` does, and where it is echoing sends each message back.
    pub(crate) fn pass_by(
        &mut self,
        answering: Answering,
        piece: &[u8],
        key: [u8; 4],
        out: &mut Vec<u8>,
    ) -> Result<(), TakeStop>
        requires { CanAnswer answering self.old.sending }
        ensures taken { (told : List PlacedEvent) × HasTakenAll (reply_by answering) self.old self.new
            (record { piece = front_taken piece.now result; key = key; before = out.old.items; after = out.new.items })
            [] told }
        ensures over { is_over self.old.status ≡ true → IsOk result × (self.new ≡ self.old)
            × (out.new.items ≡ out.old.items) }
        ensures used { IfErr result (λ stop. stop.used < length piece.now) }
        ensures memory { IfErr result (λ stop. WantsMemory (reply_by answering) self.new (drop stop.used piece.now)) }
        ensures role { self.new.role ≡ self.old.role }
        ensures limits { self.new.limits ≡ self.old.limits }
        ensures sending { self.new.sending ≡ self.old.sending }
    {
        let mut room = EventRoom::new(self.state.alloc());
        let mut used = 0;
        while used < piece.len() && !self.status().is_over() {
            room.clear();
            match self.take_by(answering, &piece[used..], key, out, &mut room) {
                Ok(taken) => used += taken.used,
                Err(_) => return Err(TakeStop { used }),
            }
        }
        Ok(())
    }
}
