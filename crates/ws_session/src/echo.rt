//! An endpoint that sends each message back (RFC 6455 section 5.6).

ghost use Rattle.std.specs.Prelude.{◌≡◌, ◌≤◌, ◌<◌, ℕ, List, [], length, drop, None, Bool, true, false, IsOk, IfOk};
ghost use Rattle.std.specs.Prelude.{IfErr, IsOkAnd, OnErr};
ghost use Rattle.ws_wire.specs.Frame.{Frame};
ghost use Rattle.ws_session.specs.declared.event.PlacedEvent.{PlacedEvent};
ghost use Rattle.ws_session.specs.declared.status.Status.TheVariants.{Lost};
ghost use Rattle.ws_session.specs.Replies.{echo_reply_to};
ghost use Rattle.ws_session.specs.Exchange.{HasExchanged, HasSomeExchange, is_over};
ghost use Rattle.ws_session.specs.Taking.{HasTaken, TakesNothing, HasTakenAll, front_taken};
ghost use Rattle.ws_session.specs.Memory.{WantsMemory, WantsMemoryToTell};

use crate::event::{PlacedEvent, TakeStop, Taken};
use crate::limits::Limits;
use crate::session::{Answering, Session};
use crate::status::Status;
use std::alloc::Global;
use std::marker::Model;
use ws_base::NoMemory;
use ws_wire::Role;

/// A session that sends each message back in one frame as soon as it is whole, unless its close was sent. It sends
/// nothing else of its own accord, so no message is ever open on its sending side.
#[derive(Drop)]
pub struct Echo {
    session: Session,
}

impl Model for Echo {
    ghost use Rattle.std.specs.Prelude.{◌≡◌, None};
    ghost use Rattle.ws_session.specs.Exchange.{SessionValue};

    ghost Value = { SessionValue };

    ghost view = { λ e. e.session };

    ghost invariant = { λ e. e.session.sending ≡ None };
}

impl Echo {
    /// An echo that has sent and taken nothing.
    pub fn new(alloc: Global, limits: Limits, role: Role) -> Echo
        ensures role { result.role ≡ role }
        ensures limits { result.limits ≡ limits }
        ensures exchanged { HasExchanged result [] [] false }
    {
        Echo {
            session: Session::new(alloc, role, limits),
        }
    }

    /// How the session stands.
    pub fn status(&self) -> Status
        ensures { result ≡ self.now.status }
    {
        self.session.status()
    }

    /// Does nothing: every echo agrees with some frames sent and some bytes taken, and keeps at most the payload of one
    /// message, also after a call that memory was refused to.
    pub fn agrees(&self)
        ensures exchange { HasSomeExchange self.now }
        ensures kept { self.now.kept ≤ self.now.limits.max_message }
    {
        self.session.agrees();
    }

    /// The stream has ended: a session that waits for the other's close is lost, and keeps neither its open message nor
    /// the unfinished frame. One that is over stays as it is.
    pub fn end(&mut self)
        ensures exchanged { (sent : List Frame) (bytes : List ℕ) (ended : Bool) →
            HasExchanged self.old sent bytes ended → HasExchanged self.new sent bytes true }
        ensures lost { is_over self.old.status ≡ false → self.new.status ≡ Lost }
        ensures forgets { is_over self.old.status ≡ false → (self.new.opened ≡ None) × (self.new.partial_frame ≡ []) }
        ensures drops { is_over self.old.status ≡ false → self.new.kept ≡ 0 }
        ensures over { is_over self.old.status ≡ true → self.new ≡ self.old }
        ensures role { self.new.role ≡ self.old.role }
        ensures limits { self.new.limits ≡ self.old.limits }
    {
        self.session.end();
    }

    /// Takes bytes as `Session::take` does, and puts each whole message back at the end of `out` beside
    /// what else is owed. `NoMemory` where a growth was refused: then nothing is taken and nothing changed.
    pub fn take(&mut self, piece: &[u8], key: [u8; 4], out: &mut Vec<u8>) -> Result<Taken, NoMemory>
        ensures taken { IfOk result (λ taken. HasTaken echo_reply_to self.old self.new
            (record { piece = piece.now; key = key; before = out.old.items; after = out.new.items }) taken) }
        ensures over { is_over self.old.status ≡ true → IsOkAnd result (λ taken. TakesNothing self.old self.new
            (record { piece = piece.now; key = key; before = out.old.items; after = out.new.items }) taken) }

        // At least one byte is used where there is one, and want of memory leaves all as it was.
        ensures used { IfOk result (λ taken. (0 < length piece.now → 0 < taken.used)
            × (taken.used ≤ length piece.now)) }
        ensures role { self.new.role ≡ self.old.role }
        ensures limits { self.new.limits ≡ self.old.limits }
        ensures kept { OnErr result ((self.new ≡ self.old) × (out.new.items ≡ out.old.items)) }

        // Memory is wanted where the bytes that would be used hold payload of a data frame, or an answer is owed.
        ensures memory { OnErr result (WantsMemory echo_reply_to self.old piece.now) }
    {
        let taken = self
            .session
            .take_owned(Answering::Echoing, piece, key, out)?;
        Ok(taken)
    }

    /// Takes a whole piece as `Session::take_all` does, and puts each whole message back at the end of `out` beside
    /// what else is owed. `TakeStop` where a growth was refused: the bytes that it counts were taken, with their events
    /// and replies.
    pub fn take_all(
        &mut self,
        piece: &[u8],
        key: [u8; 4],
        out: &mut Vec<u8>,
        events: &mut Vec<PlacedEvent>,
    ) -> Result<(), TakeStop>
        ensures taken { HasTakenAll echo_reply_to self.old self.new
            (record { piece = front_taken piece.now result; key = key; before = out.old.items; after = out.new.items })
            events.old.items events.new.items }
        ensures over { is_over self.old.status ≡ true → IsOk result × (self.new ≡ self.old)
            × (out.new.items ≡ out.old.items) × (events.new.items ≡ events.old.items) }

        // Where memory ran out some bytes are left.
        ensures used { IfErr result (λ stop. stop.used < length piece.now) }

        // Memory is wanted where the bytes that would be used next hold payload of a data frame, or an event comes.
        ensures memory { IfErr result (λ stop. WantsMemoryToTell self.new (drop stop.used piece.now)) }
        ensures role { self.new.role ≡ self.old.role }
        ensures limits { self.new.limits ≡ self.old.limits }
    {
        self.session
            .take_all_by(Answering::Echoing, piece, key, out, events)
    }

    /// Takes a whole piece as `Session::pass` does, and puts each whole message back at the end of `out` beside what
    /// else is owed. `TakeStop` where a growth was refused: the bytes that it counts were taken, with their replies.
    pub fn pass(&mut self, piece: &[u8], key: [u8; 4], out: &mut Vec<u8>) -> Result<(), TakeStop>
        ensures taken { (told : List PlacedEvent) × HasTakenAll echo_reply_to self.old self.new
            (record { piece = front_taken piece.now result; key = key; before = out.old.items; after = out.new.items })
            [] told }
        ensures over { is_over self.old.status ≡ true → IsOk result × (self.new ≡ self.old)
            × (out.new.items ≡ out.old.items) }

        // Where memory ran out some bytes are left.
        ensures used { IfErr result (λ stop. stop.used < length piece.now) }

        // Memory is wanted where the bytes that would be used next hold payload of a data frame, or an answer is owed.
        ensures memory { IfErr result (λ stop. WantsMemory echo_reply_to self.new (drop stop.used piece.now)) }
        ensures role { self.new.role ≡ self.old.role }
        ensures limits { self.new.limits ≡ self.old.limits }
    {
        self.session.pass_by(Answering::Echoing, piece, key, out)
    }
}
