//! What a whole frame or a fault does to the receiving side, and what is put for it (RFC 6455 sections 5.4, 5.5 and
//! 7.1). What is owed is put first: where memory is refused nothing has changed.

ghost use Rattle.std.specs.Prelude.{◌≡◌, ◌≢◌, ◌≤◌, ◌++◌, [], length, if◌then◌else◌, OnOk, OnErr, Some, None};
ghost use Rattle.ws_session.specs.declared.event.Event.TheVariants as Event;
ghost use Rattle.ws_session.specs.Faults.{open_payload};
ghost use Rattle.ws_session.specs.InnerAssembly.{IsTextOf, HasReadOpen};
ghost use Rattle.ws_session.specs.declared.limits.TheConstants.{MAX_MESSAGE};
ghost use Rattle.ws_session.specs.declared.session.Answering.TheVariants.{Echoing};
ghost use Rattle.ws_session.specs.Lent.{payload_in};
ghost use Rattle.ws_session.specs.InnerNextFrame.{due_at};
ghost use Rattle.ws_session.specs.InnerInvariant.{reply_to_message};
ghost use Rattle.ws_session.specs.InnerReplying.{bytes_put};
ghost use Rattle.ws_session.specs.InnerReceiver.{IsSoundReceiver, HasReceived, IsOwed, IsExact, kept_message};

use crate::event_room::EventRoom;
use crate::message::Kind;
use crate::opcode::{CLOSE, PONG};
use crate::reason::Reason;
use crate::receiver::Receiver;
use crate::replying::Replying;
use crate::session::Answering;
use crate::status::Status;
use ws_base::NoMemory;
use ws_text::{Close, Utf8Stream};

impl Receiver {
    /// A whole data frame has come: a fragment, or a message that is told as it stands in the assembly.
    #[inline(always)]
    pub(super) fn on_data(
        &mut self,
        fin: bool,
        kind: Kind,
        text: Utf8Stream,
        status: &Status,
        answering: Answering,
        key: [u8; 4],
        out: &mut Vec<u8>,
        room: &mut EventRoom,
    ) -> Result<(), NoMemory>
        requires sound { IsSoundReceiver self.old }
        requires read { IsTextOf (kept_message self.old kind) text }
        requires fits { length self.old.assembled ≤ self.old.limits.max_message }
        requires nothing { room.old ≡ None }
        ensures told { OnOk result (room.new
            ≡ Some (if fin then Event.Message (kept_message self.old kind) else Event.Part)) }
        ensures received { OnOk result (HasReceived
            (record { role = self.old.role; status = status.now; answering = answering; key = key }) self.old self.new
            out.old.items out.new.items (if fin then Event.Message (kept_message self.old kind) else Event.Part)
            (if fin then None else Some (kept_message self.old kind))) }
        ensures sound { IsSoundReceiver self.new }
        ensures exact { OnOk result (IsExact self.new) }
        ensures room { OnOk result (length self.new.assembled ≤ self.new.limits.max_message) }
        ensures kept { OnErr result ((self.new ≡ self.old) × (out.new.items ≡ out.old.items)) }
        ensures owed { OnErr result (IsOwed
            (record { role = self.old.role; status = status.now; answering = answering; key = key })
            (if fin then Event.Message (kept_message self.old kind) else Event.Part)) }
    {
        if !fin {
            self.assembly.on_fragment(kind, text);
            self.frame.end();
            room.tell_part();
            return Ok(());
        }
        if answering == Answering::Echoing {
            self.send_back(kind, status, key, out)?;
        }
        self.assembly.on_message(kind, room);
        self.frame.end();
        Ok(())
    }

    /// Sends the message back that stands in the assembly.
    #[inline(never)]
    fn send_back(
        &self,
        kind: Kind,
        status: &Status,
        key: [u8; 4],
        out: &mut Vec<u8>,
    ) -> Result<(), NoMemory>
        requires fits { length self.now.assembled ≤ self.now.limits.max_message }
        requires limit { self.now.limits.max_message ≤ MAX_MESSAGE }
        ensures put { OnOk result (out.new.items ≡ out.old.items ++ bytes_put
            (record { role = self.now.role; status = status.now; answering = Echoing; key = key })
            (reply_to_message Echoing (kept_message self.now kind))) }
        ensures kept { OnErr result (out.new.items ≡ out.old.items) }
        ensures owed { OnErr result (due_at status.now (reply_to_message Echoing (kept_message self.now kind)) ≢ []) }
    {
        let replying = Replying {
            role: self.role,
            status: *status,
            answering: Answering::Echoing,
            key,
        };
        replying.reply_to_message(kind, self.assembly.payload(), out)?;
        Ok(())
    }

    /// A ping has come, whose payload lies in the room.
    pub(super) fn on_ping(
        &mut self,
        replying: &Replying,
        out: &mut Vec<u8>,
        room: &EventRoom,
    ) -> Result<(), NoMemory>
        requires sound { IsSoundReceiver self.old }
        requires read { HasReadOpen self.old.opened self.old.text }
        requires exact { length self.old.assembled ≡ length (open_payload self.old.opened) }
        requires short { length (payload_in room.now) ≤ 125 }
        ensures received { OnOk result (HasReceived replying.now self.old self.new
            out.old.items out.new.items (Event.Ping (payload_in room.now)) self.old.opened) }
        ensures sound { IsSoundReceiver self.new }
        ensures exact { OnOk result (IsExact self.new) }
        ensures room { OnOk result (length self.new.assembled ≤ self.new.limits.max_message) }
        ensures kept { OnErr result ((self.new ≡ self.old) × (out.new.items ≡ out.old.items)) }
        ensures owed { OnErr result (IsOwed replying.now (Event.Ping (payload_in room.now))) }
    {
        replying.reply(PONG, room.payload(), out)?;
        self.frame.end();
        Ok(())
    }

    /// A pong has come.
    pub(super) fn on_pong(&mut self)
        requires sound { IsSoundReceiver self.old }
        requires read { HasReadOpen self.old.opened self.old.text }
        requires exact { length self.old.assembled ≡ length (open_payload self.old.opened) }
        ensures opened { self.new.opened ≡ self.old.opened }
        ensures partial { self.new.partial_frame ≡ [] }
        ensures role { self.new.role ≡ self.old.role }
        ensures limits { self.new.limits ≡ self.old.limits }
        ensures sound { IsSoundReceiver self.new }
        ensures exact { IsExact self.new }
    {
        self.frame.end();
    }

    /// The other's close frame has come.
    pub(super) fn on_close(
        &mut self,
        close: &Option<Close>,
        replying: &Replying,
        out: &mut Vec<u8>,
    ) -> Result<(), NoMemory>
        requires sound { IsSoundReceiver self.old }
        ensures received { OnOk result (HasReceived replying.now self.old self.new
            out.old.items out.new.items (Event.Close close.now) None) }
        ensures sound { IsSoundReceiver self.new }
        ensures exact { OnOk result (IsExact self.new) }
        ensures room { OnOk result (length self.new.assembled ≤ self.new.limits.max_message) }
        ensures kept { OnErr result ((self.new ≡ self.old) × (out.new.items ≡ out.old.items)) }
        ensures owed { OnErr result (IsOwed replying.now (Event.Close close.now)) }
    {
        match close {
            None => replying.reply(CLOSE, &[], out)?,
            Some(given) => replying.reply(CLOSE, &given.code().to_be_bytes(), out)?,
        }
        self.end();
        Ok(())
    }

    /// The bytes break a rule.
    #[cold]
    #[inline(never)]
    pub(super) fn on_fault(
        &mut self,
        reason: Reason,
        replying: &Replying,
        out: &mut Vec<u8>,
    ) -> Result<(), NoMemory>
        requires sound { IsSoundReceiver self.old }
        ensures received { OnOk result (HasReceived replying.now self.old self.new
            out.old.items out.new.items (Event.Failed reason) None) }
        ensures sound { IsSoundReceiver self.new }
        ensures exact { OnOk result (IsExact self.new) }
        ensures room { OnOk result (length self.new.assembled ≤ self.new.limits.max_message) }
        ensures kept { OnErr result ((self.new ≡ self.old) × (out.new.items ≡ out.old.items)) }
        ensures owed { OnErr result (IsOwed replying.now (Event.Failed reason)) }
    {
        replying.reply(CLOSE, &reason.close_code().to_be_bytes(), out)?;
        self.end();
        Ok(())
    }
}
