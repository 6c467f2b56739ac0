//! A piece with payload of a control frame (RFC 6455 section 5.5).

ghost use Rattle.std.specs.Prelude.{◌≡◌, ◌++◌, ◌+◌, ◌-◌, ◌≤◌, [], length, None, true, false, IfOk, OnErr, IsTrue};
ghost use Rattle.ws_wire.specs.Header.{AreBytes};
ghost use Rattle.ws_session.specs.Limits.{most_beside};
ghost use Rattle.ws_session.specs.Faults.{open_payload};
ghost use Rattle.ws_session.specs.Lent.{payload_in};
ghost use Rattle.ws_session.specs.Exchange.{is_over};
ghost use Rattle.ws_session.specs.InnerReceiving.{IsControlAt, control_payload_of};
ghost use Rattle.ws_session.specs.InnerReceiver.{IsSoundReceiver, IsExact, IsOwed, status_by, assembly_of};
ghost use Rattle.ws_session.specs.InnerTaking.{Receives, FrameGoesOn, WantsRoom};

use crate::event_room::EventRoom;
use crate::receiver::Receiver;
use crate::receiver::control_frame::read_close;
use crate::replying::Replying;
use ws_base::NoMemory;
use ws_wire::{Header, Opcode};

impl Receiver {
    /// Takes a piece that has payload of a control frame after its first `start` bytes, as `take` does. It stands apart
    /// so that a data frame doesn't pay for it.
    #[inline(never)]
    pub(super) fn take_control(
        &mut self,
        header: &Header,
        start: usize,
        piece: &[u8],
        replying: &Replying,
        out: &mut Vec<u8>,
        room: &mut EventRoom,
    ) -> Result<usize, NoMemory>
        requires exact { IsExact self.old }
        requires role { replying.now.role ≡ self.old.role }
        requires bytes { AreBytes (self.old.partial_frame ++ piece.now) }
        requires at { IsControlAt self.old.role self.old.limits (assembly_of self.old) self.old.frame piece.now
            header.now start }
        requires nothing { room.old ≡ None }
        ensures takes { IfOk result (λ used. Receives replying.now self.old self.new piece.now out.old.items
            out.new.items (record { used = used; event = room.new })) }
        ensures sound { IsSoundReceiver self.new }
        ensures exact { IfOk result (λ used. IsExact self.new) }
        ensures role { self.new.role ≡ self.old.role }
        ensures limits { self.new.limits ≡ self.old.limits }
        ensures over { IfOk result (λ used. is_over replying.now.status ≡ false
            → is_over (status_by replying.now.status room.new) ≡ true
            → (self.new.opened ≡ None) × (self.new.partial_frame ≡ [])) }
        ensures held { IfOk result (λ used. length (payload_in room.new) + (length (open_payload self.new.opened)
            + length self.new.partial_frame) ≤ self.new.limits.max_message + most_beside) }
        ensures kept { OnErr result ((self.new.opened ≡ self.old.opened)
            × (self.new.partial_frame ≡ self.old.partial_frame) × (out.new.items ≡ out.old.items)) }
        ensures came { OnErr result (self.new.came ≡ self.old.came) }
        ensures wants { OnErr result (WantsRoom (IsOwed replying.now) self.old piece.now) }
    {
        let rest = &piece[start..];
        let before = self.frame.control_payload();
        let left = header.payload_len() as usize - before.len();
        if rest.len() < left {
            self.frame.go_on_control(header, rest);
            return Ok(piece.len());
        }
        let used = start + left;
        match header.kind() {
            Opcode::Ping => {
                room.tell_ping(before, header.key(), &rest[..left]);
                self.on_ping(replying, out, room)?;
                Ok(used)
            }
            Opcode::Pong => {
                room.tell_pong(before, header.key(), &rest[..left]);
                self.on_pong();
                Ok(used)
            }
            Opcode::Close => {
                match read_close(header, before, &rest[..left]) {
                    Ok(close) => {
                        self.on_close(&close, replying, out)?;
                        room.tell_close(close);
                    }
                    Err(reason) => {
                        self.on_fault(reason, replying, out)?;
                        room.tell_fault(reason);
                    }
                }
                Ok(used)
            }
            Opcode::Continuation | Opcode::Text | Opcode::Binary | Opcode::Reserved(_) => {
                unreachable!()
            }
        }
    }
}
