//! A piece that is taken only where it gives no event (RFC 6455 sections 5.4 and 10.4).

ghost use Rattle.std.specs.Prelude.{◌≡◌, true, false, None, IsOkAnd, IfOk, OnErr};
ghost use Rattle.ws_session.specs.InnerReceiver.{IsSoundReceiver, IsExact};
ghost use Rattle.ws_session.specs.InnerTaking.{FrameGoesOn, WantsRoom};

use crate::event_room::EventRoom;
use crate::receiver::Receiver;
use crate::receiver::checking::check_piece;
use crate::receiver::control_frame::read_close;
use crate::receiver::piece_check::PieceCheck;
use ws_base::NoMemory;
use ws_wire::Opcode;

impl Receiver {
    /// Takes a piece that gives no event, whole. `false` where it would give one: then, and where a growth was refused,
    /// nothing that shows has changed.
    pub(crate) fn take_quiet(
        &mut self,
        piece: &[u8],
        room: &mut EventRoom,
    ) -> Result<bool, NoMemory>
        requires exact { IsExact self.old }
        requires nothing { room.old ≡ None }
        ensures nothing { room.new ≡ None }
        ensures goes_on { IfOk result (λ taken. taken ≡ true → FrameGoesOn self.old self.new piece.now) }
        ensures exact { IfOk result (λ taken. taken ≡ true → IsExact self.new) }
        ensures kept { IfOk result (λ taken. taken ≡ false → self.new.partial_frame ≡ self.old.partial_frame) }
        ensures came { IfOk result (λ taken. taken ≡ false → self.new.came ≡ self.old.came) }

        // An event comes.
        ensures tells { IfOk result (λ taken. taken ≡ false → WantsRoom (λ event. Unit) self.old piece.now) }
        ensures refused { OnErr result ((self.new.partial_frame ≡ self.old.partial_frame)
            × (self.new.came ≡ self.old.came)) }
        ensures opened { self.new.opened ≡ self.old.opened }
        ensures sound { IsSoundReceiver self.new }
        ensures role { self.new.role ≡ self.old.role }
        ensures limits { self.new.limits ≡ self.old.limits }

        // Want of memory: a byte of the piece is of the payload of a data frame.
        ensures wants { OnErr result (WantsRoom (λ event. Unit) self.old piece.now) }
    {
        let (assembly, frame) = (&mut self.assembly, &mut self.frame);
        let mut control = None;
        let (role, limits) = (self.role, &self.limits);
        let Some(check) = check_piece(role, limits, assembly, frame, piece, room, &mut control)?
        else {
            return Ok(true);
        };
        let PieceCheck::Control { start } = check else {
            return Ok(false);
        };
        let Some(header) = &control else {
            unreachable!()
        };
        let rest = &piece[start..];
        let before = self.frame.control_payload();
        let left = header.payload_len() as usize - before.len();
        if rest.len() < left {
            self.frame.go_on_control(header, rest);
            return Ok(true);
        }
        // A close is read, so that it is known to tell an event, be it right or wrong.
        if let Opcode::Close = header.kind() {
            let _ = read_close(header, before, &rest[..left]);
        }
        Ok(false)
    }
}
