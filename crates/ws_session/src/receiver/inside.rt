//! A piece that lies inside the payload of a data frame, as most small ones do (RFC 6455 sections 5.4 and 5.6).

ghost use Rattle.std.specs.Prelude.{◌≡◌, ◌++◌, length, None, true, false, IfOk, OnErr};
ghost use Rattle.ws_wire.specs.Header.{AreBytes};
ghost use Rattle.ws_session.specs.InnerReceiving.{HasNewData};
ghost use Rattle.ws_session.specs.InnerReceiver.{IsSoundReceiver, IsExact};
ghost use Rattle.ws_session.specs.InnerTaking.{FrameGoesOn};

use crate::event_room::EventRoom;
use crate::receiver::Receiver;
use crate::receiver::data_payload::check_data;
use crate::receiver::under_way::UnderWay;
use ws_base::NoMemory;

impl Receiver {
    /// Takes a piece that lies inside the payload of a data frame and doesn't end it, whole. `false` where it is none
    /// such, or something is wrong with the text: then nothing has changed, and the piece goes the common way. It
    /// stands apart, so that a frame that comes whole doesn't pay for it.
    #[inline(never)]
    pub(super) fn take_inside(
        &mut self,
        piece: &[u8],
        room: &mut EventRoom,
    ) -> Result<bool, NoMemory>
        requires exact { IsExact self.old }
        requires nothing { room.old ≡ None }
        ensures nothing { room.new ≡ None }
        ensures goes_on { IfOk result (λ taken. taken ≡ true → FrameGoesOn self.old self.new piece.now) }
        ensures same { IfOk result (λ taken. taken ≡ false → self.new ≡ self.old) }
        ensures exact { IfOk result (λ taken. IsExact self.new) }
        ensures refused { OnErr result ((self.new.partial_frame ≡ self.old.partial_frame)
            × (self.new.came ≡ self.old.came)) }
        ensures opened { self.new.opened ≡ self.old.opened }
        ensures sound { IsSoundReceiver self.new }
        ensures role { self.new.role ≡ self.old.role }
        ensures limits { self.new.limits ≡ self.old.limits }

        // Want of memory: a byte of the piece is of the payload of a data frame.
        ensures bytes { OnErr result (AreBytes (self.old.partial_frame ++ piece.now)) }
        ensures wants { OnErr result (HasNewData self.old.role self.old.limits self.old.opened
            (length self.old.partial_frame) (self.old.partial_frame ++ piece.now)) }
    {
        let (assembly, frame) = (&mut self.assembly, &mut self.frame);
        let UnderWay::Data { header, came } = frame else {
            return Ok(false);
        };
        if piece.len() as u64 >= header.payload_len() - *came as u64 {
            return Ok(false);
        }
        if let Some(_) = check_data(assembly, header, *came, 0, piece, room)? {
            assembly.cut(*came);
            return Ok(false);
        }
        *came += piece.len();
        Ok(true)
    }
}
