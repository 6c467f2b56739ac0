//! What an endpoint puts of its own accord for what comes (RFC 6455 sections 5.5 and 7.1).

ghost use Rattle.std.specs.Prelude.{◌≡◌, ◌≢◌, ◌≤◌, ◌<◌, ◌∷◌, [], ◌++◌, length, OnOk, OnErr, true, None};
ghost use Rattle.ws_wire.specs.Frame.{Frame, FitsTheLayout, frame_bytes};
ghost use Rattle.ws_session.specs.declared.limits.TheConstants.{MAX_MESSAGE};
ghost use Rattle.ws_session.specs.Replies.{control_frame, under_key};
ghost use Rattle.ws_session.specs.declared.message.Message.{Message};
ghost use Rattle.ws_session.specs.InnerNextFrame.{due_at};
ghost use Rattle.ws_session.specs.InnerInvariant.{reply_to_message};
ghost use Rattle.ws_session.specs.InnerReplying.{bytes_put};

use crate::message::Kind;
use crate::session::Answering;
use crate::status::Status;
use ws_base::NoMemory;
use ws_wire::{Header, Role, append_frame};

/// The bit of a header's first byte that says that the frame is the last of its message (RFC 6455 section 5.2).
const FIN: u8 = 0x80;

/// How many bytes a header has without a key, and with at most 125 bytes of payload.
const SHORT_HEADER: usize = 2;

/// How an endpoint replies while it takes a piece.
#[derive(Clone, Copy)]
pub(crate) struct Replying {
    pub(crate) role: Role,
    /// Once its close was sent it puts nothing.
    pub(crate) status: Status,
    pub(crate) answering: Answering,
    /// Masks what a client puts.
    pub(crate) key: [u8; 4],
}

impl Replying {
    /// Puts a control frame at the end of `out`, unless the endpoint's close was sent.
    #[inline(always)]
    pub(crate) fn reply(
        &self,
        opcode: u8,
        payload: &[u8],
        out: &mut Vec<u8>,
    ) -> Result<(), NoMemory>
        requires opcode { opcode < 16 }
        requires short { length payload.now ≤ 125 }
        ensures put { OnOk result (out.new.items
            ≡ out.old.items ++ bytes_put self.now (control_frame opcode payload.now ∷ [])) }
        ensures kept { OnErr result (out.new.items ≡ out.old.items) }
        ensures owed { OnErr result (due_at self.now.status (control_frame opcode payload.now ∷ []) ≢ []) }
    {
        if matches!(self.status, Status::Closing) {
            return Ok(());
        }
        match self.role {
            Role::Client => put_frame(self.role, true, opcode, payload, self.key, out)?,
            Role::Server => put_short_unmasked(opcode, payload, out)?,
        }
        Ok(())
    }

    /// Puts a message back at the end of `out`, where this is an echo whose close was not sent.
    pub(crate) fn reply_to_message(
        &self,
        kind: Kind,
        payload: &[u8],
        out: &mut Vec<u8>,
    ) -> Result<(), NoMemory>
        requires { length payload.now ≤ MAX_MESSAGE }
        ensures put { let message : Message = record { kind = kind; payload = payload.now }
            in OnOk result (out.new.items
            ≡ out.old.items ++ bytes_put self.now (reply_to_message self.now.answering message)) }
        ensures kept { OnErr result (out.new.items ≡ out.old.items) }
        ensures owed { let message : Message = record { kind = kind; payload = payload.now }
            in OnErr result (due_at self.now.status (reply_to_message self.now.answering message) ≢ []) }
    {
        if self.answering == Answering::Plain || self.status == Status::Closing {
            return Ok(());
        }
        put_frame(self.role, true, kind.opcode(), payload, self.key, out)?;
        Ok(())
    }
}

/// Puts a frame at the end of `out`, under the key if this is a client.
#[inline(never)]
pub(crate) fn put_frame(
    role: Role,
    fin: bool,
    opcode: u8,
    payload: &[u8],
    key: [u8; 4],
    out: &mut Vec<u8>,
) -> Result<(), NoMemory>
    requires opcode { opcode < 16 }
    requires short { length payload.now ≤ MAX_MESSAGE }
    ensures put { let frame : Frame = record { fin = fin; rsv = 0; opcode = opcode; payload = payload.now }
        in OnOk result ((out.new.items ≡ out.old.items ++ frame_bytes (under_key role key frame))
        × FitsTheLayout (under_key role key frame)) }
    ensures kept { OnErr result (out.new.items ≡ out.old.items) }
{
    let key = match role {
        Role::Client => Some(key),
        Role::Server => None,
    };
    let Some(header) = Header::shortest(fin, 0, opcode, key, payload.len() as u64) else {
        unreachable!()
    };
    append_frame(&header, payload, out)?;
    Ok(())
}

/// Puts a frame of a server with FIN and at most 125 bytes of payload at the end of `out`: its header is two bytes. It
/// stands apart since most of what an endpoint replies is this.
fn put_short_unmasked(opcode: u8, payload: &[u8], out: &mut Vec<u8>) -> Result<(), NoMemory>
    requires opcode { opcode < 16 }
    requires short { length payload.now ≤ 125 }
    ensures put { let frame : Frame = record { fin = true; rsv = 0; opcode = opcode; payload = payload.now }
        in OnOk result (out.new.items ≡ out.old.items ++ frame_bytes (record { frame = frame; key = None })) }
    ensures kept { OnErr result (out.new.items ≡ out.old.items) }
{
    out.reserve(SHORT_HEADER + payload.len())?;
    out.push_reserved(FIN + opcode);
    out.push_reserved(payload.len() as u8);
    out.extend_from_slice(payload)?;
    Ok(())
}
