//! What is sent, as a session keeps it (RFC 6455 sections 5.4, 5.5 and 7.1).

ghost use Rattle.std.specs.Prelude.{◌≡◌, ◌≢◌, ◌≤◌, ◌<◌, ◌++◌, length, Option, IfOk, IfErr, OnOk, OnErr, MatchResult};
ghost use Rattle.ws_wire.specs.Frame.{Frame, FitsTheLayout, frame_bytes};
ghost use Rattle.ws_text.specs.Close.{close_payload};
ghost use Rattle.ws_session.specs.declared.limits.TheConstants.{MAX_MESSAGE};
ghost use Rattle.ws_session.specs.declared.send_fault.SendFault.TheVariants as SendFault;
ghost use Rattle.ws_session.specs.declared.status.Status.TheVariants as Status;
ghost use Rattle.ws_session.specs.Sends.{Close, close_given, send_of, IsRefusedBy, HasSent, HasTextReason};
ghost use Rattle.ws_session.specs.InnerSending.{IsFineWith, IsFirstWrongWith};
ghost use Rattle.ws_session.specs.Replies.{under_key};
ghost use Rattle.ws_session.specs.declared.message.Message.{Message};

use crate::control_payload::Small;
use crate::opcode::{CLOSE, CONTINUATION, PING, PONG};
use crate::outgoing::Outgoing;
use crate::replying::put_frame;
use crate::send_fault::SendFault;
use crate::session::state::State;
use crate::status::Status;
use ws_text::laws::str_is_text;
use ws_text::{MAX_CONTROL_PAYLOAD, MAX_REASON, code_allowed};

impl State {
    pub(crate) fn send(
        &mut self,
        frame: &Outgoing<'_>,
        key: [u8; 4],
        out: &mut Vec<u8>,
    ) -> Result<(), SendFault>
        ensures sent { OnOk result (HasSent self.old self.new (send_of frame.now) key out.old.items out.new.items) }
        ensures refused { IfErr result (IsRefusedBy self.old (send_of frame.now)) }
        ensures kept { OnErr result ((self.new ≡ self.old) × (out.new.items ≡ out.old.items)) }
        ensures text { OnOk result (HasTextReason (send_of frame.now)) }
    {
        self.may_send()?;
        match frame {
            Outgoing::Begin { kind, payload, fin } => {
                let sending = self.sending.after_first(*kind, payload, *fin)?;
                self.put(*fin, kind.opcode(), payload, key, out)?;
                self.sending = sending;
            }
            Outgoing::More { payload, fin } => {
                let sending = self.sending.after_next(payload, *fin)?;
                self.put(*fin, CONTINUATION, payload, key, out)?;
                self.sending = sending;
            }
            Outgoing::Ping(payload) => {
                fits_control(payload)?;
                self.put(true, PING, payload, key, out)?;
            }
            Outgoing::Pong(payload) => {
                fits_control(payload)?;
                self.put(true, PONG, payload, key, out)?;
            }
            Outgoing::Close(given) => {
                let payload = payload_of_close(*given)?;
                self.put(true, CLOSE, payload.as_slice(), key, out)?;
                self.status = Status::Closing;
            }
        }
        Ok(())
    }

    /// Whether a frame may be sent at all.
    fn may_send(&self) -> Result<(), SendFault>
        ensures { MatchResult result (λ done. self.now.status ≡ Status.Open)
            (λ fault. (fault ≡ SendFault.Over) × (self.now.status ≢ Status.Open)) }
    {
        if self.status != Status::Open {
            return Err(SendFault::Over);
        }
        Ok(())
    }

    /// Puts a frame at the end of `out`.
    fn put(
        &self,
        fin: bool,
        opcode: u8,
        payload: &[u8],
        key: [u8; 4],
        out: &mut Vec<u8>,
    ) -> Result<(), SendFault>
        requires opcode { opcode < 16 }
        requires short { length payload.now ≤ MAX_MESSAGE }
        ensures put { let frame : Frame = record { fin = fin; rsv = 0; opcode = opcode; payload = payload.now }
            in OnOk result ((out.new.items ≡ out.old.items ++ frame_bytes (under_key self.now.role key frame))
            × FitsTheLayout (under_key self.now.role key frame)) }
        ensures kept { IfErr result (λ fault. (fault ≡ SendFault.NoMemory) × (out.new.items ≡ out.old.items)) }
    {
        if put_frame(self.receiver.role(), fin, opcode, payload, key, out).is_err() {
            return Err(SendFault::NoMemory);
        }
        Ok(())
    }
}

/// Whether a control frame can hold the payload.
fn fits_control(payload: &[u8]) -> Result<(), SendFault>
    ensures { MatchResult result (λ done. length payload.now ≤ 125)
        (λ fault. (fault ≡ SendFault.TooLong) × (125 < length payload.now)) }
{
    if payload.len() > MAX_CONTROL_PAYLOAD {
        return Err(SendFault::TooLong);
    }
    Ok(())
}

/// The payload of a close frame, or why it isn't sent.
fn payload_of_close(given: Option<(u16, &str)>) -> Result<Small, SendFault>
    ensures checked { (opened : Option Message) → MatchResult result
        (λ payload. IsFineWith opened (Close (close_given given.entry)))
        (λ fault. IsFirstWrongWith opened (Close (close_given given.entry)) fault) }
    ensures payload { IfOk result (λ payload. payload ≡ close_payload (close_given given.entry)) }

    // A `str` holds a text.
    ensures text { OnOk result (HasTextReason (Close (close_given given.entry))) }
{
    let Some((code, reason)) = given else {
        return Ok(Small::of(&[]));
    };
    if reason.len() > MAX_REASON {
        return Err(SendFault::TooLong);
    }
    if !code_allowed(code) {
        return Err(SendFault::BadCode);
    }
    str_is_text(reason);
    Ok(Small::joined(&code.to_be_bytes(), reason.as_bytes()))
}
