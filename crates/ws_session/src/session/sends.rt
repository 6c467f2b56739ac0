//! The frames that an endpoint sends of its own accord (RFC 6455 sections 5.4, 5.5 and 7.1).
//!
//! Each call checks first, in the order of `SendFault`, and takes no memory for that. Then it puts the frame at the end
//! of `out`, and last it changes the session.

ghost use Rattle.std.specs.Prelude.{◌≡◌, IfErr, OnOk, OnErr};
ghost use Rattle.ws_session.specs.Sends.{Begin, More, Ping, Pong, Close, close_given, send_of};
ghost use Rattle.ws_session.specs.Sends.{IsRefusedBy, HasSent, HasTextReason};

use crate::message::Kind;
use crate::outgoing::Outgoing;
use crate::send_fault::SendFault;
use crate::session::Session;

impl Session {
    /// Sends a frame at the end of `out`. The five calls below do the same, each for one kind of frame.
    pub fn send(
        &mut self,
        frame: &Outgoing<'_>,
        key: [u8; 4],
        out: &mut Vec<u8>,
    ) -> Result<(), SendFault>
        ensures sent { OnOk result (HasSent self.old self.new (send_of frame.now) key out.old.items out.new.items) }
        ensures refused { IfErr result (IsRefusedBy self.old (send_of frame.now)) }
        ensures kept { OnErr result ((self.new ≡ self.old) × (out.new.items ≡ out.old.items)) }

        // A `str` holds a text.
        ensures text { OnOk result (HasTextReason (send_of frame.now)) }
    {
        self.state.send(frame, key, out)?;
        Ok(())
    }

    /// Sends the first frame of a message, with `fin` the whole message, at the end of `out`.
    pub fn begin(
        &mut self,
        kind: Kind,
        payload: &[u8],
        fin: bool,
        key: [u8; 4],
        out: &mut Vec<u8>,
    ) -> Result<(), SendFault>
        ensures sent { OnOk result (HasSent self.old self.new
            (Begin kind payload.now fin) key out.old.items out.new.items) }
        ensures refused { IfErr result (IsRefusedBy self.old (Begin kind payload.now fin)) }
        ensures kept { OnErr result ((self.new ≡ self.old) × (out.new.items ≡ out.old.items)) }
    {
        self.send(&Outgoing::Begin { kind, payload, fin }, key, out)?;
        Ok(())
    }

    /// Sends the next frame of the open message, with `fin` the last, at the end of `out`.
    pub fn more(
        &mut self,
        payload: &[u8],
        fin: bool,
        key: [u8; 4],
        out: &mut Vec<u8>,
    ) -> Result<(), SendFault>
        ensures sent { OnOk result (HasSent self.old self.new (More payload.now fin) key out.old.items out.new.items) }
        ensures refused { IfErr result (IsRefusedBy self.old (More payload.now fin)) }
        ensures kept { OnErr result ((self.new ≡ self.old) × (out.new.items ≡ out.old.items)) }
    {
        self.send(&Outgoing::More { payload, fin }, key, out)?;
        Ok(())
    }

    /// Sends a ping of at most 125 bytes at the end of `out`.
    pub fn ping(&mut self, payload: &[u8], key: [u8; 4], out: &mut Vec<u8>) -> Result<(), SendFault>
        ensures sent { OnOk result (HasSent self.old self.new (Ping payload.now) key out.old.items out.new.items) }
        ensures refused { IfErr result (IsRefusedBy self.old (Ping payload.now)) }
        ensures kept { OnErr result ((self.new ≡ self.old) × (out.new.items ≡ out.old.items)) }
    {
        self.send(&Outgoing::Ping(payload), key, out)?;
        Ok(())
    }

    /// Sends a pong of at most 125 bytes at the end of `out`, which no ping asked for. Pings are answered by `take`.
    pub fn pong(&mut self, payload: &[u8], key: [u8; 4], out: &mut Vec<u8>) -> Result<(), SendFault>
        ensures sent { OnOk result (HasSent self.old self.new (Pong payload.now) key out.old.items out.new.items) }
        ensures refused { IfErr result (IsRefusedBy self.old (Pong payload.now)) }
        ensures kept { OnErr result ((self.new ≡ self.old) × (out.new.items ≡ out.old.items)) }
    {
        self.send(&Outgoing::Pong(payload), key, out)?;
        Ok(())
    }

    /// Sends a close frame at the end of `out`, empty or with a code and a reason of at most 123 bytes. It is the last
    /// frame that the session sends. Then it waits for the peer's close.
    pub fn close(
        &mut self,
        given: Option<(u16, &str)>,
        key: [u8; 4],
        out: &mut Vec<u8>,
    ) -> Result<(), SendFault>
        ensures sent { OnOk result (HasSent self.old self.new
            (Close (close_given given.entry)) key out.old.items out.new.items) }
        ensures refused { IfErr result (IsRefusedBy self.old (Close (close_given given.entry))) }
        ensures kept { OnErr result ((self.new ≡ self.old) × (out.new.items ≡ out.old.items)) }

        // A `str` holds a text.
        ensures text { OnOk result (HasTextReason (Close (close_given given.entry))) }
    {
        self.send(&Outgoing::Close(given), key, out)?;
        Ok(())
    }
}
