//! One end of two joined sessions: its session, and what it has put and delivered so far.

ghost use Rattle.std.specs.Prelude.{◌≡◌, ◌+◌, ◌-◌, ◌≤◌, ◌<◌, ◌^◌, ℕ, List, [], ◌++◌, length, min, if◌then◌else◌, false};
ghost use Rattle.std.specs.Prelude.{IfOk, OnOk, option_to_list};
ghost use Rattle.ws_wire.specs.declared.role.Role.{Role};
ghost use Rattle.ws_wire.specs.Frame.{KeyedFrame, stream_bytes};
ghost use Rattle.ws_session.specs.Limits.{LimitsValue};
ghost use Rattle.ws_session.specs.Events.{messages_in};
ghost use Rattle.ws_session.specs.Lent.{event_if_any};
ghost use Rattle.ws_pair.specs.declared.moves.End.{End};
ghost use Rattle.ws_pair.specs.Link.{LinkEnd, Link, BothLimits, new_end, end_of, other, role_at};
ghost use Rattle.ws_pair.specs.InnerPlaying.{AreSentBy, HasMoved, HasSentMove, IsEnd, IsNextIn, IsToldOf, IsEndAt};
ghost use Rattle.ws_pair.specs.InnerPlaying.{grown, peer};
ghost use Rattle.ws_session.specs.Sends.{send_of};
ghost use Rattle.ws_pair.specs.Moves.{with_cut, side_of};

use crate::lemmas::{has_key_bytes, session_laws};
use crate::messages::Messages;
use crate::moves::Move;
use crate::report::{Answer, EndReport};
use std::alloc::Global;
use ws_base::NoMemory;
use ws_session::{EventKind, Limits, Outgoing, PayloadRoom, SendFault, Session};
use ws_wire::Role;

/// One end of two joined sessions.
#[derive(Drop)]
pub(crate) struct Endpoint {
    session: Session,
    /// All bytes that it wrote.
    pub(crate) put: Vec<u8>,
    /// How many of the other's bytes have come.
    pub(crate) reached: usize,
    delivered: Messages,
    /// Room for the payload of what a frame tells.
    told: PayloadRoom,
    /// Whether the stream to this end has ended.
    is_cut: bool,
}

impl Endpoint {
    /// An end at which nothing has happened.
    pub(crate) fn new(alloc: Global, role: Role, limits: Limits) -> Endpoint
        ensures { IsEnd role limits new_end [] result }
    {
        Endpoint {
            session: Session::new(alloc, role, limits),
            put: Vec::new(alloc),
            reached: 0,
            delivered: Messages::new(alloc),
            told: PayloadRoom::new(alloc),
            is_cut: false,
        }
    }

    /// What came of it.
    pub(crate) fn into_report(self) -> EndReport
        ensures put { result.put ≡ self.put }
        ensures reached { result.reached ≡ self.reached }
        ensures delivered { result.delivered ≡ self.delivered }
        ensures status { result.status ≡ self.session.status }
        ensures session { result.session ≡ self.session }
    {
        EndReport {
            put: self.put,
            reached: self.reached as u64,
            delivered: self.delivered,
            status: self.session.status(),
            session: self.session,
        }
    }

    /// One move at this end. `others` is all that the other end has put.
    pub(crate) fn act(&mut self, others: &[u8], next: &Move) -> Result<Answer, NoMemory>
        requires reached { self.old.reached ≤ length others.now }
        ensures moved { (limits : BothLimits) (link : Link) → IsEndAt limits link (side_of next.now) self.old →
            AreSentBy (peer (role_at (side_of next.now))) (end_of link (other (side_of next.now))).sent →
            others.now ≡ stream_bytes (end_of link (other (side_of next.now))).sent →
            IfOk result (λ answer. HasMoved limits link next.now answer self.new) }
    {
        match next {
            Move::Begin {
                kind,
                payload,
                fin,
                key,
                ..
            } => {
                let frame = Outgoing::Begin {
                    kind: *kind,
                    payload: payload.as_slice(),
                    fin: *fin,
                };
                self.send(&frame, *key)
            }
            Move::More {
                payload,
                fin,
                key,
                ..
            } => {
                let frame = Outgoing::More {
                    payload: payload.as_slice(),
                    fin: *fin,
                };
                self.send(&frame, *key)
            }
            Move::Ping { payload, key, .. } => self.send(&Outgoing::Ping(payload.as_slice()), *key),
            Move::Pong { payload, key, .. } => self.send(&Outgoing::Pong(payload.as_slice()), *key),
            Move::Close { given, key, .. } => self.send(&Outgoing::close(given), *key),
            Move::Arrive { bytes, key, .. } => {
                let count = self.arrive(others, *bytes, *key)?;
                Ok(Answer::Arrived(count))
            }
            Move::Cut { .. } => {
                self.cut();
                Ok(Answer::Cut)
            }
        }
    }

    /// A frame is sent at this end. Want of memory ends the run.
    fn send(&mut self, frame: &Outgoing<'_>, key: [u8; 4]) -> Result<Answer, NoMemory>
        ensures { (limits : BothLimits) (link : Link) (side : End) → IsEndAt limits link side self.old →
            AreSentBy (peer (role_at side)) (end_of link (other side)).sent →
            IfOk result (λ answer. HasSentMove limits link side (send_of frame.now) key answer self.new) }
    {
        session_laws();
        let sent = self.session.send(frame, key, &mut self.put);
        let answer = send_answer(sent)?;
        Ok(answer)
    }

    /// The next bytes come, at most so many: how many do.
    fn arrive(&mut self, others: &[u8], bytes: u32, key: [u8; 4]) -> Result<u32, NoMemory>
        requires reached { self.old.reached ≤ length others.now }
        ensures count { IfOk result (λ count.
            count ≡ (if self.old.is_cut then 0 else min bytes (length others.now - self.old.reached))) }
        ensures arrived { (role : Role) (limits : LimitsValue) (x : LinkEnd) (xs : List KeyedFrame) →
            IsEnd role limits x xs self.old → AreSentBy (peer role) xs → others.now ≡ stream_bytes xs →
            IfOk result (λ count. IsEnd role limits (grown role limits x xs count key) xs self.new) }
    {
        session_laws();
        let count = self.arriving(others.len(), bytes);
        let end = self.reached + count as usize;
        self.deliver(&others[self.reached..end], key)?;
        Ok(count)
    }

    /// How many bytes come of so many that are asked for, where the other end has put so many: none behind a cut.
    fn arriving(&self, put: usize, bytes: u32) -> u32
        requires { self.now.reached ≤ put }
        ensures { result ≡ (if self.now.is_cut then 0 else min bytes (put - self.now.reached)) }
    {
        let rest = put - self.reached;
        if self.is_cut {
            0
        } else if rest < bytes as usize {
            rest as u32
        } else {
            bytes
        }
    }

    /// Takes a piece of what the other end has put, whole, frame after frame.
    fn deliver(&mut self, piece: &[u8], key: [u8; 4]) -> Result<(), NoMemory>
        requires room { self.old.reached + length piece.now < 2 ^ 64 }
        ensures { (role : Role) (limits : LimitsValue) (x : LinkEnd) (xs : List KeyedFrame) →
            IsEnd role limits x xs self.old → AreSentBy (peer role) xs →
            IsNextIn (stream_bytes xs) x.reached piece.now → (0 < length piece.now → x.is_cut ≡ false) →
            OnOk result (IsEnd role limits (grown role limits x xs (length piece.now) key) xs self.new) }
    {
        session_laws();
        let mut rest = piece;
        while !rest.is_empty() {
            let used = self.deliver_front(rest, key)?;
            rest = &rest[used..];
        }
        Ok(())
    }

    /// Takes the front of a piece, up to the end of a frame where it has one: how many bytes that is.
    fn deliver_front(&mut self, piece: &[u8], key: [u8; 4]) -> Result<usize, NoMemory>
        requires some { 0 < length piece.now }
        requires room { self.old.reached + length piece.now < 2 ^ 64 }
        ensures used { IfOk result (λ used. (0 < used) × (used ≤ length piece.now)) }
        ensures reached { IfOk result (λ used. self.new.reached ≡ self.old.reached + used) }
        ensures delivered { (role : Role) (limits : LimitsValue) (x : LinkEnd) (xs : List KeyedFrame) →
            IsEnd role limits x xs self.old → AreSentBy (peer role) xs →
            IsNextIn (stream_bytes xs) x.reached piece.now → x.is_cut ≡ false →
            IfOk result (λ used. IsEnd role limits (grown role limits x xs used key) xs self.new) }
    {
        session_laws();
        has_key_bytes(key);
        let taken = self
            .session
            .take_into(piece, key, &mut self.put, &mut self.told)?;
        keep_message(taken.event, self.told.as_slice(), &mut self.delivered)?;
        self.reached += taken.used;
        Ok(taken.used)
    }

    /// The stream to this end ends.
    fn cut(&mut self)
        ensures { (role : Role) (limits : LimitsValue) (x : LinkEnd) (xs : List KeyedFrame) →
            IsEnd role limits x xs self.old → IsEnd role limits (with_cut x) xs self.new }
    {
        self.session.end();
        self.is_cut = true;
    }
}

/// What a send is answered with. Want of memory ends the run.
fn send_answer(sent: Result<(), SendFault>) -> Result<Answer, NoMemory>
    ensures { IfOk result (IsToldOf sent) }
{
    match sent {
        Ok(()) => Ok(Answer::Did),
        Err(SendFault::NoMemory) => Err(NoMemory),
        Err(fault) => Ok(Answer::Refused(fault)),
    }
}

/// Puts the message that a frame told, if it did, behind those that were delivered before.
fn keep_message(
    told: Option<EventKind>,
    payload: &[u8],
    delivered: &mut Messages,
) -> Result<(), NoMemory>
    ensures { OnOk result (delivered.new.items
        ≡ delivered.old.items ++ messages_in (option_to_list (event_if_any told payload.now))) }
{
    if let Some(EventKind::Message(kind)) = told {
        delivered.push(kind, payload)?;
    }
    Ok(())
}
