//! The place in which a call leaves the event that it tells, with its payload.

ghost use Rattle.std.specs.Prelude.{◌≡◌, ◌≤◌, ◌<◌, ◌+◌, ◌++◌, [], length, take, is_some, Some, None, OnOk, OnErr};
ghost use Rattle.ws_session.specs.declared.event.Event.TheVariants as event;
ghost use Rattle.ws_session.specs.Exchange.{code_if_any};
ghost use Rattle.ws_session.specs.InnerMasked.{masked_from};
ghost use Rattle.ws_session.specs.Lent.{event_if_any, payload_in};

use crate::control_payload::{Small, unmask};
use crate::event::Event;
use crate::message::{Kind, Message};
use crate::payload_room::EventKind;
use crate::reason::Reason;
use std::alloc::Global;
use std::marker::Model;
use std::mem::{replace, swap};
use ws_base::{NoMemory, Payload};
use ws_text::{Close, MAX_CONTROL_PAYLOAD};

/// A message's room above so many bytes is given back by the next call.
const MOST_KEPT: usize = 128 * 1024;

/// What is told, but for a payload.
#[derive(Clone, Copy)]
pub(crate) enum Told {
    Nothing,
    Part,
    Message(Kind),
    Ping,
    Pong,
    Close,
    Failed(Reason),
}

/// One event, if there is one, kept in place: no call hands it on by value. Contracts see it as that event.
#[derive(Drop)]
pub(crate) struct EventRoom {
    alloc: Global,
    told: Told,
    /// The payload of a message, which is handed out and taken back as it stands. Empty where no message is told.
    message: Vec<u8>,
    /// The payload of a ping or a pong: its first `len` bytes.
    control: [u8; MAX_CONTROL_PAYLOAD],
    len: usize,
    /// What a close says.
    close: Option<Close>,
}

impl Model for EventRoom {
    ghost use Rattle.std.specs.Prelude.{Option};
    ghost use Rattle.ws_session.specs.declared.event.Event.{Event};
    ghost use Rattle.ws_session.specs.InnerRoom.{event_kept, IsRoomKept};

    ghost Value = { Option Event };

    ghost view = { λ r. event_kept r.told r.message.items r.control r.len r.close };

    ghost invariant = { λ r. IsRoomKept r.told r.message.items r.len };
}

impl EventRoom {
    /// A room that holds nothing and has asked for no memory.
    pub(crate) fn new(alloc: Global) -> EventRoom
        ensures { result ≡ None }
    {
        EventRoom {
            alloc,
            told: Told::Nothing,
            message: Vec::new(alloc),
            control: [0; MAX_CONTROL_PAYLOAD],
            len: 0,
            close: None,
        }
    }

    /// The payload of the event, or the reason of a close, or nothing where it has none.
    #[inline(always)]
    pub(crate) fn payload(&self) -> &[u8]
        ensures { result.now ≡ payload_in self.now }
    {
        match &self.told {
            Told::Message(_) => self.message.as_slice(),
            Told::Ping | Told::Pong => &self.control[..self.len],
            Told::Close => reason_in(&self.close),
            Told::Nothing | Told::Part | Told::Failed(_) => &[],
        }
    }

    /// Whether there is an event.
    pub(crate) fn tells(&self) -> bool
        ensures { result ≡ is_some self.now }
    {
        !matches!(self.told, Told::Nothing)
    }

    /// What the event is, but for its payload.
    pub(crate) fn kind(&self) -> Option<EventKind>
        ensures { event_if_any result (payload_in self.now) ≡ self.now }
    {
        match &self.told {
            Told::Nothing => None,
            Told::Part => Some(EventKind::Part),
            Told::Message(kind) => Some(EventKind::Message(*kind)),
            Told::Ping => Some(EventKind::Ping),
            Told::Pong => Some(EventKind::Pong),
            Told::Close => Some(EventKind::Close(code_in(&self.close))),
            Told::Failed(reason) => Some(EventKind::Failed(*reason)),
        }
    }

    /// The event, which owns its bytes. Nothing is left in the room.
    pub(crate) fn event(&mut self) -> Option<Event>
        ensures told { result ≡ self.old }
        ensures empty { self.new ≡ None }
    {
        let told = self.told;
        self.told = Told::Nothing;
        match told {
            Told::Nothing => None,
            Told::Part => Some(Event::Part),
            Told::Message(kind) => {
                let payload = replace(&mut self.message, Vec::new(self.alloc));
                Some(Event::Message(Message {
                    kind,
                    payload: Payload::from_vec(payload),
                }))
            }
            Told::Ping => Some(Event::Ping(Small::of(&self.control[..self.len]))),
            Told::Pong => Some(Event::Pong(Small::of(&self.control[..self.len]))),
            Told::Close => Some(Event::Close(self.close)),
            Told::Failed(reason) => Some(Event::Failed(reason)),
        }
    }

    /// Empties the room. What a message asked for is kept for the next one, unless it is much.
    pub(crate) fn clear(&mut self)
        ensures { self.new ≡ None }
    {
        if let Told::Message(_) = self.told {
            self.message.clear();
        }
        if self.message.capacity() > MOST_KEPT {
            self.message = Vec::new(self.alloc);
        }
        self.told = Told::Nothing;
    }

    /// Empties the room and gives its memory back.
    pub(crate) fn forget(&mut self)
        ensures { self.new ≡ None }
    {
        self.message = Vec::new(self.alloc);
        self.told = Told::Nothing;
    }

    /// Hands out the memory that the room has for a message, in exchange for an empty list.
    pub(crate) fn lend(&mut self, payload: &mut Vec<u8>)
        requires nothing { self.old ≡ None }
        requires empty { payload.old.items ≡ [] }
        ensures kept { self.new ≡ None }
        ensures empty { payload.new.items ≡ [] }
    {
        swap(&mut self.message, payload);
    }

    /// A message has come: its payload goes into the room with its memory. What the room has is given back: most often
    /// nothing, since it was handed out for the message's first byte.
    pub(crate) fn tell_message(&mut self, kind: Kind, payload: &mut Vec<u8>)
        requires { self.old ≡ None }
        ensures told { self.new ≡ Some (event.Message (record { kind = kind; payload = payload.old.items })) }
        ensures empty { payload.new.items ≡ [] }
    {
        self.message = replace(payload, Vec::new(self.alloc));
        self.told = Told::Message(kind);
    }

    /// A message has come in one piece: its payload is these bytes, which are masked where there is a key.
    #[inline(always)]
    pub(crate) fn tell_whole(
        &mut self,
        kind: Kind,
        key: Option<[u8; 4]>,
        bytes: &[u8],
    ) -> Result<(), NoMemory>
        requires nothing { self.old ≡ None }
        ensures told { OnOk result (self.new
            ≡ Some (event.Message (record { kind = kind; payload = masked_from key 0 bytes.now }))) }
        ensures wants { OnErr result (0 < length bytes.now) }
    {
        self.message.extend_from_slice(bytes)?;
        unmask(key, 0, &mut self.message);
        self.told = Told::Message(kind);
        Ok(())
    }

    /// A ping has come: its payload is the bytes of it that came before, and these, which are masked where there is a
    /// key.
    #[inline(always)]
    pub(crate) fn tell_ping(&mut self, before: &[u8], key: Option<[u8; 4]>, more: &[u8])
        requires nothing { self.old ≡ None }
        requires short { length before.now + length more.now ≤ 125 }
        ensures { self.new ≡ Some (event.Ping (before.now ++ masked_from key (length before.now) more.now)) }
    {
        self.len = fill(&mut self.control, before, key, more);
        self.told = Told::Ping;
    }

    /// The same of a pong.
    #[inline(always)]
    pub(crate) fn tell_pong(&mut self, before: &[u8], key: Option<[u8; 4]>, more: &[u8])
        requires nothing { self.old ≡ None }
        requires short { length before.now + length more.now ≤ 125 }
        ensures { self.new ≡ Some (event.Pong (before.now ++ masked_from key (length before.now) more.now)) }
    {
        self.len = fill(&mut self.control, before, key, more);
        self.told = Told::Pong;
    }

    /// A frame without FIN has come.
    pub(crate) fn tell_part(&mut self)
        requires { self.old ≡ None }
        ensures { self.new ≡ Some event.Part }
    {
        self.told = Told::Part;
    }

    /// A close has come.
    pub(crate) fn tell_close(&mut self, close: Option<Close>)
        requires { self.old ≡ None }
        ensures { self.new ≡ Some (event.Close close) }
    {
        self.close = close;
        self.told = Told::Close;
    }

    /// The bytes break a rule.
    pub(crate) fn tell_fault(&mut self, reason: Reason)
        requires { self.old ≡ None }
        ensures { self.new ≡ Some (event.Failed reason) }
    {
        self.told = Told::Failed(reason);
    }
}

/// Puts bytes of a payload, and after them more of it, which are masked where there is a key, at the front of a room:
/// how many these are.
#[inline(always)]
fn fill(
    room: &mut [u8; MAX_CONTROL_PAYLOAD],
    before: &[u8],
    key: Option<[u8; 4]>,
    more: &[u8],
) -> usize
    requires { length before.now + length more.now ≤ 125 }
    ensures front { take result room.new ≡ before.now ++ masked_from key (length before.now) more.now }
    ensures short { result ≤ 125 }
{
    let len = before.len();
    let (front, rest) = room.split_at_mut(len);
    copy_if_any(front, before);
    let (part, _) = rest.split_at_mut(more.len());
    part.copy_from_slice(more);
    unmask(key, len % 4, part);
    len + more.len()
}

/// Copies bytes, of which there are most often none.
#[inline(always)]
fn copy_if_any(to: &mut [u8], from: &[u8])
    requires { length to.old ≡ length from.now }
    ensures { to.new ≡ from.now }
{
    if !from.is_empty() {
        to.copy_from_slice(from);
    }
}

/// The reason of a close, empty where it gives none.
fn reason_in(close: &Option<Close>) -> &[u8]
    ensures { result.now ≡ payload_in (Some (event.Close close.now)) }
{
    match close {
        None => &[],
        Some(close) => close.reason().as_bytes(),
    }
}

/// The code of a close, if it gives one.
fn code_in(close: &Option<Close>) -> Option<u16>
    ensures { result ≡ code_if_any close.now }
{
    match close {
        None => None,
        Some(close) => Some(close.code()),
    }
}
