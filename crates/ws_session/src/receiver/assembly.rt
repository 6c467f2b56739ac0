//! The message that is open on the receiving side, and the payload of the frame under way after it (RFC 6455
//! section 5.4).

ghost use Rattle.std.specs.Prelude.{◌≡◌, ◌↔◌, ◌+◌, ◌≤◌, ◌<◌, ◌++◌, [], length, drop, is_some, IsTrue};
ghost use Rattle.std.specs.Prelude.{IfOk, OnOk, OnErr, Some, None};
ghost use Rattle.ws_text.specs.Stream.{HasReadText};
ghost use Rattle.ws_session.specs.declared.event.Event.TheVariants.{Message};
ghost use Rattle.ws_session.specs.Faults.{open_payload, IsOpenText};
ghost use Rattle.ws_session.specs.InnerMasked.{masked_from};
ghost use Rattle.ws_session.specs.InnerReceiving.{HasKept, IsJoined, first_bytes, frame_payload, kind_with};

use crate::event_room::EventRoom;
use crate::message::Kind;
use crate::receiver::appending::append_masked;
use std::alloc::Global;
use std::marker::Model;
use ws_base::NoMemory;
use ws_text::Utf8Stream;

/// The open message, if there is one, and after its payload the payload bytes that are kept of the frame under way.
/// Contracts see the message, all of these bytes, and the stream that reads them where they are text.
#[derive(Drop)]
pub(crate) struct Assembly {
    alloc: Global,
    /// The open message's kind, if there is one.
    kind: Option<Kind>,
    /// How many of the bytes are the open message's.
    before: usize,
    payload: Vec<u8>,
    text: Utf8Stream,
}

impl Model for Assembly {
    ghost use Rattle.ws_session.specs.InnerReceiving.{AssemblyValue, HasFirst, message_of_first};

    ghost Value = { AssemblyValue };

    ghost view = { λ a. record {
      opened = message_of_first a.kind a.before a.payload.items;
      payload = a.payload.items;
      text = a.text;
    } };

    ghost invariant = { λ a. HasFirst a.kind a.before a.payload.items };
}

impl Assembly {
    /// No message is open, and no payload is kept.
    pub(crate) fn new(alloc: Global) -> Assembly
        ensures opened { result.opened ≡ None }
        ensures payload { result.payload ≡ [] }
        ensures text { HasReadText result.text [] }
    {
        Assembly {
            alloc,
            kind: None,
            before: 0,
            payload: Vec::new(alloc),
            text: Utf8Stream::new(),
        }
    }

    /// What it asks for memory.
    pub(crate) fn alloc(&self) -> Global {
        self.alloc
    }

    pub(crate) fn is_open(&self) -> bool
        ensures { result ≡ is_some self.now.opened }
    {
        self.kind.is_some()
    }

    /// The number of payload bytes of the open message.
    pub(crate) fn open_len(&self) -> usize
        ensures { result ≡ length (open_payload self.now.opened) }
    {
        self.before
    }

    /// Whether a text message is open.
    pub(crate) fn is_text(&self) -> bool
        ensures { IsTrue result ↔ IsOpenText self.now.opened }
    {
        match self.kind {
            None => false,
            Some(Kind::Text) => true,
            Some(Kind::Binary) => false,
        }
    }

    /// The kind of the open message, or this one where none is open.
    pub(crate) fn kind_with(&self, kind: Kind) -> Kind
        ensures { result ≡ kind_with self.now.opened kind }
    {
        match self.kind {
            None => kind,
            Some(open) => open,
        }
    }

    /// The stream that has read what was taken, where it is text.
    pub(crate) fn text(&self) -> Utf8Stream
        ensures { result ≡ self.now.text }
    {
        self.text
    }

    /// All bytes that are kept.
    pub(crate) fn payload(&self) -> &[u8]
        ensures { result.now ≡ self.now.payload }
    {
        &self.payload
    }

    /// The bytes that are kept of the frame under way, without the first ones.
    pub(crate) fn new_bytes(&self, came: usize) -> &[u8]
        requires { HasKept self.now came }
        ensures { result.now ≡ drop came (frame_payload self.now) }
    {
        &self.payload[self.before + came..]
    }

    /// Keeps of the frame under way the first bytes that came: the others are cut off. Where nothing is left its memory
    /// is given back.
    pub(crate) fn cut(&mut self, came: usize)
        requires { HasKept self.old came }
        ensures opened { self.new.opened ≡ self.old.opened }
        ensures text { self.new.text ≡ self.old.text }
        ensures payload { self.new.payload ≡ first_bytes self.old came }
        ensures joined { IsJoined self.new }
    {
        self.payload.truncate(self.before + came);
        if self.payload.is_empty() {
            self.payload = Vec::new(self.alloc);
        }
    }

    /// Puts bytes of the frame under way, unmasked, after those of it that came, which are all that is kept.
    #[inline(always)]
    pub(crate) fn add(
        &mut self,
        came: usize,
        key: Option<[u8; 4]>,
        bytes: &[u8],
        room: &mut EventRoom,
    ) -> Result<(), NoMemory>
        requires exact { length self.old.payload ≡ length (open_payload self.old.opened) + came }
        requires nothing { room.old ≡ None }
        ensures nothing { room.new ≡ None }
        ensures opened { self.new.opened ≡ self.old.opened }
        ensures text { self.new.text ≡ self.old.text }
        ensures added { OnOk result (self.new.payload ≡ first_bytes self.old came ++ masked_from key came bytes.now) }
        ensures kept { OnErr result (self.new.payload ≡ first_bytes self.old came) }
        ensures wants { OnErr result (0 < length bytes.now) }
        ensures joined { IsJoined self.new }
        ensures size { length self.new.payload ≤ length (open_payload self.old.opened) + came + length bytes.now }
    {
        append_in_room(&mut self.payload, room, came % 4, key, bytes)?;
        Ok(())
    }

    /// The frame under way goes on: the stream has read all that is kept of it.
    pub(crate) fn go_on(&mut self, text: Utf8Stream)
        ensures { self.new ≡ record self.old { text = text } }
    {
        self.text = text;
    }

    /// A frame without FIN has ended: all that is kept is the open message.
    pub(crate) fn on_fragment(&mut self, kind: Kind, text: Utf8Stream)
        ensures { self.new
            ≡ record {
              opened = Some (record { kind = kind; payload = self.old.payload });
              payload = self.old.payload;
              text = text;
            } }
    {
        self.kind = Some(kind);
        self.before = self.payload.len();
        self.text = text;
    }

    /// A message has ended, which is all that was kept: it is told.
    pub(crate) fn on_message(&mut self, kind: Kind, room: &mut EventRoom)
        requires { room.old ≡ None }
        ensures told { room.new ≡ Some (Message (record { kind = kind; payload = self.old.payload })) }
        ensures opened { self.new.opened ≡ None }
        ensures payload { self.new.payload ≡ [] }
        ensures text { HasReadText self.new.text [] }
    {
        room.tell_message(kind, &mut self.payload);
        self.kind = None;
        self.text = Utf8Stream::new();
        self.before = 0;
    }

    /// The same again, with room for the bytes that are kept.
    pub(crate) fn copy(&self) -> Result<Assembly, NoMemory>
        ensures same { IfOk result (λ copy. copy ≡ self.now) }
        ensures wants { OnErr result (0 < length self.now.payload) }
    {
        let mut payload = Vec::new(self.alloc);
        payload.extend_from_slice(&self.payload)?;
        Ok(Assembly {
            alloc: self.alloc,
            kind: self.kind,
            before: self.before,
            payload,
            text: self.text,
        })
    }

    /// All is over: nothing is kept any more.
    pub(crate) fn clear(&mut self)
        ensures opened { self.new.opened ≡ None }
        ensures payload { self.new.payload ≡ [] }
        ensures text { HasReadText self.new.text [] }
    {
        *self = Assembly::new(self.alloc);
    }
}

/// The same as `append_masked`. Where nothing is kept yet, the memory that the room has for a message serves these
/// bytes, if there is one.
#[inline(always)]
fn append_in_room(
    kept: &mut Vec<u8>,
    room: &mut EventRoom,
    phase: usize,
    key: Option<[u8; 4]>,
    bytes: &[u8],
) -> Result<(), NoMemory>
    requires phase { phase ≤ 3 }
    requires nothing { room.old ≡ None }
    ensures put { OnOk result (kept.new.items ≡ kept.old.items ++ masked_from key phase bytes.now) }
    ensures kept { OnErr result (kept.new.items ≡ kept.old.items) }
    ensures wants { OnErr result (0 < length bytes.now) }
    ensures nothing { room.new ≡ None }
{
    if kept.is_empty() && !bytes.is_empty() {
        room.lend(kept);
    }
    append_masked(kept, phase, key, bytes)?;
    Ok(())
}
