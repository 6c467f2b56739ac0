//! A frame that lies whole in a piece (RFC 6455 sections 5.2 and 5.4 to 5.6), as most do: what it tells is put into the
//! room straight from the piece, and the receiving side stays as it is.

ghost use Rattle.std.specs.Prelude.{◌≡◌, ◌+◌, ◌≤◌, ◌<◌, ◌↔◌, length, None, Some, true, false};
ghost use Rattle.std.specs.Prelude.{IfOk, IfSome, OnErr, IsTrue};
ghost use Rattle.ws_text.specs.Text.{IsText};
ghost use Rattle.ws_session.specs.declared.event.Event.TheVariants as event;
ghost use Rattle.ws_session.specs.declared.message.Kind.TheVariants.{Text};
ghost use Rattle.ws_session.specs.declared.replying.Replying.{Replying};
ghost use Rattle.ws_session.specs.Limits.{most_beside};
ghost use Rattle.ws_session.specs.Faults.{open_payload};
ghost use Rattle.ws_session.specs.Lent.{payload_in};
ghost use Rattle.ws_session.specs.InnerMasked.{masked_from};
ghost use Rattle.ws_session.specs.InnerReceiver.{IsExact, IsOwed, status_by};
ghost use Rattle.ws_session.specs.InnerTaking.{Receives, WantsRoom};
ghost use Rattle.ws_session.specs.InnerWhole.{IsMessage, MayStandWhole, StandsWhole, TellsWhole};

use crate::event_room::EventRoom;
use crate::limits::Limits;
use crate::message::Kind;
use crate::opcode::PONG;
use crate::receiver::Receiver;
use crate::receiver::assembly::Assembly;
use crate::receiver::header_rules::is_fine;
use crate::replying::Replying;
use crate::session::Answering;
use crate::status::Status;
use ws_base::NoMemory;
use ws_text::Utf8Stream;
use ws_wire::{Header, HeaderRead, Opcode, Role, read_header};

/// No frame has fewer bytes.
const LEAST_FRAME: usize = 2;

/// A frame whose header breaks no rule, and whose payload is there.
#[derive(Clone, Copy)]
struct WholeFrame<'p> {
    header: Header,
    /// Its payload, as it came.
    payload: &'p [u8],
    /// How many bytes it has.
    used: usize,
}

impl Receiver {
    /// Takes a frame that lies whole at the front of a piece, as `take` does, where no other is under way: a message in
    /// one frame that isn't sent back, a ping or a pong, with nothing wrong in it. `None` where the piece begins
    /// otherwise: then nothing is told.
    #[inline(always)]
    pub(super) fn take_whole(
        &self,
        status: &Status,
        answering: Answering,
        piece: &[u8],
        key: [u8; 4],
        out: &mut Vec<u8>,
        room: &mut EventRoom,
    ) -> Result<Option<usize>, NoMemory>
        requires exact { IsExact self.now }
        requires nothing { room.old ≡ None }
        ensures takes { let replying : Replying
            = record { role = self.now.role; status = status.now; answering = answering; key = key }
            in IfOk result (λ taken. IfSome taken (λ used. Receives replying self.now self.now piece.now
            out.old.items out.new.items (record { used = used; event = room.new }))) }
        ensures stays { IfOk result (λ taken. IfSome taken (λ used. status_by status.now room.new ≡ status.now)) }
        ensures held { IfOk result (λ taken. IfSome taken (λ used. length (payload_in room.new)
            + (length (open_payload self.now.opened) + length self.now.partial_frame)
            ≤ self.now.limits.max_message + most_beside)) }
        ensures nothing { IfOk result (λ taken. taken ≡ None → (room.new ≡ None) × (out.new.items ≡ out.old.items)) }
        ensures kept { OnErr result (out.new.items ≡ out.old.items) }

        // Want of memory: a byte of the piece is of the payload of a data frame, or an answer is owed.
        ensures wants { let replying : Replying
            = record { role = self.now.role; status = status.now; answering = answering; key = key }
            in OnErr result (WantsRoom (IsOwed replying) self.now piece.now) }
    {
        if !may_be_told(piece) || self.frame.has_begun() {
            return Ok(None);
        }
        let Some(frame) = whole_frame(self.role, self.limits, &self.assembly, piece) else {
            return Ok(None);
        };
        match frame.header.kind() {
            Opcode::Ping => {
                room.tell_ping(&[], frame.header.key(), frame.payload);
                let replying = Replying {
                    role: self.role,
                    status: *status,
                    answering,
                    key,
                };
                replying.reply(PONG, room.payload(), out)?;
                Ok(Some(frame.used))
            }
            Opcode::Pong => {
                room.tell_pong(&[], frame.header.key(), frame.payload);
                Ok(Some(frame.used))
            }
            Opcode::Text | Opcode::Binary => {
                let Answering::Plain = answering else {
                    return Ok(None);
                };
                if !tell_message(&frame, room)? {
                    return Ok(None);
                }
                Ok(Some(frame.used))
            }
            Opcode::Continuation | Opcode::Close | Opcode::Reserved(_) => Ok(None),
        }
    }
}

/// Whether a frame that is told straight may stand at the front of the piece: its first byte says that it is a text, a
/// binary message, a ping or a pong in one frame, without a reserved bit, and another byte is there. All else is known
/// by these two before the header is read.
#[inline(always)]
fn may_be_told(piece: &[u8]) -> bool
    ensures { IsTrue result ↔ MayStandWhole piece.now }
{
    piece.len() >= LEAST_FRAME && matches!(piece[0], 0x81 | 0x82 | 0x89 | 0x8a)
}

/// The frame at the front of the piece, if all of it is there and its header breaks no rule.
#[inline(always)]
fn whole_frame<'p>(
    role: Role,
    limits: Limits,
    assembly: &Assembly,
    piece: &'p [u8],
) -> Option<WholeFrame<'p>>
    ensures { IfSome result (λ frame. StandsWhole role limits assembly.now.opened piece.now frame.header
        frame.payload.now frame.used) }
{
    let HeaderRead::Got {
        header,
        used: start,
    } = read_header(piece)
    else {
        return None;
    };
    let rest = &piece[start..];
    if header.payload_len() > rest.len() as u64 || !is_fine(role, limits, assembly, &header) {
        return None;
    }
    let len = header.payload_len() as usize;
    Some(WholeFrame {
        header,
        payload: &rest[..len],
        used: start + len,
    })
}

/// Leaves the message that a data frame is in the room: `false` where it is a part of one, or a text that is wrong, and
/// then the room is empty.
#[inline(always)]
fn tell_message(frame: &WholeFrame<'_>, room: &mut EventRoom) -> Result<bool, NoMemory>
    requires opcode { IsMessage frame.now.header }
    requires nothing { room.old ≡ None }
    ensures told { IfOk result (λ told. told ≡ true → TellsWhole frame.now.header frame.now.payload.now room.new) }
    ensures nothing { IfOk result (λ told. told ≡ false → room.new ≡ None) }
    ensures wants { OnErr result (IsMessage frame.now.header × (0 < length frame.now.payload.now)) }
{
    if !frame.header.fin() {
        return Ok(false);
    }
    let kind = match frame.header.kind() {
        Opcode::Text => Kind::Text,
        _ => Kind::Binary,
    };
    room.tell_whole(kind, frame.header.key(), frame.payload)?;
    if kind == Kind::Text && !is_text(room.payload()) {
        room.clear();
        return Ok(false);
    }
    Ok(true)
}

/// Whether the bytes are a text.
#[inline(always)]
fn is_text(bytes: &[u8]) -> bool
    ensures { IsTrue result ↔ IsText bytes.now }
{
    let mut text = Utf8Stream::new();
    text.push(bytes).is_ok() && text.is_whole()
}
