//! The receiving side of an endpoint: what it makes of the bytes that come (RFC 6455 sections 5.4, 5.5, 6.2 and 8.1).
//!
//! `take` checks a piece first. Then it puts what is owed, and last it changes what is shown: so want of memory leaves
//! all as it was.

ghost use Rattle.std.specs.Prelude.{◌≡◌, ◌+◌, ◌≤◌, [], length, None, true, false, IfOk, OnErr};
ghost use Rattle.ws_session.specs.Limits.{most_beside};
ghost use Rattle.ws_session.specs.Faults.{open_payload};
ghost use Rattle.ws_session.specs.declared.replying.Replying.{Replying};
ghost use Rattle.ws_session.specs.Lent.{payload_in};
ghost use Rattle.ws_session.specs.Exchange.{is_over};
ghost use Rattle.ws_session.specs.InnerReceiver.{IsSoundReceiver, IsExact, IsOwed, status_by};
ghost use Rattle.ws_session.specs.InnerTaking.{Receives, WantsRoom};

mod appending;
mod assembly;
mod checking;
mod control_frame;
mod control_taking;
mod copying;
mod data_payload;
mod doomed;
mod frame_end;
mod header_end;
mod header_kind;
mod header_rules;
mod inside;
mod least_header;
mod piece_check;
mod ping_or_pong;
mod quiet;
mod under_way;
mod whole_frame;

use crate::event_room::EventRoom;
use crate::limits::Limits;
use crate::receiver::assembly::Assembly;
use crate::receiver::checking::check_piece;
use crate::receiver::piece_check::PieceCheck;
use crate::receiver::under_way::{UnderWay, nothing};
use crate::replying::Replying;
use crate::session::Answering;
use crate::status::Status;
use std::alloc::Global;
use std::marker::Model;
use ws_base::NoMemory;
use ws_wire::Role;

/// The receiving side of an endpoint. Contracts see its role and limits, the open message, the bytes of the frame under
/// way as they came, and all payload bytes that are kept.
#[derive(Drop)]
pub(crate) struct Receiver {
    role: Role,
    limits: Limits,
    assembly: Assembly,
    frame: UnderWay,
}

impl Model for Receiver {
    ghost use Rattle.ws_session.specs.InnerReceiver.{ReceiverValue, receiver_of, IsReceiving};

    ghost Value = { ReceiverValue };

    ghost view = { λ r. receiver_of r.role r.limits r.assembly r.frame };

    ghost invariant = { λ r. IsReceiving r.role r.limits r.assembly r.frame };
}

impl Receiver {
    /// Nothing has come.
    pub(crate) fn new(alloc: Global, role: Role, limits: Limits) -> Receiver
        ensures role { result.role ≡ role }
        ensures limits { result.limits ≡ limits }
        ensures opened { result.opened ≡ None }
        ensures partial { result.partial_frame ≡ [] }
        ensures assembled { result.assembled ≡ [] }
        ensures sound { IsSoundReceiver result }
        ensures exact { IsExact result }
    {
        // Sees that the limit is in its range, on which the bound of `held` rests.
        let _ = limits.max_message();
        Receiver {
            role,
            limits,
            assembly: Assembly::new(alloc),
            frame: nothing(),
        }
    }

    /// What it asks for memory.
    pub(crate) fn alloc(&self) -> Global {
        self.assembly.alloc()
    }

    pub(crate) fn role(&self) -> Role
        ensures { result ≡ self.now.role }
    {
        self.role
    }

    /// The number of input bytes that are kept: those of the open message and of the frame under way.
    pub(crate) fn held(&self) -> usize
        ensures held { result ≡ length (open_payload self.now.opened) + length self.now.partial_frame }
        ensures bound { result ≤ self.now.limits.max_message + most_beside }
        ensures told { length (open_payload self.now.opened) + self.now.came ≤ result }
    {
        self.assembly.open_len() + self.frame.len()
    }

    /// Nothing more is to come: nothing is kept any more.
    pub(crate) fn end(&mut self)
        ensures role { self.new.role ≡ self.old.role }
        ensures limits { self.new.limits ≡ self.old.limits }
        ensures opened { self.new.opened ≡ None }
        ensures partial { self.new.partial_frame ≡ [] }
        ensures assembled { self.new.assembled ≡ [] }
        ensures sound { IsSoundReceiver self.new }
        ensures exact { IsExact self.new }
    {
        self.assembly.clear();
        self.frame.end();
    }

    /// Cuts off what a call that wasn't carried out put into the assembly: nothing is kept but the open message and the
    /// frame under way.
    pub(crate) fn cut(&mut self)
        ensures role { self.new.role ≡ self.old.role }
        ensures limits { self.new.limits ≡ self.old.limits }
        ensures opened { self.new.opened ≡ self.old.opened }
        ensures partial { self.new.partial_frame ≡ self.old.partial_frame }
        ensures came { self.new.came ≡ self.old.came }
        ensures sound { IsSoundReceiver self.new }
        ensures exact { IsExact self.new }
    {
        let came = self.frame.came();
        self.assembly.cut(came);
    }

    /// Takes bytes from the front of a piece, up to the end of one frame or to a fault, leaves what it tells in the
    /// room, and puts what is owed for that at the end of `out`: how many bytes it took. `NoMemory` leaves all that
    /// shows as it was, but the room.
    pub(crate) fn take(
        &mut self,
        status: &Status,
        answering: Answering,
        piece: &[u8],
        key: [u8; 4],
        out: &mut Vec<u8>,
        room: &mut EventRoom,
    ) -> Result<usize, NoMemory>
        requires exact { IsExact self.old }
        requires nothing { room.old ≡ None }
        ensures takes { let replying : Replying
            = record { role = self.old.role; status = status.now; answering = answering; key = key }
            in IfOk result (λ used. Receives replying self.old self.new piece.now out.old.items out.new.items
            (record { used = used; event = room.new })) }
        ensures sound { IsSoundReceiver self.new }
        ensures exact { IfOk result (λ used. IsExact self.new) }
        ensures role { self.new.role ≡ self.old.role }
        ensures limits { self.new.limits ≡ self.old.limits }
        ensures over { IfOk result (λ used. is_over status.now ≡ false
            → is_over (status_by status.now room.new) ≡ true
            → (self.new.opened ≡ None) × (self.new.partial_frame ≡ [])) }

        // What is lent and what is kept are no more than a message, a header and a control frame's payload.
        ensures held { IfOk result (λ used. length (payload_in room.new) + (length (open_payload self.new.opened)
            + length self.new.partial_frame) ≤ self.new.limits.max_message + most_beside) }
        ensures kept { OnErr result ((self.new.opened ≡ self.old.opened)
            × (self.new.partial_frame ≡ self.old.partial_frame) × (out.new.items ≡ out.old.items)) }
        ensures came { OnErr result (self.new.came ≡ self.old.came) }

        // Want of memory: a byte of the piece is of the payload of a data frame, or an answer is owed.
        ensures wants { let replying : Replying
            = record { role = self.old.role; status = status.now; answering = answering; key = key }
            in OnErr result (WantsRoom (IsOwed replying) self.old piece.now) }
    {
        // Sees what holds of any receiving side, since `take_whole` leaves this one as it is.
        let _ = &self.role;
        if let Some(used) = self.take_whole(status, answering, piece, key, out, room)? {
            return Ok(used);
        }
        // Most small pieces lie inside a payload.
        if matches!(self.frame, UnderWay::Data { .. }) && self.take_inside(piece, room)? {
            return Ok(piece.len());
        }
        self.take_part(status, answering, piece, key, out, room)
    }

    /// The same, of any piece. It stands apart, so that a frame that comes whole doesn't pay for it.
    #[inline(never)]
    fn take_part(
        &mut self,
        status: &Status,
        answering: Answering,
        piece: &[u8],
        key: [u8; 4],
        out: &mut Vec<u8>,
        room: &mut EventRoom,
    ) -> Result<usize, NoMemory>
        requires exact { IsExact self.old }
        requires nothing { room.old ≡ None }
        ensures takes { let replying : Replying
            = record { role = self.old.role; status = status.now; answering = answering; key = key }
            in IfOk result (λ used. Receives replying self.old self.new piece.now out.old.items out.new.items
            (record { used = used; event = room.new })) }
        ensures sound { IsSoundReceiver self.new }
        ensures exact { IfOk result (λ used. IsExact self.new) }
        ensures role { self.new.role ≡ self.old.role }
        ensures limits { self.new.limits ≡ self.old.limits }
        ensures over { IfOk result (λ used. is_over status.now ≡ false
            → is_over (status_by status.now room.new) ≡ true
            → (self.new.opened ≡ None) × (self.new.partial_frame ≡ [])) }

        // What is lent and what is kept are no more than a message, a header and a control frame's payload.
        ensures held { IfOk result (λ used. length (payload_in room.new) + (length (open_payload self.new.opened)
            + length self.new.partial_frame) ≤ self.new.limits.max_message + most_beside) }
        ensures kept { OnErr result ((self.new.opened ≡ self.old.opened)
            × (self.new.partial_frame ≡ self.old.partial_frame) × (out.new.items ≡ out.old.items)) }
        ensures came { OnErr result (self.new.came ≡ self.old.came) }

        // Want of memory: a byte of the piece is of the payload of a data frame, or an answer is owed.
        ensures wants { let replying : Replying
            = record { role = self.old.role; status = status.now; answering = answering; key = key }
            in OnErr result (WantsRoom (IsOwed replying) self.old piece.now) }
    {
        let (assembly, frame) = (&mut self.assembly, &mut self.frame);
        let mut control = None;
        let (role, limits) = (self.role, &self.limits);
        let Some(check) = check_piece(role, limits, assembly, frame, piece, room, &mut control)?
        else {
            return Ok(piece.len());
        };
        match check {
            PieceCheck::Whole {
                used,
                fin,
                kind,
                text,
            } => {
                self.on_data(fin, kind, text, status, answering, key, out, room)?;
                Ok(used)
            }
            PieceCheck::Control { start } => {
                let Some(header) = &control else {
                    unreachable!()
                };
                let replying = Replying {
                    role: self.role,
                    status: *status,
                    answering,
                    key,
                };
                self.take_control(header, start, piece, &replying, out, room)
            }
            PieceCheck::Fault { reason, used } => {
                let replying = Replying {
                    role: self.role,
                    status: *status,
                    answering,
                    key,
                };
                self.on_fault(reason, &replying, out)?;
                room.tell_fault(reason);
                Ok(used)
            }
        }
    }
}
