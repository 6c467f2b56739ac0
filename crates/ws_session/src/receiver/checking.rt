//! What a piece makes of the frame under way, and of it alone: no byte behind that frame is looked at.

ghost use Rattle.std.specs.Prelude.{◌≡◌, ◌≤◌, ◌++◌, ℕ, List, length, None, IfOk, OnErr};
ghost use Rattle.ws_session.specs.declared.receiver.under_way.UnderWay.TheVariants as under_way;
ghost use Rattle.ws_wire.specs.Header.{AreBytes};
ghost use Rattle.ws_session.specs.InnerReceiving.{IsUnderWay, IsExactly, HasNewData, partial_of, ShowsTheSame};
ghost use Rattle.ws_session.specs.InnerReceiving.{IsPieceCheck, IsExactPiece};

use crate::event_room::EventRoom;
use crate::limits::Limits;
use crate::receiver::assembly::Assembly;
use crate::receiver::data_payload::check_data;
use crate::receiver::header_end::{complete_header, header_in};
use crate::receiver::header_kind::is_data;
use crate::receiver::header_rules::reason_at_header;
use crate::receiver::piece_check::PieceCheck;
use crate::receiver::under_way::UnderWay;
use ws_base::NoMemory;
use ws_wire::{Header, HeaderRead, Role, laws};

/// Checks a piece after the frame under way, up to the payload of a control frame: `None` where the frame goes on with
/// the whole piece, which is put to what came before then. Payload of a data frame goes into the assembly, where it
/// shows only once it was taken. The header of a control frame is left in `control`: so that no other way pays for it.
pub(super) fn check_piece(
    role: Role,
    limits: &Limits,
    assembly: &mut Assembly,
    frame: &mut UnderWay,
    piece: &[u8],
    room: &mut EventRoom,
    control: &mut Option<Header>,
) -> Result<Option<PieceCheck>, NoMemory>
    requires under_way { IsUnderWay role limits.now assembly.old frame.old }
    requires room { length assembly.old.payload ≤ limits.now.max_message }
    requires exact { IsExactly assembly.old frame.old }
    requires nothing { room.old ≡ None }
    ensures checked { IfOk result (λ check. IsPieceCheck role limits.now assembly.old frame.old assembly.new frame.new
        piece.now control.new check) }
    ensures nothing { room.new ≡ None }
    ensures opened { assembly.new.opened ≡ assembly.old.opened }
    ensures under_way { IsUnderWay role limits.now assembly.new frame.new }
    ensures room { length assembly.new.payload ≤ limits.now.max_message }
    ensures exact { IfOk result (λ check. IsExactPiece assembly.new frame.new check) }
    ensures bytes { AreBytes (partial_of assembly.old frame.old ++ piece.now) }

    // Want of memory: a byte of the piece is of the payload of a data frame.
    ensures shown { OnErr result (ShowsTheSame assembly.old frame.old assembly.new frame.new) }
    ensures wants { OnErr result (HasNewData role limits.now assembly.old.opened
        (length (partial_of assembly.old frame.old)) (partial_of assembly.old frame.old ++ piece.now)) }
{
    match frame {
        UnderWay::Data { header, came } => {
            let Some(check) = check_data(assembly, header, *came, 0, piece, room)? else {
                *came += piece.len();
                return Ok(None);
            };
            Ok(Some(check))
        }
        UnderWay::Control { header, .. } => {
            *control = Some(*header);
            Ok(Some(PieceCheck::Control { start: 0 }))
        }
        UnderWay::Header(_) => check_header(role, limits, assembly, frame, piece, room, control),
    }
}

/// The same, where no header of the frame is whole yet: the piece may complete it.
#[inline(always)]
fn check_header(
    role: Role,
    limits: &Limits,
    assembly: &mut Assembly,
    frame: &mut UnderWay,
    piece: &[u8],
    room: &mut EventRoom,
    control: &mut Option<Header>,
) -> Result<Option<PieceCheck>, NoMemory>
    requires header { (kept : List ℕ) × (frame.old ≡ under_way.Header kept) }
    requires under_way { IsUnderWay role limits.now assembly.old frame.old }
    requires room { length assembly.old.payload ≤ limits.now.max_message }
    requires exact { IsExactly assembly.old frame.old }
    requires nothing { room.old ≡ None }
    ensures checked { IfOk result (λ check. IsPieceCheck role limits.now assembly.old frame.old assembly.new frame.new
        piece.now control.new check) }
    ensures nothing { room.new ≡ None }
    ensures opened { assembly.new.opened ≡ assembly.old.opened }
    ensures under_way { IsUnderWay role limits.now assembly.new frame.new }
    ensures room { length assembly.new.payload ≤ limits.now.max_message }
    ensures exact { IfOk result (λ check. IsExactPiece assembly.new frame.new check) }
    ensures bytes { AreBytes (partial_of assembly.old frame.old ++ piece.now) }
    ensures shown { OnErr result (ShowsTheSame assembly.old frame.old assembly.new frame.new) }
    ensures wants { OnErr result (HasNewData role limits.now assembly.old.opened
        (length (partial_of assembly.old frame.old)) (partial_of assembly.old frame.old ++ piece.now)) }
{
    let UnderWay::Header(kept) = frame else {
        unreachable!()
    };
    let mut read = HeaderRead::Need;
    complete_header(kept, piece, &mut read);
    let Some(end) = header_in(&read) else {
        laws::fourteen_bytes_hold_a_header();
        kept.push(piece);
        return Ok(None);
    };
    if let Some(reason) = reason_at_header(role, *limits, assembly, end.header) {
        return Ok(Some(PieceCheck::Fault {
            reason,
            used: end.used,
        }));
    }
    if !is_data(end.header) {
        *control = Some(*end.header);
        return Ok(Some(PieceCheck::Control { start: end.used }));
    }
    let rest = &piece[end.used..];
    let Some(check) = check_data(assembly, end.header, 0, end.used, rest, room)? else {
        frame.begin_data(end.header, rest.len());
        return Ok(None);
    };
    Ok(Some(check))
}
