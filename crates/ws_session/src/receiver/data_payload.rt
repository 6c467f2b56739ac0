//! The payload of a data frame, as it comes (RFC 6455 sections 5.4, 5.6 and 8.1).

ghost use Rattle.std.specs.Prelude.{◌≡◌, ◌↔◌, ◌+◌, ◌≤◌, ◌<◌, ◌^◌, ℕ, List, length, take, true, IsTrue, IfOk, OnOk};
ghost use Rattle.std.specs.Prelude.{MatchResult, OnErr, None};
ghost use Rattle.ws_text.specs.Text.{IsText};
ghost use Rattle.ws_text.specs.Stream.{HasReadText};
ghost use Rattle.ws_session.specs.Messages.{kind_of};
ghost use Rattle.ws_session.specs.Faults.{IsOfText, open_payload};
ghost use Rattle.ws_session.specs.InnerReceiving.{HasKept, IsJoined, first_bytes, frame_payload, arrived_payload};
ghost use Rattle.ws_session.specs.InnerReceiving.{IsDataCheck, IsTextRead, IsTextFault, kind_with};
ghost use Rattle.ws_session.specs.declared.receiver.piece_check.PieceCheck.TheVariants.{Whole};

use crate::event_room::EventRoom;
use crate::message::Kind;
use crate::reason::Reason;
use crate::receiver::assembly::Assembly;
use crate::receiver::header_kind::{begins_text, continues_message};
use crate::receiver::piece_check::PieceCheck;
use ws_base::NoMemory;
use ws_text::Utf8Stream;
use ws_wire::Header;

/// Puts what is there of the payload into the assembly, after the bytes that came before, and checks it: `None` where
/// the frame goes on, which the stream has read then where it is of a text. `rest` is what the piece has after its
/// first `start` bytes.
#[inline(always)]
pub(super) fn check_data(
    assembly: &mut Assembly,
    header: &Header,
    came: usize,
    start: usize,
    rest: &[u8],
    room: &mut EventRoom,
) -> Result<Option<PieceCheck>, NoMemory>
    requires opcode { header.now.opcode ≤ 2 }
    requires begins { 1 ≤ header.now.opcode → assembly.old.opened ≡ None }
    requires within { came ≤ header.now.len }
    requires exact { length assembly.old.payload ≡ length (open_payload assembly.old.opened) + came }
    requires read { IsOfText assembly.old.opened header.now →
        HasReadText assembly.old.text (first_bytes assembly.old came) }
    requires room { start + length rest.now < 2 ^ 64 }
    requires nothing { room.old ≡ None }
    ensures nothing { room.new ≡ None }
    ensures checked { IfOk result (λ check. IsDataCheck header.now came start (length rest.now) assembly.old
        assembly.new check) }
    ensures payload { OnOk result (frame_payload assembly.new
        ≡ arrived_payload header.now (take came (frame_payload assembly.old)) rest.now) }
    ensures kept { HasKept assembly.new came }
    ensures joined { IsJoined assembly.new }
    ensures opened { assembly.new.opened ≡ assembly.old.opened }
    ensures text { OnErr result (assembly.new.text ≡ assembly.old.text) }
    ensures first { first_bytes assembly.new came ≡ first_bytes assembly.old came }
    ensures wants { OnErr result ((came < header.now.len) × (0 < length rest.now)) }
    ensures size { length assembly.new.payload ≤ length (open_payload assembly.old.opened) + header.now.len }
{
    let left = header.payload_len() - came as u64;
    let here = left.min(rest.len() as u64) as usize;
    assembly.add(came, header.key(), &rest[..here], room)?;
    let goes_on = (here as u64) < left;
    if !is_of_text(assembly, header) {
        if goes_on {
            return Ok(None);
        }
        let text = assembly.text();
        return Ok(Some(whole(assembly, header, start + here, text)));
    }
    let text = match check_text(assembly, header, came) {
        Ok(text) => text,
        Err((reason, count)) => {
            return Ok(Some(PieceCheck::Fault {
                reason,
                used: start + count,
            }));
        }
    };
    if goes_on {
        assembly.go_on(text);
        return Ok(None);
    }
    Ok(Some(whole(assembly, header, start + here, text)))
}

/// The frame is whole with the first `used` bytes of the piece.
fn whole(assembly: &Assembly, header: &Header, used: usize, text: Utf8Stream) -> PieceCheck
    ensures { result ≡ Whole used header.now.fin
        (kind_with assembly.now.opened (kind_of header.now.opcode)) text }
{
    PieceCheck::Whole {
        used,
        fin: header.fin(),
        kind: assembly.kind_with(kind_of_opcode(header)),
        text,
    }
}

/// The kind of message that a data frame's opcode begins (section 5.6).
fn kind_of_opcode(header: &Header) -> Kind
    ensures { result ≡ kind_of header.now.opcode }
{
    if begins_text(header) {
        Kind::Text
    } else {
        Kind::Binary
    }
}

/// Checks the bytes that are new of a payload that belongs to a text: the stream that has read the message with them,
/// or what is wrong and after how many of them.
#[inline(always)]
fn check_text(
    assembly: &Assembly,
    header: &Header,
    came: usize,
) -> Result<Utf8Stream, (Reason, usize)>
    requires opcode { header.now.opcode ≤ 2 }
    requires begins { 1 ≤ header.now.opcode → assembly.now.opened ≡ None }
    requires within { length (frame_payload assembly.now) ≤ header.now.len }
    requires kept { HasKept assembly.now came }
    requires joined { IsJoined assembly.now }
    requires of_text { IsOfText assembly.now.opened header.now }
    requires read { HasReadText assembly.now.text (first_bytes assembly.now came) }
    ensures { MatchResult result (λ text. IsTextRead header.now assembly.now text)
        (λ fault. IsTextFault header.now came assembly.now fault.0 fault.1) }
{
    let mut text = assembly.text();
    let bytes = assembly.new_bytes(came);
    if let Err(place) = text.push(bytes) {
        return Err((Reason::NotText, place + 1));
    }
    let left = header.payload_len() - came as u64;
    if is_cut(header, bytes.len(), left, &text) {
        return Err((Reason::TextCut, bytes.len()));
    }
    Ok(text)
}

/// Whether the data frame belongs to a text message.
pub(super) fn is_of_text(assembly: &Assembly, header: &Header) -> bool
    ensures { IsTrue result ↔ IsOfText assembly.now.opened header.now }
{
    begins_text(header) || (continues_message(header) && assembly.is_text())
}

/// Whether the message ends with these bytes of those that are left of the payload, and the text doesn't.
fn is_cut(header: &Header, count: usize, left: u64, text: &Utf8Stream) -> bool
    ensures { (read : List ℕ) → HasReadText text.now read →
        (IsTrue result ↔ ((header.now.fin ≡ true) × (count ≡ left) × ¬ (IsText read))) }
{
    header.fin() && count as u64 == left && !text.is_whole()
}
