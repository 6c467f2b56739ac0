//! The line that tells of one frame (RFC 6455 section 5.2).

ghost use Rattle.std.specs.Prelude.{◌≡◌, ◌<◌, ◌≤◌, ◌+◌, ◌++◌, length, Some};
ghost use Rattle.ws_formats.specs.Words.{opcode_word};
ghost use Rattle.ws_frame.specs.Lines.{data_word, fault_mark, key_word, line_with};
ghost use Rattle.ws_frame.specs.InnerPrinting.{bits_words, end_words, front_words, layout_words, place_words};

use crate::first_bytes::{FirstBytes, SHOWN};
use crate::room::Room;
use crate::source::{Mark, Source};
use ws_wire::{Form, Header, Role};

/// No line has more bytes than this.
pub(crate) const MAX_LINE: usize = 200;

/// Where FIN stands in the words of the bits.
const FIN: usize = 5;

/// Where the reserved bits do.
const RSV: usize = 11;

/// The opcode of a close frame (section 5.5.1).
const CLOSE: u8 = 8;

/// How many bytes an opcode has in the table of their names.
const KIND: usize = 8;

/// The two ways in which lines are made. What both put is compiled once for each, so that it is made a part of either
/// and the lines of first bytes, which most ask for, don't pay for the others.
const BY_FIRST_BYTES: usize = 0;

const BY_WHOLE: usize = 1;

/// The name of each opcode in seven bytes, and how many of them it takes.
static KINDS: [u8; 128] =
    *b"cont   \x04text   \x04binary \x06op3    \x03op4    \x03op5    \x03op6    \x03\
      op7    \x03close  \x05ping   \x04pong   \x04op11   \x04op12   \x04op13   \x04op14   \x04op15   \x04";

/// Puts the line of a frame that begins at `offset` into the room, ended by LF. `first` are the first bytes of the
/// payload, unmasked: as many as there are, at most `SHOWN`. They are shown as digits.
pub(crate) fn push_line(
    room: &mut Room,
    source: Source,
    offset: u64,
    header: &Header,
    first: &FirstBytes,
)
    requires room { length room.old + 200 ≤ 2048 }
    ensures pushed { room.new ≡ room.old ++ line_with source offset header.now (data_word header.now.len first.now) }
    ensures len { length room.new ≤ length room.old + 200 }
{
    source.mark.push_to(room);
    push_place::<BY_FIRST_BYTES>(room, offset, header);
    push_layout::<BY_FIRST_BYTES>(room, header);
    push_data(room, header.payload_len(), first);
    push_marks::<BY_FIRST_BYTES>(room, source, offset, header);
}

/// Puts what stands before a payload that is put elsewhere: the mark, where the frame begins, and its header.
pub(crate) fn push_front(room: &mut Room, mark: Mark, offset: u64, header: &Header)
    requires room { length room.old + 148 ≤ 2048 }
    ensures pushed { room.new ≡ room.old ++ front_words mark offset header.now }
    ensures len { length room.new ≤ length room.old + 148 }
{
    mark.push_to(room);
    push_place::<BY_WHOLE>(room, offset, header);
    push_layout::<BY_WHOLE>(room, header);
}

/// Puts what stands behind it: the remarks, and the end of the line.
pub(crate) fn push_end(room: &mut Room, source: Source, offset: u64, header: &Header)
    requires { length room.old + 20 ≤ 2048 }
    ensures pushed { room.new ≡ room.old ++ end_words source offset header.now }
    ensures len { length room.new ≤ length room.old + 20 }
{
    push_marks::<BY_WHOLE>(room, source, offset, header);
}

/// Puts where a frame begins, and what its first byte says.
fn push_place<const WAY: usize>(room: &mut Room, offset: u64, header: &Header)
    requires { length room.old + 60 ≤ 2048 }
    ensures pushed { room.new ≡ room.old ++ place_words offset header.now }
    ensures len { length room.new ≤ length room.old + 60 }
{
    room.push_large(offset);
    room.push(b" ");
    push_kind(room, header.opcode());
    push_bits(room, header.fin(), header.rsv());
}

/// Puts FIN and the reserved bits, and the word before the key, in one copy.
fn push_bits(room: &mut Room, fin: bool, rsv: u8)
    requires bits { rsv < 8 }
    requires room { length room.old + 17 ≤ 2048 }
    ensures pushed { room.new ≡ room.old ++ bits_words fin rsv }
    ensures len { length room.new ≡ length room.old + 17 }
{
    let mut words = *b" fin=0 rsv=0 key=";
    if fin {
        words[FIN] = b'1';
    }
    words[RSV] = b'0' + rsv;
    room.push(&words);
}

/// Puts the masking key, and the payload length with its form.
fn push_layout<const WAY: usize>(room: &mut Room, header: &Header)
    requires { length room.old + 45 ≤ 2048 }
    ensures pushed { room.new ≡ room.old ++ layout_words header.now }
    ensures len { length room.new ≤ length room.old + 45 }
{
    push_key(room, header.key());
    // The words of most lines are copied from here: they can't lie in the room, so it isn't asked at run time whether
    // the two overlap.
    let len_word = *b" len=";
    let short_word = *b" short ";
    let two_word = *b" two ";
    room.push(&len_word);
    room.push_decimal(header.payload_len());
    match header.form() {
        Form::Short => room.push(&short_word),
        Form::Two => room.push(&two_word),
        Form::Eight => room.push(b" eight "),
    }
}

/// Puts the name of an opcode.
fn push_kind(room: &mut Room, opcode: u8)
    requires known { opcode < 16 }
    requires room { length room.old + 22 ≤ 2048 }
    ensures pushed { room.new ≡ room.old ++ opcode_word opcode }
    ensures len { length room.new ≤ length room.old + 22 }
{
    let place = opcode as usize * KIND;
    let mut word = [0; KIND];
    word.copy_from_slice(&KINDS[place..place + KIND]);
    room.push_front(&word, word[KIND - 1] as usize);
}

/// Puts a masking key in hexadecimal, or a dash.
fn push_key(room: &mut Room, key: Option<[u8; 4]>)
    requires { length room.old + 8 ≤ 2048 }
    ensures pushed { room.new ≡ room.old ++ key_word key }
    ensures len { length room.new ≤ length room.old + 8 }
{
    match key {
        None => room.push(b"-"),
        Some(key) => room.push_key(key),
    }
}

/// Puts the first bytes of a payload of some length.
fn push_data(room: &mut Room, len: u64, first: &FirstBytes)
    requires room { length room.old + 34 ≤ 2048 }
    ensures pushed { room.new ≡ room.old ++ data_word len first.now }
    ensures len { length room.new ≤ length room.old + 34 }
{
    if len == 0 {
        room.push(b"-");
        return;
    }
    room.push_hex(first.lanes(), first.len());
    if len > SHOWN as u64 {
        room.push(b"..");
    }
}

/// Puts what the line adds where the frame is masked and should not be, or the other way round, where the header's form
/// is longer than needed, and where the payload is the stream's first violation, and ends it.
fn push_marks<const WAY: usize>(room: &mut Room, source: Source, offset: u64, header: &Header)
    requires { length room.old + 20 ≤ 2048 }
    ensures pushed { room.new ≡ room.old ++ end_words source offset header.now }
    ensures len { length room.new ≤ length room.old + 20 }
{
    match (source.from, header.key()) {
        (Role::Client, None) | (Role::Server, Some(_)) => room.push(b" !mask"),
        (Role::Client, Some(_)) | (Role::Server, None) => {}
    }
    if header.is_longer_than_needed() {
        room.push(b" !form");
    }
    if let Some(place) = source.fault {
        push_fault(room, place, offset, header.opcode());
    }
    room.push(b"\n");
}

/// Puts the mark of the frame whose payload is at fault, if the frame with this opcode is the one at that place. It
/// stands apart, so that a stream without a fault doesn't pay for it.
#[inline(never)]
fn push_fault(room: &mut Room, place: u64, offset: u64, opcode: u8)
    requires { length room.old + 7 ≤ 2048 }
    ensures pushed { room.new ≡ room.old ++ fault_mark (Some place) offset opcode }
    ensures len { length room.new ≤ length room.old + 7 }
{
    if place != offset {
        return;
    }
    match opcode {
        CLOSE => room.push(b" !close"),
        _ => room.push(b" !text"),
    }
}
