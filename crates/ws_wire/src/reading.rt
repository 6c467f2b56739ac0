//! From bytes to the header at their front (RFC 6455 section 5.2).

ghost use Rattle.std.specs.Prelude.{◌≡◌, ◌≤◌, length, MatchOption};
ghost use Rattle.ws_wire.specs.Reading.{IsHeaderRead};
ghost use Rattle.ws_wire.specs.InnerParts.{LengthEnds, LengthIsCut, KeyEnds, KeyIsCut};

use crate::header::{Form, Header};
use byteorder::{BigEndian, ByteOrder};

/// The first length that the standard refuses: the top bit of its eight bytes is set.
const BAD_LENGTH: u64 = 1 << 63;

/// What stands at the front of some bytes.
#[derive(Clone, Copy)]
pub enum HeaderRead {
    /// Less than a whole header.
    Need,
    /// A header, and how many bytes it takes: 2, 4, 6, 8, 10 or 14.
    Got { header: Header, used: usize },
    /// The same, but the top bit of its eight-byte length is set, which section 5.2 forbids.
    BadLength { header: Header, used: usize },
}

/// Reads the header at the front of the bytes. What follows it doesn't matter. A form longer than
/// needed is read as it stands: `Header::is_longer_than_needed` tells it. It is made a part of its callers, since the
/// header is looked at as soon as it is read: a call that hands it over costs as much as the reading.
#[inline(always)]
pub fn read_header(bytes: &[u8]) -> HeaderRead
    ensures { IsHeaderRead bytes.now result }
{
    if bytes.len() < 2 {
        return HeaderRead::Need;
    }
    let Some((form, len, at)) = length_at(bytes) else {
        return HeaderRead::Need;
    };
    let Some((key, used)) = key_at(bytes, at) else {
        return HeaderRead::Need;
    };
    let (fin, rsv, opcode) = (bytes[0] >= 0x80, bytes[0] / 16 % 8, bytes[0] % 16);
    let Some(header) = Header::new(fin, rsv, opcode, key, len, form) else {
        unreachable!()
    };
    if len < BAD_LENGTH {
        HeaderRead::Got { header, used }
    } else {
        HeaderRead::BadLength { header, used }
    }
}

/// The form, the length, and where the length bytes end.
fn length_at(bytes: &[u8]) -> Option<(Form, u64, usize)>
    requires { 2 ≤ length bytes.now }
    ensures { MatchOption result (LengthIsCut bytes.now) (λ p. LengthEnds bytes.now p.0 p.1 p.2) }
{
    let bits = bytes[1] % 128;
    if bits < 126 {
        return Some((Form::Short, u64::from(bits), 2));
    }
    if bits == 126 {
        if bytes.len() < 4 {
            return None;
        }
        return Some((Form::Two, u64::from(BigEndian::read_u16(&bytes[2..])), 4));
    }
    if bytes.len() < 10 {
        return None;
    }
    Some((Form::Eight, BigEndian::read_u64(&bytes[2..]), 10))
}

/// The masking key, if MASK is set, and where it ends.
fn key_at(bytes: &[u8], at: usize) -> Option<(Option<[u8; 4]>, usize)>
    requires two { 2 ≤ length bytes.now }
    requires within { at ≤ length bytes.now }
    ensures { MatchOption result (KeyIsCut bytes.now at) (λ p. KeyEnds bytes.now at p.0 p.1) }
{
    if bytes[1] < 0x80 {
        return Some((None, at));
    }
    if bytes.len() - at < 4 {
        return None;
    }
    let key = [bytes[at], bytes[at + 1], bytes[at + 2], bytes[at + 3]];
    Some((Some(key), at + 4))
}
