//! Whether a close frame is among the frames of a stream.

ghost use Rattle.std.specs.Prelude.{◌≡◌, ◌↔◌, IsTrue, MatchOption};
ghost use Rattle.ws_wire.specs.Frame.{IsWireFrame, WireFrame, wire_bytes};
ghost use Rattle.ws_wire.specs.Stream.{BeginsNone};
ghost use Rattle.ws_followed.specs.Closes.{BeginsWithFrame, HoldsClose};

use ws_wire::{Header, HeaderRead, read_header};

/// The opcode of a close frame.
const CLOSE: u8 = 8;

/// Whether some bytes begin with whole frames of which one is a close.
pub(crate) fn holds_close(bytes: &[u8]) -> bool
    ensures { IsTrue result ↔ HoldsClose bytes.now }
{
    let mut rest = bytes;
    while let Some((header, after)) = cut_frame(rest) {
        if header.opcode() == CLOSE {
            return true;
        }
        rest = after;
    }
    false
}

/// The header of the frame at the front of some bytes, in any form, where it is whole, and the bytes behind it.
fn cut_frame(bytes: &[u8]) -> Option<(Header, &[u8])>
    ensures { MatchOption result (BeginsNone IsWireFrame wire_bytes bytes.now)
        (λ found. BeginsWithFrame bytes.now found.0 found.1.now) }
{
    let HeaderRead::Got { header, used } = read_header(bytes) else {
        return None;
    };
    let (_, rest) = bytes.split_at(used);
    let len = header.payload_len();
    if (rest.len() as u64) < len {
        return None;
    }
    let (_, after) = rest.split_at(len as usize);
    Some((header, after))
}
