//! What a piece makes of the frame under way.

use crate::message::Kind;
use crate::reason::Reason;
use ws_text::Utf8Stream;

/// What the piece makes of the frame under way, where it doesn't just go on: told in a few words, since the payload of
/// a control frame isn't looked at yet.
#[derive(Clone, Copy)]
pub(super) enum PieceCheck {
    /// A data frame is whole with the first `used` bytes of the piece, and nothing is wrong with it: FIN, and the kind
    /// of its message, whose payload with this frame stands in the assembly, read by the stream where it is text.
    Whole {
        used: usize,
        fin: bool,
        kind: Kind,
        text: Utf8Stream,
    },
    /// What the piece has after its first `start` bytes is for the payload of a control frame.
    Control {
        start: usize,
    },
    /// The first fault is told at the last of the first `used` bytes of the piece.
    Fault {
        reason: Reason,
        used: usize,
    },
}
