//! The end of a header whose bytes come in pieces (RFC 6455 section 5.2).

ghost use Rattle.std.specs.Prelude.{MatchOption, ◌++◌, ℕ, List};
ghost use Rattle.ws_wire.specs.Header.{AreBytes};
ghost use Rattle.ws_wire.specs.Reading.{BeginsNoHeader};
ghost use Rattle.ws_session.specs.InnerReceiving.{CompletesHeader, IsHeaderEnd};

use crate::control_payload::Small;
use ws_wire::{HeadBytes, Header, HeaderRead, laws, read_header};

/// The most bytes of a header.
pub(super) const MAX_HEADER: usize = 14;

/// Where a header ends, which stays where it was read: it is looked at, and not copied.
#[derive(Clone, Copy)]
pub(super) struct HeaderEnd<'r> {
    pub(super) header: &'r Header,
    /// How many bytes there are up to its last one.
    pub(super) used: usize,
}

/// Leaves in `read` the header that a piece completes, after the bytes of it that are kept, and how many bytes of the
/// piece belong to it. No byte behind it is looked at. Whether its length is allowed is a rule of the session.
pub(super) fn complete_header(kept: &Small, piece: &[u8], read: &mut HeaderRead)
    requires none { BeginsNoHeader kept.now }
    requires bytes { AreBytes kept.now }
    ensures { IsHeaderEnd kept.now piece.now read.new }
{
    if kept.as_slice().is_empty() {
        *read = read_header(piece);
    } else {
        *read = complete_cut(kept, piece);
    }
}

/// The same, where the header has begun in earlier pieces: of these and this one as much is put together as a header
/// takes.
#[inline(never)]
fn complete_cut(kept: &Small, piece: &[u8]) -> HeaderRead
    requires none { BeginsNoHeader kept.now }
    requires bytes { AreBytes kept.now }
    ensures { IsHeaderEnd kept.now piece.now result }
{
    laws::fourteen_bytes_hold_a_header();
    let came = kept.as_slice();
    let front = piece.len().min(MAX_HEADER - came.len());
    let mut bytes = HeadBytes::of(came);
    bytes.push(&piece[..front]);
    match read_header(bytes.as_slice()) {
        HeaderRead::Need => HeaderRead::Need,
        HeaderRead::Got { header, used } => HeaderRead::Got {
            header,
            used: used - came.len(),
        },
        HeaderRead::BadLength { header, used } => HeaderRead::BadLength {
            header,
            used: used - came.len(),
        },
    }
}

/// The header that was read, where a whole one was.
#[inline(always)]
pub(super) fn header_in(read: &HeaderRead) -> Option<HeaderEnd<'_>>
    ensures { (kept piece : List ℕ) → IsHeaderEnd kept piece read.now → MatchOption result
        (BeginsNoHeader (kept ++ piece)) (λ end. CompletesHeader kept piece end.header.now end.used) }
{
    match read {
        HeaderRead::Need => None,
        HeaderRead::Got { header, used } => Some(HeaderEnd {
            header,
            used: *used,
        }),
        HeaderRead::BadLength { header, used } => Some(HeaderEnd {
            header,
            used: *used,
        }),
    }
}
