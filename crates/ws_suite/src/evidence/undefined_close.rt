//! Whether what was got ends with a close frame whose code the standard leaves undefined (RFC 6455 section 7.4): to a
//! run by the protocol that is a close.

ghost use Rattle.std.specs.Prelude.{◌↔◌, ◌++◌, ◌≡◌, ◌-◌, ℕ, IfOk, IsTrue, drop, length};
ghost use Rattle.std.specs.List.{concat};
ghost use Rattle.ws_suite.specs.Evidence.{got_turns, other_role};
ghost use Rattle.ws_suite.specs.InnerMarks.{IsSeen};
ghost use Rattle.ws_suite.specs.Marks.{FailsByUndefinedCode};

use crate::evidence::collecting::{Rooms, Taken, Way, nothing_taken, take_piece};
use crate::evidence::growing::other;
use crate::evidence::keeping::KeepsReplies;
use crate::evidence::kept::Kept;
use crate::evidence::marks::Told;
use crate::evidence::streams::Seen;
use std::alloc::Global;
use ws_base::NoMemory;
use ws_scripts::Turn;
use ws_wire::Role;

/// Keeps nothing of the replies.
#[derive(Drop)]
struct NoReplies {}

impl KeepsReplies for NoReplies {
    ghost use Rattle.std.specs.Prelude.{⊤};

    ghost keeps = { λ handed kept replies. ⊤ };

    fn none(_alloc: Global) -> NoReplies {
        NoReplies {}
    }

    fn keep(&mut self, _reply: Kept<'_>) -> Result<(), NoMemory> {
        Ok(())
    }
}

/// Whether the first fault of what was got is that of a close frame whose code the standard leaves undefined, and whose
/// reason is text: in these turns and then, in one more, these bytes. It reads them all once.
pub fn has_undefined_close(
    alloc: Global,
    tested: Role,
    past: &[Turn],
    last: &[u8],
) -> Result<bool, NoMemory>
    ensures { IfOk result (λ has. IsTrue has
        ↔ ((code : ℕ) × FailsByUndefinedCode (other_role tested) (concat (got_turns past.now) ++ last.now) code)) }
{
    let seen = seen_of(alloc, other(tested), past, last)?;
    let bytes = bytes_behind(alloc, past, last, seen.first_asked())?;
    let told = Told { seen, bytes };
    Ok(told.undefined_code().is_some())
}

/// What an end of this role sees of these turns and then of these bytes.
fn seen_of(alloc: Global, role: Role, past: &[Turn], last: &[u8]) -> Result<Seen, NoMemory>
    ensures { IfOk result (λ seen. IsSeen role (concat (got_turns past.now) ++ last.now) seen) }
{
    let mut rooms = Rooms::new(alloc);
    let mut taken: Taken<NoReplies> = nothing_taken(alloc, Way::Got, role);
    let mut rest = past;
    while let Some((turn, later)) = rest.split_first() {
        take_piece(Way::Got, 0, turn.got.as_slice(), &mut rooms, &mut taken)?;
        rest = later;
    }
    take_piece(Way::Got, 0, last, &mut rooms, &mut taken)?;
    Ok(taken.seen)
}

/// What was got in these turns, and then these bytes, from this place on.
fn bytes_behind(
    alloc: Global,
    past: &[Turn],
    last: &[u8],
    place: usize,
) -> Result<Vec<u8>, NoMemory>
    ensures { IfOk result (λ bytes. bytes.items ≡ drop place (concat (got_turns past.now) ++ last.now)) }
{
    let mut bytes = Vec::new(alloc);
    let mut left = place;
    let mut rest = past;
    while let Some((turn, later)) = rest.split_first() {
        left = put_behind(&mut bytes, turn.got.as_slice(), left)?;
        rest = later;
    }
    put_behind(&mut bytes, last, left)?;
    Ok(bytes)
}

/// Puts a piece behind the bytes, without so many of its first; how many of those after it aren't to be put.
fn put_behind(bytes: &mut Vec<u8>, piece: &[u8], left: usize) -> Result<usize, NoMemory>
    ensures { IfOk result (λ others. (bytes.new.items ≡ bytes.old.items ++ drop left piece.now)
        × (others ≡ left - length piece.now)) }
{
    let passed = left.min(piece.len());
    bytes.extend_from_slice(&piece[passed..])?;
    Ok(left - passed)
}
