//! The pongs behind a close, each with its turn: no session tells them (RFC 6455 section 5.5.1 forbids data frames
//! alone there).

ghost use Rattle.std.specs.Prelude.{◌+◌, ◌++◌, ◌<◌, ◌≤◌, ◌≡◌, ◌∷◌, [], ℕ, IfOk, List, OnOk, length};
ghost use Rattle.std.specs.List.{concat};
ghost use Rattle.ws_wire.specs.Frame.{IsWireFrame, WireFrame, wire_bytes};
ghost use Rattle.ws_scripts.specs.declared.transcript.Turn.{Turn};
ghost use Rattle.ws_suite.specs.declared.evidence.Reply.TheVariants.{Pong};
ghost use Rattle.ws_suite.specs.Evidence.{HoldsByte, got_turns};
ghost use Rattle.ws_suite.specs.InnerMarks.{CanPass, HavePongsAmong, IsFrameFound, IsPlaceIn};

use crate::evidence::wire_frames::{WholeFrame, control_payload, is_right_pong, whole_frame};
use crate::evidence::{Kept, Replies, ReplyKind};
use std::alloc::Global;
use ws_base::NoMemory;
use ws_scripts::{TranscriptRef, TurnWalk};
use ws_wire::Role;

/// The right pongs among the frames of these bytes, which are the last of all that was got, each with its turn.
pub(super) fn pongs_behind(
    alloc: Global,
    role: Role,
    transcript: &TranscriptRef<'_>,
    before: usize,
    bytes: &[u8],
) -> Result<Replies, NoMemory>
    requires { before + length bytes.now ≡ length (concat (got_turns transcript.now.turns)) }
    ensures { IfOk result (λ pongs. HavePongsAmong role (got_turns transcript.now.turns) before bytes.now pongs) }
{
    let mut pongs = Replies::new(alloc);
    let mut place = GotPlace::first(transcript);
    place.pass(before);
    let mut rest = bytes;
    while let Some(frame) = whole_frame(rest) {
        place.pass(rest.len() - frame.after.len());
        if is_right_pong(role, &frame) {
            push_pong(&mut pongs, place.turn(), &frame)?;
        }
        rest = frame.after;
    }
    Ok(pongs)
}

/// One more pong, the payload of this frame.
fn push_pong(pongs: &mut Replies, turn: usize, frame: &WholeFrame<'_>) -> Result<(), NoMemory>
    ensures { (x : WireFrame) → IsWireFrame x → IsFrameFound x frame.now → length x.payload ≤ 125
        → OnOk result (pongs.new ≡ pongs.old ++ record { turn = turn; what = Pong x.payload } ∷ []) }
{
    let room = control_payload(frame);
    pongs.push(Kept {
        turn,
        kind: ReplyKind::Pong,
        payload: room.as_slice(),
    })
}

/// A place among all bytes that were got, which goes on from turn to turn.
#[derive(Drop)]
struct GotPlace<'a> {
    /// The turns behind the one under way.
    later: TurnWalk<'a>,
    /// How many turns there are in all.
    count: usize,
    /// How many bytes of the turn under way are behind the place.
    left: usize,
}

impl<'a> GotPlace<'a> {
    /// Before all bytes.
    fn first(transcript: &TranscriptRef<'a>) -> GotPlace<'a>
        ensures { IsPlaceIn transcript.now.turns 0 result }
    {
        let later = transcript.turns();
        let count = later.len();
        GotPlace {
            later,
            count,
            left: 0,
        }
    }

    /// So many bytes more are before it, which are there.
    fn pass(&mut self, passed: usize)
        requires { CanPass self.old passed }
        ensures { (turns : List Turn) (n : ℕ) → IsPlaceIn turns n self.old
            → IsPlaceIn turns (n + passed) self.new }
    {
        let mut to_pass = passed;
        while self.left < to_pass {
            to_pass -= self.left;
            self.left = self.later.take_first().got.len();
        }
        self.left -= to_pass;
    }

    /// The turn that holds the last byte before it, where there is one.
    fn turn(&self) -> usize
        ensures { (turns : List Turn) (n : ℕ) → IsPlaceIn turns n self.now → 0 < n
            → HoldsByte (got_turns turns) result n }
    {
        self.count
            .saturating_sub(self.later.len())
            .saturating_sub(1)
    }
}
