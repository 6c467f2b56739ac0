//! What a transcript shows: both directions are read once, turn by turn.

ghost use Rattle.std.specs.Prelude.{◌≡◌, ◌&&◌, IfOk, length, map};
ghost use Rattle.ws_scripts.specs.Pieces.{lent_turn};
ghost use Rattle.ws_suite.specs.Evidence.{IsEvidenceOf, got_turns, other_role, sent_turns};
ghost use Rattle.ws_suite.specs.Explanation.{IsBeyondBy, told_in};
ghost use Rattle.ws_suite.specs.Growing.{AreAll};
ghost use Rattle.ws_suite.specs.InnerCollecting.{IsEvidenceBy, IsToldEvidenceOf, first_beyond, found_by, way_bytes};
ghost use Rattle.ws_suite.specs.InnerDoom.{AreDooms};
ghost use Rattle.ws_suite.specs.InnerMarks.{AreStreamsBy, AreStreamsOf};
ghost use Rattle.ws_suite.specs.Matching.{ends_with_close};

use crate::evidence::collecting::{Collected, Rooms, Taken, Way, nothing_taken, take_piece};
use crate::evidence::doom::{Dooms, doom_at_close, is_doomed};
use crate::evidence::growing::other;
use crate::evidence::keeping::AllReplies;
use crate::evidence::streams::Streams;
use crate::evidence::{Direction, Evidence, ends_in_turn, ends_with_close};
use crate::lemmas::session_laws;
use std::alloc::Global;
use ws_base::NoMemory;
use ws_scripts::{TranscriptRef, TurnRef};
use ws_wire::Role;

/// What a transcript shows.
#[derive(Drop)]
pub(crate) struct Shown {
    pub evidence: Evidence,
    /// Whether what was sent is doomed.
    pub dooms: Dooms,
    /// The turn of the first byte behind the close that was got.
    pub beyond: Option<usize>,
    /// What was seen of the bytes.
    pub streams: Streams,
}

/// The evidence of a transcript.
pub(crate) fn evidence_of(
    alloc: Global,
    tested: Role,
    transcript: &TranscriptRef<'_>,
) -> Result<Shown, NoMemory>
    ensures evidence { IfOk result (λ shown. IsEvidenceOf tested transcript.now shown.evidence) }
    ensures dooms { IfOk result (λ shown. AreDooms tested (sent_turns transcript.now.turns)
        shown.evidence.got.ending shown.dooms) }
    ensures streams { IfOk result (λ shown. AreStreamsOf tested transcript.now shown.streams) }
{
    let shown = shown_by(alloc, Way::Got, tested, transcript)?;
    Ok(shown)
}

/// The evidence of a transcript, with the pings that were got.
pub(crate) fn told_evidence_of(
    alloc: Global,
    tested: Role,
    transcript: &TranscriptRef<'_>,
) -> Result<Shown, NoMemory>
    ensures evidence { IfOk result (λ shown. IsToldEvidenceOf tested transcript.now shown.evidence) }
    ensures dooms { IfOk result (λ shown. AreDooms tested (sent_turns transcript.now.turns)
        shown.evidence.got.ending shown.dooms) }
    ensures streams { IfOk result (λ shown. AreStreamsOf tested transcript.now shown.streams) }
    ensures beyond { IfOk result (λ shown. IsBeyondBy (other_role tested) told_in (got_turns transcript.now.turns)
        (length transcript.now.turns) shown.beyond) }
{
    let shown = shown_by(alloc, Way::Told, tested, transcript)?;
    Ok(shown)
}

/// What a transcript shows, where what was got is told this way.
fn shown_by(
    alloc: Global,
    way: Way,
    tested: Role,
    transcript: &TranscriptRef<'_>,
) -> Result<Shown, NoMemory>
    ensures evidence { IfOk result (λ shown. IsEvidenceBy way tested transcript.now shown.evidence) }
    ensures dooms { IfOk result (λ shown. AreDooms tested (sent_turns transcript.now.turns)
        shown.evidence.got.ending shown.dooms) }
    ensures streams { IfOk result (λ shown. AreStreamsBy way tested transcript.now shown.streams) }
    ensures beyond { IfOk result (λ shown. IsBeyondBy (other_role tested) (found_by way)
        (map (way_bytes way) transcript.now.turns) (length transcript.now.turns) shown.beyond) }
{
    session_laws();
    let mut walk = transcript.turns();
    let count = walk.len();
    let mut rooms = Rooms::new(alloc);
    let mut sent: Taken<AllReplies> = nothing_taken(alloc, Way::Sent, tested);
    let mut got: Taken<AllReplies> = nothing_taken(alloc, way, other(tested));
    let mut beyond = None;
    let mut at_close = false;
    for number in 0..count {
        let turn = walk.take_first();
        take_piece(Way::Sent, number, turn.sent, &mut rooms, &mut sent)?;
        take_piece(way, number, bytes_of(way, turn), &mut rooms, &mut got)?;
        beyond = first_beyond(beyond, number, goes_on(&got.collected));
        let ends = ends_in_turn(&got.collected.ending, number);
        at_close = doom_at_close(ends, at_close, &sent);
    }
    let at_end = is_doomed(&sent);
    let streams = Streams {
        sent: sent.seen,
        got: got.seen,
    };
    Ok(Shown {
        evidence: Evidence {
            due: direction_of(sent.collected),
            got: direction_of(got.collected),
            turns: count,
            ended: transcript.ended(),
            answers_doom: false,
        },
        dooms: Dooms { at_close, at_end },
        beyond,
        streams,
    })
}

/// A direction as it was collected.
fn direction_of(collected: Collected<AllReplies>) -> Direction
    ensures replies { AreAll collected.replies result.replies }
    ensures ending { result.ending ≡ collected.ending }
    ensures has_rest { result.has_rest ≡ collected.has_rest }
{
    let Collected {
        replies,
        ending,
        has_rest,
    } = collected;
    Direction {
        replies: replies.list,
        ending,
        has_rest,
    }
}

/// The bytes of a turn that go this way.
pub(super) fn bytes_of(way: Way, turn: TurnRef<'_>) -> &[u8]
    ensures { result.now ≡ way_bytes way (lent_turn turn.entry) }
{
    match way {
        Way::Sent => turn.sent,
        Way::Got | Way::Told => turn.got,
    }
}

/// Whether bytes follow a close.
fn goes_on(collected: &Collected<AllReplies>) -> bool
    ensures { result ≡ (ends_with_close collected.now.ending && collected.now.has_rest) }
{
    ends_with_close(&collected.ending) && collected.has_rest
}

/// The first turn in which bytes follow the close, where this one may be it.
fn first_beyond(beyond: Option<usize>, number: usize, goes_on: bool) -> Option<usize>
    ensures { result ≡ first_beyond beyond number goes_on }
{
    match beyond {
        Some(turn) => Some(turn),
        None => { if goes_on { Some(number) } else { None } }
    }
}
