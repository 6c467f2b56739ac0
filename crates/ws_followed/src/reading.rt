//! Reading what `tshark` prints of a stream that it follows.

ghost use Rattle.std.specs.Prelude.{◌≡◌, ◌++◌, ◌∷◌, [], IfErr, IfOk, MatchResult};
ghost use Rattle.ws_base.specs.declared.text_fault.LineFault.TheVariants.{NoMemory};
ghost use Rattle.ws_formats.specs.Lines.{Damages, IsTextOfLines};
ghost use Rattle.ws_formats.specs.Reading.{TakesLine};
ghost use Rattle.ws_followed.specs.Followed.{AreFollowedLines};
ghost use Rattle.ws_followed.specs.InnerReading.{TellFollowed, followed_goes_on, part_behind};
ghost use Rattle.ws_followed.specs.declared.reading.PartialFollowed.TheVariants.{Before, Data};

use crate::front::{Front, is_rule, may_follow};
use crate::segment::{Segment, read_segment};
use std::alloc::Global;
use ws_base::{LineFault, Sequence, TextFault};
use ws_formats::{PartialText, read_by_lines};

/// What was read of a followed stream.
#[derive(Drop)]
pub(crate) enum PartialFollowed {
    /// Lines before those of the segments.
    Before(Front),
    /// All of these, and these segments.
    Data(Sequence<Segment>),
    /// All lines.
    Whole(Sequence<Segment>),
}

/// The segments of a followed stream.
pub(crate) fn read_segments(alloc: Global, text: &[u8]) -> Result<Sequence<Segment>, TextFault>
    ensures { MatchResult result (λ segments. IsTextOfLines AreFollowedLines segments text.now)
        (λ fault. Damages (IsTextOfLines AreFollowedLines) fault text.now) }
{
    read_by_lines(alloc, PartialFollowed::Before(Front::Start), text)
}

impl PartialText for PartialFollowed {
    type Value = Sequence<Segment>;

    ghost tells = { TellFollowed };

    fn take_line(self, alloc: Global, line: &[u8]) -> Result<PartialFollowed, LineFault> {
        match self {
            PartialFollowed::Before(front) => before(alloc, front, line),
            PartialFollowed::Data(segments) => with_line(alloc, segments, line),
            PartialFollowed::Whole(_) => Err(LineFault::Damaged),
        }
    }

    fn value(self) -> Option<Sequence<Segment>> {
        match self {
            PartialFollowed::Whole(segments) => Some(segments),
            _ => None,
        }
    }

    ghost goes_on = { followed_goes_on };
}

/// What is read with one more line, before those of the segments.
fn before(alloc: Global, front: Front, line: &[u8]) -> Result<PartialFollowed, LineFault>
    ensures { TakesLine TellFollowed (Before front) line.now result }
{
    if line.is_empty() && matches!(front, Front::Start) {
        return Ok(PartialFollowed::Before(Front::Empty));
    }
    if may_follow(front, line) {
        Ok(behind(alloc, front))
    } else {
        Err(LineFault::Damaged)
    }
}

/// How far a stream is read with the line that follows.
fn behind(alloc: Global, front: Front) -> PartialFollowed
    ensures { result ≡ part_behind front }
{
    match front {
        Front::Start | Front::Empty => PartialFollowed::Before(Front::Ruled),
        Front::Ruled => PartialFollowed::Before(Front::Titled),
        Front::Titled => PartialFollowed::Before(Front::Filtered),
        Front::Filtered => PartialFollowed::Before(Front::FirstNode),
        Front::FirstNode => PartialFollowed::Data(Sequence::new(alloc)),
    }
}

/// What is read with one more line behind these segments: one more, or the line of `=`, which is the last.
fn with_line(
    alloc: Global,
    segments: Sequence<Segment>,
    line: &[u8],
) -> Result<PartialFollowed, LineFault>
    ensures { TakesLine TellFollowed (Data segments) line.now result }
{
    if is_rule(line) {
        return Ok(PartialFollowed::Whole(segments));
    }
    match read_segment(alloc, line) {
        Ok(segment) => with_segment(segments, segment),
        Err(fault) => Err(fault),
    }
}

/// The segments with one more.
fn with_segment(segments: Sequence<Segment>, segment: Segment) -> Result<PartialFollowed, LineFault>
    ensures longer { IfOk result (λ longer. longer ≡ Data (segments ++ segment ∷ [])) }
    ensures memory { IfErr result (λ fault. fault ≡ NoMemory) }
{
    let mut items = segments.into_vec();
    match items.push(segment) {
        Ok(()) => Ok(PartialFollowed::Data(Sequence::from_vec(items))),
        Err(_) => Err(LineFault::NoMemory),
    }
}
