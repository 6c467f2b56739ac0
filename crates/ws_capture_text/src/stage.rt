//! How far a capture is read: as much as decides which lines may follow.

ghost use Rattle.std.specs.Prelude.{◌≡◌};
ghost use Rattle.ws_capture_text.specs.InnerStages.{after_begin, after_format, after_lines, after_nothing, after_sent};
ghost use Rattle.ws_capture_text.specs.InnerStages.{after_turns, stage_after};

use crate::line_kind::LineKind;
use crate::mark::Mark;

/// What was read of a capture.
#[derive(Clone, Copy)]
pub(crate) enum Stage {
    /// No line.
    Nothing,
    /// The first line, in format 2.
    FirstOfTwo,
    /// In format 1 the first line, and lines with bytes.
    One,
    /// In format 2 the lines before the turns, or those of turns to which no more bytes belong.
    Settled,
    /// A turn has begun.
    Begun,
    /// A turn has begun, and its sent bytes were read.
    Sent,
    /// All lines.
    Whole,
}

impl Stage {
    /// How far it is read with one more line, where that may follow.
    pub(crate) fn after(self, kind: LineKind) -> Option<Stage>
        ensures { result ≡ stage_after self kind }
    {
        match self {
            Stage::Nothing => after_nothing(kind),
            Stage::FirstOfTwo => after_format(kind),
            Stage::One => after_lines(kind),
            Stage::Settled => after_turns(kind),
            Stage::Begun => after_begin(kind),
            Stage::Sent => after_sent(kind),
            Stage::Whole => None,
        }
    }
}

/// The first line tells the format.
fn after_nothing(kind: LineKind) -> Option<Stage>
    ensures { result ≡ after_nothing kind }
{
    match kind {
        LineKind::FirstOf1 => Some(Stage::One),
        LineKind::FirstOf2 => Some(Stage::FirstOfTwo),
        _ => None,
    }
}

/// The second line of format 2 tells the key.
fn after_format(kind: LineKind) -> Option<Stage>
    ensures { result ≡ after_format kind }
{
    match kind {
        LineKind::Key => Some(Stage::Settled),
        _ => None,
    }
}

/// In format 1 any line with bytes may follow, or how the connection ended, but not that it broke.
fn after_lines(kind: LineKind) -> Option<Stage>
    ensures { result ≡ after_lines kind }
{
    match kind {
        LineKind::Data(_) => Some(Stage::One),
        LineKind::End => Some(Stage::Whole),
        _ => None,
    }
}

/// Behind a turn stands the next, or how the connection ended.
fn after_turns(kind: LineKind) -> Option<Stage>
    ensures { result ≡ after_turns kind }
{
    match kind {
        LineKind::Begin => Some(Stage::Begun),
        LineKind::End | LineKind::Broken => Some(Stage::Whole),
        _ => None,
    }
}

/// A turn may have sent bytes or got bytes.
fn after_begin(kind: LineKind) -> Option<Stage>
    ensures { result ≡ after_begin kind }
{
    match kind {
        LineKind::Data(Mark::Sent) => Some(Stage::Sent),
        LineKind::Data(Mark::Got) => Some(Stage::Settled),
        _ => after_turns(kind),
    }
}

/// Behind its sent bytes a turn may have got bytes.
fn after_sent(kind: LineKind) -> Option<Stage>
    ensures { result ≡ after_sent kind }
{
    match kind {
        LineKind::Data(Mark::Got) => Some(Stage::Settled),
        _ => after_turns(kind),
    }
}
