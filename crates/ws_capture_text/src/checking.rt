//! Whether a text is a capture, in either format.

ghost use Rattle.std.specs.Prelude.{MatchResult};
ghost use Rattle.ws_scripts.specs.Captures.{DamagesCapture};
ghost use Rattle.ws_scripts.specs.Captures2.{IsAnyCaptureOf};
ghost use Rattle.ws_scripts.specs.declared.capture.Capture.{Capture};
ghost use Rattle.ws_capture_text.specs.InnerStages.{ReachesWhole, stage_goes_on};

use crate::line_kind::read_kind;
use crate::stage::Stage;
use std::alloc::Global;
use ws_base::{LineFault, TextFault};
use ws_formats::{PartialText, read_by_lines};
use ws_scripts::CaptureFault;

/// A text that is a capture, in format 2 or in format 1, is passed. Else it is told where it is damaged.
pub fn check_capture(alloc: Global, text: &[u8]) -> Result<(), CaptureFault>
    ensures { MatchResult result (λ _. (capture : Capture) × IsAnyCaptureOf capture text.now)
        (λ fault. DamagesCapture IsAnyCaptureOf fault text.now) }
{
    match read_by_lines(alloc, Stage::Nothing, text) {
        Ok(()) => Ok(()),
        Err(TextFault::Damaged(line)) => Err(CaptureFault::Damaged(line)),
        Err(TextFault::NoMemory) => Err(CaptureFault::NoMemory),
    }
}

impl PartialText for Stage {
    type Value = ();

    ghost tells = { ReachesWhole };

    fn take_line(self, _alloc: Global, line: &[u8]) -> Result<Stage, LineFault> {
        let Some(kind) = read_kind(line) else {
            return Err(LineFault::Damaged);
        };
        match self.after(kind) {
            Some(stage) => Ok(stage),
            None => Err(LineFault::Damaged),
        }
    }

    fn value(self) -> Option<()> {
        match self {
            Stage::Whole => Some(()),
            _ => None,
        }
    }

    ghost goes_on = { stage_goes_on };
}
