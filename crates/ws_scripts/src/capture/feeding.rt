//! A capture that is read piece by piece, in either format.

ghost use Rattle.std.specs.Prelude.{List, ℕ, [], ◌++◌, MatchResult};
ghost use Rattle.ws_scripts.specs.CaptureFeeds.{IsFedCapture};
ghost use Rattle.ws_scripts.specs.Captures.{DamagesCapture};
ghost use Rattle.ws_scripts.specs.Captures2.{IsAnyCaptureOf};

use crate::capture::reading::{PartialCapture, capture_fault};
use crate::capture::{CaptureFault, KeptCapture};
use std::alloc::Global;
use ws_text_feed::LinesFeed;

/// The front of a capture, of which no text is kept but a line that hasn't ended.
#[derive(Drop)]
pub struct CaptureFeed {
    lines: LinesFeed<PartialCapture>,
}

impl CaptureFeed {
    /// A feed of which nothing was fed yet.
    pub fn new(alloc: Global) -> CaptureFeed
        ensures { IsFedCapture [] result }
    {
        CaptureFeed {
            lines: LinesFeed::new(alloc, PartialCapture::Nothing(true)),
        }
    }

    /// Feeds what comes next of the text.
    pub fn feed(self, alloc: Global, piece: &[u8]) -> Result<CaptureFeed, CaptureFault>
        ensures { (text : List ℕ) → IsFedCapture text self → MatchResult result
            (λ longer. IsFedCapture (text ++ piece.now) longer)
            (λ fault. (more : List ℕ) → DamagesCapture IsAnyCaptureOf fault (text ++ (piece.now ++ more))) }
    {
        match self.lines.feed(alloc, piece) {
            Ok(lines) => Ok(CaptureFeed { lines }),
            Err(fault) => Err(capture_fault(fault)),
        }
    }

    /// The text ends here: the capture that it is.
    pub fn end(self) -> Result<KeptCapture, CaptureFault>
        ensures { (text : List ℕ) → IsFedCapture text self → MatchResult result
            (λ capture. IsAnyCaptureOf capture text)
            (λ fault. DamagesCapture IsAnyCaptureOf fault text) }
    {
        match self.lines.end() {
            Ok(capture) => Ok(capture),
            Err(fault) => Err(capture_fault(fault)),
        }
    }
}
