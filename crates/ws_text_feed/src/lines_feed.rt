//! A text whose lines tell one value together, fed piece by piece.

ghost use Rattle.std.specs.Prelude.{◌≡◌, List, ℕ, [], ◌∷◌, ◌++◌, MatchResult, OnOk};
ghost use Rattle.ws_formats.specs.Lines.{Damages, IsLine, IsTextOfLines, line_feed};
ghost use Rattle.ws_formats.specs.Reading.{TakesLine};
ghost use Rattle.ws_base.specs.declared.text_fault.TextFault.TheVariants.{NoMemory};
ghost use Rattle.ws_text_feed.specs.FeedingLines.{AreFedLines};

use crate::MOST_KEPT;
use std::alloc::Global;
use ws_base::{LineFault, TextFault};
use ws_formats::{PartialText, cut_line};

/// A text so far: what its whole lines tell, and the line that hasn't ended.
#[derive(Drop)]
pub struct LinesFeed<P> {
    part: P,
    partial: Vec<u8>,
    /// The number of the line that hasn't ended, from 1.
    number: u64,
}

impl<P: PartialText> LinesFeed<P> {
    /// A feed of which nothing was fed yet.
    pub fn new(alloc: Global, start: P) -> LinesFeed<P>
        ensures { AreFedLines P.tells start [] result }
    {
        LinesFeed {
            part: start,
            partial: Vec::new(alloc),
            number: 1,
        }
    }

    /// Feeds what comes next of the text.
    pub fn feed(self, alloc: Global, piece: &[u8]) -> Result<LinesFeed<P>, TextFault>
        ensures { (start : P) (text : List ℕ) → AreFedLines P.tells start text self →
            MatchResult result
            (λ longer. AreFedLines P.tells start (text ++ piece.now) longer)
            (λ fault. (more : List ℕ) →
            Damages (IsTextOfLines (P.tells start)) fault (text ++ (piece.now ++ more))) }
    {
        let mut feed = self;
        let mut rest = piece;
        while let Some((line, after)) = cut_line(rest) {
            match feed.end_line(alloc, line) {
                Ok(longer) => feed = longer,
                Err(fault) => return Err(fault),
            }
            rest = after;
        }
        feed.with_open(rest)
    }

    /// The line ends with these bytes, and is taken.
    fn end_line(self, alloc: Global, end: &[u8]) -> Result<LinesFeed<P>, TextFault>
        requires { IsLine end.now }
        ensures { (start : P) (text : List ℕ) → AreFedLines P.tells start text self →
            MatchResult result
            (λ longer. AreFedLines P.tells start (text ++ (end.now ++ line_feed ∷ [])) longer)
            (λ fault. (more : List ℕ) →
            Damages (IsTextOfLines (P.tells start)) fault (text ++ (end.now ++ line_feed ∷ more))) }
    {
        let LinesFeed {
            part,
            mut partial,
            number,
        } = self;
        let part = match take_end(alloc, part, &mut partial, end) {
            Ok(longer) => longer,
            Err(LineFault::Damaged) => return Err(TextFault::Damaged(number)),
            Err(LineFault::NoMemory) => return Err(TextFault::NoMemory),
        };
        // No number counts more lines.
        let Some(number) = number.checked_add(1) else {
            return Err(TextFault::NoMemory);
        };
        Ok(LinesFeed {
            part,
            partial,
            number,
        })
    }

    /// The line that hasn't ended goes on with these bytes.
    fn with_open(self, bytes: &[u8]) -> Result<LinesFeed<P>, TextFault>
        requires { IsLine bytes.now }
        ensures { (start : P) (text : List ℕ) → AreFedLines P.tells start text self →
            MatchResult result
            (λ longer. AreFedLines P.tells start (text ++ bytes.now) longer)
            (λ fault. fault ≡ NoMemory) }
    {
        let LinesFeed {
            part,
            mut partial,
            number,
        } = self;
        match partial.extend_from_slice(bytes) {
            Ok(()) => Ok(LinesFeed {
                part,
                partial,
                number,
            }),
            Err(_) => Err(TextFault::NoMemory),
        }
    }

    /// The text ends here: what it tells.
    pub fn end(self) -> Result<P::Value, TextFault>
        ensures { (start : P) (text : List ℕ) → AreFedLines P.tells start text self →
            MatchResult result
            (λ value. IsTextOfLines (P.tells start) value text)
            (λ fault. Damages (IsTextOfLines (P.tells start)) fault text) }
    {
        let LinesFeed {
            part,
            partial,
            number,
        } = self;
        if !partial.is_empty() {
            return Err(TextFault::Damaged(number));
        }
        match part.value() {
            Some(value) => Ok(value),
            None => Err(TextFault::Damaged(number)),
        }
    }
}

/// Takes the line that is these bytes and then those, and empties the room for them. A line that came in one piece is
/// read where it is.
fn take_end<P: PartialText>(
    alloc: Global,
    part: P,
    partial: &mut Vec<u8>,
    end: &[u8],
) -> Result<P, LineFault>
    ensures taken { TakesLine P.tells part (partial.old.items ++ end.now) result }
    ensures emptied { OnOk result (partial.new.items ≡ []) }
{
    if partial.is_empty() {
        return part.take_line(alloc, end);
    }
    if partial.extend_from_slice(end).is_err() {
        return Err(LineFault::NoMemory);
    }
    let longer = part.take_line(alloc, partial.as_slice())?;
    partial.clear();
    // Much room is given back where it is, so that what is taken next finds it free.
    partial.shrink_to(MOST_KEPT);
    Ok(longer)
}
