//! A text that is fed piece by piece.

ghost use Rattle.std.specs.Prelude.{◌≡◌, List, ℕ, [], ◌∷◌, ◌++◌, MatchResult, OnOk};
ghost use Rattle.ws_formats.specs.Lines.{Damages, HasLineForEach, IsLine, line_feed};
ghost use Rattle.ws_text_feed.specs.Feeding.{IsFed, WasFed};
ghost use Rattle.ws_text_feed.specs.Taking.{CanTake, TakesValue};

use crate::MOST_KEPT;
use crate::taking::TakeValues;
use std::alloc::Global;
use ws_base::{LineFault, TextFault};
use ws_formats::cut_line;

/// A text so far: who has taken its values, and the line that hasn't ended.
#[derive(Drop)]
pub struct TextFeed<T> {
    taker: T,
    partial: Vec<u8>,
    /// The number of the line that hasn't ended, from 1.
    number: u64,
}

impl<T: TakeValues> TextFeed<T> {
    /// A feed of which nothing was fed yet.
    pub fn new(alloc: Global, taker: T) -> TextFeed<T>
        requires { T.has_taken taker [] taker }
        ensures { IsFed T.is_line_of T.has_taken taker [] result }
    {
        TextFeed {
            taker,
            partial: Vec::new(alloc),
            number: 1,
        }
    }

    /// Feeds what comes next of the text. After an error nothing more is to be fed.
    pub fn feed(&mut self, alloc: Global, piece: &[u8]) -> Result<(), TextFault>
        requires { WasFed T.is_line_of T.has_taken self.old }
        ensures { (first : T) (text : List ℕ) →
            IsFed T.is_line_of T.has_taken first text self.old →
            MatchResult result
            (λ done. IsFed T.is_line_of T.has_taken first (text ++ piece.now) self.new)
            (λ fault. (more : List ℕ) →
            Damages (HasLineForEach T.is_line_of) fault (text ++ (piece.now ++ more))) }
    {
        let mut rest = piece;
        while let Some((line, after)) = cut_line(rest) {
            match self.end_line(alloc, line) {
                Ok(()) => rest = after,
                Err(fault) => return Err(fault),
            }
        }
        match self.partial.extend_from_slice(rest) {
            Ok(()) => Ok(()),
            Err(_) => Err(TextFault::NoMemory),
        }
    }

    /// The line ends with these bytes, and its value is taken.
    fn end_line(&mut self, alloc: Global, end: &[u8]) -> Result<(), TextFault>
        requires line { IsLine end.now }
        requires fed { WasFed T.is_line_of T.has_taken self.old }
        ensures { (first : T) (text : List ℕ) →
            IsFed T.is_line_of T.has_taken first text self.old →
            MatchResult result
            (λ done. IsFed T.is_line_of T.has_taken first (text ++ (end.now ++ line_feed ∷ [])) self.new)
            (λ fault. (more : List ℕ) →
            Damages (HasLineForEach T.is_line_of) fault (text ++ (end.now ++ line_feed ∷ more))) }
    {
        match self.take_line(alloc, end) {
            Ok(()) => {}
            Err(LineFault::Damaged) => return Err(TextFault::Damaged(self.number)),
            Err(LineFault::NoMemory) => return Err(TextFault::NoMemory),
        }
        // No number counts more lines.
        let Some(number) = self.number.checked_add(1) else {
            return Err(TextFault::NoMemory);
        };
        self.number = number;
        Ok(())
    }

    /// Takes the value of the line that ends with these bytes. A line that came in one piece is read where it is.
    fn take_line(&mut self, alloc: Global, end: &[u8]) -> Result<(), LineFault>
        requires { CanTake T.has_taken self.old.taker }
        ensures taken { TakesValue T.is_line_of T.has_taken self.old.taker self.new.taker
            (self.old.partial.items ++ end.now) result }
        ensures emptied { OnOk result (self.new.partial.items ≡ []) }
        ensures same { self.new.number ≡ self.old.number }
    {
        if self.partial.is_empty() {
            return self.taker.take_line(alloc, end);
        }
        if self.partial.extend_from_slice(end).is_err() {
            return Err(LineFault::NoMemory);
        }
        self.taker.take_kept_line(alloc, &mut self.partial)?;
        self.empty();
        Ok(())
    }

    /// Empties the room for a line. Much room is given back where it is, so that what is taken next finds it free.
    fn empty(&mut self)
        ensures emptied { self.new.partial.items ≡ [] }
        ensures same { (self.new.taker ≡ self.old.taker) × (self.new.number ≡ self.old.number) }
    {
        self.partial.clear();
        self.partial.shrink_to(MOST_KEPT);
    }

    /// The text ends here: who has taken all its values.
    pub fn end(self) -> Result<T, TextFault>
        ensures { (first : T) (text : List ℕ) →
            IsFed T.is_line_of T.has_taken first text self →
            MatchResult result
            (λ taker. (values : List T.Value) × HasLineForEach T.is_line_of values text
            × T.has_taken first values taker)
            (λ fault. Damages (HasLineForEach T.is_line_of) fault text) }
    {
        if self.partial.is_empty() {
            Ok(self.taker)
        } else {
            Err(TextFault::Damaged(self.number))
        }
    }
}
