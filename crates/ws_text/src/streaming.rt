//! Text that comes in pieces (RFC 6455 section 8.1).

ghost use Rattle.std.specs.Prelude.{◌≡◌, ◌≤◌, ◌↔◌, ℕ, List, [], ◌++◌, IsTrue, Bool, false, IsOk, OnOk, OnErr, IfErr};
ghost use Rattle.std.specs.Prelude.{Err};
ghost use Rattle.ws_text.specs.Text.{IsText, BeginsText};
ghost use Rattle.ws_text.specs.Stream.{HasReadText, HasFailed, BreaksTextAt, IsWanted};

use crate::unfinished::Unfinished;
use crate::whole::valid_prefix;
use std::marker::Model;

/// A stream of one text that comes in pieces. It keeps at most three bytes, those of a character that
/// a piece has cut, or that it has failed. A copy goes on where the original stands.
#[derive(Clone, Copy)]
pub struct Utf8Stream {
    /// The bytes that it keeps: none once it has failed.
    unfinished: Unfinished,
    /// Whether it has failed: a field of its own, behind the other, so that a copy is read in the widths in which it
    /// was written.
    failed: bool,
}

impl Model for Utf8Stream {
    ghost use Rattle.std.specs.Prelude.{ℕ, List, Option};

    ghost Value = { Option (List ℕ) };

    ghost use Rattle.std.specs.Prelude.{is_none};
    ghost use Rattle.ws_text.specs.InnerStep.{IsStream, stream_of, kept_in};

    ghost view = { λ s. stream_of s.unfinished s.failed };

    ghost invariant = { λ s. IsStream s.unfinished s.failed };

    ghost inverse = { λ v. record { unfinished = kept_in v; failed = is_none v } };
}

impl Utf8Stream {
    /// A stream that has read nothing yet.
    pub fn new() -> Utf8Stream
        ensures { HasReadText result [] }
    {
        Utf8Stream {
            unfinished: Unfinished::Nothing,
            failed: false,
        }
    }

    /// Reads the next piece of the text. `Err` is the place in the piece of the first byte after which
    /// nothing can complete the text so far: a receiver fails the connection with code 1007
    /// (section 8.1). From then on the stream has failed, and each push is `Err(0)`.
    pub fn push(&mut self, piece: &[u8]) -> Result<(), usize>
        ensures fits { (text : List ℕ) → HasReadText self.old text →
            (IsOk result ↔ BeginsText (text ++ piece.now)) }
        ensures read { (text : List ℕ) → HasReadText self.old text →
            OnOk result (HasReadText self.new (text ++ piece.now)) }

        // The place is the least: every front of what begins a text begins one.
        ensures place { (text : List ℕ) → HasReadText self.old text →
            IfErr result (BreaksTextAt text piece.now) }
        ensures fails { OnErr result (HasFailed self.new) }
        ensures failed { HasFailed self.old → result ≡ Err 0 }
    {
        if self.failed {
            return Err(0);
        }
        match self.unfinished.push(piece) {
            Ok(unfinished) => {
                self.unfinished = unfinished;
                Ok(())
            }
            Err(place) => {
                self.unfinished = Unfinished::Nothing;
                self.failed = true;
                Err(place)
            }
        }
    }

    /// Whether what was read is a text: it was never refused, and ends inside no character.
    pub fn is_whole(&self) -> bool
        ensures whole { (text : List ℕ) → HasReadText self.now text → (IsTrue result ↔ IsText text) }
        ensures failed { HasFailed self.now → result ≡ false }
    {
        if self.failed {
            return false;
        }
        self.unfinished.is_nothing()
    }

    /// How many bytes the text still wants, 0 to 3: those that are missing of the character inside which it ends. With
    /// fewer bytes nothing makes a text of what was read, with that many something does. Once the stream has failed it
    /// wants none.
    pub fn wanted(&self) -> usize
        ensures wanted { (text : List ℕ) → HasReadText self.now text → IsWanted text result }
        ensures bound { result ≤ 3 }
        ensures failed { HasFailed self.now → result ≡ 0 }
    {
        if self.failed {
            return 0;
        }
        self.unfinished.missing()
    }
}
