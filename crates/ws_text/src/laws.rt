//! Laws of text, each the contract of a function that does nothing (RFC 3629 section 3). Those who
//! check a text in parts need them.

ghost use Rattle.std.specs.Prelude.{◌≡◌, ◌↔◌, ◌≤◌, ◌<◌, ℕ, List, [], ◌++◌, length, take, slice_index, IsUtf8};
ghost use Rattle.ws_text.specs.Text.{IsText, BeginsText, HasUnfinished};
ghost use Rattle.ws_text.specs.Stream.{BreaksTextAt};

/// A front of what begins a text begins one, and a text begins one itself.
pub fn fronts_begin()
    ensures front { (bytes more : List ℕ) → BeginsText (bytes ++ more) → BeginsText bytes }
    ensures text { (bytes : List ℕ) → IsText bytes → BeginsText bytes }
{}

/// The place at which a piece breaks a text is the least: just the fronts up to it begin a text.
pub fn place_is_least()
    ensures { (text piece : List ℕ) (place count : ℕ) → BreaksTextAt text piece place →
        (BeginsText (text ++ take count piece) ↔ (count ≤ place)) }
{}

/// Texts one after the other are a text.
pub fn texts_join()
    ensures { (first second : List ℕ) → IsText first → IsText second → IsText (first ++ second) }
{}

/// What begins a text has exactly one unfinished last character, of at most three bytes, and nothing
/// else has one.
pub fn one_unfinished()
    ensures some { (bytes : List ℕ) → BeginsText bytes → (tail : List ℕ) × HasUnfinished bytes tail }
    ensures same { (bytes tail other : List ℕ) → HasUnfinished bytes tail → HasUnfinished bytes other → tail ≡ other }
    ensures begins { (bytes tail : List ℕ) → HasUnfinished bytes tail → BeginsText bytes }
    ensures short { (bytes tail : List ℕ) → HasUnfinished bytes tail → length tail ≤ 3 }
{}

/// A text is what has an empty unfinished character.
pub fn whole_without_unfinished()
    ensures { (bytes tail : List ℕ) → HasUnfinished bytes tail → (IsText bytes ↔ (tail ≡ [])) }
{}

/// How a text may go on depends on its unfinished character alone.
pub fn goes_on_by_unfinished()
    ensures begins { (bytes tail more : List ℕ) → HasUnfinished bytes tail →
        (BeginsText (bytes ++ more) ↔ BeginsText (tail ++ more)) }
    ensures text { (bytes tail more : List ℕ) → HasUnfinished bytes tail →
        (IsText (bytes ++ more) ↔ IsText (tail ++ more)) }
    ensures unfinished { (bytes tail more next : List ℕ) → HasUnfinished bytes tail →
        (HasUnfinished (bytes ++ more) next ↔ HasUnfinished (tail ++ more) next) }
{}

/// A text is made of bytes.
pub fn text_is_made_of_bytes()
    ensures { (bytes : List ℕ) → IsText bytes → (i : ℕ) → slice_index bytes i < 256 }
{}

/// Text is what Rust calls UTF-8.
pub fn text_is_utf8()
    ensures { (bytes : List ℕ) → (IsText bytes ↔ IsUtf8 bytes) }
{}

/// The bytes of a `str` are a text.
pub fn str_is_text(text: &str)
    ensures { IsText text.now }
{}
