//! Laws over the definitions, each the contract of a function that does nothing.

ghost use Rattle.std.specs.Prelude.{◌≡◌, ◌≢◌, ◌≤◌, ℕ, All, List, [], ◌∷◌, codes, length};
ghost use Rattle.std.specs.List.{AllByRecursion, join_with_byte};
ghost use Rattle.ws_formats.specs.Examples.{IsLetter};
ghost use Rattle.ws_formats.specs.Lines.{HasLineForEach, IsDamagedAt};
ghost use Rattle.ws_formats.specs.Words.{IsHexWord, space, words_of};

/// The words of a line, joined by one space, are the line; and words without a space are those of the line that they
/// make.
pub fn a_line_is_its_words()
    ensures joined { (line : List ℕ) → join_with_byte space (words_of line) ≡ line }
    ensures parted { (word : List ℕ) (words : List (List ℕ)) →
        AllByRecursion (All (λ byte. byte ≢ space)) (word ∷ words) →
        words_of (join_with_byte space (word ∷ words)) ≡ word ∷ words }
{}

/// Worked examples, for the format of which each line is `a`: a text of it; one whose second line is another; and one
/// whose second line has no LF.
pub fn damaged_letters()
    ensures two_letters { HasLineForEach IsLetter (97 ∷ 97 ∷ []) (codes "a\na\n") }
    ensures another { IsDamagedAt (HasLineForEach IsLetter) 2 (codes "a\nb\n") }
    ensures no_feed { IsDamagedAt (HasLineForEach IsLetter) 2 (codes "a\na") }
{}

/// A word that spells bytes is no shorter than they are.
pub fn hexadecimal_is_no_shorter()
    ensures { (bytes word : List ℕ) → IsHexWord bytes word → length bytes ≤ length word }
{}

/// A word spells one list of bytes.
pub fn a_word_spells_one_list_of_bytes()
    ensures { (bytes others word : List ℕ) → IsHexWord bytes word → IsHexWord others word → bytes ≡ others }
{}
