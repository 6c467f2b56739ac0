//! Laws over the definitions, each the contract of a function that does nothing.

ghost use Rattle.std.specs.Prelude.{◌≢◌, ℕ, All, IsTrue, List};
ghost use Rattle.ws_reports.specs.Escaping.{IsInText, escaped, is_plain, quoted};

/// What is escaped has no tag and no quotation mark in it, so that it ends neither the text nor the attribute in which
/// it stands; and what is quoted has no line feed. Each of its bytes is a character that XML has and that stands for
/// itself, so that a reader of XML refuses none.
pub fn escaped_texts_end_nothing()
    ensures between_tags { (bytes : List ℕ) → All IsInText (escaped bytes) }
    ensures in_attributes { (bytes : List ℕ) → All IsInText (quoted bytes) }
    ensures one_line { (bytes : List ℕ) → All (λ byte. byte ≢ 10) (quoted bytes) }
    ensures characters { (bytes : List ℕ) → All (λ byte. IsTrue (is_plain byte)) (escaped bytes) }
    ensures quoted_characters { (bytes : List ℕ) → All (λ byte. IsTrue (is_plain byte)) (quoted bytes) }
{}
