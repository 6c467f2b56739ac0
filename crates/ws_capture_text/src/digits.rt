//! Whether words spell bytes in lower-case hexadecimal, two digits a byte: nothing is kept of them.

ghost use Rattle.std.specs.Prelude.{◌↔◌, IsTrue};
ghost use Rattle.ws_capture_text.specs.InnerKinds.{SpellsSome};

use ws_formats::are_digits;

/// Whether a word spells at least one byte.
pub(crate) fn spells_some(word: &[u8]) -> bool
    ensures { IsTrue result ↔ SpellsSome word.now }
{
    if word.is_empty() {
        return false;
    }
    if word.len() % 2 == 1 {
        return false;
    }
    are_digits(word)
}
