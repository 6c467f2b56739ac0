//! Texts with a name: the titles and scripts of cases, the names of groups, and the rules of verdicts.

ghost use Rattle.std.specs.Prelude.{◌≡◌};
ghost use Rattle.ws_pages.specs.NamedTexts.{text_named};

use ws_base::Payload;

/// A text and its name.
#[derive(Drop)]
pub struct NamedText {
    pub name: Payload,
    pub text: Payload,
}

/// The first text of a name. Empty if there is none.
pub fn text_named<'a>(texts: &'a [NamedText], name: &[u8]) -> &'a [u8]
    ensures { result.now ≡ text_named texts.now name.now }
{
    for text in texts {
        if text.name.as_slice() == name {
            return text.text.as_slice();
        }
    }
    b""
}
