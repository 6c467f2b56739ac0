//! The words of a script's line, cut from its front. They are parted by one space, but a text between quotes has spaces
//! of its own.

ghost use Rattle.ws_scripts.specs.InnerScripting.{CutsFront, CutsWord, TakesField};

/// What stands after the name, where the text begins with it.
pub(crate) fn after_name<'a>(name: &[u8], text: &'a [u8]) -> Option<&'a [u8]>
    ensures { CutsFront name.now text.now result }
{
    if text.len() < name.len() {
        return None;
    }
    let (front, after) = text.split_at(name.len());
    if front == name { Some(after) } else { None }
}

/// The first word, and the rest: nothing, or a space and what follows it.
pub(crate) fn cut_word(text: &[u8]) -> (&[u8], &[u8])
    ensures { CutsWord text.now result.0.now result.1.now }
{
    match text.iter().position(|byte| *byte == b' ') {
        Some(at) => text.split_at(at),
        None => (text, &[]),
    }
}

/// The word after the name, where the text begins with it, and the rest.
pub(crate) fn take_field<'a>(name: &[u8], text: &'a [u8]) -> Option<(&'a [u8], &'a [u8])>
    ensures { TakesField name.now text.now result }
{
    let after = after_name(name, text)?;
    let parts = cut_word(after);
    Some(parts)
}
