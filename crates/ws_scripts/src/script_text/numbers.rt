//! The numbers of a script's line.

ghost use Rattle.ws_base.specs.Finding.{Finds};
ghost use Rattle.ws_formats.specs.Words.{IsNumberWord};

use ws_formats::read_u32;

/// The number that a word tells, where it isn't above `most`.
pub(crate) fn read_number(most: u32, word: &[u8]) -> Option<u32>
    ensures { Finds result (λ number. IsNumberWord most number word.now) }
{
    let number = read_u32(word)?;
    if number > most {
        return None;
    }
    Some(number)
}
