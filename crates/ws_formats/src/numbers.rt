//! Decimal numbers without leading zeros.

ghost use Rattle.std.specs.Prelude.{◌↔◌, IsTrue};
ghost use Rattle.ws_formats.specs.Words.{IsNumberWord};
ghost use Rattle.ws_formats.specs.Reading.{BeginsOddly};
ghost use Rattle.ws_base.specs.Finding.{Finds};

/// The number of at most 32 bits that a word tells.
pub fn read_u32(word: &[u8]) -> Option<u32>
    ensures { Finds result (λ number. IsNumberWord 4294967295 number word.now) }
{
    if begins_oddly(word) {
        return None;
    }
    let Ok(digits) = std::str::from_utf8(word) else {
        return None;
    };
    match digits.parse::<u32>() {
        Ok(number) => Some(number),
        Err(_) => None,
    }
}

/// Whether a plus stands first, or a zero with something behind it.
fn begins_oddly(word: &[u8]) -> bool
    ensures { IsTrue result ↔ BeginsOddly word.now }
{
    match word {
        [b'+', ..] | [b'0', _, ..] => true,
        _ => false,
    }
}

/// The number of at most 16 bits that a word tells.
pub fn read_u16(word: &[u8]) -> Option<u16>
    ensures { Finds result (λ number. IsNumberWord 65535 number word.now) }
{
    let number = read_u32(word)?;
    match u16::try_from(number) {
        Ok(number) => Some(number),
        Err(_) => None,
    }
}
