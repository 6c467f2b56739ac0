//! What is wrong with a text of a script that stands for no bytes (RFC 8259 section 7).

ghost use Rattle.std.specs.Prelude.{◌≡◌, drop};
ghost use Rattle.std.specs.Char.{is_ascii_control};
ghost use Rattle.std.specs.List.{list_any};
ghost use Rattle.wst_commands.specs.StepTexts.{begins_with_digits, begins_with_low, bytes_to_low, has_control};
ghost use Rattle.wst_commands.specs.StepTexts.{has_high_control, has_wrong_escape, is_escape, is_escape_letter};
ghost use Rattle.wst_commands.specs.StepTexts.{is_half_alone, is_high_digit, is_high_half, is_low_digit, is_low_half};
ghost use Rattle.wst_commands.specs.StepTexts.{has_half, is_unprintable, text_damage};

/// What is wrong with a text between quotes.
#[derive(Clone, Copy, Debug, PartialEq, Eq)]
pub enum TextDamage {
    /// It is no UTF-8, or has a control character.
    Unprintable,
    /// A backslash begins no escape.
    Escape,
    /// It has half of a pair of `\uXXXX` without the other half.
    Half,
}

/// What is wrong with a text, if it is one of these.
pub(crate) fn text_damage(text: &[u8]) -> Option<TextDamage>
    ensures { result ≡ text_damage text.now }
{
    if is_unprintable(text) {
        Some(TextDamage::Unprintable)
    } else if has_wrong_escape(text) {
        Some(TextDamage::Escape)
    } else if has_half(text) {
        Some(TextDamage::Half)
    } else {
        None
    }
}

/// Whether these bytes are no UTF-8, or hold a control character.
fn is_unprintable(text: &[u8]) -> bool
    ensures { result ≡ is_unprintable text.now }
{
    match std::str::from_utf8(text) {
        Ok(_) => has_control(text),
        Err(_) => true,
    }
}

/// Whether a text of UTF-8 has a control character.
fn has_control(text: &[u8]) -> bool
    ensures { result ≡ has_control text.now }
{
    has_low_control(text) || has_high_control(text)
}

/// Whether one of these bytes is a control character of ASCII.
fn has_low_control(text: &[u8]) -> bool
    ensures { result ≡ list_any is_ascii_control text.now }
{
    text.iter().any(|byte| byte.is_ascii_control())
}

/// Whether a text of UTF-8 has a control character of U+0080 to U+009F.
fn has_high_control(text: &[u8]) -> bool
    ensures { result ≡ has_high_control text.now }
{
    let mut led = false;
    for byte in text {
        if led && *byte < 0xa0 {
            return true;
        }
        led = *byte == 0xc2;
    }
    false
}

/// Whether a backslash that no backslash escapes begins no escape.
fn has_wrong_escape(text: &[u8]) -> bool
    ensures { result ≡ has_wrong_escape text.now }
{
    let mut rest = text;
    while let [byte, next, ..] = rest {
        if *byte == b'\\' {
            if !is_escape(*next, &rest[2..]) {
                return true;
            }
            rest = &rest[2..];
        } else {
            rest = &rest[1..];
        }
    }
    false
}

/// Whether a backslash, this byte and what follows it are an escape.
fn is_escape(letter: u8, rest: &[u8]) -> bool
    ensures { result ≡ is_escape letter rest.now }
{
    is_escape_letter(letter) && (letter != b'u' || begins_with_digits(rest))
}

/// Whether a backslash may stand in front of this byte.
fn is_escape_letter(byte: u8) -> bool
    ensures { result ≡ is_escape_letter byte }
{
    match byte {
        b'"' | b'\\' | b'/' | b'b' | b'f' | b'n' | b'r' | b't' | b'u' => true,
        _ => false,
    }
}

/// Whether four hexadecimal digits come first.
fn begins_with_digits(text: &[u8]) -> bool
    ensures { result ≡ begins_with_digits text.now }
{
    match text {
        [a, b, c, d, ..] => {
            a.is_ascii_hexdigit()
                && b.is_ascii_hexdigit()
                && c.is_ascii_hexdigit()
                && d.is_ascii_hexdigit()
        }
        _ => false,
    }
}

/// Whether half of a pair stands without the other half.
fn has_half(text: &[u8]) -> bool
    ensures { result ≡ has_half text.now }
{
    let mut rest = text;
    let mut left: u8 = 0;
    while let [byte, next, ..] = rest {
        if *byte == b'\\' {
            if is_half_alone(left == 1, *next, &rest[2..]) {
                return true;
            }
            left = bytes_to_low(*next, &rest[2..]);
            rest = &rest[2..];
        } else {
            left = left.saturating_sub(1);
            rest = &rest[1..];
        }
    }
    false
}

/// Whether an escape, behind its backslash, is a half without the other half. A second one is `due` here or isn't.
fn is_half_alone(due: bool, letter: u8, rest: &[u8]) -> bool
    ensures { result ≡ is_half_alone due letter rest.now }
{
    (is_high_half(letter, rest) && !has_low_behind(rest)) || (is_low_half(letter, rest) && !due)
}

/// Whether the second half of a pair comes behind four digits.
fn has_low_behind(rest: &[u8]) -> bool
    ensures { result ≡ begins_with_low (drop 4 rest.now) }
{
    match rest {
        [_, _, _, _, byte, letter, digits @ ..] => *byte == b'\\' && is_low_half(*letter, digits),
        _ => false,
    }
}

/// In how many bytes the second half of a pair is due, behind an escape's letter. 0 where none is.
fn bytes_to_low(letter: u8, rest: &[u8]) -> u8
    ensures { result ≡ bytes_to_low letter rest.now }
{
    if is_high_half(letter, rest) { 5 } else { 0 }
}

/// Whether an escape, behind its backslash, is the first half of a pair.
fn is_high_half(letter: u8, rest: &[u8]) -> bool
    ensures { result ≡ is_high_half letter rest.now }
{
    match rest {
        [a, b, ..] => letter == b'u' && (*a == b'D' || *a == b'd') && is_high_digit(*b),
        _ => false,
    }
}

/// Whether it is the second half.
fn is_low_half(letter: u8, rest: &[u8]) -> bool
    ensures { result ≡ is_low_half letter rest.now }
{
    match rest {
        [a, b, ..] => letter == b'u' && (*a == b'D' || *a == b'd') && is_low_digit(*b),
        _ => false,
    }
}

/// Whether it is the second digit of the first half of a pair.
fn is_high_digit(byte: u8) -> bool
    ensures { result ≡ is_high_digit byte }
{
    match byte {
        b'8' | b'9' | b'A' | b'B' | b'a' | b'b' => true,
        _ => false,
    }
}

/// Whether it is the second digit of the second half.
fn is_low_digit(byte: u8) -> bool
    ensures { result ≡ is_low_digit byte }
{
    match byte {
        b'C'..=b'F' | b'c'..=b'f' => true,
        _ => false,
    }
}
