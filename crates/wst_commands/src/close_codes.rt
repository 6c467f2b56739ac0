//! Remarks on the close frames of a script whose data look like a code.

ghost use Rattle.std.specs.Prelude.{◌≡◌, ◌≤◌, ◌++◌, IfOk, IsTrue, string_bytes};
ghost use Rattle.wst_commands.specs.CloseCodes.{HasCodeNotes, code_in, code_word, is_code, note_at, value_of};

use crate::step_damages::cut_at;
use std::alloc::Global;
use ws_base::NoMemory;

/// Four digits that look like a code.
#[derive(Clone, Copy)]
struct DigitCode {
    /// The code that they look like.
    told: u32,
    /// The code that they are as data: two bytes of two hexadecimal digits each.
    sent: u32,
}

/// A line for each `close DATA` of a script whose data are four decimal digits as of a code: which code is sent, and
/// how the other is typed.
pub fn code_notes(alloc: Global, script: &[u8]) -> Result<String, NoMemory>
    ensures { IfOk result (λ notes. HasCodeNotes script.now (string_bytes notes)) }
{
    let mut notes = String::new(alloc);
    let mut rest = script;
    let mut number: u64 = 0;
    while let Some((line, behind)) = cut_at(rest, b'\n') {
        number += 1;
        push_note(alloc, number, line, &mut notes)?;
        rest = behind;
    }
    Ok(notes)
}

/// Puts what is told of the line of this number at the end of the notes.
fn push_note(alloc: Global, number: u64, line: &[u8], notes: &mut String) -> Result<(), NoMemory>
    ensures { IfOk result (λ _. string_bytes notes.new ≡ string_bytes notes.old ++ note_at number line.now) }
{
    let Some(DigitCode { told, sent }) = code_in(line) else {
        return Ok(());
    };
    let note = format!(in alloc;
        "line {number}: close {told} is code {sent}; close={told} is code {told}\n"
    )?;
    notes.push_str(note.as_str())?;
    Ok(())
}

/// The digits that look like a code in a line that is `close` and them.
fn code_in(line: &[u8]) -> Option<DigitCode>
    ensures { result ≡ code_in line.now }
{
    if line.starts_with(b"close ") {
        code_word(&line[6..])
    } else {
        None
    }
}

/// The digits that look like a code, where a word is such.
fn code_word(word: &[u8]) -> Option<DigitCode>
    ensures { result ≡ code_word word.now }
{
    match word {
        [a, b, c, d] if is_code(*a, *b, *c, *d) => Some(DigitCode {
            told: value_of(10, *a, *b, *c, *d),
            sent: value_of(16, *a, *b, *c, *d),
        }),
        _ => None,
    }
}

/// Whether these are four digits, of which the first is 1, 3 or 4.
fn is_code(a: u8, b: u8, c: u8, d: u8) -> bool
    ensures { result ≡ is_code a b c d }
{
    matches!(a, b'1' | b'3' | b'4')
        && b.is_ascii_digit()
        && c.is_ascii_digit()
        && d.is_ascii_digit()
}

/// What four digits are to a base.
fn value_of(base: u32, a: u8, b: u8, c: u8, d: u8) -> u32
    requires small { base ≤ 16 }
    requires digits { IsTrue (is_code a b c d) }
    ensures { result ≡ value_of base a b c d }
{
    let high = u32::from(a - b'0') * base + u32::from(b - b'0');
    let low = u32::from(c - b'0') * base + u32::from(d - b'0');
    high * base * base + low
}
