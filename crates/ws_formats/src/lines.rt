//! Texts of lines, each of which ends with LF.

ghost use Rattle.std.specs.Prelude.{List, ℕ, [], MatchResult};
ghost use Rattle.ws_formats.specs.Lines.{CanBeTold, Damages, HasLineForEach, IsTextOfLines};
ghost use Rattle.ws_formats.specs.Reading.{CutsLine, Reads, TakesLine, TellFurther};
ghost use Rattle.ws_base.specs.Finding.{Finds};

use memchr::memchr;
use std::alloc::Global;
use ws_base::{LineFault, Sequence, TextFault};

/// A value that one line of a text tells.
pub trait Line: Sized + Drop {
    /// The line, without its LF, tells the value.
    ghost is_line_of: { Self → List ℕ → Type 0 };

    /// The value that a line tells, which is given without its LF.
    fn read(alloc: Global, line: &[u8]) -> Result<Self, LineFault>
        ensures { Reads result (λ value. is_line_of value line.now) };
}

/// The values of a text that has a line for each.
pub fn read_lines<T: Line>(alloc: Global, text: &[u8]) -> Result<Sequence<T>, TextFault>
    ensures { MatchResult result (λ values. HasLineForEach T.is_line_of values text.now)
        (λ fault. Damages (HasLineForEach T.is_line_of) fault text.now) }
{
    let start = Values {
        values: Sequence::new(alloc),
    };
    read_by_lines(alloc, start, text)
}

/// The values of the lines so far.
#[derive(Drop)]
struct Values<T> {
    values: Sequence<T>,
}

impl<T: Line> PartialText for Values<T> {
    ghost use Rattle.std.specs.Prelude.{[]};
    ghost use Rattle.std.proofs.Common.{append-nil, sym};

    type Value = Sequence<T>;

    ghost tells = { λ part. TellFurther T.is_line_of part.values };

    fn take_line(self, alloc: Global, line: &[u8]) -> Result<Values<T>, LineFault> {
        match T::read(alloc, line) {
            Ok(value) => {
                let mut values = self.values.into_vec();
                if values.push(value).is_err() {
                    return Err(LineFault::NoMemory);
                }
                Ok(Values {
                    values: Sequence::from_vec(values),
                })
            }
            Err(fault) => Err(fault),
        }
    }

    fn value(self) -> Option<Sequence<T>> {
        Some(self.values)
    }

    ghost goes_on = { λ part. (part.values, [], tt, ([], sym (append-nil part.values), tt)) };
}

/// The first lines of a text, as far as it was read: what one loop over lines needs to know of a format.
pub trait PartialText: Sized + Drop {
    /// What a whole text tells.
    type Value;

    /// With these lines after what was read, the whole text tells the value.
    ghost tells: { Self → Self.Value → List (List ℕ) → Type 0 };

    /// What is read with one more line, which is given without its LF.
    fn take_line(self, alloc: Global, line: &[u8]) -> Result<Self, LineFault>
        ensures { TakesLine tells self line.now result };

    /// What the text tells, where no line is missing.
    fn value(self) -> Option<Self::Value>
        ensures { Finds result (λ value. tells self value []) };

    /// What was read begins some text.
    ghost goes_on: { (part : Self) → CanBeTold (tells part) };
}

/// The value that a text tells whose lines come after what was read, in any format of lines.
pub fn read_by_lines<P: PartialText>(
    alloc: Global,
    start: P,
    text: &[u8],
) -> Result<P::Value, TextFault>
    ensures { MatchResult result (λ value. IsTextOfLines (P.tells start) value text.now)
        (λ fault. Damages (IsTextOfLines (P.tells start)) fault text.now) }
{
    let mut part = start;
    let mut rest = text;
    let mut number: u64 = 1;
    while !rest.is_empty() {
        let Some((line, after)) = cut_line(rest) else {
            return Err(TextFault::Damaged(number));
        };
        match part.take_line(alloc, line) {
            Ok(longer) => part = longer,
            Err(LineFault::Damaged) => return Err(TextFault::Damaged(number)),
            Err(LineFault::NoMemory) => return Err(TextFault::NoMemory),
        }
        rest = after;
        number += 1;
    }
    match part.value() {
        Some(value) => Ok(value),
        None => Err(TextFault::Damaged(number)),
    }
}

/// The first line without its LF, and what stands behind it. `None` where no line ends.
pub fn cut_line(text: &[u8]) -> Option<(&[u8], &[u8])>
    ensures { CutsLine text.now result }
{
    let at = memchr(b'\n', text)?;
    Some((&text[..at], &text[at + 1..]))
}
