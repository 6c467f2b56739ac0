//! What is wrong with a text of lines, and with one of its lines.

ghost use Rattle.std.specs.Prelude.{Some};
ghost use Rattle.ws_base.specs.FaultWords.{line_fault_words, text_fault_words};

use std::alloc::AllocError;
use std::error::Error;
use std::fmt;

/// Why a line, or a word, tells no value.
#[derive(Clone, Copy, Debug)]
pub enum LineFault {
    /// It isn't spelled as one.
    Damaged,
    /// Memory ran out.
    NoMemory,
}

impl From<AllocError> for LineFault {
    ghost use Rattle.std.specs.Prelude.{◌≡◌};
    ghost use Rattle.ws_base.specs.declared.text_fault.LineFault.TheVariants.{NoMemory};

    ghost from_gives = { λ _ fault. fault ≡ NoMemory };

    fn from(_: AllocError) -> LineFault {
        LineFault::NoMemory
    }
}

impl fmt::Display for LineFault {
    ghost output = { λ fault. Some (line_fault_words fault) };

    fn fmt<W: fmt::Write>(&self, f: &mut fmt::Formatter<W>) -> fmt::Result {
        match *self {
            LineFault::Damaged => write!(f, "damaged"),
            LineFault::NoMemory => write!(f, "no memory"),
        }
    }
}

impl Error for LineFault {}

/// Why a text tells no value.
#[derive(Clone, Copy, Debug)]
pub enum TextFault {
    /// The lines up to this one, counted from 1, begin no text of the format, and those before it do. A last line
    /// without LF counts.
    Damaged(u64),
    /// Memory ran out.
    NoMemory,
}

impl fmt::Display for TextFault {
    ghost output = { λ fault. Some (text_fault_words fault) };

    fn fmt<W: fmt::Write>(&self, f: &mut fmt::Formatter<W>) -> fmt::Result {
        match *self {
            TextFault::Damaged(line) => write!(f, "line {line}: damaged"),
            TextFault::NoMemory => write!(f, "no memory"),
        }
    }
}

impl Error for TextFault {}
