//! Why a row has no answer.

use std::alloc::{AllocError, AllocFailed};
use std::fmt;
use ws_base::{LineFault, NoMemory};

/// Why a row has no answer.
#[derive(Clone, Copy)]
pub enum RowFault {
    /// It names no call, or its words aren't the arguments of that call.
    NotARow,
    /// Memory ran out.
    NoMemory,
}

impl fmt::Display for RowFault {
    fn fmt<W: fmt::Write>(&self, f: &mut fmt::Formatter<W>) -> fmt::Result {
        match self {
            RowFault::NotARow => write!(f, "not a row"),
            RowFault::NoMemory => write!(f, "no memory"),
        }
    }
}

impl From<LineFault> for RowFault {
    fn from(fault: LineFault) -> RowFault {
        match fault {
            LineFault::Damaged => RowFault::NotARow,
            LineFault::NoMemory => RowFault::NoMemory,
        }
    }
}

impl From<NoMemory> for RowFault {
    fn from(_refused: NoMemory) -> RowFault {
        RowFault::NoMemory
    }
}

impl From<AllocError> for RowFault {
    fn from(_refused: AllocError) -> RowFault {
        RowFault::NoMemory
    }
}

impl<T: Drop> From<AllocFailed<T>> for RowFault {
    fn from(_refused: AllocFailed<T>) -> RowFault {
        RowFault::NoMemory
    }
}

/// Writing to a `String` fails where memory runs out, and nowhere else.
impl From<fmt::Error> for RowFault {
    fn from(_refused: fmt::Error) -> RowFault {
        RowFault::NoMemory
    }
}
