//! Why lines that take memory are not written.

use crate::WriteFault;
use ws_base::NoMemory;

/// Why no more lines are written.
#[derive(Clone, Copy, Debug, PartialEq, Eq)]
pub enum ShowFault {
    /// A write answered an error or took nothing.
    Write,
    /// Memory ran out.
    NoMemory,
}

impl From<WriteFault> for ShowFault {
    ghost use Rattle.std.specs.Prelude.{◌≡◌};
    ghost use Rattle.ws_frame.specs.declared.show_fault.ShowFault.TheVariants.{Write};

    ghost from_gives = { λ _ fault. fault ≡ Write };

    fn from(_failed: WriteFault) -> ShowFault {
        ShowFault::Write
    }
}

impl From<NoMemory> for ShowFault {
    ghost use Rattle.std.specs.Prelude.{◌≡◌};
    ghost use Rattle.ws_frame.specs.declared.show_fault.ShowFault.TheVariants.{NoMemory};

    ghost from_gives = { λ _ fault. fault ≡ NoMemory };

    fn from(_refused: NoMemory) -> ShowFault {
        ShowFault::NoMemory
    }
}
