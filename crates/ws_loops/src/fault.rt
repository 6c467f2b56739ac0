//! Why a loop stops.

use crate::poller::WaitFailed;
use ws_base::NoMemory;

/// Why a loop stops in which nobody takes lines.
#[derive(Clone, Copy, PartialEq, Eq)]
pub enum LoopFault {
    /// Memory ran out.
    NoMemory,
    /// Nothing could be waited for.
    WaitFailed,
    /// Lines were to be reported, and nobody takes them.
    NoOutput,
}

impl From<NoMemory> for LoopFault {
    fn from(_refused: NoMemory) -> LoopFault {
        LoopFault::NoMemory
    }
}

impl From<WaitFailed> for LoopFault {
    fn from(_failed: WaitFailed) -> LoopFault {
        LoopFault::WaitFailed
    }
}
