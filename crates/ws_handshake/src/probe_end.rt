//! What came of a connection to a server that was tested.

use ws_suite::Transcript;
use ws_upgrade::HeadFault;

/// Why the answer of a server is to be refused.
#[derive(Clone, Copy, Debug, PartialEq, Eq)]
pub struct HeadRefusal {
    /// The first rule that it breaks.
    pub fault: HeadFault,
    /// Its status, below 1000. `None` where no whole head was found in it.
    pub status: Option<u16>,
}

/// What came of a connection to a server.
#[derive(Drop)]
pub enum Probe {
    /// The server accepted the request, and the script was run.
    Ran(Transcript),
    /// The server's answer to the request is to be refused.
    Refused(HeadRefusal),
    /// A read or a write failed, or the stream ended, before the head of the answer was whole.
    NoConnection,
}
