//! How the connection of a client that was served has ended.

use ws_echo::EchoEnd;
use ws_upgrade::HeadFault;

/// How the connection of a client has ended.
#[derive(Clone, Copy, PartialEq, Eq)]
pub enum ClientEnd {
    /// Its request was refused, for this reason.
    Refused(HeadFault),
    /// No whole request came, or the response could not be written.
    Lost,
    /// Its request was accepted, and the echo of what came behind it has ended so.
    Echoed(EchoEnd),
    /// Memory ran out for it.
    NoMemory,
}
