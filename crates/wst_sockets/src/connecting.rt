//! Why there is no connection to an address of a network.

ghost use Rattle.std.specs.Prelude.{◌≡◌};
ghost use Rattle.wst_sockets.specs.Connecting.{connect_fault_at, lookup_miss_at};

use crate::meeting::ConnectFault;
use std::io::ErrorKind;

/// Why there is no connection, where the look-up of the address fails so.
pub fn lookup_fault(kind: ErrorKind) -> ConnectFault
    ensures { result ≡ lookup_miss_at kind }
{
    match kind {
        ErrorKind::OutOfMemory => ConnectFault::Failed,
        _ => ConnectFault::NoSuchHost,
    }
}

/// Why there is no connection, where it is not made or a read or a write over it fails so before the answer is whole. A
/// wait that was in vain answers `WouldBlock`; a server that went away, a reset or a broken pipe.
pub fn connect_fault(kind: ErrorKind) -> ConnectFault
    ensures { result ≡ connect_fault_at kind }
{
    match kind {
        ErrorKind::ConnectionRefused => ConnectFault::Refused,
        ErrorKind::HostUnreachable | ErrorKind::NetworkUnreachable | ErrorKind::NetworkDown => {
            ConnectFault::Unreachable
        }
        ErrorKind::TimedOut | ErrorKind::WouldBlock => ConnectFault::TimedOut,
        ErrorKind::ConnectionReset | ErrorKind::ConnectionAborted | ErrorKind::BrokenPipe => {
            ConnectFault::ClosedBeforeAnswer
        }
        _ => ConnectFault::Failed,
    }
}
