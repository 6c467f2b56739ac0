//! Which failures of an accept are of the one client that waited.

ghost use Rattle.std.specs.Prelude.{◌≡◌, ◌↔◌, true};
ghost use Rattle.wst_network.specs.LostClients.{IsLostNumber, IsOfLostClient, is_lost_kind};

use std::io;
use std::io::ErrorKind;

/// Whether the failure of an accept is of the client that waited, and not of the listener.
pub fn is_of_lost_client(error: &io::Error) -> bool
    ensures { (result ≡ true) ↔ IsOfLostClient error.now }
{
    if is_lost_kind(error.kind()) {
        return true;
    }
    match error.raw_os_error() {
        Some(number) => is_lost_number(number),
        None => false,
    }
}

/// Whether it is, by its kind.
fn is_lost_kind(kind: ErrorKind) -> bool
    ensures { result ≡ is_lost_kind kind }
{
    match kind {
        ErrorKind::ConnectionAborted
        | ErrorKind::ConnectionReset
        | ErrorKind::HostUnreachable
        | ErrorKind::NetworkUnreachable
        | ErrorKind::NetworkDown
        | ErrorKind::Interrupted => true,
        _ => false,
    }
}

/// Whether it is, by the number that Linux has for it: of the errors that have no kind of their own.
fn is_lost_number(number: i32) -> bool
    ensures { (result ≡ true) ↔ IsLostNumber number }
{
    match number {
        ENONET | EPROTO | ENOPROTOOPT | EOPNOTSUPP | EHOSTDOWN => true,
        _ => false,
    }
}

/// The machine is not on the network.
const ENONET: i32 = 64;

/// The protocol was broken.
const EPROTO: i32 = 71;

/// The protocol has no such option.
const ENOPROTOOPT: i32 = 92;

/// The socket does not support the call.
const EOPNOTSUPP: i32 = 95;

/// The host is down.
const EHOSTDOWN: i32 = 112;
