//! What is wrong with a head, and with what a request or a response is asked to be made of.

ghost use Rattle.std.specs.Prelude.{◌≡◌, Some};
ghost use Rattle.ws_upgrade.specs.Words.{head_fault_name, request_fault_name, response_fault_name};

use std::error::Error;
use std::fmt;
use ws_base::NoMemory;

/// Why a head is refused: the first of these that applies, in the order that `read_request` and
/// `read_response` give.
#[derive(Clone, Copy, Debug, PartialEq, Eq)]
pub enum HeadFault {
    /// The bytes begin no head, whatever follows them.
    Head = 1,
    /// The method of a request is not GET.
    Method = 2,
    /// The version is not HTTP/1.1.
    Version = 3,
    /// A request has no `Host` header or more than one.
    Host = 4,
    /// No member of the `Upgrade` headers is `websocket`.
    Upgrade = 5,
    /// No member of the `Connection` headers is `upgrade`.
    Connection = 6,
    /// A request has not exactly one `Sec-WebSocket-Key`, or it is not the base64 of 16 bytes.
    Key = 7,
    /// A request has not exactly one `Sec-WebSocket-Version`, or it is not 13.
    WsVersion = 8,
    /// The status of a response is not 101.
    Status = 9,
    /// A response has not exactly one `Sec-WebSocket-Accept`, or it is not the value for the nonce.
    Accept = 10,
    /// A response names an extension, and none was offered.
    Extension = 11,
    /// A response names more than one subprotocol, or one that was not offered.
    Protocol = 12,
    /// The first 8192 bytes hold no whole head, or a head has more than 64 headers.
    TooLarge = 13,
}

/// The name of the cause.
impl fmt::Display for HeadFault {
    ghost output = { λ cause. Some (head_fault_name cause) };

    fn fmt<W: fmt::Write>(&self, f: &mut fmt::Formatter<W>) -> fmt::Result {
        write!(f, "{}", head_fault_word(*self))
    }
}

impl Error for HeadFault {}

/// Why a request is not made: the first of these that applies, but want of memory is told last.
#[derive(Clone, Copy, Debug, PartialEq, Eq)]
pub enum RequestFault {
    /// The host has not 1 to 255 bytes, or one of them is no visible ASCII character.
    BadHost = 1,
    /// The path does not begin with `/`, has more than 2048 bytes, or has a byte that is no visible ASCII character
    /// or one of ``"#<>\^`{|}``.
    BadPath = 2,
    /// Memory ran out.
    NoMemory = 3,
    /// More than 16 subprotocols are offered, two that are equal, or one whose name has not 1 to 64
    /// bytes or has a byte other than letters, digits and ``!#$%&'*+-.^_`|~``.
    BadProtocol = 4,
    /// More than 32 headers are added, or one that `are_added_headers` denies.
    BadHeader = 5,
}

impl From<NoMemory> for RequestFault {
    ghost use Rattle.std.specs.Prelude.{◌≡◌};
    ghost use Rattle.ws_upgrade.specs.declared.faults.RequestFault.TheVariants.{NoMemory};

    ghost from_gives = { λ _ fault. fault ≡ NoMemory };

    fn from(_refused: NoMemory) -> RequestFault {
        RequestFault::NoMemory
    }
}

/// The name of the cause.
impl fmt::Display for RequestFault {
    ghost output = { λ cause. Some (request_fault_name cause) };

    fn fmt<W: fmt::Write>(&self, f: &mut fmt::Formatter<W>) -> fmt::Result {
        match *self {
            RequestFault::BadHost => write!(f, "BadHost"),
            RequestFault::BadPath => write!(f, "BadPath"),
            RequestFault::NoMemory => write!(f, "NoMemory"),
            RequestFault::BadProtocol => write!(f, "BadProtocol"),
            RequestFault::BadHeader => write!(f, "BadHeader"),
        }
    }
}

impl Error for RequestFault {}

/// Why a response is not made: the first of these that applies.
#[derive(Clone, Copy, Debug, PartialEq, Eq)]
pub enum ResponseFault {
    /// The name of the subprotocol has not 1 to 64 bytes, or one other than letters, digits and
    /// ``!#$%&'*+-.^_`|~``.
    BadProtocol = 1,
    /// Memory ran out.
    NoMemory = 2,
}

impl From<NoMemory> for ResponseFault {
    ghost use Rattle.std.specs.Prelude.{◌≡◌};
    ghost use Rattle.ws_upgrade.specs.declared.faults.ResponseFault.TheVariants.{NoMemory};

    ghost from_gives = { λ _ fault. fault ≡ NoMemory };

    fn from(_refused: NoMemory) -> ResponseFault {
        ResponseFault::NoMemory
    }
}

/// The name of the cause.
impl fmt::Display for ResponseFault {
    ghost output = { λ cause. Some (response_fault_name cause) };

    fn fmt<W: fmt::Write>(&self, f: &mut fmt::Formatter<W>) -> fmt::Result {
        match *self {
            ResponseFault::BadProtocol => write!(f, "BadProtocol"),
            ResponseFault::NoMemory => write!(f, "NoMemory"),
        }
    }
}

impl Error for ResponseFault {}

/// Its name.
fn head_fault_word(cause: HeadFault) -> &'static str
    ensures { result.now ≡ head_fault_name cause }
{
    match cause {
        HeadFault::Head => "Head",
        HeadFault::Method => "Method",
        HeadFault::Version => "Version",
        HeadFault::Host => "Host",
        HeadFault::Upgrade => "Upgrade",
        HeadFault::Connection => "Connection",
        HeadFault::Key => "Key",
        HeadFault::WsVersion => "WsVersion",
        HeadFault::Status => "Status",
        HeadFault::Accept => "Accept",
        HeadFault::Extension => "Extension",
        HeadFault::Protocol => "Protocol",
        HeadFault::TooLarge => "TooLarge",
    }
}
