//! Why a frame was not sent.

ghost use Rattle.std.specs.Prelude.{◌≡◌, Some};
ghost use Rattle.ws_session.specs.Words.{fault_name};

use std::error::Error;
use std::fmt;

/// Why a frame was not sent: the first of these that applies. Nothing was put, and the session is as it was.
#[derive(Clone, Copy, Debug, PartialEq, Eq)]
pub enum SendFault {
    /// This endpoint's close frame was sent, or the status is Clean, Failed or Lost.
    Over = 1,
    /// A message is open: it must end before the next begins (RFC 6455 section 5.4).
    Busy,
    /// No message is open that could go on (section 5.4).
    NothingOpen,
    /// The message is text, and with this payload nothing makes it UTF-8, or it ends here and isn't (section 8.1).
    NotText,
    /// The payload of a control frame is above 125 bytes or a close reason above 123 (section 5.5), or the message
    /// above 16,777,216.
    TooLong,
    /// The code may not stand in a close frame (section 7.4).
    BadCode,
    /// A growth was refused.
    NoMemory,
}

/// The name of the cause.
impl fmt::Display for SendFault {
    ghost output = { λ cause. Some (fault_name cause) };

    fn fmt<W: fmt::Write>(&self, f: &mut fmt::Formatter<W>) -> fmt::Result {
        write!(f, "{}", name_of(*self))
    }
}

impl Error for SendFault {}

fn name_of(cause: SendFault) -> &'static str
    ensures { result.now ≡ fault_name cause }
{
    match cause {
        SendFault::Over => "Over",
        SendFault::Busy => "Busy",
        SendFault::NothingOpen => "NothingOpen",
        SendFault::NotText => "NotText",
        SendFault::TooLong => "TooLong",
        SendFault::BadCode => "BadCode",
        SendFault::NoMemory => "NoMemory",
    }
}
