//! Why a session fails its connection (RFC 6455 sections 7.1.7 and 7.4.1).

ghost use Rattle.std.specs.Prelude.{◌≡◌, Some};
ghost use Rattle.ws_session.specs.Replies.{close_code_of};
ghost use Rattle.ws_session.specs.Words.{reason_name};

use std::error::Error;
use std::fmt;

/// Why a session failed: what the peer's bytes did. Of several at one place the one with the lowest number is told.
#[derive(Clone, Copy, Debug, PartialEq, Eq)]
pub enum Reason {
    /// A reserved bit is set (section 5.2). Told, like all up to `TooBig`, at the last byte of the header.
    ReservedBits = 1,
    /// The opcode is reserved: 3 to 7, or 11 to 15.
    Opcode = 2,
    /// A server's peer sent a frame without a key, or a client's peer one with a key (section 5.1).
    MaskWrong = 3,
    /// The length is in a longer form than it needs.
    NotShortest = 4,
    /// The top bit of an eight-byte length is set.
    BadLength = 5,
    /// A control frame without FIN (section 5.5).
    ControlCut = 6,
    /// A control frame of more than 125 payload bytes.
    ControlLong = 7,
    /// A continuation where no message is open (section 5.4).
    NothingToContinue = 8,
    /// A new message inside an open one.
    MessageOpen = 9,
    /// The frame takes its message above the limit of a message.
    TooBig = 10,
    /// Nothing can complete the text: told at the first byte after which that is so (section 8.1).
    NotText = 11,
    /// The message ends inside a character. Told, like the reasons of a close, at the last byte of the frame.
    TextCut = 12,
    /// The close payload is half a code (section 5.5.1).
    CloseOneByte = 13,
    /// The close code may not stand in a close frame (section 7.4).
    CloseCode = 14,
    /// The close reason is no text.
    CloseReason = 15,
    /// The data frame is above the limit of a frame. Told at the last byte of the header, behind `TooBig`.
    FrameBig = 16,
}

impl Reason {
    /// The code of the close frame that tells the reason.
    pub fn close_code(self) -> u16
        ensures { result ≡ close_code_of self }
    {
        match self {
            Reason::ReservedBits
            | Reason::Opcode
            | Reason::MaskWrong
            | Reason::NotShortest
            | Reason::BadLength
            | Reason::ControlCut
            | Reason::ControlLong
            | Reason::NothingToContinue
            | Reason::MessageOpen
            | Reason::CloseOneByte
            | Reason::CloseCode => 1002,
            Reason::NotText | Reason::TextCut | Reason::CloseReason => 1007,
            Reason::TooBig | Reason::FrameBig => 1009,
        }
    }
}

/// The name of the cause.
impl fmt::Display for Reason {
    ghost output = { λ cause. Some (reason_name cause) };

    fn fmt<W: fmt::Write>(&self, f: &mut fmt::Formatter<W>) -> fmt::Result {
        write!(f, "{}", name_of(*self))
    }
}

impl Error for Reason {}

fn name_of(cause: Reason) -> &'static str
    ensures { result.now ≡ reason_name cause }
{
    match cause {
        Reason::ReservedBits => "ReservedBits",
        Reason::Opcode => "Opcode",
        Reason::MaskWrong => "MaskWrong",
        Reason::NotShortest => "NotShortest",
        Reason::BadLength => "BadLength",
        Reason::ControlCut => "ControlCut",
        Reason::ControlLong => "ControlLong",
        Reason::NothingToContinue => "NothingToContinue",
        Reason::MessageOpen => "MessageOpen",
        Reason::TooBig => "TooBig",
        Reason::NotText => "NotText",
        Reason::TextCut => "TextCut",
        Reason::CloseOneByte => "CloseOneByte",
        Reason::CloseCode => "CloseCode",
        Reason::CloseReason => "CloseReason",
        Reason::FrameBig => "FrameBig",
    }
}
