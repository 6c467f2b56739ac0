//! Close codes and close payloads (RFC 6455 sections 5.5.1 and 7.4).

ghost use Rattle.std.specs.Prelude.{◌≡◌, ◌↔◌, ◌≤◌, length, Option, IsTrue, Ok, Some, IsErrOf};
ghost use Rattle.ws_text.specs.Close.{CloseValue, CodeAllowed, CodeMayBegin, IsClosePayload, HasBadCode, HasBadReason};
ghost use Rattle.ws_text.specs.Words.{close_fault_name};
ghost use Rattle.ws_text.specs.declared.closing.TheConstants.{MAX_CONTROL_PAYLOAD, MAX_REASON};
ghost use Rattle.ws_text.specs.declared.closing.CloseFault.TheVariants.{OneByte, BadCode, ReasonNotText};

use std::error::Error;
use std::fmt;
use std::marker::Model;
use ws_base::PackedBytes;

/// The most payload bytes of a control frame (section 5.5).
pub const MAX_CONTROL_PAYLOAD: usize = 125;

/// The most bytes of a close reason: what a control frame holds beside the code.
pub const MAX_REASON: usize = 123;

/// How many bytes fill eight vectors of sixteen bytes together with the byte of their length. So many are copied vector
/// by vector. What is longer than a vector and no multiple of it ends in one that overlaps the one before it, and a
/// copy of that copy has to wait for both.
const EIGHT_VECTORS: usize = 127;

/// Room for the payload of a control frame, or for the reason of a close, kept in place.
pub type ControlBytes = PackedBytes<EIGHT_VECTORS>;

/// Whether the code may be sent in a close frame, and is accepted in one: 1000 to 1003, 1007 to 1014
/// and 3000 to 4999 (section 7.4). The others are reserved, or stand for a close of which no frame
/// tells, as 1005, 1006 and 1015.
pub fn code_allowed(code: u16) -> bool
    ensures { IsTrue result ↔ CodeAllowed code }
{
    matches!(code, 1000..=1003 | 1007..=1014 | 3000..=4999)
}

/// Whether some code that may be sent in a close frame has this higher byte. Where only half of a code has come, it is
/// all that is known of the code (section 5.5.1).
pub fn code_may_begin(high: u8) -> bool
    ensures { IsTrue result ↔ CodeMayBegin high }
{
    matches!(high, 3 | 11..=19)
}

/// What a close frame says: a code that may stand in one, and a reason of at most 123 bytes of text,
/// kept in place.
#[derive(Clone, Copy)]
pub struct Close {
    code: u16,
    reason: ControlBytes,
}

impl Model for Close {
    ghost use Rattle.ws_text.specs.Close.{CloseValue, CanBeSaid};

    ghost Value = { CloseValue };

    ghost view = { λ c. record { code = c.code; reason = c.reason } };

    ghost invariant = { λ c. CanBeSaid (record { code = c.code; reason = c.reason }) };

    ghost inverse = { λ v. record { code = v.code; reason = v.reason } };
}

impl Close {
    /// The close code.
    pub fn code(&self) -> u16
        ensures { result ≡ self.now.code }
    {
        self.code
    }

    /// The close reason, empty where the frame gave none.
    pub fn reason(&self) -> &str
        ensures { result.now ≡ self.now.reason }
    {
        std::str::from_utf8(self.reason.as_slice()).unwrap()
    }

    /// A close of these two, kept in place.
    fn of(code: u16, reason: &str) -> Close
        requires { CodeAllowed code × (length reason.now ≤ MAX_REASON) }
        ensures { result ≡ record { code = code; reason = reason.now } }
    {
        Close {
            code,
            reason: ControlBytes::of(reason.as_bytes()),
        }
    }
}

/// What is wrong with a close payload: the first of these that applies.
#[derive(Clone, Copy, Debug, PartialEq, Eq)]
pub enum CloseFault {
    /// The payload is half a code: a receiver fails the connection with code 1002.
    OneByte = 1,
    /// The code may not stand in a close frame: a receiver fails the connection with code 1002.
    BadCode = 2,
    /// The reason is no text: a receiver fails the connection with code 1007.
    ReasonNotText = 3,
}

/// The name of the cause.
impl fmt::Display for CloseFault {
    ghost output = { λ cause. Some (close_fault_name cause) };

    fn fmt<W: fmt::Write>(&self, f: &mut fmt::Formatter<W>) -> fmt::Result {
        match *self {
            CloseFault::OneByte => write!(f, "OneByte"),
            CloseFault::BadCode => write!(f, "BadCode"),
            CloseFault::ReasonNotText => write!(f, "ReasonNotText"),
        }
    }
}

impl Error for CloseFault {}

/// The payload of a close frame.
pub struct ClosePayload;

impl ClosePayload {
    /// What the payload of a close frame says: `None` where it is empty. The payload has at most 125
    /// bytes, as that of every control frame.
    pub fn read(payload: &[u8]) -> Result<Option<Close>, CloseFault>
        requires { length payload.now ≤ MAX_CONTROL_PAYLOAD }
        ensures read { (close : Option CloseValue) → (result ≡ Ok close) ↔ IsClosePayload payload.now close }

        // The lowest fault that applies.
        ensures one_byte { IsErrOf result OneByte ↔ (length payload.now ≡ 1) }
        ensures bad_code { IsErrOf result BadCode ↔ HasBadCode payload.now }
        ensures reason_not_text { IsErrOf result ReasonNotText ↔ HasBadReason payload.now }
    {
        match payload {
            [] => Ok(None),
            [_] => Err(CloseFault::OneByte),
            [high, low, reason @ ..] => {
                let code = u16::from_be_bytes([*high, *low]);
                if !code_allowed(code) {
                    return Err(CloseFault::BadCode);
                }
                match simdutf8::compat::from_utf8(reason) {
                    Ok(text) => Ok(Some(Close::of(code, text))),
                    Err(_) => Err(CloseFault::ReasonNotText),
                }
            }
        }
    }
}
