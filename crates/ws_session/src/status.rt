//! How a session stands (RFC 6455 section 7.1).

ghost use Rattle.std.specs.Prelude.{◌≡◌, Some};
ghost use Rattle.ws_session.specs.Exchange.{is_over};
ghost use Rattle.ws_session.specs.Words.{status_words};

use crate::reason::Reason;
use std::fmt;

/// How a session stands.
#[derive(Clone, Copy, PartialEq, Eq)]
pub enum Status {
    /// Neither close frame was sent or has come.
    Open,
    /// This endpoint's close frame was sent, and the peer's has not come.
    Closing,
    /// The peer's close frame has come, with this code or empty.
    Clean(Option<u16>),
    /// The peer's bytes broke a rule.
    Failed(Reason),
    /// The stream ended before the peer's close frame came.
    Lost,
}

impl Status {
    /// Whether nothing more can come: the status is `Clean`, `Failed` or `Lost`.
    pub fn is_over(self) -> bool
        ensures { result ≡ is_over self }
    {
        match self {
            Status::Open | Status::Closing => false,
            Status::Clean(_) | Status::Failed(_) | Status::Lost => true,
        }
    }
}

impl fmt::Display for Status {
    ghost output = { λ status. Some (status_words status) };

    fn fmt<W: fmt::Write>(&self, f: &mut fmt::Formatter<W>) -> fmt::Result {
        match *self {
            Status::Open => write!(f, "open"),
            Status::Closing => write!(f, "closing"),
            Status::Clean(Some(code)) => write!(f, "clean {code}"),
            Status::Clean(None) => write!(f, "clean none"),
            Status::Failed(reason) => write!(f, "failed {reason}"),
            Status::Lost => write!(f, "lost"),
        }
    }
}
