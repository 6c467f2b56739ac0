//! The verdict on the tested end.

ghost use Rattle.std.specs.Prelude.{Some};
ghost use Rattle.ws_suite.specs.Words.{fail_name, loose_name, verdict_words};

use std::fmt;

/// Whether the tested end kept the rules: the first `Fail` that applies, else the first `Loose`, else `Pass`.
#[derive(Clone, Copy, Debug, PartialEq, Eq)]
pub enum Verdict {
    /// It sent what is due, and ended the connection as it should.
    Pass,
    /// No broken rule is seen, but it answered otherwise than an echo that is fed turn by turn.
    Loose(LooseWhy),
    /// It broke a rule.
    Fail(FailWhy),
}

/// Which rule was broken: of several, the one with the lowest number.
#[derive(Clone, Copy, Debug, PartialEq, Eq)]
pub enum FailWhy {
    /// What was got breaks the rules of frames (RFC 6455 section 5), goes on after a close frame, or ends inside a
    /// frame.
    NotFrames = 1,
    /// A message, a pong or a close was got before what it answers was sent.
    Early = 2,
    /// The messages got aren't those that were sent. After a fault, they aren't a beginning of them.
    Messages = 3,
    /// A pong was got that answers no ping, or without a fault the last ping is not answered (section 5.5.3).
    Pongs = 4,
    /// A close was sent and none was got, or one was got without a cause (section 5.5.1).
    Close = 5,
    /// A server kept a connection that it should have ended, a client one without a close, or either ended one that it
    /// should have kept (section 7.1.1).
    End = 6,
}

/// What was otherwise: of several, the one with the lowest number.
#[derive(Clone, Copy, Debug, PartialEq, Eq)]
pub enum LooseWhy {
    /// Not every ping was answered, but the last one was; by the protocol the last one, too, may not have been.
    PongsSkipped = 1,
    /// Messages and pongs came in another order than what they answer.
    PongElsewhere = 2,
    /// A close was got with another code than is due.
    OtherCode = 3,
    /// A turn follows that of the close or the fault, and no close of a client was got in that turn.
    LateEnd = 4,
    /// Before a fault, fewer messages came than are due, or fewer pongs and not the last.
    EchoShort = 5,
    /// The connection broke.
    BrokenEnd = 6,
    /// The tested end closed by itself and blames a fault, and none was sent whole.
    OwnFault = 7,
    /// It closed by itself.
    OwnClose = 8,
    /// It ended the connection by itself, without a close.
    OwnEnd = 9,
    /// A fault was sent, and so that it needn't have been seen.
    LateFault = 10,
    /// A fault was sent for which the standard doesn't order an end to fail, and the connection went on.
    Tolerated = 11,
    /// A close was sent and none was got, and it may have been read too late.
    NoClose = 12,
    /// Pings, pongs or closes came behind the close.
    BehindClose = 13,
    /// A message that was got is above the limit, which the standard doesn't bound.
    TooBig = 14,
}

impl fmt::Display for Verdict {
    ghost output = { λ verdict. Some (verdict_words verdict) };

    fn fmt<W: fmt::Write>(&self, f: &mut fmt::Formatter<W>) -> fmt::Result {
        match self {
            Verdict::Pass => write!(f, "PASS"),
            Verdict::Loose(why) => write!(f, "LOOSE {why}"),
            Verdict::Fail(why) => write!(f, "FAIL {why}"),
        }
    }
}

impl fmt::Display for FailWhy {
    ghost output = { λ why. Some (fail_name why) };

    fn fmt<W: fmt::Write>(&self, f: &mut fmt::Formatter<W>) -> fmt::Result {
        match self {
            FailWhy::NotFrames => write!(f, "NotFrames"),
            FailWhy::Early => write!(f, "Early"),
            FailWhy::Messages => write!(f, "Messages"),
            FailWhy::Pongs => write!(f, "Pongs"),
            FailWhy::Close => write!(f, "Close"),
            FailWhy::End => write!(f, "End"),
        }
    }
}

impl fmt::Display for LooseWhy {
    ghost output = { λ why. Some (loose_name why) };

    fn fmt<W: fmt::Write>(&self, f: &mut fmt::Formatter<W>) -> fmt::Result {
        match self {
            LooseWhy::PongsSkipped => write!(f, "PongsSkipped"),
            LooseWhy::PongElsewhere => write!(f, "PongElsewhere"),
            LooseWhy::OtherCode => write!(f, "OtherCode"),
            LooseWhy::LateEnd => write!(f, "LateEnd"),
            LooseWhy::EchoShort => write!(f, "EchoShort"),
            LooseWhy::BrokenEnd => write!(f, "BrokenEnd"),
            LooseWhy::OwnFault => write!(f, "OwnFault"),
            LooseWhy::OwnClose => write!(f, "OwnClose"),
            LooseWhy::OwnEnd => write!(f, "OwnEnd"),
            LooseWhy::LateFault => write!(f, "LateFault"),
            LooseWhy::Tolerated => write!(f, "Tolerated"),
            LooseWhy::NoClose => write!(f, "NoClose"),
            LooseWhy::BehindClose => write!(f, "BehindClose"),
            LooseWhy::TooBig => write!(f, "TooBig"),
        }
    }
}
