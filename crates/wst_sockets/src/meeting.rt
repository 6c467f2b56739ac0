//! What comes of a case over a server, and why there may be no connection to it.

ghost use Rattle.std.specs.Prelude.{◌≡◌};
ghost use Rattle.wst_sockets.specs.Meetings.{miss_line};

use ws_connection::HeadRefusal;
use ws_suite::Transcript;

/// Why there is no connection to a server, or no whole answer came.
#[derive(Clone, Copy, PartialEq, Eq)]
pub enum ConnectFault {
    /// The word is no address, or the look-up of its host failed.
    NoSuchHost,
    /// The host takes no connection at the port.
    Refused,
    /// No way leads to the host.
    Unreachable,
    /// The connection was not made in time.
    TimedOut,
    /// The connection was made, and the answer was not whole in time.
    NoAnswer,
    /// The server ended the connection before its answer was whole.
    ClosedBeforeAnswer,
    /// For another reason, want of memory for the look-up among them.
    Failed,
}

impl ConnectFault {
    /// The line that tells it. A second one says what to type, where that is known.
    pub fn line(self) -> &'static [u8]
        ensures { result.now ≡ miss_line self }
    {
        match self {
            ConnectFault::NoSuchHost =>
                b"no connection: no such host\n  HOST:PORT, up to 65535, or with a path ws://localhost:9001/chat\n",
            ConnectFault::Refused => b"no connection: refused\n",
            ConnectFault::Unreachable => b"no connection: unreachable\n",
            ConnectFault::TimedOut => b"no connection: timed out\n",
            ConnectFault::NoAnswer =>
                b"no connection: timed out\n  connected, but no complete answer to the request in time\n",
            ConnectFault::ClosedBeforeAnswer => b"no connection: closed before the answer\n",
            ConnectFault::Failed => b"no connection: failed\n",
        }
    }
}

/// What came of a case over a server.
#[derive(Drop)]
pub enum Meeting {
    /// The server accepted the request, if it asks for one, and the script was run.
    Ran(Transcript),
    /// The server's answer to the request is to be refused.
    Refused(HeadRefusal),
    /// There is no connection to the server, or no whole answer came.
    NoConnection(ConnectFault),
}
