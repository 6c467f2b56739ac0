//! What happens at two joined sessions.

ghost use Rattle.std.specs.Prelude.{◌≡◌};
ghost use Rattle.ws_pair.specs.Moves.{side_of};

use ws_base::Payload;
use ws_session::Kind;

/// One of the two ends.
#[derive(Clone, Copy)]
pub enum End {
    Client,
    Server,
}

/// One thing that happens at an end. `key` masks what the client sends, and a server uses none (RFC 6455 section 5.3).
#[derive(Drop)]
pub enum Move {
    /// The first frame of a message is sent, the only one where `fin` is set.
    Begin {
        side: End,
        kind: Kind,
        payload: Payload,
        fin: bool,
        key: [u8; 4],
    },
    /// The next frame of the open message is sent, the last one where `fin` is set.
    More {
        side: End,
        payload: Payload,
        fin: bool,
        key: [u8; 4],
    },
    Ping {
        side: End,
        payload: Payload,
        key: [u8; 4],
    },
    Pong {
        side: End,
        payload: Payload,
        key: [u8; 4],
    },
    /// A close frame is sent, with a code and a reason or empty.
    Close {
        side: End,
        given: Option<(u16, String)>,
        key: [u8; 4],
    },
    /// The next bytes that the other end wrote come, at most so many.
    Arrive {
        side: End,
        bytes: u32,
        key: [u8; 4],
    },
    /// The stream to this end ends: nothing comes any more.
    Cut {
        side: End,
    },
}

impl Move {
    /// The end at which it happens.
    pub(crate) fn side(&self) -> End
        ensures { result ≡ side_of self.now }
    {
        match self {
            Move::Begin { side, .. }
            | Move::More { side, .. }
            | Move::Ping { side, .. }
            | Move::Pong { side, .. }
            | Move::Close { side, .. }
            | Move::Arrive { side, .. }
            | Move::Cut { side } => *side,
        }
    }
}
