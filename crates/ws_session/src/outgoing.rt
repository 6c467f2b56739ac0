//! A frame that an endpoint is asked to send (RFC 6455 sections 5.4 to 5.6).

ghost use Rattle.std.specs.Prelude.{◌≡◌};
ghost use Rattle.ws_session.specs.Sends.{Close, close_owned, send_of};

use crate::message::Kind;

/// A frame to send: a part of a message, or a control frame.
#[derive(Clone, Copy)]
pub enum Outgoing<'a> {
    /// The first frame of a message, with `fin` the whole message.
    Begin {
        kind: Kind,
        payload: &'a [u8],
        fin: bool,
    },
    /// The next frame of the open message, with `fin` the last.
    More {
        payload: &'a [u8],
        fin: bool,
    },
    /// A ping of at most 125 bytes.
    Ping(&'a [u8]),
    /// A pong of at most 125 bytes, which no ping asked for.
    Pong(&'a [u8]),
    /// A close frame, empty or with a code and a reason of at most 123 bytes.
    Close(Option<(u16, &'a str)>),
}

impl<'a> Outgoing<'a> {
    /// A close frame, empty or with a code and a reason that are borrowed from their owner.
    pub fn close(given: &'a Option<(u16, String)>) -> Outgoing<'a>
        ensures { send_of result ≡ Close (close_owned given.now) }
    {
        match given {
            None => Outgoing::Close(None),
            Some((code, reason)) => Outgoing::Close(Some((*code, reason.as_str()))),
        }
    }
}
