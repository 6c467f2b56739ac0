//! The head with which a direction begins (RFC 6455 section 4): the request of a client, or the response of a server.

ghost use Rattle.std.specs.Prelude.{◌≤◌, length, MatchOption};
ghost use Rattle.ws_tap.specs.Heads.{HasHead, HasNoHead};

use httparse::Status;
use httparse::spans::{EMPTY_HEADER_SPAN, parse_request, parse_response};
use ws_wire::Role;

/// A head is looked for in so many bytes.
pub(crate) const MAX_HEAD: usize = 8192;

/// The most headers that a head has.
const MAX_HEADERS: usize = 64;

/// A head at the front of a direction.
#[derive(Clone, Copy)]
pub struct Head {
    /// How many bytes it has.
    pub len: usize,
    /// The status of a response.
    pub status: Option<u16>,
}

/// The head at the front of these bytes of an end, if a whole one stands there.
pub(crate) fn find_head(role: Role, bytes: &[u8]) -> Option<Head>
    requires { length bytes.now ≤ 8192 }
    ensures { MatchOption result (HasNoHead role bytes.now) (HasHead role bytes.now) }
{
    match role {
        Role::Client => find_request(bytes),
        Role::Server => find_response(bytes),
    }
}

/// The request at the front of these bytes.
fn find_request(bytes: &[u8]) -> Option<Head>
    requires { length bytes.now ≤ 8192 }
    ensures { MatchOption result (HasNoHead Role.Client bytes.now) (HasHead Role.Client bytes.now) }
{
    let mut spans = [EMPTY_HEADER_SPAN; MAX_HEADERS];
    match parse_request(bytes, &mut spans) {
        Ok(Status::Complete(head)) => Some(Head {
            len: head.len,
            status: None,
        }),
        Ok(Status::Partial) => None,
        Err(_) => None,
    }
}

/// The response at the front of these bytes.
fn find_response(bytes: &[u8]) -> Option<Head>
    requires { length bytes.now ≤ 8192 }
    ensures { MatchOption result (HasNoHead Role.Server bytes.now) (HasHead Role.Server bytes.now) }
{
    let mut spans = [EMPTY_HEADER_SPAN; MAX_HEADERS];
    match parse_response(bytes, &mut spans) {
        Ok(Status::Complete(head)) => Some(Head {
            len: head.len,
            status: Some(head.code),
        }),
        Ok(Status::Partial) => None,
        Err(_) => None,
    }
}
