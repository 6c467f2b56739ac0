//! What a server is asked for (RFC 6455 section 4.1).

use ws_upgrade::AddedHeader;

/// A request for an upgrade, but for its key.
#[derive(Clone, Copy)]
pub struct UpgradeRequest<'a> {
    /// What it calls the server.
    pub host: &'a [u8],
    /// The path and the query that it asks for.
    pub path: &'a [u8],
    /// The subprotocols that it offers.
    pub protocols: &'a [&'a [u8]],
    /// The headers behind its own.
    pub headers: &'a [AddedHeader<'a>],
}
