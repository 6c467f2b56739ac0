//! The two ends of a connection (RFC 6455 section 1.2).

/// Which end of a connection an endpoint is. A client masks each frame that it sends, a server none
/// (section 5.1).
#[derive(Clone, Copy, Debug, PartialEq, Eq)]
pub enum Role {
    /// The end that opened the connection.
    Client,
    /// The end that accepted it.
    Server,
}
