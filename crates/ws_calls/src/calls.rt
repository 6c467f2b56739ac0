//! What is asked of one endpoint.

use ws_base::Payload;
use ws_sends::KeyedSend;

/// One call of an endpoint.
#[derive(Drop)]
pub enum Call {
    /// A frame is sent.
    Send(KeyedSend),
    /// These bytes of the peer come. `key` masks what a client puts, and a server uses none (RFC 6455 section 5.3).
    Take { piece: Payload, key: [u8; 4] },
    /// The stream ends.
    End,
}

/// One call of an echo, which sends nothing of its own accord.
#[derive(Drop)]
pub enum EchoCall {
    /// These bytes of the peer come.
    Take { piece: Payload, key: [u8; 4] },
    /// The stream ends.
    End,
}
