//! What gives a network, and how a stream of it has ended.

use std::alloc::Global;
use std::io;
use std::io::ErrorKind;
use std::net::SocketAddr;
use ws_loops::{NonBlocking, Poller};
use ws_networks::Network;

/// How a stream has ended first, by what its calls have answered.
#[derive(Clone, Copy, PartialEq, Eq)]
pub enum StreamEnd {
    /// It hasn't: no read has found its end, and no call has failed.
    Open,
    /// The other end has ended its direction.
    Ended,
    /// A call over it has failed with an error of this kind.
    Failed(ErrorKind),
}

/// A stream that knows how it has ended.
pub trait EndingStream: NonBlocking {
    /// How it has ended first.
    fn stream_end(&self) -> StreamEnd;
}

/// Why there is no connection to a name, or it isn't listened at, or no client can be taken.
#[derive(Clone, Copy, PartialEq, Eq)]
pub enum ConnectMiss {
    /// The look-up of the name has failed so.
    NotFound(ErrorKind),
    /// An address takes no connection, or can't be listened at, or a listener gives no client.
    NotTaken(ErrorKind),
}

/// It gives a network, and what waits for its streams.
pub trait Connector {
    /// A connection of the network.
    type Stream: EndingStream + Drop;

    type Network: Network<Address = SocketAddr, Stream = Self::Stream, Miss = ConnectMiss> + Drop;

    type Poller: Poller + Drop;

    /// A new network, and what waits for its streams.
    fn network(&self, alloc: Global) -> io::Result<(Self::Network, Self::Poller)>;
}
