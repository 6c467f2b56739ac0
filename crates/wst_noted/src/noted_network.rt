//! A network over which it is noted what passes. All that it does is done by another one.

ghost use Rattle.std.specs.Prelude.{◌≡◌};

use crate::head_place::{HeadFrom, HeadPlace};
use crate::notes::ConnectionNotes;
use std::alloc::Global;
use std::io;
use std::net::SocketAddr;
use std::time::{Clock, Instant};
use ws_loops::{Listener, NonBlocking, TryAccept, TryRead, TryWrite};
use ws_networks::{Network, Progress};
use wst_network::{ConnectMiss, Connector, EndingStream, StreamEnd};

/// It gives the network of another one, over which it is noted what passes.
#[derive(Clone, Copy)]
pub struct NotedConnector<'a, C, K> {
    connector: &'a C,
    notes: &'a ConnectionNotes<'a, K>,
}

impl<'a, C, K> NotedConnector<'a, C, K> {
    /// That of this one.
    pub fn of(connector: &'a C, notes: &'a ConnectionNotes<'a, K>) -> NotedConnector<'a, C, K> {
        NotedConnector { connector, notes }
    }
}

impl<'a, C: Connector, K: Clock> Connector for NotedConnector<'a, C, K> {
    type Stream = NotedStream<'a, C::Stream, K>;

    type Network = NotedNetwork<'a, C::Network, K>;

    type Poller = C::Poller;

    fn network(&self, alloc: Global) -> io::Result<(NotedNetwork<'a, C::Network, K>, C::Poller)> {
        let (network, poller) = self.connector.network(alloc)?;
        let notes = self.notes;
        Ok((NotedNetwork { network, notes }, poller))
    }
}

/// A network over which it is noted what passes.
#[derive(Drop)]
pub struct NotedNetwork<'a, N, K> {
    network: N,
    notes: &'a ConnectionNotes<'a, K>,
}

impl<'a, N: Network, K: Clock> Network for NotedNetwork<'a, N, K> {
    type Address = N::Address;

    type Stream = NotedStream<'a, N::Stream, K>;

    type Listener = NotedListener<'a, N::Listener, K>;

    type Miss = N::Miss;

    ghost did = { λ old new deeds. N.did old.network new.network deeds };

    fn look_up(&mut self, alloc: Global, name: &str) -> Result<Vec<N::Address>, N::Miss> {
        self.network.look_up(alloc, name)
    }

    fn begin(
        &mut self,
        address: N::Address,
        at: usize,
        now: u64,
    ) -> Result<NotedStream<'a, N::Stream, K>, N::Miss> {
        let began = self.notes.now();
        let stream = self.network.begin(address, at, now)?;
        Ok(NotedStream::of(stream, self.notes, began))
    }

    fn progress(&mut self, stream: &NotedStream<'a, N::Stream, K>, at: usize) -> Progress<N::Miss> {
        self.network.progress(&stream.stream, at)
    }

    fn bind(&mut self, address: N::Address) -> Result<NotedListener<'a, N::Listener, K>, N::Miss> {
        let listener = self.network.bind(address)?;
        let notes = self.notes;
        Ok(NotedListener { listener, notes })
    }

    fn address_of(
        &mut self,
        listener: &NotedListener<'a, N::Listener, K>,
    ) -> Result<N::Address, N::Miss> {
        self.network.address_of(&listener.listener)
    }
}

/// A listener to whose clients it is noted what passes.
#[derive(Drop)]
pub struct NotedListener<'a, L, K> {
    listener: L,
    notes: &'a ConnectionNotes<'a, K>,
}

impl<'a, L: Listener, K: Clock> Listener for NotedListener<'a, L, K> {
    type Client = NotedStream<'a, L::Client, K>;

    type Miss = L::Miss;

    ghost did = { λ old new deeds. L.did old.listener new.listener deeds };

    fn try_accept(&mut self, at: usize) -> TryAccept<NotedStream<'a, L::Client, K>, L::Miss> {
        match self.listener.try_accept(at) {
            TryAccept::Client(stream) => {
                let began = self.notes.now();
                TryAccept::Client(NotedStream::of(stream, self.notes, began))
            }
            TryAccept::Lost(why) => TryAccept::Lost(why),
            TryAccept::Failed(why) => TryAccept::Failed(why),
            TryAccept::NotReady => TryAccept::NotReady,
        }
    }
}

/// A stream of which it is noted what passes, and how far the head of either direction has come.
#[derive(Drop)]
pub struct NotedStream<'a, S, K> {
    stream: S,
    notes: &'a ConnectionNotes<'a, K>,
    /// When the connection began.
    began: Option<Instant>,
    sent: HeadPlace,
    got: HeadPlace,
}

impl<'a, S, K> NotedStream<'a, S, K> {
    /// This stream, of a connection that began then.
    fn of(
        stream: S,
        notes: &'a ConnectionNotes<'a, K>,
        began: Option<Instant>,
    ) -> NotedStream<'a, S, K>
        ensures { result.stream ≡ stream }
    {
        NotedStream {
            stream,
            notes,
            began,
            sent: HeadPlace::new(),
            got: HeadPlace::new(),
        }
    }
}

impl<S: NonBlocking, K: Clock> NonBlocking for NotedStream<'_, S, K> {
    ghost did = { λ old new deeds. S.did old.stream new.stream deeds };

    fn try_read(&mut self, room: &mut [u8]) -> TryRead {
        let read = self.stream.try_read(room);
        if let TryRead::Came(count) = read {
            self.notes.note(self.began, HeadFrom::Tested, &mut self.got, &room[..count]);
        }
        read
    }

    fn try_write(&mut self, bytes: &[u8]) -> TryWrite {
        let written = self.stream.try_write(bytes);
        if let TryWrite::Taken(count) = written {
            self.notes.note(
                self.began,
                HeadFrom::Tester,
                &mut self.sent,
                &bytes[..count],
            );
        }
        written
    }

    fn end_direction(&mut self) {
        self.stream.end_direction();
    }
}

impl<S: EndingStream, K: Clock> EndingStream for NotedStream<'_, S, K> {
    fn stream_end(&self) -> StreamEnd {
        self.stream.stream_end()
    }
}
