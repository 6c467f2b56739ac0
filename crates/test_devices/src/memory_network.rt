//! The network in memory of a book, as a loop has it: its calls don't wait. A byte of a connection is there only once
//! it was waited for, so that what answers a turn never comes before that turn is sent.

ghost use Rattle.std.specs.Prelude.{◌≡◌, ◌≤◌, length};

use crate::memory_net::{Book, MemoryListener, MemoryNet, MemoryStream, PORT, keep_most};
use std::alloc::Global;
use std::cell::Cell;
use std::io;
use std::io::{ErrorKind, Read, Write};
use std::net::{Net, OpenListener, OpenStream, Shutdown, SocketAddr, ToSocketAddrs};
use std::time::Duration;
use ws_loops::{
    Listener, Mark, NonBlocking, Poller, Readiness, TryAccept, TryRead, TryWrite, WaitFailed, Wake,
};
use ws_networks::{Network, Progress};
use wst_network::{ConnectMiss, Connector, EndingStream, StreamEnd, is_of_lost_client};

/// How often a poller waits at most.
const WAITS: u64 = 1_000_000_000;

/// Whether a wait is in vain.
#[derive(Clone, Copy, PartialEq, Eq)]
enum Silence {
    /// It is not.
    Never,
    /// The next one that has an end is.
    Next,
    /// One was, and so is the look behind it.
    Last,
}

/// How the connection of a book stands.
#[derive(Drop)]
pub struct Stage {
    asked: Cell<u32>,
    is_there: Cell<bool>,
    silence: Cell<Silence>,
    /// So many places have had a client.
    places: Cell<usize>,
    /// The last client was not ended from this side.
    is_open: Cell<bool>,
}

impl Stage {
    /// No connection was begun.
    pub fn new() -> Stage {
        Stage {
            asked: Cell::new(0),
            is_there: Cell::new(false),
            silence: Cell::new(Silence::Never),
            places: Cell::new(1),
            is_open: Cell::new(false),
        }
    }

    /// A client was taken for this place.
    fn receive(&self, at: usize) {
        self.asked.set(2);
        self.places.set(self.places.get().max(at.saturating_add(1)));
        self.is_open.set(true);
    }

    /// A connection is begun.
    fn begin(&self) {
        self.asked.set(0);
        self.is_there.set(false);
        self.silence.set(Silence::Never);
    }

    /// Whether a read finds something. It doesn't find it twice.
    fn takes(&self) -> bool {
        if self.silence.get() == Silence::Last {
            self.silence.set(Silence::Never);
            return false;
        }
        self.is_there.replace(false)
    }

    /// Whether a wait that has an end is in vain.
    fn is_in_vain(&self) -> bool {
        if self.silence.get() != Silence::Next {
            return false;
        }
        self.silence.set(Silence::Last);
        true
    }

    /// A wait was not in vain.
    fn come(&self) {
        self.silence.set(Silence::Never);
        self.is_there.set(true);
    }
}

/// It gives the network of a book.
#[derive(Clone, Copy)]
pub struct MemoryConnector<'a> {
    pub book: &'a Book<'a>,
}

impl<'a> Connector for MemoryConnector<'a> {
    type Stream = PolledStream<'a>;

    type Network = PolledNetwork<'a>;

    type Poller = MemoryPoller<'a>;

    fn network(&self, _alloc: Global) -> io::Result<(PolledNetwork<'a>, MemoryPoller<'a>)> {
        Ok((
            PolledNetwork { book: self.book },
            MemoryPoller {
                book: self.book,
                clock: 0,
                time: 0,
                left: WAITS,
            },
        ))
    }
}

/// A network that does what its book says.
#[derive(Drop)]
pub struct PolledNetwork<'a> {
    book: &'a Book<'a>,
}

impl<'a> Network for PolledNetwork<'a> {
    ghost use Rattle.std.specs.Prelude.{⊤};

    type Address = SocketAddr;

    type Stream = PolledStream<'a>;

    type Listener = PolledListener<'a>;

    type Miss = ConnectMiss;

    ghost did = { λ old new deeds. ⊤ };

    fn look_up(&mut self, alloc: Global, name: &str) -> Result<Vec<SocketAddr>, ConnectMiss> {
        let net = MemoryNet { book: self.book };
        let mut addresses = Vec::new(alloc);
        match name.to_socket_addrs(&net) {
            Ok(found) => {
                for address in found {
                    if addresses.push(address).is_err() {
                        return Err(ConnectMiss::NotFound(ErrorKind::OutOfMemory));
                    }
                }
                Ok(addresses)
            }
            Err(error) => Err(ConnectMiss::NotFound(error.kind())),
        }
    }

    fn begin(
        &mut self,
        address: SocketAddr,
        _at: usize,
        _now: u64,
    ) -> Result<PolledStream<'a>, ConnectMiss> {
        self.book.stage.begin();
        if address.port() != PORT {
            return Err(ConnectMiss::NotTaken(ErrorKind::AddrNotAvailable));
        }
        match self.book.next() {
            Ok(stream) => Ok(PolledStream {
                book: self.book,
                stream,
                held: 0,
                end: StreamEnd::Open,
            }),
            Err(error) => Err(ConnectMiss::NotTaken(error.kind())),
        }
    }

    /// It is made when it is asked for the second time.
    fn progress(&mut self, _stream: &PolledStream<'a>, _at: usize) -> Progress<ConnectMiss> {
        let asked = self.book.stage.asked.get().saturating_add(1);
        self.book.stage.asked.set(asked);
        if asked < 2 {
            Progress::Pending
        } else {
            Progress::Made
        }
    }

    fn bind(&mut self, address: SocketAddr) -> Result<PolledListener<'a>, ConnectMiss> {
        let net = MemoryNet { book: self.book };
        match net.bind(address) {
            Ok(listener) => Ok(PolledListener {
                book: self.book,
                listener,
            }),
            Err(error) => Err(ConnectMiss::NotTaken(error.kind())),
        }
    }

    fn address_of(&mut self, listener: &PolledListener<'a>) -> Result<SocketAddr, ConnectMiss> {
        match listener.listener.local_addr() {
            Ok(address) => Ok(address),
            Err(error) => Err(ConnectMiss::NotTaken(error.kind())),
        }
    }
}

/// A listener of such a network: a client comes once the one before it was ended from this side.
#[derive(Drop)]
pub struct PolledListener<'a> {
    book: &'a Book<'a>,
    listener: MemoryListener<'a>,
}

impl<'a> Listener for PolledListener<'a> {
    ghost use Rattle.std.specs.Prelude.{⊤};

    type Client = PolledStream<'a>;

    type Miss = ConnectMiss;

    ghost did = { λ old new deeds. ⊤ };

    fn try_accept(&mut self, at: usize) -> TryAccept<PolledStream<'a>, ConnectMiss> {
        if self.book.stage.is_open.get() {
            return TryAccept::NotReady;
        }
        for _ in 0..u64::MAX {
            match self.book.next() {
                Ok(stream) => {
                    self.book.stage.receive(at);
                    return TryAccept::Client(PolledStream {
                        book: self.book,
                        stream,
                        held: 0,
                        end: StreamEnd::Open,
                    });
                }
                Err(error) if is_of_lost_client(&error) => {}
                Err(error) => return TryAccept::Failed(ConnectMiss::NotTaken(error.kind())),
            }
        }
        TryAccept::NotReady
    }
}

/// A connection of such a network.
#[derive(Drop)]
pub struct PolledStream<'a> {
    book: &'a Book<'a>,
    stream: MemoryStream<'a>,
    held: u64,
    end: StreamEnd,
}

impl PolledStream<'_> {
    /// Notes how it has ended, if it hadn't.
    fn note(&mut self, end: StreamEnd) {
        if self.end == StreamEnd::Open {
            self.end = end;
        }
    }
}

impl EndingStream for PolledStream<'_> {
    fn stream_end(&self) -> StreamEnd {
        self.end
    }
}

impl NonBlocking for PolledStream<'_> {
    ghost use Rattle.std.specs.Prelude.{⊤};

    ghost did = { λ old new deeds. ⊤ };

    fn try_read(&mut self, room: &mut [u8]) -> TryRead {
        if !self.book.stage.takes() {
            return TryRead::NotReady;
        }
        match self.stream.read(room) {
            Ok(0) => {
                self.note(StreamEnd::Ended);
                TryRead::Ended
            }
            Ok(count) => {
                self.held = 0;
                TryRead::Came(count)
            }
            Err(error) => match error.kind() {
                ErrorKind::WouldBlock => {
                    self.book.stage.silence.set(Silence::Next);
                    TryRead::NotReady
                }
                kind => {
                    self.note(StreamEnd::Failed(kind));
                    TryRead::Failed
                }
            },
        }
    }

    fn try_write(&mut self, bytes: &[u8]) -> TryWrite {
        if self.held >= self.book.holds {
            return TryWrite::NotReady;
        }
        match self.stream.write(bytes) {
            Ok(0) => TryWrite::Failed,
            Ok(count) => {
                self.held = self.held.saturating_add(1);
                TryWrite::Taken(count)
            }
            Err(error) => {
                self.note(StreamEnd::Failed(error.kind()));
                TryWrite::Failed
            }
        }
    }

    fn end_direction(&mut self) {
        self.book.stage.is_open.set(false);
        let _ = self.stream.shutdown(Shutdown::Write);
    }
}

/// Waits for such a connection, by a clock of which only waits that are in vain take time.
#[derive(Drop)]
pub struct MemoryPoller<'a> {
    book: &'a Book<'a>,
    clock: u64,
    time: u64,
    left: u64,
}

impl MemoryPoller<'_> {
    /// Keeps for how long was to be waited, for a connection or for what comes.
    fn keep(&self, until: Option<u64>) {
        if let Some(until) = until {
            let time = Duration::from_millis(until.saturating_sub(self.clock));
            if self.book.stage.asked.get() < 2 {
                keep_most(&self.book.connect_seconds, Some(time));
            } else {
                keep_most(&self.book.read_seconds, Some(time));
            }
        }
    }
}

impl Poller for MemoryPoller<'_> {
    ghost time = { λ p. p.time };

    ghost left = { λ p. p.left };

    fn now(&mut self) -> u64 {
        self.time = self.time.max(self.clock);
        self.time
    }

    fn wait(&mut self, found: &mut [Wake], until: Option<u64>) -> Result<usize, WaitFailed> {
        if self.left == 0 {
            return Err(WaitFailed);
        }
        self.left -= 1;
        self.keep(until);
        if let Some(until) = until {
            if until <= self.clock {
                return Ok(0);
            }
            if self.book.stage.is_in_vain() {
                self.clock = until;
                return Ok(0);
            }
        }
        self.book.stage.come();
        Ok(tell_all(found, self.book.stage.places.get()))
    }
}

/// Tells of the listener, and of the streams in so many places, as far as there is room, and answers of how many.
fn tell_all(found: &mut [Wake], places: usize) -> usize
    ensures len { length found.new ≡ length found.old }
    ensures count { result ≤ length found.new }
{
    let mut count = 0;
    while count < found.len() && count <= places {
        let mark = match count.checked_sub(1) {
            Some(at) => Mark::Place(at),
            None => Mark::Listener,
        };
        found[count] = Wake {
            mark,
            ready: Readiness {
                read: true,
                write: true,
            },
        };
        count += 1;
    }
    count
}
