//! Sockets of the system over `mio`: connections that are begun, listeners, streams that don't wait, and one wait for
//! all of them. No contract of a socket says which bytes pass, and none of the clock that it goes on.

ghost use Rattle.std.specs.Prelude.{◌≡◌, ◌≤◌, length, IfOk};
ghost use Rattle.std.specs.Iterator.{Drains, IsFinite};
ghost use Rattle.wst_network.specs.Tokens.{token_mark, token_number};

use crate::connector::{ConnectMiss, Connector, EndingStream, StreamEnd};
use crate::lost_clients::is_of_lost_client;
use mio::net::{TcpListener, TcpStream};
use mio::{Events, Interest, Poll, Registry, Token};
use std::alloc::{AllocError, Global};
use std::io;
use std::io::{ErrorKind, Read, Write};
use std::net::{Net, Shutdown, SocketAddr, ToSocketAddrs};
use std::time::{Clock, Duration, Instant};
use ws_loops::{
    Listener, Mark, NonBlocking, Poller, Readiness, TryAccept, TryRead, TryWrite, WaitFailed, Wake,
};
use ws_networks::{Network, Progress};

/// Room for the events of one wait. What doesn't fit is found by the next one.
const EVENTS: usize = 64;

/// The system's network.
#[derive(Drop)]
pub struct SystemNetwork<'a, N> {
    net: &'a N,
    registry: Registry,
}

/// Waits for the streams of a network, by a clock. Times are milliseconds since it was made.
#[derive(Drop)]
pub struct SystemPoller<'a, C> {
    clock: &'a C,
    poll: Poll,
    events: Events<Global>,
    /// So many of the events were told.
    told: usize,
    start: Instant,
    time: u64,
    left: u64,
}

/// The system's network, and what waits for its streams.
pub fn system_network<'a, N: Net + Clock>(
    alloc: Global,
    net: &'a N,
) -> io::Result<(SystemNetwork<'a, N>, SystemPoller<'a, N>)> {
    let poll = Poll::new(net)?;
    let registry = poll.registry().try_clone()?;
    let events = Events::with_capacity(alloc, EVENTS)?;
    let start = Instant::now(net)?;
    Ok((
        SystemNetwork { net, registry },
        SystemPoller {
            clock: net,
            poll,
            events,
            told: 0,
            start,
            time: 0,
            left: u64::MAX,
        },
    ))
}

/// Gives the system's network.
#[derive(Clone, Copy)]
pub struct SystemConnector<'a, N> {
    net: &'a N,
}

impl<'a, N> SystemConnector<'a, N> {
    /// That of this runtime.
    pub fn of(net: &'a N) -> SystemConnector<'a, N> {
        SystemConnector { net }
    }
}

impl<'a, N: Net + Clock> Connector for SystemConnector<'a, N> {
    type Stream = SystemStream;

    type Network = SystemNetwork<'a, N>;

    type Poller = SystemPoller<'a, N>;

    fn network(&self, alloc: Global) -> io::Result<(SystemNetwork<'a, N>, SystemPoller<'a, N>)> {
        system_network(alloc, self.net)
    }
}

impl<N: Net> Network for SystemNetwork<'_, N> {
    ghost use Rattle.std.specs.Prelude.{⊤};

    type Address = SocketAddr;

    type Stream = SystemStream;

    type Listener = SystemListener;

    type Miss = ConnectMiss;

    ghost did = { λ old new deeds. ⊤ };

    fn look_up(&mut self, alloc: Global, name: &str) -> Result<Vec<SocketAddr>, ConnectMiss> {
        match name.to_socket_addrs(self.net) {
            Ok(found) => match all_of(alloc, found) {
                Ok(addresses) => Ok(addresses),
                Err(_) => Err(ConnectMiss::NotFound(ErrorKind::OutOfMemory)),
            },
            Err(error) => Err(ConnectMiss::NotFound(error.kind())),
        }
    }

    fn begin(
        &mut self,
        address: SocketAddr,
        at: usize,
        _now: u64,
    ) -> Result<SystemStream, ConnectMiss> {
        match self.begun(address, at) {
            Ok(stream) => Ok(SystemStream {
                stream,
                end: StreamEnd::Open,
            }),
            Err(error) => Err(ConnectMiss::NotTaken(error.kind())),
        }
    }

    fn progress(&mut self, stream: &SystemStream, _at: usize) -> Progress<ConnectMiss> {
        match stream.stream.take_error() {
            Ok(Some(error)) | Err(error) => {
                return Progress::Failed(ConnectMiss::NotTaken(error.kind()));
            }
            Ok(None) => {}
        }
        match stream.stream.peer_addr() {
            Ok(_) => Progress::Made,
            Err(error) => match error.kind() {
                ErrorKind::NotConnected => Progress::Pending,
                kind => Progress::Failed(ConnectMiss::NotTaken(kind)),
            },
        }
    }

    fn bind(&mut self, address: SocketAddr) -> Result<SystemListener, ConnectMiss> {
        match self.bound(address) {
            Ok(listener) => Ok(listener),
            Err(error) => Err(ConnectMiss::NotTaken(error.kind())),
        }
    }

    fn address_of(&mut self, listener: &SystemListener) -> Result<SocketAddr, ConnectMiss> {
        match listener.listener.local_addr() {
            Ok(address) => Ok(address),
            Err(error) => Err(ConnectMiss::NotTaken(error.kind())),
        }
    }
}

/// All addresses that were found, in their order.
fn all_of<I: Iterator<Item = SocketAddr>>(
    alloc: Global,
    found: I,
) -> Result<Vec<SocketAddr>, AllocError>
    requires { I.can_next found × IsFinite (I.remaining found) }
    ensures { IfOk result (λ all. Drains I.next_gives found all.items) }
{
    found.collect(alloc)
}

impl<N: Net> SystemNetwork<'_, N> {
    /// A connection that was begun, for this place. What is written goes out at once.
    fn begun(&mut self, address: SocketAddr, at: usize) -> io::Result<TcpStream> {
        let mut stream = TcpStream::connect(self.net, address)?;
        make_ready(&self.registry, &mut stream, at)?;
        Ok(stream)
    }

    /// An address that is listened at.
    fn bound(&mut self, address: SocketAddr) -> io::Result<SystemListener> {
        let mut listener = TcpListener::bind(self.net, address)?;
        let registry = self.registry.try_clone()?;
        let token = Token(number_of(Mark::Listener));
        registry.register(&mut listener, token, Interest::READABLE)?;
        Ok(SystemListener { listener, registry })
    }
}

/// From now on what is written to a stream goes out at once, and the poller tells of it under the mark of this place.
fn make_ready(registry: &Registry, stream: &mut TcpStream, at: usize) -> io::Result<()> {
    stream.set_nodelay(true)?;
    let token = Token(number_of(Mark::Place(at)));
    registry.register(stream, token, Interest::READABLE | Interest::WRITABLE)?;
    Ok(())
}

/// The number of a mark for the system: the listener has one of its own.
fn number_of(mark: Mark) -> usize
    ensures { result ≡ token_number mark }
{
    match mark {
        Mark::Listener => 0,
        Mark::Place(at) => at.saturating_add(1),
    }
}

/// The mark of this number.
fn mark_of(number: usize) -> Mark
    ensures { result ≡ token_mark number }
{
    match number.checked_sub(1) {
        Some(at) => Mark::Place(at),
        None => Mark::Listener,
    }
}

/// An address that is listened at.
#[derive(Drop)]
pub struct SystemListener {
    listener: TcpListener,
    registry: Registry,
}

impl SystemListener {
    /// The stream of a client, for this place.
    fn made_ready(&self, stream: TcpStream, at: usize) -> io::Result<SystemStream> {
        let mut stream = stream;
        make_ready(&self.registry, &mut stream, at)?;
        Ok(SystemStream {
            stream,
            end: StreamEnd::Open,
        })
    }
}

/// A client is taken only if a descriptor is left beside it, for a connection that is made because of it. One that went
/// away while it waited is passed over, and a call that a signal interrupts is made again.
impl Listener for SystemListener {
    ghost use Rattle.std.specs.Prelude.{⊤};

    type Client = SystemStream;

    type Miss = ConnectMiss;

    ghost did = { λ old new deeds. ⊤ };

    fn try_accept(&mut self, at: usize) -> TryAccept<SystemStream, ConnectMiss> {
        let _left = match self.registry.try_clone() {
            Ok(left) => left,
            Err(error) => return TryAccept::Failed(ConnectMiss::NotTaken(error.kind())),
        };
        for _ in 0..u64::MAX {
            match self.listener.accept() {
                Ok((stream, _)) => {
                    return match self.made_ready(stream, at) {
                        Ok(stream) => TryAccept::Client(stream),
                        Err(error) => TryAccept::Lost(ConnectMiss::NotTaken(error.kind())),
                    };
                }
                Err(error) if error.kind() == ErrorKind::WouldBlock => return TryAccept::NotReady,
                Err(error) if is_of_lost_client(&error) => {}
                Err(error) => return TryAccept::Failed(ConnectMiss::NotTaken(error.kind())),
            }
        }
        TryAccept::NotReady
    }
}

/// A connection, and how it has ended first.
#[derive(Drop)]
pub struct SystemStream {
    stream: TcpStream,
    end: StreamEnd,
}

impl SystemStream {
    /// Notes how it has ended, if it hadn't.
    fn note(&mut self, end: StreamEnd) {
        if self.end == StreamEnd::Open {
            self.end = end;
        }
    }
}

impl EndingStream for SystemStream {
    fn stream_end(&self) -> StreamEnd {
        self.end
    }
}

/// A call that a signal interrupts is made again.
impl NonBlocking for SystemStream {
    ghost use Rattle.std.specs.Prelude.{⊤};

    ghost did = { λ old new deeds. ⊤ };

    fn try_read(&mut self, room: &mut [u8]) -> TryRead {
        for _ in 0..u64::MAX {
            match self.stream.read(room) {
                Ok(0) => {
                    self.note(StreamEnd::Ended);
                    return TryRead::Ended;
                }
                Ok(count) => return TryRead::Came(count),
                Err(error) => match error.kind() {
                    ErrorKind::WouldBlock => return TryRead::NotReady,
                    ErrorKind::Interrupted => {}
                    kind => {
                        self.note(StreamEnd::Failed(kind));
                        return TryRead::Failed;
                    }
                },
            }
        }
        TryRead::Failed
    }

    fn try_write(&mut self, bytes: &[u8]) -> TryWrite {
        for _ in 0..u64::MAX {
            match self.stream.write(bytes) {
                Ok(0) => {
                    self.note(StreamEnd::Failed(ErrorKind::WriteZero));
                    return TryWrite::Failed;
                }
                Ok(count) => return TryWrite::Taken(count),
                Err(error) => match error.kind() {
                    ErrorKind::WouldBlock => return TryWrite::NotReady,
                    ErrorKind::Interrupted => {}
                    kind => {
                        self.note(StreamEnd::Failed(kind));
                        return TryWrite::Failed;
                    }
                },
            }
        }
        TryWrite::Failed
    }

    fn end_direction(&mut self) {
        let _ = self.stream.shutdown(Shutdown::Write);
    }
}

impl<C: Clock> SystemPoller<'_, C> {
    /// How long it is since it was made. `None` where the clock can't be read.
    fn elapsed(&self) -> Option<u64> {
        match self.start.elapsed(self.clock) {
            Ok(time) => Some(milliseconds(time)),
            Err(_) => None,
        }
    }

    /// How long is still to be waited, if there is an end.
    fn rest(&self, until: Option<u64>) -> Option<Duration> {
        let until = until?;
        let now = self.elapsed().unwrap_or(self.time);
        Some(Duration::from_millis(until.saturating_sub(now)))
    }

    /// Whether this time has come. Where the clock can't be read, a wait until then has lasted so long.
    fn has_come(&self, until: Option<u64>) -> bool {
        match (until, self.elapsed()) {
            (Some(until), Some(now)) => until <= now,
            (Some(_), None) => true,
            (None, _) => false,
        }
    }
}

/// Whole milliseconds of a time.
fn milliseconds(time: Duration) -> u64 {
    time.as_secs()
        .saturating_mul(1000)
        .saturating_add(u64::from(time.subsec_millis()))
}

impl<C: Clock> Poller for SystemPoller<'_, C> {
    ghost time = { λ p. p.time };

    ghost left = { λ p. p.left };

    fn now(&mut self) -> u64 {
        if let Some(now) = self.elapsed() {
            self.time = self.time.max(now);
        }
        self.time
    }

    fn wait(&mut self, found: &mut [Wake], until: Option<u64>) -> Result<usize, WaitFailed> {
        if self.left == 0 {
            return Err(WaitFailed);
        }
        self.left -= 1;
        let rest = tell(&self.events, self.told, found);
        if rest > 0 {
            self.told = self.told.saturating_add(rest);
            return Ok(rest);
        }
        for _ in 0..u64::MAX {
            let rest = self.rest(until);
            if self.poll.poll(&mut self.events, rest).is_err() {
                return Err(WaitFailed);
            }
            self.told = tell(&self.events, 0, found);
            if self.told > 0 || self.has_come(until) {
                return Ok(self.told);
            }
        }
        Ok(0)
    }
}

/// Tells of the streams that were found ready, but the first ones, as far as there is room, and answers of how many.
/// One that has failed may be read and written: the call says so.
fn tell(events: &Events<Global>, told: usize, found: &mut [Wake]) -> usize
    ensures len { length found.new ≡ length found.old }
    ensures count { result ≤ length found.new }
{
    let mut count = 0;
    let mut at = 0usize;
    for event in events.iter() {
        if at >= told && count < found.len() {
            let Token(number) = event.token();
            let failed = event.is_error();
            found[count] = Wake {
                mark: mark_of(number),
                ready: Readiness {
                    read: failed || event.is_readable() || event.is_read_closed(),
                    write: failed || event.is_writable() || event.is_write_closed(),
                },
            };
            count += 1;
        }
        at = at.saturating_add(1);
    }
    count
}
