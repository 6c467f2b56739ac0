//! A network in memory: each of its connections is read of bytes that are given, and what is written to them is kept.

ghost use Rattle.std.specs.Prelude.{◌≤◌, length, IfOk};

use crate::memory_network::Stage;
use std::alloc::Global;
use std::cell::{Cell, RefCell};
use std::io;
use std::io::{ErrorKind, Read, Write};
use std::net::{Ipv4Addr, Net, OpenListener, OpenStream, Shutdown, SocketAddr};
use std::os::fd::{AsRawFd, RawFd};
use std::time::{Clock, Duration};
use ws_frame::{ByteReader, Failing};
use wst_sockets::Network;

/// The host that has an address.
const HOST: &str = "localhost";

/// The host that has two.
const DOUBLE_HOST: &str = "double";

/// The one port at which something listens, also where port 0 is asked for, and from which each connection comes.
pub const PORT: u16 = 9001;

/// What a network does, and what came of it.
#[derive(Drop)]
pub struct Book<'a> {
    /// What is read of each connection, a byte a read.
    pub input: &'a [u8],
    /// Which reads of each connection fail.
    pub reads: Failing,
    /// Which writes to each connection fail. Each takes a byte.
    pub writes: Failing,
    /// Which reads of each connection wait in vain, as they do where a time-out expires. They bring no byte.
    pub waits: Failing,
    /// Which connections are not made or taken, and how that is told.
    pub refused: (Failing, io::Error),
    /// Why no address can be listened at, if none can.
    pub deaf: Option<ErrorKind>,
    /// A listener doesn't know its address.
    pub nameless: bool,
    /// The most seconds that a read was to wait.
    pub read_seconds: Cell<u64>,
    /// The most seconds that a write was to wait.
    pub write_seconds: Cell<u64>,
    /// The most seconds in which a connection was to be made.
    pub connect_seconds: Cell<u64>,
    /// How many connections were asked for.
    pub asked: Cell<u64>,
    /// How many reads were made of all connections.
    pub read: Cell<u64>,
    /// What was written to all connections.
    pub written: RefCell<Vec<u8>>,
    /// How many of them were ended from this side.
    pub ended: Cell<u64>,
    /// What was told of waits.
    pub noted: RefCell<Vec<u8>>,
    /// So many bytes its connection that doesn't wait takes between two that are read of it.
    pub holds: u64,
    /// How its connection stands that doesn't wait.
    pub stage: Stage,
}

impl<'a> Book<'a> {
    /// A network whose connections work, and bring these bytes.
    pub fn new(alloc: Global, input: &'a [u8]) -> Book<'a> {
        Book {
            input,
            reads: Failing::Never,
            writes: Failing::Never,
            waits: Failing::Never,
            refused: (
                Failing::Never,
                io::Error::from(ErrorKind::ConnectionRefused),
            ),
            deaf: None,
            nameless: false,
            read_seconds: Cell::new(0),
            write_seconds: Cell::new(0),
            connect_seconds: Cell::new(0),
            asked: Cell::new(0),
            read: Cell::new(0),
            written: RefCell::new(Vec::new(alloc)),
            ended: Cell::new(0),
            noted: RefCell::new(Vec::new(alloc)),
            holds: u64::MAX,
            stage: Stage::new(),
        }
    }

    /// The next connection, if it is made.
    pub fn next(&'a self) -> io::Result<MemoryStream<'a>> {
        let number = self.asked.get().saturating_add(1);
        self.asked.set(number);
        let (failing, error) = self.refused;
        if failing.fails_at(number) {
            return Err(error);
        }
        Ok(MemoryStream {
            book: self,
            reader: ByteReader::new(self.input, self.reads),
            reads: 0,
            writes: 0,
        })
    }

    /// Keeps a byte that was written.
    fn keep(&self, byte: u8) -> io::Result<()> {
        match self.written.try_borrow_mut() {
            Ok(mut written) => {
                written.push(byte)?;
                Ok(())
            }
            Err(_) => Err(io::Error::from(ErrorKind::Other)),
        }
    }
}

/// Keeps for how long was to be waited, where that is longer than before.
pub fn keep_most(seconds: &Cell<u64>, time: Option<Duration>) {
    if let Some(time) = time {
        seconds.set(seconds.get().max(time.as_secs()));
    }
}

/// A network that does what its book says.
#[derive(Clone, Copy)]
pub struct MemoryNet<'a> {
    pub book: &'a Book<'a>,
}

impl<'a> Net for MemoryNet<'a> {
    type Stream = MemoryStream<'a>;

    type Listener = MemoryListener<'a>;

    fn bind(&self, addr: SocketAddr) -> io::Result<MemoryListener<'a>> {
        if addr.port() != PORT && addr.port() != 0 {
            return Err(io::Error::from(ErrorKind::AddrNotAvailable));
        }
        match self.book.deaf {
            Some(kind) => Err(io::Error::from(kind)),
            None => Ok(MemoryListener { book: self.book }),
        }
    }

    fn connect(&self, addr: SocketAddr) -> io::Result<MemoryStream<'a>> {
        if addr.port() == PORT {
            self.book.next()
        } else {
            Err(io::Error::from(ErrorKind::AddrNotAvailable))
        }
    }

    fn connect_timeout(&self, addr: SocketAddr, time: Duration) -> io::Result<MemoryStream<'a>> {
        keep_most(&self.book.connect_seconds, Some(time));
        self.connect(addr)
    }

    fn lookup_host(&self, host: &str, port: u16, found: &mut [SocketAddr]) -> io::Result<usize>
        ensures in_bounds { IfOk result (λ n. n ≤ length found.new) }
    {
        if host == DOUBLE_HOST && found.len() >= 2 {
            found[0] = local(port);
            found[1] = local(port);
            return Ok(2);
        }
        if found.is_empty() || host != HOST {
            return Ok(0);
        }
        found[0] = local(port);
        Ok(1)
    }
}

/// In memory no time passes.
impl Clock for MemoryNet<'_> {
    fn monotonic(&self) -> io::Result<Duration> {
        Ok(Duration::from_secs(1))
    }

    fn since_1970(&self) -> io::Result<Duration> {
        Ok(Duration::from_secs(1))
    }
}

impl<'a> Network for MemoryNet<'a> {
    type Notices = MemoryNotices<'a>;

    fn notices(&self) -> MemoryNotices<'a> {
        MemoryNotices { book: self.book }
    }
}

/// Keeps what is told of waits over such a network.
#[derive(Drop)]
pub struct MemoryNotices<'a> {
    book: &'a Book<'a>,
}

impl Write for MemoryNotices<'_> {
    fn write(&mut self, buf: &[u8]) -> io::Result<usize> {
        match self.book.noted.try_borrow_mut() {
            Ok(mut noted) => {
                noted.extend_from_slice(buf)?;
                Ok(buf.len())
            }
            Err(_) => Err(io::Error::from(ErrorKind::Other)),
        }
    }

    fn flush(&mut self) -> io::Result<()> {
        Ok(())
    }
}

/// An address of this machine.
fn local(port: u16) -> SocketAddr {
    SocketAddr::from((Ipv4Addr::LOCALHOST, port))
}

/// A listener of such a network.
#[derive(Drop)]
pub struct MemoryListener<'a> {
    book: &'a Book<'a>,
}

impl<'a> OpenListener for MemoryListener<'a> {
    type Stream = MemoryStream<'a>;

    fn accept(&self) -> io::Result<(MemoryStream<'a>, SocketAddr)> {
        let stream = self.book.next()?;
        Ok((stream, local(PORT)))
    }

    fn local_addr(&self) -> io::Result<SocketAddr> {
        if self.book.nameless {
            Err(io::Error::from(ErrorKind::Other))
        } else {
            Ok(local(PORT))
        }
    }
}

impl AsRawFd for MemoryListener<'_> {
    fn as_raw_fd(&self) -> RawFd {
        -1
    }
}

/// A connection of such a network.
#[derive(Drop)]
pub struct MemoryStream<'a> {
    book: &'a Book<'a>,
    reader: ByteReader<'a>,
    reads: u64,
    writes: u64,
}

impl Read for MemoryStream<'_> {
    fn read(&mut self, buf: &mut [u8]) -> io::Result<usize> {
        self.reads = self.reads.saturating_add(1);
        self.book.read.set(self.book.read.get().saturating_add(1));
        if self.book.waits.fails_at(self.reads) {
            return Err(io::Error::from(ErrorKind::WouldBlock));
        }
        self.reader.read(buf)
    }
}

impl Write for MemoryStream<'_> {
    fn write(&mut self, buf: &[u8]) -> io::Result<usize> {
        self.writes = self.writes.saturating_add(1);
        if self.book.writes.fails_at(self.writes) {
            return Err(io::Error::from(ErrorKind::BrokenPipe));
        }
        if buf.is_empty() {
            return Ok(0);
        }
        self.book.keep(buf[0])?;
        Ok(1)
    }

    fn flush(&mut self) -> io::Result<()> {
        Ok(())
    }
}

impl OpenStream for MemoryStream<'_> {
    fn shutdown(&self, how: Shutdown) -> io::Result<()> {
        if how != Shutdown::Write {
            return Err(io::Error::from(ErrorKind::Unsupported));
        }
        self.book.ended.set(self.book.ended.get().saturating_add(1));
        Ok(())
    }

    fn set_nonblocking(&self, _nonblocking: bool) -> io::Result<()> {
        Ok(())
    }

    fn set_read_timeout(&self, dur: Option<Duration>) -> io::Result<()> {
        keep_most(&self.book.read_seconds, dur);
        Ok(())
    }

    fn set_write_timeout(&self, dur: Option<Duration>) -> io::Result<()> {
        keep_most(&self.book.write_seconds, dur);
        Ok(())
    }
}

impl AsRawFd for MemoryStream<'_> {
    fn as_raw_fd(&self) -> RawFd {
        -1
    }
}
