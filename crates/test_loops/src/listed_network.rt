//! A network whose addresses take connections as a list says.

ghost use Rattle.std.specs.Prelude.{◌≡◌};

use crate::listed_stream::ListedStream;
use crate::lists::stream_by;
use std::alloc::{AllocError, Global};
use std::fmt::Write;
use ws_loops::{Listener, TryAccept};
use ws_networks::{Network, Progress};

/// Why a connection is not made, or no client comes.
#[derive(Clone, Copy)]
pub enum Miss {
    /// The name was not found.
    NotFound,
    /// The connection to the address of this number was not begun.
    NotBegun(usize),
    /// It has failed.
    Failed(usize),
    /// The address of this number can't be listened at.
    NotBound(usize),
    /// No client can be taken.
    NotAccepted,
}

/// What a connection to one address does, and its stream.
#[derive(Clone, Copy)]
pub struct Try<'a> {
    pub word: &'a str,
    pub stream: &'a str,
}

/// A connection that was begun for a place, and how often it was asked how far it has come.
#[derive(Clone, Copy)]
struct Begun {
    place: usize,
    address: usize,
    asked: usize,
}

/// Each word says what a connection to one address does: `b` that it is not begun, else a letter each time that it is
/// asked how far it has come, `p` for pending, `m` for made and `f` for failed, and behind the last one it is pending.
/// `x` says that the address can't be listened at. What was done is noted.
#[derive(Drop)]
pub struct ListedNetwork<'a> {
    alloc: Global,
    found: bool,
    tries: Vec<Try<'a>>,
    begun: Vec<Begun>,
    accepts: &'a str,
    clients: &'a [&'a str],
    at: usize,
    pub did: String,
}

impl<'a> ListedNetwork<'a> {
    /// One that has these addresses.
    pub fn of(alloc: Global, tries: Vec<Try<'a>>) -> ListedNetwork<'a> {
        ListedNetwork {
            alloc,
            found: true,
            tries,
            begun: Vec::new(alloc),
            accepts: "",
            clients: &[],
            at: 0,
            did: String::new(alloc),
        }
    }

    /// The words, parted by commas; `-` has no address, and of `!` the look-up fails. Each connection is a stream of
    /// this word; a listener has these letters and the streams of these words.
    pub fn new(
        alloc: Global,
        words: &'a str,
        stream: &'a str,
        accepts: &'a str,
        clients: &'a [&'a str],
    ) -> Result<ListedNetwork<'a>, AllocError> {
        let mut tries = Vec::new(alloc);
        if words != "-" && words != "!" {
            for word in words.split(',') {
                tries.push(Try { word, stream })?;
            }
        }
        Ok(ListedNetwork {
            alloc,
            found: words != "!",
            tries,
            begun: Vec::new(alloc),
            accepts,
            clients,
            at: 0,
            did: String::new(alloc),
        })
    }

    /// What is found of a connection to this address, where it was asked for so often.
    fn mark(&self, address: usize, asked: usize) -> Option<u8> {
        let found = self.tries.get(address)?;
        let mark = found.word.as_bytes().get(asked)?;
        Some(*mark)
    }

    /// Asks for the connection that was begun last for this place: its address, and what is found of it.
    fn asked(&mut self, at: usize) -> Option<(usize, Option<u8>)> {
        let mut found = None;
        for begun in self.begun.iter_mut() {
            if begun.place == at {
                found = Some((begun.address, begun.asked));
                begun.asked = begun.asked.saturating_add(1);
            }
        }
        let (address, asked) = found?;
        Some((address, self.mark(address, asked)))
    }

    /// A connection to this address is begun for this place, in place of one that was.
    fn remember(&mut self, place: usize, address: usize) -> Result<(), AllocError> {
        let next = Begun {
            place,
            address,
            asked: 0,
        };
        for begun in self.begun.iter_mut() {
            if begun.place == place {
                *begun = next;
                return Ok(());
            }
        }
        self.begun.push(next)?;
        Ok(())
    }

    /// The stream of a connection to this address.
    fn stream(&self, address: usize) -> Option<ListedStream> {
        let found = self.tries.get(address)?;
        match stream_by(self.alloc, found.stream) {
            Ok(stream) => Some(stream),
            Err(_) => None,
        }
    }

    /// Notes what was done. Where memory runs out, the row differs.
    fn note(&mut self, word: &str, number: usize) {
        let _ = write!(&mut self.did, " {word}={number}");
    }

    /// The numbers of all addresses.
    fn numbers(&self, alloc: Global) -> Result<Vec<usize>, AllocError> {
        let mut numbers = Vec::new(alloc);
        for number in 0..self.tries.len() {
            numbers.push(number)?;
        }
        Ok(numbers)
    }
}

impl<'a> Network for ListedNetwork<'a> {
    ghost use Rattle.std.specs.Prelude.{⊤};

    type Address = usize;

    type Stream = ListedStream;

    type Listener = ListedListener<'a>;

    type Miss = Miss;

    ghost did = { λ old new deeds. ⊤ };

    fn look_up(&mut self, alloc: Global, _name: &str) -> Result<Vec<usize>, Miss> {
        let count = self.tries.len();
        self.note("found", count);
        if !self.found {
            return Err(Miss::NotFound);
        }
        match self.numbers(alloc) {
            Ok(numbers) => Ok(numbers),
            Err(_) => Err(Miss::NotFound),
        }
    }

    fn begin(&mut self, address: usize, at: usize, _now: u64) -> Result<ListedStream, Miss> {
        self.note("begin", address);
        if self.mark(address, 0) == Some(b'b') || self.remember(at, address).is_err() {
            return Err(Miss::NotBegun(address));
        }
        match self.stream(address) {
            Some(stream) => Ok(stream),
            None => Err(Miss::NotBegun(address)),
        }
    }

    fn progress(&mut self, _stream: &ListedStream, at: usize) -> Progress<Miss> {
        let Some((address, mark)) = self.asked(at) else {
            return Progress::Pending;
        };
        self.note("ask", address);
        match mark {
            Some(b'm') => Progress::Made,
            Some(b'f') => Progress::Failed(Miss::Failed(address)),
            _ => Progress::Pending,
        }
    }

    fn bind(&mut self, address: usize) -> Result<ListedListener<'a>, Miss> {
        self.at = address;
        self.note("bind", address);
        if self.mark(address, 0) == Some(b'x') {
            return Err(Miss::NotBound(address));
        }
        Ok(ListedListener {
            alloc: self.alloc,
            accepts: self.accepts,
            asked: 0,
            clients: self.clients,
            given: 0,
        })
    }

    fn address_of(&mut self, _listener: &ListedListener<'a>) -> Result<usize, Miss> {
        let at = self.at;
        self.note("named", at);
        Ok(at)
    }
}

/// Each letter says what it does when it is asked: `c` that a client comes, with the stream of the next word, `l` that
/// one is lost, `f` that it fails, and `n`, as behind the last letter, that there is no client.
#[derive(Drop)]
pub struct ListedListener<'a> {
    alloc: Global,
    accepts: &'a str,
    asked: usize,
    clients: &'a [&'a str],
    given: usize,
}

impl<'a> ListedListener<'a> {
    /// Whether there is a word for one client more.
    pub fn has_clients(&self) -> bool {
        self.given < self.clients.len()
    }

    /// The word of the client that came last.
    pub fn word(&self) -> Option<&'a str> {
        let word = self.clients.get(self.given.checked_sub(1)?)?;
        Some(*word)
    }

    /// The stream of the next client.
    fn next_client(&mut self) -> TryAccept<ListedStream, Miss> {
        let Some(word) = self.clients.get(self.given) else {
            return TryAccept::NotReady;
        };
        match stream_by(self.alloc, word) {
            Ok(stream) => {
                self.given = self.given.saturating_add(1);
                TryAccept::Client(stream)
            }
            Err(_) => TryAccept::Failed(Miss::NotAccepted),
        }
    }
}

impl Listener for ListedListener<'_> {
    ghost use Rattle.std.specs.Prelude.{⊤};

    type Client = ListedStream;

    type Miss = Miss;

    ghost did = { λ old new deeds. ⊤ };

    fn try_accept(&mut self, _at: usize) -> TryAccept<ListedStream, Miss> {
        let mark = self.accepts.as_bytes().get(self.asked);
        self.asked = self.asked.saturating_add(1);
        match mark {
            Some(b'c') => self.next_client(),
            Some(b'l') => TryAccept::Lost(Miss::NotAccepted),
            Some(b'f') => TryAccept::Failed(Miss::NotAccepted),
            _ => TryAccept::NotReady,
        }
    }
}
