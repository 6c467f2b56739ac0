//! A stream that does what a list says, and notes it.

ghost use Rattle.std.specs.Prelude.{◌≡◌, ◌<◌, length};
ghost use Rattle.ws_loops.specs.Deeds.{FitsTryRead, FitsTryWrite};

use crate::row_fault::RowFault;
use std::alloc::Global;
use std::collections::VecDeque;
use std::fmt::Write;
use ws_formats::read_hex;
use ws_loops::{NonBlocking, TryRead, TryWrite};

/// What a read finds.
#[derive(Drop)]
pub enum Found {
    Bytes(Vec<u8>),
    Ended,
    Failed,
    NotReady,
}

/// What comes of a write.
#[derive(Clone, Copy)]
pub enum Given {
    Takes(usize),
    Failed,
    NotReady,
}

/// Each read finds the next thing of a list: bytes, of which it takes as many as there is room for, or something else;
/// behind the last one the stream has ended. Each write has the next outcome of another list; behind the last one all
/// is taken. What it did is noted: `did` all, and `said` what its machine is to be told.
#[derive(Drop)]
pub struct ListedStream {
    pub found: VecDeque<Found>,
    pub given: VecDeque<Given>,
    pub did: String,
    pub said: String,
    pub written: Vec<u8>,
}

impl ListedStream {
    /// Nothing was asked of it.
    pub fn new(alloc: Global, found: VecDeque<Found>, given: VecDeque<Given>) -> ListedStream {
        ListedStream {
            found,
            given,
            did: String::new(alloc),
            said: String::new(alloc),
            written: Vec::new(alloc),
        }
    }

    /// Notes what it did, of which its machine is to be told. Where memory runs out, the row differs.
    fn note(&mut self, word: &str) {
        let _ = self.did.push_str(word);
        let _ = self.said.push_str(word);
    }

    /// The same, of so many bytes.
    fn note_count(&mut self, word: &str, count: usize) {
        let _ = write!(&mut self.did, " {word}={count}");
        let _ = write!(&mut self.said, " {word}={count}");
    }

    /// These bytes are found: as many as there is room for, and the rest by the next read.
    fn give(&mut self, bytes: Vec<u8>, room: &mut [u8]) -> TryRead
        requires { 0 < length room.old }
        ensures fits { FitsTryRead (length room.new) result }
        ensures len { length room.new ≡ length room.old }
    {
        let count = bytes.len().min(room.len());
        if count == 0 {
            return TryRead::NotReady;
        }
        room[..count].copy_from_slice(&bytes.as_slice()[..count]);
        if count < bytes.len() {
            self.keep_rest(&bytes.as_slice()[count..]);
        }
        self.note_count("came", count);
        TryRead::Came(count)
    }

    /// These bytes are found by the next read.
    fn keep_rest(&mut self, bytes: &[u8]) {
        if let Ok(rest) = bytes.to_vec(*self.did.allocator()) {
            let _ = self.found.push_front(Found::Bytes(rest));
        }
    }

    /// So many of the bytes are taken, at least one.
    fn take(&mut self, bytes: &[u8], most: usize) -> TryWrite
        requires { 0 < length bytes.now }
        ensures { FitsTryWrite (length bytes.now) result }
    {
        let count = bytes.len().min(most);
        if count == 0 || self.written.extend_from_slice(&bytes[..count]).is_err() {
            return TryWrite::Failed;
        }
        self.note_count("took", count);
        TryWrite::Taken(count)
    }
}

impl NonBlocking for ListedStream {
    ghost use Rattle.std.specs.Prelude.{⊤};

    ghost did = { λ old new deeds. ⊤ };

    fn try_read(&mut self, room: &mut [u8]) -> TryRead {
        match self.found.pop_front() {
            None | Some(Found::Ended) => {
                self.note(" ended");
                TryRead::Ended
            }
            Some(Found::Bytes(bytes)) => self.give(bytes, room),
            Some(Found::Failed) => {
                self.note(" read_failed");
                TryRead::Failed
            }
            Some(Found::NotReady) => {
                let _ = self.did.push_str(" none");
                TryRead::NotReady
            }
        }
    }

    fn try_write(&mut self, bytes: &[u8]) -> TryWrite {
        match self.given.pop_front() {
            None => self.take(bytes, usize::MAX),
            Some(Given::Takes(most)) => self.take(bytes, most),
            Some(Given::Failed) => {
                self.note(" write_failed");
                TryWrite::Failed
            }
            Some(Given::NotReady) => {
                let _ = self.did.push_str(" full");
                TryWrite::NotReady
            }
        }
    }

    fn end_direction(&mut self) {
        self.note(" direction_ended");
    }
}

/// The list of words, parted by commas: hexadecimal bytes, `ended`, `failed` or `none`; `-` has none.
pub fn found_by(alloc: Global, words: &str) -> Result<VecDeque<Found>, RowFault> {
    let mut found = VecDeque::new(alloc);
    if words == "-" {
        return Ok(found);
    }
    for word in words.split(',') {
        found.push_back(one_found(alloc, word)?)?;
    }
    Ok(found)
}

/// What a word says that a read finds.
fn one_found(alloc: Global, word: &str) -> Result<Found, RowFault> {
    match word {
        "ended" => Ok(Found::Ended),
        "failed" => Ok(Found::Failed),
        "none" => Ok(Found::NotReady),
        _ => {
            let bytes = read_hex(alloc, word.as_bytes())?;
            Ok(Found::Bytes(bytes.into_vec()))
        }
    }
}

/// The list of words, parted by commas: how many bytes are taken, `failed` or `none`; `-` has none.
pub fn given_by(alloc: Global, words: &str) -> Result<VecDeque<Given>, RowFault> {
    let mut given = VecDeque::new(alloc);
    if words == "-" {
        return Ok(given);
    }
    for word in words.split(',') {
        given.push_back(one_given(word)?)?;
    }
    Ok(given)
}

/// What a word says that comes of a write.
fn one_given(word: &str) -> Result<Given, RowFault> {
    match word {
        "failed" => Ok(Given::Failed),
        "none" => Ok(Given::NotReady),
        _ => match word.parse::<usize>() {
            Ok(count) => Ok(Given::Takes(count)),
            Err(_) => Err(RowFault::NotARow),
        },
    }
}
