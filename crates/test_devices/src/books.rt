//! What the network of a row does, and what came of it.

use crate::memory_net::Book;
use std::alloc::Global;
use std::io;
use std::io::ErrorKind;
use test_device_calls::{asks_for, failing_of, number_or, value_of};
use test_row_frames::{RowFault, put, put_hex, put_number};
use ws_frame::Failing;

/// A network whose connections bring these bytes: `net-reads=`, `net-writes=` and `net-waits=` say which calls of each
/// connection fail or wait in vain, `refused=` which connections are refused, `refusal=` how, `deaf=` why nothing can
/// be listened at, and `+nameless` that a listener doesn't know its address. Without `net=` each connection is refused.
/// `net-holds=` says how many bytes a connection that doesn't wait takes before a byte of it is read.
pub fn book_of<'a>(alloc: Global, words: &[&str], brought: &'a [u8]) -> Result<Book<'a>, RowFault> {
    let mut book = Book::new(alloc, brought);
    book.reads = failing_of(words, "net-reads=")?;
    book.writes = failing_of(words, "net-writes=")?;
    book.waits = failing_of(words, "net-waits=")?;
    let refused = match value_of(words, "net=") {
        Some(_) => failing_of(words, "refused=")?,
        None => Failing::From(1),
    };
    book.refused = (refused, refusal_of(words)?);
    book.deaf = match value_of(words, "deaf=") {
        Some(word) => Some(kind_of(word)?),
        None => None,
    };
    book.nameless = asks_for(words, "+nameless");
    book.holds = number_or(words, "net-holds=", u64::MAX)?;
    Ok(book)
}

/// How a connection is refused: by the number of the system, by its kind, or as most are.
fn refusal_of(words: &[&str]) -> Result<io::Error, RowFault> {
    let Some(word) = value_of(words, "refusal=") else {
        return Ok(io::Error::from(ErrorKind::ConnectionRefused));
    };
    match word.parse::<i32>() {
        Ok(number) => Ok(io::Error::from_raw_os_error(number)),
        Err(_) => Ok(io::Error::from(kind_of(word)?)),
    }
}

/// The kind of an error.
fn kind_of(word: &str) -> Result<ErrorKind, RowFault> {
    match word {
        "AddrInUse" => Ok(ErrorKind::AddrInUse),
        "AddrNotAvailable" => Ok(ErrorKind::AddrNotAvailable),
        "ConnectionAborted" => Ok(ErrorKind::ConnectionAborted),
        "ConnectionRefused" => Ok(ErrorKind::ConnectionRefused),
        "ConnectionReset" => Ok(ErrorKind::ConnectionReset),
        "HostUnreachable" => Ok(ErrorKind::HostUnreachable),
        "Interrupted" => Ok(ErrorKind::Interrupted),
        "InvalidInput" => Ok(ErrorKind::InvalidInput),
        "NetworkDown" => Ok(ErrorKind::NetworkDown),
        "NetworkUnreachable" => Ok(ErrorKind::NetworkUnreachable),
        "OutOfMemory" => Ok(ErrorKind::OutOfMemory),
        "PermissionDenied" => Ok(ErrorKind::PermissionDenied),
        "TimedOut" => Ok(ErrorKind::TimedOut),
        _ => Err(RowFault::NotARow),
    }
}

/// `+net`: how many connections were asked for, and ended from this side; `+net-reads`: how often all of them were
/// read; `+seconds`: for how long a connection, a read and a write were to wait; `+notices`: what was told of waits;
/// `+sent`: what was written to all of them.
pub fn put_book(words: &[&str], book: &Book<'_>, out: &mut String) -> Result<(), RowFault> {
    if asks_for(words, "+net") {
        let (asked, ended) = (book.asked.get(), book.ended.get());
        put_number(out, ", ", asked)?;
        put_number(out, " asked, ", ended)?;
        put(out, " ended")?;
    }
    if asks_for(words, "+net-reads") {
        put_number(out, ", ", book.read.get())?;
        put(out, " net reads")?;
    }
    if asks_for(words, "+seconds") {
        put_number(out, ", seconds ", book.connect_seconds.get())?;
        put_number(out, " ", book.read_seconds.get())?;
        put_number(out, " ", book.write_seconds.get())?;
    }
    if asks_for(words, "+notices") {
        match book.noted.try_borrow() {
            Ok(noted) => put_hex(out, ", notices ", noted.as_slice())?,
            Err(_) => return Err(RowFault::NotARow),
        }
    }
    if asks_for(words, "+sent") {
        match book.written.try_borrow() {
            Ok(written) => put_hex(out, ", sent ", written.as_slice())?,
            Err(_) => return Err(RowFault::NotARow),
        }
    }
    Ok(())
}
