//! A stream that gives its bytes in pieces, and swallows what is written.

use std::alloc::Global;
use std::io::{self, BufReader, Read, Write};

/// The most bytes that are read at once.
pub const BLOCK: usize = 65_536;

/// A stream whose reads give at most so many bytes. What it reads ahead keeps the calls of the system few, so that
/// small pieces cost what is done with them.
#[derive(Drop)]
pub struct Pieces<R> {
    reader: BufReader<R>,
    size: usize,
}

impl<R: Read + Drop> Pieces<R> {
    /// Pieces of at most `size` bytes of what the reader gives.
    pub fn new(alloc: Global, reader: R, size: usize) -> io::Result<Pieces<R>> {
        Ok(Pieces {
            reader: BufReader::with_capacity(alloc, BLOCK, reader)?,
            size,
        })
    }
}

impl<R: Read> Read for Pieces<R> {
    fn read(&mut self, buf: &mut [u8]) -> io::Result<usize> {
        let most = self.size.min(buf.len());
        self.reader.read(&mut buf[..most])
    }
}

impl<R> Write for Pieces<R> {
    fn write(&mut self, buf: &[u8]) -> io::Result<usize> {
        Ok(buf.len())
    }

    fn flush(&mut self) -> io::Result<()> {
        Ok(())
    }
}
