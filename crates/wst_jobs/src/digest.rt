//! A digest of bytes, whatever the cut in which they come.

use std::fmt;
use std::io::{self, Write};

/// The factor of a step, an odd number without pattern.
const FACTOR: u64 = 0x9e37_79b9_7f4a_7c15;

/// What is kept of bytes: their number, and a mix of their words of eight.
#[derive(Drop)]
pub struct Digest {
    mix: u64,
    count: u64,
    /// The bytes of the word under way, the first one highest.
    word: u64,
    /// How many they are.
    filled: u32,
}

impl Digest {
    /// The digest of no bytes.
    pub fn new() -> Digest {
        Digest {
            mix: FACTOR,
            count: 0,
            word: 0,
            filled: 0,
        }
    }

    /// Takes bytes.
    pub fn add(&mut self, bytes: &[u8]) {
        self.count = self.count.wrapping_add(bytes.len() as u64);
        let open = if self.filled == 0 {
            0
        } else {
            8usize.saturating_sub(self.filled as usize)
        };
        let (front, rest) = bytes.split_at(open.min(bytes.len()));
        self.add_bytes(front);
        self.add_words(rest);
    }

    /// Takes bytes where no word is under way.
    fn add_words(&mut self, bytes: &[u8]) {
        let (words, rest) = bytes.as_chunks::<8>();
        for word in words {
            self.add_word(u64::from_be_bytes(*word));
        }
        self.add_bytes(rest);
    }

    /// Takes bytes one by one.
    fn add_bytes(&mut self, bytes: &[u8]) {
        for byte in bytes {
            self.word = (self.word << 8) | u64::from(*byte);
            self.filled = self.filled.wrapping_add(1);
            if self.filled == 8 {
                let word = self.word;
                self.add_word(word);
                self.word = 0;
                self.filled = 0;
            }
        }
    }

    /// Takes a word.
    fn add_word(&mut self, word: u64) {
        self.mix = (self.mix.rotate_left(23) ^ word).wrapping_mul(FACTOR);
    }
}

impl Write for Digest {
    fn write(&mut self, buf: &[u8]) -> io::Result<usize> {
        self.add(buf);
        Ok(buf.len())
    }

    fn flush(&mut self) -> io::Result<()> {
        Ok(())
    }
}

impl fmt::Display for Digest {
    fn fmt<W: fmt::Write>(&self, f: &mut fmt::Formatter<W>) -> fmt::Result {
        let end = (self.mix ^ self.word).wrapping_mul(FACTOR);
        write!(f, "{end:016x}:{}", self.count)
    }
}
