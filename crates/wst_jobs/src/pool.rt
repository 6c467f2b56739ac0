//! Payloads from a pool, as bytes and as digits, plain and under one masking key.

use crate::chance::Chance;
use std::alloc::{AllocError, Global};

/// The bytes of a pool, a multiple of 12.
pub const POOL: usize = 196_608;

/// What payloads are made of.
#[derive(Clone, Copy)]
pub enum Fill {
    /// Bytes of all values.
    Binary,
    /// Letters and spaces of ASCII.
    Ascii,
    /// Letters of three bytes each.
    Wide,
}

/// Payloads of one filling: each payload is a part of the pool.
#[derive(Drop)]
pub struct Pool {
    plain: Vec<u8>,
    masked: Vec<u8>,
    plain_digits: Vec<u8>,
    masked_digits: Vec<u8>,
}

/// How a frame is written.
#[derive(Clone, Copy)]
pub struct Writing {
    /// Masked with the pool's key, as a client's.
    pub masked: bool,
    /// As digits, two a byte.
    pub digits: bool,
}

impl Pool {
    /// A pool under a masking key.
    pub fn new(
        alloc: Global,
        fill: Fill,
        key: [u8; 4],
        chance: &mut Chance,
    ) -> Result<Pool, AllocError> {
        let mut pool = Pool {
            plain: fill.bytes(alloc, chance)?,
            masked: Vec::new(alloc),
            plain_digits: Vec::new(alloc),
            masked_digits: Vec::new(alloc),
        };
        for (place, byte) in pool.plain.as_slice().iter().enumerate() {
            pool.masked.push(*byte ^ key[place % 4])?;
        }
        push_digits(&mut pool.plain_digits, pool.plain.as_slice())?;
        push_digits(&mut pool.masked_digits, pool.masked.as_slice())?;
        Ok(pool)
    }

    /// Puts the payload of so many bytes at a place, a multiple of 4, behind others.
    pub fn put(
        &self,
        place: usize,
        len: usize,
        writing: Writing,
        out: &mut Vec<u8>,
    ) -> Result<(), AllocError> {
        let (bytes, width) = match (writing.masked, writing.digits) {
            (false, false) => (&self.plain, 1),
            (true, false) => (&self.masked, 1),
            (false, true) => (&self.plain_digits, 2),
            (true, true) => (&self.masked_digits, 2),
        };
        let begin = place.saturating_mul(width);
        let end = begin.saturating_add(len.saturating_mul(width));
        let payload = bytes.as_slice().get(begin..end).unwrap_or(&[]);
        out.extend_from_slice(payload)?;
        Ok(())
    }
}

impl Fill {
    /// The bytes of a pool.
    pub fn bytes(self, alloc: Global, chance: &mut Chance) -> Result<Vec<u8>, AllocError> {
        let mut bytes = Vec::new(alloc);
        for place in 0..POOL / 3 {
            let letters = match self {
                Fill::Binary => [chance.byte(), chance.byte(), chance.byte()],
                Fill::Ascii => [letter(chance), letter(chance), space_at(place)],
                Fill::Wide => [0xe3, 0x81, 0x81 + chance.below(60) as u8],
            };
            bytes.extend_from_slice(&letters)?;
        }
        Ok(bytes)
    }

    /// A number of bytes that ends a character, and is at most `len`.
    pub fn whole(self, len: usize) -> usize {
        match self {
            Fill::Binary | Fill::Ascii => len,
            Fill::Wide => len.saturating_sub(len % 3),
        }
    }
}

/// A small letter.
fn letter(chance: &mut Chance) -> u8 {
    b'a' + chance.below(26) as u8
}

/// A letter at most places, and a space at each third.
fn space_at(place: usize) -> u8 {
    if place % 3 == 0 { b' ' } else { b'e' }
}

/// The digits of half a byte.
static DIGITS: [u8; 16] = *b"0123456789abcdef";

/// Puts the digits of bytes behind others.
pub fn push_digits(out: &mut Vec<u8>, bytes: &[u8]) -> Result<(), AllocError> {
    for byte in bytes {
        out.push(DIGITS[(*byte / 16) as usize])?;
        out.push(DIGITS[(*byte % 16) as usize])?;
    }
    Ok(())
}
