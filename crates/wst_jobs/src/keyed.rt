//! Frames of which each of a client's has a masking key of its own, as bytes.

use crate::accents::{GROUP, accented};
use crate::chance::Chance;
use crate::frames::{BINARY, CLOSE, CONTINUATION, FIN, PING, PONG, TEXT};
use crate::pool::Fill;
use std::alloc::{AllocError, Global};
use ws_wire::Role;

/// The places of a pool at which payloads begin, in steps of a group of letters: 100,608 bytes follow each.
const PLACES: u64 = 8_000;

/// What payloads are parts of.
#[derive(Drop)]
pub struct Pools {
    text: Vec<u8>,
    binary: Vec<u8>,
}

/// A frame: the first byte of its header, and its payload's part of a pool.
#[derive(Clone, Copy)]
pub struct Frame {
    first: u8,
    place: usize,
    len: usize,
    is_text: bool,
}

impl Frame {
    /// A text of about so many bytes, at most 100,608.
    pub fn text(len: usize, chance: &mut Chance) -> Frame {
        Frame {
            first: FIN | TEXT,
            place: chance.below(PLACES) * GROUP,
            len: len.saturating_sub(len % GROUP),
            is_text: true,
        }
    }

    /// A binary message of so many bytes, at most 100,608.
    pub fn binary(len: usize, chance: &mut Chance) -> Frame {
        Frame {
            first: FIN | BINARY,
            place: chance.below(PLACES) * GROUP,
            len,
            is_text: false,
        }
    }

    /// A ping of so many bytes.
    pub fn ping(len: usize, chance: &mut Chance) -> Frame {
        Frame {
            first: FIN | PING,
            ..Frame::binary(len, chance)
        }
    }

    /// A pong of so many bytes.
    pub fn pong(len: usize, chance: &mut Chance) -> Frame {
        Frame {
            first: FIN | PONG,
            ..Frame::binary(len, chance)
        }
    }

    /// What an echo answers to a ping or to a message.
    pub fn answer(&self) -> Frame {
        let first = if self.first == FIN | PING {
            FIN | PONG
        } else {
            self.first
        };
        Frame { first, ..*self }
    }
}

impl Pools {
    /// Texts with accents, and bytes of all values.
    pub fn new(alloc: Global, chance: &mut Chance) -> Result<Pools, AllocError> {
        Ok(Pools {
            text: accented(alloc, chance)?,
            binary: Fill::Binary.bytes(alloc, chance)?,
        })
    }

    /// Puts a frame that this end sends.
    pub fn put(
        &self,
        frame: &Frame,
        sender: Role,
        chance: &mut Chance,
        out: &mut Vec<u8>,
    ) -> Result<(), AllocError> {
        let pool = if frame.is_text {
            &self.text
        } else {
            &self.binary
        };
        let end = frame.place.saturating_add(frame.len);
        let payload = pool.as_slice().get(frame.place..end).unwrap_or(&[]);
        put_frame(frame.first, payload, sender, chance, out)
    }

    /// Puts a message as two frames, cut anywhere, with a ping of two bytes between them.
    pub fn put_cut(
        &self,
        frame: &Frame,
        sender: Role,
        chance: &mut Chance,
        out: &mut Vec<u8>,
    ) -> Result<(), AllocError> {
        let len = chance.below((frame.len as u64).max(1));
        let begin = Frame {
            first: frame.first ^ FIN,
            len,
            ..*frame
        };
        let end = Frame {
            first: FIN | CONTINUATION,
            place: frame.place.saturating_add(len),
            len: frame.len.saturating_sub(len),
            is_text: frame.is_text,
        };
        let ping = Frame::ping(2, chance);
        self.put(&begin, sender, chance, out)?;
        self.put(&ping, sender, chance, out)?;
        self.put(&end, sender, chance, out)
    }
}

/// Puts a close frame with the code 1000.
pub fn put_close(sender: Role, chance: &mut Chance, out: &mut Vec<u8>) -> Result<(), AllocError> {
    put_frame(FIN | CLOSE, &[0x03, 0xe8], sender, chance, out)
}

/// Puts a frame with this first byte and this payload. A client's has a new masking key.
pub fn put_frame(
    first: u8,
    payload: &[u8],
    sender: Role,
    chance: &mut Chance,
    out: &mut Vec<u8>,
) -> Result<(), AllocError> {
    let mask_bit = match sender {
        Role::Client => 0x80,
        Role::Server => 0,
    };
    out.push(first)?;
    put_len(payload.len(), mask_bit, out)?;
    match sender {
        Role::Client => {
            let key = chance.key();
            out.extend_from_slice(&key)?;
            let begin = out.len();
            out.extend_from_slice(payload)?;
            let (_, fresh) = out.as_mut_slice().split_at_mut(begin);
            mask_in_place(key, fresh);
        }
        Role::Server => out.extend_from_slice(payload)?,
    }
    Ok(())
}

/// Puts the shortest form of a length, with the bit that says whether the frame is masked.
fn put_len(len: usize, mask_bit: u8, out: &mut Vec<u8>) -> Result<(), AllocError> {
    if len < 126 {
        out.push(mask_bit | len as u8)?;
    } else if len < 65_536 {
        out.push(mask_bit | 126)?;
        out.extend_from_slice(&(len as u16).to_be_bytes())?;
    } else {
        out.push(mask_bit | 127)?;
        out.extend_from_slice(&(len as u64).to_be_bytes())?;
    }
    Ok(())
}

/// Masks a payload where it lies.
fn mask_in_place(key: [u8; 4], payload: &mut [u8]) {
    let [a, b, c, d] = key;
    let wide = u64::from_be_bytes([a, b, c, d, a, b, c, d]);
    let (words, rest) = payload.as_chunks_mut::<8>();
    for word in words {
        *word = (u64::from_be_bytes(*word) ^ wide).to_be_bytes();
    }
    for (place, byte) in rest.iter_mut().enumerate() {
        *byte ^= key[place % 4];
    }
}
