//! Frames by chance, as a client and a server send them.

use crate::chance::Chance;
use crate::pool::{Fill, Pool, Writing, push_digits};
use std::alloc::{AllocError, Global};

pub const CONTINUATION: u8 = 0x00;

pub const TEXT: u8 = 0x01;

pub const BINARY: u8 = 0x02;

pub const CLOSE: u8 = 0x08;

pub const PING: u8 = 0x09;

pub const PONG: u8 = 0x0a;

pub const FIN: u8 = 0x80;

/// The places of a pool at which payloads begin, in steps of 12 bytes: 65,536 bytes follow each.
const PLACES: u64 = 10_000;

/// What frames are made of.
#[derive(Drop)]
pub struct Frames {
    key: [u8; 4],
    binary: Pool,
    text: Pool,
    /// What the texts are made of.
    letters: Fill,
}

/// One frame, or the frames of one message.
#[derive(Clone, Copy)]
pub struct Part {
    /// The first byte of its header.
    first: u8,
    /// The place of its payload in its pool.
    place: usize,
    len: usize,
    is_text: bool,
}

/// How frames are mixed.
#[derive(Clone, Copy)]
pub enum Mix {
    /// Three quarters of text of 20 to 200 bytes, a tenth of pings, some binary of up to 4,000 bytes and, seldom, of up
    /// to 64 KiB.
    Traffic,
    /// Frames of up to 300 bytes: texts, some of them in fragments, binary, pings and pongs.
    Chat,
    /// Texts, binary and pings of at most 5 bytes.
    Tiny,
}

impl Frames {
    /// Frames with texts of these letters.
    pub fn new(alloc: Global, letters: Fill, chance: &mut Chance) -> Result<Frames, AllocError> {
        let key = chance.key();
        Ok(Frames {
            key,
            binary: Pool::new(alloc, Fill::Binary, key, chance)?,
            text: Pool::new(alloc, letters, key, chance)?,
            letters,
        })
    }

    /// A part by chance.
    pub fn part(&self, mix: Mix, chance: &mut Chance) -> Part {
        let kind = chance.below(1000);
        match mix {
            Mix::Traffic => match kind {
                0..750 => self.text_of(20 + chance.below(181), chance),
                750..850 => self.control(PING, chance),
                850..998 => self.binary_of(chance.below(4000), chance),
                _ => self.binary_of(chance.below(65_536), chance),
            },
            Mix::Chat => match kind {
                0..700 => self.text_of(chance.below(301), chance),
                700..850 => self.binary_of(chance.below(301), chance),
                850..950 => self.control(PING, chance),
                _ => self.control(PONG, chance),
            },
            Mix::Tiny => match kind {
                0..400 => self.text_of(chance.below(6), chance),
                400..800 => self.binary_of(chance.below(6), chance),
                _ => self.ping(chance.below(6), chance),
            },
        }
    }

    /// A text of about so many bytes.
    pub fn text_of(&self, len: usize, chance: &mut Chance) -> Part {
        Part {
            first: FIN | TEXT,
            place: chance.below(PLACES) * 12,
            len: self.letters.whole(len),
            is_text: true,
        }
    }

    /// A binary message of so many bytes.
    pub fn binary_of(&self, len: usize, chance: &mut Chance) -> Part {
        Part {
            first: FIN | BINARY,
            place: chance.below(PLACES) * 12,
            len,
            is_text: false,
        }
    }

    /// A ping of so many bytes.
    pub fn ping(&self, len: usize, chance: &mut Chance) -> Part {
        Part {
            first: FIN | PING,
            place: chance.below(PLACES) * 12,
            len,
            is_text: false,
        }
    }

    /// A ping or a pong with the payload that many programs send: none, or a few bytes.
    fn control(&self, opcode: u8, chance: &mut Chance) -> Part {
        let len = chance.below(17);
        Part {
            first: FIN | opcode,
            ..self.binary_of(len, chance)
        }
    }

    /// Puts the frame of a part.
    pub fn put(&self, part: &Part, writing: Writing, out: &mut Vec<u8>) -> Result<(), AllocError> {
        self.put_header(part.first, part.len, writing, out)?;
        let pool = if part.is_text {
            &self.text
        } else {
            &self.binary
        };
        pool.put(part.place, part.len, writing, out)
    }

    /// Puts a part, where a message may be cut into two fragments with a ping between them: that ping, if there is one.
    pub fn put_cut(
        &self,
        part: &Part,
        writing: Writing,
        chance: &mut Chance,
        out: &mut Vec<u8>,
    ) -> Result<Option<Part>, AllocError> {
        let is_control = part.first & 0x0f >= CLOSE;
        if is_control || part.len < 24 || chance.below(10) > 0 {
            self.put(part, writing, out)?;
            return Ok(None);
        }
        let len = 12 * (1 + chance.below(part.len as u64 / 24));
        let begin = Part {
            first: part.first ^ FIN,
            len,
            ..*part
        };
        let end = Part {
            first: FIN | CONTINUATION,
            place: part.place.saturating_add(len),
            len: part.len.saturating_sub(len),
            is_text: part.is_text,
        };
        let ping = self.ping(2, chance);
        self.put(&begin, writing, out)?;
        self.put(&ping, writing, out)?;
        self.put(&end, writing, out)?;
        Ok(Some(ping))
    }

    /// Puts what an echo answers to a part: a pong to a ping, nothing to a pong, and else the same message.
    pub fn put_answer(
        &self,
        part: &Part,
        writing: Writing,
        out: &mut Vec<u8>,
    ) -> Result<(), AllocError> {
        if part.first == FIN | PONG {
            return Ok(());
        }
        let first = if part.first == FIN | PING {
            FIN | PONG
        } else {
            part.first
        };
        self.put(&Part { first, ..*part }, writing, out)
    }

    /// Puts a close frame with the code 1000.
    pub fn put_close(&self, writing: Writing, out: &mut Vec<u8>) -> Result<(), AllocError> {
        self.put_header(FIN | CLOSE, 2, writing, out)?;
        let code: [u8; 2] = [0x03, 0xe8];
        let [a, b, ..] = self.key;
        let masked: [u8; 2] = [0x03 ^ a, 0xe8 ^ b];
        put_bytes(
            if writing.masked { &masked } else { &code },
            writing.digits,
            out,
        )
    }

    /// Puts a header with the shortest form of a length below 65,536.
    fn put_header(
        &self,
        first: u8,
        len: usize,
        writing: Writing,
        out: &mut Vec<u8>,
    ) -> Result<(), AllocError> {
        let (high, low) = ((len / 256 % 256) as u8, (len % 256) as u8);
        let [a, b, c, d] = self.key;
        let digits = writing.digits;
        match (writing.masked, len < 126) {
            (false, true) => put_bytes(&[first, low], digits, out),
            (false, false) => put_bytes(&[first, 126, high, low], digits, out),
            (true, true) => put_bytes(&[first, 0x80 | low, a, b, c, d], digits, out),
            (true, false) => put_bytes(&[first, 0x80 | 126, high, low, a, b, c, d], digits, out),
        }
    }

    /// The payload of a part as digits, or a dash for none.
    pub fn put_payload(&self, part: &Part, out: &mut Vec<u8>) -> Result<(), AllocError> {
        if part.len == 0 {
            out.push(b'-')?;
            return Ok(());
        }
        let writing = Writing {
            masked: false,
            digits: true,
        };
        let pool = if part.is_text {
            &self.text
        } else {
            &self.binary
        };
        pool.put(part.place, part.len, writing, out)
    }

    /// The masking key as digits.
    pub fn put_key(&self, out: &mut Vec<u8>) -> Result<(), AllocError> {
        push_digits(out, &self.key)
    }
}

impl Part {
    /// The word of its kind in scripts.
    pub fn word(&self) -> &'static [u8] {
        match self.first & 0x0f {
            TEXT => b"text",
            BINARY => b"binary",
            PING => b"ping",
            _ => b"pong",
        }
    }

    /// Whether it is a message.
    pub fn is_message(&self) -> bool {
        self.first & 0x0f < CLOSE
    }
}

/// Puts bytes, as they are or as digits.
fn put_bytes(bytes: &[u8], digits: bool, out: &mut Vec<u8>) -> Result<(), AllocError> {
    if digits {
        return push_digits(out, bytes);
    }
    out.extend_from_slice(bytes)?;
    Ok(())
}
