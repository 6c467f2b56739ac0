//! Making a stream as a client sends it.

use anyhow::{Context, Result};
use std::alloc::{AllocError, Global};
use std::io::Write;
use ws_session::{Kind, Limits, SendFault, Session};
use ws_wire::Role;

/// The key of the first frame.
const FIRST_KEY: u32 = 0x37fa_213d;

/// What a payload is filled with.
#[derive(Clone, Copy)]
pub enum Fill {
    /// Bytes of all values.
    Binary,
    /// Letters of one byte.
    Text,
    /// Greek letters, of two bytes each.
    Greek,
    /// Bytes of all values, of pings.
    Ping,
}

impl Fill {
    /// The filling that a word names.
    pub fn from_word(word: &str) -> Option<Fill> {
        match word {
            "binary" => Some(Fill::Binary),
            "text" => Some(Fill::Text),
            "greek" => Some(Fill::Greek),
            "ping" => Some(Fill::Ping),
            _ => None,
        }
    }

    /// Puts a frame that a client sends: a message of one frame, or a ping.
    fn put(
        self,
        client: &mut Session,
        payload: &[u8],
        key: [u8; 4],
        frame: &mut Vec<u8>,
    ) -> Result<(), SendFault> {
        match self {
            Fill::Binary => client.begin(Kind::Binary, payload, true, key, frame),
            Fill::Text | Fill::Greek => client.begin(Kind::Text, payload, true, key, frame),
            Fill::Ping => client.ping(payload, key, frame),
        }
    }

    /// The byte at this place of a payload.
    fn byte(self, place: usize) -> u8 {
        match self {
            Fill::Binary | Fill::Ping => (place % 256) as u8,
            Fill::Text => b'a' + (place % 26) as u8,
            // The letters U+03B1 to U+03BF.
            Fill::Greek if place % 2 == 0 => 0xce,
            Fill::Greek => 0xb1 + (place / 2 % 15) as u8,
        }
    }

    /// A payload of so many bytes.
    fn payload(self, alloc: Global, len: usize) -> Result<Vec<u8>, AllocError> {
        let mut payload = Vec::new(alloc);
        for place in 0..len {
            payload.push(self.byte(place))?;
        }
        Ok(payload)
    }
}

/// Writes so many messages or pings of `len` bytes, each in one frame with a key of its own, and a close frame.
pub fn make<W: Write>(
    alloc: Global,
    fill: Fill,
    len: usize,
    count: u64,
    output: &mut W,
) -> Result<()> {
    // It takes nothing.
    let limits = Limits::new(1).context("bad limits")?;
    let mut client = Session::new(alloc, Role::Client, limits);
    let payload = fill.payload(alloc, len)?;
    let mut frame = Vec::new(alloc);
    let mut key = FIRST_KEY;
    for _ in 0..count {
        frame.clear();
        fill.put(&mut client, &payload, key.to_be_bytes(), &mut frame)?;
        output.write_all(&frame)?;
        key = key.wrapping_mul(1_664_525).wrapping_add(1_013_904_223);
    }
    frame.clear();
    client.close(None, key.to_be_bytes(), &mut frame)?;
    output.write_all(&frame)?;
    Ok(())
}
