//! What one end of a connection sends, by chance: texts with accents, and messages of 64 KiB and 100 KB.

use crate::chance::Chance;
use crate::frames::{CLOSE, CONTINUATION, FIN, TEXT};
use crate::keyed::{Frame, Pools, put_close, put_frame};
use std::alloc::{AllocError, Global};
use ws_wire::Role;

/// The bytes of a frame whose length takes eight bytes: 64 KiB, and for a text the next whole letter.
const KIB_64: usize = 65_536;

const TEXT_KIB_64: usize = 65_544;

/// The bytes of a larger one.
const KB_100: usize = 100_000;

/// Frames of at least so many bytes, and a close frame.
pub fn long_stream(
    alloc: Global,
    pools: &Pools,
    sender: Role,
    size: usize,
    chance: &mut Chance,
) -> Result<Vec<u8>, AllocError> {
    let mut stream = Vec::new(alloc);
    for _ in 0..size {
        if stream.len() >= size {
            break;
        }
        put_frames(pools, sender, chance, &mut stream)?;
    }
    put_close(sender, chance, &mut stream)?;
    Ok(stream)
}

/// A few small frames, and what ends a connection: a close frame, or a frame that breaks a rule.
pub fn short_stream(
    pools: &Pools,
    sender: Role,
    chance: &mut Chance,
    out: &mut Vec<u8>,
) -> Result<(), AllocError> {
    for _ in 0..chance.below(12) {
        let frame = match chance.below(3) {
            0 => Frame::binary(chance.below(300), chance),
            1 => Frame::text(chance.below(300), chance),
            _ => Frame::ping(chance.below(126), chance),
        };
        pools.put(&frame, sender, chance, out)?;
    }
    put_end(sender, chance, out)
}

/// Puts a frame, or the frames of a message.
fn put_frames(
    pools: &Pools,
    sender: Role,
    chance: &mut Chance,
    out: &mut Vec<u8>,
) -> Result<(), AllocError> {
    let kind = chance.below(1000);
    let frame = match kind {
        0..800 => Frame::text(chance.below(1400), chance),
        800..900 => Frame::binary(chance.below(3000), chance),
        900..950 => Frame::ping(chance.below(126), chance),
        950..990 => Frame::pong(chance.below(126), chance),
        990..993 => Frame::text(TEXT_KIB_64, chance),
        993..996 => Frame::binary(KIB_64, chance),
        996..998 => Frame::text(KB_100, chance),
        _ => Frame::binary(KB_100, chance),
    };
    if kind < 100 {
        return pools.put_cut(&frame, sender, chance, out);
    }
    pools.put(&frame, sender, chance, out)
}

/// Puts what ends a connection.
fn put_end(sender: Role, chance: &mut Chance, out: &mut Vec<u8>) -> Result<(), AllocError> {
    let (first, payload): (u8, &[u8]) = match chance.below(10) {
        0 => (FIN | CLOSE, b""),
        1 => (FIN | CLOSE, b"\x03\xe9going away"),
        2 => (FIN | CLOSE, b"\x0b\xb8"),
        3 => (FIN | CLOSE, b"\x13\x87later"),
        // Faults: half a code, a code and a reason that may not stand, no text, a text that ends inside a letter,
        // nothing to continue.
        4 => (FIN | CLOSE, b"\x03"),
        5 => (FIN | CLOSE, b"\x03\xed"),
        6 => (FIN | CLOSE, b"\x03\xe8\xff"),
        7 => (FIN | TEXT, b"ab\xc3\x28"),
        8 => (FIN | TEXT, b"ab\xc3"),
        _ => (FIN | CONTINUATION, b"b"),
    };
    put_frame(first, payload, sender, chance, out)
}
