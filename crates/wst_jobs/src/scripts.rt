//! Scripts of calls, of moves and of steps by chance, as text.

use crate::chance::Chance;
use crate::frames::{Frames, Mix, Part};
use crate::pool::Writing;
use std::alloc::{AllocError, Global};

/// What a client sent, as digits.
const CLIENTS: Writing = Writing {
    masked: true,
    digits: true,
};

/// How a stream is cut into pieces.
#[derive(Clone, Copy)]
pub enum Cut {
    /// Anywhere, into pieces of up to 600 bytes.
    Anywhere,
    /// Into single bytes.
    Bytes,
}

/// A script of `session` whose takes have a client's stream of at least so many bytes. Between them the server sends
/// frames of its own, unless it is an echo.
pub fn calls(
    alloc: Global,
    frames: &Frames,
    mix: Mix,
    (size, cut, sends): (usize, Cut, bool),
    chance: &mut Chance,
) -> Result<Vec<u8>, AllocError> {
    let mut stream = Vec::new(alloc);
    for _ in 0..size {
        if stream.len() / 2 >= size {
            break;
        }
        let part = frames.part(mix, chance);
        frames.put_cut(&part, CLIENTS, chance, &mut stream)?;
    }
    frames.put_close(CLIENTS, &mut stream)?;
    let mut text = Vec::new(alloc);
    let mut rest = stream.as_slice();
    for _ in 0..stream.len() {
        if rest.is_empty() {
            break;
        }
        let piece = match cut {
            Cut::Anywhere => 2 + 2 * chance.below(600),
            Cut::Bytes => 2,
        };
        let (digits, after) = rest.split_at(piece.min(rest.len()));
        text.extend_from_slice(b"take ")?;
        text.extend_from_slice(digits)?;
        text.extend_from_slice(b" -\n")?;
        rest = after;
        if sends && chance.below(4) == 0 {
            put_send(frames, &frames.part(mix, chance), b"", &mut text)?;
        }
    }
    text.extend_from_slice(b"end\n")?;
    Ok(text)
}

/// Puts the line of a send: of an end, whose word is given with a space behind it, or of the only end.
fn put_send(
    frames: &Frames,
    part: &Part,
    end: &[u8],
    text: &mut Vec<u8>,
) -> Result<(), AllocError> {
    if part.is_message() {
        text.extend_from_slice(b"begin ")?;
        text.extend_from_slice(end)?;
        text.extend_from_slice(part.word())?;
        text.extend_from_slice(b" fin ")?;
    } else {
        text.extend_from_slice(part.word())?;
        text.push(b' ')?;
        text.extend_from_slice(end)?;
    }
    frames.put_payload(part, text)?;
    text.push(b' ')?;
    frames.put_key(text)?;
    text.push(b'\n')?;
    Ok(())
}

/// A script of `pair` of at least so many bytes: both ends send, and what they sent arrives cut anywhere.
pub fn moves(
    alloc: Global,
    frames: &Frames,
    mix: Mix,
    size: usize,
    chance: &mut Chance,
) -> Result<Vec<u8>, AllocError> {
    let mut text = Vec::new(alloc);
    for _ in 0..size {
        if text.len() >= size {
            break;
        }
        let (sender, receiver): (&[u8], &[u8]) = if chance.below(3) > 0 {
            (b"client ", b"server ")
        } else {
            (b"server ", b"client ")
        };
        put_send(frames, &frames.part(mix, chance), sender, &mut text)?;
        for _ in 0..1 + chance.below(3) {
            put_arrival(frames, receiver, 1 + chance.below(600), &mut text)?;
        }
    }
    text.extend_from_slice(b"close client 1000 - ")?;
    frames.put_key(&mut text)?;
    text.push(b'\n')?;
    put_arrival(frames, b"server ", 4_000_000_000, &mut text)?;
    put_arrival(frames, b"client ", 4_000_000_000, &mut text)?;
    Ok(text)
}

/// Puts the line of an arrival of so many bytes.
fn put_arrival(
    frames: &Frames,
    end: &[u8],
    count: usize,
    text: &mut Vec<u8>,
) -> Result<(), AllocError> {
    text.extend_from_slice(b"arrive ")?;
    text.extend_from_slice(end)?;
    put_number(count, text)?;
    text.push(b' ')?;
    frames.put_key(text)?;
    text.push(b'\n')?;
    Ok(())
}

/// Puts a number in decimal digits.
fn put_number(number: usize, text: &mut Vec<u8>) -> Result<(), AllocError> {
    let mut digits = [b'0'; 10];
    let mut left = number;
    let mut begin = digits.len();
    for (place, digit) in digits.iter_mut().enumerate().rev() {
        if left > 0 || begin == 10 {
            *digit = b'0' + (left % 10) as u8;
            left /= 10;
            begin = place;
        }
    }
    text.extend_from_slice(digits.get(begin..).unwrap_or(&digits))?;
    Ok(())
}

/// A script of steps of at least so many bytes, whose turns hold up to eight frames.
pub fn steps(
    alloc: Global,
    frames: &Frames,
    mix: Mix,
    size: usize,
    chance: &mut Chance,
) -> Result<Vec<u8>, AllocError> {
    let mut text = Vec::new(alloc);
    for _ in 0..size {
        if text.len() >= size {
            break;
        }
        for _ in 0..1 + chance.below(8) {
            let part = frames.part(mix, chance);
            text.extend_from_slice(part.word())?;
            text.push(b' ')?;
            frames.put_payload(&part, &mut text)?;
            text.push(b'\n')?;
        }
        text.extend_from_slice(b"wait\n")?;
    }
    text.extend_from_slice(b"close=1000\n")?;
    Ok(text)
}
