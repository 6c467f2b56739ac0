//! Captures of connections by chance, as text.

use crate::chance::Chance;
use crate::frames::{Frames, Mix, Part};
use crate::pool::Writing;
use std::alloc::{AllocError, Global};

/// What a tester sent: masked, as digits.
const SENT: Writing = Writing {
    masked: true,
    digits: true,
};
/// What a server sent.
const GOT: Writing = Writing {
    masked: false,
    digits: true,
};

/// Which format a capture has.
#[derive(Clone, Copy)]
pub enum Format {
    One,
    Two,
}

/// The most frames of a turn that holds many.
const MANY: u64 = 1000;

/// Whose answers a capture has.
#[derive(Clone, Copy)]
pub enum Echo {
    /// Those of an echo.
    Right,
    /// Those of an echo that never answers a ping between two fragments.
    Faulty,
}

/// A capture of at least so many bytes: an echo answers each turn, with a message cut into fragments now and then.
pub fn capture(
    alloc: Global,
    frames: &Frames,
    mix: Mix,
    (format, echo): (Format, Echo),
    size: usize,
    chance: &mut Chance,
) -> Result<Vec<u8>, AllocError> {
    let mut text = begun(alloc, frames, format)?;
    let (mut sent, mut got) = (Vec::new(alloc), Vec::new(alloc));
    for _ in 0..size {
        if text.len() >= size {
            break;
        }
        put_exchange(frames, mix, echo, &mut sent, &mut got, chance)?;
        put_turn(format, sent.as_slice(), got.as_slice(), &mut text)?;
        sent.clear();
        got.clear();
    }
    end(alloc, frames, format, &mut text)?;
    Ok(text)
}

/// Puts what both ends send in a turn by chance.
fn put_exchange(
    frames: &Frames,
    mix: Mix,
    echo: Echo,
    sent: &mut Vec<u8>,
    got: &mut Vec<u8>,
    chance: &mut Chance,
) -> Result<(), AllocError> {
    let count = if chance.below(20) == 0 {
        1 + chance.below(MANY)
    } else {
        1 + chance.below(8)
    };
    for _ in 0..count {
        let part = frames.part(mix, chance);
        let between = frames.put_cut(&part, SENT, chance, sent)?;
        if let (Some(ping), Echo::Right) = (between, echo) {
            frames.put_answer(&ping, GOT, got)?;
        }
        frames.put_answer(&part, GOT, got)?;
    }
    Ok(())
}

/// A capture of so many pings, each of which is answered a turn after the one in which it was sent.
pub fn late_pongs(
    alloc: Global,
    frames: &Frames,
    count: usize,
    chance: &mut Chance,
) -> Result<Vec<u8>, AllocError> {
    let mut text = begun(alloc, frames, Format::Two)?;
    let mut late: Vec<Part> = Vec::new(alloc);
    let mut left = count;
    for _ in 0..count {
        if left == 0 {
            break;
        }
        let pings = (1 + chance.below(2000)).min(left);
        let (mut sent, mut got) = (Vec::new(alloc), Vec::new(alloc));
        for ping in &late {
            frames.put_answer(ping, GOT, &mut got)?;
        }
        late.clear();
        for _ in 0..pings {
            let ping = frames.ping(4, chance);
            frames.put(&ping, SENT, &mut sent)?;
            late.push(ping)?;
        }
        put_turn(Format::Two, sent.as_slice(), got.as_slice(), &mut text)?;
        left = left.saturating_sub(pings);
    }
    let mut got = Vec::new(alloc);
    for ping in &late {
        frames.put_answer(ping, GOT, &mut got)?;
    }
    put_turn(Format::Two, &[], got.as_slice(), &mut text)?;
    end(alloc, frames, Format::Two, &mut text)?;
    Ok(text)
}

/// The first lines of a capture.
fn begun(alloc: Global, frames: &Frames, format: Format) -> Result<Vec<u8>, AllocError> {
    let mut text = Vec::new(alloc);
    match format {
        Format::One => text.extend_from_slice(b"wst-capture 1\n")?,
        Format::Two => {
            text.extend_from_slice(b"wst-capture 2\nkey ")?;
            frames.put_key(&mut text)?;
            text.push(b'\n')?;
        }
    }
    Ok(text)
}

/// Puts the lines of a turn.
fn put_turn(format: Format, sent: &[u8], got: &[u8], text: &mut Vec<u8>) -> Result<(), AllocError> {
    if let Format::Two = format {
        text.extend_from_slice(b"turn\n")?;
    }
    put_line(b"> ", sent, text)?;
    put_line(b"< ", got, text)
}

/// Puts a line of digits, if there are any.
fn put_line(front: &[u8], digits: &[u8], text: &mut Vec<u8>) -> Result<(), AllocError> {
    if digits.is_empty() {
        return Ok(());
    }
    text.extend_from_slice(front)?;
    text.extend_from_slice(digits)?;
    text.push(b'\n')?;
    Ok(())
}

/// Puts a turn with a close frame and its answer, and the end.
fn end(
    alloc: Global,
    frames: &Frames,
    format: Format,
    text: &mut Vec<u8>,
) -> Result<(), AllocError> {
    let (mut sent, mut got) = (Vec::new(alloc), Vec::new(alloc));
    frames.put_close(SENT, &mut sent)?;
    frames.put_close(GOT, &mut got)?;
    put_turn(format, sent.as_slice(), got.as_slice(), text)?;
    text.extend_from_slice(b"end peer\n")?;
    Ok(())
}
