//! The words of a line, and those that name one of two things.

ghost use Rattle.std.specs.Prelude.{◌≡◌, map, IfOk};
ghost use Rattle.ws_formats.specs.Reading.{CutsFirstWord};
ghost use Rattle.ws_formats.specs.Words.{fin_word, words_of};
ghost use Rattle.ws_base.specs.Finding.{Finds};

use memchr::memchr;
use std::alloc::{AllocError, Global};

/// The words of a line, which are parted by one space.
pub fn words_of(alloc: Global, line: &[u8]) -> Result<Vec<&[u8]>, AllocError>
    ensures { IfOk result (λ words. map (λ w. w.now) words.items ≡ words_of line.now) }
{
    let mut words = Vec::new(alloc);
    let mut rest = line;
    while let Some((word, after)) = cut_word(rest) {
        words.push(word)?;
        rest = after;
    }
    words.push(rest)?;
    Ok(words)
}

/// The first word, and what stands behind its space. `None` where there is no space.
fn cut_word(line: &[u8]) -> Option<(&[u8], &[u8])>
    ensures { CutsFirstWord line.now result }
{
    let at = memchr(b' ', line)?;
    Some((&line[..at], &line[at + 1..]))
}

/// Whether a frame is the last of its message: `fin`, or `part` where others follow.
pub fn read_fin(word: &[u8]) -> Option<bool>
    ensures { Finds result (λ fin. word.now ≡ fin_word fin) }
{
    match word {
        b"fin" => Some(true),
        b"part" => Some(false),
        _ => None,
    }
}
