//! The words of a line that has few of them, kept in place.

ghost use Rattle.std.specs.Prelude.{◌≡◌, ◌<◌, length, map, MatchOption};
ghost use Rattle.ws_formats.specs.Reading.{CutsFirstWord};
ghost use Rattle.ws_formats.specs.Words.{words_of};

use memchr::memchr;
use std::marker::Model;

/// No line of a script of calls or moves has more words than this.
const MOST_WORDS: usize = 6;

/// The words of one line, kept in place: contracts see the list of them.
#[derive(Drop)]
pub struct FewWords<'a> {
    words: [&'a [u8]; MOST_WORDS],
    len: usize,
}

impl<'a> Model for FewWords<'a> {
    ghost use Rattle.std.specs.Prelude.{List, ℕ, take, ◌≤◌};
    ghost use Rattle.std.specs.Borrow.{Bor};

    ghost Value = { List (Bor (List ℕ)) };

    ghost view = { λ few. take few.len few.words };

    ghost invariant = { λ few. few.len ≤ 6 };
}

impl<'a> FewWords<'a> {
    /// The words, in their order.
    pub fn as_slice(&self) -> &[&'a [u8]]
        ensures { result.now ≡ self.now }
    {
        &self.words[..self.len]
    }
}

/// The words of a line, which are parted by one space. `None` where they are more than six.
pub fn few_words(line: &[u8]) -> Option<FewWords<'_>>
    ensures { MatchOption result (6 < length (words_of line.now))
        (λ few. map (λ w. w.now) few ≡ words_of line.now) }
{
    let mut words: [&[u8]; MOST_WORDS] = [&[]; MOST_WORDS];
    let mut len = 0;
    let mut rest = line;
    while let Some((word, after)) = cut_word(rest) {
        // The line has this word and one more at least.
        if len == MOST_WORDS - 1 {
            return None;
        }
        words[len] = word;
        len += 1;
        rest = after;
    }
    words[len] = rest;
    Some(FewWords {
        words,
        len: len + 1,
    })
}

/// The first word, and what stands behind its space. `None` where there is no space.
pub fn cut_word(line: &[u8]) -> Option<(&[u8], &[u8])>
    ensures { CutsFirstWord line.now result }
{
    let at = memchr(b' ', line)?;
    Some((&line[..at], &line[at + 1..]))
}
