//! The words of a row: its settings, `NAME=VALUE`, in any order, and bytes.

use std::alloc::Global;
use test_row_frames::{RowFault, bytes_of, number_of};
use ws_frame::{Failing, Role};
use ws_session::Limits;

/// The value of the setting that begins so, if a word has it.
pub fn value_of<'a>(words: &[&'a str], name: &str) -> Option<&'a str> {
    for word in words {
        if let Some(value) = word.strip_prefix(name) {
            return Some(value);
        }
    }
    None
}

/// Whether a row asks for more than it would be answered.
pub fn asks_for(words: &[&str], name: &str) -> bool {
    words.contains(&name)
}

/// The number of a setting, or this one.
pub fn number_or(words: &[&str], name: &str, default: u64) -> Result<u64, RowFault> {
    match value_of(words, name) {
        Some(word) => number_of(word),
        None => Ok(default),
    }
}

/// Which calls of a device fail: `once:N`, `from:N`, or none where nothing is set.
pub fn failing_of(words: &[&str], name: &str) -> Result<Failing, RowFault> {
    let Some(value) = value_of(words, name) else {
        return Ok(Failing::Never);
    };
    let place = value_of(&[value], "once:");
    match (place, value_of(&[value], "from:")) {
        (Some(place), _) => Ok(Failing::Once(number_of(place)?)),
        (None, Some(place)) => Ok(Failing::From(number_of(place)?)),
        (None, None) => Err(RowFault::NotARow),
    }
}

/// The end from which a stream comes: `from=client`, or a server.
pub fn sender_of(words: &[&str]) -> Role {
    match value_of(words, "from=") {
        Some("client") => Role::Client,
        _ => Role::Server,
    }
}

/// The limit on messages of each session here.
pub fn limits() -> Result<Limits, RowFault> {
    Limits::new(1000).ok_or(RowFault::NotARow)
}

/// The pieces that words spell, settings left out.
pub fn pieces_of(alloc: Global, words: &[&str]) -> Result<Vec<Vec<u8>>, RowFault> {
    let mut pieces = Vec::new(alloc);
    for word in words {
        if !word.contains('=') && !word.starts_with('+') {
            pieces.push(bytes_of(alloc, word)?.into_vec())?;
        }
    }
    Ok(pieces)
}
