//! The words of a row.

use crate::row_fault::RowFault;
use std::alloc::Global;
use ws_base::Payload;
use ws_formats::{read_fin, read_hex, read_key, read_key_or_dash, read_u16, read_u32};
use ws_scripts::Expectation;
use ws_session::Limits;
use ws_wire::Role;

/// A number of at most 64 bits.
pub fn number_of(word: &str) -> Result<u64, RowFault> {
    match word.parse::<u64>() {
        Ok(number) => Ok(number),
        Err(_) => Err(RowFault::NotARow),
    }
}

/// A number of at most 8 bits.
pub fn small_number_of(word: &str) -> Result<u8, RowFault> {
    match word.parse::<u8>() {
        Ok(number) => Ok(number),
        Err(_) => Err(RowFault::NotARow),
    }
}

/// A close code.
pub fn code_of(word: &str) -> Result<u16, RowFault> {
    read_u16(word.as_bytes()).ok_or(RowFault::NotARow)
}

/// The most bytes of a message, whether or not there are such limits.
pub fn most_of(word: &str) -> Result<u32, RowFault> {
    read_u32(word.as_bytes()).ok_or(RowFault::NotARow)
}

/// The limits of messages of at most so many bytes.
pub fn limits_of(word: &str) -> Result<Limits, RowFault> {
    Limits::new(most_of(word)?).ok_or(RowFault::NotARow)
}

/// The limits of messages, and of frames, of at most so many bytes.
pub fn both_limits_of(max_message: &str, max_frame: &str) -> Result<Limits, RowFault> {
    let (max_message, max_frame) = (most_of(max_message)?, most_of(max_frame)?);
    Limits::with_frame(max_message, max_frame).ok_or(RowFault::NotARow)
}

/// `client` or `server`.
pub fn role_of(word: &str) -> Result<Role, RowFault> {
    match word {
        "client" => Ok(Role::Client),
        "server" => Ok(Role::Server),
        _ => Err(RowFault::NotARow),
    }
}

/// `echo` or `protocol`.
pub fn expectation_of(word: &str) -> Result<Expectation, RowFault> {
    match word {
        "echo" => Ok(Expectation::Echo),
        "protocol" => Ok(Expectation::Protocol),
        _ => Err(RowFault::NotARow),
    }
}

/// Whether FIN is set: `fin` or `part`.
pub fn fin_of(word: &str) -> Result<bool, RowFault> {
    read_fin(word.as_bytes()).ok_or(RowFault::NotARow)
}

/// The masking key of a header: eight digits, or `-` where it has none.
pub fn header_key_of(word: &str) -> Result<Option<[u8; 4]>, RowFault> {
    if word == "-" {
        return Ok(None);
    }
    let key = mask_key_of(word)?;
    Ok(Some(key))
}

/// A masking key: eight digits.
pub fn mask_key_of(word: &str) -> Result<[u8; 4], RowFault> {
    read_key(word.as_bytes()).ok_or(RowFault::NotARow)
}

/// The key for what a session puts: eight digits, or `-` for zeros.
pub fn session_key_of(word: &str) -> Result<[u8; 4], RowFault> {
    read_key_or_dash(word.as_bytes()).ok_or(RowFault::NotARow)
}

/// The bytes that pairs of digits spell, or `-` for none.
pub fn bytes_of(alloc: Global, word: &str) -> Result<Payload, RowFault> {
    let bytes = read_hex(alloc, word.as_bytes())?;
    Ok(bytes)
}

/// The pieces that words spell.
pub fn pieces_of(alloc: Global, words: &[&str]) -> Result<Vec<Vec<u8>>, RowFault> {
    let mut pieces = Vec::new(alloc);
    for word in words {
        pieces.push(bytes_of(alloc, word)?.into_vec())?;
    }
    Ok(pieces)
}
