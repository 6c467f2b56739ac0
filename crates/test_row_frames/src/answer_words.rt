//! The words of an answer. Each is put by a call that says nothing of it: what is proved of a row is small then.

use crate::row_fault::RowFault;
use std::fmt;
use std::fmt::Write;
use ws_formats::Hex;

/// Puts a text.
pub fn put(out: &mut String, text: &str) -> Result<(), RowFault> {
    out.push_str(text)?;
    Ok(())
}

/// Puts a text, and bytes in pairs of digits, `-` where there are none.
pub fn put_hex(out: &mut String, text: &str, bytes: &[u8]) -> Result<(), RowFault> {
    write!(out, "{text}{}", Hex(bytes))?;
    Ok(())
}

/// Puts a text, and a number.
pub fn put_number(out: &mut String, text: &str, number: u64) -> Result<(), RowFault> {
    write!(out, "{text}{number}")?;
    Ok(())
}

/// Puts a text, and what is written of a value.
pub fn put_shown<T: fmt::Display>(out: &mut String, text: &str, shown: &T) -> Result<(), RowFault> {
    write!(out, "{text}{shown}")?;
    Ok(())
}
