//! The words and lines of our text formats: bytes and masking keys in hexadecimal, numbers in decimal, the words of a
//! line, and texts with a line for each value.
//!
//! The layers above use the contracts of `read_lines`, for a script with one value a line, and of `read_by_lines`, for
//! a text whose lines tell one value together; and those of the readers of words: a value is found where a word spells
//! one, and nowhere else.
#![tactic(auto)]

mod closing;
mod digits;
mod hexadecimal;
pub mod laws;
mod lines;
mod numbers;
mod quoting;
mod showing_hex;
mod words;

pub use closing::read_close;
pub use digits::{digits_of, put_digits};
pub use hexadecimal::{
    are_digits, read_hex, read_hex_in_place, read_hex_into, read_key, read_key_or_dash,
};
pub use lines::{Line, PartialText, cut_line, read_by_lines, read_lines};
pub use numbers::{read_u16, read_u32};
pub use quoting::{is_invisible, put_text};
pub use showing_hex::{Hex, HexDigits};
pub use words::{read_fin, words_of};
