//! Words of lines in passing: those of a line that is read, in place of a list on the heap, and those of a line that is
//! written, put straight at the end of its text.
//!
//! The layers above use the contracts of `few_words` and `cut_word`, and of `push_number`, `push_hex` and `push_kind`.
#![tactic(auto)]

mod line_words;
mod pushing;

pub use line_words::{FewWords, cut_word, few_words};
pub use pushing::{push_hex, push_kind, push_number};
