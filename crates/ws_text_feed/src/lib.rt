//! Texts of lines that come piece by piece: what a line tells is taken as soon as the line has ended, and no more of
//! the text is kept than a line that hasn't.
//!
//! The layers above use the contracts of `TextFeed`, for a text with one value a line, and of `LinesFeed`, for a text
//! whose lines tell one value together: what was fed tells what was taken, or is damaged at the line that is told,
//! whatever follows.
#![tactic(auto)]

mod feeding;
mod lines_feed;
mod taking;

pub use feeding::TextFeed;
pub use lines_feed::LinesFeed;
pub use taking::TakeValues;

/// So much room for a line stays for the next one. More is given back once its line is read.
const MOST_KEPT: usize = 65536;
