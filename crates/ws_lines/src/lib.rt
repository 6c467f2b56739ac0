//! The lines of a transcript (RFC 6455 section 5.2): the frames that each end sent, turn by turn, as `show` has them,
//! with the remarks for the end that sent them. How a frame is shown is that of `ws_frame`, what a transcript is that
//! of `ws_scripts`.
//!
//! The layers above use the contract of `show_transcript`: what is written is the one text of lines that the definition
//! has for a transcript; or that of `TranscriptLines`, which writes these lines while a run goes on.
#![tactic(auto)]

pub mod laws;
mod line_bytes;
mod places;
mod showing;
mod transcript_lines;

pub use places::fits_places;
pub use showing::show_transcript;
pub use transcript_lines::{Showing, TranscriptLines};
