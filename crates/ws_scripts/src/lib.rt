//! Scripts that test a peer (RFC 6455 sections 5 to 8): what to send, in which turns and pieces; the transcript of what
//! was sent and got; what is expected of the tested end; and scripts, and captures of transcripts, as text.
//!
//! The layers above use nine contracts: `case` has a script for each name of the table and no other, which can be
//! run, `all_ids` lists these names in their order, `turns_with` cuts a script as its definition says, `bytes_with`
//! gives the bytes of its turns, one after the other, `append_step` those of one step, `read_script` gives the script
//! that a text is, `write_script` a text of it, `read_capture2` the one capture that a text is, and `write_capture2`
//! its lines.
#![tactic(auto)]

mod any_transcript;
mod capture;
mod cases;
mod cut_turn;
mod cutting;
mod expectation;
mod kept_turns;
pub mod laws;
mod pieces;
mod script;
mod script_text;
mod transcript;
mod turn_walk;

pub use any_transcript::{AsTranscript, KeptTranscript, TranscriptRef};
pub use capture::{
    Capture, CaptureFault, CaptureFeed, KeptCapture, read_capture, read_capture2, write_capture,
    write_capture2,
};
pub use cases::{all_ids, case, ids};
pub use cut_turn::CutTurn;
pub use cutting::{append_step, bytes_with, turns, turns_with};
pub use expectation::Expectation;
pub use script::{Case, Chop, Step};
pub use script_text::{read_script, write_script};
pub use transcript::{Ended, Transcript, Turn};
pub use turn_walk::{TurnRef, TurnWalk};
