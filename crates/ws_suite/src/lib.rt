//! The verdict on what a tested peer answered to a script (RFC 6455 sections 5 to 8): what a right answer is, and which
//! rules were broken. Scripts, transcripts and captures are those of `ws_scripts`, which is handed on.
//!
//! The layers above use the contract of `judge`, for a tested server, or of `judge_end`, for a tested end of either
//! role: it gives the one verdict that the definition has for a transcript. `explain` tells what was owed and what came
//! with it, and `rule` the rule behind it. A run that goes on uses `RunEvidence`: it tells by what went over a
//! connection so far whether what is due has come.
#![tactic(auto)]

mod evidence;
mod explaining;
mod judging;
pub mod laws;
mod lemmas;
mod rules;
mod verdict;

pub use evidence::{
    Direction, Ending, Found, FoundFault, InTurn, Kept, Replies, Reply, ReplyKind, RunEvidence,
    Walk, has_undefined_close,
};
pub use explaining::{Explanation, explain, explain_with};
pub use judging::{judge, judge_end, judge_tapped, judge_with};
pub use rules::{rule, rule_with};
pub use verdict::{FailWhy, LooseWhy, Verdict};
pub use ws_scripts::{
    AsTranscript, Capture, CaptureFault, CaptureFeed, Case, Chop, CutTurn, Ended, Expectation,
    KeptCapture, KeptTranscript, Step, Transcript, TranscriptRef, Turn, TurnRef, TurnWalk, case,
    ids, read_capture, read_capture2, read_script, turns, turns_with, write_capture,
    write_capture2, write_script,
};
