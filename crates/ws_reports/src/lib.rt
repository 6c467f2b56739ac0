//! What a run over many cases tells of each: the verdicts of an earlier run, as the list of its lines, and what is
//! otherwise than they say; lines, and documents in the JUnit format of XML 1.0. A verdict is its words here, and which
//! rule is behind one isn't known.
//!
//! The layers above use the contracts of `read_known`, for the list, and of `Report`: what is written of a case, what
//! stands before and behind all cases, whether a case is one for which a run is said to have failed, and how it stands
//! beside the earlier run, which `KnownCounts` counts.
#![tactic(auto)]

mod behind_total;
mod case_score;
mod cutting;
mod escaping;
mod junit;
mod kept;
mod known;
mod known_counts;
mod known_line;
pub mod laws;
mod remark;
mod report;
mod told;
mod verdict_words;

pub use case_score::CaseScore;
pub use escaping::{Escaped, Quoted};
pub use junit::first_two_words;
pub use kept::{KeptVerdict, KeptVerdicts};
pub use known::{KnownVerdicts, read_known};
pub use known_counts::{Change, KnownCounts};
pub use known_line::{KnownLine, case_parts, is_beside_cases, is_total};
pub use remark::Remark;
pub use report::Report;
pub use told::Told;
pub use verdict_words::{is_same_verdict, tells_fail};
