//! What the lines of runs over cases say, of one tested peer or of many: the peers, the cases that they ran, and what
//! counts of each; an index of them in JSON, and a summary. A verdict is its words here.
//!
//! The layers above use the contract of `read_runs`, those of `Peer`, `Runs` and `row_ids` for a table, and those of
//! `index_text` and `summary_text`.
#![tactic(auto)]

mod checking;
mod id_runs;
mod index;
pub mod laws;
mod line;
mod mark;
mod name_line;
mod peer;
mod places;
mod reading;
mod result;
mod rows;
mod runs;
mod shown;
mod summary;
mod tally;

pub use index::index_text;
pub use mark::{Mark, mark_of_words, why_of};
pub use name_line::is_name_line;
pub use peer::Peer;
pub use reading::read_runs;
pub use result::CaseResult;
pub use rows::row_ids;
pub use runs::Runs;
pub use summary::{push_tallies, summary_text};
