//! `test_row_scripts`: answers rows of cases, scripts, sweeps, paths of clients, captures and verdicts on transcripts.
#![tactic(auto)]

mod answering;
mod captures;
mod cases;
mod explanations;
mod paths;
mod scripts;
mod sweeps;

pub use answering::answer;
