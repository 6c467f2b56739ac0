//! Scripts that are run over one end, and what is told of each: the end that words name, the outcome of a case, its
//! line, the report of a run, and its total. No rule of the protocol stands here.
//!
//! The layers above use `plan_run` and `tell_refusal`, which say which end the words name or why none; `End`, which is
//! that end, in memory (`MemoryEnd`) or at an address (`AddressServer`): as each `CaseServer` it runs a case over a new
//! one; `run_cases`, which runs cases over an end and tells a `Sink` of each; `test_cases`, `capture_case` and
//! `sweep_scripts`, runs of cases; `Outcome`, `Tally` and `Score`, what came of them; `report_case` and `close_report`,
//! what a report has of them; `LineOutput`, the output as the sink of a loop's
//! lines; `known_given`, the deviations that are
//! known of an end.
#![tactic(auto)]

mod address_server;
mod capturing;
mod case_server;
mod head_rules;
mod hinting;
mod known_input;
pub mod laws;
mod line_output;
mod outcome;
mod run_plans;
mod runner;
mod short_runs;
mod summary;
mod sweeping;
mod testing;
mod tried;

pub use address_server::{AddressServer, TellingPoller, meeting_of, without_connection};
pub use capturing::{capture_case, capture_text, tell_capture};
pub use case_server::{CaseServer, MemoryEnd, MemoryPeer};
pub use head_rules::head_rule;
pub use hinting::{misses_echo, tell_missed_echo};
pub use known_input::{KnownStop, known_given, tell_known_stop};
pub use line_output::{LineOutput, LineStop};
pub use outcome::{
    Outcome, Reported, Score, Tally, ToldRefusal, behind_text, close_report, is_fail, report_case,
    tell_beside, total_line,
};
pub use run_plans::{
    Refusal, RunPlan, TestedEnd, UsualTimes, asks_in_turn, at_once_given, is_url, max_fail_given,
    plan_run, tell_refusal,
};
pub use runner::{
    CaseRunner, CaseSource, End, HasCase, InTurn, ListedCases, RunStop, Sink, run_cases,
};
pub use sweeping::{SweepRules, is_told, sweep_scripts, tell_sweep_end, total_of};
pub use testing::{CaseRun, RunRules, refused_lines, tell_case, tell_progress, test_cases};
pub use tried::tell_missed;
