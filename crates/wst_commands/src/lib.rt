//! The commands of `wst` that read their input whole or as a stream and write what they tell, over watched devices: a
//! file a command; and what all commands share: exits, faults and the limits that words give. No rule of the protocol
//! stands here.
//!
//! The layer above uses a call for each command, each with one clause, what a run of that command is (`RunsShow` and
//! its like): `run_show`, `run_moves` (of `pair`), `run_session`, `run_judge`, `run_convert`, `run_cases` and
//! `run_report`;
//! `cases_of`, `ids_for` and `is_glob`, which say for which cases words stand; `end_run`, `tell_fault` and
//! `tell_no_cases`, which tell a fault; `step_damage`, what is wrong with a line of a script; `code_notes`, remarks on
//! its close frames; `read_whole`, which reads an input to its end; `deliver` and `tell`, which write a text;
//! `limits_given`, `timeout_given`, `run_timeout_given`, `wait_given`, `deadline_given`, `count_given`, `has_unit`;
//! `judgement_of`,
//! the verdict on a transcript and the lines below it; `exit_of` and `Exit::status`.
#![tactic(auto)]

mod cases;
mod close_codes;
mod convert;
mod exit;
mod explaining;
mod explanation_lines;
mod fault;
mod fault_rules;
mod given_cases;
mod judge;
mod limits;
mod page_texts;
mod pair;
mod reading_capture;
mod reading_lines;
mod reading_whole;
mod reply_text;
mod report;
mod run_damages;
mod session;
mod show;
mod shown_word;
mod step_damages;
mod step_texts;
mod step_words;
mod styled_data;
mod telling;
mod time_limit;
mod writing_explanation;

pub use cases::run_cases;
pub use close_codes::code_notes;
pub use convert::run_convert;
pub use exit::Exit;
pub use explaining::{Judgement, judgement_of};
pub use fault::{Fault, ListenFault, end_run, tell_fault};
pub use given_cases::{NoCases, cases_of, ids_for, is_glob, tell_no_cases};
pub use judge::{exit_of, run_judge};
pub use limits::limits_given;
pub use pair::run_moves;
pub use reading_lines::{InputFault, take_input};
pub use reading_whole::{ReadStop, read_whole};
pub use report::run_report;
pub use run_damages::{RunDamage, run_damage};
pub use session::run_session;
pub use show::run_show;
pub use step_damages::{StepDamage, step_damage};
pub use step_texts::TextDamage;
pub use step_words::WordDamage;
pub use telling::{deliver, tell};
pub use time_limit::{
    TimeLimit, count_given, deadline_given, has_unit, run_timeout_given, timeout_given, wait_given,
};
