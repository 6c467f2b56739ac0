//! `test_row_machines`: answers rows of machines: the tester of a script, a probe, an admission, an echo, and machines
//! that are run over a stream.
#![tactic(auto)]

mod admissions;
mod answering;
mod echoes;
mod machine_runs;
mod machine_stream;
mod machine_words;
mod probes;
mod testers;

pub use answering::answer;
