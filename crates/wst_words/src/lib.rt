//! The words of `wst`'s command line, read by `clap`: a file a command, with its words and its options as a struct.
//!
//! The layer above uses `read_words` alone: the task that the words ask for, or why there is none.
//!
//! What a command reads and writes is told whole in docs/FORMATS.md. Its help tells it in short.
#![tactic(auto)]

mod arguments;
mod cases;
mod commands;
mod convert;
mod head;
mod judge;
mod options;
mod pair;
mod report;
mod run_options;
mod send;
mod serve;
mod session;
mod show;
mod sweep;
mod tap;
mod test;
mod words;

pub use cases::CasesOptions;
pub use convert::ConvertOptions;
pub use head::HeadOptions;
pub use judge::JudgeOptions;
pub use pair::PairOptions;
pub use report::ReportOptions;
pub use run_options::RunOptions;
pub use send::SendOptions;
pub use serve::ServeOptions;
pub use session::SessionOptions;
pub use show::ShowOptions;
pub use sweep::SweepOptions;
pub use tap::TapOptions;
pub use test::TestOptions;
pub use words::{Task, WordsFault, read_words};
