//! `test_device_calls`: answers rows of calls over devices that fail, that move few bytes a call, or that note what
//! they are asked; and has these devices, for whole runs over them.
#![tactic(auto)]

mod answering;
mod answers;
mod clients;
mod devices;
mod handshakes;
mod lanes;
mod probes;
mod stream_calls;
mod streams;
mod taps;
mod transcripts;
mod watching;
mod words;

pub use answering::answer;
pub use answers::{put_reads, put_writes};
pub use devices::{Notes, Sink, Source, sink_of, source_of};
pub use words::{asks_for, failing_of, number_or, pieces_of, value_of};
