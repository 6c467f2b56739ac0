//! What is noted of the connections of a run, beside its lines: the lines of their heads, and the time since one began.
//!
//! The layer above makes `ConnectionNotes`, and runs over a `NotedConnector`, whose network is another one's: what
//! passes is what passes there, and is noted. It writes to a `HeadWriter`, which writes the lines of the heads before
//! all others, or to a `TimedWriter` over one, which writes each line behind the time.
#![tactic(auto)]

mod head_place;
mod head_writer;
mod line_times;
mod noted_network;
mod notes;
mod stamps;
mod timed_writer;
mod writing;

pub use head_writer::HeadWriter;
pub use line_times::{Ages, LineTimes};
pub use noted_network::{NotedConnector, NotedListener, NotedNetwork, NotedStream};
pub use notes::ConnectionNotes;
pub use timed_writer::TimedWriter;
