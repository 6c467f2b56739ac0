//! Scripts as text: a case's chop and its steps, a line for each.

mod data;
mod fields;
mod frame_line;
mod line;
mod numbers;
mod quoted;
mod reading;
mod words;
mod writing;

pub use reading::read_script;
pub use writing::write_script;
