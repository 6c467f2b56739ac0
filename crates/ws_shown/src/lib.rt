//! A script that is run against a tested end, as a machine whose lines are wanted as soon as they are certain (RFC 6455
//! sections 4.1 and 5 to 7): a loop has them taken before it does anything else for it. How lines are shown is that of
//! `ws_lines`, and how a script is run that of `ws_tester` and `ws_handshake`.
//!
//! The layer above uses `ShownProbe`, a probe of a server whose lines are wanted so: what its lines are, those that
//! were wanted and those that are left at its end, is the one text of lines that the definition has for the transcript
//! (`ShownGives`); `ShownRun` is the same of a script over an end whose handshake is done (`RunShows`). `MarkedLines`
//! are the lines of a transcript that goes on, with that frame marked whose payload is a direction's first
//! violation. `lines_of` gives all of them. `TurnsTold` is what was told of a run.
#![tactic(auto)]

mod line_room;
mod marked_lines;
mod places;
mod shown_probe;
mod shown_run;
mod shown_tester;
mod telling;
mod turns_told;
mod whole_text;

pub use marked_lines::MarkedLines;
pub use places::Places;
pub use shown_probe::{ShownEnd, ShownProbe};
pub use shown_run::{RunEnd, ShownRun};
pub use turns_told::TurnsTold;
pub use whole_text::lines_of;
