//! What a client under test asks for by the path of its request, and how its cases stand. The paths are those of
//! Autobahn's fuzzing server, which the test clients of libraries know; RFC 6455 leaves to a server what a resource
//! name means (section 3).
//!
//! The layers above use the contracts of `Standing`: what a connection is for, by its path; what came of each case, and
//! with which connection a run ends; and those of the texts that are told, and of `script_of`, which tells them. Cases
//! are numbered from 1, and nothing else is known of them.
#![tactic(auto)]

mod behavior;
mod named_case;
mod purpose;
mod standing;
mod telling;

pub use behavior::Behavior;
pub use purpose::Purpose;
pub use standing::Standing;
pub use telling::{count_text, info_text, script_of, status_text};
