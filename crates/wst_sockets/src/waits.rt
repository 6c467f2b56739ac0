//! How long those who come to a listener are waited for.

use wst_commands::TimeLimit;

/// How long the clients of a listener are waited for.
#[derive(Clone, Copy)]
pub struct Waits {
    /// One that has come is waited for so long.
    pub byte: TimeLimit,
    /// The next one is waited for so long.
    pub client: TimeLimit,
    /// A connection lasts so long.
    pub deadline: TimeLimit,
}
