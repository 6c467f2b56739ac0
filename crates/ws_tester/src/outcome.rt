//! What comes of the state of a run.

use crate::standing::Standing;
use ws_suite::Ended;

/// What is asked of the turns so far.
#[derive(Clone, Copy)]
pub struct TurnFacts {
    /// How what was got stands.
    pub standing: Standing,
    /// What was sent has a close or a fault.
    pub has_sent_end: bool,
    /// It had one before the turn.
    pub had_sent_end: bool,
    /// What is owed has come.
    pub is_answered: bool,
    /// What was got ends inside a frame.
    pub is_inside: bool,
    /// What an echo owes can't come any more.
    pub cannot_come: bool,
}

/// What comes of a state.
#[derive(Clone, Copy)]
pub enum Outcome {
    /// The turn goes on.
    Rests,
    /// The next turn begins.
    Next,
    /// The run ends so.
    Ends(Ended),
}
