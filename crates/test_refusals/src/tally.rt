//! What came of the calls.

/// How many calls there were, and what came of them.
#[derive(Clone, Copy)]
pub struct Tally {
    /// Calls, each counted once, however often it was made.
    pub calls: u64,
    /// Calls that lacked memory, and were made again.
    pub refused: u64,
    /// Lists that were played again from their beginning, since memory that only this program wants was refused.
    pub restarted: u64,
    /// Comparisons that found a difference.
    pub differing: u64,
    /// The call that lacked memory last.
    pub lacking: Option<&'static str>,
}

impl Tally {
    /// No call yet.
    pub fn new() -> Tally {
        Tally {
            calls: 0,
            refused: 0,
            restarted: 0,
            differing: 0,
            lacking: None,
        }
    }

    /// A call is made for the first time.
    pub fn call(&mut self) {
        self.calls = self.calls.saturating_add(1);
    }

    /// A call with this name lacked memory.
    pub fn refuse(&mut self, call: &'static str) {
        self.refused = self.refused.saturating_add(1);
        self.lacking = Some(call);
    }

    /// A list is played again.
    pub fn restart(&mut self) {
        self.restarted = self.restarted.saturating_add(1);
    }

    /// Two things were compared.
    pub fn compare(&mut self, is_same: bool) {
        if !is_same {
            self.differing = self.differing.saturating_add(1);
        }
    }

    /// Adds what came of further calls.
    pub fn add(&mut self, more: &Tally) {
        self.calls = self.calls.saturating_add(more.calls);
        self.refused = self.refused.saturating_add(more.refused);
        self.restarted = self.restarted.saturating_add(more.restarted);
        self.differing = self.differing.saturating_add(more.differing);
    }
}
