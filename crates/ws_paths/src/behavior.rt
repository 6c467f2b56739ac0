//! What is told of a case.

ghost use Rattle.std.specs.Prelude.{◌≡◌};
ghost use Rattle.ws_paths.specs.Texts.{behavior_word};

/// What came of a case the last time that it was run.
#[derive(Clone, Copy, Debug, PartialEq, Eq)]
pub enum Behavior {
    /// The client kept the rules.
    Ok,
    /// It kept them, but for what a strict reader would have otherwise.
    NonStrict,
    /// It broke a rule.
    Failed,
    /// The case was not run yet.
    Unimplemented,
}

impl Behavior {
    /// The word that tells it to a client.
    pub fn word(self) -> &'static str
        ensures { result.now ≡ behavior_word self }
    {
        match self {
            Behavior::Ok => "OK",
            Behavior::NonStrict => "NON-STRICT",
            Behavior::Failed => "FAILED",
            Behavior::Unimplemented => "UNIMPLEMENTED",
        }
    }
}
