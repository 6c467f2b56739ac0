//! How a run ends. Which exit tells what is listed in docs/FORMATS.md.

ghost use Rattle.std.specs.Prelude.{◌≡◌, ◌≤◌};
ghost use Rattle.wst_commands.specs.Exits.{exit_status};

/// How a run ended.
#[derive(Clone, Copy)]
pub enum Exit {
    /// All was done.
    Done,
    /// The input is damaged or refused, or it shows a rule that was broken.
    Damaged,
    /// The words are wrong.
    WrongWords,
    /// The input, the output, the network, the budget or memory failed.
    Failed,
}

impl Exit {
    /// The exit status of the program.
    pub fn status(self) -> u8
        ensures number { result ≡ exit_status self }
        ensures bound { result ≤ 3 }
    {
        match self {
            Exit::Done => 0,
            Exit::Damaged => 1,
            Exit::WrongWords => 2,
            Exit::Failed => 3,
        }
    }
}
