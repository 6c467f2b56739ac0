//! Of which turns of a run was told.

ghost use Rattle.std.specs.Prelude.{◌≡◌, false};

/// Of which turns of a run was told.
#[derive(Clone, Copy)]
pub struct TurnsTold {
    /// So many turns were told to their end.
    pub whole: usize,
    /// What the one after them has sent was told.
    pub is_sent: bool,
    /// So many bytes that it has got were told.
    pub got: usize,
}

impl TurnsTold {
    /// Nothing was told yet.
    pub fn none() -> TurnsTold
        ensures whole { result.whole ≡ 0 }
        ensures sent { result.is_sent ≡ false }
    {
        TurnsTold {
            whole: 0,
            is_sent: false,
            got: 0,
        }
    }
}
