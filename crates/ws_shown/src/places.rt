//! How much was shown of a run.

ghost use Rattle.std.specs.Prelude.{◌≡◌, ◌+◌, ◌<◌, ◌^◌, [], nat_eq, IfSome};
ghost use Rattle.ws_shown.specs.MarkedLines.{AreCounted};

/// How many turns were told, and how many bytes of each direction.
#[derive(Clone, Copy)]
pub struct Places {
    turns: u64,
    sent: u64,
    got: u64,
}

impl Places {
    /// Before any turn.
    pub fn none() -> Places
        ensures { AreCounted result [] }
    {
        Places {
            turns: 0,
            sent: 0,
            got: 0,
        }
    }

    /// Whether no turn was told.
    pub fn is_none(self) -> bool
        ensures { result ≡ nat_eq self.turns 0 }
    {
        self.turns == 0
    }

    /// With one more turn, which has sent so many bytes. `None` where 64 bits can't tell that.
    pub fn with_turn(self, sent: usize) -> Option<Places>
        ensures turns { IfSome result (λ places. places.turns ≡ self.turns + 1) }
        ensures sent { IfSome result (λ places. places.sent ≡ self.sent + sent) }
        ensures got { IfSome result (λ places. places.got ≡ self.got) }
        ensures fits { IfSome result (λ places. (self.turns + 1 < 2 ^ 64) × (self.sent + sent < 2 ^ 64)) }
    {
        Some(Places {
            turns: self.turns.checked_add(1)?,
            sent: self.sent.checked_add(sent as u64)?,
            got: self.got,
        })
    }

    /// With so many bytes more that were got. `None` where 64 bits can't tell that.
    pub fn with_got(self, got: usize) -> Option<Places>
        ensures turns { IfSome result (λ places. places.turns ≡ self.turns) }
        ensures sent { IfSome result (λ places. places.sent ≡ self.sent) }
        ensures got { IfSome result (λ places. places.got ≡ self.got + got) }
        ensures fits { IfSome result (λ places. self.got + got < 2 ^ 64) }
    {
        Some(Places {
            turns: self.turns,
            sent: self.sent,
            got: self.got.checked_add(got as u64)?,
        })
    }
}
