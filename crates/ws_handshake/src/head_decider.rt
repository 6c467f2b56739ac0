//! What decides a head of the opening handshake (RFC 6455 section 4).

ghost use Rattle.std.specs.Prelude.{◌<◌, length, IfNone, MatchOption};
ghost use Rattle.ws_upgrade.specs.Reading.{max_head};

/// What decides the heads of requests, or of responses.
pub trait HeadDecider {
    /// What is decided.
    type Decision: Copy;

    ghost use Rattle.std.specs.Prelude.{List, ℕ};

    /// These bytes need more.
    ghost needs: { Self → List ℕ → Type 0 };

    /// These bytes are decided so.
    ghost decides: { Self → List ℕ → Self.Decision → Type 0 };

    /// What these bytes decide. `None` where more are needed, and they are less than the most that are read.
    fn decide(&self, bytes: &[u8]) -> Option<Self::Decision>
        ensures decided { MatchOption result (needs self.now bytes.now) (decides self.now bytes.now) }
        ensures room { IfNone result (length bytes.now < max_head) };
}
