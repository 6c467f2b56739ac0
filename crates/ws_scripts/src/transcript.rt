//! What went over a connection between a tester and the end that it tests, a server or a client.

use ws_base::{Payload, Sequence};

/// What was sent, and what came for it before the next turn.
#[derive(Debug, Drop)]
pub struct Turn {
    /// The bytes that the tester sent.
    pub sent: Payload,
    /// The bytes that the tested end sent.
    pub got: Payload,
}

impl PartialEq for Turn {
    ghost use Rattle.std.proofs.Common.{rules};
    ghost use Rattle.std.specs.Cmp.Rules.{comparing};
    ghost use Rattle.ws_scripts.specs.InnerComparing.{turn_eq};

    ghost eq = { turn_eq };

    ghost laws = { Prim.search (comparing, rules) };

    fn eq(&self, other: &Turn) -> bool {
        self.sent.as_slice() == other.sent.as_slice() && self.got.as_slice() == other.got.as_slice()
    }
}

/// How a connection ended.
#[derive(Clone, Copy, Debug, PartialEq, Eq)]
pub enum Ended {
    /// The tester ended it, after the last turn.
    Tester,
    /// The tested end ended it, in the last turn.
    Peer,
    /// A read or a write failed, in the last turn.
    Broken,
}

/// All that went over a connection.
#[derive(Debug, Drop)]
pub struct Transcript {
    pub turns: Sequence<Turn>,
    pub ended: Ended,
}

impl PartialEq for Transcript {
    ghost use Rattle.std.specs.Cmp.{partial_equiv_from_equiv};
    ghost use Rattle.ws_scripts.specs.InnerComparing.{transcript_eq, transcript_eq_equiv};

    ghost eq = { transcript_eq };

    ghost laws = { partial_equiv_from_equiv transcript_eq_equiv };

    fn eq(&self, other: &Transcript) -> bool {
        self.turns.as_slice() == other.turns.as_slice() && self.ended == other.ended
    }
}
