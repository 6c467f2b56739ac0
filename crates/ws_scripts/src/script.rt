//! Scripts: what a tester sends to the end that it tests, in turns.

use ws_base::{Payload, Sequence};

/// One thing that a tester does.
#[derive(Debug, Drop)]
pub enum Step {
    /// A frame is sent, masked with the tester's key where the tester is the client, its length in the shortest form
    /// (RFC 6455 sections 5.1 and 5.2). `rsv` is 4 * RSV1 + 2 * RSV2 + RSV3.
    Frame {
        fin: bool,
        rsv: u8,
        opcode: u8,
        payload: Payload,
    },
    /// Bytes are sent as they are.
    Raw(Payload),
    /// The turn ends: what is owed so far is waited for.
    Wait,
}

impl PartialEq for Step {
    ghost use Rattle.std.proofs.Common.{rules};
    ghost use Rattle.std.specs.Cmp.Rules.{comparing};
    ghost use Rattle.ws_scripts.specs.InnerComparing.{step_eq};

    ghost eq = { step_eq };

    ghost laws = { Prim.search (comparing, rules) };

    fn eq(&self, other: &Step) -> bool {
        match (self, other) {
            (
                Step::Frame {
                    fin,
                    rsv,
                    opcode,
                    payload,
                },
                Step::Frame {
                    fin: other_fin,
                    rsv: other_rsv,
                    opcode: other_opcode,
                    payload: other_payload,
                },
            ) => {
                *fin == *other_fin
                    && *rsv == *other_rsv
                    && *opcode == *other_opcode
                    && payload.as_slice() == other_payload.as_slice()
            }
            (Step::Raw(bytes), Step::Raw(others)) => bytes.as_slice() == others.as_slice(),
            (Step::Wait, Step::Wait) => true,
            _ => false,
        }
    }
}

/// How the bytes of a turn are cut into pieces, each of them sent in one write.
#[derive(Clone, Copy, Debug, PartialEq, Eq)]
pub enum Chop {
    /// One piece a turn.
    Whole,
    /// One piece a step.
    PerFrame,
    /// Pieces of so many bytes, at least 1. The last of a turn may be shorter.
    Octets(u32),
}

/// A script with its name.
#[derive(Debug, Drop)]
pub struct Case {
    /// As `5.19`.
    pub id: String,
    pub steps: Sequence<Step>,
    pub chop: Chop,
}

impl PartialEq for Case {
    ghost use Rattle.std.specs.Cmp.{partial_equiv_from_equiv};
    ghost use Rattle.ws_scripts.specs.InnerComparing.{case_eq, case_eq_equiv};

    ghost eq = { case_eq };

    ghost laws = { partial_equiv_from_equiv case_eq_equiv };

    fn eq(&self, other: &Case) -> bool {
        self.id == other.id
            && (self.steps.as_slice() == other.steps.as_slice() && self.chop == other.chop)
    }
}
