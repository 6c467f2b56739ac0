//! How what was got from a tested end stands.

ghost use Rattle.std.specs.Prelude.{◌≡◌, ◌++◌, ◌∷◌, [], ◌⊎◌, IfOk};
ghost use Rattle.std.specs.List.{concat};
ghost use Rattle.ws_scripts.specs.declared.transcript.Turn.{Turn};
ghost use Rattle.ws_suite.specs.Evidence.{got_turns, other_role};
ghost use Rattle.ws_suite.specs.Growing.{HasGrown};
ghost use Rattle.ws_tester.specs.Outcomes.{got_in_all};
ghost use Rattle.ws_tester.specs.Standings.{CountsAsClose, StandsAs, is_server_close, standing_of_status, stops_run};
ghost use Rattle.ws_tester.specs.declared.standing.Standing.TheVariants.{Closed, Faulty};

use crate::tester::TestPlan;
use std::alloc::Global;
use ws_base::NoMemory;
use ws_suite::{Expectation, RunEvidence, Turn, has_undefined_close};
use ws_wire::Role;

/// What the bytes that were got end with, as the run takes them.
#[derive(Clone, Copy, PartialEq, Eq)]
pub enum Standing {
    /// They hold neither a close nor a fault.
    Going,
    /// Their last event is a close.
    Closed,
    /// Their last event is a fault.
    Faulty,
}

/// How what was got so far stands to a run by this plan: in the turns that are over, and in the one under way these
/// bytes.
pub(crate) fn standing_of(
    alloc: Global,
    plan: TestPlan,
    evidence: &RunEvidence,
    past: &[Turn],
    got: &[u8],
) -> Result<Standing, NoMemory>
    ensures { IfOk result (λ standing. (turn : Turn) → turn.got ≡ got.now
        → HasGrown plan.tested (past.now ++ turn ∷ []) evidence.now
        → StandsAs plan.tested plan.expected standing (got_in_all (past.now ++ turn ∷ []))) }
{
    match shown_standing(evidence) {
        Standing::Going => Ok(Standing::Going),
        Standing::Closed => Ok(Standing::Closed),
        Standing::Faulty => faulty_standing(alloc, plan, past, got),
    }
}

/// How what was got stands, where it has a fault: by the protocol that is a close where its code is one that the
/// standard leaves undefined.
fn faulty_standing(
    alloc: Global,
    plan: TestPlan,
    past: &[Turn],
    got: &[u8],
) -> Result<Standing, NoMemory>
    ensures { IfOk result (λ standing.
        (CountsAsClose plan.expected (other_role plan.tested) (concat (got_turns past.now) ++ got.now)
        × (standing ≡ Closed))
        ⊎ ((¬ (CountsAsClose plan.expected (other_role plan.tested) (concat (got_turns past.now) ++ got.now)))
        × (standing ≡ Faulty))) }
{
    match plan.expected {
        Expectation::Echo => Ok(Standing::Faulty),
        Expectation::Protocol => {
            let counts = has_undefined_close(alloc, plan.tested, past, got)?;
            Ok(if counts {
                Standing::Closed
            } else {
                Standing::Faulty
            })
        }
    }
}

/// How the bytes that were got so far stand.
fn shown_standing(evidence: &RunEvidence) -> Standing
    ensures { result ≡ standing_of_status evidence.now.tester.status }
{
    if evidence.has_got_fault() {
        return Standing::Faulty;
    }
    if evidence.has_got_close() {
        return Standing::Closed;
    }
    Standing::Going
}

/// Whether a run ends where what was got from the tested end stands so: by a fault; and by a close of a client, since
/// the server ends the connection (RFC 6455 section 7.1.1).
pub(crate) fn stops_run(tested: Role, standing: Standing) -> bool
    ensures { result ≡ stops_run tested standing }
{
    match standing {
        Standing::Going => false,
        Standing::Closed => match tested {
            Role::Server => false,
            Role::Client => true,
        },
        Standing::Faulty => true,
    }
}

/// Whether the own direction is to be ended where what was got stands so: by a close of a server.
pub(crate) fn is_server_close(tested: Role, standing: Standing) -> bool
    ensures { result ≡ is_server_close tested standing }
{
    match standing {
        Standing::Going | Standing::Faulty => false,
        Standing::Closed => match tested {
            Role::Server => true,
            Role::Client => false,
        },
    }
}
