//! What a server is asked for before a script is run against it (RFC 6455 section 4.1), and the machine that asks.

ghost use Rattle.std.specs.Prelude.{◌≡◌, [], IfOk, Some};
ghost use Rattle.ws_upgrade.specs.Accept.{key_of};
ghost use Rattle.ws_scripts.specs.Scripts.{CanBeRun};
ghost use Rattle.ws_machines.specs.Machines.{HasNext};
ghost use Rattle.ws_handshake.specs.Probes.{WasProbed, asked_of, wanted_of};
ghost use Rattle.ws_connection.specs.Probing.{BeginsProbe, asked_over, bytes_by_turn, plan_asked, probe_nonce};
ghost use Rattle.ws_connection.specs.UpgradeRequests.{CanBeAsked, request_value, text_of_request};

use crate::upgrade_request::UpgradeRequest;
use std::alloc::Global;
use ws_base::NoMemory;
use ws_handshake::{ProbeMachine, ProbePlan, ResponseHead};
use ws_suite::{Case, Expectation, turns};
use ws_tester::TestPlan;
use ws_upgrade::{AddedHeaders, Host, Offers, Path, request_of};
use ws_wire::Role;

/// The nonce of each probe, 16 bytes: always the same, so that captures are repeatable.
pub const NONCE: [u8; 16] = *b"the sample nonce";

/// What is asked of a server before a script is run, and how the script is run.
#[derive(Clone, Copy)]
pub struct Asked<'a> {
    /// What the server is asked for.
    pub request: UpgradeRequest<'a>,
    /// The key of each frame.
    pub key: [u8; 4],
    /// What is expected of the server: by that it is told what a turn is waited for.
    pub expected: Expectation,
    /// Whether reads can wait in vain: then a turn that holds the close or fault of what is sent is waited for as the
    /// last one is.
    pub has_timeouts: bool,
}

impl<'a> Asked<'a> {
    /// How its machine asks, and runs the script, over a connection with this budget.
    fn probe_plan(&self, budget: u64) -> ProbePlan<'a>
        ensures { asked_of result ≡ asked_over (plan_asked self.now) (request_value self.now.request) budget }
    {
        ProbePlan {
            head: ResponseHead {
                nonce: NONCE,
                offers: self.request.protocols,
            },
            test: TestPlan {
                tested: Role::Server,
                expected: self.expected,
                has_timeouts: self.has_timeouts,
            },
            budget,
        }
    }
}

/// The machine of `probe`, of which nothing was told yet. It may read so many bytes behind the head of the answer.
pub fn probe_machine<'a>(
    alloc: Global,
    case: &Case,
    asked: &Asked<'a>,
    budget: u64,
) -> Result<ProbeMachine<'a>, NoMemory>
    requires runs { CanBeRun case.now }
    requires request { CanBeAsked (request_value asked.now.request) }
    ensures begins { IfOk result (λ machine. BeginsProbe (plan_asked asked.now)
        (bytes_by_turn case.now (Some asked.now.key)) (request_value asked.now.request) budget machine) }
    ensures told { IfOk result (λ machine. WasProbed machine machine []) }
    ensures goes_on { IfOk result (λ machine. HasNext (wanted_of machine)) }
{
    let script = turns(alloc, case, asked.key)?;
    let request = request_text(alloc, &asked.request)?;
    let plan = asked.probe_plan(budget);
    Ok(ProbeMachine::new(alloc, plan, script, request))
}

/// The request that is sent.
fn request_text(alloc: Global, request: &UpgradeRequest<'_>) -> Result<Vec<u8>, NoMemory>
    requires { CanBeAsked (request_value request.now) }
    ensures { IfOk result (λ text. text.items ≡ text_of_request (request_value request.now) (key_of probe_nonce)) }
{
    let host = Host::proved(request.host);
    let path = Path::proved(request.path);
    let offers = Offers::proved(request.protocols);
    let added = AddedHeaders::proved(request.headers);
    let text = request_of(alloc, &host, &path, NONCE, &offers, &added)?;
    Ok(text)
}
