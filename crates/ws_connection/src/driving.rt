//! A script that is run over one connection that waits: behind the opening handshake of a client, or where that is done
//! (RFC 6455 sections 4.1 and 5 to 7). What the machine wants is done over the connection, one thing after the other,
//! until it is done.

ghost use Rattle.std.specs.Prelude.{◌≡◌, [], false, true, IfOk, OnOk, Some};
ghost use Rattle.ws_scripts.specs.Scripts.{CanBeRun};
ghost use Rattle.ws_machines.specs.Machines.{HasNext};
ghost use Rattle.ws_tester.specs.Following.{WasTold};
ghost use Rattle.ws_tester.specs.RunStates.{plan_value, wanted_in};
ghost use Rattle.ws_handshake.specs.Probes.{WasProbed, is_opening, wanted_of};
ghost use Rattle.ws_handshake.specs.declared.probe_machine.ProbeStage.TheVariants.{Opening};
ghost use Rattle.ws_connection.specs.Connections.{IsNewConnection, IsReady};
ghost use Rattle.ws_connection.specs.InnerDriving.{DrivesOver, IsOpened, OpensOver, RecordsFrom};
ghost use Rattle.ws_connection.specs.Probing.{Probes, Records, bytes_by_turn, plan_asked, plan_of};
ghost use Rattle.ws_connection.specs.UpgradeRequests.{CanBeAsked, request_value};

use crate::connection::Connection;
use crate::ending::EndsDirection;
use crate::probing::{Asked, probe_machine};
use crate::waiting::WaitingRead;
use std::alloc::Global;
use ws_base::NoMemory;
use ws_frame::READ_SIZE;
use ws_handshake::{HEAD_READ_SIZE, Probe, ProbeMachine, ProbeStage};
use ws_machines::{Machine, serve};
use ws_suite::{Case, Expectation, Transcript, turns_with};
use ws_tester::{TestPlan, Tester};
use ws_wire::Role;

/// How a script is run over a connection whose handshake is done.
#[derive(Clone, Copy)]
pub struct ScriptRun {
    /// The tested end.
    pub tested: Role,
    /// What is expected of it: by that it is told what a turn is waited for.
    pub expected: Expectation,
    /// The key of each frame that the tester sends, if it is the client (RFC 6455 section 5.1).
    pub key: Option<[u8; 4]>,
    /// Whether reads can wait in vain: then a turn that holds the close or fault of what is sent is waited for as the
    /// last one is.
    pub has_timeouts: bool,
}

impl ScriptRun {
    /// How its tester runs it.
    fn test_plan(self) -> TestPlan
        ensures { plan_value result ≡ plan_of self }
    {
        TestPlan {
            tested: self.tested,
            expected: self.expected,
            has_timeouts: self.has_timeouts,
        }
    }
}

/// Asks a server for an upgrade, runs a script against it as `run_script` does, and records what went over the
/// connection: a `ProbeMachine` is served until its tester begins, and then that is. The pieces of each turn are sent
/// in one write each where the writer takes them so. Neither the head nor what came with it counts as read behind it.
pub fn probe<R: WaitingRead, W: EndsDirection>(
    alloc: Global,
    case: &Case,
    asked: &Asked<'_>,
    connection: &mut Connection<R, W>,
) -> Result<Probe, NoMemory>
    requires new { IsNewConnection connection.old }
    requires runs { CanBeRun case.now }
    requires request { CanBeAsked (request_value asked.now.request) }
    ensures probes { IfOk result (λ probe.
        Probes (plan_asked asked.now) case.now asked.now.key (request_value asked.now.request) probe
        (record { old = connection.old; new = connection.new })) }
{
    let stage = opened_by(alloc, case, asked, connection)?;
    match stage {
        ProbeStage::Running(tester) => {
            let transcript = run_tester(tester, connection)?;
            Ok(Probe::Ran(transcript))
        }
        ProbeStage::Refused(refusal) => Ok(Probe::Refused(refusal)),
        ProbeStage::Lost => Ok(Probe::NoConnection),
        // The head of the answer is whole, or there is none.
        ProbeStage::Opening => unreachable!(),
    }
}

/// Runs a script over a connection whose handshake is done, and records what went over it, as its tester does. `first`
/// came with the head of the tested end. What is to be written is written before more is read. Pings of the tested end
/// aren't answered.
pub fn run_script<R: WaitingRead, W: EndsDirection>(
    alloc: Global,
    case: &Case,
    plan: ScriptRun,
    first: Vec<u8>,
    connection: &mut Connection<R, W>,
) -> Result<Transcript, NoMemory>
    requires ready { IsReady connection.old }
    requires can { CanBeRun case.now }
    ensures runs { IfOk result (λ transcript.
        Records (plan_of plan) (bytes_by_turn case.now plan.key) first.items transcript
        (record { old = connection.old; new = connection.new })) }
{
    let script = turns_with(alloc, case, plan.key)?;
    let budget = connection.allowance();
    let tester = Tester::new(alloc, plan.test_plan(), script, first, budget)?;
    let transcript = run_tester(tester, connection)?;
    Ok(transcript)
}

/// Puts the request, and reads the head of the answer.
fn opened_by<R: WaitingRead, W: EndsDirection>(
    alloc: Global,
    case: &Case,
    asked: &Asked<'_>,
    connection: &mut Connection<R, W>,
) -> Result<ProbeStage, NoMemory>
    requires runs { CanBeRun case.now }
    requires request { CanBeAsked (request_value asked.now.request) }
    ensures { IfOk result (λ stage. IsOpened (plan_asked asked.now) (bytes_by_turn case.now (Some asked.now.key))
        (request_value asked.now.request) stage (record { old = connection.old; new = connection.new })) }
{
    let mut machine = probe_machine(alloc, case, asked, connection.allowance())?;
    open_over(&mut machine, connection)?;
    Ok(machine.into_stage())
}

/// Serves a probe of which nothing was told yet over a connection, until the head of the answer is whole, or there is
/// none. Its tester is told nothing.
fn open_over<R: WaitingRead, W: EndsDirection>(
    machine: &mut ProbeMachine<'_>,
    connection: &mut Connection<R, W>,
) -> Result<(), NoMemory>
    requires opening { machine.old.stage ≡ Opening }
    requires told { WasProbed machine.old machine.old [] }
    requires goes_on { HasNext (wanted_of machine.old) }
    ensures opens { OnOk result (OpensOver machine.old machine.new
        (record { old = connection.old; new = connection.new })) }
    ensures decided { OnOk result (is_opening machine.new.stage ≡ false) }
{
    let mut room = [0; HEAD_READ_SIZE];
    'steps: while machine.is_opening() {
        serve(machine, connection, &mut room)?;
    }
    Ok(())
}

/// Runs a tester that was told nothing yet over a connection.
fn run_tester<R: WaitingRead, W: EndsDirection>(
    tester: Tester,
    connection: &mut Connection<R, W>,
) -> Result<Transcript, NoMemory>
    requires told { WasTold tester tester [] }
    requires goes_on { HasNext (wanted_in tester.run) }
    ensures { IfOk result (λ transcript. RecordsFrom tester.run transcript
        (record { old = connection.old; new = connection.new })) }
{
    let mut tester = tester;
    drive_over(&mut tester, connection)?;
    let transcript = tester.into_end()?;
    Ok(transcript)
}

/// Serves a tester that was told nothing yet over a connection until it is done.
fn drive_over<R: WaitingRead, W: EndsDirection>(
    tester: &mut Tester,
    connection: &mut Connection<R, W>,
) -> Result<(), NoMemory>
    requires told { WasTold tester.old tester.old [] }
    requires goes_on { HasNext (wanted_in tester.old.run) }
    ensures drives { OnOk result (DrivesOver tester.old tester.new
        (record { old = connection.old; new = connection.new })) }
    ensures done { OnOk result ((wanted_in tester.new.run).done ≡ true) }
{
    let mut room = [0; READ_SIZE];
    'steps: while !tester.is_done() {
        serve(tester, connection, &mut room)?;
    }
    Ok(())
}
