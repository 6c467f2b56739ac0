//! Every short script as a case of clients that come to an address.

ghost use Rattle.std.specs.Prelude.{◌≡◌, ◌≤◌, IfOk, false};
ghost use Rattle.std.specs.List.{All};
ghost use Rattle.ws_frame.specs.Devices.{watched};
ghost use Rattle.ws_frame.specs.Watching.{has_failed};
ghost use Rattle.ws_scripts.specs.Scripts.{CanBeRun};
ghost use Rattle.ws_sweep.specs.Order.{ArePlaces, max_steps};
ghost use Rattle.ws_upgrade.specs.Protocols.{AreOffers};
ghost use Rattle.wst_commands.specs.Devices.{StaysFailed};
ghost use Rattle.wst_run.specs.ClientSweeps.{AreShortCases, AreSweepRulesOf, IsNamedCase, SweepsAt, SweepsCases};
ghost use Rattle.wst_run.specs.ClientSweeps.{SweepsClientsAt};
ghost use Rattle.wst_run.specs.declared.clients_at.ClientJob.TheVariants.{Lines};
ghost use Rattle.wst_clients.specs.Visits.{known_by};

use crate::clients_at::{ClientJob, ClientRun, visit_at};
use crate::site::Site;
use crate::sweep::SweepPlan;
use std::alloc::Global;
use std::io::Write;
use ws_base::NoMemory;
use ws_frame::Watched;
use ws_suite::{Case, Expectation};
use ws_sweep::{ShortScript, ShortScripts, short_case, tell_steps};
use ws_wire::Role;
use wst_clients::{Telling, VisitRules};
use wst_commands::{Exit, Fault, end_run};
use wst_network::Connector;
use wst_sockets::Network;

/// Listens at an address, which is told in a line, with the port that the system chose in the place of a port 0, and
/// tests the clients that come, whose cases are the short scripts of a plan. Why nothing can be listened at is told to
/// `faults`.
pub(crate) fn sweep_clients_at<N: Network, C: Connector, W: Write, F: Write>(
    site: Site<'_, '_, N, C>,
    address: &str,
    plan: &SweepPlan<'_>,
    writer: &mut Watched<W>,
    faults: &mut Watched<F>,
) -> Exit
    requires works { has_failed writer.old ≡ false }
    requires steps { plan.now.steps ≤ max_steps }
    ensures { SweepsClientsAt address.now plan.now result (watched W.contents writer.old writer.new)
        (watched F.contents faults.old faults.new) }
{
    let alloc = site.alloc;
    let ended = sweep_at(site, address, plan, writer, faults);
    end_run(alloc, ended, faults)
}

/// Listens at an address, and tests the clients that come.
fn sweep_at<N: Network, C: Connector, W: Write, F: Write>(
    site: Site<'_, '_, N, C>,
    address: &str,
    plan: &SweepPlan<'_>,
    writer: &mut Watched<W>,
    faults: &mut Watched<F>,
) -> Result<Exit, Fault>
    requires works { has_failed writer.old ≡ false }
    requires steps { plan.now.steps ≤ max_steps }
    ensures sweeps { SweepsAt address.now plan.now result (watched W.contents writer.old writer.new)
        (watched F.contents faults.old faults.new) }
    ensures still { StaysFailed faults.old faults.new }
{
    let cases = short_cases(site.alloc, plan.run.expected, plan.steps)?;
    sweep_cases(site, address, plan, cases.as_slice(), writer, faults)
}

/// Listens at an address, and tests the clients that come in these cases.
fn sweep_cases<'a, N: Network, C: Connector, W: Write, F: Write>(
    site: Site<'_, '_, N, C>,
    address: &str,
    plan: &'a SweepPlan<'_>,
    cases: &'a [Case],
    writer: &mut Watched<W>,
    faults: &mut Watched<F>,
) -> Result<Exit, Fault>
    requires works { has_failed writer.old ≡ false }
    requires can { All CanBeRun cases.now }
    ensures sweeps { SweepsCases address.now plan.now cases.now result
        (watched W.contents writer.old writer.new) (watched F.contents faults.old faults.new) }
    ensures still { StaysFailed faults.old faults.new }
{
    let rules = sweep_rules(plan, cases);
    let job = sweep_job(plan);
    let visits = ClientRun { rules: &rules, job };
    visit_at(site, address, &plan.run, visits, writer, faults)
}

/// What is written of the clients of a plan: lines.
fn sweep_job<'a>(_plan: &SweepPlan<'a>) -> ClientJob<'a>
    ensures { result ≡ Lines }
{
    ClientJob::Lines
}

/// How the clients of a plan are tested, with these cases.
fn sweep_rules<'a>(plan: &'a SweepPlan<'_>, cases: &'a [Case]) -> VisitRules<'a>
    ensures rules { AreSweepRulesOf plan.now cases.now result }
    ensures known { AreOffers (known_by result) }
{
    VisitRules {
        cases,
        protocols: plan.run.protocols.as_slice(),
        budget: plan.run.budget,
        has_timeouts: plan.run.timeout.is_limited(),
        wait: plan.run.wait,
        expected: plan.run.expected,
        explains: None,
        progress: plan.progress,
        max_fail: plan.max_fail,
        telling: Telling::Scripts { all: plan.all },
    }
}

/// The cases of the scripts of at most so many steps, in their order.
fn short_cases(alloc: Global, expected: Expectation, steps: usize) -> Result<Vec<Case>, NoMemory>
    requires { steps ≤ max_steps }
    ensures cases { IfOk result (λ cases. AreShortCases expected steps cases.items) }
    ensures runs { IfOk result (λ cases. All CanBeRun cases.items) }
{
    let mut cases = Vec::new(alloc);
    let mut scripts = ShortScripts::up_to(steps);
    while let Some(script) = scripts.next() {
        let case = named_case(alloc, expected, &script)?;
        cases.push(case)?;
    }
    Ok(cases)
}

/// The case of a script, named by all its steps.
fn named_case(alloc: Global, expected: Expectation, script: &ShortScript) -> Result<Case, NoMemory>
    requires { ArePlaces script.now }
    ensures named { IfOk result (IsNamedCase expected script.now) }
    ensures runs { IfOk result CanBeRun }
{
    let case = short_case(alloc, Role::Client, expected, None, script)?;
    let id = tell_steps(alloc, Role::Client, expected, script, case.steps.as_slice())?;
    let Case { steps, chop, .. } = case;
    Ok(Case { id, steps, chop })
}
