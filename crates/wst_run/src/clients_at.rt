//! Clients under test that come to an address of a network.

ghost use Rattle.std.specs.Prelude.{◌≡◌, ⊤, MatchResult, OnErr, OnOk, [], ◌∷◌, false, is_some, true};
ghost use Rattle.std.specs.List.{All};
ghost use Rattle.ws_frame.specs.Devices.{watched};
ghost use Rattle.ws_frame.specs.Watching.{has_failed};
ghost use Rattle.ws_scripts.specs.Scripts.{CanBeRun};
ghost use Rattle.ws_upgrade.specs.Protocols.{AreOffers};
ghost use Rattle.wst_commands.specs.Devices.{StaysFailed};
ghost use Rattle.wst_commands.specs.TimeLimits.{is_limited};
ghost use Rattle.wst_commands.specs.declared.exit.Exit.TheVariants.{Failed};
ghost use Rattle.wst_clients.specs.ClientTests.{IsVisitFault};
ghost use Rattle.wst_run.specs.ClientRuns.{AreRulesOf, AreScriptRulesOf, IsJobFor, IsJobOf, SendsAt, SendsScript};
ghost use Rattle.wst_run.specs.ClientRuns.{TestsAt, TestsClientsAt, VisitsAt, VisitsTold, client_showing};
ghost use Rattle.wst_testing.specs.Notes.{TellsEach};
ghost use Rattle.wst_services.specs.Serve.{listening_line};
ghost use Rattle.wst_run.specs.Test.{CanBeTested};
ghost use Rattle.wst_clients.specs.Turns.{unmet_as};
ghost use Rattle.wst_clients.specs.Visitors.{AreHeld, AreTestedBy};
ghost use Rattle.wst_clients.specs.Visits.{known_by};

use crate::send::{SendPlan, hint_echo};
use crate::site::{Site, telling};
use crate::test::TestPlan;
use std::alloc::Global;
use std::cell::Cell;
use std::io::Write;
use std::slice;
use ws_base::NoMemory;
use ws_frame::{DataStyle, Watched};
use ws_lines::Showing;
use ws_loops::{Listener, Poller};
use ws_reports::Report;
use ws_suite::Case;
use ws_tester::Tester;
use ws_wire::Role;
use wst_clients::{
    ClientDocument, ScriptRules, Telling, VisitRules, Visitors, capture_client, document_clients,
    script_client, show_client, test_clients,
};
use wst_commands::{Exit, Fault, ListenFault, deliver, end_run, tell};
use wst_network::Connector;
use wst_services::{listening_line, tell_listening};
use wst_sockets::{Network, Notice, Running, Waits, listen_over};
use wst_testing::{LineStop, RunPlan, capture_text};

/// Listens at an address, which is told in a line, with the port that the system chose in the place of a port 0, and
/// tests the clients that come, as a plan asks, and tells of them as a report does. Where a capture or a document is
/// asked for, that line goes to `faults`. Why nothing can be listened at is told there too.
pub(crate) fn test_clients_at<N: Network, C: Connector, W: Write, F: Write>(
    site: Site<'_, '_, N, C>,
    address: &str,
    plan: &TestPlan<'_>,
    report: &Report,
    writer: &mut Watched<W>,
    faults: &mut Watched<F>,
) -> Exit
    requires works { has_failed writer.old ≡ false }
    requires plan { CanBeTested plan.now }
    ensures { TestsClientsAt address.now plan.now report.now result (watched W.contents writer.old writer.new)
        (watched F.contents faults.old faults.new) }
{
    let alloc = site.alloc;
    let ended = test_at(site, address, plan, report, writer, faults);
    end_run(alloc, ended, faults)
}

/// Listens at an address, and tests the clients that come.
fn test_at<N: Network, C: Connector, W: Write, F: Write>(
    site: Site<'_, '_, N, C>,
    address: &str,
    plan: &TestPlan<'_>,
    report: &Report,
    writer: &mut Watched<W>,
    faults: &mut Watched<F>,
) -> Result<Exit, Fault>
    requires works { has_failed writer.old ≡ false }
    requires plan { CanBeTested plan.now }
    ensures tests { TestsAt address.now plan.now report.now result (watched W.contents writer.old writer.new)
        (watched F.contents faults.old faults.new) }
    ensures still { StaysFailed faults.old faults.new }
{
    let rules = visit_rules(plan, report);
    let job = client_job(plan, report);
    let visits = ClientRun { rules: &rules, job };
    visit_at(site, address, &plan.run, visits, writer, faults)
}

/// What is written of the clients of a plan.
fn client_job<'a>(plan: &TestPlan<'a>, report: &'a Report) -> ClientJob<'a>
    ensures { IsJobOf plan.now report.now result }
{
    if plan.capture {
        return ClientJob::Capture;
    }
    if report.is_junit() {
        return ClientJob::Document(ClientDocument {
            target: plan.target,
            report,
        });
    }
    ClientJob::Lines
}

/// What is written of the clients that come.
#[derive(Clone, Copy)]
pub(crate) enum ClientJob<'a> {
    /// The capture of the one case.
    Capture,
    /// This document.
    Document(ClientDocument<'a>),
    /// A line for each case.
    Lines,
}

/// How the clients that come are tested, and what is written of them.
#[derive(Clone, Copy)]
pub(crate) struct ClientRun<'a> {
    pub(crate) rules: &'a VisitRules<'a>,
    pub(crate) job: ClientJob<'a>,
}

/// Listens at an address, and tests the clients that come.
pub(crate) fn visit_at<N: Network, C: Connector, W: Write, F: Write>(
    site: Site<'_, '_, N, C>,
    address: &str,
    run: &RunPlan<'_>,
    visits: ClientRun<'_>,
    writer: &mut Watched<W>,
    faults: &mut Watched<F>,
) -> Result<Exit, Fault>
    requires works { has_failed writer.old ≡ false }
    requires can { All CanBeRun visits.rules.now.cases.now }
    requires one { IsJobFor visits.job visits.rules.now }
    requires known { AreOffers (known_by visits.rules.now) }
    requires protocols { known_by visits.rules.now ≡ run.now.protocols }
    requires wait { visits.rules.now.wait ≡ run.now.wait }
    requires limited { visits.rules.now.has_timeouts ≡ is_limited run.now.timeout }
    ensures tests { VisitsAt address.now visits.entry.job visits.entry.rules.now result
        (watched W.contents writer.old writer.new) (watched F.contents faults.old faults.new) }
    ensures still { StaysFailed faults.old faults.new }
{
    let heard = listen_over(site.alloc, site.connector, address)?;
    let number = Cell::new(None);
    let notice = Cell::new(Notice::of(run.timeout));
    let running = Running {
        cases: visits.rules.cases,
        number: &number,
    };
    let poller = telling(site.alloc, site.net, heard.poller, &notice, running);
    let mut visitors = Visitors::new(
        site.alloc,
        heard.listener,
        poller,
        run.protocols.as_slice(),
        waits_of(run),
        &number,
    )?;
    let told = heard.told.as_slice();
    test_told(site.alloc, &mut visitors, told, visits, writer, faults)
}

/// How long the clients of a plan are waited for, and how long a connection to one lasts.
pub(crate) fn waits_of(run: &RunPlan<'_>) -> Waits
    ensures { result ≡ record { byte = run.now.timeout; client = run.now.wait; deadline = run.now.deadline } }
{
    Waits {
        byte: run.timeout,
        client: run.wait,
        deadline: run.deadline,
    }
}

/// Tells at which address is listened, and tests the clients that come to it.
fn test_told<L: Listener + Drop, P: Poller + Drop, W: Write, F: Write>(
    alloc: Global,
    visitors: &mut Visitors<'_, Tester, L, P>,
    address: &[u8],
    visits: ClientRun<'_>,
    writer: &mut Watched<W>,
    faults: &mut Watched<F>,
) -> Result<Exit, Fault>
    requires works { has_failed writer.old ≡ false }
    requires can { All CanBeRun visits.rules.now.cases.now }
    requires one { IsJobFor visits.job visits.rules.now }
    requires known { AreOffers (known_by visits.rules.now) }
    requires are { AreTestedBy visits.rules.now visitors.old }
    requires limited { is_some visitors.old.clients.limits.limit ≡ visits.rules.now.has_timeouts }
    requires held { AreHeld L.Client.did visitors.old }
    ensures tests { VisitsTold (unmet_as L.did P.time visitors.old) address.now visits.entry.job
        visits.entry.rules.now result (watched W.contents writer.old writer.new)
        (watched F.contents faults.old faults.new) }
    ensures still { StaysFailed faults.old faults.new }
{
    let rules = visits.rules;
    match visits.job {
        ClientJob::Capture => {
            note_listening(alloc, address, faults)?;
            capture_client(alloc, visitors, rules, &rules.cases[0], writer, faults)
        }
        ClientJob::Document(document) => {
            note_listening(alloc, address, faults)?;
            document_clients(alloc, visitors, rules, document, writer, faults)
        }
        ClientJob::Lines => {
            let told = tell_listening(alloc, address, writer)?;
            if writer.failed() {
                return Ok(told);
            }
            test_clients(alloc, visitors, rules, writer, faults)
        }
    }
}

/// How the clients of a plan are tested.
fn visit_rules<'a>(plan: &'a TestPlan<'_>, report: &'a Report) -> VisitRules<'a>
    ensures rules { AreRulesOf plan.now report.now result }
    ensures known { AreOffers (known_by result) }
{
    VisitRules {
        cases: plan.cases.as_slice(),
        protocols: plan.run.protocols.as_slice(),
        budget: plan.run.budget,
        has_timeouts: plan.run.timeout.is_limited(),
        wait: plan.run.wait,
        expected: plan.run.expected,
        explains: plan.explain,
        progress: plan.progress,
        max_fail: plan.max_fail,
        telling: Telling::Cases(report),
    }
}

/// Tells on the fault output at which address is listened.
pub(crate) fn note_listening<F: Write>(
    alloc: Global,
    address: &[u8],
    faults: &mut Watched<F>,
) -> Result<(), NoMemory>
    ensures told { OnOk result
        (TellsEach (listening_line address.now ∷ []) (watched F.contents faults.old faults.new)) }
    ensures kept { OnErr result (faults.new ≡ faults.old) }
    ensures still { StaysFailed faults.old faults.new }
{
    let line = listening_line(alloc, address)?;
    tell(line.as_slice(), faults);
    Ok(())
}

/// Listens at an address, which is told to `faults` in a line, and sends a script to the first client whose request is
/// accepted, as a plan asks.
pub(crate) fn send_at<N: Network, C: Connector, W: Write, F: Write>(
    site: Site<'_, '_, N, C>,
    address: &str,
    plan: &SendPlan<'_>,
    case: &Case,
    writer: &mut Watched<W>,
    faults: &mut Watched<F>,
) -> Result<Exit, Fault>
    requires writer_works { has_failed writer.old ≡ false }
    requires can { CanBeRun case.now }
    ensures sends { SendsAt address.now plan.now case.now result (watched W.contents writer.old writer.new)
        (watched F.contents faults.old faults.new) }
    ensures still { StaysFailed faults.old faults.new }
{
    let heard = listen_over(site.alloc, site.connector, address)?;
    note_listening(site.alloc, heard.told.as_slice(), faults)?;
    let number = Cell::new(Some(1));
    let notice = Cell::new(Notice::of(plan.run.timeout));
    let running = Running {
        cases: slice::from_ref(case),
        number: &number,
    };
    let poller = telling(site.alloc, site.net, heard.poller, &notice, running);
    let come = Come {
        listener: heard.listener,
        poller,
        number: &number,
    };
    if plan.capture {
        capture_script(site.alloc, come, plan, case, writer, faults)
    } else {
        show_script(site.alloc, come, plan, case, writer, faults)
    }
}

/// Those who come: what is listened by, what waits for it, and where it stands which case is run.
#[derive(Drop)]
struct Come<'a, L, P> {
    listener: L,
    poller: P,
    number: &'a Cell<Option<u32>>,
}

/// Sends a script to a client, and writes the capture of the run.
fn capture_script<L: Listener + Drop, P: Poller + Drop, W: Write, F: Write>(
    alloc: Global,
    come: Come<'_, L, P>,
    plan: &SendPlan<'_>,
    case: &Case,
    writer: &mut Watched<W>,
    faults: &mut Watched<F>,
) -> Result<Exit, Fault>
    requires writer_works { has_failed writer.old ≡ false }
    requires can { CanBeRun case.now }
    requires captures { plan.now.capture ≡ true }
    ensures sends { SendsScript ⊤ plan.now case.now result
        (watched W.contents writer.old writer.new) (watched F.contents faults.old faults.new) }
    ensures still { StaysFailed faults.old faults.new }
{
    let rules = script_rules(plan, case);
    let known = plan.run.protocols.as_slice();
    let waits = waits_of(&plan.run);
    let mut visitors = Visitors::new(alloc, come.listener, come.poller, known, waits, come.number)?;
    let sent = script_client(alloc, &mut visitors, &rules, faults)?;
    let Some(transcript) = sent else {
        return Ok(Exit::Failed);
    };
    let text = capture_text(alloc, Role::Client, plan.run.key, transcript)?;
    Ok(deliver(Exit::Done, text.as_slice(), writer))
}

/// Sends a script to a client, and writes the lines of the run as it goes on.
#[inline(never)]
fn show_script<L: Listener + Drop, P: Poller + Drop, W: Write, F: Write>(
    alloc: Global,
    come: Come<'_, L, P>,
    plan: &SendPlan<'_>,
    case: &Case,
    writer: &mut Watched<W>,
    faults: &mut Watched<F>,
) -> Result<Exit, Fault>
    requires writer_works { has_failed writer.old ≡ false }
    requires can { CanBeRun case.now }
    requires shows { plan.now.capture ≡ false }
    ensures sends { SendsScript ⊤ plan.now case.now result
        (watched W.contents writer.old writer.new) (watched F.contents faults.old faults.new) }
    ensures still { StaysFailed faults.old faults.new }
{
    let rules = script_rules(plan, case);
    let known = plan.run.protocols.as_slice();
    let waits = waits_of(&plan.run);
    let mut visitors = Visitors::new(alloc, come.listener, come.poller, known, waits, come.number)?;
    let showing = client_showing(plan.style);
    let sent = match show_client(alloc, &mut visitors, &rules, showing, writer, faults) {
        Ok(sent) => sent,
        Err(why) => return end_of_lines(why, writer.failed()),
    };
    let Some(transcript) = sent else {
        return Ok(Exit::Failed);
    };
    hint_echo(alloc, Role::Client, plan.run.expected, &transcript, faults);
    Ok(Exit::Done)
}

/// How a run ends whose lines could not all be written, for this reason, where the output has failed or not.
fn end_of_lines(why: LineStop, failed: bool) -> Result<Exit, Fault>
    ensures { MatchResult result (λ exit. (exit ≡ Failed) × (failed ≡ true)) (IsVisitFault ⊤) }
{
    match why {
        LineStop::Output => {
            if failed {
                return Ok(Exit::Failed);
            }
            Err(Fault::NoMemory)
        }
        LineStop::NoMemory => Err(Fault::NoMemory),
        LineStop::Network => Err(Fault::NotListening(ListenFault::Failed)),
    }
}

/// How the lines of a run over a client are shown.
fn client_showing(style: DataStyle) -> Showing
    ensures { result ≡ client_showing style }
{
    Showing {
        tested: Role::Client,
        style,
        sent_fault: None,
        got_fault: None,
    }
}

/// How a script of a plan is sent.
fn script_rules<'a>(plan: &SendPlan<'_>, case: &'a Case) -> ScriptRules<'a>
    ensures { AreScriptRulesOf plan.now case.now result }
{
    ScriptRules {
        case,
        budget: plan.run.budget,
        has_timeouts: plan.run.timeout.is_limited(),
        expected: plan.run.expected,
    }
}
