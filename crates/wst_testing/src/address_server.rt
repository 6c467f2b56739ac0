//! A server at an address of a network: each case is run over a connection of its own, by the loop that doesn't wait in
//! a read.

ghost use Rattle.std.specs.Prelude.{◌≡◌, [], IfOk, Some, false};
ghost use Rattle.ws_frame.specs.Devices.{watched};
ghost use Rattle.ws_frame.specs.Watching.{has_failed};
ghost use Rattle.ws_scripts.specs.Scripts.{CanBeRun};
ghost use Rattle.ws_connection.specs.Probing.{BeginsProbe, bytes_by_turn};
ghost use Rattle.ws_connection.specs.UpgradeRequests.{CanBeAsked, request_value};
ghost use Rattle.ws_handshake.specs.Probes.{WasProbed, wanted_of};
ghost use Rattle.ws_machines.specs.Machines.{HasNext};
ghost use Rattle.wst_commands.specs.TimeLimits.{is_limited};
ghost use Rattle.wst_testing.specs.LineOutputs.{EndsOutput, ShowsMeeting};
ghost use Rattle.wst_testing.specs.Servers.{IsMeetingBy, IsShownMeeting, MeetsAtAddress, ShowsAtAddress, asked_by};
ghost use Rattle.wst_testing.specs.Servers.{MeetsBecause, ShowsBecause, asked_within, limits_within, meeting_at};
ghost use Rattle.wst_testing.specs.Servers.{limits_of_server, plan_at, reason_of_end, reason_of_miss};
ghost use Rattle.wst_sockets.specs.Connecting.{connect_fault_at};
ghost use Rattle.wst_sockets.specs.declared.meeting.Meeting.TheVariants.{NoConnection};

use crate::case_server::CaseServer;
use crate::line_output::{LineOutput, LineStop};
use crate::run_plans::RunPlan;
use std::alloc::Global;
use std::cell::Cell;
use std::io::{ErrorKind, Write};
use std::marker::Model;
use std::{io, slice};
use ws_base::NoMemory;
use ws_connection::{Asked, Probe, UpgradeRequest, probe_machine};
use ws_frame::{READ_SIZE, Watched};
use ws_handshake::ProbeMachine;
use ws_lines::Showing;
use ws_loops::{LoopFault, NoLines, Poller, WaitFailed, Wake};
use ws_networks::{Errand, Limits, Met, Missed, run_at};
use ws_shown::{ShownEnd, ShownProbe};
use ws_suite::{Case, Expectation};
use ws_targets::Target;
use wst_commands::TimeLimit;
use wst_network::{ConnectMiss, Connector, EndingStream, StreamEnd};
use wst_sockets::{
    ConnectFault, Meeting, Network, Notice, PATIENCE, Running, WaitTeller, connect_fault,
    lookup_fault,
};

/// A server that is met over a network, at an address. Contracts see what it is asked for, what is expected of it, how
/// long it is waited for and a connection to it may last, and the budget.
#[derive(Drop)]
pub struct AddressServer<'a, N, C> {
    net: &'a N,
    connector: &'a C,
    address: &'a str,
    request: UpgradeRequest<'a>,
    expected: Expectation,
    bounds: Bounds,
    notice: Cell<Notice>,
}

impl<'a, N, C> Model for AddressServer<'a, N, C> {
    ghost use Rattle.ws_connection.specs.UpgradeRequests.{CanBeAsked, request_value};
    ghost use Rattle.wst_testing.specs.Servers.{AddressValue};

    ghost Value = { AddressValue };

    ghost view = { λ server. record {
      request = request_value server.request;
      expected = server.expected;
      timeout = server.bounds.timeout;
      deadline = server.bounds.deadline;
      budget = server.bounds.budget;
    } };

    ghost invariant = { λ server. CanBeAsked (request_value server.request) };
}

impl<'a, N, C> AddressServer<'a, N, C> {
    /// The server at a target, as a plan asks for it.
    pub fn new(
        net: &'a N,
        connector: &'a C,
        target: &'a Target,
        plan: &'a RunPlan<'_>,
    ) -> AddressServer<'a, N, C>
        ensures { result ≡ asked_by plan.now target.now }
    {
        AddressServer {
            net,
            connector,
            address: target.address(),
            request: UpgradeRequest {
                host: target.host().as_bytes(),
                path: target.path(),
                protocols: plan.protocols.as_slice(),
                headers: plan.headers.as_slice(),
            },
            expected: plan.expected,
            bounds: Bounds {
                budget: plan.budget,
                timeout: plan.timeout,
                deadline: plan.deadline,
            },
            notice: Cell::new(Notice::of(plan.timeout)),
        }
    }
}

impl<'a, N, C> AddressServer<'a, N, C> {
    /// The address at which it is met.
    pub fn address(&self) -> &'a str {
        self.address
    }

    /// How long it is waited for, and how long a connection to it lasts.
    pub fn limits(&self) -> Limits
        ensures { result ≡ limits_of_server self.now }
    {
        self.bounds.limits()
    }

    /// The machine that asks for an upgrade, and then runs a case. Nothing was told it yet.
    pub fn probe(
        &self,
        alloc: Global,
        case: &Case,
        key: [u8; 4],
    ) -> Result<ProbeMachine<'a>, NoMemory>
        requires { CanBeRun case.now }
        ensures begins { IfOk result (BeginsProbe (plan_at self.now) (bytes_by_turn case.now (Some key))
            self.now.request self.now.budget) }
        ensures told { IfOk result (λ machine. WasProbed machine machine []) }
        ensures goes_on { IfOk result (λ machine. HasNext (wanted_of machine)) }
    {
        let timeouts = self.bounds.timeout.is_limited();
        let asked = Asked {
            request: self.request,
            key,
            expected: self.expected,
            has_timeouts: timeouts,
        };
        probe_machine(alloc, case, &asked, self.bounds.budget)
    }
}

impl<'a, N: Network, C: Connector> AddressServer<'a, N, C> {
    /// A new network, and what waits for its streams.
    pub fn network(&self, alloc: Global) -> io::Result<(C::Network, C::Poller)> {
        self.connector.network(alloc)
    }

    /// What tells of the waits of a run, of the case that is run.
    pub fn teller<'r>(&'r self, alloc: Global, running: Running<'r>) -> WaitTeller<'r, N> {
        WaitTeller::of(alloc, self.net, &self.notice, running)
    }

    /// Where it is told what stands beside the lines of a run.
    pub fn notices(&self) -> N::Notices {
        self.net.notices()
    }
}

impl<N: Network, C: Connector> CaseServer for AddressServer<'_, N, C> {
    ghost meets = { λ server key case meeting. MeetsAtAddress server key case meeting };

    ghost meets_shown = { λ server key case meeting. ShowsAtAddress server key case meeting };

    fn run(&self, alloc: Global, case: &Case, key: [u8; 4]) -> Result<Meeting, NoMemory> {
        let number = Cell::new(Some(1));
        let running = Running {
            cases: slice::from_ref(case),
            number: &number,
        };
        let asked = Asked {
            request: self.request,
            key,
            expected: self.expected,
            has_timeouts: self.bounds.timeout.is_limited(),
        };
        match self.connector.network(alloc) {
            Ok((mut network, poller)) => {
                let teller = WaitTeller::of(alloc, self.net, &self.notice, running);
                let mut poller = TellingPoller::of(poller, teller);
                let job = ServerCase {
                    case,
                    asked: &asked,
                    address: self.address,
                    bounds: self.bounds,
                };
                run_looped(alloc, job, &mut network, &mut poller)
            }
            Err(error) => without_network(error.kind()),
        }
    }

    fn run_shown<W: Write>(
        &self,
        alloc: Global,
        case: &Case,
        key: [u8; 4],
        showing: Showing,
        writer: &mut Watched<W>,
    ) -> Result<Meeting, LineStop> {
        let number = Cell::new(Some(1));
        let running = Running {
            cases: slice::from_ref(case),
            number: &number,
        };
        let has_timeouts = self.bounds.timeout.is_limited();
        let asked = Asked {
            request: self.request,
            key,
            expected: self.expected,
            has_timeouts,
        };
        match self.connector.network(alloc) {
            Ok((mut network, poller)) => {
                let teller = WaitTeller::of(alloc, self.net, &self.notice, running);
                let mut poller = TellingPoller::of(poller, teller);
                let job = ServerCase {
                    case,
                    asked: &asked,
                    address: self.address,
                    bounds: self.bounds,
                };
                show_looped(alloc, job, &mut network, &mut poller, showing, writer)
            }
            Err(error) => {
                let meeting = without_network(error.kind())?;
                Ok(meeting)
            }
        }
    }
}

/// So many milliseconds are a second.
const SECOND: u64 = 1000;

/// The place of a machine that is alone in its loop.
const ONLY: usize = 0;

/// How much is read of a server at an address in one case, how long it is waited for, and how long that may last.
#[derive(Clone, Copy)]
pub struct Bounds {
    /// At most so many bytes are read behind the head of its answer.
    pub budget: u64,
    /// A connection, and the server, is waited for so long.
    pub timeout: TimeLimit,
    /// The connection lasts so long.
    pub deadline: TimeLimit,
}

impl Bounds {
    /// Its limits of time, as a loop has them.
    pub(crate) fn limits(self) -> Limits
        ensures { result ≡ limits_within self.timeout self.deadline }
    {
        Limits {
            limit: self.timeout.milliseconds(),
            deadline: self.deadline.milliseconds(),
        }
    }
}

/// A case that is to be run over a server at an address.
#[derive(Clone, Copy)]
pub struct ServerCase<'a> {
    pub case: &'a Case,
    /// What is asked of the server before, and how the case is run.
    pub asked: &'a Asked<'a>,
    pub address: &'a str,
    pub bounds: Bounds,
}

/// Runs a case over a connection to an address, and tells why there is none, or why its answer was not whole, if so.
pub fn run_looped<N: ws_networks::Network<Miss = ConnectMiss>, P: Poller>(
    alloc: Global,
    job: ServerCase<'_>,
    network: &mut N,
    poller: &mut P,
) -> Result<Meeting, NoMemory>
where
    N::Stream: EndingStream,
    requires runs { CanBeRun job.case.now }
    requires request { CanBeAsked (request_value job.asked.now.request) }
    requires timeouts { job.asked.now.has_timeouts ≡ is_limited job.bounds.timeout }
    ensures meets { IfOk result (λ meeting.
        MeetsAtAddress (asked_within job.entry.asked.now job.entry.bounds) job.entry.asked.now.key job.entry.case.now
        meeting) }
    ensures why { IfOk result (λ meeting. MeetsBecause N.Stream.did N.did
        (asked_within job.entry.asked.now job.entry.bounds) job.entry.asked.now.key job.entry.case.now
        (P.time poller.old) (P.time poller.new) network.old network.new job.entry.address.now meeting) }
{
    let machine = probe_machine(alloc, job.case, job.asked, job.bounds.budget)?;
    let mut room = [0; READ_SIZE];
    let errand = Errand {
        name: job.address,
        machine,
        limits: job.bounds.limits(),
    };
    let met = run_at(alloc, network, poller, &mut NoLines, errand, &mut room);
    meeting_by(met)
}

/// Runs a case over a connection to an address, and writes the lines of the run as it goes on, each before anything
/// else happens there. It tells why there is no connection, or why its answer was not whole, if so.
pub fn show_looped<N: ws_networks::Network<Miss = ConnectMiss>, P: Poller, W: Write>(
    alloc: Global,
    job: ServerCase<'_>,
    network: &mut N,
    poller: &mut P,
    showing: Showing,
    writer: &mut Watched<W>,
) -> Result<Meeting, LineStop>
where
    N::Stream: EndingStream,
    requires runs { CanBeRun job.case.now }
    requires request { CanBeAsked (request_value job.asked.now.request) }
    requires timeouts { job.asked.now.has_timeouts ≡ is_limited job.bounds.timeout }
    requires works { has_failed writer.old ≡ false }
    ensures meets { IfOk result (λ meeting.
        ShowsAtAddress (asked_within job.entry.asked.now job.entry.bounds) job.entry.asked.now.key job.entry.case.now
        meeting) }
    ensures shown { IfOk result (λ meeting.
        ShowsMeeting showing meeting (watched W.contents writer.old writer.new)) }
    ensures why { IfOk result (λ meeting. ShowsBecause N.Stream.did N.did
        (asked_within job.entry.asked.now job.entry.bounds) job.entry.asked.now.key job.entry.case.now
        (P.time poller.old) (P.time poller.new) network.old network.new job.entry.address.now meeting
        (watched W.contents writer.old writer.new)) }
{
    let asking = probe_machine(alloc, job.case, job.asked, job.bounds.budget)?;
    let mut place = [0; READ_SIZE];
    let errand = Errand {
        name: job.address,
        machine: ShownProbe::new(alloc, showing, asking),
        limits: job.bounds.limits(),
    };
    let mut sink = LineOutput::new(ONLY, writer);
    let met = run_at(alloc, network, poller, &mut sink, errand, &mut place)?;
    let meeting = end_shown(met, &mut sink)?;
    Ok(meeting)
}

/// Writes the lines of a run that were not taken, and tells what came of its case.
fn end_shown<S: EndingStream + Drop, W: Write>(
    met: Met<ShownEnd, S, ConnectMiss>,
    sink: &mut LineOutput<'_, W>,
) -> Result<Meeting, LineStop>
    ensures meeting { IfOk result (IsShownMeeting met) }
    ensures last { IfOk result (λ meeting. EndsOutput W.contents met sink.old.writer.now sink.new.writer.now) }
    ensures borrow { sink.new.writer.ghost_name ≡ sink.old.writer.ghost_name }
{
    match met {
        Met::Ended(end, stream) => {
            let ShownEnd { probe, last } = end;
            sink.write_last(last.as_slice())?;
            Ok(meeting_of(probe, stream.stream_end()))
        }
        Met::NotMade(why) => {
            let meeting = without_connection(why)?;
            Ok(meeting)
        }
    }
}

/// What came of a case, where this came of its machine. Where nothing could be waited for, there is no connection.
fn meeting_by<S: EndingStream + Drop>(
    met: Result<Met<Probe, S, ConnectMiss>, LoopFault>,
) -> Result<Meeting, NoMemory>
    ensures { IfOk result (λ meeting. IsMeetingBy met meeting) }
{
    match met {
        Ok(Met::Ended(probe, stream)) => Ok(meeting_of(probe, stream.stream_end())),
        Ok(Met::NotMade(why)) => without_connection(why),
        Err(LoopFault::NoMemory) => Err(NoMemory),
        Err(LoopFault::WaitFailed | LoopFault::NoOutput) => {
            Ok(Meeting::NoConnection(ConnectFault::Failed))
        }
    }
}

/// What came of a case, where its stream has ended so.
pub fn meeting_of(probe: Probe, end: StreamEnd) -> Meeting
    ensures { result ≡ meeting_at probe (reason_of_end end) }
{
    match probe {
        Probe::Ran(transcript) => Meeting::Ran(transcript),
        Probe::Refused(refusal) => Meeting::Refused(refusal),
        Probe::NoConnection => Meeting::NoConnection(end_fault(end)),
    }
}

/// Why an answer was not whole, where the stream has ended so. Where it hasn't, a limit of time has passed.
fn end_fault(end: StreamEnd) -> ConnectFault
    ensures { result ≡ reason_of_end end }
{
    match end {
        StreamEnd::Open => ConnectFault::NoAnswer,
        StreamEnd::Ended => ConnectFault::ClosedBeforeAnswer,
        StreamEnd::Failed(kind) => connect_fault(kind),
    }
}

/// What came of a case, where no connection was made for this reason. That memory ran out for the look-up is no reason
/// of the network's.
pub fn without_connection(why: Missed<ConnectMiss>) -> Result<Meeting, NoMemory>
    ensures { IfOk result (λ meeting. meeting ≡ NoConnection (reason_of_miss why)) }
{
    match why {
        Missed::Failed(ConnectMiss::NotFound(ErrorKind::OutOfMemory)) => Err(NoMemory),
        Missed::NoAddress | Missed::TimedOut | Missed::Failed(_) => {
            Ok(Meeting::NoConnection(missed_fault(why)))
        }
    }
}

/// What came of a case for which no network could be had, for this reason.
pub fn without_network(kind: ErrorKind) -> Result<Meeting, NoMemory>
    ensures { IfOk result (λ meeting. meeting ≡ NoConnection (connect_fault_at kind)) }
{
    match kind {
        ErrorKind::OutOfMemory => Err(NoMemory),
        _ => Ok(Meeting::NoConnection(connect_fault(kind))),
    }
}

/// Why there is no connection, where none was made for this reason.
fn missed_fault(why: Missed<ConnectMiss>) -> ConnectFault
    ensures { result ≡ reason_of_miss why }
{
    match why {
        Missed::NoAddress => ConnectFault::NoSuchHost,
        Missed::TimedOut => ConnectFault::TimedOut,
        Missed::Failed(ConnectMiss::NotFound(kind)) => lookup_fault(kind),
        Missed::Failed(ConnectMiss::NotTaken(kind)) => connect_fault(kind),
    }
}

/// It waits as another poller does. While it is still to be told that a run waits, a wait is interrupted after ten
/// seconds in which no stream was found ready: it is told, and the wait goes on.
#[derive(Drop)]
pub struct TellingPoller<'a, P, N> {
    poller: P,
    teller: WaitTeller<'a, N>,
    asked: u64,
}

impl<'a, P, N> TellingPoller<'a, P, N> {
    /// One that waits by this poller, and tells of its waits so.
    pub fn of(poller: P, teller: WaitTeller<'a, N>) -> TellingPoller<'a, P, N>
        ensures { result.poller ≡ poller }
    {
        TellingPoller {
            poller,
            teller,
            asked: 0,
        }
    }

    /// The other poller.
    pub fn into_poller(self) -> P
        ensures { result ≡ self.entry.poller }
    {
        let TellingPoller { poller, .. } = self;
        poller
    }
}

impl<P: Poller, N: Network> TellingPoller<'_, P, N> {
    /// When it is to be told that a wait goes on, if that is before it ends.
    fn patience(&self, until: Option<u64>) -> Option<u64> {
        if !self.teller.is_pending() {
            return None;
        }
        let patience = self.asked.saturating_add(PATIENCE * SECOND);
        match until {
            Some(until) if until <= patience => None,
            Some(_) | None => Some(patience),
        }
    }
}

impl<P: Poller, N: Network> Poller for TellingPoller<'_, P, N> {
    ghost time = { λ p. P.time p.poller };

    ghost left = { λ p. P.left p.poller };

    fn now(&mut self) -> u64 {
        let now = self.poller.now();
        self.asked = now;
        now
    }

    fn wait(&mut self, found: &mut [Wake], until: Option<u64>) -> Result<usize, WaitFailed> {
        if let Some(patience) = self.patience(until) {
            let count = self.poller.wait(found, Some(patience))?;
            if count > 0 {
                return Ok(count);
            }
            self.teller.tell();
        }
        let count = self.poller.wait(found, until)?;
        Ok(count)
    }
}
