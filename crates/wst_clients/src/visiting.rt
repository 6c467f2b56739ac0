//! The turn of a client under test: the request of each who comes is answered (RFC 6455 sections 4.2 and 5 to 7);
//! what can be told is told at once; and who asks for a case waits until it is its turn, and then the case is run to
//! its end.

ghost use Rattle.std.specs.Prelude.{◌≡◌, ◌-◌, ◌≤◌, slice_get, IfErr, IfOk, IfSome, MatchOption, OnErr, OnOk, [], ◌∷◌};
ghost use Rattle.std.specs.Prelude.{length, string_bytes, Some, None};
ghost use Rattle.std.specs.List.{All};
ghost use Rattle.ws_frame.specs.Devices.{watched};
ghost use Rattle.ws_clients.specs.Talks.{IsAdmission};
ghost use Rattle.ws_handshake.specs.declared.admission.Admission.TheVariants as admission;
ghost use Rattle.ws_machines.specs.Machines.{HasNext};
ghost use Rattle.ws_paths.specs.Paths.{AsksWithin};
ghost use Rattle.ws_paths.specs.Texts.{info_text};
ghost use Rattle.ws_paths.specs.declared.purpose.Purpose.TheVariants.{UpdateReports};
ghost use Rattle.ws_scripts.specs.Scripts.{CanBeRun, turns_of};
ghost use Rattle.ws_scripts.specs.declared.script.Case.{Case};
ghost use Rattle.ws_tester.specs.Following.{WasTold};
ghost use Rattle.ws_tester.specs.RunStates.{wanted_in};
ghost use Rattle.wst_commands.specs.Devices.{StaysFailed};
ghost use Rattle.wst_testing.specs.Notes.{TellsEach};
ghost use Rattle.wst_testing.specs.Servers.{DidThese};
ghost use Rattle.wst_clients.specs.ClientLines.{name_told};
ghost use Rattle.wst_clients.specs.Turns.{AsksForCase, IsAdmitted, IsPlayedSo, IsPlayedTo, IsTakenIn, IsTurn};
ghost use Rattle.wst_clients.specs.Turns.{IsTurnAt, IsTurnOf, IsWhyNone, RunsOn, RunsThere, RunsTurn};
ghost use Rattle.wst_clients.specs.Turns.{TakesFirst, TakesNext, TellsThere, met_clients, unmet_as};
ghost use Rattle.wst_clients.specs.Visitors.{AreHeld, AreTestedBy, KeepsQueue, NobodyAt, PlayOn, StayHeldBut};
ghost use Rattle.wst_clients.specs.Visitors.{StayHeldWith, StayVisitors, StayWhere, WaitOn, WasAccepted, WasEndAsked};
ghost use Rattle.wst_clients.specs.Visitors.{ending_for};
ghost use Rattle.wst_clients.specs.Visits.{BeginsScript, BreaksTurn, CanBeVisited, HavePassed, IsInside};
ghost use Rattle.wst_clients.specs.Visits.{IsTextFor, TellsFor};
ghost use Rattle.wst_clients.specs.Visits.{case_for, known_by, visit_plan, refused_line};

use crate::visitors::{Ending, Visitors, Waiting};
use std::alloc::Global;
use std::io::Write;
use ws_base::NoMemory;
use ws_clients::Event;
use ws_frame::{DataStyle, Watched};
use ws_handshake::{AcceptedRequest, Admission};
use ws_loops::{Listener, LoopFault, NoLines, Poller};
use ws_paths::{Purpose, Standing, count_text, info_text, script_of, status_text};
use ws_reports::Report;
use ws_suite::{Case, Expectation, Transcript, turns_with};
use ws_tester::{TestPlan, Tester};
use ws_upgrade::HeadFault;
use ws_wire::Role;
use wst_commands::{TimeLimit, tell};
use wst_testing::tell_progress;

/// How cases are told of.
#[derive(Clone, Copy)]
pub enum Telling<'a> {
    /// As a report has each.
    Cases(&'a Report),
    /// Cases of short scripts, which are named by their steps: each that is a Fail, or with `all` also Loose, in a line
    /// before its name. A client is told their numbers for names.
    Scripts { all: bool },
}

/// How clients are tested.
#[derive(Clone, Copy)]
pub struct VisitRules<'a> {
    /// The cases that are given, numbered from 1.
    pub cases: &'a [Case],
    /// The subprotocols that are known.
    pub protocols: &'a [&'a [u8]],
    /// At most so many bytes are read of each connection behind the head of its request.
    pub budget: u64,
    /// Whether reads can wait in vain.
    pub has_timeouts: bool,
    /// How long the next client is waited for.
    pub wait: TimeLimit,
    /// What is expected of them.
    pub expected: Expectation,
    /// Below a verdict other than Pass it is told why, with payloads in this style, where one is named.
    pub explains: Option<DataStyle>,
    /// The name of each case is told before it runs.
    pub progress: bool,
    /// So many failures end the run, where a number of them is given.
    pub max_fail: Option<u32>,
    /// How cases are told of.
    pub telling: Telling<'a>,
}

/// What a turn came to.
#[derive(Drop)]
pub enum Visit {
    /// The end of the run was asked for, and that was answered.
    Over,
    /// The case was run that was asked for.
    Ran(Purpose, Transcript),
}

/// Why there is no client whose turn it is.
#[derive(Clone, Copy, PartialEq, Eq)]
pub enum NoVisit {
    /// None has asked in time.
    TooLate,
    /// None can come any more.
    Never,
}

/// How those who ask are answered while the cases stand so.
#[derive(Clone, Copy)]
pub struct Round<'a> {
    pub alloc: Global,
    pub rules: &'a VisitRules<'a>,
    pub standing: &'a Standing,
}

/// Whose turn it is.
#[derive(Drop)]
enum Turn {
    /// That of the client in this place, which asks for this, and has sent these bytes behind its head.
    Case(usize, Purpose, Vec<u8>),
    /// Nobody's any more: the end of the run was asked for, and nobody waits who had come before.
    Over,
    /// Nobody's.
    None(NoVisit),
}

/// The next turn: a client waits for it, or comes, and what it asks for is run to its end. Meanwhile the others are
/// answered: one whose request is refused, which is told to `faults`, one who asks for what can be told at once, and
/// one who asks for a case, and waits. The name of a case is told before it runs, where that is asked for.
pub(crate) fn take_next<L: Listener + Drop, P: Poller + Drop, F: Write>(
    round: Round<'_>,
    visitors: &mut Visitors<'_, Tester, L, P>,
    faults: &mut Watched<F>,
) -> Result<Result<Visit, NoVisit>, LoopFault>
    requires can { CanBeVisited round.rules.now round.standing.now }
    requires are { AreTestedBy round.rules.now visitors.old }
    requires held { AreHeld L.Client.did visitors.old }
    ensures visits { IfOk result (λ taken. TakesNext met_clients (unmet_as L.did P.time visitors.old)
        round.entry.rules.now round.entry.standing.now taken (watched F.contents faults.old faults.new)) }
    ensures inside { IfOk result (λ taken. IfOk taken (IsInside round.entry.rules.now)) }
    ensures none { IfOk result (λ taken. IfErr taken (λ why.
        IsWhyNone L.did P.time round.entry.rules.now why visitors.new)) }
    ensures lacks { OnErr result (BreaksTurn met_clients round.entry.rules.now round.entry.standing.now
        (watched F.contents faults.old faults.new)) }
    ensures are { OnOk result (AreTestedBy round.entry.rules.now visitors.new) }
    ensures held { OnOk result (AreHeld L.Client.did visitors.new) }
    ensures played { IfOk result (λ taken. IfOk taken (IsPlayedSo L.Client.did round.entry.rules.now
        round.entry.standing.now)) }
    ensures still { StaysFailed faults.old faults.new }
{
    match next_turn(round, visitors, faults)? {
        Turn::Case(at, purpose, behind) => {
            let transcript = run_turn(round, visitors, at, purpose, behind, faults)?;
            Ok(Ok(Visit::Ran(purpose, transcript)))
        }
        Turn::Over => Ok(Ok(Visit::Over)),
        Turn::None(why) => Ok(Err(why)),
    }
}

/// Runs the case that the client in this place asks for, whose name is told before, where that is asked for.
fn run_turn<L: Listener + Drop, P: Poller + Drop, F: Write>(
    round: Round<'_>,
    visitors: &mut Visitors<'_, Tester, L, P>,
    at: usize,
    purpose: Purpose,
    behind: Vec<u8>,
    faults: &mut Watched<F>,
) -> Result<Transcript, LoopFault>
    requires can { CanBeVisited round.rules.now round.standing.now }
    requires are { AreTestedBy round.rules.now visitors.old }
    requires held { AreHeld L.Client.did visitors.old }
    requires turn { IsTurnOf L.Client.did round.rules.now round.standing.now at purpose behind.items visitors.old }
    requires within { AsksWithin (length round.rules.now.cases.now) purpose }
    requires asks { AsksForCase round.rules.now purpose }
    ensures runs { IfOk result (λ transcript. RunsTurn round.entry.rules.now round.entry.standing.now
        purpose behind.items transcript (watched F.contents faults.old faults.new)) }
    ensures lacks { OnErr result (BreaksTurn met_clients round.entry.rules.now round.entry.standing.now
        (watched F.contents faults.old faults.new)) }
    ensures are { OnOk result (AreTestedBy round.entry.rules.now visitors.new) }
    ensures held { OnOk result (AreHeld L.Client.did visitors.new) }
    ensures played { IfOk result
        (IsPlayedTo L.Client.did round.entry.rules.now round.entry.standing.now purpose) }
    ensures since { IfOk result (λ ran. visitors.new.since ≡ P.time visitors.new.poller) }
    ensures queue { OnOk result (WaitOn visitors.old.waiting.items visitors.new.waiting.items) }
    ensures still { StaysFailed faults.old faults.new }
{
    match case_for(round.rules.cases, purpose) {
        Some(case) => {
            tell_progress(round.alloc, round.rules.progress, case, faults)?;
            let tester = tester_of(round, case, behind)?;
            visitors.number.set(purpose.number_to_run());
            let transcript = run_at(round, visitors, at, tester, faults)?;
            visitors.number.set(None);
            Ok(transcript)
        }
        // Who asks for no case has no turn.
        None => unreachable!(),
    }
}

/// Whose turn it is next, once it is known.
fn next_turn<L: Listener + Drop, P: Poller + Drop, F: Write>(
    round: Round<'_>,
    visitors: &mut Visitors<'_, Tester, L, P>,
    faults: &mut Watched<F>,
) -> Result<Turn, LoopFault>
    requires can { CanBeVisited round.rules.now round.standing.now }
    requires are { AreTestedBy round.rules.now visitors.old }
    requires held { AreHeld L.Client.did visitors.old }
    ensures turn { IfOk result (IsTurn (λ why. IsWhyNone L.did P.time round.entry.rules.now why visitors.new)
        round.entry.rules.now round.entry.standing.now) }
    ensures passed { HavePassed met_clients round.entry.rules.now round.entry.standing.now
        (watched F.contents faults.old faults.new) }
    ensures are { OnOk result (AreTestedBy round.entry.rules.now visitors.new) }
    ensures held { OnOk result (AreHeld L.Client.did visitors.new) }
    ensures asked { IfOk result (IsTurnAt L.Client.did round.entry.rules.now round.entry.standing.now visitors.new) }
    ensures still { StaysFailed faults.old faults.new }
{
    let mut left = u64::MAX;
    while left > 0 {
        left -= 1;
        if let Some(turn) = turn_of_waiting(round, visitors)? {
            return Ok(turn);
        }
        if let Some(why) = meet_next(round, visitors, faults)? {
            return Ok(Turn::None(why));
        }
    }
    Err(LoopFault::WaitFailed)
}

/// Waits until something has happened among those who come, and sees to it; or tells why there is no turn.
fn meet_next<L: Listener + Drop, P: Poller + Drop, F: Write>(
    round: Round<'_>,
    visitors: &mut Visitors<'_, Tester, L, P>,
    faults: &mut Watched<F>,
) -> Result<Option<NoVisit>, LoopFault>
    requires can { CanBeVisited round.rules.now round.standing.now }
    requires are { AreTestedBy round.rules.now visitors.old }
    requires held { AreHeld L.Client.did visitors.old }
    ensures none { IfOk result (λ met. IfSome met (λ why.
        IsWhyNone L.did P.time round.entry.rules.now why visitors.new)) }
    ensures passed { HavePassed met_clients round.entry.rules.now round.entry.standing.now
        (watched F.contents faults.old faults.new) }
    ensures are { OnOk result (AreTestedBy round.entry.rules.now visitors.new) }
    ensures held { OnOk result (AreHeld L.Client.did visitors.new) }
    ensures still { StaysFailed faults.old faults.new }
{
    let until = visitors.wait_end();
    let event = visitors.next(&mut NoLines, until)?;
    match event {
        Event::TooLate => Ok(Some(NoVisit::TooLate)),
        Event::Full(_) => Ok(None),
        Event::Deaf(_) => Ok(Some(NoVisit::Never)),
        Event::Decided(at, admission) => {
            admit(round, visitors, at, admission, faults)?;
            Ok(None)
        }
        Event::Played(at, _) => {
            visitors.leave(at);
            Ok(None)
        }
        Event::Gone(at, _) => {
            visitors.leave(at);
            Ok(None)
        }
    }
}

/// The turn of the first of those who wait, if it asks for a case: by now that may not be so, and then it is answered.
/// Where nobody waits, and the end of the run was answered, it is nobody's any more.
fn turn_of_waiting<L: Listener + Drop, P: Poller + Drop>(
    round: Round<'_>,
    visitors: &mut Visitors<'_, Tester, L, P>,
) -> Result<Option<Turn>, NoMemory>
    requires can { CanBeVisited round.rules.now round.standing.now }
    requires are { AreTestedBy round.rules.now visitors.old }
    requires held { AreHeld L.Client.did visitors.old }
    ensures turn { IfOk result (λ turn. IfSome turn
        (IsTurn (λ why. ⊥) round.entry.rules.now round.entry.standing.now)) }
    ensures order { IfOk result (TakesFirst round.entry.rules.now round.entry.standing.now visitors.old.ending
        visitors.old.waiting.items visitors.new.waiting.items) }
    ensures are { OnOk result (AreTestedBy round.entry.rules.now visitors.new) }
    ensures held { OnOk result (AreHeld L.Client.did visitors.new) }
    ensures asked { IfOk result (λ turn. IfSome turn
        (IsTurnAt L.Client.did round.entry.rules.now round.entry.standing.now visitors.new)) }
{
    while let Some(first) = visitors.first_waiting() {
        let Waiting { at, request } = first;
        let purpose = round.standing.purpose(request.path.as_slice());
        match purpose.number_to_run() {
            Some(_) => return Ok(Some(Turn::Case(at, purpose, request.behind))),
            None => answer(round, visitors, at, purpose, request.behind)?,
        }
    }
    match visitors.ending {
        Ending::Answered => Ok(Some(Turn::Over)),
        Ending::NotAsked | Ending::Answering(_) => Ok(None),
    }
}

/// Runs a case over the client in this place, to its end, while the others are answered.
fn run_at<L: Listener + Drop, P: Poller + Drop, F: Write>(
    round: Round<'_>,
    visitors: &mut Visitors<'_, Tester, L, P>,
    at: usize,
    tester: Tester,
    faults: &mut Watched<F>,
) -> Result<Transcript, LoopFault>
    requires can { CanBeVisited round.rules.now round.standing.now }
    requires are { AreTestedBy round.rules.now visitors.old }
    requires held { AreHeld L.Client.did visitors.old }
    requires nobody { NobodyAt at visitors.old.waiting.items }
    requires untold { WasTold tester tester [] }
    requires goes_on { HasNext (wanted_in tester.run) }
    ensures runs { IfOk result (RunsThere L.Client.did visitors.old.clients.held at tester.run) }
    ensures since { IfOk result (λ ran. visitors.new.since ≡ P.time visitors.new.poller) }
    ensures queue { OnOk result (WaitOn visitors.old.waiting.items visitors.new.waiting.items) }
    ensures passed { HavePassed met_clients round.entry.rules.now round.entry.standing.now
        (watched F.contents faults.old faults.new) }
    ensures are { OnOk result (AreTestedBy round.entry.rules.now visitors.new) }
    ensures held { OnOk result (AreHeld L.Client.did visitors.new) }
    ensures still { StaysFailed faults.old faults.new }
{
    if !visitors.play(at, tester) {
        return Err(LoopFault::NoMemory);
    }
    let mut left = u64::MAX;
    while left > 0 {
        left -= 1;
        if let Some(transcript) = run_on(round, visitors, at, faults)? {
            return Ok(transcript);
        }
    }
    Err(LoopFault::WaitFailed)
}

/// Waits until something has happened while a case is run over the client in this place, and sees to it. Answers what
/// came of the case, once it has ended.
fn run_on<L: Listener + Drop, P: Poller + Drop, F: Write>(
    round: Round<'_>,
    visitors: &mut Visitors<'_, Tester, L, P>,
    at: usize,
    faults: &mut Watched<F>,
) -> Result<Option<Transcript>, LoopFault>
    requires can { CanBeVisited round.rules.now round.standing.now }
    requires are { AreTestedBy round.rules.now visitors.old }
    requires held { AreHeld L.Client.did visitors.old }
    ensures runs { IfOk result
        (RunsOn L.Client.did visitors.old.clients.places visitors.new.clients.places at) }
    ensures since { IfOk result (λ came. IfSome came (λ ran. visitors.new.since ≡ P.time visitors.new.poller)) }
    ensures queue { OnOk result (WaitOn visitors.old.waiting.items visitors.new.waiting.items) }
    ensures passed { HavePassed met_clients round.entry.rules.now round.entry.standing.now
        (watched F.contents faults.old faults.new) }
    ensures are { OnOk result (AreTestedBy round.entry.rules.now visitors.new) }
    ensures held { OnOk result (AreHeld L.Client.did visitors.new) }
    ensures still { StaysFailed faults.old faults.new }
{
    let event = visitors.next(&mut NoLines, None)?;
    match event {
        Event::Played(place, transcript) => {
            visitors.leave(place);
            if place == at {
                visitors.wait_anew();
                return Ok(Some(transcript));
            }
            Ok(None)
        }
        Event::Gone(place, _) => {
            if place == at {
                return Err(LoopFault::NoMemory);
            }
            visitors.leave(place);
            Ok(None)
        }
        Event::Decided(place, admission) => {
            admit(round, visitors, place, admission, faults)?;
            Ok(None)
        }
        Event::TooLate => Ok(None),
        Event::Full(_) => Ok(None),
        Event::Deaf(_) => Ok(None),
    }
}

/// This came of the request of the client in this place: it is answered, waits for its turn, or is left.
fn admit<L: Listener + Drop, P: Poller + Drop, F: Write>(
    round: Round<'_>,
    visitors: &mut Visitors<'_, Tester, L, P>,
    at: usize,
    admission: Admission,
    faults: &mut Watched<F>,
) -> Result<(), NoMemory>
    requires can { CanBeVisited round.rules.now round.standing.now }
    requires are { AreTestedBy round.rules.now visitors.old }
    requires came { IsAdmission DidThese (known_by round.rules.now) admission }
    ensures passed { HavePassed met_clients round.entry.rules.now round.entry.standing.now
        (watched F.contents faults.old faults.new) }
    ensures admitted { OnOk result (IsAdmitted L.Client.did round.entry.rules.now round.entry.standing.now at admission
        visitors.old visitors.new) }
    ensures are { OnOk result (AreTestedBy round.entry.rules.now visitors.new) }
    ensures held { OnOk result (StayHeldWith L.Client.did at admission visitors.old visitors.new) }
    ensures plays { PlayOn WasTold L.Client.did visitors.old visitors.new }
    ensures still { StaysFailed faults.old faults.new }
{
    match admission {
        Admission::Accepted(request) => take_in(round, visitors, at, request),
        Admission::Refused(fault) => {
            tell_refused(round.alloc, fault, faults)?;
            visitors.wait_anew();
            visitors.leave(at);
            Ok(())
        }
        Admission::Lost => {
            visitors.leave(at);
            Ok(())
        }
    }
}

/// The request of the client in this place was accepted: it is answered, or waits for its turn.
fn take_in<L: Listener + Drop, P: Poller + Drop>(
    round: Round<'_>,
    visitors: &mut Visitors<'_, Tester, L, P>,
    at: usize,
    request: AcceptedRequest,
) -> Result<(), NoMemory>
    requires can { CanBeVisited round.rules.now round.standing.now }
    requires are { AreTestedBy round.rules.now visitors.old }
    requires accepted { WasAccepted (known_by round.rules.now) request }
    ensures taken { OnOk result
        (IsTakenIn L.Client.did round.entry.rules.now round.entry.standing.now at request visitors.old visitors.new) }
    ensures are { OnOk result (AreTestedBy round.entry.rules.now visitors.new) }
    ensures held { OnOk result
        (StayHeldWith L.Client.did at (admission.Accepted request) visitors.old visitors.new) }
    ensures plays { PlayOn WasTold L.Client.did visitors.old visitors.new }
{
    visitors.wait_anew();
    let purpose = round.standing.purpose(request.path.as_slice());
    match purpose.number_to_run() {
        Some(_) => {
            visitors.wait_turn(at, request)?;
            Ok(())
        }
        None => {
            answer(round, visitors, at, purpose, request.behind)?;
            end_by(visitors, at, purpose);
            Ok(())
        }
    }
}

/// The end of the run is asked for where the client in this place asks for this.
fn end_by<L: Listener + Drop, P: Poller + Drop>(
    visitors: &mut Visitors<'_, Tester, L, P>,
    at: usize,
    purpose: Purpose,
)
    ensures asked { visitors.new.ending ≡ ending_for purpose at visitors.old.ending }
    ensures waiting { visitors.new.waiting ≡ visitors.old.waiting }
    ensures clients { visitors.new.clients ≡ visitors.old.clients }
    ensures stay { StayWhere (λ known. purpose ≡ UpdateReports → WasEndAsked known) visitors.old visitors.new }
{
    match purpose {
        Purpose::UpdateReports => visitors.ask_end(at),
        Purpose::CaseCount
        | Purpose::RunCase(_)
        | Purpose::CaseInfo(_)
        | Purpose::CaseStatus(_)
        | Purpose::NextCase(_)
        | Purpose::NoCase => {}
    }
}

/// Tells the client in this place at once what it asks for.
fn answer<L: Listener + Drop, P: Poller + Drop>(
    round: Round<'_>,
    visitors: &mut Visitors<'_, Tester, L, P>,
    at: usize,
    purpose: Purpose,
    behind: Vec<u8>,
) -> Result<(), NoMemory>
    requires can { CanBeVisited round.rules.now round.standing.now }
    requires within { AsksWithin (length round.rules.now.cases.now) purpose }
    ensures tells { OnOk result
        ((script : Case) × TellsFor round.entry.rules.now round.entry.standing.now purpose script) }
    ensures begun { OnOk result (TellsThere L.Client.did round.entry.rules.now round.entry.standing.now purpose
        behind.items at visitors.old visitors.new) }
    ensures plays { PlayOn WasTold L.Client.did visitors.old visitors.new }
    ensures queue { KeepsQueue visitors.old visitors.new }
    ensures held { OnOk result (StayHeldBut L.Client.did at visitors.old visitors.new) }
    ensures stay { StayVisitors visitors.old visitors.new }
{
    let text = text_for(round.alloc, round.rules, round.standing, purpose)?;
    let script = script_of(round.alloc, text)?;
    let tester = tester_of(round, &script, behind)?;
    visitors.play(at, tester);
    Ok(())
}

/// Tells that a request was refused.
pub(crate) fn tell_refused<F: Write>(
    alloc: Global,
    fault: HeadFault,
    faults: &mut Watched<F>,
) -> Result<(), NoMemory>
    ensures told { OnOk result (TellsEach (refused_line fault ∷ []) (watched F.contents faults.old faults.new)) }
    ensures kept { OnErr result (faults.new ≡ faults.old) }
    ensures still { StaysFailed faults.old faults.new }
{
    let line = format!(in alloc; "refused {fault}\n")?;
    tell(line.as_bytes(), faults);
    Ok(())
}

/// The tester of a script over a client whose request was answered, which has sent these bytes behind its head.
fn tester_of(round: Round<'_>, script: &Case, behind: Vec<u8>) -> Result<Tester, NoMemory>
    requires { CanBeRun script.now }
    ensures begins { IfOk result (λ tester. BeginsScript (visit_plan round.entry.rules.now)
        round.entry.rules.now.budget script.now behind.items tester.run) }
    ensures told { IfOk result (λ tester. WasTold tester tester []) }
    ensures goes_on { IfOk result (λ tester. HasNext (wanted_in tester.run)) }
{
    let turns = turns_with(round.alloc, script, None)?;
    let plan = TestPlan {
        tested: Role::Client,
        expected: round.rules.expected,
        has_timeouts: round.rules.has_timeouts,
    };
    let tester = Tester::new(round.alloc, plan, turns, behind, round.rules.budget)?;
    Ok(tester)
}

/// The case that is run for what is asked for, if one is.
pub(crate) fn case_for(cases: &[Case], purpose: Purpose) -> Option<&Case>
    requires can { All CanBeRun cases.now }
    requires within { AsksWithin (length cases.now) purpose }
    ensures { MatchOption result (case_for cases.now purpose ≡ None)
        (λ case. (case_for cases.now purpose ≡ Some case.now) × CanBeRun case.now) }
{
    match purpose.number_to_run() {
        Some(number) => Some(&cases[number as usize - 1]),
        None => None,
    }
}

/// The case of a number.
fn case_at(cases: &[Case], number: u32) -> &Case
    requires can { All CanBeRun cases.now }
    requires from_one { 1 ≤ number }
    requires there { number ≤ length cases.now }
    ensures there { slice_get cases.now (number - 1) ≡ Some result.now }
    ensures runs { CanBeRun result.now }
{
    &cases[number as usize - 1]
}

/// The text that is told to a connection for which no case is run, if one is.
fn text_for(
    alloc: Global,
    rules: &VisitRules<'_>,
    standing: &Standing,
    purpose: Purpose,
) -> Result<Option<String>, NoMemory>
    requires can { All CanBeRun rules.now.cases.now }
    requires counted { length standing.now.behaviors ≡ length rules.now.cases.now }
    requires within { AsksWithin (length rules.now.cases.now) purpose }
    ensures { IfOk result (IsTextFor rules.now standing.now purpose) }
{
    match purpose {
        Purpose::CaseCount => {
            let text = count_text(alloc, standing.count())?;
            Ok(Some(text))
        }
        Purpose::CaseInfo(number) => {
            let case = case_at(rules.cases, number);
            let text = info_of(alloc, rules.telling, number, case)?;
            Ok(Some(text))
        }
        Purpose::CaseStatus(number) => {
            let text = status_text(alloc, standing.behavior(number))?;
            Ok(Some(text))
        }
        Purpose::UpdateReports | Purpose::NoCase | Purpose::RunCase(_) | Purpose::NextCase(_) => Ok(
            None,
        ),
    }
}

/// The text that tells of a case its name, and how many turns it has.
fn info_of(
    alloc: Global,
    telling: Telling<'_>,
    number: u32,
    case: &Case,
) -> Result<String, NoMemory>
    requires { CanBeRun case.now }
    ensures { IfOk result (λ text.
        string_bytes text ≡ info_text (name_told telling.entry number case.now) (length (turns_of case.now.steps))) }
{
    let turns = turns_with(alloc, case, None)?;
    let name = name_for(alloc, telling, number, case)?;
    let text = info_text(alloc, name.as_str(), turns.len())?;
    Ok(text)
}

/// The name of a case of this number as a client is told it.
fn name_for(
    alloc: Global,
    telling: Telling<'_>,
    number: u32,
    case: &Case,
) -> Result<String, NoMemory>
    ensures { IfOk result (λ name. string_bytes name ≡ name_told telling.entry number case.now) }
{
    match telling {
        Telling::Cases(_) => {
            let name = String::from_str(alloc, case.id.as_str())?;
            Ok(name)
        }
        Telling::Scripts { .. } => {
            let name = format!(in alloc; "{number}")?;
            Ok(name)
        }
    }
}
