//! A script that is sent to the first client whose request is accepted, whatever it asks for.

ghost use Rattle.std.specs.Prelude.{◌≡◌, ⊤, IfErr, IfOk, IfSome, OnOk, [], false};
ghost use Rattle.ws_frame.specs.Devices.{watched};
ghost use Rattle.ws_frame.specs.Watching.{has_failed};
ghost use Rattle.ws_machines.specs.Machines.{HasNext};
ghost use Rattle.ws_scripts.specs.Scripts.{CanBeRun};
ghost use Rattle.ws_shown.specs.ShownRuns.{WasRunShown};
ghost use Rattle.ws_shown.specs.ShownTesters.{wanted_shown};
ghost use Rattle.ws_tester.specs.Following.{WasTold};
ghost use Rattle.ws_tester.specs.RunStates.{wanted_in};
ghost use Rattle.wst_commands.specs.Devices.{StaysFailed};
ghost use Rattle.wst_testing.specs.LineWriting.{HasWrittenRun};
ghost use Rattle.wst_clients.specs.ClientSends.{AreMetSo, EndsInPlace, FindsFirst, GivesOver, IsFirstAt, IsFoundAt};
ghost use Rattle.wst_clients.specs.ClientSends.{IsPlayedAt, IsRunAt, IsSentThere, ScriptsFirst, ScriptsOver};
ghost use Rattle.wst_clients.specs.ClientSends.{SeeksFirst, ShowsSent, TakesAccepted};
ghost use Rattle.wst_clients.specs.Visitors.{PlayOn, StayVisitors};
ghost use Rattle.wst_clients.specs.ClientTests.{IsVisitFault};
ghost use Rattle.wst_clients.specs.Visits.{BeginsScript, IsPlayed, IsRunOver, client_plan};

use crate::testing_clients::fault_of;
use crate::visiting::tell_refused;
use crate::visitors::Visitors;
use std::alloc::Global;
use std::io::Write;
use ws_base::NoMemory;
use ws_clients::Event;
use ws_frame::Watched;
use ws_handshake::Admission;
use ws_lines::Showing;
use ws_loops::{LineSink, Listener, LoopFault, NoLines, Poller};
use ws_machines::Machine;
use ws_shown::{RunEnd, ShownRun};
use ws_suite::{Case, Expectation, Transcript, turns_with};
use ws_tester::{TestPlan, Tester};
use ws_wire::Role;
use wst_commands::{Fault, tell};
use wst_sockets::ConnectFault;
use wst_testing::{LineOutput, LineStop};

/// The script that is sent to a client, and how.
#[derive(Clone, Copy)]
pub struct ScriptRules<'a> {
    pub case: &'a Case,
    /// At most so many bytes are read behind the head of its request.
    pub budget: u64,
    /// Whether reads can wait in vain.
    pub has_timeouts: bool,
    /// What is expected of it.
    pub expected: Expectation,
}

/// Runs the script over the first client whose request is accepted. `None` where none can come any more, or none came
/// in time, which is told to `faults`, and so is a request that is refused.
pub fn script_client<L: Listener + Drop, P: Poller + Drop, F: Write>(
    alloc: Global,
    visitors: &mut Visitors<'_, Tester, L, P>,
    rules: &ScriptRules<'_>,
    faults: &mut Watched<F>,
) -> Result<Option<Transcript>, Fault>
    requires can { CanBeRun rules.now.case.now }
    ensures scripts { IfOk result (λ sent. ScriptsOver L.did P.time rules.now visitors.old visitors.new sent
        (watched F.contents faults.old faults.new)) }
    ensures why { IfErr result (IsVisitFault ⊤) }
    ensures there { IfOk result (λ sent. IfSome sent (IsSentThere L.Client.did visitors.old.clients.known rules.now)) }
    ensures still { StaysFailed faults.old faults.new }
{
    let sent = script_first(alloc, visitors, rules, faults);
    let _ = visitors.end_all(&mut NoLines);
    sent
}

/// The same, and leaves those who are left.
fn script_first<L: Listener + Drop, P: Poller + Drop, F: Write>(
    alloc: Global,
    visitors: &mut Visitors<'_, Tester, L, P>,
    rules: &ScriptRules<'_>,
    faults: &mut Watched<F>,
) -> Result<Option<Transcript>, Fault>
    requires can { CanBeRun rules.now.case.now }
    ensures scripts { IfOk result (λ sent. ScriptsFirst L.did P.time rules.now visitors.old visitors.new sent
        (watched F.contents faults.old faults.new)) }
    ensures why { IfErr result (IsVisitFault ⊤) }
    ensures there { IfOk result (λ sent. IfSome sent (IsSentThere L.Client.did visitors.old.clients.known rules.now)) }
    ensures still { StaysFailed faults.old faults.new }
{
    let first = match first_accepted(alloc, visitors, faults) {
        Ok(first) => first,
        Err(why) => return Err(fault_of(why)),
    };
    let Some((at, behind)) = first else {
        return Ok(None);
    };
    let transcript = script_at(alloc, visitors, rules, at, behind)?;
    Ok(Some(transcript))
}

/// Runs the script over the client in this place, which has sent these bytes behind its head.
fn script_at<L: Listener + Drop, P: Poller + Drop>(
    alloc: Global,
    visitors: &mut Visitors<'_, Tester, L, P>,
    rules: &ScriptRules<'_>,
    at: usize,
    behind: Vec<u8>,
) -> Result<Transcript, Fault>
    requires can { CanBeRun rules.now.case.now }
    ensures played { IfOk result (IsPlayed (client_plan rules.now.expected rules.now.has_timeouts) rules.now.budget
        rules.now.case.now behind.items) }
    ensures there { IfOk result (IsPlayedAt L.Client.did visitors.old.clients.held at rules.now behind.items) }
    ensures why { IfErr result (IsVisitFault ⊤) }
{
    let tester = tester_of(alloc, rules, behind)?;
    match play_alone(visitors, at, tester, &mut NoLines) {
        Ok(transcript) => Ok(transcript),
        Err(why) => Err(fault_of(why)),
    }
}

/// The same, and writes the lines of the run as it goes on, each before anything else happens there.
pub fn show_client<L: Listener + Drop, P: Poller + Drop, W: Write, F: Write>(
    alloc: Global,
    visitors: &mut Visitors<'_, ShownRun, L, P>,
    rules: &ScriptRules<'_>,
    showing: Showing,
    writer: &mut Watched<W>,
    faults: &mut Watched<F>,
) -> Result<Option<Transcript>, LineStop>
    requires works { has_failed writer.old ≡ false }
    requires can { CanBeRun rules.now.case.now }
    ensures scripts { IfOk result (λ sent. ScriptsOver L.did P.time rules.now visitors.old visitors.new sent
        (watched F.contents faults.old faults.new)) }
    ensures shown { IfOk result (λ sent. ShowsSent showing sent (watched W.contents writer.old writer.new)) }
    ensures there { IfOk result (λ sent. IfSome sent (IsSentThere L.Client.did visitors.old.clients.known rules.now)) }
    ensures still { StaysFailed faults.old faults.new }
{
    let sent = show_first(alloc, visitors, rules, showing, writer, faults);
    let _ = visitors.end_all(&mut NoLines);
    sent
}

/// The same, and leaves those who are left.
fn show_first<L: Listener + Drop, P: Poller + Drop, W: Write, F: Write>(
    alloc: Global,
    visitors: &mut Visitors<'_, ShownRun, L, P>,
    rules: &ScriptRules<'_>,
    showing: Showing,
    writer: &mut Watched<W>,
    faults: &mut Watched<F>,
) -> Result<Option<Transcript>, LineStop>
    requires works { has_failed writer.old ≡ false }
    requires can { CanBeRun rules.now.case.now }
    ensures scripts { IfOk result (λ sent. ScriptsFirst L.did P.time rules.now visitors.old visitors.new sent
        (watched F.contents faults.old faults.new)) }
    ensures shown { IfOk result (λ sent. ShowsSent showing sent (watched W.contents writer.old writer.new)) }
    ensures there { IfOk result (λ sent. IfSome sent (IsSentThere L.Client.did visitors.old.clients.known rules.now)) }
    ensures still { StaysFailed faults.old faults.new }
{
    let first = match first_accepted(alloc, visitors, faults) {
        Ok(first) => first,
        Err(why) => return Err(line_stop(why)),
    };
    let Some((at, behind)) = first else {
        return Ok(None);
    };
    let run = run_of(alloc, rules, showing, behind)?;
    let transcript = show_alone(visitors, at, run, writer)?;
    Ok(Some(transcript))
}

/// Why no more lines are written, where a loop has stopped so.
fn line_stop(why: LoopFault) -> LineStop {
    match why {
        LoopFault::NoMemory => LineStop::NoMemory,
        LoopFault::WaitFailed | LoopFault::NoOutput => LineStop::Network,
    }
}

/// What has come of a search for the first client whose request is accepted.
#[derive(Drop)]
enum Search {
    /// It is in this place, and has sent this behind its head.
    Found(usize, Vec<u8>),
    /// There is none.
    Over,
    /// Only others were met so far.
    GoesOn,
}

/// The place of the first client whose request is accepted, and what it has sent behind its head. `None` where there is
/// none.
fn first_accepted<M: Machine + Drop, L: Listener + Drop, P: Poller + Drop, F: Write>(
    alloc: Global,
    visitors: &mut Visitors<'_, M, L, P>,
    faults: &mut Watched<F>,
) -> Result<Option<(usize, Vec<u8>)>, LoopFault>
where
    M::End: Drop,
    ensures accepted { IfOk result (λ found. FindsFirst L.did P.time visitors.old visitors.new found
        (watched F.contents faults.old faults.new)) }
    ensures there { IfOk result (λ found. IfSome found (λ first.
        IsFirstAt L.Client.did visitors.new first.0 first.1)) }
    ensures same { OnOk result (AreMetSo visitors.old visitors.new) }
    ensures still { StaysFailed faults.old faults.new }
{
    let mut left = u64::MAX;
    while left > 0 {
        left -= 1;
        let met = meet_first(alloc, visitors, faults)?;
        match met {
            Search::Found(at, behind) => return Ok(Some((at, behind))),
            Search::Over => return Ok(None),
            Search::GoesOn => {}
        }
    }
    Err(LoopFault::WaitFailed)
}

/// Waits until something has happened among those who come: whether it is the first whose request is accepted. Another
/// one is left.
fn meet_first<M: Machine + Drop, L: Listener + Drop, P: Poller + Drop, F: Write>(
    alloc: Global,
    visitors: &mut Visitors<'_, M, L, P>,
    faults: &mut Watched<F>,
) -> Result<Search, LoopFault>
where
    M::End: Drop,
    ensures meets { IfOk result (λ met. SeeksFirst L.did P.time visitors.old visitors.new met
        (watched F.contents faults.old faults.new)) }
    ensures there { IfOk result (IsFoundAt L.Client.did visitors.new) }
    ensures same { OnOk result (AreMetSo visitors.old visitors.new) }
    ensures still { StaysFailed faults.old faults.new }
{
    let until = visitors.wait_end();
    let event = visitors.next(&mut NoLines, until)?;
    match event {
        Event::Decided(at, admission) => {
            let taken = take_accepted(alloc, visitors, at, admission, faults)?;
            match taken {
                Some(behind) => Ok(Search::Found(at, behind)),
                None => Ok(Search::GoesOn),
            }
        }
        Event::Played(at, _) | Event::Gone(at, _) => {
            visitors.leave(at);
            Ok(Search::GoesOn)
        }
        Event::TooLate => {
            tell(ConnectFault::TimedOut.line(), faults);
            Ok(Search::Over)
        }
        Event::Full(_) => Ok(Search::GoesOn),
        Event::Deaf(_) => Ok(Search::Over),
    }
}

/// What the client in this place has sent behind its head, where its request is accepted. One whose request is refused
/// is left, which is told, and so is one that has asked for nothing.
fn take_accepted<M: Machine + Drop, L: Listener + Drop, P: Poller + Drop, F: Write>(
    alloc: Global,
    visitors: &mut Visitors<'_, M, L, P>,
    at: usize,
    admission: Admission,
    faults: &mut Watched<F>,
) -> Result<Option<Vec<u8>>, NoMemory>
where
    M::End: Drop,
    ensures takes { IfOk result (λ behind. TakesAccepted admission behind
        (watched F.contents faults.old faults.new)) }
    ensures kept { IfOk result (λ behind. IfSome behind (λ bytes. visitors.new ≡ visitors.old)) }
    ensures stay { OnOk result (StayVisitors visitors.old visitors.new) }
    ensures still { StaysFailed faults.old faults.new }
{
    match admission {
        Admission::Accepted(request) => Ok(Some(request.behind)),
        Admission::Refused(fault) => {
            tell_refused(alloc, fault, faults)?;
            visitors.wait_anew();
            visitors.leave(at);
            Ok(None)
        }
        Admission::Lost => {
            visitors.leave(at);
            Ok(None)
        }
    }
}

/// Plays this to the client in this place, to its end. Others who come are left.
fn play_alone<M: Machine + Drop, L: Listener + Drop, P: Poller + Drop, K: LineSink>(
    visitors: &mut Visitors<'_, M, L, P>,
    at: usize,
    machine: M,
    sink: &mut K,
) -> Result<M::End, K::Fault>
where
    M::End: Drop,
    requires untold { M.agrees machine machine [] }
    requires goes_on { HasNext (M.wants machine) }
    ensures ends { IfOk result (λ end. GivesOver K.heard L.Client.did M.gives visitors.old.clients.held at machine end
        sink.old sink.new) }
{
    if !visitors.play(at, machine) {
        return Err(K::Fault::from(NoMemory));
    }
    let mut left = u64::MAX;
    while left > 0 {
        left -= 1;
        let event = visitors.next(sink, None)?;
        if let Some(ended) = end_of(visitors, at, event) {
            let end = ended?;
            return Ok(end);
        }
    }
    Err(K::Fault::from(NoMemory))
}

/// What has come of what is played to the client in this place, if that has ended with this event: memory ran out for
/// it, or this. Another client is left.
fn end_of<M: Machine + Drop, L: Listener + Drop, P: Poller + Drop>(
    visitors: &mut Visitors<'_, M, L, P>,
    at: usize,
    event: Event<M::End, L::Miss>,
) -> Option<Result<M::End, NoMemory>>
where
    M::End: Drop,
    ensures ends { EndsInPlace at event result }
    ensures plays { PlayOn M.agrees L.Client.did visitors.old visitors.new }
{
    match event {
        Event::Played(place, end) => {
            visitors.leave(place);
            if place == at { Some(Ok(end)) } else { None }
        }
        Event::Gone(place, _) => {
            if place == at {
                Some(Err(NoMemory))
            } else {
                None
            }
        }
        Event::Decided(place, _) => {
            visitors.leave(place);
            None
        }
        Event::TooLate | Event::Full(_) | Event::Deaf(_) => None,
    }
}

/// Runs a script over the client in this place, and writes its lines.
fn show_alone<L: Listener + Drop, P: Poller + Drop, W: Write>(
    visitors: &mut Visitors<'_, ShownRun, L, P>,
    at: usize,
    run: ShownRun,
    writer: &mut Watched<W>,
) -> Result<Transcript, LineStop>
    requires works { has_failed writer.old ≡ false }
    requires untold { WasRunShown run run [] }
    requires goes_on { HasNext (wanted_shown run) }
    ensures runs { IfOk result (IsRunOver run.tester.run) }
    ensures there { IfOk result (IsRunAt L.Client.did visitors.old.clients.held at run.tester.run) }
    ensures shown { IfOk result (λ transcript. HasWrittenRun run.room.showing transcript
        (watched W.contents writer.old writer.new)) }
{
    let mut sink = LineOutput::new(at, writer);
    let end = play_alone(visitors, at, run, &mut sink)?;
    let RunEnd { transcript, last } = end;
    sink.write_last(last.as_slice())?;
    Ok(transcript)
}

/// The run of the script over such a client, as it is shown.
fn run_of(
    alloc: Global,
    rules: &ScriptRules<'_>,
    showing: Showing,
    behind: Vec<u8>,
) -> Result<ShownRun, NoMemory>
    requires { CanBeRun rules.now.case.now }
    ensures begins { IfOk result (λ run. BeginsScript (client_plan rules.now.expected rules.now.has_timeouts)
        rules.now.budget rules.now.case.now behind.items run.tester.run) }
    ensures showing { IfOk result (λ run. run.room.showing ≡ showing) }
    ensures told { IfOk result (λ run. WasRunShown run run []) }
    ensures goes_on { IfOk result (λ run. HasNext (wanted_shown run)) }
{
    let tester = tester_of(alloc, rules, behind)?;
    let run = ShownRun::new(alloc, showing, tester)?;
    Ok(run)
}

/// The tester of the script over a client whose request was answered, which has sent these bytes behind its head.
fn tester_of(alloc: Global, rules: &ScriptRules<'_>, behind: Vec<u8>) -> Result<Tester, NoMemory>
    requires { CanBeRun rules.now.case.now }
    ensures begins { IfOk result (λ tester. BeginsScript (client_plan rules.now.expected rules.now.has_timeouts)
        rules.now.budget rules.now.case.now behind.items tester.run) }
    ensures told { IfOk result (λ tester. WasTold tester tester []) }
    ensures goes_on { IfOk result (λ tester. HasNext (wanted_in tester.run)) }
{
    let turns = turns_with(alloc, rules.case, None)?;
    let plan = TestPlan {
        tested: Role::Client,
        expected: rules.expected,
        has_timeouts: rules.has_timeouts,
    };
    let tester = Tester::new(alloc, plan, turns, behind, rules.budget)?;
    Ok(tester)
}
