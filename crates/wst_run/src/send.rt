//! The command `send`: what is to be run, and its run over an end. Its lines are told in docs/FORMATS.md.

ghost use Rattle.std.specs.Prelude.{◌≡◌, MatchResult, OnErr, OnOk, true, false};
ghost use Rattle.ws_frame.specs.Devices.{watched};
ghost use Rattle.ws_frame.specs.Watching.{has_failed};
ghost use Rattle.ws_scripts.specs.Scripts.{CanBeRun};
ghost use Rattle.wst_commands.specs.Devices.{StaysFailed, Tells};
ghost use Rattle.wst_commands.specs.declared.exit.Exit.TheVariants.{Damaged, Failed};
ghost use Rattle.wst_commands.specs.declared.fault.Fault.TheVariants as variant;
ghost use Rattle.wst_testing.specs.Notes.{TellsEach};
ghost use Rattle.wst_testing.specs.Outcomes.{refused_lines};
ghost use Rattle.wst_testing.specs.Tried.{missed_notes};
ghost use Rattle.wst_run.specs.ClientRuns.{HintsEcho, NotesCodes};
ghost use Rattle.wst_run.specs.Send.{IsDamageFault, IsSendPlan, MeetsAs, RefusesSend, SendsCase, SendsCaseOver};
ghost use Rattle.wst_run.specs.Send.{SendsInput, SendsOver, SendsText, is_noted, send_showing};

use crate::clients_at::send_at;
use crate::site::Site;
use std::alloc::Global;
use std::io::{Read, Write};
use ws_base::{NoMemory, TextFault};
use ws_connection::HeadRefusal;
use ws_frame::{DataStyle, Watched};
use ws_lines::Showing;
use ws_suite::{Case, Expectation, Transcript, read_script};
use ws_wire::Role;
use wst_commands::{
    Exit, Fault, ReadStop, code_notes, deliver, end_run, read_whole, step_damage, tell,
};
use wst_network::Connector;
use wst_sockets::{ConnectFault, Meeting, Network};
use wst_testing::{
    CaseServer, End, LineStop, Refusal, RunPlan, UsualTimes, capture_text, misses_echo, plan_run,
    refused_lines, tell_missed, tell_missed_echo,
};
use wst_words::SendOptions;

/// How the script that comes in is run, and where.
#[derive(Drop)]
pub struct SendPlan<'a> {
    /// Over which end, and how.
    pub run: RunPlan<'a>,
    /// The capture is written in place of the lines.
    pub capture: bool,
    /// How the lines show payloads.
    pub style: DataStyle,
    /// Each line stands behind the time since the connection began.
    pub time: bool,
    /// The lines of both heads are written before them.
    pub heads: bool,
}

impl SendPlan<'_> {
    /// Whether its lines have times or heads. A capture has neither.
    pub(crate) fn is_noted(&self) -> bool
        ensures { result ≡ is_noted self.now }
    {
        !self.capture && (self.time || self.heads)
    }
}

/// What is to be run, or the first reason against it.
#[tactic(auto, using(crate::proofs::PlanLemmas::send_refused))]
pub fn plan_send<'a>(alloc: Global, options: &SendOptions<'a>) -> Result<SendPlan<'a>, Refusal<'a>>
    ensures { MatchResult result (IsSendPlan options.now) (RefusesSend options.now) }
{
    let run = plan_run(alloc, &options.run, UsualTimes::OfScript)?;
    if options.time && run.tested.is_in_memory() {
        return Err(Refusal::TimeInMemory);
    }
    Ok(SendPlan {
        run,
        capture: options.capture,
        style: options.style,
        time: options.time,
        heads: options.heads,
    })
}

/// Runs the script that comes in over the end that a plan names, and tells how that ended.
pub(crate) fn send_to_target<N: Network, C: Connector, R: Read, W: Write, F: Write>(
    site: Site<'_, '_, N, C>,
    plan: &SendPlan<'_>,
    reader: &mut Watched<R>,
    writer: &mut Watched<W>,
    faults: &mut Watched<F>,
) -> Exit
    requires reader_works { has_failed reader.old ≡ false }
    requires writer_works { has_failed writer.old ≡ false }
    ensures { SendsOver plan.now result (watched R.remaining reader.old reader.new)
        (watched W.contents writer.old writer.new) (watched F.contents faults.old faults.new) }
{
    let alloc = site.alloc;
    let ended = send_input(site, plan, reader, writer, faults);
    end_run(alloc, ended, faults)
}

/// Reads the input whole, and runs the script that it is.
fn send_input<N: Network, C: Connector, R: Read, W: Write, F: Write>(
    site: Site<'_, '_, N, C>,
    plan: &SendPlan<'_>,
    reader: &mut Watched<R>,
    writer: &mut Watched<W>,
    faults: &mut Watched<F>,
) -> Result<Exit, Fault>
    requires reader_works { has_failed reader.old ≡ false }
    requires writer_works { has_failed writer.old ≡ false }
    ensures sends { SendsInput plan.now result (watched R.remaining reader.old reader.new)
        (watched W.contents writer.old writer.new) (watched F.contents faults.old faults.new) }
    ensures still { StaysFailed faults.old faults.new }
{
    match read_whole(site.alloc, reader) {
        Ok(text) => send_text(site, plan, text.as_slice(), writer, faults),
        Err(ReadStop::Fault) => Ok(Exit::Failed),
        Err(ReadStop::NoMemory) => Err(Fault::NoMemory),
    }
}

/// Runs the script that a text is, after what is to be remarked of its close frames.
fn send_text<N: Network, C: Connector, W: Write, F: Write>(
    site: Site<'_, '_, N, C>,
    plan: &SendPlan<'_>,
    text: &[u8],
    writer: &mut Watched<W>,
    faults: &mut Watched<F>,
) -> Result<Exit, Fault>
    requires writer_works { has_failed writer.old ≡ false }
    ensures sends { SendsText plan.now text.now result (watched W.contents writer.old writer.new)
        (watched F.contents faults.old faults.new) }
    ensures still { StaysFailed faults.old faults.new }
{
    match read_script(site.alloc, text) {
        Ok(case) => {
            note_codes(site.alloc, text, faults)?;
            send_case(site, plan, &case, writer, faults)
        }
        Err(TextFault::Damaged(line)) => Err(damage_fault(site.alloc, text, line)),
        Err(TextFault::NoMemory) => Err(Fault::NoMemory),
    }
}

/// What stops a text that is damaged at this line.
fn damage_fault(alloc: Global, text: &[u8], line: u64) -> Fault
    ensures { IsDamageFault text.now line result }
{
    match step_damage(alloc, text, line) {
        Ok(damage) => Fault::NotAStep(line, damage),
        Err(_) => Fault::NoMemory,
    }
}

/// Tells what is to be remarked of the close frames of a script.
fn note_codes<F: Write>(
    alloc: Global,
    script: &[u8],
    faults: &mut Watched<F>,
) -> Result<(), NoMemory>
    ensures told { OnOk result (NotesCodes script.now (watched F.contents faults.old faults.new)) }
    ensures kept { OnErr result (faults.new ≡ faults.old) }
    ensures still { StaysFailed faults.old faults.new }
{
    let notes = code_notes(alloc, script)?;
    tell(notes.as_bytes(), faults);
    Ok(())
}

/// Runs a script over the end that a plan names.
fn send_case<N: Network, C: Connector, W: Write, F: Write>(
    site: Site<'_, '_, N, C>,
    plan: &SendPlan<'_>,
    case: &Case,
    writer: &mut Watched<W>,
    faults: &mut Watched<F>,
) -> Result<Exit, Fault>
    requires writer_works { has_failed writer.old ≡ false }
    requires can { CanBeRun case.now }
    ensures sends { SendsCaseOver plan.now.run.tested plan.now case.now result
        (watched W.contents writer.old writer.new) (watched F.contents faults.old faults.new) }
    ensures still { StaysFailed faults.old faults.new }
{
    match End::of_plan(site.net, site.connector, &plan.run) {
        Ok(end) => send_over(site.alloc, &end, plan, case, writer, faults),
        Err(address) => send_at(site, address, plan, case, writer, faults),
    }
}

/// Runs a script over a new end, writes what the plan asks for, and tells why it was not run, or not to its end.
pub fn send_over<S: CaseServer, W: Write, F: Write>(
    alloc: Global,
    server: &S,
    plan: &SendPlan<'_>,
    case: &Case,
    writer: &mut Watched<W>,
    faults: &mut Watched<F>,
) -> Result<Exit, Fault>
    requires works { has_failed writer.old ≡ false }
    requires can { CanBeRun case.now }
    ensures sends { SendsCase (MeetsAs plan.now.capture (S.meets server.now plan.now.run.key)
        (S.meets_shown server.now plan.now.run.key)) plan.now case.now result
        (watched W.contents writer.old writer.new) (watched F.contents faults.old faults.new) }
    ensures still { StaysFailed faults.old faults.new }
{
    if plan.capture {
        send_captured(alloc, server, plan, case, writer, faults)
    } else {
        send_shown(alloc, server, plan, case, writer, faults)
    }
}

/// Runs a script, and writes the capture of the run.
fn send_captured<S: CaseServer, W: Write, F: Write>(
    alloc: Global,
    server: &S,
    plan: &SendPlan<'_>,
    case: &Case,
    writer: &mut Watched<W>,
    faults: &mut Watched<F>,
) -> Result<Exit, Fault>
    requires works { has_failed writer.old ≡ false }
    requires can { CanBeRun case.now }
    requires captures { plan.now.capture ≡ true }
    ensures sends { SendsCase (S.meets server.now plan.now.run.key) plan.now case.now result
        (watched W.contents writer.old writer.new) (watched F.contents faults.old faults.new) }
    ensures still { StaysFailed faults.old faults.new }
{
    match server.run(alloc, case, plan.run.key)? {
        Meeting::Ran(transcript) => {
            let tested = plan.run.tested.role();
            let text = capture_text(alloc, tested, plan.run.key, transcript)?;
            Ok(deliver(Exit::Done, text.as_slice(), writer))
        }
        Meeting::Refused(refusal) => tell_refused(alloc, refusal, faults),
        Meeting::NoConnection(why) => Ok(tell_unmet(plan, why, faults)),
    }
}

/// Runs a script, and writes the lines of the run as it goes on. No more of them are written where the output has
/// failed or memory runs out. Behind them it may be told what to type.
#[inline(never)]
fn send_shown<S: CaseServer, W: Write, F: Write>(
    alloc: Global,
    server: &S,
    plan: &SendPlan<'_>,
    case: &Case,
    writer: &mut Watched<W>,
    faults: &mut Watched<F>,
) -> Result<Exit, Fault>
    requires works { has_failed writer.old ≡ false }
    requires can { CanBeRun case.now }
    requires shows { plan.now.capture ≡ false }
    ensures sends { SendsCase (S.meets_shown server.now plan.now.run.key) plan.now case.now result
        (watched W.contents writer.old writer.new) (watched F.contents faults.old faults.new) }
    ensures still { StaysFailed faults.old faults.new }
{
    let showing = shown_so(plan);
    match server.run_shown(alloc, case, plan.run.key, showing, writer) {
        Ok(Meeting::Ran(transcript)) => {
            hint_echo(
                alloc,
                showing.tested,
                plan.run.expected,
                &transcript,
                faults,
            );
            Ok(Exit::Done)
        }
        Ok(Meeting::Refused(refusal)) => tell_refused(alloc, refusal, faults),
        Ok(Meeting::NoConnection(why)) => Ok(tell_unmet(plan, why, faults)),
        Err(LineStop::Output) if writer.failed() => Ok(Exit::Failed),
        Err(LineStop::Network) => Ok(tell_unmet(plan, ConnectFault::Failed, faults)),
        Err(LineStop::Output | LineStop::NoMemory) => Err(Fault::NoMemory),
    }
}

/// Tells why there is no connection to the end of a plan.
fn tell_unmet<F: Write>(plan: &SendPlan<'_>, why: ConnectFault, faults: &mut Watched<F>) -> Exit
    ensures exit { result ≡ Failed }
    ensures told { TellsEach (missed_notes plan.now.run.tested why) (watched F.contents faults.old faults.new) }
    ensures still { StaysFailed faults.old faults.new }
{
    tell_missed(&plan.run.tested, why, faults);
    Exit::Failed
}

/// How the lines of a plan are shown.
fn shown_so(plan: &SendPlan<'_>) -> Showing
    ensures { result ≡ send_showing plan.now }
{
    Showing {
        tested: plan.run.tested.role(),
        style: plan.style,
        sent_fault: None,
        got_fault: None,
    }
}

/// Tells what to type, where an echo is expected and the replies are none of one. It is not told where memory lacks to
/// find that out: the run is whole without it.
pub(crate) fn hint_echo<F: Write>(
    alloc: Global,
    tested: Role,
    expected: Expectation,
    transcript: &Transcript,
    faults: &mut Watched<F>,
)
    ensures hints { HintsEcho expected tested transcript.now (watched F.contents faults.old faults.new) }
    ensures still { StaysFailed faults.old faults.new }
{
    match misses_echo(alloc, tested, expected, transcript) {
        Ok(missed) => tell_missed_echo(missed, faults),
        Err(_) => {}
    }
}

/// Tells that the server's answer to the request is to be refused, and its status, where that is why.
fn tell_refused<F: Write>(
    alloc: Global,
    refusal: HeadRefusal,
    faults: &mut Watched<F>,
) -> Result<Exit, Fault>
    ensures told { MatchResult result
        (λ exit. (exit ≡ Damaged) × Tells (refused_lines refusal) (watched F.contents faults.old faults.new))
        (λ fault. (fault ≡ variant.NoMemory) × (faults.new ≡ faults.old)) }
    ensures still { StaysFailed faults.old faults.new }
{
    let lines = refused_lines(alloc, refusal)?;
    tell(lines.as_bytes(), faults);
    Ok(Exit::Damaged)
}
