//! The capture of a case that is run over a new end, as soon as it was run.

ghost use Rattle.std.specs.Prelude.{◌≡◌, IfOk, MatchResult, false};
ghost use Rattle.ws_frame.specs.Devices.{watched};
ghost use Rattle.ws_frame.specs.Watching.{has_failed};
ghost use Rattle.ws_scripts.specs.Captures2.{written_capture2};
ghost use Rattle.ws_scripts.specs.Scripts.{CanBeRun};
ghost use Rattle.wst_commands.specs.Devices.{StaysFailed};
ghost use Rattle.wst_testing.specs.Capturer.{IsEndOfCapture, TellsCame};
ghost use Rattle.wst_testing.specs.Testing.{RunsCapture, WritesCapture, run_capture};
ghost use Rattle.wst_commands.specs.declared.fault.Fault.TheVariants as variant;

use crate::case_server::CaseServer;
use crate::outcome::{Outcome, ToldRefusal};
use crate::runner::{ListedCases, RunStop, Sink, run_cases};
use crate::testing::{RunRules, tell_case, tell_miss, tell_progress};
use std::alloc::Global;
use std::io::Write;
use std::slice;
use ws_base::NoMemory;
use ws_frame::Watched;
use ws_peer::tester_key;
use ws_suite::{Capture, Case, Expectation, Transcript, judge_with, write_capture2};
use ws_wire::Role;
use wst_commands::{Exit, Fault, deliver, exit_of};
use wst_sockets::Meeting;

/// Runs a case over a new end, and writes the capture of it in format 2. Where there is none, it writes the line of
/// the case. What is told to `faults` is told as by `test_cases`.
pub fn capture_case<S: CaseServer, W: Write, F: Write>(
    alloc: Global,
    server: &S,
    rules: RunRules,
    case: &Case,
    writer: &mut Watched<W>,
    faults: &mut Watched<F>,
) -> Result<Exit, Fault>
    requires works { has_failed writer.old ≡ false }
    requires can_be_run { CanBeRun case.now }
    ensures runs { RunsCapture (S.meets server.now rules.key) rules case.now result
        (watched W.contents writer.old writer.new) (watched F.contents faults.old faults.new) }
    ensures still { StaysFailed faults.old faults.new }
{
    let mut capturer = Capturer {
        rules,
        exit: Exit::Failed,
        writer,
        faults,
    };
    let mut listed = ListedCases::of(slice::from_ref(case));
    let ended = run_cases(alloc, server, rules.key, &mut listed, &mut capturer);
    captured(ended, capturer.exit)
}

/// How a run ends that was to write a capture, where its sink came to this exit.
fn captured(ended: Result<(), RunStop>, exit: Exit) -> Result<Exit, Fault>
    ensures { IsEndOfCapture ended exit result }
{
    match ended {
        Err(RunStop::NoMemory) => Err(Fault::NoMemory),
        Ok(()) | Err(_) => Ok(exit),
    }
}

/// Writes the capture of a case as soon as it was run, or the line of the case where there is none, and ends the run
/// with it.
#[derive(Drop)]
struct Capturer<'w, 'f, W, F> {
    rules: RunRules,
    /// That of what was written.
    exit: Exit,
    writer: &'w mut Watched<W>,
    faults: &'f mut Watched<F>,
}

impl<W: Write, F: Write> Sink for Capturer<'_, '_, W, F> {
    ghost use Rattle.std.specs.Prelude.{◌≡◌, ◌∷◌, []};
    ghost use Rattle.ws_frame.specs.Devices.{watched};
    ghost use Rattle.wst_commands.specs.Devices.{StaysFailed};
    ghost use Rattle.wst_testing.specs.Capturer.{AwaitsCapture, EndsCapture};

    type Item = Case;

    ghost heard = { λ start now came next. (now.rules ≡ start.rules)
        × AwaitsCapture start.rules came next
        (watched W.contents start.writer.now now.writer.now) (watched F.contents start.faults.now now.faults.now)
        × StaysFailed start.faults.now now.faults.now };

    ghost stopped = { λ start now came why. EndsCapture start.rules came now.exit why
        (watched W.contents start.writer.now now.writer.now) (watched F.contents start.faults.now now.faults.now)
        × StaysFailed start.faults.now now.faults.now };

    ghost borrows = { λ capturer. capturer.writer.ghost_name ∷ capturer.faults.ghost_name ∷ [] };

    fn begins(&mut self, alloc: Global, case: &Case) -> Result<(), NoMemory> {
        tell_progress(alloc, self.rules.progress, case, self.faults)?;
        Ok(())
    }

    fn came(&mut self, alloc: Global, case: &Case, meeting: Meeting) -> Result<(), RunStop> {
        match tell_came(alloc, self.rules, case, meeting, self.writer, self.faults) {
            Ok(exit) => {
                self.exit = exit;
                Err(RunStop::Enough)
            }
            Err(_) => Err(RunStop::NoMemory),
        }
    }
}

/// Writes the capture of what came of a case, or the line of the case where there is none, and tells why there is no
/// connection, if so.
fn tell_came<W: Write, F: Write>(
    alloc: Global,
    rules: RunRules,
    case: &Case,
    meeting: Meeting,
    writer: &mut Watched<W>,
    faults: &mut Watched<F>,
) -> Result<Exit, Fault>
    requires { has_failed writer.old ≡ false }
    ensures told { MatchResult result
        (λ exit. TellsCame rules case.now meeting exit
        (watched W.contents writer.old writer.new) (watched F.contents faults.old faults.new))
        (λ fault. (writer.new ≡ writer.old) × (faults.new ≡ faults.old)) }
    ensures still { StaysFailed faults.old faults.new }
{
    match meeting {
        Meeting::Ran(transcript) => {
            tell_capture(
                alloc,
                rules.tested,
                rules.expected,
                rules.key,
                transcript,
                writer,
            )
        }
        Meeting::Refused(refusal) => {
            let outcome = Outcome::HeadRefused(ToldRefusal {
                fault: refusal.fault,
                status: None,
                has_rule: false,
            });
            tell_case(alloc, case, &outcome, Exit::Damaged, writer)
        }
        Meeting::NoConnection(why) => {
            let outcome = Outcome::NoConnection(why);
            let told = tell_case(alloc, case, &outcome, Exit::Failed, writer)?;
            tell_miss(&outcome, faults);
            Ok(told)
        }
    }
}

/// Writes the capture of a run. The exit is that of the verdict on the tested end by its transcript.
pub fn tell_capture<W: Write>(
    alloc: Global,
    tested: Role,
    expected: Expectation,
    key: [u8; 4],
    transcript: Transcript,
    writer: &mut Watched<W>,
) -> Result<Exit, Fault>
    requires { has_failed writer.old ≡ false }
    ensures { MatchResult result
        (λ exit. WritesCapture tested expected (run_capture tested key transcript) exit
        (watched W.contents writer.old writer.new))
        (λ fault. (fault ≡ variant.NoMemory) × (writer.new ≡ writer.old)) }
{
    let verdict = judge_with(alloc, tested, expected, &transcript)?;
    let text = capture_text(alloc, tested, key, transcript)?;
    Ok(deliver(exit_of(verdict), text.as_slice(), writer))
}

/// The capture of a run that tests an end of this role, in format 2.
pub fn capture_text(
    alloc: Global,
    tested: Role,
    key: [u8; 4],
    transcript: Transcript,
) -> Result<Vec<u8>, NoMemory>
    ensures { IfOk result (λ text. text.items ≡ written_capture2 (run_capture tested key transcript)) }
{
    let capture = Capture {
        key: tester_key(tested, key),
        transcript,
    };
    let text = write_capture2(alloc, &capture)?;
    Ok(text)
}
