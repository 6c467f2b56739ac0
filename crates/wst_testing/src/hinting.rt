//! What the first cases of a run have in common, where that says what to type.

ghost use Rattle.std.specs.Prelude.{◌≡◌, IfOk, [], length};
ghost use Rattle.ws_frame.specs.Devices.{watched};
ghost use Rattle.wst_commands.specs.Devices.{StaysFailed};
ghost use Rattle.wst_testing.specs.Hints.{IsHintState, common_notes, echo_hint, hint_place, hint_with};
ghost use Rattle.wst_testing.specs.Hints.{is_messages_fail, is_status_fail, notes_with, status_hint};
ghost use Rattle.wst_testing.specs.Hints.{MissesEcho, is_echo_fail, missed_echo_hint};
ghost use Rattle.wst_testing.specs.Hints.{missed_echo_notes};
ghost use Rattle.wst_testing.specs.Notes.{TellsEach};

use crate::outcome::Outcome;
use std::alloc::Global;
use std::io::Write;
use ws_base::NoMemory;
use ws_frame::Watched;
use ws_suite::{Ended, Expectation, FailWhy, Transcript, Verdict};
use ws_upgrade::HeadFault;
use ws_wire::Role;
use wst_commands::{judgement_of, tell};

/// Behind so many lines of a run it is told what they have in common, and behind the last line of a run of fewer cases.
const HINT_PLACE: usize = 10;

/// Runs of fewer cases are told nothing.
const LEAST_CASES: usize = 3;

/// What the cases of a run that were told so far have in common.
#[derive(Clone, Copy)]
pub struct HintState {
    /// So many cases more, and it is told what they have in common. 0: it was told, or is never.
    pub left: usize,
    /// All of them are `FAIL Messages`.
    pub messages: bool,
    /// All of them are `FAIL Head Status`.
    pub status: bool,
}

impl HintState {
    /// Before the first of so many cases.
    pub(crate) fn of(cases: usize) -> HintState
        ensures starts { IsHintState (hint_place cases) [] result }
        ensures place { result.left ≡ hint_place cases }
    {
        HintState {
            left: hint_place(cases),
            messages: true,
            status: true,
        }
    }

    /// With the outcome of one case more.
    pub(crate) fn with(self, outcome: &Outcome) -> HintState
        ensures { result ≡ hint_with self outcome.now }
    {
        HintState {
            left: self.left.saturating_sub(1),
            messages: self.messages && is_messages_fail(outcome),
            status: self.status && is_status_fail(outcome),
        }
    }
}

/// Tells what all cases have in common behind the line of one more, where that is the place for it.
pub(crate) fn tell_hint<F: Write>(state: HintState, outcome: &Outcome, faults: &mut Watched<F>)
    ensures told { TellsEach (notes_with state outcome.now) (watched F.contents faults.old faults.new) }
    ensures still { StaysFailed faults.old faults.new }
{
    if state.left == 1 {
        let next = state.with(outcome);
        tell_common(next.messages, next.status, faults);
    }
}

/// Tells it where all are the one, or all the other.
fn tell_common<F: Write>(messages: bool, status: bool, faults: &mut Watched<F>)
    ensures told { TellsEach (common_notes messages status) (watched F.contents faults.old faults.new) }
    ensures still { StaysFailed faults.old faults.new }
{
    match (messages, status) {
        (true, _) => tell(echo_hint(), faults),
        (false, true) => tell(status_hint(), faults),
        (false, false) => {}
    }
}

/// What to type where no message comes back.
fn echo_hint() -> &'static [u8]
    ensures { result.now ≡ echo_hint }
{
    b"every case so far is FAIL Messages: if the endpoint doesn't echo, add --expect protocol\n"
}

/// What to look at where nobody is let in.
fn status_hint() -> &'static [u8]
    ensures { result.now ≡ status_hint }
{
    b"every case so far is FAIL Head Status: --explain shows the status; \
      is the path right, and may anyone connect?\n"
}

/// Behind which line of a run of so many cases it is told.
fn hint_place(cases: usize) -> usize
    ensures { result ≡ hint_place cases }
{
    if cases < LEAST_CASES {
        0
    } else {
        cases.min(HINT_PLACE)
    }
}

/// Whether it is `FAIL Messages`.
fn is_messages_fail(outcome: &Outcome) -> bool
    ensures { result ≡ is_messages_fail outcome.now }
{
    match outcome {
        Outcome::Judged(told) => matches!(told.verdict, Verdict::Fail(FailWhy::Messages)),
        Outcome::HeadRefused(_) | Outcome::NoConnection(_) | Outcome::NotRun => false,
    }
}

/// Whether it is `FAIL Head Status`.
fn is_status_fail(outcome: &Outcome) -> bool
    ensures { result ≡ is_status_fail outcome.now }
{
    match outcome {
        Outcome::HeadRefused(refusal) => matches!(refusal.fault, HeadFault::Status),
        Outcome::Judged(_) | Outcome::NoConnection(_) | Outcome::NotRun => false,
    }
}

/// Whether an echo is expected of a tested end that by what went over a connection is none, where the tester ended it:
/// a script that is sent alone ends at what an echo can't be, and says no verdict. A connection that it didn't end
/// isn't judged, so that no memory is asked for behind its last line.
pub fn misses_echo(
    alloc: Global,
    tested: Role,
    expected: Expectation,
    transcript: &Transcript,
) -> Result<bool, NoMemory>
    ensures { IfOk result (λ missed. MissesEcho expected tested transcript.now missed) }
{
    match (expected, transcript.ended) {
        (Expectation::Echo, Ended::Tester) => {
            let told = judgement_of(alloc, None, tested, Expectation::Echo, transcript)?;
            Ok(is_echo_fail(told.verdict))
        }
        (Expectation::Echo, Ended::Peer | Ended::Broken) | (Expectation::Protocol, _) => Ok(false),
    }
}

/// Tells what to type then.
pub fn tell_missed_echo<F: Write>(missed: bool, faults: &mut Watched<F>)
    ensures told { TellsEach (missed_echo_notes missed) (watched F.contents faults.old faults.new) }
    ensures still { StaysFailed faults.old faults.new }
{
    if missed {
        tell(missed_echo_hint(), faults);
    }
}

/// What to type where the replies are none of an echo.
fn missed_echo_hint() -> &'static [u8]
    ensures { result.now ≡ missed_echo_hint }
{
    b"nothing came back, or not what an echo sends: if the endpoint doesn't echo, add --expect protocol\n"
}

/// Whether it is a Fail that only an end can get of which an echo is expected.
fn is_echo_fail(verdict: Verdict) -> bool
    ensures { result ≡ is_echo_fail verdict }
{
    match verdict {
        Verdict::Fail(FailWhy::Early | FailWhy::Messages) => true,
        Verdict::Fail(_) | Verdict::Loose(_) | Verdict::Pass => false,
    }
}
