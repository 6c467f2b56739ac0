//! Ends that cases are run over: what is known of a meeting with one, and those in memory.

ghost use Rattle.std.specs.Prelude.{◌≡◌, IfErr, IfOk, OnOk, false};
ghost use Rattle.ws_frame.specs.Devices.{watched};
ghost use Rattle.ws_frame.specs.Watching.{has_failed};
ghost use Rattle.ws_scripts.specs.Scripts.{CanBeRun};
ghost use Rattle.wst_testing.specs.LineOutputs.{MayStopLines, ShowsMeeting};
ghost use Rattle.wst_testing.specs.LineWriting.{HasWrittenRun};
ghost use Rattle.wst_testing.specs.Servers.{IsMemoryRun, IsPeerRun, MeetsInMemory};

use crate::line_output::{LineStop, write_lines};
use std::alloc::Global;
use std::io::Write;
use ws_base::NoMemory;
use ws_frame::{ShowFault, Watched};
use ws_lines::Showing;
use ws_peer::{TungPeer, run_case_with, run_over_echo_as, tester_key};
use ws_shown::lines_of;
use ws_suite::{Case, Transcript};
use ws_wire::Role;
use wst_sockets::Meeting;

/// Tested ends of one kind. Each case is run over a new one.
pub trait CaseServer {
    ghost use Rattle.std.specs.Prelude.{◌≡◌, List, ℕ};
    ghost use Rattle.ws_scripts.specs.declared.script.Case.{Case};
    ghost use Rattle.wst_sockets.specs.declared.meeting.Meeting.{Meeting};

    /// With this masking key, this may come of this case over a new end.
    ghost meets: { Self → List ℕ → Case → Meeting → Type 0 };

    /// And this where the lines of the run are written.
    ghost meets_shown: { Self → List ℕ → Case → Meeting → Type 0 };

    /// Runs a case over a new end. The client, be it the tester or that end, masks its frames with `key`.
    fn run(&self, alloc: Global, case: &Case, key: [u8; 4]) -> Result<Meeting, NoMemory>
        requires { CanBeRun case.now }
        ensures { IfOk result (λ meeting. meets self.now key case.now meeting) };

    /// The same, and the lines of the run are written: over a network as it goes on, each before anything else happens
    /// there, and in memory once it has ended.
    fn run_shown<W: Write>(
        &self,
        alloc: Global,
        case: &Case,
        key: [u8; 4],
        showing: Showing,
        writer: &mut Watched<W>,
    ) -> Result<Meeting, LineStop>
        requires runs { CanBeRun case.now }
        requires works { has_failed writer.old ≡ false }
        ensures meets { IfOk result (λ meeting. meets_shown self.now key case.now meeting) }
        ensures shown { IfOk result (λ meeting.
            ShowsMeeting showing meeting (watched W.contents writer.old writer.new)) }
        ensures stops { IfErr result (λ why. MayStopLines (meets_shown self.now key case.now) why) };
}

/// Who stands in memory.
#[derive(Clone, Copy)]
pub enum MemoryPeer {
    /// Our echo.
    Own,
    /// A socket of the crate `tungstenite`.
    Tung,
}

/// An end in memory that is tested: a server or a client.
#[derive(Clone, Copy)]
pub struct MemoryEnd {
    pub peer: MemoryPeer,
    pub role: Role,
}

impl CaseServer for MemoryEnd {
    ghost meets = { MeetsInMemory };

    ghost meets_shown = { MeetsInMemory };

    fn run(&self, alloc: Global, case: &Case, key: [u8; 4]) -> Result<Meeting, NoMemory> {
        let transcript = transcript_of(alloc, *self, case, key)?;
        Ok(Meeting::Ran(transcript))
    }

    fn run_shown<W: Write>(
        &self,
        alloc: Global,
        case: &Case,
        key: [u8; 4],
        showing: Showing,
        writer: &mut Watched<W>,
    ) -> Result<Meeting, LineStop> {
        let transcript = transcript_of(alloc, *self, case, key)?;
        match show_ended(alloc, showing, &transcript, writer) {
            Ok(()) => Ok(Meeting::Ran(transcript)),
            Err(ShowFault::Write) => Err(LineStop::Output),
            Err(ShowFault::NoMemory) => Err(LineStop::NoMemory),
        }
    }
}

/// Writes the lines of a run that has ended.
fn show_ended<W: Write>(
    alloc: Global,
    showing: Showing,
    transcript: &Transcript,
    writer: &mut Watched<W>,
) -> Result<(), ShowFault>
    requires { has_failed writer.old ≡ false }
    ensures { OnOk result (HasWrittenRun showing transcript.now (watched W.contents writer.old writer.new)) }
{
    let text = lines_of(alloc, showing, transcript)?;
    write_lines(writer, text.as_slice())?;
    Ok(())
}

/// The transcript of a case over a new end in memory.
fn transcript_of(
    alloc: Global,
    end: MemoryEnd,
    case: &Case,
    key: [u8; 4],
) -> Result<Transcript, NoMemory>
    requires { CanBeRun case.now }
    ensures { IfOk result (λ transcript. IsMemoryRun end.peer end.role key case.now transcript) }
{
    match end.peer {
        MemoryPeer::Own => run_over_echo_as(alloc, end.role, case, key),
        MemoryPeer::Tung => run_over_tung(alloc, end.role, case, key),
    }
}

/// The transcript of a case over a new socket of `tungstenite` that has this role.
fn run_over_tung(
    alloc: Global,
    tested: Role,
    case: &Case,
    key: [u8; 4],
) -> Result<Transcript, NoMemory>
    requires { CanBeRun case.now }
    ensures { IfOk result (λ transcript. IsPeerRun tested key case.now transcript) }
{
    let mut peer = TungPeer::with_role(alloc, tested, key)?;
    let transcript = run_case_with(alloc, case, &mut peer, tester_key(tested, key))?;
    Ok(transcript)
}
