//! What is told on the fault output in place of an answer.

ghost use Rattle.std.specs.Prelude.{◌≡◌};
ghost use Rattle.wst_commands.specs.Devices.{StaysFailed};
ghost use Rattle.wst_commands.specs.Faults.{Ends, LacksMemory, TellsFault, TellsLine, TellsRefusedResponse};
ghost use Rattle.wst_commands.specs.Faults.{no_capture_words};
ghost use Rattle.wst_commands.specs.Faults.{not_listening_line};
ghost use Rattle.wst_commands.specs.declared.fault.Fault.TheVariants as variant;
ghost use Rattle.ws_frame.specs.Devices.{watched};

use crate::exit::Exit;
use crate::run_damages::RunDamage;
use crate::step_damages::StepDamage;
use crate::telling::tell;
use std::alloc::{AllocError, Global};
use std::io::Write;
use ws_base::NoMemory;
use ws_frame::Watched;
use ws_upgrade::HeadFault;

/// Why nothing can be listened at.
#[derive(Clone, Copy, PartialEq, Eq)]
pub enum ListenFault {
    /// The word is no address, or the look-up of its host failed.
    NoSuchHost,
    /// Something else listens at the address.
    AddressInUse,
    /// The system does not permit it.
    NotPermitted,
    /// For another reason, want of memory for the look-up among them.
    Failed,
}

/// What a run tells on the fault output in place of an answer, in a line of ours.
#[derive(Clone, Copy)]
pub enum Fault {
    /// A limit that no end can have.
    BadLimits,
    /// Names that can't be offered as subprotocols.
    BadProtocols,
    /// No number of seconds that can be waited for.
    BadTimeout,
    /// The same: digits with a unit.
    TimeoutWithUnit,
    /// No number of seconds that a connection can last.
    BadDeadline,
    /// The same: digits with a unit.
    DeadlineWithUnit,
    /// No number of connections that can be served at a time.
    BadAtOnce,
    /// An option of a stream is given with a capture.
    StreamWithCapture,
    /// The tested end is named without a capture.
    RoleWithoutCapture,
    /// The input is said to be of a program that isn't known.
    BadFrom,
    /// The end to judge is named without a program.
    RoleWithoutFrom,
    /// A summary and an index are asked for.
    SummaryWithJson,
    /// A JUnit document and an index are asked for.
    JunitWithJson,
    /// A JUnit document and a summary are asked for.
    JunitWithSummary,
    /// The input ends inside a head, or is empty.
    HeadIsCut,
    /// The first line that is damaged in a script of moves, counted from 1.
    NotAMove(u64),
    /// The first line that is damaged in a script of calls, counted from 1.
    NotACall(u64),
    /// The first line that is damaged in a capture, counted from 1.
    NotACapture(u64),
    /// The first line that is damaged in a followed stream, counted from 1.
    NotFollowed(u64),
    /// The first line of a followed stream, counted from 1, in whose place bytes are missing.
    MissingBytes(u64),
    /// Neither end of a followed stream begins with a request that is accepted.
    NoOpening,
    /// The response to it is refused.
    RefusedResponse(HeadFault),
    /// The first line that is damaged in a script of steps, counted from 1, and what is wrong with it.
    NotAStep(u64, StepDamage),
    /// The first line of an earlier run that tells no verdict, and may not stand beside one, counted from 1, and what
    /// is wrong with it.
    NotAVerdict(u64, RunDamage),
    /// The first line of runs that tells no verdict, counted from 1, and what is wrong with it.
    NotAResult(u64, RunDamage),
    /// The first line of runs that is none, counted from 1: its name is not UTF-8.
    NotAName(u64),
    /// A report was written, and no line of its input is that of a case.
    NoCaseLine,
    /// A Fail of a server was written, and its frames are those of a client.
    CaptureOfClient,
    /// A Fail of a client was written, and its frames are those of a server.
    CaptureOfServer,
    /// The words of the command line are no text.
    NoText,
    /// The words of the command line ask for nothing.
    NoTask,
    /// Nothing can be listened at.
    NotListening(ListenFault),
    /// Memory ran out.
    NoMemory,
}

impl From<NoMemory> for Fault {
    ghost from_gives = { λ _ fault. fault ≡ variant.NoMemory };

    fn from(_refused: NoMemory) -> Fault {
        Fault::NoMemory
    }
}

impl From<AllocError> for Fault {
    ghost from_gives = { λ _ fault. fault ≡ variant.NoMemory };

    fn from(_refused: AllocError) -> Fault {
        Fault::NoMemory
    }
}

/// Tells what a run has to tell on the fault output, and answers how it ended.
pub fn end_run<F: Write>(alloc: Global, ended: Result<Exit, Fault>, faults: &mut Watched<F>) -> Exit
    ensures ends { Ends ended result (watched F.contents faults.old faults.new) }
    ensures still { StaysFailed faults.old faults.new }
{
    match ended {
        Ok(exit) => exit,
        Err(fault) => tell_fault(alloc, fault, faults),
    }
}

/// Tells a fault in its line, where the fault output takes it, and answers the exit that it stands for.
/// Where memory runs out for the line, that is told in its place.
pub fn tell_fault<F: Write>(alloc: Global, fault: Fault, faults: &mut Watched<F>) -> Exit
    ensures told { TellsFault fault result (watched F.contents faults.old faults.new) }
    ensures still { StaysFailed faults.old faults.new }
{
    match fault {
        Fault::BadLimits => {
            tell(b"bad limits\n", faults);
            Exit::WrongWords
        }
        Fault::BadProtocols => {
            tell(
                b"bad protocol list\n  up to 16 different names, joined by commas: --protocols chat,echo\n",
                faults,
            );
            Exit::WrongWords
        }
        Fault::BadTimeout => {
            tell(
                b"bad timeout\n  a whole number of seconds, 1 to 3600: --timeout 5\n",
                faults,
            );
            Exit::WrongWords
        }
        Fault::TimeoutWithUnit => {
            tell(
                b"bad timeout\n  seconds without a unit: --timeout 5\n",
                faults,
            );
            Exit::WrongWords
        }
        Fault::BadDeadline => {
            tell(
                b"bad timeout\n  a whole number of seconds, 1 to 86400: --deadline 60\n",
                faults,
            );
            Exit::WrongWords
        }
        Fault::DeadlineWithUnit => {
            tell(
                b"bad timeout\n  seconds without a unit: --deadline 60\n",
                faults,
            );
            Exit::WrongWords
        }
        Fault::BadAtOnce => {
            tell(
                b"bad at-once\n  a whole number, 1 to 1000: --at-once 16\n",
                faults,
            );
            Exit::WrongWords
        }
        Fault::StreamWithCapture => {
            tell(b"--capture takes no --from or --budget\n", faults);
            Exit::WrongWords
        }
        Fault::RoleWithoutCapture => {
            tell(b"--role takes --capture\n", faults);
            Exit::WrongWords
        }
        Fault::BadFrom => {
            tell(
                b"bad from\n  the program whose output is read: --from tshark\n",
                faults,
            );
            Exit::WrongWords
        }
        Fault::RoleWithoutFrom => {
            tell(b"--role takes --from\n", faults);
            Exit::WrongWords
        }
        Fault::SummaryWithJson => {
            tell(b"--summary takes no --json\n", faults);
            Exit::WrongWords
        }
        Fault::JunitWithJson => {
            tell(b"--junit takes no --json\n", faults);
            Exit::WrongWords
        }
        Fault::JunitWithSummary => {
            tell(b"--junit takes no --summary\n", faults);
            Exit::WrongWords
        }
        Fault::HeadIsCut => {
            tell(b"head is cut\n", faults);
            Exit::Damaged
        }
        Fault::NotAMove(line) => tell_line(alloc, line, "not a move", faults),
        Fault::NotACall(line) => tell_line(alloc, line, "not a call", faults),
        Fault::NotACapture(line) => tell_line(alloc, line, no_capture_words(line), faults),
        Fault::NotFollowed(line) => tell_line(alloc, line, "not a followed stream", faults),
        Fault::MissingBytes(line) => tell_line(alloc, line, "bytes are missing", faults),
        Fault::NoOpening => {
            tell(
                b"no request of an opening handshake\n  of another connection: follow,tcp,raw,1\n",
                faults,
            );
            Exit::Damaged
        }
        Fault::RefusedResponse(fault) => tell_refusal(alloc, fault, faults),
        Fault::NotAStep(line, damage) => tell_line(alloc, line, damage.words(), faults),
        Fault::NotAVerdict(line, damage) => tell_line(alloc, line, damage.known_words(), faults),
        Fault::NotAResult(line, damage) => tell_line(alloc, line, damage.words(), faults),
        Fault::NotAName(line) => tell_line(alloc, line, "not a name", faults),
        Fault::NoCaseLine => {
            tell(
                b"no line of a case: report reads what wst test printed\n",
                faults,
            );
            Exit::Done
        }
        Fault::CaptureOfClient => {
            tell(
                b"the received frames are masked as a client's: to judge a client, add --role client\n",
                faults,
            );
            Exit::Damaged
        }
        Fault::CaptureOfServer => {
            tell(
                b"the received frames have no mask, as a server's: to judge a server, leave out --role client\n",
                faults,
            );
            Exit::Damaged
        }
        Fault::NoText => {
            tell(b"error: the arguments are not UTF-8\n", faults);
            Exit::WrongWords
        }
        Fault::NoTask => {
            tell(b"error: the arguments ask for nothing\n", faults);
            Exit::WrongWords
        }
        Fault::NotListening(why) => {
            tell(not_listening_line(why), faults);
            Exit::Failed
        }
        Fault::NoMemory => tell_no_memory(faults),
    }
}

/// The line that tells why nothing can be listened at, and below it which address is wanted where it is none.
fn not_listening_line(why: ListenFault) -> &'static [u8]
    ensures { result.now ≡ not_listening_line why }
{
    match why {
        ListenFault::NoSuchHost =>
            b"not listening: no such host\n  HOST:PORT to listen at, up to 65535: localhost:9001\n",
        ListenFault::AddressInUse => b"not listening: address in use\n",
        ListenFault::NotPermitted => b"not listening: not permitted\n",
        ListenFault::Failed => b"not listening: failed\n",
    }
}

/// What is told of the first damaged line of a capture. Of line 1 a second line says which it is.
fn no_capture_words(line: u64) -> &'static str
    ensures { result.now ≡ no_capture_words line }
{
    if line == 1 {
        "not a capture\n  line 1 is wst-capture 1 or wst-capture 2, with LF alone at its end"
    } else {
        "not a capture"
    }
}

/// Tells the number of a damaged line, and what it is not.
fn tell_line<F: Write>(alloc: Global, line: u64, what: &str, faults: &mut Watched<F>) -> Exit
    ensures told { TellsLine line what.now result (watched F.contents faults.old faults.new) }
    ensures still { StaysFailed faults.old faults.new }
{
    match format!(in alloc; "line {line}: {what}\n") {
        Ok(text) => {
            tell(text.as_bytes(), faults);
            Exit::Damaged
        }
        Err(_) => tell_no_memory(faults),
    }
}

/// Tells why the head of a response is refused.
fn tell_refusal<F: Write>(alloc: Global, fault: HeadFault, faults: &mut Watched<F>) -> Exit
    ensures told { TellsRefusedResponse fault result (watched F.contents faults.old faults.new) }
    ensures still { StaysFailed faults.old faults.new }
{
    match format!(in alloc; "FAIL Head {fault}\n") {
        Ok(text) => {
            tell(text.as_bytes(), faults);
            Exit::Damaged
        }
        Err(_) => tell_no_memory(faults),
    }
}

/// Tells that memory ran out.
fn tell_no_memory<F: Write>(faults: &mut Watched<F>) -> Exit
    ensures told { LacksMemory result (watched F.contents faults.old faults.new) }
    ensures still { StaysFailed faults.old faults.new }
{
    tell(b"no memory\n", faults);
    Exit::Failed
}
