//! The command `session`. Its script and its lines are told in docs/FORMATS.md.

ghost use Rattle.std.specs.Prelude.{◌≡◌, ℕ, List, false, MatchResult, string_bytes};
ghost use Rattle.ws_calls.specs.Runs.{TellsEcho, TellsSession};
ghost use Rattle.ws_calls.specs.Script.{AreCallLines, AreEchoCallLines};
ghost use Rattle.ws_formats.specs.Lines.{Damages};
ghost use Rattle.ws_frame.specs.Devices.{watched};
ghost use Rattle.ws_frame.specs.Watching.{has_failed};
ghost use Rattle.wst_commands.specs.ReadingLines.{FailsInput};
ghost use Rattle.wst_commands.specs.ReadingWhole.{ReadsAll};
ghost use Rattle.wst_commands.specs.Session.{DamagesCalls, RunsSession, TellsInput, call_fault};

use crate::exit::Exit;
use crate::fault::Fault;
use crate::limits::limits_given;
use crate::reading_lines::{InputFault, take_input};
use crate::reading_whole::ReadStop;
use crate::telling::deliver;
use std::alloc::Global;
use std::io::{Read, Write};
use ws_base::{NoMemory, TextFault};
use ws_calls::Caller;
use ws_frame::Watched;
use ws_session::Limits;
use ws_wire::Role;
use wst_words::SessionOptions;

/// Makes the calls of the script that the reader gives at one endpoint, and writes what it answers.
#[inline(never)]
pub fn run_session<R: Read, W: Write>(
    alloc: Global,
    options: SessionOptions,
    reader: &mut Watched<R>,
    writer: &mut Watched<W>,
) -> Result<Exit, Fault>
    requires reader_works { has_failed reader.old ≡ false }
    requires writer_works { has_failed writer.old ≡ false }
    ensures { RunsSession options result (watched R.remaining reader.old reader.new)
        (watched W.contents writer.old writer.new) }
{
    let Some(limits) = limits_given(options.limit, options.frame) else {
        return Err(Fault::BadLimits);
    };
    match lines_of(alloc, options, limits, reader) {
        Ok(lines) => Ok(deliver(Exit::Done, lines.as_bytes(), writer)),
        Err(InputFault::Text(fault)) => Err(fault_of(fault)),
        Err(InputFault::Stop(ReadStop::Fault)) => Ok(Exit::Failed),
        Err(InputFault::Stop(ReadStop::NoMemory)) => Err(Fault::NoMemory),
    }
}

/// What is told of a script whose calls can't be made.
fn fault_of(fault: TextFault) -> Fault
    ensures { result ≡ call_fault fault }
{
    match fault {
        TextFault::Damaged(line) => Fault::NotACall(line),
        TextFault::NoMemory => Fault::NoMemory,
    }
}

/// The lines of what a session, or an echo, answers to the calls of the script that the reader gives.
fn lines_of<R: Read>(
    alloc: Global,
    options: SessionOptions,
    limits: Limits,
    reader: &mut Watched<R>,
) -> Result<String, InputFault>
    requires { has_failed reader.old ≡ false }
    ensures { MatchResult result
        (λ lines. TellsInput options limits (string_bytes lines) (watched R.remaining reader.old reader.new))
        (λ fault. FailsInput (DamagesCalls options.echo) fault (watched R.remaining reader.old reader.new)) }
{
    if options.echo {
        echo_lines(alloc, options.role, limits, reader)
    } else {
        session_lines(alloc, options.role, limits, reader)
    }
}

/// The lines of what a session answers.
fn session_lines<R: Read>(
    alloc: Global,
    role: Role,
    limits: Limits,
    reader: &mut Watched<R>,
) -> Result<String, InputFault>
    requires { has_failed reader.old ≡ false }
    ensures { MatchResult result
        (λ lines. (text : List ℕ) × ReadsAll text (watched R.remaining reader.old reader.new)
        × TellsSession role limits text (string_bytes lines))
        (λ fault. FailsInput (Damages AreCallLines) fault (watched R.remaining reader.old reader.new)) }
{
    let caller = match take_input(alloc, reader, Caller::of_session(alloc, role, limits)) {
        Ok(caller) => caller,
        Err(fault) => return Err(fault),
    };
    match caller.session_report(alloc) {
        Ok(lines) => Ok(lines),
        Err(NoMemory) => Err(InputFault::Stop(ReadStop::NoMemory)),
    }
}

/// The lines of what an echo answers.
fn echo_lines<R: Read>(
    alloc: Global,
    role: Role,
    limits: Limits,
    reader: &mut Watched<R>,
) -> Result<String, InputFault>
    requires { has_failed reader.old ≡ false }
    ensures { MatchResult result
        (λ lines. (text : List ℕ) × ReadsAll text (watched R.remaining reader.old reader.new)
        × TellsEcho role limits text (string_bytes lines))
        (λ fault. FailsInput (Damages AreEchoCallLines) fault (watched R.remaining reader.old reader.new)) }
{
    let caller = match take_input(alloc, reader, Caller::of_echo(alloc, role, limits)) {
        Ok(caller) => caller,
        Err(fault) => return Err(fault),
    };
    match caller.echo_report(alloc) {
        Ok(lines) => Ok(lines),
        Err(NoMemory) => Err(InputFault::Stop(ReadStop::NoMemory)),
    }
}
