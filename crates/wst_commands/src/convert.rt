//! The command `convert`. Captures in both formats are told in docs/FORMATS.md, and there is what it reads of `tshark`.

ghost use Rattle.std.specs.Prelude.{◌≡◌, false};
ghost use Rattle.ws_frame.specs.Devices.{watched};
ghost use Rattle.ws_frame.specs.Watching.{has_failed};
ghost use Rattle.ws_scripts.specs.Captures2.{IsAnyCaptureOf, written_capture2};
ghost use Rattle.ws_scripts.specs.declared.capture.Capture.{Capture};
ghost use Rattle.wst_commands.specs.Convert.{ConvertsAs, ConvertsCapture, ConvertsFollowed, RunsConvert};
ghost use Rattle.wst_commands.specs.Convert.{WritesInFormat2, convert_plan, followed_fault};
ghost use Rattle.wst_commands.specs.ReadingWhole.{AnswersInput};
ghost use Rattle.wst_commands.specs.Devices.{Delivers};

use crate::exit::Exit;
use crate::fault::Fault;
use crate::judge::fault_of;
use crate::reading_whole::{ReadStop, read_whole};
use crate::show::role_of;
use crate::telling::deliver;
use std::alloc::Global;
use std::io::{Read, Write};
use ws_capture_text::{check_capture, write_as_capture2};
use ws_followed::{FollowedFault, read_followed};
use ws_frame::Watched;
use ws_scripts::{Capture, write_capture2};
use ws_wire::Role;
use wst_words::ConvertOptions;

/// What is read.
#[derive(Clone, Copy)]
pub(crate) enum ConvertPlan {
    /// A capture, in either format.
    Capture,
    /// A stream that `tshark` followed, of which this end is judged.
    Followed(Role),
}

/// Writes the capture that the reader gives in format 2.
#[inline(never)]
pub fn run_convert<R: Read, W: Write>(
    alloc: Global,
    options: ConvertOptions<'_>,
    reader: &mut Watched<R>,
    writer: &mut Watched<W>,
) -> Result<Exit, Fault>
    requires reader_works { has_failed reader.old ≡ false }
    requires writer_works { has_failed writer.old ≡ false }
    ensures { RunsConvert options.entry result (watched R.remaining reader.old reader.new)
        (watched W.contents writer.old writer.new) }
{
    match plan_of(options) {
        Ok(plan) => convert_input(alloc, plan, reader, writer),
        Err(fault) => Err(fault),
    }
}

/// What the options ask for: an end is judged only of what a program followed, and one program is known.
fn plan_of(options: ConvertOptions<'_>) -> Result<ConvertPlan, Fault>
    ensures { result ≡ convert_plan options.entry }
{
    match options.from {
        None => match options.role {
            None => Ok(ConvertPlan::Capture),
            Some(_) => Err(Fault::RoleWithoutFrom),
        },
        Some("tshark") => Ok(ConvertPlan::Followed(role_of(options.role))),
        Some(_) => Err(Fault::BadFrom),
    }
}

/// Reads the input whole, and converts it as planned.
fn convert_input<R: Read, W: Write>(
    alloc: Global,
    plan: ConvertPlan,
    reader: &mut Watched<R>,
    writer: &mut Watched<W>,
) -> Result<Exit, Fault>
    requires reader_works { has_failed reader.old ≡ false }
    requires writer_works { has_failed writer.old ≡ false }
    ensures { AnswersInput (ConvertsAs plan) result (watched R.remaining reader.old reader.new)
        (watched W.contents writer.old writer.new) }
{
    match read_whole(alloc, reader) {
        Ok(text) => convert_as(alloc, plan, text.as_slice(), writer),
        Err(ReadStop::Fault) => Ok(Exit::Failed),
        Err(ReadStop::NoMemory) => Err(Fault::NoMemory),
    }
}

/// Converts a text as planned.
fn convert_as<W: Write>(
    alloc: Global,
    plan: ConvertPlan,
    text: &[u8],
    writer: &mut Watched<W>,
) -> Result<Exit, Fault>
    requires { has_failed writer.old ≡ false }
    ensures { ConvertsAs plan text.now result (watched W.contents writer.old writer.new) }
{
    match plan {
        ConvertPlan::Capture => convert(alloc, text, writer),
        ConvertPlan::Followed(judged) => convert_followed(alloc, text, judged, writer),
    }
}

/// Writes the capture that a text is, in format 2. A text that is no capture is damaged.
fn convert<W: Write>(alloc: Global, text: &[u8], writer: &mut Watched<W>) -> Result<Exit, Fault>
    requires { has_failed writer.old ≡ false }
    ensures { ConvertsCapture text.now result (watched W.contents writer.old writer.new) }
{
    match check_capture(alloc, text) {
        Ok(()) => Ok(write_kept(text, writer)),
        Err(fault) => Err(fault_of(fault)),
    }
}

/// Writes the capture that a text is, in format 2.
fn write_kept<W: Write>(text: &[u8], writer: &mut Watched<W>) -> Exit
    requires { has_failed writer.old ≡ false }
    ensures { (capture : Capture) → IsAnyCaptureOf capture text.now → Delivers Exit.Done (written_capture2 capture)
        result (watched W.contents writer.old writer.new) }
{
    match write_as_capture2(text, writer) {
        Ok(()) => Exit::Done,
        Err(_) => Exit::Failed,
    }
}

/// Writes the capture of a followed stream.
fn convert_followed<W: Write>(
    alloc: Global,
    text: &[u8],
    judged: Role,
    writer: &mut Watched<W>,
) -> Result<Exit, Fault>
    requires { has_failed writer.old ≡ false }
    ensures { ConvertsFollowed judged text.now result (watched W.contents writer.old writer.new) }
{
    match read_followed(alloc, text, judged) {
        Ok(capture) => write_made(alloc, &capture, writer),
        Err(fault) => Err(followed_fault(fault)),
    }
}

/// Writes a capture in format 2.
fn write_made<W: Write>(
    alloc: Global,
    capture: &Capture,
    writer: &mut Watched<W>,
) -> Result<Exit, Fault>
    requires { has_failed writer.old ≡ false }
    ensures { WritesInFormat2 capture.now result (watched W.contents writer.old writer.new) }
{
    let text = write_capture2(alloc, capture)?;
    Ok(deliver(Exit::Done, text.as_slice(), writer))
}

/// What is told in place of the capture of a followed stream.
fn followed_fault(fault: FollowedFault) -> Fault
    ensures { result ≡ followed_fault fault }
{
    match fault {
        FollowedFault::Damaged(line) => Fault::NotFollowed(line),
        FollowedFault::Missing(line) => Fault::MissingBytes(line),
        FollowedFault::NoRequest => Fault::NoOpening,
        FollowedFault::CutResponse => Fault::HeadIsCut,
        FollowedFault::Response(fault) => Fault::RefusedResponse(fault),
        FollowedFault::NoMemory => Fault::NoMemory,
    }
}
