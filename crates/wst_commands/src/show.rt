//! The command `show`. Its lines are told in docs/FORMATS.md.

ghost use Rattle.std.specs.Prelude.{◌≡◌, false};
ghost use Rattle.ws_frame.specs.Devices.{watched};
ghost use Rattle.ws_frame.specs.Watching.{has_failed};
ghost use Rattle.ws_frame.specs.Lines.{alone};
ghost use Rattle.wst_commands.specs.Show.{RunsShow, ShowsCapture, ShowsStream, TellsLines, TellsMarked};
ghost use Rattle.wst_commands.specs.Show.{budget_of, show_plan, shown, shown_role};

use crate::exit::Exit;
use crate::fault::Fault;
use crate::reading_capture::{ended_by, read_capture};
use std::alloc::Global;
use std::io::{Read, Write};
use ws_faults::marked_frames;
use ws_frame::{DataStyle, ShowEnd, ShowFault, Source, Watched, show, show_payloads};
use ws_lines::{Showing, fits_places, show_transcript};
use ws_suite::KeptTranscript;
use ws_wire::Role;
use wst_words::ShowOptions;

/// At most so many bytes of a stream are read where it isn't told how many.
const STREAM_BUDGET: u64 = 1_073_741_824;

/// What is shown.
#[derive(Clone, Copy)]
pub(crate) enum ShowPlan {
    /// A stream that this end sent, of which at most so many bytes are read.
    Stream { from: Role, budget: u64 },
    /// A capture whose tested end has this role.
    Capture { tested: Role },
}

/// Shows the frames that the reader gives: those of a stream as they come, or those of a capture turn by turn.
#[inline(never)]
pub fn run_show<R: Read, W: Write>(
    alloc: Global,
    options: ShowOptions,
    reader: &mut Watched<R>,
    writer: &mut Watched<W>,
) -> Result<Exit, Fault>
    requires reader_works { has_failed reader.old ≡ false }
    requires writer_works { has_failed writer.old ≡ false }
    ensures { RunsShow options result (watched R.remaining reader.old reader.new)
        (watched W.contents writer.old writer.new) }
{
    match plan_of(options) {
        Err(fault) => Err(fault),
        Ok(ShowPlan::Stream { from, budget }) => {
            show_stream(alloc, from, options.style, budget, reader, writer)
        }
        Ok(ShowPlan::Capture { tested }) => {
            show_capture(alloc, tested, options.style, reader, writer)
        }
    }
}

/// What the options ask for: an option of a stream doesn't go with a capture, nor one of a capture without it.
fn plan_of(options: ShowOptions) -> Result<ShowPlan, Fault>
    ensures { result ≡ show_plan options }
{
    match (options.capture, options.from, options.budget, options.role) {
        (false, from, budget, None) => Ok(ShowPlan::Stream {
            from: role_of(from),
            budget: budget_of(budget),
        }),
        (false, _, _, Some(_)) => Err(Fault::RoleWithoutCapture),
        (true, None, None, role) => Ok(ShowPlan::Capture {
            tested: role_of(role),
        }),
        (true, Some(_), _, _) | (true, None, Some(_), _) => Err(Fault::StreamWithCapture),
    }
}

/// The end that an option names, and the server where it is left out.
pub(crate) fn role_of(role: Option<Role>) -> Role
    ensures { result ≡ shown_role role }
{
    match role {
        Some(role) => role,
        None => Role::Server,
    }
}

/// The budget that an option names, and ours where it is left out.
fn budget_of(budget: Option<u64>) -> u64
    ensures { result ≡ budget_of budget }
{
    match budget {
        Some(budget) => budget,
        None => STREAM_BUDGET,
    }
}

/// Shows a stream that this end sent. By the first bytes of each payload it takes no memory.
#[inline(never)]
fn show_stream<R: Read, W: Write>(
    alloc: Global,
    from: Role,
    style: DataStyle,
    budget: u64,
    reader: &mut Watched<R>,
    writer: &mut Watched<W>,
) -> Result<Exit, Fault>
    requires reader_works { has_failed reader.old ≡ false }
    requires writer_works { has_failed writer.old ≡ false }
    ensures { ShowsStream (alone from style) budget result (watched R.remaining reader.old reader.new)
        (watched W.contents writer.old writer.new) }
{
    match style {
        DataStyle::Hex => exit_of(show(reader, writer, from, budget)),
        DataStyle::Text | DataStyle::All => {
            let source = Source::alone(from, style);
            exit_of(show_payloads(alloc, reader, writer, source, budget))
        }
    }
}

/// How a run over a stream ends.
fn exit_of(end: ShowEnd) -> Result<Exit, Fault>
    ensures { result ≡ shown end }
{
    match end {
        ShowEnd::Done => Ok(Exit::Done),
        ShowEnd::CutAt(_) | ShowEnd::BadLengthAt(_) => Ok(Exit::Damaged),
        ShowEnd::Budget | ShowEnd::ReadFault | ShowEnd::WriteFault => Ok(Exit::Failed),
        ShowEnd::NoMemory => Err(Fault::NoMemory),
    }
}

/// Shows a capture.
#[inline(never)]
fn show_capture<R: Read, W: Write>(
    alloc: Global,
    tested: Role,
    style: DataStyle,
    reader: &mut Watched<R>,
    writer: &mut Watched<W>,
) -> Result<Exit, Fault>
    requires reader_works { has_failed reader.old ≡ false }
    requires writer_works { has_failed writer.old ≡ false }
    ensures { ShowsCapture tested style result (watched R.remaining reader.old reader.new)
        (watched W.contents writer.old writer.new) }
{
    match read_capture(alloc, reader) {
        Ok(capture) => tell_marked(alloc, tested, style, capture.transcript(), writer),
        Err(stop) => ended_by(stop),
    }
}

/// Writes the lines of a transcript, once it is known which of them are marked: so memory is taken for that before
/// anything is written.
fn tell_marked<W: Write>(
    alloc: Global,
    tested: Role,
    style: DataStyle,
    transcript: &KeptTranscript,
    writer: &mut Watched<W>,
) -> Result<Exit, Fault>
    requires { has_failed writer.old ≡ false }
    ensures { TellsMarked tested style transcript.now result (watched W.contents writer.old writer.new) }
{
    match marked_frames(alloc, tested, transcript) {
        Err(_) => Err(Fault::NoMemory),
        Ok(marked) => {
            let showing = Showing {
                tested,
                style,
                sent_fault: marked.sent,
                got_fault: marked.got,
            };
            tell_lines(alloc, showing, transcript, writer)
        }
    }
}

/// Writes the lines of a transcript. One with a place that 64 bits can't tell, which no memory holds, is told as want
/// of it.
fn tell_lines<W: Write>(
    alloc: Global,
    showing: Showing,
    transcript: &KeptTranscript,
    writer: &mut Watched<W>,
) -> Result<Exit, Fault>
    requires { has_failed writer.old ≡ false }
    ensures { TellsLines showing transcript.now result (watched W.contents writer.old writer.new) }
{
    if !fits_places(transcript) {
        return Err(Fault::NoMemory);
    }
    match show_transcript(alloc, showing, transcript, writer) {
        Ok(()) => Ok(Exit::Done),
        Err(ShowFault::Write) => Ok(Exit::Failed),
        Err(ShowFault::NoMemory) => Err(Fault::NoMemory),
    }
}
