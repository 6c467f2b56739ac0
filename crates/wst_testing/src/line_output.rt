//! The output as the sink of the lines of one place of a loop.

ghost use Rattle.std.specs.Prelude.{◌≡◌, OnOk, false};
ghost use Rattle.std.specs.Io.KnownBytes.{Keeps};
ghost use Rattle.ws_frame.specs.Devices.{watched};
ghost use Rattle.ws_frame.specs.Watching.{has_failed, inner_of};
ghost use Rattle.wst_testing.specs.LineOutputs.{HasWrittenOn, HasWrittenTaken, WritesRest};

use std::io::Write;
use ws_base::NoMemory;
use ws_frame::{Watched, WriteFault, write_whole};
use ws_loops::{LineSink, WaitFailed};

/// Why no more lines are written.
#[derive(Clone, Copy, PartialEq, Eq)]
pub enum LineStop {
    /// The output failed.
    Output,
    /// Memory ran out; a run whose places 64 bits can't tell has no room in any.
    NoMemory,
    /// The network could not be waited for.
    Network,
}

impl From<WaitFailed> for LineStop {
    ghost use Rattle.wst_testing.specs.declared.line_output.LineStop.TheVariants as stop;

    ghost from_gives = { λ _ given. given ≡ stop.Network };

    fn from(_failed: WaitFailed) -> LineStop {
        LineStop::Network
    }
}

impl From<NoMemory> for LineStop {
    ghost use Rattle.wst_testing.specs.declared.line_output.LineStop.TheVariants as stop;

    ghost from_gives = { λ _ given. given ≡ stop.NoMemory };

    fn from(_refused: NoMemory) -> LineStop {
        LineStop::NoMemory
    }
}

impl From<WriteFault> for LineStop {
    ghost use Rattle.wst_testing.specs.declared.line_output.LineStop.TheVariants as stop;

    ghost from_gives = { λ _ given. given ≡ stop.Output };

    fn from(_failed: WriteFault) -> LineStop {
        LineStop::Output
    }
}

/// It writes the lines of the machine in this place, and flushes them. Lines of another place are not taken.
#[derive(Drop)]
pub struct LineOutput<'a, W> {
    /// The place.
    pub at: usize,
    /// The output.
    pub writer: &'a mut Watched<W>,
}

impl<'a, W: Write> LineOutput<'a, W> {
    /// One that writes those of this place to this output.
    pub fn new(at: usize, writer: &'a mut Watched<W>) -> LineOutput<'a, W>
        ensures at { result.at ≡ at }
        ensures writer { result.writer.now ≡ writer.old }
        ensures borrow { result.writer.ghost_name ≡ writer.entry.ghost_name }
    {
        LineOutput { at, writer }
    }

    /// Writes the last lines, if there are any, and flushes them.
    pub fn write_last(&mut self, last: &[u8]) -> Result<(), WriteFault>
        ensures written { OnOk result (WritesRest W.contents self.old.writer.now self.new.writer.now last.now) }
        ensures borrow { self.new.writer.ghost_name ≡ self.old.writer.ghost_name }
    {
        if last.is_empty() {
            return Ok(());
        }
        write_lines(self.writer, last)?;
        Ok(())
    }
}

impl<W: Write> LineSink for LineOutput<'_, W> {
    type Fault = LineStop;

    ghost heard = { λ start now taken. HasWrittenTaken start.at now.at taken start.writer.ghost_name
        now.writer.ghost_name (watched W.contents start.writer.now now.writer.now) };

    fn put(&mut self, at: usize, lines: &[u8]) -> Result<(), LineStop> {
        if at != self.at {
            return Err(LineStop::Output);
        }
        write_lines(self.writer, lines)?;
        Ok(())
    }
}

/// Writes these lines, and flushes them.
pub(crate) fn write_lines<W: Write>(writer: &mut Watched<W>, lines: &[u8]) -> Result<(), WriteFault>
    ensures { OnOk result (HasWrittenOn W.contents writer.old writer.new lines.now) }
{
    if writer.failed() {
        return Err(WriteFault);
    }
    write_whole(writer, lines)?;
    flush(writer)?;
    Ok(())
}

/// Flushes what was written.
fn flush<W: Write>(writer: &mut Watched<W>) -> Result<(), WriteFault>
    requires { has_failed writer.old ≡ false }
    ensures kept { Keeps (W.contents (inner_of writer.old)) (W.contents (inner_of writer.new)) }
    ensures works { OnOk result (has_failed writer.new ≡ false) }
{
    match writer.flush() {
        Ok(()) => Ok(()),
        Err(_) => Err(WriteFault),
    }
}
