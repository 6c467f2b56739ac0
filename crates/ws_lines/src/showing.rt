//! The lines of a transcript that has ended.

ghost use Rattle.std.specs.Prelude.{◌≡◌, IsErrOf, OnErr, OnOk, false, true};
ghost use Rattle.ws_frame.specs.Watching.{has_failed};
ghost use Rattle.ws_frame.specs.Devices.{watched};
ghost use Rattle.ws_frame.specs.Lines.{takes_memory};
ghost use Rattle.ws_frame.specs.declared.show_fault.ShowFault.TheVariants.{NoMemory};
ghost use Rattle.ws_lines.specs.TurnLines.{FitsPlaces};
ghost use Rattle.ws_lines.specs.Telling.{HasWrittenLines, HasBegunLines, is_failed_write};

use crate::{Showing, TranscriptLines};
use std::alloc::Global;
use std::io::Write;
use ws_frame::{ShowFault, Watched};
use ws_scripts::AsTranscript;

/// Writes the lines of a transcript: for each turn its line, and a line for each whole frame of what was sent, then of
/// what was got, in the turn that holds its last byte; at the end `cut at OFFSET` for each direction that ends inside a
/// frame, and how it ended. Each direction is read once. Memory is taken only where payloads aren't shown by their
/// first bytes. At an error a beginning of the lines was written.
pub fn show_transcript<T: AsTranscript, W: Write>(
    alloc: Global,
    showing: Showing,
    transcript: &T,
    writer: &mut Watched<W>,
) -> Result<(), ShowFault>
    requires writer_works { has_failed writer.old ≡ false }
    requires places { FitsPlaces (T.transcript transcript.now).turns }
    ensures lines { OnOk result (HasWrittenLines showing (T.transcript transcript.now)
        (watched W.contents writer.old writer.new)) }
    ensures begun { OnErr result (HasBegunLines showing (T.transcript transcript.now)
        (watched W.contents writer.old writer.new)) }
    ensures failed { has_failed writer.new ≡ is_failed_write result }
    ensures memory { IsErrOf result NoMemory → takes_memory showing.style ≡ true }
{
    let mut lines = TranscriptLines::new(alloc, showing);
    let lent = transcript.as_transcript();
    let mut walk = lent.turns();
    for _number in 0..walk.len() {
        let turn = walk.take_first();
        lines.begin_turn(alloc, writer, turn.sent)?;
        lines.got(alloc, writer, turn.got)?;
    }
    lines.end(writer, lent.ended())?;
    Ok(())
}
