//! A capture that is written in format 2 from its text.

ghost use Rattle.std.specs.Prelude.{◌≡◌, false};
ghost use Rattle.ws_frame.specs.Devices.{watched};
ghost use Rattle.ws_frame.specs.Streaming.{WritesAll};
ghost use Rattle.ws_frame.specs.Watching.{has_failed};
ghost use Rattle.ws_scripts.specs.Captures2.{IsAnyCaptureOf, written_capture2};
ghost use Rattle.ws_scripts.specs.declared.capture.Capture.{Capture};

use crate::joining::write_joined;
use std::io::Write;
use ws_formats::cut_line;
use ws_frame::{Watched, WriteFault, write_whole};

/// Writes the capture that a text is, in either format, in format 2: a text in format 2 is its own.
pub fn write_as_capture2<W: Write>(text: &[u8], writer: &mut Watched<W>) -> Result<(), WriteFault>
    requires { has_failed writer.old ≡ false }
    ensures { (capture : Capture) → IsAnyCaptureOf capture text.now →
        WritesAll (written_capture2 capture) (watched W.contents writer.old writer.new) result }
{
    if let Some((first, lines)) = cut_line(text) {
        if first == b"wst-capture 1".as_slice() {
            return write_joined(lines, writer);
        }
    }
    write_whole(writer, text)
}
