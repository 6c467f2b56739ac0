//! Bytes to the output and to the fault output.

ghost use Rattle.std.specs.Prelude.{◌≡◌, false};
ghost use Rattle.ws_frame.specs.Devices.{watched};
ghost use Rattle.ws_frame.specs.Watching.{has_failed};
ghost use Rattle.wst_commands.specs.Devices.{Delivers, StaysFailed, Tells};

use crate::exit::Exit;
use std::io::Write;
use ws_frame::{Watched, write_whole};

/// Writes all of the bytes to the output, and answers this exit, or that of a failure.
pub fn deliver<W: Write>(done: Exit, bytes: &[u8], writer: &mut Watched<W>) -> Exit
    requires { has_failed writer.old ≡ false }
    ensures { Delivers done bytes.now result (watched W.contents writer.old writer.new) }
{
    match write_whole(writer, bytes) {
        Ok(()) => done,
        Err(_) => Exit::Failed,
    }
}

/// Tells a text on the fault output, where it takes it.
pub fn tell<F: Write>(text: &[u8], faults: &mut Watched<F>)
    ensures told { Tells text.now (watched F.contents faults.old faults.new) }
    ensures still { StaysFailed faults.old faults.new }
{
    let _ = write_whole(faults, text);
}
