//! Bytes written whole to a watched writer.

ghost use Rattle.std.specs.Prelude.{◌≡◌, ◌||◌, OnOk, OnErr, Some, codes, is_err};
ghost use Rattle.ws_frame.specs.Watching.{has_failed};
ghost use Rattle.ws_frame.specs.Devices.{watched, HasWritten, HasBegun};

use crate::watching::Watched;
use std::error::Error;
use std::fmt;
use std::io::Write;

/// A write answered an error or took nothing.
#[derive(Clone, Copy, Debug)]
pub struct WriteFault;

impl fmt::Display for WriteFault {
    ghost output = { λ _. Some (codes "a write failed") };

    fn fmt<W: fmt::Write>(&self, f: &mut fmt::Formatter<W>) -> fmt::Result {
        write!(f, "a write failed")
    }
}

impl Error for WriteFault {}

/// Writes all of the bytes, in as many writes as it takes. `WriteFault` where one of them answers an
/// error or takes nothing: then a beginning of the bytes was written, and nothing is tried again.
pub fn write_whole<W: Write>(writer: &mut Watched<W>, bytes: &[u8]) -> Result<(), WriteFault>
    ensures written { OnOk result (HasWritten bytes.now (watched W.contents writer.old writer.new)) }
    ensures begun { OnErr result (HasBegun bytes.now (watched W.contents writer.old writer.new)) }
    ensures failed { has_failed writer.new ≡ (has_failed writer.old || is_err result) }
{
    let mut at = 0;
    while at < bytes.len() {
        match writer.write(&bytes[at..]) {
            Ok(0) => return Err(WriteFault),
            Ok(taken) => at += taken,
            Err(_) => return Err(WriteFault),
        }
    }
    Ok(())
}
