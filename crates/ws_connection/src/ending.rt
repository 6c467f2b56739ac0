//! Writers whose direction can be ended.

ghost use Rattle.std.specs.Prelude.{◌≡◌, true, IfOk};
ghost use Rattle.std.specs.Io.KnownBytes.{Keeps};

use std::io;
use std::io::Write;
use ws_frame::{ByteWriter, Counting, FullWriter};

/// A writer whose direction can be ended, while the other one goes on (a half-close).
pub trait EndsDirection: Write {
    ghost use Rattle.std.specs.Prelude.{Bool, true};

    /// Whether its direction was ended, where it can say so. What can't says yes.
    ghost is_ended: { Self → Bool } = { λ writer. true };

    /// Ends the direction: the other end sees the end of its stream behind what was written.
    fn end_direction(&mut self) -> io::Result<()>
        ensures held { Keeps (Self.contents self.old) (Self.contents self.new) }
        ensures ended { IfOk result (λ done. Self.is_ended self.new ≡ true) };
}

impl EndsDirection for Vec<u8> {
    fn end_direction(&mut self) -> io::Result<()> {
        Ok(())
    }
}

impl EndsDirection for ByteWriter {
    fn end_direction(&mut self) -> io::Result<()> {
        Ok(())
    }
}

impl EndsDirection for FullWriter {
    fn end_direction(&mut self) -> io::Result<()> {
        Ok(())
    }
}

impl<W: EndsDirection> EndsDirection for Counting<W> {
    fn end_direction(&mut self) -> io::Result<()> {
        self.inner.end_direction()
    }
}
