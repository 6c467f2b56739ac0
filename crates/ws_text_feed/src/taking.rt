//! Who takes the values of a text.

ghost use Rattle.std.specs.Prelude.{List, ℕ};
ghost use Rattle.ws_text_feed.specs.Taking.{CanTake, TakesValue};

use std::alloc::Global;
use ws_base::LineFault;

/// Takes the values that the lines of a text tell, one after the other. After an error nothing more is to be taken.
pub trait TakeValues: Sized + Drop {
    /// What a line tells.
    type Value: Drop;

    /// The line, without its LF, tells the value.
    ghost is_line_of: { Self.Value → List ℕ → Type 0 };

    /// The second is what the first has become by taking these values, in their order.
    ghost has_taken: { Self → List Self.Value → Self → Type 0 };

    /// Takes the value that a line tells, which is given without its LF.
    fn take_line(&mut self, alloc: Global, line: &[u8]) -> Result<(), LineFault>
        requires { CanTake has_taken self.old }
        ensures { TakesValue is_line_of has_taken self.old self.new line.now result };

    /// The same of a line that came piece by piece and was kept in this room, which may be used for what it tells.
    fn take_kept_line(&mut self, alloc: Global, line: &mut Vec<u8>) -> Result<(), LineFault>
        requires { CanTake has_taken self.old }
        ensures { TakesValue is_line_of has_taken self.old self.new line.old.items result };
}
