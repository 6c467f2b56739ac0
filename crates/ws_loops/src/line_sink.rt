//! Who takes the lines of the machines of a loop.

ghost use Rattle.std.specs.Prelude.{◌≡◌, ◌∷◌, [], OnOk};
ghost use Rattle.ws_loops.specs.Sinks.{HasTakenLines};

use crate::fault::LoopFault;
use crate::poller::WaitFailed;
use ws_base::NoMemory;

/// It takes the lines of the machines of a loop, each with the place of its machine, before that machine is told
/// anything more.
pub trait LineSink {
    ghost use Rattle.std.specs.Prelude.{List, ℕ};

    /// Why lines are not taken, or a loop stops.
    type Fault: From<NoMemory> + From<WaitFailed> + Drop;

    /// From the first state to the second one it took just these lines, each with its place.
    ghost heard: { Self → Self → List (ℕ × List ℕ) → Type 0 };

    /// Takes the lines of the machine in this place.
    fn put(&mut self, at: usize, lines: &[u8]) -> Result<(), Self::Fault>
        ensures { OnOk result (HasTakenLines heard self.old self.new ((at, lines.now) ∷ [])) };
}

/// It takes no lines: a machine that wants some ends the loop.
#[derive(Clone, Copy)]
pub struct NoLines;

impl LineSink for NoLines {
    type Fault = LoopFault;

    ghost heard = { λ old new lines. lines ≡ [] };

    fn put(&mut self, _at: usize, _lines: &[u8]) -> Result<(), LoopFault> {
        Err(LoopFault::NoOutput)
    }
}
