//! What a machine is told, and what it wants.

ghost use Rattle.std.specs.Prelude.{◌≡◌, ◌<◌, ◌∷◌, [], true, IfOk, OnOk};
ghost use Rattle.ws_machines.specs.Machines.{Extends, HasNext, IsRunning, MayBeTold, told_at};

use crate::stream::StreamEvent;
use ws_base::NoMemory;

/// One end of what goes over a stream: it is told what happened, and says what it wants next. It opens nothing, reads
/// no clock and waits for nothing.
pub trait Machine {
    ghost use Rattle.std.specs.Prelude.{List, ℕ};
    ghost use Rattle.ws_machines.specs.Told.{Told};
    ghost use Rattle.ws_machines.specs.Machines.{Wants};

    /// What comes of it.
    type End;

    /// From the first state to the second one it was told just this.
    ghost agrees: { Self → Self → List Told → Type 0 };

    /// What it wants next.
    ghost wants: { Self → Wants };

    /// At most so much can still happen to it: each event lowers it, so that every run ends.
    ghost left: { Self → ℕ };

    /// This is what comes of the machine in this state if it is told just this.
    ghost gives: { Self → List Told → Self.End → Type 0 };

    /// The bytes that are to be written, or none.
    fn to_write(&self) -> &[u8]
        ensures { result.now ≡ (wants self.now).write };

    /// The lines that are to be reported, or none.
    fn to_report(&self) -> &[u8]
        ensures { result.now ≡ (wants self.now).report };

    /// How many bytes are to be read at most, 0 where none are.
    fn room(&self) -> usize
        ensures { result ≡ (wants self.now).room };

    /// Whether the own direction is to be ended.
    fn wants_end(&self) -> bool
        ensures { result ≡ (wants self.now).end };

    /// Whether the time limit of what it waits for begins anew: what has just happened was waited for, or it waits for
    /// something else.
    fn waits_anew(&self) -> bool
        ensures { result ≡ (wants self.now).waits_anew };

    /// Whether it is done: it wants nothing, and is told nothing more.
    fn is_done(&self) -> bool
        ensures { result ≡ (wants self.now).done };

    /// Something happened. After `NoMemory` nothing is said of the machine.
    fn on_event(&mut self, event: StreamEvent<'_>) -> Result<(), NoMemory>
        requires { MayBeTold (wants self.old) event }
        ensures told { OnOk result (Extends agrees self.old self.new (told_at (wants self.old) event.entry ∷ [])) }
        ensures goes_on { OnOk result (HasNext (wants self.new)) }
        ensures nears { OnOk result (IsRunning agrees self.old → left self.new < left self.old) };

    /// What came of it.
    fn into_end(self) -> Result<Self::End, NoMemory>
        requires { (wants self).done ≡ true }
        ensures { IfOk result (λ end. (start : Self) (told : List Told) → agrees start self told
            → gives start told end) };
}
