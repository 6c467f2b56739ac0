//! What has the times of lines.

ghost use Rattle.std.specs.Prelude.{◌≡◌};
ghost use Rattle.wst_noted.specs.TimedLines.{LinePlace, place_in};

use std::cell::Cell;
use std::time::Duration;
use ws_base::NoMemory;

/// It has the time of the line that is written next.
pub trait LineTimes {
    /// Where the first byte that is written comes: in the time of a line, or in a line that has none.
    ghost first: { LinePlace };

    /// Whether the first line has no time.
    fn is_first_bare(&self) -> bool
        ensures { first ≡ place_in result };

    /// The time.
    fn time(&self) -> Duration;

    /// Memory ran out for it.
    fn lack_memory(&self);
}

/// The ages of connections, whose lines come by turns, behind a line of its own that has no time.
#[derive(Drop)]
pub struct Ages<'a> {
    /// That of the connection of which the next line tells, in milliseconds.
    age: &'a Cell<u64>,
    lacks_memory: Cell<bool>,
}

impl<'a> Ages<'a> {
    /// The age stands there.
    pub fn of(age: &'a Cell<u64>) -> Ages<'a> {
        Ages {
            age,
            lacks_memory: Cell::new(false),
        }
    }

    /// An error where memory ran out for a time.
    pub fn check(&self) -> Result<(), NoMemory> {
        if self.lacks_memory.get() {
            return Err(NoMemory);
        }
        Ok(())
    }
}

impl LineTimes for Ages<'_> {
    ghost use Rattle.wst_noted.specs.TimedLines.{InLine};

    ghost first = { InLine };

    fn is_first_bare(&self) -> bool {
        true
    }

    fn time(&self) -> Duration {
        Duration::from_millis(self.age.get())
    }

    fn lack_memory(&self) {
        self.lacks_memory.set(true);
    }
}
