//! Waiting for many streams at once, and the time.

ghost use Rattle.std.specs.Prelude.{◌≡◌, ◌<◌, ◌≤◌, length, IfOk, OnOk};

/// Whether a stream may be read, and written: it was found ready, or was not asked since.
#[derive(Clone, Copy, PartialEq, Eq)]
pub struct Readiness {
    pub read: bool,
    pub write: bool,
}

/// What a poller tells of.
#[derive(Clone, Copy, PartialEq, Eq)]
pub enum Mark {
    /// The listener of a loop.
    Listener,
    /// The stream in this place.
    Place(usize),
}

/// What was found ready, and for what.
#[derive(Clone, Copy)]
pub struct Wake {
    pub mark: Mark,
    pub ready: Readiness,
}

/// Nothing could be waited for.
#[derive(Clone, Copy, PartialEq, Eq)]
pub struct WaitFailed;

/// It waits for the streams of a loop, each under a mark of its own, and has the time: milliseconds since some moment,
/// which never go back.
pub trait Poller {
    ghost use Rattle.std.specs.Prelude.{ℕ};

    /// The time that it answered last.
    ghost time: { Self → ℕ };

    /// How often it can still wait: so many waits are more than a run can have.
    ghost left: { Self → ℕ };

    /// The time.
    fn now(&mut self) -> u64
        ensures now { result ≡ time self.new }
        ensures later { time self.old ≤ time self.new }
        ensures left { left self.new ≡ left self.old };

    /// Waits until some stream may be read or written that could not when it was last asked, or this time has come: the
    /// present or a past one where it is not to wait. It tells those at the front of the list, and answers how many;
    /// what the list has no room for is told by the next wait. Where it was interrupted it goes on for the time that is
    /// left.
    fn wait(&mut self, found: &mut [Wake], until: Option<u64>) -> Result<usize, WaitFailed>
        ensures len { length found.new ≡ length found.old }
        ensures count { IfOk result (λ count. count ≤ length found.new) }
        ensures time { time self.new ≡ time self.old }
        ensures nears { OnOk result (left self.new < left self.old) };
}
