//! Readers that wait no longer than limits of time say.

ghost use Rattle.std.specs.Prelude.{◌≡◌};

use std::io::Read;
use ws_frame::{ByteReader, Counting};

/// The time limit of what is waited for over a connection.
pub trait WaitTimer {
    ghost use Rattle.std.specs.Prelude.{Bool};

    /// What it has said last of whether it was waited long enough.
    ghost has_waited: { Self → Bool };

    /// The limit begins anew. Until it first does so, each read has a limit of its own.
    fn begin_wait(&mut self)
        ensures { has_waited self.new ≡ has_waited self.old };

    /// Whether it was waited long enough by now: for the limit since the last byte that was taken, or there is none.
    fn has_waited(&mut self) -> bool
        ensures { result ≡ has_waited self.new };
}

/// A reader that waits. Where the time limit has passed, it answers an error of the kind `WouldBlock`, and where the
/// deadline of the connection has, one of the kind `TimedOut`; so does the writer that belongs to it.
pub trait WaitingRead: Read {
    /// What keeps its time limit.
    type Timer: WaitTimer + Drop;

    /// That of this reader.
    fn timer(&self) -> Self::Timer;
}

/// The timer of what is never waited for.
#[derive(Clone, Copy, Drop)]
pub struct NoTimer;

impl WaitTimer for NoTimer {
    ghost use Rattle.std.specs.Prelude.{true};

    ghost has_waited = { λ timer. true };

    fn begin_wait(&mut self) {}

    fn has_waited(&mut self) -> bool {
        true
    }
}

impl WaitingRead for &[u8] {
    type Timer = NoTimer;

    fn timer(&self) -> NoTimer {
        NoTimer
    }
}

impl WaitingRead for ByteReader<'_> {
    type Timer = NoTimer;

    fn timer(&self) -> NoTimer {
        NoTimer
    }
}

impl<R: WaitingRead> WaitingRead for Counting<R> {
    type Timer = R::Timer;

    fn timer(&self) -> R::Timer {
        self.inner.timer()
    }
}
