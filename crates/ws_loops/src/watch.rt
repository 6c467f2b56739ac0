//! A connection that is under way for a place: no slot stands there yet.

ghost use Rattle.std.specs.Prelude.{◌≡◌};
ghost use Rattle.ws_loops.specs.Paces.{has_ended_by};
ghost use Rattle.ws_loops.specs.Watches.{watched_by};

use crate::inside::has_come;
use crate::poller::Readiness;

/// What is waited for while a connection is under way for a place: that its stream is found ready, or that a time has
/// come. The loop doesn't own the stream.
#[derive(Clone, Copy)]
pub struct Watch {
    /// Until then it is waited for.
    pub until: Option<u64>,
    /// The stream was found ready, or the time has come.
    pub stirred: bool,
}

impl Watch {
    /// Behind a round by this time, in which its stream was found so.
    pub(crate) fn woken(self, ready: Readiness, now: u64) -> Watch
        ensures { result ≡ watched_by ready now self }
    {
        let stirred = self.stirred || ready.read || ready.write || has_come(self.until, now);
        Watch {
            until: self.until,
            stirred,
        }
    }
}
