//! Listeners that don't wait: each call takes a client that has come, or answers that there is none.

ghost use Rattle.std.specs.Prelude.{◌≡◌, ◌∷◌, []};
ghost use Rattle.ws_loops.specs.Listeners.{HasHeard, IfAccepted, accept_deed};

use crate::non_blocking::NonBlocking;

/// What came of an accept that doesn't wait.
#[derive(Drop)]
pub enum TryAccept<S, W> {
    /// A client has come, and this is its stream.
    Client(S),
    /// A client has come whose stream can't be used, for this reason. It is gone, and others may be there.
    Lost(W),
    /// No client can be taken, for this reason.
    Failed(W),
    /// No client has come.
    NotReady,
}

/// It is what clients come to. A loop's poller tells of it under a mark of its own.
pub trait Listener {
    ghost use Rattle.std.specs.Prelude.{List};
    ghost use Rattle.ws_loops.specs.Listeners.{AcceptDeed};

    /// The stream of a client. What is written goes out at once.
    type Client: NonBlocking + Drop;

    /// Why no client can be taken, or one is lost.
    type Miss: Copy;

    /// From the first state to the second one it did just this.
    ghost did: { Self → Self → List (AcceptDeed Self.Miss) → Type 0 };

    /// Takes the client that has come first, for this place of a loop: under its mark the loop's poller tells of its
    /// stream. The stream has done nothing yet.
    fn try_accept(&mut self, at: usize) -> TryAccept<Self::Client, Self::Miss>
        ensures did { HasHeard did self.old self.new (accept_deed at result ∷ []) }
        ensures fresh { IfAccepted result (λ stream. Self.Client.did stream stream []) };
}
