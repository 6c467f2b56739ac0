//! What is asked of a network.

ghost use Rattle.std.specs.Prelude.{◌≡◌, ◌∷◌, [], IfOk, MatchResult};
ghost use Rattle.ws_networks.specs.Networks.{HasAdded};
ghost use Rattle.ws_networks.specs.Networks.NetworkDeed.{Asked, Begun, Bound, Found, Named, NotBegun, NotBound};
ghost use Rattle.ws_networks.specs.Networks.NetworkDeed.{NotFound, NotNamed};

use std::alloc::Global;
use ws_loops::{Listener, NonBlocking};

/// How far a connection has come that was begun.
#[derive(Clone, Copy)]
pub enum Progress<W> {
    /// It is made.
    Made,
    /// It is neither made, nor has it failed.
    Pending,
    /// It has failed, for this reason.
    Failed(W),
}

/// It looks names up, begins connections, each for a place of a loop, and listens: under the mark of that place, or of
/// the listener, the loop's poller tells of it. No call waits, but a look-up.
pub trait Network {
    ghost use Rattle.std.specs.Prelude.{List};
    ghost use Rattle.ws_networks.specs.Networks.{NetworkDeed};

    /// An address of a name.
    type Address: Copy;

    /// A connection that was begun. Until it is made it has nothing, and takes nothing. What is written goes out at
    /// once: no byte waits for an answer to those before it.
    type Stream: NonBlocking + Drop;

    /// What clients come to.
    type Listener: Listener<Client = Self::Stream, Miss = Self::Miss> + Drop;

    /// Why a name has no address, a connection is not made, or an address is not listened at.
    type Miss: Copy;

    /// From the first state to the second one it did just this.
    ghost did: { Self → Self → List (NetworkDeed Self.Address Self.Miss) → Type 0 };

    /// The addresses of a name, in the order in which they are to be tried.
    fn look_up(&mut self, alloc: Global, name: &str) -> Result<Vec<Self::Address>, Self::Miss>
        ensures did { MatchResult result
            (λ addresses. HasAdded did self.old self.new (Found name.now addresses.items ∷ []))
            (λ why. HasAdded did self.old self.new (NotFound name.now why ∷ [])) };

    /// Begins a connection to an address, for this place and by this time. Its stream has done nothing yet.
    fn begin(
        &mut self,
        address: Self::Address,
        at: usize,
        now: u64,
    ) -> Result<Self::Stream, Self::Miss>
        ensures did { MatchResult result
            (λ stream. HasAdded did self.old self.new (Begun at address now ∷ []))
            (λ why. HasAdded did self.old self.new (NotBegun at address why ∷ [])) }
        ensures fresh { IfOk result (λ stream. Self.Stream.did stream stream []) };

    /// How far the connection has come that was begun last for this place, which is this stream.
    fn progress(&mut self, stream: &Self::Stream, at: usize) -> Progress<Self::Miss>
        ensures { HasAdded did self.old self.new (Asked at result ∷ []) };

    /// Listens at an address; where its port is 0, at one that the system chooses. The listener has done nothing yet.
    fn bind(&mut self, address: Self::Address) -> Result<Self::Listener, Self::Miss>
        ensures did { MatchResult result
            (λ listener. HasAdded did self.old self.new (Bound address ∷ []))
            (λ why. HasAdded did self.old self.new (NotBound address why ∷ [])) }
        ensures fresh { IfOk result (λ listener. Self.Listener.did listener listener []) };

    /// The address at which a listener takes clients.
    fn address_of(&mut self, listener: &Self::Listener) -> Result<Self::Address, Self::Miss>
        ensures { MatchResult result
            (λ address. HasAdded did self.old self.new (Named address ∷ []))
            (λ why. HasAdded did self.old self.new (NotNamed why ∷ [])) };
}
