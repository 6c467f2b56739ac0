//! Listening at a name: each of its addresses is tried, one after the other, until one can be listened at.

ghost use Rattle.std.specs.Prelude.{◌≡◌, ◌∷◌, [], nat_eq, if◌then◌else◌, IfOk, MatchResult};
ghost use Rattle.ws_networks.specs.Listening.{CannotListen, HasAddedSome, Listens, NoneBound, OneBound};

use crate::dialing::address_at;
use crate::network::Network;
use std::alloc::Global;

/// Why a name isn't listened at.
#[derive(Clone, Copy)]
pub enum Unheard<W> {
    /// The name has no address.
    NoAddress,
    /// The network says this.
    Failed(W),
}

/// Listens at the first address of a name that can be listened at. Where none can, the reason is that of the first one.
pub fn listen<N: Network>(
    alloc: Global,
    network: &mut N,
    name: &str,
) -> Result<N::Listener, Unheard<N::Miss>>
    ensures listens { MatchResult result
        (λ listener. HasAddedSome N.did network.old network.new (Listens name.now))
        (λ why. HasAddedSome N.did network.old network.new (CannotListen name.now why)) }
    ensures fresh { IfOk result (λ listener. N.Listener.did listener listener []) }
{
    match network.look_up(alloc, name) {
        Ok(addresses) => listen_at(network, addresses.as_slice()),
        Err(why) => Err(Unheard::Failed(why)),
    }
}

/// Listens at the first of these addresses that can be listened at.
fn listen_at<N: Network>(
    network: &mut N,
    addresses: &[N::Address],
) -> Result<N::Listener, Unheard<N::Miss>>
    ensures tried { MatchResult result
        (λ listener. HasAddedSome N.did network.old network.new (OneBound addresses.now))
        (λ why. HasAddedSome N.did network.old network.new (NoneBound addresses.now why)) }
    ensures fresh { IfOk result (λ listener. N.Listener.did listener listener []) }
{
    let mut first = Unheard::NoAddress;
    let mut tried = 0;
    while tried < addresses.len() {
        let address = address_at(addresses, tried);
        match network.bind(address) {
            Ok(listener) => return Ok(listener),
            Err(why) => first = first_of(first, why, tried),
        }
        tried += 1;
    }
    Err(first)
}

/// The reason that is told once the address of this number can't be listened at either.
fn first_of<W: Copy>(told: Unheard<W>, why: W, tried: usize) -> Unheard<W>
    ensures { result ≡ if nat_eq tried 0 then Unheard.Failed why else told }
{
    if tried == 0 {
        Unheard::Failed(why)
    } else {
        told
    }
}
