//! A connection that is under way for a place of a loop: the addresses of a name are tried, one after the other, until
//! one takes it. Nothing is waited for here.

ghost use Rattle.std.specs.Prelude.{◌≡◌, ◌<◌, ◌≤◌, [], length, Some, slice_get};
ghost use Rattle.ws_networks.specs.Bounds.{gives_up_at};
ghost use Rattle.ws_networks.specs.Connecting.{HasDialled, HasTriedOne, HaveMissed, IfDialled, IfTried, IsDialling};
ghost use Rattle.ws_networks.specs.Connecting.{HasNextAddress, tried_by, tries_past};
ghost use Rattle.ws_networks.specs.declared.dialing.Missed.TheVariants.{NoAddress};

use crate::bounds::Bounds;
use crate::network::{Network, Progress};

/// Why a connection is not made.
#[derive(Clone, Copy)]
pub enum Missed<W> {
    /// The name has no address.
    NoAddress,
    /// No connection was made in time.
    TimedOut,
    /// The network says this.
    Failed(W),
}

/// The addresses of a name, of which the first ones were tried and have taken no connection.
#[derive(Drop)]
pub struct Tries<A, W> {
    pub(crate) addresses: Vec<A>,
    /// So many have taken none.
    pub(crate) missed: usize,
    /// Why the first one has taken none; that there is no address, while none was tried.
    pub(crate) first: Missed<W>,
    pub(crate) bounds: Bounds,
}

impl<A, W: Copy> Tries<A, W> {
    /// None was tried.
    pub(crate) fn new(addresses: Vec<A>, bounds: Bounds) -> Tries<A, W>
        ensures addresses { result.addresses.items ≡ addresses.items }
        ensures bounds { result.bounds ≡ bounds }
        ensures missed { result.missed ≡ 0 }
        ensures first { result.first ≡ NoAddress }
    {
        Tries {
            addresses,
            missed: 0,
            first: Missed::NoAddress,
            bounds,
        }
    }

    /// The next one has taken no connection, for this reason.
    fn past(self, why: Missed<W>) -> Tries<A, W>
        requires { self.missed < length self.addresses.items }
        ensures { result ≡ tries_past why self }
    {
        let first = if self.missed == 0 { why } else { self.first };
        Tries {
            missed: self.missed + 1,
            first,
            ..self
        }
    }
}

/// A connection that is under way: to the address behind those that have taken none.
#[derive(Drop)]
pub struct Dial<A, S, W> {
    pub(crate) tries: Tries<A, W>,
    pub(crate) stream: S,
    /// When it was begun.
    pub(crate) since: u64,
}

impl<A, S, W> Dial<A, S, W> {
    /// Until when it is waited for.
    pub fn until(&self) -> Option<u64>
        ensures { result ≡ gives_up_at self.now.tries.bounds self.now.since }
    {
        self.tries.bounds.gives_up_at(self.since)
    }
}

/// What has come of a connection by now.
#[derive(Drop)]
pub enum Dialled<A, S, W> {
    /// It is made.
    Made(S),
    /// It is still under way.
    Waits(Dial<A, S, W>),
    /// No address has taken it: the reason is that of the first one.
    Missed(Missed<W>),
}

/// What has come of one address by now.
#[derive(Drop)]
pub(crate) enum Tried<S, W> {
    Made(S),
    Waits(S),
    Missed(Missed<W>),
}

/// Asks how far a connection has come that is under way for this place. Where its address has taken none, or is waited
/// for no longer, the next ones are tried.
pub fn ask<N: Network>(
    network: &mut N,
    at: usize,
    dial: Dial<N::Address, N::Stream, N::Miss>,
    now: u64,
) -> Dialled<N::Address, N::Stream, N::Miss>
    requires within { HasNextAddress (Dialled.Waits dial) }
    requires fresh { N.Stream.did dial.stream dial.stream [] }
    ensures dialled { HasDialled N.did at now (λ from before. IsDialling at from now dial before) dial.tries.bounds
        dial.tries.addresses.items result network.old network.new }
    ensures fresh { IfDialled result (λ stream. N.Stream.did stream stream []) }
    ensures within { HasNextAddress result }
{
    let Dial {
        tries,
        stream,
        since,
    } = dial;
    let progress = network.progress(&stream, at);
    match outcome_of(stream, progress, tries.bounds.is_given_up(since, now)) {
        Tried::Made(stream) => Dialled::Made(stream),
        Tried::Waits(stream) => Dialled::Waits(Dial {
            tries,
            stream,
            since,
        }),
        Tried::Missed(why) => try_next(network, at, tries.past(why), now),
    }
}

/// Begins a connection to the first of these addresses that takes it, for this place.
pub fn begin_dial<N: Network>(
    network: &mut N,
    at: usize,
    addresses: Vec<N::Address>,
    bounds: Bounds,
    now: u64,
) -> Dialled<N::Address, N::Stream, N::Miss>
    ensures dialled { HasDialled N.did at now (λ from before. (before ≡ []) × (from ≤ now)) bounds
        addresses.items result network.old network.new }
    ensures fresh { IfDialled result (λ stream. N.Stream.did stream stream []) }
    ensures within { HasNextAddress result }
{
    try_next(network, at, Tries::new(addresses, bounds), now)
}

/// Tries those addresses that are left, until one has taken the connection, or is waited for.
pub(crate) fn try_next<N: Network>(
    network: &mut N,
    at: usize,
    tries: Tries<N::Address, N::Miss>,
    now: u64,
) -> Dialled<N::Address, N::Stream, N::Miss>
    ensures dialled { HasDialled N.did at now (λ from before. HaveMissed at from now tries before) tries.bounds
        tries.addresses.items result network.old network.new }
    ensures fresh { IfDialled result (λ stream. N.Stream.did stream stream []) }
    ensures within { HasNextAddress result }
{
    let mut tries = tries;
    while tries.missed < tries.addresses.len() {
        let address = address_at(tries.addresses.as_slice(), tries.missed);
        match try_address(network, at, address, tries.bounds, now) {
            Tried::Made(stream) => return Dialled::Made(stream),
            Tried::Waits(stream) => {
                return Dialled::Waits(Dial {
                    tries,
                    stream,
                    since: now,
                });
            }
            Tried::Missed(why) => tries = tries.past(why),
        }
    }
    Dialled::Missed(tries.first)
}

/// The address of this number.
pub(crate) fn address_at<A: Copy>(addresses: &[A], at: usize) -> A
    requires { at < length addresses.now }
    ensures { slice_get addresses.now at ≡ Some result }
{
    addresses[at]
}

/// Begins a connection to an address, and asks at once how far it has come.
fn try_address<N: Network>(
    network: &mut N,
    at: usize,
    address: N::Address,
    bounds: Bounds,
    now: u64,
) -> Tried<N::Stream, N::Miss>
    ensures tried { HasTriedOne N.did at bounds now network.old network.new address result }
    ensures fresh { IfTried result (λ stream. N.Stream.did stream stream []) }
{
    match network.begin(address, at, now) {
        Ok(stream) => {
            let progress = network.progress(&stream, at);
            outcome_of(stream, progress, bounds.is_given_up(now, now))
        }
        Err(why) => Tried::Missed(Missed::Failed(why)),
    }
}

/// What has come of an address, of which this is known, where it is waited for no longer, or still.
fn outcome_of<S: Drop, W: Copy>(stream: S, progress: Progress<W>, late: bool) -> Tried<S, W>
    ensures { result ≡ tried_by stream progress late }
{
    match progress {
        Progress::Made => Tried::Made(stream),
        Progress::Pending => {
            if late {
                Tried::Missed(Missed::TimedOut)
            } else {
                Tried::Waits(stream)
            }
        }
        Progress::Failed(why) => Tried::Missed(Missed::Failed(why)),
    }
}
