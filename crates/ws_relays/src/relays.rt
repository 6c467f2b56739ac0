//! Tapped connections, so many at a time, in one loop over a network.

ghost use Rattle.std.specs.Prelude.{◌≡◌, ◌<◌, ◌+◌, false, length, true, IfErr, IfOk, MatchResult, OnOk, None, Some};
ghost use Rattle.std.specs.Prelude.{slice_get, slice_set};
ghost use Rattle.ws_frame.specs.Devices.{watched};
ghost use Rattle.ws_frame.specs.Watching.{has_failed};
ghost use Rattle.ws_networks.specs.declared.dialing.Dialled.TheVariants as dialled;
ghost use Rattle.ws_relays.specs.EndPlaces.{HasEndAt};
ghost use Rattle.ws_relays.specs.InnerRelays.{AreRelays, AreStanding, AsksEnd, ComesIn, IsNoShortage, IsSilentFault};
ghost use Rattle.ws_relays.specs.InnerRelays.{IsTappedIn, OfSome, PassesIn, RelayEndsIn, RelayOn, RelaysStop};
ghost use Rattle.ws_relays.specs.InnerRelays.{SeesToEnds, SettlesAt, StandByDeeds, StandsSo, StandsTelling};
ghost use Rattle.ws_relays.specs.InnerRelays.{StoodUntil, StopsTelling, end_at, no_parts, shortage_told};
ghost use Rattle.ws_relays.specs.declared.ends.EndEvent.TheVariants as came;
ghost use Rattle.ws_relays.specs.declared.relays.Pair.TheVariants as pair;
ghost use Rattle.ws_relays.specs.declared.relays.RelayEvent.TheVariants as event;

use crate::ages::PlaceAges;
use crate::ends::{EndEvent, Ends};
use crate::once::Happened;
use crate::relay::{Fate, Relay};
use crate::tapping::Tapping;
use std::alloc::Global;
use std::cell::Cell;
use std::io::Write;
use std::mem;
use ws_base::NoMemory;
use ws_frame::{DataStyle, ShowFault, Watched};
use ws_loops::{Listener, LoopFault, NonBlocking, Poller};
use ws_networks::{Bounds, Dial, Dialled, Network, ask, begin_dial};
use ws_tap::{TapEnd, Tapped};
use ws_wire::Role;

/// A server is waited for as long as the system does.
const UNBOUND: Bounds = Bounds {
    limit: None,
    until: None,
};

/// How a connection between a client and the server ended.
#[derive(Clone, Copy)]
pub enum RelayEnd {
    /// The server took none.
    NoConnection,
    /// It was tapped, and ended so.
    Tapped(TapEnd),
}

/// What has happened among connections.
#[derive(Clone, Copy)]
pub(crate) enum RelayEvent {
    /// The connection of this number has ended so.
    Ended(u32, RelayEnd),
    /// No client can be taken for now: others are there.
    Full,
    /// Nobody is there, and no client can be taken any more.
    Deaf,
}

/// Why nothing goes on any more.
#[derive(Clone, Copy, PartialEq, Eq)]
pub(crate) enum RelayFault {
    /// Memory ran out.
    NoMemory,
    /// The output has failed.
    Output,
    /// Nothing can be waited for, or more clients have come than there are numbers.
    WaitFailed,
}

impl From<NoMemory> for RelayFault {
    ghost use Rattle.std.specs.Prelude.{◌≡◌};
    ghost use Rattle.ws_relays.specs.declared.relays.RelayFault.TheVariants.{NoMemory};

    ghost from_gives = { λ _ fault. fault ≡ NoMemory };

    fn from(_no_memory: NoMemory) -> RelayFault {
        RelayFault::NoMemory
    }
}

impl From<ShowFault> for RelayFault {
    ghost use Rattle.std.specs.Prelude.{◌≡◌};
    ghost use Rattle.ws_relays.specs.InnerRelays.{fault_shown};

    ghost from_gives = { λ shown fault. fault ≡ fault_shown shown };

    fn from(fault: ShowFault) -> RelayFault {
        match fault {
            ShowFault::Write => RelayFault::Output,
            ShowFault::NoMemory => RelayFault::NoMemory,
        }
    }
}

impl From<LoopFault> for RelayFault {
    ghost use Rattle.ws_relays.specs.InnerRelays.{IsSilentFault};

    ghost from_gives = { λ _ fault. IsSilentFault fault };

    fn from(fault: LoopFault) -> RelayFault {
        match fault {
            LoopFault::NoMemory => RelayFault::NoMemory,
            LoopFault::WaitFailed | LoopFault::NoOutput => RelayFault::WaitFailed,
        }
    }
}

/// What goes on for a client.
#[derive(Drop)]
pub(crate) enum Pair<A, S, W> {
    /// None is there.
    Free,
    /// A connection to the server is under way for the client of this number.
    Joining(u32, Dial<A, S, W>),
    /// It is tapped.
    Joined(Relay),
}

/// All that is kept of connections. Client `k` stands in the place of that number, and its server in that many places
/// behind the last client's.
#[derive(Drop)]
pub(crate) struct Relays<'a, A, S, W> {
    alloc: Global,
    style: DataStyle,
    /// The address of the server, as it was given.
    server: &'a str,
    ends: Ends<S>,
    pairs: Vec<Pair<A, S, W>>,
    /// So many clients were taken.
    taken: u32,
    /// So many are there.
    there: usize,
    /// No time is told that is earlier.
    time: u64,
    ages: PlaceAges<'a>,
}

impl<'a, A: Copy, S: NonBlocking + Drop, W: Copy> Relays<'a, A, S, W> {
    /// Nobody has come.
    pub(crate) fn new(
        alloc: Global,
        tapping: &Tapping<'a>,
        age: &'a Cell<u64>,
    ) -> Result<Relays<'a, A, S, W>, NoMemory>
        ensures nobody { IfOk result (λ made. AreRelays S.did tapping.now made no_parts) }
        ensures taken { IfOk result (λ made. made.taken ≡ 0) }
    {
        let len = tapping.at_once;
        let Some(places) = len.checked_mul(2) else {
            return Err(NoMemory);
        };
        let ages = PlaceAges::new(alloc, len, age)?;
        let mut ends = Ends::new(alloc, places)?;
        let mut pairs = Vec::new(alloc);
        let mut next = 0;
        while next < len {
            pairs.push(Pair::Free)?;
            ends.keep(len + next);
            next += 1;
        }
        Ok(Relays {
            alloc,
            style: tapping.style,
            server: tapping.server,
            ends,
            pairs,
            taken: 0,
            there: 0,
            time: 0,
            ages,
        })
    }

    /// Takes clients, joins each to the server, passes on what both ends send and tells it, until a connection has
    /// ended, or no client can be taken.
    pub(crate) fn next<
        N: Network<Address = A, Stream = S, Miss = W>,
        L: Listener<Client = S, Miss = W>,
        P: Poller,
        O: Write,
    >(
        &mut self,
        network: &mut N,
        listener: &mut L,
        poller: &mut P,
        output: &mut Watched<O>,
        room: &mut [u8],
    ) -> Result<RelayEvent, RelayFault>
        requires room { 0 < length room.old }
        requires works { has_failed output.old ≡ false }
        requires standing { AreStanding S.did self.old }
        ensures goes { MatchResult result
            (λ event. RelayOn S.did L.did N.did listener.old listener.new network.old network.new self.old self.new
            (watched O.contents output.old output.new) (Some event))
            (RelaysStop S.did L.did N.did listener.old network.old self.old
            (watched O.contents output.old output.new)) }
    {
        let mut left = u64::MAX;
        while left > 0 {
            left -= 1;
            let event = self.step(network, listener, poller, output, room)?;
            if let Some(event) = event {
                return Ok(event);
            }
        }
        Err(RelayFault::WaitFailed)
    }

    /// Waits until something has happened among the ends, and sees to it. Answers what has happened among the
    /// connections, if something has.
    fn step<
        N: Network<Address = A, Stream = S, Miss = W>,
        L: Listener<Client = S, Miss = W>,
        P: Poller,
        O: Write,
    >(
        &mut self,
        network: &mut N,
        listener: &mut L,
        poller: &mut P,
        output: &mut Watched<O>,
        room: &mut [u8],
    ) -> Result<Option<RelayEvent>, RelayFault>
        requires room { 0 < length room.old }
        requires works { has_failed output.old ≡ false }
        requires standing { AreStanding S.did self.old }
        ensures goes { MatchResult result
            (RelayOn S.did L.did N.did listener.old listener.new network.old network.new self.old self.new
            (watched O.contents output.old output.new))
            (StopsTelling (watched O.contents output.old output.new)) }
    {
        let came = self.ends.next(listener, poller, room)?;
        self.time = self.time.max(poller.now());
        self.see_to(network, came, output)
    }

    /// Sees to what has happened among the ends. Answers what has happened among the connections, if something has.
    fn see_to<N: Network<Address = A, Stream = S, Miss = W>, O: Write>(
        &mut self,
        network: &mut N,
        came: EndEvent<S, W>,
        output: &mut Watched<O>,
    ) -> Result<Option<RelayEvent>, RelayFault>
        requires works { has_failed output.old ≡ false }
        requires stood { OfSome (StoodUntil S.did self.old came) }
        ensures sees { MatchResult result
            (SeesToEnds S.did N.did (StoodUntil S.did self.old came) came network.old network.new self.old self.new
            (watched O.contents output.old output.new))
            (StopsTelling (watched O.contents output.old output.new)) }
    {
        match came {
            EndEvent::Happened(place, happened) => self.go_on(place, happened, output),
            EndEvent::Stirred(place) => {
                let event = self.look_after(network, place)?;
                Ok(event)
            }
            EndEvent::Client(at, stream) => self.receive(network, at, stream),
            EndEvent::Full(_) => Ok(Some(self.shortage())),
        }
    }

    /// What is told where no client can be taken.
    fn shortage(&self) -> RelayEvent
        ensures { result ≡ shortage_told self.now.there }
    {
        if self.there == 0 {
            RelayEvent::Deaf
        } else {
            RelayEvent::Full
        }
    }

    /// A client has come, for this place: a connection to the server is begun.
    fn receive<N: Network<Address = A, Stream = S, Miss = W>>(
        &mut self,
        network: &mut N,
        at: usize,
        client: S,
    ) -> Result<Option<RelayEvent>, RelayFault>
        requires stood { OfSome (StoodUntil S.did self.old (came.Client at client)) }
        ensures stands { IfOk result (StandByDeeds S.did N.did (StoodUntil S.did self.old (came.Client at client))
            network.old network.new self.new) }
        ensures taken { IfOk result (λ event. self.new.taken ≡ self.old.taken + 1) }
        ensures quiet { IfOk result IsNoShortage }
        ensures silent { IfErr result IsSilentFault }
    {
        let Some(number) = self.taken.checked_add(1) else {
            return Err(RelayFault::WaitFailed);
        };
        self.admit(at, client, number);
        let event = self.join(network, at, number)?;
        Ok(event)
    }

    /// The client of this number comes into this place.
    fn admit(&mut self, at: usize, client: S, number: u32)
        requires stood { OfSome (StoodUntil S.did self.old (came.Client at client)) }
        requires number { number ≡ self.old.taken + 1 }
        ensures comes { (tapping : _) (all : _) → StoodUntil S.did self.old (came.Client at client) tapping all →
            ComesIn S.did self.new at number tapping all }
        ensures taken { self.new.taken ≡ number }
    {
        self.ends.put(at, client, self.time);
        self.ages.begin(at, self.time);
        self.taken = number;
        self.there = self.there.saturating_add(1);
    }

    /// A connection to the server is begun for the client of this number, who has come for this place.
    fn join<N: Network<Address = A, Stream = S, Miss = W>>(
        &mut self,
        network: &mut N,
        at: usize,
        number: u32,
    ) -> Result<Option<RelayEvent>, NoMemory>
        requires stood { OfSome (ComesIn S.did self.old at number) }
        ensures stands { IfOk result (StandByDeeds S.did N.did (ComesIn S.did self.old at number) network.old
            network.new self.new) }
        ensures taken { self.new.taken ≡ self.old.taken }
        ensures quiet { IfOk result IsNoShortage }
    {
        match network.look_up(self.alloc, self.server) {
            Ok(addresses) => {
                let place = self.pairs.len() + at;
                let dialled = begin_dial(network, place, addresses, UNBOUND, self.time);
                self.settle(at, number, dialled)
            }
            Err(_) => Ok(Some(self.end(at, number, RelayEnd::NoConnection))),
        }
    }

    /// The connection that is under way for this place is asked for.
    fn look_after<N: Network<Address = A, Stream = S, Miss = W>>(
        &mut self,
        network: &mut N,
        place: usize,
    ) -> Result<Option<RelayEvent>, NoMemory>
        requires stood { OfSome (StoodUntil S.did self.old (came.Stirred place)) }
        ensures stands { IfOk result (StandByDeeds S.did N.did (StoodUntil S.did self.old (came.Stirred place))
            network.old network.new self.new) }
        ensures taken { self.new.taken ≡ self.old.taken }
        ensures quiet { IfOk result IsNoShortage }
    {
        let (at, _) = end_at(self.pairs.len(), place);
        match pair_of(&mut self.pairs, at) {
            Pair::Joining(number, dial) => {
                let dialled = ask(network, place, dial, self.time);
                self.settle(at, number, dialled)
            }
            Pair::Free | Pair::Joined(_) => Ok(None),
        }
    }

    /// What has come of a connection to the server, for the client of this number.
    fn settle(
        &mut self,
        at: usize,
        number: u32,
        dialled: Dialled<A, S, W>,
    ) -> Result<Option<RelayEvent>, NoMemory>
        requires stood { OfSome (SettlesAt S.did self.old at number dialled) }
        ensures stands { IfOk result (λ event. StandsSo S.did (SettlesAt S.did self.old at number dialled) self.new
            event) }
        ensures taken { self.new.taken ≡ self.old.taken }
        ensures quiet { IfOk result IsNoShortage }
    {
        match dialled {
            Dialled::Made(server) => {
                self.tap(at, number, server)?;
                Ok(None)
            }
            Dialled::Waits(dial) => {
                self.wait_for(at, number, dial);
                Ok(None)
            }
            Dialled::Missed(_) => Ok(Some(self.end(at, number, RelayEnd::NoConnection))),
        }
    }

    /// The server has taken a connection for the client of this number, which is tapped from now on.
    fn tap(&mut self, at: usize, number: u32, server: S) -> Result<(), NoMemory>
        requires stood { OfSome (SettlesAt S.did self.old at number (dialled.Made server)) }
        ensures stands { IfOk result (λ done. StandsSo S.did (SettlesAt S.did self.old at number (dialled.Made server))
            self.new None) }
        ensures taken { self.new.taken ≡ self.old.taken }
    {
        let place = self.pairs.len() + at;
        self.ends.put(place, server, self.time);
        let tapped = Tapped {
            number,
            style: self.style,
        };
        let relay = Relay::new(self.alloc, tapped)?;
        self.ask_both(at, relay)
    }

    /// A connection to the server is under way for the client of this number.
    fn wait_for(&mut self, at: usize, number: u32, dial: Dial<A, S, W>)
        requires stood { OfSome (SettlesAt S.did self.old at number (dialled.Waits dial)) }
        ensures stands { StandsSo S.did (SettlesAt S.did self.old at number (dialled.Waits dial)) self.new None }
        ensures taken { self.new.taken ≡ self.old.taken }
    {
        let place = self.pairs.len() + at;
        self.ends.await_connection(place);
        self.pairs[at] = Pair::Joining(number, dial);
    }

    /// Something happened at the end in this place.
    fn go_on<O: Write>(
        &mut self,
        place: usize,
        happened: Happened,
        output: &mut Watched<O>,
    ) -> Result<Option<RelayEvent>, RelayFault>
        requires works { has_failed output.old ≡ false }
        requires stood { OfSome (StoodUntil S.did self.old (came.Happened place happened)) }
        ensures goes { MatchResult result
            (StandsTelling S.did (StoodUntil S.did self.old (came.Happened place happened)) self.new
            (watched O.contents output.old output.new))
            (StopsTelling (watched O.contents output.old output.new)) }
        ensures taken { self.new.taken ≡ self.old.taken }
        ensures quiet { IfOk result IsNoShortage }
    {
        let (at, role) = end_at(self.pairs.len(), place);
        self.ages.tell(at, self.time);
        match pair_of(&mut self.pairs, at) {
            Pair::Joined(relay) => self.pass_on(at, role, relay, happened, output),
            Pair::Free | Pair::Joining(..) => Ok(None),
        }
    }

    /// This happened at an end of a tapped connection, which is told.
    fn pass_on<O: Write>(
        &mut self,
        at: usize,
        role: Role,
        relay: Relay,
        happened: Happened,
        output: &mut Watched<O>,
    ) -> Result<Option<RelayEvent>, RelayFault>
        requires works { has_failed output.old ≡ false }
        requires stood { OfSome (PassesIn S.did self.old at role relay happened) }
        ensures goes { MatchResult result
            (StandsTelling S.did (PassesIn S.did self.old at role relay happened) self.new
            (watched O.contents output.old output.new))
            (StopsTelling (watched O.contents output.old output.new)) }
        ensures taken { self.new.taken ≡ self.old.taken }
        ensures quiet { IfOk result IsNoShortage }
    {
        let mut relay = relay;
        let fate = relay.happened(self.alloc, role, happened, output)?;
        match fate {
            Fate::Over(end) => {
                let number = relay.number;
                Ok(Some(self.end(at, number, RelayEnd::Tapped(end))))
            }
            Fate::On => {
                self.ask_both(at, relay)?;
                Ok(None)
            }
        }
    }

    /// Asks of both ends of a tapped connection what is to be asked of them now, if that has changed.
    fn ask_both(&mut self, at: usize, relay: Relay) -> Result<(), NoMemory>
        requires stood { OfSome (IsTappedIn S.did self.old at relay) }
        ensures stands { IfOk result (λ done. StandsSo S.did (IsTappedIn S.did self.old at relay) self.new None) }
        ensures taken { self.new.taken ≡ self.old.taken }
    {
        let mut relay = relay;
        let place = self.pairs.len() + at;
        ask_end(self.alloc, &mut self.ends, at, &mut relay, Role::Client)?;
        ask_end(self.alloc, &mut self.ends, place, &mut relay, Role::Server)?;
        self.pairs[at] = Pair::Joined(relay);
        Ok(())
    }

    /// The connection of this number, whose client stands in this place, has ended so: both streams are closed, and the
    /// place is free.
    fn end(&mut self, at: usize, number: u32, end: RelayEnd) -> RelayEvent
        requires stood { OfSome (RelayEndsIn S.did self.old at number end) }
        ensures ended { result ≡ event.Ended number end }
        ensures stands { StandsSo S.did (RelayEndsIn S.did self.old at number end) self.new
            (Some (event.Ended number end)) }
        ensures taken { self.new.taken ≡ self.old.taken }
    {
        let place = self.pairs.len() + at;
        self.ages.tell(at, self.time);
        self.ends.close(place);
        self.ends.free(at);
        self.pairs[at] = Pair::Free;
        self.there = self.there.saturating_sub(1);
        RelayEvent::Ended(number, end)
    }
}

/// What goes on for this client, for whom nothing does then.
fn pair_of<A: Copy, S: Drop, W: Copy>(pairs: &mut Vec<Pair<A, S, W>>, at: usize) -> Pair<A, S, W>
    requires { at < length pairs.old.items }
    ensures taken { slice_get pairs.old.items at ≡ Some result }
    ensures free { pairs.new.items ≡ slice_set pairs.old.items at pair.Free }
{
    mem::replace(&mut pairs[at], Pair::Free)
}

/// Which end stands in this place, of which client, where there may be so many.
fn end_at(len: usize, place: usize) -> (usize, Role)
    requires { place < len + len }
    ensures end { result ≡ end_at len place }
{
    if place < len {
        (place, Role::Client)
    } else {
        (place - len, Role::Server)
    }
}

/// Asks of an end of a tapped connection, in this place, what is to be asked of it now, if that has changed.
fn ask_end<S: NonBlocking + Drop>(
    alloc: Global,
    ends: &mut Ends<S>,
    place: usize,
    relay: &mut Relay,
    role: Role,
) -> Result<(), NoMemory>
    requires there { HasEndAt ends.old place true }
    ensures asks { OnOk result (AsksEnd S.did ends.old ends.new place role relay.old) }
    ensures tap { relay.new.tap ≡ relay.old.tap }
    ensures number { relay.new.number ≡ relay.old.number }
{
    if let Some(ask) = relay.ask(alloc, role)? {
        ends.ask(place, ask)?;
    }
    Ok(())
}
