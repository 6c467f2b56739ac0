//! The clients of a listener, in one loop. Of one whose request was decided, or to which all was played, the stream is
//! held beside its place, until it is said what is next for it.

ghost use Rattle.std.specs.Prelude.{◌≡◌, ◌<◌, ◌≤◌, ◌+◌, ◌⊎◌, ℕ, [], true, false, None, Some, IfOk, IfSome, OnOk};
ghost use Rattle.std.specs.Prelude.{length, map, slice_get, slice_set};
ghost use Rattle.ws_machines.specs.Machines.{HasNext};
ghost use Rattle.ws_loops.specs.Listeners.{HasHeardFor};
ghost use Rattle.ws_loops.specs.Places.{IsOverAt};
ghost use Rattle.ws_loops.specs.declared.places.Place.TheVariants.{Empty, Open};
ghost use Rattle.ws_upgrade.specs.Protocols.{AreOffers};
ghost use Rattle.ws_clients.specs.Talks.{IsTalkOf, wants_talk};
ghost use Rattle.ws_clients.specs.Clients.{AllGoOn, AreClientsSound, AreNoneHeld, AreSeenOut, BusyStay, EndsAtOnce};
ghost use Rattle.ws_clients.specs.Clients.{EndsSlot, HasBecome, HasCome, IsBusyOf, IsServedOn, RestBut, ServesOn};
ghost use Rattle.ws_clients.specs.Clients.{TellsPlace, is_busy};
ghost use Rattle.ws_clients.specs.Clients.{HasGoneOnTo, HoldsBehind, IsAwaitedAt, IsHeldAt, IsLeftAt, IsLimitAt};
ghost use Rattle.ws_clients.specs.Clients.{TellsPlayed};
ghost use Rattle.ws_clients.specs.Clients.{IsNewlyHeld, IsOfPlace, IsOverAs, IsPlaying, IsTakenOut, KeepsPlays};
ghost use Rattle.ws_clients.specs.Clients.{PlaysOn, StandsWhere, StayHeld, WasNoneHeld, clients_value, held_streams};
ghost use Rattle.ws_clients.specs.Clients.{IsOfPlayer, LingersAt, PlayNoMore, PlayNothing, PlayedOnly, PlaysAt};
ghost use Rattle.ws_clients.specs.Numbers.{AreNumbers, AreNumbersBut, AreNumbersSound, AreUnnumbered, IsNoMore};
ghost use Rattle.ws_clients.specs.Numbers.{IsNumberedAt, IsOfNumber, TakesClients, TakesIn, client_number};
ghost use Rattle.ws_clients.specs.Numbers.{numbers_behind, numbers_left, stream_at};

use crate::leaving::Leaver;
use crate::talking::Talk;
use std::alloc::Global;
use std::marker::Model;
use std::mem;
use ws_base::NoMemory;
use ws_handshake::{Admission, AdmitMachine};
use ws_loops::{
    Arrival, Ending, LineSink, Listener, Loop, NonBlocking, Pace, Place, Poller, Slot, WaitFailed,
    Watch,
};
use ws_machines::Machine;
use ws_networks::Limits;

/// A client that is left is read for so many milliseconds.
const LEAVING: u64 = 1800;

/// And all of them are waited for so many, once no client is taken any more.
const ENDING: u64 = 2000;

/// A client that waits is not waited for.
const AWAITED: Watch = Watch {
    until: None,
    stirred: false,
};

/// What has happened among clients. Each stays where it is until it is left.
#[derive(Drop)]
pub enum Event<E, W> {
    /// This came of the request of the client in this place.
    Decided(usize, Admission),
    /// What was played to the client in this place has ended, and this came of it.
    Played(usize, E),
    /// Memory ran out for the client in this place, which is gone. It had this number, if it wasn't left before.
    Gone(usize, Option<u64>),
    /// The time has come until which one was waited for.
    TooLate,
    /// No client can be taken for now, for this reason, while some are there. It is told each time that the listener
    /// says so; it is asked again once something has ended.
    Full(W),
    /// Nobody is there, and no client can be taken any more, for this reason.
    Deaf(W),
}

/// A stream that waits for what is next for its client.
#[derive(Drop)]
pub(crate) struct Held<S> {
    stream: S,
    /// By then the connection would have ended.
    until: Option<u64>,
    /// Since then it waits.
    since: u64,
}

/// All that is kept of clients.
#[derive(Drop)]
pub(crate) struct Inside<'a, M: Machine + Drop, S> {
    pub(crate) alloc: Global,
    pub(crate) known: &'a [&'a [u8]],
    pub(crate) limits: Limits,
    pub(crate) all: Loop<Talk<'a, M>, S>,
    pub(crate) held: Vec<Option<Held<S>>>,
    /// So many have come.
    pub(crate) taken: u64,
    /// The number of each client that is there and isn't left, beside its place.
    pub(crate) numbers: Vec<Option<u64>>,
    /// So many are there.
    pub(crate) there: usize,
    /// The loop has stopped by a fault: nothing is known of what goes on in it.
    pub(crate) is_broken: bool,
}

/// The clients of a listener, of which so many can be there at a time. They are numbered from 1, in the order in which
/// they come. Contracts see the subprotocols that are known, the limits of each connection, what stands in each place
/// of their loop, the streams that are held and the numbers that stand beside them, and how many have come.
#[derive(Drop)]
pub struct Clients<'a, M: Machine + Drop, S: NonBlocking> {
    inside: Inside<'a, M, S>,
}

impl<'a, M: Machine + Drop, S: NonBlocking> Model for Clients<'a, M, S> {
    ghost use Rattle.std.specs.Prelude.{map};
    ghost use Rattle.ws_clients.specs.Clients.{AreClientsSound, ClientsValue, clients_value};
    ghost use Rattle.ws_clients.specs.Numbers.{AreNumbersSound};

    ghost Value = { ClientsValue M S };

    ghost view = { λ x. clients_value (map (λ name. name.now) x.inside.known.now) x.inside.limits x.inside.all
        x.inside.held.items x.inside.taken x.inside.numbers.items };

    ghost invariant = { λ x. AreClientsSound M.agrees S.did (map (λ name. name.now) x.inside.known.now) x.inside.all
        x.inside.held.items x.inside.is_broken
        × AreNumbersSound x.inside.all.places x.inside.taken x.inside.numbers.items x.inside.is_broken };
}

impl<'a, M: Machine + Drop, S: NonBlocking + Drop> Clients<'a, M, S>
where
    M::End: Drop,
{
    /// Nobody has come. These subprotocols are known, these are the limits of each connection, and so many clients can
    /// be there at a time.
    pub fn new(
        alloc: Global,
        known: &'a [&'a [u8]],
        limits: Limits,
        len: usize,
    ) -> Result<Clients<'a, M, S>, NoMemory>
        requires { AreOffers (map (λ name. name.now) known.now) }
        ensures known { IfOk result (λ made. made.known ≡ map (λ name. name.now) known.now) }
        ensures limits { IfOk result (λ made. made.limits ≡ limits) }
        ensures taken { IfOk result (λ made. made.taken ≡ 0) }
        ensures len { IfOk result (λ made. length made.numbers ≡ len) }
        ensures numbers { IfOk result (λ made. AreUnnumbered made.numbers) }
        ensures plays { IfOk result (λ made. PlayNothing made.places) }
    {
        let inside = new_inside(alloc, known, limits, len)?;
        Ok(Clients { inside })
    }

    /// How many have come.
    pub fn taken(&self) -> u64
        ensures { result ≡ self.now.taken }
    {
        self.inside.taken
    }

    /// The number of the client in this place, if one is there and isn't left.
    pub fn number(&self, at: usize) -> Option<u64>
        ensures { result ≡ client_number self.now.numbers at }
    {
        number_of(self.inside.numbers.as_slice(), at)
    }

    /// Serves all clients, and takes those that come, until the request of one is decided, what was played to one has
    /// ended, or this time has come.
    pub fn next<L: Listener<Client = S>, P: Poller, K: LineSink>(
        &mut self,
        listener: &mut L,
        poller: &mut P,
        sink: &mut K,
        until: Option<u64>,
        room: &mut [u8],
    ) -> Result<Event<M::End, L::Miss>, K::Fault>
        requires room { 0 < length room.old }
        ensures happened { IfOk result (λ event.
            HasBecome S.did L.did (P.time poller.new) until listener.new self.new event) }
        ensures stands { IfOk result (λ event. StandsWhere self.new.places event) }
        ensures holds { IfOk result (λ event. HoldsBehind S.did self.new.known self.new.held event) }
        ensures fresh { IfOk result (λ event. IsNewlyHeld self.old.held event) }
        ensures held { OnOk result (StayHeld self.old.held self.new.held) }
        ensures plays { IfOk result (λ event. PlaysOn K.heard M.agrees S.did M.gives self.old.places self.new.places
            sink.old sink.new (Some event)) }
        ensures played { IfOk result (TellsPlayed S.did M.gives self.new.held) }
        ensures only { IfOk result (λ event. PlayedOnly self.old.places self.new.places (Some event)) }
        ensures goes_on { IfOk result (λ event. ServesOn M.agrees M.wants S.did (P.time poller.old)
            (P.time poller.new) self.old.places self.new.places (Some event)) }
        ensures takes { IfOk result (λ event. TakesIn L.did listener.old listener.new self.old self.new event) }
        ensures apart { IfOk result (λ event. AreNumbers self.new.taken self.new.numbers) }
        ensures known { OnOk result (self.new.known ≡ self.old.known) }
        ensures limits { OnOk result (self.new.limits ≡ self.old.limits) }
    {
        next_inside(&mut self.inside, listener, poller, sink, until, room)
    }

    /// Plays this to the client in this place, if one waits there. Answers whether one does.
    pub fn play(&mut self, at: usize, machine: M, now: u64) -> bool
        requires untold { M.agrees machine machine [] }
        requires goes_on { HasNext (M.wants machine) }
        ensures plays { result ≡ true → (stream : S) × IsHeldAt self.old.held at stream
            × IsPlaying M.agrees S.did machine stream [] self.new.places at }
        ensures begins { (stream : S) → IsHeldAt self.old.held at stream → result ≡ true }
        ensures only { (other : ℕ) → PlaysAt self.new.places other → (other ≡ at) ⊎ PlaysAt self.old.places other }
        ensures limit { result ≡ true → IsLimitAt self.old.limits.limit self.new.places at }
        ensures held { self.new.held ≡ slice_set self.old.held at None }
        ensures others { KeepsPlays M.agrees S.did self.old.places self.new.places }
        ensures taken { self.new.taken ≡ self.old.taken }
        ensures numbers { self.new.numbers ≡ self.old.numbers }
        ensures known { self.new.known ≡ self.old.known }
        ensures limits { self.new.limits ≡ self.old.limits }
    {
        play_inside(&mut self.inside, at, machine, now)
    }

    /// Leaves the client in this place, if one waits there: its stream is ended from this side, and what it still sends
    /// is read and dropped for a while. It has no number any more.
    pub fn leave(&mut self, at: usize, now: u64)
        ensures leaves { (stream : S) → IsHeldAt self.old.held at stream →
            IsLeftAt S.did stream self.new.places at }
        ensures lingers { (stream : S) → IsHeldAt self.old.held at stream → LingersAt now self.new.places at }
        ensures only { PlayNoMore self.old.places self.new.places }
        ensures held { self.new.held ≡ slice_set self.old.held at None }
        ensures others { KeepsPlays M.agrees S.did self.old.places self.new.places }
        ensures taken { self.new.taken ≡ self.old.taken }
        ensures numbers { self.new.numbers ≡ numbers_left (stream_at self.old.held at) at self.old.numbers }
        ensures known { self.new.known ≡ self.old.known }
        ensures limits { self.new.limits ≡ self.old.limits }
    {
        leave_inside(&mut self.inside, at, now);
    }

    /// No client is taken any more, and those who wait are dropped. What is played to others goes on to its end, and
    /// who is left is read to the end, for two seconds at most.
    pub fn end<P: Poller, K: LineSink>(
        &mut self,
        poller: &mut P,
        sink: &mut K,
        room: &mut [u8],
    ) -> Result<(), K::Fault>
        requires room { 0 < length room.old }
        ensures ends { IfOk result (λ done. AreSeenOut M.agrees M.wants S.did (P.time poller.old) (P.time poller.new)
            self.old.places) }
        ensures known { self.new.known ≡ self.old.known }
        ensures limits { self.new.limits ≡ self.old.limits }
        ensures taken { self.new.taken ≡ self.old.taken }
    {
        end_inside(&mut self.inside, poller, sink, room)
    }
}

/// All that is kept where nobody has come.
fn new_inside<'a, M: Machine + Drop, S: NonBlocking + Drop>(
    alloc: Global,
    known: &'a [&'a [u8]],
    limits: Limits,
    len: usize,
) -> Result<Inside<'a, M, S>, NoMemory>
    requires { AreOffers (map (λ name. name.now) known.now) }
    ensures known { IfOk result (λ made. map (λ name. name.now) made.known.now ≡ map (λ name. name.now) known.now) }
    ensures limits { IfOk result (λ made. made.limits ≡ limits) }
    ensures whole { IfOk result (λ made. AreClientsSound M.agrees S.did (map (λ name. name.now) made.known.now)
        made.all made.held.items made.is_broken) }
    ensures taken { IfOk result (λ made. made.taken ≡ 0) }
    ensures len { IfOk result (λ made. length made.numbers.items ≡ len) }
    ensures numbers { IfOk result (λ made. AreUnnumbered made.numbers.items) }
    ensures plays { IfOk result (λ made. PlayNothing made.all.places) }
    ensures counted { IfOk result (λ made. AreNumbersSound made.all.places made.taken made.numbers.items
        made.is_broken) }
{
    let all = Loop::new(alloc, len)?;
    let held = none_held(alloc, len)?;
    let numbers = none_numbered(alloc, len)?;
    Ok(Inside {
        alloc,
        known,
        limits,
        all,
        held,
        taken: 0,
        numbers,
        there: 0,
        is_broken: false,
    })
}

/// So many places beside which nothing is held.
fn none_held<S: Drop>(alloc: Global, len: usize) -> Result<Vec<Option<Held<S>>>, NoMemory>
    ensures { IfOk result (λ made. AreNoneHeld len made.items) }
{
    let mut held = Vec::new(alloc);
    while held.len() < len {
        held.push(None)?;
    }
    Ok(held)
}

/// So many places beside which no number stands.
fn none_numbered(alloc: Global, len: usize) -> Result<Vec<Option<u64>>, NoMemory>
    ensures len { IfOk result (λ made. length made.items ≡ len) }
    ensures none { IfOk result (λ made. AreUnnumbered made.items) }
{
    let mut numbers = Vec::new(alloc);
    while numbers.len() < len {
        numbers.push(None)?;
    }
    Ok(numbers)
}

/// Serves all clients, and takes those that come, until something has happened.
fn next_inside<M: Machine + Drop, L: Listener, P: Poller, K: LineSink>(
    inside: &mut Inside<'_, M, L::Client>,
    listener: &mut L,
    poller: &mut P,
    sink: &mut K,
    until: Option<u64>,
    room: &mut [u8],
) -> Result<Event<M::End, L::Miss>, K::Fault>
    requires room { 0 < length room.old }
    requires whole { AreClientsSound M.agrees L.Client.did (map (λ name. name.now) inside.old.known.now)
        inside.old.all inside.old.held.items inside.old.is_broken }
    requires counted { AreNumbersSound inside.old.all.places inside.old.taken inside.old.numbers.items
        inside.old.is_broken }
    ensures happened { IfOk result (λ event. HasBecome L.Client.did L.did (P.time poller.new) until listener.new
        (clients_value (map (λ name. name.now) inside.new.known.now) inside.new.limits inside.new.all
        inside.new.held.items inside.new.taken inside.new.numbers.items) event) }
    ensures stands { IfOk result (λ event. StandsWhere inside.new.all.places event) }
    ensures holds { IfOk result (λ event. HoldsBehind L.Client.did (map (λ name. name.now) inside.new.known.now)
        (held_streams inside.new.held.items) event) }
    ensures fresh { IfOk result (λ event. IsNewlyHeld (held_streams inside.old.held.items) event) }
    ensures held { OnOk result (StayHeld (held_streams inside.old.held.items) (held_streams inside.new.held.items)) }
    ensures plays { IfOk result (λ event. PlaysOn K.heard M.agrees L.Client.did M.gives inside.old.all.places
        inside.new.all.places sink.old sink.new (Some event)) }
    ensures played { IfOk result (TellsPlayed L.Client.did M.gives (held_streams inside.new.held.items)) }
    ensures only { IfOk result (λ event. PlayedOnly inside.old.all.places inside.new.all.places (Some event)) }
    ensures goes_on { IfOk result (λ event. ServesOn M.agrees M.wants L.Client.did (P.time poller.old)
        (P.time poller.new) inside.old.all.places inside.new.all.places (Some event)) }
    ensures takes { IfOk result (λ event. TakesClients L.did listener.old listener.new inside.old.taken
        inside.old.numbers.items inside.new.taken inside.new.numbers.items (Some event)) }
    ensures known { OnOk result (inside.new.known ≡ inside.old.known) }
    ensures limits { OnOk result (inside.new.limits ≡ inside.old.limits) }
    ensures whole { AreClientsSound M.agrees L.Client.did (map (λ name. name.now) inside.new.known.now)
        inside.new.all inside.new.held.items inside.new.is_broken }
    ensures counted { AreNumbersSound inside.new.all.places inside.new.taken inside.new.numbers.items
        inside.new.is_broken }
{
    let mut left = u64::MAX;
    while left > 0 && !inside.is_broken {
        left -= 1;
        let came = wait_inside(inside, listener, poller, sink, until, room)?;
        if let Some(event) = came {
            return Ok(event);
        }
    }
    Err(K::Fault::from(WaitFailed))
}

/// Serves all clients until something arrives, and sees to that. Answers what has happened, if something has.
fn wait_inside<M: Machine + Drop, L: Listener, P: Poller, K: LineSink>(
    inside: &mut Inside<'_, M, L::Client>,
    listener: &mut L,
    poller: &mut P,
    sink: &mut K,
    until: Option<u64>,
    room: &mut [u8],
) -> Result<Option<Event<M::End, L::Miss>>, K::Fault>
    requires room { 0 < length room.old }
    requires runs { inside.old.is_broken ≡ false }
    requires whole { AreClientsSound M.agrees L.Client.did (map (λ name. name.now) inside.old.known.now)
        inside.old.all inside.old.held.items inside.old.is_broken }
    requires counted { AreNumbersSound inside.old.all.places inside.old.taken inside.old.numbers.items
        inside.old.is_broken }
    ensures happened { IfOk result (λ came. IfSome came (λ event. HasBecome L.Client.did L.did (P.time poller.new) until
        listener.new (clients_value (map (λ name. name.now) inside.new.known.now) inside.new.limits inside.new.all
        inside.new.held.items inside.new.taken inside.new.numbers.items) event)) }
    ensures stands { IfOk result (λ came. IfSome came (λ event. StandsWhere inside.new.all.places event)) }
    ensures holds { IfOk result (λ came. IfSome came (λ event. HoldsBehind L.Client.did
        (map (λ name. name.now) inside.new.known.now) (held_streams inside.new.held.items) event)) }
    ensures fresh { IfOk result (λ came. IfSome came (λ event.
        IsNewlyHeld (held_streams inside.old.held.items) event)) }
    ensures held { OnOk result (StayHeld (held_streams inside.old.held.items) (held_streams inside.new.held.items)) }
    ensures plays { IfOk result (λ came. PlaysOn K.heard M.agrees L.Client.did M.gives inside.old.all.places
        inside.new.all.places sink.old sink.new came) }
    ensures played { IfOk result (λ came. IfSome came (TellsPlayed L.Client.did M.gives
        (held_streams inside.new.held.items))) }
    ensures only { IfOk result (PlayedOnly inside.old.all.places inside.new.all.places) }
    ensures goes_on { IfOk result (ServesOn M.agrees M.wants L.Client.did (P.time poller.old) (P.time poller.new)
        inside.old.all.places inside.new.all.places) }
    ensures later { IfOk result (λ came. P.time poller.old ≤ P.time poller.new) }
    ensures takes { IfOk result (TakesClients L.did listener.old listener.new inside.old.taken
        inside.old.numbers.items inside.new.taken inside.new.numbers.items) }
    ensures known { OnOk result (inside.new.known ≡ inside.old.known) }
    ensures limits { OnOk result (inside.new.limits ≡ inside.old.limits) }
    ensures whole { AreClientsSound M.agrees L.Client.did (map (λ name. name.now) inside.new.known.now)
        inside.new.all inside.new.held.items inside.new.is_broken }
    ensures counted { AreNumbersSound inside.new.all.places inside.new.taken inside.new.numbers.items
        inside.new.is_broken }
{
    let arrival = run_all(inside, listener, poller, sink, until, room)?;
    let now = poller.now();
    match arrival {
        Arrival::Ended(at) => {
            let came = ended_at(inside, at, now)?;
            Ok(came)
        }
        Arrival::Client(at, stream) => {
            receive(inside, at, stream, now)?;
            Ok(None)
        }
        Arrival::Lost(_) => Ok(None),
        Arrival::NotAccepted(why) => Ok(Some(deaf_by(
            inside.there,
            inside.numbers.as_slice(),
            why,
        ))),
        Arrival::TooLate => Ok(Some(Event::TooLate)),
    }
}

/// Serves all clients until something arrives. Behind a fault nothing is known of what goes on with them.
fn run_all<M: Machine + Drop, L: Listener, P: Poller, K: LineSink>(
    inside: &mut Inside<'_, M, L::Client>,
    listener: &mut L,
    poller: &mut P,
    sink: &mut K,
    until: Option<u64>,
    room: &mut [u8],
) -> Result<Arrival<L::Client, L::Miss>, K::Fault>
    requires room { 0 < length room.old }
    requires runs { inside.old.is_broken ≡ false }
    requires whole { AreClientsSound M.agrees L.Client.did (map (λ name. name.now) inside.old.known.now)
        inside.old.all inside.old.held.items inside.old.is_broken }
    requires counted { AreNumbersSound inside.old.all.places inside.old.taken inside.old.numbers.items
        inside.old.is_broken }
    ensures arrived { IfOk result (λ arrival. HasCome (wants_talk M.wants) L.Client.did L.did (P.time poller.new) until
        listener.new inside.new.all arrival) }
    ensures plays { OnOk result (HasGoneOnTo K.heard M.agrees L.Client.did inside.old.all.places inside.new.all.places
        sink.old sink.new) }
    ensures only { OnOk result (PlayNoMore inside.old.all.places inside.new.all.places) }
    ensures goes_on { OnOk result (AllGoOn M.agrees M.wants L.Client.did (P.time poller.old) (P.time poller.new)
        inside.old.all.places inside.new.all.places) }
    ensures later { OnOk result (P.time poller.old ≤ P.time poller.new) }
    ensures asked { IfOk result (λ arrival. HasHeardFor L.did listener.old listener.new inside.new.all arrival) }
    ensures taken { inside.new.taken ≡ inside.old.taken }
    ensures numbers { inside.new.numbers ≡ inside.old.numbers }
    ensures known { inside.new.known ≡ inside.old.known }
    ensures held { inside.new.held.items ≡ inside.old.held.items }
    ensures limits { inside.new.limits ≡ inside.old.limits }
    ensures runs { OnOk result (inside.new.is_broken ≡ inside.old.is_broken) }
    ensures whole { AreClientsSound M.agrees L.Client.did (map (λ name. name.now) inside.new.known.now)
        inside.new.all inside.new.held.items inside.new.is_broken }
    ensures counted { AreNumbersSound inside.new.all.places inside.new.taken inside.new.numbers.items
        inside.new.is_broken }
{
    match inside
        .all
        .run_listening(poller, sink, listener, until, room)
    {
        Ok(arrival) => Ok(arrival),
        Err(why) => {
            inside.is_broken = true;
            Err(why)
        }
    }
}

/// What has happened where no client can be taken, for this reason: nobody is there, where so many are and these are
/// the numbers, or some may be.
fn deaf_by<E, W: Copy>(there: usize, numbers: &[Option<u64>], why: W) -> Event<E, W>
    ensures { IsNoMore numbers.now why result }
{
    if there == 0 && are_unnumbered(numbers) {
        Event::Deaf(why)
    } else {
        Event::Full(why)
    }
}

/// Whether none of these is a number.
fn are_unnumbered(numbers: &[Option<u64>]) -> bool
    ensures { result ≡ true → AreUnnumbered numbers.now }
{
    let mut next = 0;
    while next < numbers.len() {
        if number_of(numbers, next).is_some() {
            return false;
        }
        next += 1;
    }
    true
}

/// The number beside this place, if there is one.
fn number_of(numbers: &[Option<u64>], at: usize) -> Option<u64>
    ensures { result ≡ client_number numbers.now at }
{
    match numbers.get(at) {
        Some(number) => *number,
        None => None,
    }
}

/// The number beside this place, if there is one, which stands there no longer.
fn number_taken(numbers: &mut Vec<Option<u64>>, at: usize) -> Option<u64>
    ensures taken { result ≡ client_number numbers.old.items at }
    ensures numbers { numbers.new.items ≡ slice_set numbers.old.items at None }
{
    if at < numbers.len() {
        mem::replace(&mut numbers[at], None)
    } else {
        None
    }
}

/// A client has come, for a place that is empty: it gets the next number, and its request is to be read. There is none
/// behind the last one that can be counted.
fn receive<M: Machine + Drop, S: NonBlocking + Drop>(
    inside: &mut Inside<'_, M, S>,
    at: usize,
    stream: S,
    now: u64,
) -> Result<(), WaitFailed>
    requires empty { slice_get inside.old.all.places at ≡ Some Empty }
    requires fresh { S.did stream stream [] }
    requires runs { inside.old.is_broken ≡ false }
    requires whole { AreClientsSound M.agrees S.did (map (λ name. name.now) inside.old.known.now)
        inside.old.all inside.old.held.items inside.old.is_broken }
    requires counted { AreNumbersSound inside.old.all.places inside.old.taken inside.old.numbers.items
        inside.old.is_broken }
    ensures others { KeepsPlays M.agrees S.did inside.old.all.places inside.new.all.places }
    ensures only { PlayNoMore inside.old.all.places inside.new.all.places }
    ensures rest { RestBut at inside.old.all.places inside.new.all.places }
    ensures taken { OnOk result (inside.new.taken ≡ inside.old.taken + 1) }
    ensures numbers { OnOk result (inside.new.numbers.items
        ≡ slice_set inside.old.numbers.items at (Some (inside.old.taken + 1))) }
    ensures known { inside.new.known ≡ inside.old.known }
    ensures held { inside.new.held.items ≡ inside.old.held.items }
    ensures limits { inside.new.limits ≡ inside.old.limits }
    ensures runs { inside.new.is_broken ≡ inside.old.is_broken }
    ensures whole { AreClientsSound M.agrees S.did (map (λ name. name.now) inside.new.known.now)
        inside.new.all inside.new.held.items inside.new.is_broken }
    ensures counted { AreNumbersSound inside.new.all.places inside.new.taken inside.new.numbers.items
        inside.new.is_broken }
{
    let Some(number) = inside.taken.checked_add(1) else {
        return Err(WaitFailed);
    };
    let bounds = inside.limits.from(now);
    let slot = Slot {
        machine: Talk::Admits(AdmitMachine::new(inside.alloc, inside.known)),
        stream,
        pace: Pace::begun(now, bounds.limit, bounds.until),
    };
    inside.all.put(at, slot);
    inside.there = inside.there.saturating_add(1);
    inside.taken = number;
    inside.numbers[at] = Some(number);
    Ok(())
}

/// What has come of what went on in this place, which has ended: where the client isn't left, it waits there.
fn ended_at<M: Machine + Drop, S: NonBlocking + Drop, W>(
    inside: &mut Inside<'_, M, S>,
    at: usize,
    now: u64,
) -> Result<Option<Event<M::End, W>>, NoMemory>
    requires over { IsOverAt (wants_talk M.wants) inside.old.all.places at }
    requires runs { inside.old.is_broken ≡ false }
    requires whole { AreClientsSound M.agrees S.did (map (λ name. name.now) inside.old.known.now)
        inside.old.all inside.old.held.items inside.old.is_broken }
    requires counted { AreNumbersSound inside.old.all.places inside.old.taken inside.old.numbers.items
        inside.old.is_broken }
    ensures came { IfOk result (λ came. IfSome came (λ event.
        IsOfPlace S.did at (map (λ name. name.now) inside.old.known.now) event)) }
    ensures stands { IfOk result (λ came. IfSome came (λ event. StandsWhere inside.new.all.places event)) }
    ensures holds { IfOk result (λ came. IfSome came (λ event. HoldsBehind S.did
        (map (λ name. name.now) inside.old.known.now) (held_streams inside.new.held.items) event)) }
    ensures fresh { IfOk result (λ came. IfSome came (λ event.
        IsNewlyHeld (held_streams inside.old.held.items) event)) }
    ensures held { OnOk result (StayHeld (held_streams inside.old.held.items) (held_streams inside.new.held.items)) }
    ensures plays { IfOk result (λ came. EndsAtOnce M.agrees S.did M.gives inside.old.all.places inside.new.all.places
        came) }
    ensures played { IfOk result (λ came. IfSome came (TellsPlayed S.did M.gives
        (held_streams inside.new.held.items))) }
    ensures only { IfOk result (PlayedOnly inside.old.all.places inside.new.all.places) }
    ensures rest { OnOk result (RestBut at inside.old.all.places inside.new.all.places) }
    ensures tells { IfOk result (λ came. (was : _) → slice_get inside.old.all.places at ≡ Some was → IsServedOn was
        → TellsPlace at was came) }
    ensures taken { inside.new.taken ≡ inside.old.taken }
    ensures of { IfOk result (IsOfNumber inside.old.numbers.items) }
    ensures behind { IfOk result (λ came. inside.new.numbers.items ≡ numbers_behind came inside.old.numbers.items) }
    ensures known { inside.new.known ≡ inside.old.known }
    ensures limits { inside.new.limits ≡ inside.old.limits }
    ensures runs { inside.new.is_broken ≡ inside.old.is_broken }
    ensures whole { AreClientsSound M.agrees S.did (map (λ name. name.now) inside.new.known.now)
        inside.new.all inside.new.held.items inside.new.is_broken }
    ensures counted { AreNumbersSound inside.new.all.places inside.new.taken inside.new.numbers.items
        inside.new.is_broken }
{
    match inside.all.take(at) {
        Place::Open(slot) => {
            let came = end_slot(inside, at, slot, now)?;
            Ok(came)
        }
        Place::Pending(_) => {
            inside.all.watch(at, AWAITED);
            Ok(None)
        }
        Place::Broken => {
            inside.there = inside.there.saturating_sub(1);
            let number = number_taken(&mut inside.numbers, at);
            Ok(Some(Event::Gone(at, number)))
        }
        Place::Empty => Ok(None),
    }
}

/// What has come of what went on in this slot, which stood in this place, and is done.
fn end_slot<M: Machine + Drop, S: NonBlocking + Drop, W>(
    inside: &mut Inside<'_, M, S>,
    at: usize,
    slot: Slot<Talk<'_, M>, S>,
    now: u64,
) -> Result<Option<Event<M::End, W>>, NoMemory>
    requires over { (wants_talk M.wants slot.machine).done ≡ true }
    requires empty { slice_get inside.old.all.places at ≡ Some Empty }
    requires talk { IsTalkOf M.agrees S.did (map (λ name. name.now) inside.old.known.now) slot }
    requires runs { inside.old.is_broken ≡ false }
    requires whole { AreClientsSound M.agrees S.did (map (λ name. name.now) inside.old.known.now)
        inside.old.all inside.old.held.items inside.old.is_broken }
    requires counted { AreNumbersSound (slice_set inside.old.all.places at (Open slot)) inside.old.taken
        inside.old.numbers.items inside.old.is_broken }
    ensures came { IfOk result (λ came. IfSome came (λ event.
        IsOfPlace S.did at (map (λ name. name.now) inside.old.known.now) event)) }
    ensures stands { IfOk result (λ came. IfSome came (λ event. StandsWhere inside.new.all.places event)) }
    ensures holds { IfOk result (λ came. IfSome came (λ event. HoldsBehind S.did
        (map (λ name. name.now) inside.old.known.now) (held_streams inside.new.held.items) event)) }
    ensures fresh { IfOk result (λ came. IfSome came (λ event.
        IsNewlyHeld (held_streams inside.old.held.items) event)) }
    ensures held { OnOk result (StayHeld (held_streams inside.old.held.items) (held_streams inside.new.held.items)) }
    ensures plays { IfOk result (λ came. EndsSlot M.agrees S.did M.gives at slot.entry came) }
    ensures others { KeepsPlays M.agrees S.did inside.old.all.places inside.new.all.places }
    ensures played { IfOk result (λ came. IfSome came (TellsPlayed S.did M.gives
        (held_streams inside.new.held.items))) }
    ensures of { IfOk result (IsOfNumber inside.old.numbers.items) }
    ensures behind { IfOk result (λ came. inside.new.numbers.items ≡ numbers_behind came inside.old.numbers.items) }
    ensures only { PlayNoMore inside.old.all.places inside.new.all.places }
    ensures rest { OnOk result (RestBut at inside.old.all.places inside.new.all.places) }
    ensures tells { IfOk result (λ came. IsServedOn (Open slot.entry) → TellsPlace at (Open slot.entry) came) }
    ensures player { IfOk result (λ came. IfSome came (IsOfPlayer slot.entry.machine)) }
    ensures taken { inside.new.taken ≡ inside.old.taken }
    ensures numbers { inside.new.numbers ≡ inside.old.numbers }
    ensures known { inside.new.known ≡ inside.old.known }
    ensures limits { inside.new.limits ≡ inside.old.limits }
    ensures runs { inside.new.is_broken ≡ inside.old.is_broken }
    ensures whole { AreClientsSound M.agrees S.did (map (λ name. name.now) inside.new.known.now)
        inside.new.all inside.new.held.items inside.new.is_broken }
    ensures counted { AreNumbersSound inside.new.all.places inside.new.taken inside.new.numbers.items
        inside.new.is_broken }
{
    let Slot {
        machine,
        stream,
        pace,
    } = slot;
    match machine {
        Talk::Admits(machine) => {
            hold(inside, at, stream, pace.deadline, now);
            let admission = machine.into_end()?;
            Ok(Some(Event::Decided(at, admission)))
        }
        Talk::Plays(machine) => {
            hold(inside, at, stream, pace.deadline, now);
            let end = machine.into_end()?;
            Ok(Some(Event::Played(at, end)))
        }
        Talk::Leaves(_) => {
            inside.there = inside.there.saturating_sub(1);
            Ok(None)
        }
    }
}

/// The stream of a client waits for what is next for it: its place is kept, and the loop doesn't own the stream.
fn hold<M: Machine + Drop, S: NonBlocking + Drop>(
    inside: &mut Inside<'_, M, S>,
    at: usize,
    stream: S,
    until: Option<u64>,
    now: u64,
)
    requires empty { slice_get inside.old.all.places at ≡ Some Empty }
    requires number { IsNumberedAt inside.old.numbers.items at }
    requires whole { AreClientsSound M.agrees S.did (map (λ name. name.now) inside.old.known.now)
        inside.old.all inside.old.held.items inside.old.is_broken }
    requires counted { AreNumbersBut at inside.old.all.places inside.old.taken inside.old.numbers.items
        inside.old.is_broken }
    ensures awaits { IsAwaitedAt inside.new.all.places at }
    ensures holds { IsHeldAt (held_streams inside.new.held.items) at stream }
    ensures held { StayHeld (held_streams inside.old.held.items) (held_streams inside.new.held.items) }
    ensures others { KeepsPlays M.agrees S.did inside.old.all.places inside.new.all.places }
    ensures only { PlayNoMore inside.old.all.places inside.new.all.places }
    ensures rest { RestBut at inside.old.all.places inside.new.all.places }
    ensures taken { inside.new.taken ≡ inside.old.taken }
    ensures numbers { inside.new.numbers ≡ inside.old.numbers }
    ensures known { inside.new.known ≡ inside.old.known }
    ensures limits { inside.new.limits ≡ inside.old.limits }
    ensures runs { inside.new.is_broken ≡ inside.old.is_broken }
    ensures whole { AreClientsSound M.agrees S.did (map (λ name. name.now) inside.new.known.now)
        inside.new.all inside.new.held.items inside.new.is_broken }
    ensures counted { AreNumbersSound inside.new.all.places inside.new.taken inside.new.numbers.items
        inside.new.is_broken }
{
    inside.all.watch(at, AWAITED);
    inside.held[at] = Some(Held {
        stream,
        until,
        since: now,
    });
}

/// Plays this to the client in this place, if one waits there.
fn play_inside<M: Machine + Drop, S: NonBlocking + Drop>(
    inside: &mut Inside<'_, M, S>,
    at: usize,
    machine: M,
    now: u64,
) -> bool
    requires untold { M.agrees machine machine [] }
    requires goes_on { HasNext (M.wants machine) }
    requires whole { AreClientsSound M.agrees S.did (map (λ name. name.now) inside.old.known.now)
        inside.old.all inside.old.held.items inside.old.is_broken }
    requires counted { AreNumbersSound inside.old.all.places inside.old.taken inside.old.numbers.items
        inside.old.is_broken }
    ensures plays { result ≡ true → (stream : S) × IsHeldAt (held_streams inside.old.held.items) at stream
        × IsPlaying M.agrees S.did machine stream [] inside.new.all.places at }
    ensures begins { (stream : S) → IsHeldAt (held_streams inside.old.held.items) at stream → result ≡ true }
    ensures only { (other : ℕ) → PlaysAt inside.new.all.places other
        → (other ≡ at) ⊎ PlaysAt inside.old.all.places other }
    ensures limit { result ≡ true → IsLimitAt inside.old.limits.limit inside.new.all.places at }
    ensures held { held_streams inside.new.held.items ≡ slice_set (held_streams inside.old.held.items) at None }
    ensures others { KeepsPlays M.agrees S.did inside.old.all.places inside.new.all.places }
    ensures taken { inside.new.taken ≡ inside.old.taken }
    ensures numbers { inside.new.numbers ≡ inside.old.numbers }
    ensures known { inside.new.known ≡ inside.old.known }
    ensures limits { inside.new.limits ≡ inside.old.limits }
    ensures runs { inside.new.is_broken ≡ inside.old.is_broken }
    ensures whole { AreClientsSound M.agrees S.did (map (λ name. name.now) inside.new.known.now)
        inside.new.all inside.new.held.items inside.new.is_broken }
    ensures counted { AreNumbersSound inside.new.all.places inside.new.taken inside.new.numbers.items
        inside.new.is_broken }
{
    let Some(held) = taken_of(&mut inside.held, at) else {
        return false;
    };
    let Held {
        stream,
        until,
        since,
    } = held;
    let deadline = later_by(until, now.saturating_sub(since));
    let slot = Slot {
        machine: Talk::Plays(machine),
        stream,
        pace: Pace::begun(now, inside.limits.limit, deadline),
    };
    inside.all.open(at, slot);
    true
}

/// A time, if there is one, so much later.
fn later_by(time: Option<u64>, by: u64) -> Option<u64> {
    match time {
        Some(time) => Some(time.saturating_add(by)),
        None => None,
    }
}

/// What is held beside this place, if anything is, which is held no longer.
fn taken_of<S: Drop>(held: &mut Vec<Option<Held<S>>>, at: usize) -> Option<Held<S>>
    ensures taken { IsTakenOut at held.old.items held.new.items result }
    ensures none { WasNoneHeld at held.old.items result }
{
    if at < held.len() {
        mem::replace(&mut held[at], None)
    } else {
        None
    }
}

/// Leaves the client in this place, if one waits there.
fn leave_inside<M: Machine + Drop, S: NonBlocking + Drop>(
    inside: &mut Inside<'_, M, S>,
    at: usize,
    now: u64,
)
    requires whole { AreClientsSound M.agrees S.did (map (λ name. name.now) inside.old.known.now)
        inside.old.all inside.old.held.items inside.old.is_broken }
    requires counted { AreNumbersSound inside.old.all.places inside.old.taken inside.old.numbers.items
        inside.old.is_broken }
    ensures leaves { (stream : S) → IsHeldAt (held_streams inside.old.held.items) at stream →
        IsLeftAt S.did stream inside.new.all.places at }
    ensures lingers { (stream : S) → IsHeldAt (held_streams inside.old.held.items) at stream →
        LingersAt now inside.new.all.places at }
    ensures held { held_streams inside.new.held.items ≡ slice_set (held_streams inside.old.held.items) at None }
    ensures others { KeepsPlays M.agrees S.did inside.old.all.places inside.new.all.places }
    ensures only { PlayNoMore inside.old.all.places inside.new.all.places }
    ensures rest { RestBut at inside.old.all.places inside.new.all.places }
    ensures taken { inside.new.taken ≡ inside.old.taken }
    ensures numbers { inside.new.numbers.items
        ≡ numbers_left (stream_at (held_streams inside.old.held.items) at) at inside.old.numbers.items }
    ensures known { inside.new.known ≡ inside.old.known }
    ensures limits { inside.new.limits ≡ inside.old.limits }
    ensures runs { inside.new.is_broken ≡ inside.old.is_broken }
    ensures whole { AreClientsSound M.agrees S.did (map (λ name. name.now) inside.new.known.now)
        inside.new.all inside.new.held.items inside.new.is_broken }
    ensures counted { AreNumbersSound inside.new.all.places inside.new.taken inside.new.numbers.items
        inside.new.is_broken }
{
    let Some(held) = taken_of(&mut inside.held, at) else {
        return;
    };
    let _ = number_taken(&mut inside.numbers, at);
    let mut stream = held.stream;
    stream.end_direction();
    let slot = Slot {
        machine: Talk::Leaves(Leaver::new()),
        stream,
        pace: Pace::begun(now, None, Some(now.saturating_add(LEAVING))),
    };
    inside.all.open(at, slot);
}

/// Drops those who wait, reads those that are left to the end, and plays to the others to its end, for a while.
fn end_inside<M: Machine + Drop, S: NonBlocking + Drop, P: Poller, K: LineSink>(
    inside: &mut Inside<'_, M, S>,
    poller: &mut P,
    sink: &mut K,
    room: &mut [u8],
) -> Result<(), K::Fault>
where
    M::End: Drop,
    requires room { 0 < length room.old }
    requires whole { AreClientsSound M.agrees S.did (map (λ name. name.now) inside.old.known.now)
        inside.old.all inside.old.held.items inside.old.is_broken }
    requires counted { AreNumbersSound inside.old.all.places inside.old.taken inside.old.numbers.items
        inside.old.is_broken }
    ensures ends { IfOk result (λ done. AreSeenOut M.agrees M.wants S.did (P.time poller.old) (P.time poller.new)
        inside.old.all.places) }
    ensures known { inside.new.known ≡ inside.old.known }
    ensures limits { inside.new.limits ≡ inside.old.limits }
    ensures taken { inside.new.taken ≡ inside.old.taken }
    ensures whole { AreClientsSound M.agrees S.did (map (λ name. name.now) inside.new.known.now)
        inside.new.all inside.new.held.items inside.new.is_broken }
    ensures counted { AreNumbersSound inside.new.all.places inside.new.taken inside.new.numbers.items
        inside.new.is_broken }
{
    drop_idle(inside);
    let until = poller.now().saturating_add(ENDING);
    let mut left = u64::MAX;
    while left > 0 && !inside.is_broken {
        left -= 1;
        let ending = run_on(inside, poller, sink, Some(until), room)?;
        match ending {
            Ending::Ended(at) => {
                let now = poller.now();
                end_at(inside, at, now)?;
            }
            Ending::TooLate => return Ok(()),
            Ending::NoSlot => return Ok(()),
        }
    }
    Err(K::Fault::from(WaitFailed))
}

/// Only those stay to whom something is played, and who are left.
fn drop_idle<M: Machine + Drop, S: NonBlocking + Drop>(inside: &mut Inside<'_, M, S>)
    requires whole { AreClientsSound M.agrees S.did (map (λ name. name.now) inside.old.known.now)
        inside.old.all inside.old.held.items inside.old.is_broken }
    requires counted { AreNumbersSound inside.old.all.places inside.old.taken inside.old.numbers.items
        inside.old.is_broken }
    ensures busy { BusyStay inside.old.all.places inside.new.all.places }
    ensures known { inside.new.known ≡ inside.old.known }
    ensures limits { inside.new.limits ≡ inside.old.limits }
    ensures taken { inside.new.taken ≡ inside.old.taken }
    ensures runs { inside.new.is_broken ≡ inside.old.is_broken }
    ensures whole { AreClientsSound M.agrees S.did (map (λ name. name.now) inside.new.known.now)
        inside.new.all inside.new.held.items inside.new.is_broken }
    ensures counted { AreNumbersSound inside.new.all.places inside.new.taken inside.new.numbers.items
        inside.new.is_broken }
{
    inside.there = 0;
    let len = inside.all.len();
    let mut at = 0;
    while at < len {
        drop_idle_at(inside, at);
        at += 1;
    }
}

/// In this place one only stays if something is played to it, or it is left.
fn drop_idle_at<M: Machine + Drop, S: NonBlocking + Drop>(inside: &mut Inside<'_, M, S>, at: usize)
    requires at { at < length inside.old.all.places }
    requires whole { AreClientsSound M.agrees S.did (map (λ name. name.now) inside.old.known.now)
        inside.old.all inside.old.held.items inside.old.is_broken }
    requires counted { AreNumbersSound inside.old.all.places inside.old.taken inside.old.numbers.items
        inside.old.is_broken }
    ensures len { length inside.new.all.places ≡ length inside.old.all.places }
    ensures busy { BusyStay inside.old.all.places inside.new.all.places }
    ensures known { inside.new.known ≡ inside.old.known }
    ensures limits { inside.new.limits ≡ inside.old.limits }
    ensures taken { inside.new.taken ≡ inside.old.taken }
    ensures runs { inside.new.is_broken ≡ inside.old.is_broken }
    ensures whole { AreClientsSound M.agrees S.did (map (λ name. name.now) inside.new.known.now)
        inside.new.all inside.new.held.items inside.new.is_broken }
    ensures counted { AreNumbersSound inside.new.all.places inside.new.taken inside.new.numbers.items
        inside.new.is_broken }
{
    let _ = taken_of(&mut inside.held, at);
    match busy_of(inside.all.take(at)) {
        Some(slot) => {
            inside.all.put(at, slot);
            inside.there = inside.there.saturating_add(1);
        }
        None => {
            let _ = number_taken(&mut inside.numbers, at);
        }
    }
}

/// What stands in this place, if something is played to its client, or it is left.
fn busy_of<'a, M: Machine + Drop, S: NonBlocking + Drop>(
    place: Place<Talk<'a, M>, S>,
) -> Option<Slot<Talk<'a, M>, S>>
    ensures { IsBusyOf place.entry result }
{
    match place {
        Place::Open(slot) => {
            if is_busy(&slot.machine) {
                Some(slot)
            } else {
                None
            }
        }
        Place::Empty | Place::Pending(_) | Place::Broken => None,
    }
}

/// Something is played to its client, or it is left.
fn is_busy<M>(talk: &Talk<'_, M>) -> bool
    ensures { result ≡ is_busy talk.now }
{
    match talk {
        Talk::Admits(_) => false,
        Talk::Plays(_) | Talk::Leaves(_) => true,
    }
}

/// Serves all clients until one of them has ended, or this time has come. Behind a fault nothing is known of what goes
/// on with them.
fn run_on<M: Machine + Drop, S: NonBlocking + Drop, P: Poller, K: LineSink>(
    inside: &mut Inside<'_, M, S>,
    poller: &mut P,
    sink: &mut K,
    until: Option<u64>,
    room: &mut [u8],
) -> Result<Ending, K::Fault>
    requires room { 0 < length room.old }
    requires runs { inside.old.is_broken ≡ false }
    requires whole { AreClientsSound M.agrees S.did (map (λ name. name.now) inside.old.known.now)
        inside.old.all inside.old.held.items inside.old.is_broken }
    requires counted { AreNumbersSound inside.old.all.places inside.old.taken inside.old.numbers.items
        inside.old.is_broken }
    ensures over { IfOk result (IsOverAs M.agrees M.wants S.did until (P.time poller.new) inside.new.all.places) }
    ensures goes_on { OnOk result (AllGoOn M.agrees M.wants S.did (P.time poller.old) (P.time poller.new)
        inside.old.all.places inside.new.all.places) }
    ensures later { OnOk result (P.time poller.old ≤ P.time poller.new) }
    ensures known { inside.new.known ≡ inside.old.known }
    ensures limits { inside.new.limits ≡ inside.old.limits }
    ensures taken { inside.new.taken ≡ inside.old.taken }
    ensures runs { OnOk result (inside.new.is_broken ≡ inside.old.is_broken) }
    ensures whole { AreClientsSound M.agrees S.did (map (λ name. name.now) inside.new.known.now)
        inside.new.all inside.new.held.items inside.new.is_broken }
    ensures counted { AreNumbersSound inside.new.all.places inside.new.taken inside.new.numbers.items
        inside.new.is_broken }
{
    match inside.all.run(poller, sink, until, room) {
        Ok(ending) => Ok(ending),
        Err(why) => {
            inside.is_broken = true;
            Err(why)
        }
    }
}

/// What went on in this place has ended: the client is left.
fn end_at<M: Machine + Drop, S: NonBlocking + Drop>(
    inside: &mut Inside<'_, M, S>,
    at: usize,
    now: u64,
) -> Result<(), NoMemory>
where
    M::End: Drop,
    requires over { IsOverAt (wants_talk M.wants) inside.old.all.places at }
    requires runs { inside.old.is_broken ≡ false }
    requires whole { AreClientsSound M.agrees S.did (map (λ name. name.now) inside.old.known.now)
        inside.old.all inside.old.held.items inside.old.is_broken }
    requires counted { AreNumbersSound inside.old.all.places inside.old.taken inside.old.numbers.items
        inside.old.is_broken }
    ensures rest { OnOk result (RestBut at inside.old.all.places inside.new.all.places) }
    ensures runs { inside.new.is_broken ≡ inside.old.is_broken }
    ensures known { inside.new.known ≡ inside.old.known }
    ensures limits { inside.new.limits ≡ inside.old.limits }
    ensures taken { inside.new.taken ≡ inside.old.taken }
    ensures whole { AreClientsSound M.agrees S.did (map (λ name. name.now) inside.new.known.now)
        inside.new.all inside.new.held.items inside.new.is_broken }
    ensures counted { AreNumbersSound inside.new.all.places inside.new.taken inside.new.numbers.items
        inside.new.is_broken }
{
    let _: Option<Event<M::End, ()>> = ended_at(inside, at, now)?;
    leave_inside(inside, at, now);
    Ok(())
}
