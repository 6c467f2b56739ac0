//! A loop that listens: its slots go on while a client is waited for.

ghost use Rattle.std.specs.Prelude.{◌≡◌, ◌<◌, ◌≤◌, [], length, true, IfOk, IfSome, MatchOption, OnOk};
ghost use Rattle.ws_loops.specs.Listeners.{CannotTake, HasArrived, HasAskedClient, HasClientBy, HasDeafened};
ghost use Rattle.ws_loops.specs.Listeners.{HasHeardFor, HasHeardSo, IfLost, IfRoundMadeFor, IsDeafBehind};
ghost use Rattle.ws_loops.specs.Listeners.{IsPlaceToAsk};
ghost use Rattle.ws_loops.specs.Looping.{AreSame, loop_value};
ghost use Rattle.ws_loops.specs.Loops.{AreServedInTime, HaveRun, IsLoopSound};
ghost use Rattle.ws_loops.specs.Places.{IsFirstFree, KeepTurns, StayOfKind};

use crate::inside::{Door, Inside, has_come, run_round};
use crate::line_sink::LineSink;
use crate::listener::{Listener, TryAccept};
use crate::looping::{Loop, free_inside, next_ended};
use crate::non_blocking::NonBlocking;
use crate::poller::Poller;
use ws_machines::Machine;

/// What has happened in a loop that listens.
#[derive(Drop)]
pub enum Arrival<S, W> {
    /// What went on in this place has ended, as `Ending::Ended` has it.
    Ended(usize),
    /// A client has come, for this place, the first that is empty, and with this stream.
    Client(usize, S),
    /// A client has come whose stream can't be used, for this reason. It is gone.
    Lost(W),
    /// No client can be taken, for this reason. It is told once: until something is taken out of its place clients are
    /// not asked for.
    NotAccepted(W),
    /// The time has come until which one was waited for.
    TooLate,
}

impl<M: Machine + Drop, S: NonBlocking + Drop> Loop<M, S> {
    /// Serves the slots until one of them has ended, or a client comes for whom a place is empty, or this time has
    /// come; all were served by then. While no place is empty the listener isn't asked, and clients wait. Whoever calls
    /// takes what has ended out of its place, or puts a slot with the client's stream into the place that is told.
    /// Where a client is lost, all were served by then.
    pub fn run_listening<L: Listener<Client = S>, P: Poller, K: LineSink>(
        &mut self,
        poller: &mut P,
        sink: &mut K,
        listener: &mut L,
        until: Option<u64>,
        room: &mut [u8],
    ) -> Result<Arrival<S, L::Miss>, K::Fault>
        requires room { 0 < length room.old }
        ensures run { OnOk result (HaveRun M.agrees M.wants S.did K.heard (P.time poller.old) (P.time poller.new)
            self.old.places self.new.places sink.old sink.new) }
        ensures arrived { IfOk result (λ arrival. HasArrived M.wants S.did until (P.time poller.new) self.new arrival) }
        ensures asked { IfOk result (λ arrival. HasHeardFor L.did listener.old listener.new self.new arrival) }
        ensures turns { OnOk result (KeepTurns self.old.tickets self.new.tickets) }
        ensures deaf { IfOk result (λ arrival. IsDeafBehind self.old.deaf arrival self.new.deaf) }
        ensures later { OnOk result (P.time poller.old ≤ P.time poller.new) }
        ensures kinds { StayOfKind self.old.places self.new.places }
        ensures served { IfOk result (λ arrival. IfRoundMadeFor self.old.tickets arrival (AreServedInTime M.agrees
            M.wants S.did (P.time poller.new) self.new.places)) }
        ensures lost { IfOk result (λ arrival. IfLost arrival (AreServedInTime M.agrees M.wants S.did
            (P.time poller.new) self.new.places)) }
    {
        listen_in_turn(&mut self.inside, poller, sink, listener, until, room)
    }
}

/// Serves the slots until something arrives. A client that is lost is told behind one round more: however many are, one
/// after the other, the slots go on between them.
fn listen_in_turn<M: Machine + Drop, L: Listener, P: Poller, K: LineSink>(
    inside: &mut Inside<M, L::Client>,
    poller: &mut P,
    sink: &mut K,
    listener: &mut L,
    until: Option<u64>,
    room: &mut [u8],
) -> Result<Arrival<L::Client, L::Miss>, K::Fault>
    requires room { 0 < length room.old }
    requires whole { IsLoopSound M.agrees M.wants inside.old }
    ensures run { OnOk result (HaveRun M.agrees M.wants L.Client.did K.heard (P.time poller.old) (P.time poller.new)
        inside.old.seats.places.items inside.new.seats.places.items sink.old sink.new) }
    ensures arrived { IfOk result (λ arrival. HasArrived M.wants L.Client.did until (P.time poller.new)
        (loop_value inside.new) arrival) }
    ensures asked { IfOk result (λ arrival. HasHeardFor L.did listener.old listener.new (loop_value inside.new)
        arrival) }
    ensures turns { OnOk result (KeepTurns inside.old.seats.tickets.items inside.new.seats.tickets.items) }
    ensures deaf { IfOk result (λ arrival. IsDeafBehind inside.old.door.deaf arrival inside.new.door.deaf) }
    ensures whole { IsLoopSound M.agrees M.wants inside.new }
    ensures later { OnOk result (P.time poller.old ≤ P.time poller.new) }
    ensures kinds { StayOfKind inside.old.seats.places.items inside.new.seats.places.items }
    ensures served { IfOk result (λ arrival. IfRoundMadeFor inside.old.seats.tickets.items arrival
        (AreServedInTime M.agrees M.wants L.Client.did (P.time poller.new) inside.new.seats.places.items)) }
    ensures lost { IfOk result (λ arrival. IfLost arrival (AreServedInTime M.agrees M.wants L.Client.did
        (P.time poller.new) inside.new.seats.places.items)) }
{
    let arrival = listen_inside(inside, poller, sink, listener, until, room)?;
    match arrival {
        Arrival::Lost(why) => {
            let now = poller.now();
            run_round(inside, poller, sink, Some(now), room)?;
            Ok(Arrival::Lost(why))
        }
        Arrival::Ended(_) | Arrival::Client(..) | Arrival::NotAccepted(_) | Arrival::TooLate => {
            Ok(arrival)
        }
    }
}

/// Serves the slots until something arrives. That this time has come counts behind a round alone.
fn listen_inside<M: Machine + Drop, L: Listener, P: Poller, K: LineSink>(
    inside: &mut Inside<M, L::Client>,
    poller: &mut P,
    sink: &mut K,
    listener: &mut L,
    until: Option<u64>,
    room: &mut [u8],
) -> Result<Arrival<L::Client, L::Miss>, K::Fault>
    requires room { 0 < length room.old }
    requires whole { IsLoopSound M.agrees M.wants inside.old }
    ensures run { OnOk result (HaveRun M.agrees M.wants L.Client.did K.heard (P.time poller.old) (P.time poller.new)
        inside.old.seats.places.items inside.new.seats.places.items sink.old sink.new) }
    ensures arrived { IfOk result (λ arrival. HasArrived M.wants L.Client.did until (P.time poller.new)
        (loop_value inside.new) arrival) }
    ensures asked { IfOk result (λ arrival. HasHeardFor L.did listener.old listener.new (loop_value inside.new)
        arrival) }
    ensures turns { OnOk result (KeepTurns inside.old.seats.tickets.items inside.new.seats.tickets.items) }
    ensures deaf { IfOk result (λ arrival. IsDeafBehind inside.old.door.deaf arrival inside.new.door.deaf) }
    ensures whole { IsLoopSound M.agrees M.wants inside.new }
    ensures later { OnOk result (P.time poller.old ≤ P.time poller.new) }
    ensures kinds { StayOfKind inside.old.seats.places.items inside.new.seats.places.items }
    ensures served { IfOk result (λ arrival. IfRoundMadeFor inside.old.seats.tickets.items arrival
        (AreServedInTime M.agrees M.wants L.Client.did (P.time poller.new) inside.new.seats.places.items)) }
    ensures room { OnOk result (0 < length room.new) }
{
    let mut now = poller.now();
    let mut late = None;
    loop {
        match arrival_by(inside, listener, late, now) {
            Some(arrival) => return Ok(arrival),
            None => now = run_round(inside, poller, sink, until, room)?,
        }
        late = until;
    }
}

/// What has happened by now, if something has.
fn arrival_by<M: Machine, L: Listener>(
    inside: &mut Inside<M, L::Client>,
    listener: &mut L,
    until: Option<u64>,
    now: u64,
) -> Option<Arrival<L::Client, L::Miss>>
    requires whole { IsLoopSound M.agrees M.wants inside.old }
    ensures arrived { IfSome result (λ arrival. HasArrived M.wants L.Client.did until now (loop_value inside.new)
        arrival) }
    ensures asked { HasHeardSo L.did listener.old listener.new (loop_value inside.new) result }
    ensures same { AreSame inside.old.seats inside.new.seats }
    ensures deaf { HasDeafened inside.old.door.deaf result inside.new.door.deaf }
    ensures whole { IsLoopSound M.agrees M.wants inside.new }
{
    match next_ended(&mut inside.seats) {
        Some(at) => return Some(Arrival::Ended(at)),
        None => {}
    }
    let over = has_come(until, now);
    if let Some(arrival) = client_by(inside, listener, over) {
        return Some(arrival);
    }
    if over { Some(Arrival::TooLate) } else { None }
}

/// What comes of it where clients are asked for, if they are to be: where one may be there, and also where there is no
/// more time.
fn client_by<M: Machine, L: Listener>(
    inside: &mut Inside<M, L::Client>,
    listener: &mut L,
    over: bool,
) -> Option<Arrival<L::Client, L::Miss>>
    requires whole { IsLoopSound M.agrees M.wants inside.old }
    ensures client { HasClientBy M.wants L.Client.did L.did over listener.old listener.new (loop_value inside.new)
        inside.old.door.deaf result inside.new.door.deaf }
    ensures same { AreSame inside.old.seats inside.new.seats }
    ensures whole { IsLoopSound M.agrees M.wants inside.new }
{
    match place_to_ask(inside, over) {
        Some(at) => ask(&mut inside.door, at, listener),
        None => None,
    }
}

/// The place for which a client is to be asked for, if one is.
fn place_to_ask<M: Machine, S>(inside: &mut Inside<M, S>, over: bool) -> Option<usize>
    requires whole { IsLoopSound M.agrees M.wants inside.old }
    ensures place { MatchOption result (over ≡ true → CannotTake (loop_value inside.new))
        (λ at. IsPlaceToAsk (loop_value inside.new) at) }
    ensures same { AreSame inside.old.seats inside.new.seats }
    ensures door { inside.new.door ≡ inside.old.door }
    ensures whole { IsLoopSound M.agrees M.wants inside.new }
{
    if inside.door.deaf {
        return None;
    }
    if !inside.door.asks && !over {
        return None;
    }
    free_inside(inside)
}

/// What comes of it where a client is asked for, for this place.
fn ask<L: Listener>(
    door: &mut Door,
    at: usize,
    listener: &mut L,
) -> Option<Arrival<L::Client, L::Miss>>
    ensures { HasAskedClient L.Client.did L.did at listener.old listener.new door.old.deaf result door.new.deaf }
{
    match listener.try_accept(at) {
        TryAccept::Client(stream) => Some(Arrival::Client(at, stream)),
        TryAccept::Lost(why) => Some(Arrival::Lost(why)),
        TryAccept::Failed(why) => {
            door.deaf = true;
            Some(Arrival::NotAccepted(why))
        }
        TryAccept::NotReady => {
            door.asks = false;
            None
        }
    }
}
