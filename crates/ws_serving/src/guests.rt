//! Clients that are served, and what is next to be told of them.

ghost use Rattle.std.specs.Prelude.{◌≡◌, ◌<◌, IfOk, Some, length};
ghost use Rattle.ws_upgrade.specs.Protocols.{AreOffers};
ghost use Rattle.ws_clients.specs.Clients.{KeepsPlays, PlaysAt};
ghost use Rattle.ws_clients.specs.Numbers.{IsNumberedAt, reason_told};
ghost use Rattle.ws_echo.specs.EchoMachines.{WasEchoing};
ghost use Rattle.ws_handshake.specs.declared.admission.Admission.TheVariants as admission;
ghost use Rattle.ws_serving.specs.ClientEnds.{known_to};
ghost use Rattle.ws_serving.specs.InnerGuests.{AreEchoes, HasLeft, HasToSeeTo, HoldsAsked, HoldsSome, IsQuiet};
ghost use Rattle.ws_serving.specs.InnerGuests.{IsToSeeTo, IsUnserved, SeesTo, StaysBeside, StepsOn, TellsReasons};
ghost use Rattle.ws_serving.specs.InnerGuests.{gone_step};

use crate::client_end::ClientEnd;
use std::alloc::Global;
use ws_base::NoMemory;
use ws_clients::{Clients, Counted, Event};
use ws_echo::{EchoEnd, EchoMachine, EchoPlan};
use ws_handshake::{AcceptedRequest, Admission};
use ws_loops::{Listener, LoopFault, NoLines, NonBlocking, Poller};
use ws_session::Limits;
use ws_wire::{NO_KEY, Role};

/// At most so many bytes are read at once.
const ROOM: usize = 65_536;

/// How clients are to be served.
#[derive(Clone, Copy)]
pub struct Service<'a> {
    /// The subprotocols that are known.
    pub protocols: &'a [&'a [u8]],
    /// The limits of each session.
    pub limits: Limits,
    /// At most so many bytes are read of each client behind the head of its request.
    pub budget: u64,
    /// The limits of time of each connection.
    pub times: ws_networks::Limits,
    /// So many clients can be there at a time.
    pub at_once: usize,
    /// So many are served. `None` stands for no end.
    pub count: Option<u64>,
}

/// What came of one thing that happened among clients.
#[derive(Clone, Copy)]
pub(crate) enum Step {
    /// The connection of the client of this number has ended so.
    Ended(u64, ClientEnd),
    /// No client can be taken for now, and some are there.
    Full,
    /// There is nothing to tell.
    On,
    /// Nobody is there, and no client can be taken any more.
    Deaf,
}

/// Clients, and what they come to.
#[derive(Drop)]
pub(crate) struct Guests<'a, L: Listener, P> {
    alloc: Global,
    pub(crate) service: &'a Service<'a>,
    pub(crate) clients: Clients<'a, EchoMachine, L::Client>,
    pub(crate) listener: Counted<L>,
    poller: P,
    room: Vec<u8>,
}

impl<'a, L: Listener + Drop, P: Poller + Drop> Guests<'a, L, P> {
    /// Nobody has come.
    pub(crate) fn new(
        alloc: Global,
        service: &'a Service<'a>,
        listener: L,
        poller: P,
    ) -> Result<Guests<'a, L, P>, NoMemory>
        requires { AreOffers (known_to service.now) }
        ensures service { IfOk result (λ made. made.service.now ≡ service.now) }
        ensures listener { IfOk result (λ made.
            (made.listener.listener ≡ listener) × (made.listener.left ≡ service.now.count)) }
        ensures clients { IfOk result (λ made. IsUnserved service.now made.clients) }
        ensures room { IfOk result (λ made. 0 < length made.room.items) }
    {
        let room = vec![in alloc; 0; ROOM]?;
        let clients = Clients::new(alloc, service.protocols, service.times, service.at_once)?;
        Ok(Guests {
            alloc,
            service,
            clients,
            listener: Counted::new(listener, service.count),
            poller,
            room,
        })
    }

    /// Serves all clients until something has happened, and sees to that.
    pub(crate) fn step(&mut self) -> Result<Step, LoopFault>
        requires room { 0 < length self.old.room.items }
        requires known { self.old.clients.known ≡ known_to self.old.service.now }
        requires plays { AreEchoes L.Client.did self.old.service.now self.old.clients.places }
        ensures steps { IfOk result (StepsOn L.Client.did L.did self.old.service.now self.old.listener
            self.new.listener self.old.clients self.new.clients) }
        ensures room { 0 < length self.new.room.items }
        ensures service { self.new.service.now ≡ self.old.service.now }
    {
        let event = self.clients.next(
            &mut self.listener,
            &mut self.poller,
            &mut NoLines,
            None,
            self.room.as_mut_slice(),
        )?;
        let now = self.poller.now();
        Ok(self.see_to(event, now))
    }

    /// Sees to what has happened.
    fn see_to(&mut self, event: Event<EchoEnd, L::Miss>, now: u64) -> Step
        requires plays { AreEchoes L.Client.did self.old.service.now self.old.clients.places }
        requires is { HasToSeeTo L.Client.did self.old.service.now self.old.clients event }
        ensures sees { (before : _) → IsToSeeTo L.Client.did self.old.service.now before self.old.clients event
            → SeesTo L.Client.did self.old.service.now before self.old.clients self.new.clients result }
        ensures reasons { TellsReasons result (reason_told (Some event)) }
        ensures rest { StaysBeside self.old self.new }
    {
        match event {
            Event::Decided(at, admission) => self.answer(at, admission, now),
            Event::Played(at, end) => leave(&mut self.clients, at, ClientEnd::Echoed(end), now),
            Event::Gone(_, number) => gone_step(number),
            Event::TooLate => Step::On,
            Event::Full(_) => Step::Full,
            Event::Deaf(_) => Step::Deaf,
        }
    }

    /// This came of the request of the client in this place.
    fn answer(&mut self, at: usize, admission: Admission, now: u64) -> Step
        requires numbered { IsNumberedAt self.old.clients.numbers at }
        requires holds { HoldsAsked L.Client.did self.old.service.now self.old.clients.held at admission }
        requires plays { AreEchoes L.Client.did self.old.service.now self.old.clients.places }
        ensures sees { SeesTo L.Client.did self.old.service.now self.old.clients.numbers self.old.clients
            self.new.clients result }
        ensures quiet { IsQuiet result }
        ensures rest { StaysBeside self.old self.new }
    {
        match admission {
            Admission::Accepted(request) => self.echo_to(at, &request, now),
            Admission::Refused(fault) => {
                leave(&mut self.clients, at, ClientEnd::Refused(fault), now)
            }
            Admission::Lost => leave(&mut self.clients, at, ClientEnd::Lost, now),
        }
    }

    /// Sends back what comes from the client in this place, whose request was accepted.
    fn echo_to(&mut self, at: usize, request: &AcceptedRequest, now: u64) -> Step
        requires numbered { IsNumberedAt self.old.clients.numbers at }
        requires holds { HoldsAsked L.Client.did self.old.service.now self.old.clients.held at
            (admission.Accepted request.now) }
        requires plays { AreEchoes L.Client.did self.old.service.now self.old.clients.places }
        ensures sees { SeesTo L.Client.did self.old.service.now self.old.clients.numbers self.old.clients
            self.new.clients result }
        ensures quiet { IsQuiet result }
        ensures rest { StaysBeside self.old self.new }
    {
        let plan = EchoPlan {
            role: Role::Server,
            limits: self.service.limits,
            key: NO_KEY,
            budget: self.service.budget,
        };
        match EchoMachine::new(self.alloc, plan, request.behind.as_slice()) {
            Ok(machine) => {
                self.clients.play(at, machine, now);
                Step::On
            }
            Err(NoMemory) => leave(&mut self.clients, at, ClientEnd::NoMemory, now),
        }
    }

    /// Reads what those who are left still send, for a while.
    pub(crate) fn end(&mut self)
        requires { 0 < length self.old.room.items }
    {
        let _ = self
            .clients
            .end(&mut self.poller, &mut NoLines, self.room.as_mut_slice());
    }
}

/// What is told where memory ran out for a client that had this number, if it wasn't left before.
fn gone_step(number: Option<u64>) -> Step
    ensures { result ≡ gone_step number }
{
    match number {
        Some(number) => Step::Ended(number, ClientEnd::NoMemory),
        None => Step::On,
    }
}

/// Leaves the client in this place, whose connection ends so: its stream is ended from this side before that is told.
fn leave<S: NonBlocking + Drop>(
    clients: &mut Clients<'_, EchoMachine, S>,
    at: usize,
    end: ClientEnd,
    now: u64,
) -> Step
    requires numbered { IsNumberedAt clients.old.numbers at }
    requires holds { HoldsSome clients.old.held at }
    ensures left { HasLeft at end clients.old clients.new result }
    ensures taken { clients.new.taken ≡ clients.old.taken }
    ensures known { clients.new.known ≡ clients.old.known }
    ensures only { (other : _) → PlaysAt clients.new.places other → PlaysAt clients.old.places other }
    ensures others { KeepsPlays (λ start now told. WasEchoing start now told) S.did clients.old.places
        clients.new.places }
{
    let number = clients.number(at);
    clients.leave(at, now);
    match number {
        Some(number) => Step::Ended(number, end),
        None => Step::On,
    }
}
