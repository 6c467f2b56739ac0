//! Those who come to a listener to be tested: all of them are served in one loop, and those who ask for a case wait for
//! their turn, in the order in which their requests were whole.

ghost use Rattle.std.specs.Prelude.{◌≡◌, ◌∷◌, IfOk, IfSome, MatchOption, OnOk, Some, [], true, map};
ghost use Rattle.ws_machines.specs.Machines.{HasNext};
ghost use Rattle.ws_upgrade.specs.Protocols.{AreOffers};
ghost use Rattle.ws_clients.specs.Clients.{HasBecome, HoldsBehind, IsHeldAt, IsLimitAt, IsNewlyHeld, IsPlaying};
ghost use Rattle.ws_clients.specs.Clients.{PlaysOn, StandsWhere, StayHeld};
ghost use Rattle.ws_handshake.specs.declared.admission.Admission.TheVariants as admission;
ghost use Rattle.wst_commands.specs.TimeLimits.{milliseconds_of};
ghost use Rattle.wst_clients.specs.Visitors.{AreHeld, AreVisitors, KeepsQueue, PlayOn, StayAll, StayHeldBut};
ghost use Rattle.wst_clients.specs.Visitors.{StayHeldWith, StayVisitors, StayWhere};
ghost use Rattle.wst_clients.specs.Visitors.{WaitsBehind, WasAccepted, WasEndAsked, ending_with, ending_without};
ghost use Rattle.wst_clients.specs.Visitors.{wait_until};

use std::alloc::Global;
use std::cell::Cell;
use ws_base::NoMemory;
use ws_clients::{Clients, Event};
use ws_frame::READ_SIZE;
use ws_handshake::AcceptedRequest;
use ws_loops::{LineSink, Listener, Poller};
use ws_machines::Machine;
use ws_networks::Limits;
use wst_sockets::Waits;

/// So many clients can be there at a time. Others wait in the system.
const PLACES: usize = 256;

/// A client who waits for its turn: its place, and what it asks for.
#[derive(Drop)]
pub(crate) struct Waiting {
    pub(crate) at: usize,
    pub(crate) request: AcceptedRequest,
}

/// How far the request has come with which the run ends.
#[derive(Clone, Copy, PartialEq, Eq)]
pub(crate) enum Ending {
    /// None was whole.
    NotAsked,
    /// It is answered in this place.
    Answering(usize),
    /// It was answered.
    Answered,
}

/// Those who come to a listener. Machines of one kind are played to them.
#[derive(Drop)]
pub struct Visitors<'a, M: Machine + Drop, L: Listener, P> {
    pub(crate) clients: Clients<'a, M, L::Client>,
    pub(crate) listener: L,
    pub(crate) poller: P,
    /// Those whose turn hasn't come.
    pub(crate) waiting: Vec<Waiting>,
    /// So long it is waited for a request, in milliseconds.
    pub(crate) wait: Option<u64>,
    /// Since then.
    pub(crate) since: u64,
    pub(crate) ending: Ending,
    /// The number of the case that is run, from 1.
    pub(crate) number: &'a Cell<Option<u32>>,
}

impl<'a, M: Machine + Drop, L: Listener + Drop, P: Poller + Drop> Visitors<'a, M, L, P>
where
    M::End: Drop,
{
    /// Nobody has come yet. These subprotocols are known, so long each is waited for, and there it stands which case is
    /// run.
    pub fn new(
        alloc: Global,
        listener: L,
        poller: P,
        known: &'a [&'a [u8]],
        waits: Waits,
        number: &'a Cell<Option<u32>>,
    ) -> Result<Visitors<'a, M, L, P>, NoMemory>
        requires { AreOffers (map (λ name. name.now) known.now) }
        ensures are { IfOk result (AreVisitors (map (λ name. name.now) known.now) (milliseconds_of waits.client)) }
        ensures limits { IfOk result (λ made. made.clients.limits
            ≡ record { limit = milliseconds_of waits.byte; deadline = milliseconds_of waits.deadline }) }
        ensures since { IfOk result (λ made. made.since ≡ P.time made.poller) }
        ensures held { IfOk result (AreHeld L.Client.did) }
    {
        let limits = Limits {
            limit: waits.byte.milliseconds(),
            deadline: waits.deadline.milliseconds(),
        };
        let clients = Clients::new(alloc, known, limits, PLACES)?;
        let mut poller = poller;
        let since = poller.now();
        Ok(Visitors {
            clients,
            listener,
            poller,
            waiting: Vec::new(alloc),
            wait: waits.client.milliseconds(),
            since,
            ending: Ending::NotAsked,
            number,
        })
    }

    /// Serves all of them until something has happened, or this time has come.
    pub(crate) fn next<K: LineSink>(
        &mut self,
        sink: &mut K,
        until: Option<u64>,
    ) -> Result<Event<M::End, L::Miss>, K::Fault>
        ensures happened { IfOk result (λ event. HasBecome L.Client.did L.did (P.time self.new.poller) until
            self.new.listener self.new.clients event) }
        ensures plays { IfOk result (λ event. PlaysOn K.heard M.agrees L.Client.did M.gives self.old.clients.places
            self.new.clients.places sink.old sink.new (Some event)) }
        ensures stands { IfOk result (StandsWhere self.new.clients.places) }
        ensures holds { IfOk result (HoldsBehind L.Client.did self.new.clients.known self.new.clients.held) }
        ensures held { OnOk result (StayHeld self.old.clients.held self.new.clients.held) }
        ensures fresh { IfOk result (IsNewlyHeld self.old.clients.held) }
        ensures stay { OnOk result (StayAll self.old self.new) }
    {
        let mut room = [0; READ_SIZE];
        self.clients.next(&mut self.listener, &mut self.poller, sink, until, &mut room)
    }

    /// Until when a request is waited for. Where the end of the run is asked for, none is.
    pub(crate) fn wait_end(&self) -> Option<u64>
        ensures { result ≡ wait_until self.now.ending self.now.wait self.now.since }
    {
        match (self.ending, self.wait) {
            (Ending::NotAsked, Some(wait)) => Some(self.since.saturating_add(wait)),
            (Ending::NotAsked, None) | (Ending::Answering(_) | Ending::Answered, _) => None,
        }
    }

    /// The first of those who wait, who waits no longer.
    pub(crate) fn first_waiting(&mut self) -> Option<Waiting>
        ensures order { MatchOption result
            ((self.old.waiting.items ≡ []) × (self.new.waiting.items ≡ []))
            (λ first. self.old.waiting.items ≡ first ∷ self.new.waiting.items) }
        ensures first { IfSome result (λ first. (known : _) (wait : _) → AreVisitors known wait self.old →
            WasAccepted known first.request) }
        ensures ending { self.new.ending ≡ self.old.ending }
        ensures clients { self.new.clients ≡ self.old.clients }
        ensures stay { StayVisitors self.old self.new }
    {
        if self.waiting.is_empty() {
            None
        } else {
            Some(self.waiting.remove(0))
        }
    }

    /// The client in this place waits for its turn, behind those who wait already. Once the end of the run was asked
    /// for it has none, and is left.
    pub(crate) fn wait_turn(&mut self, at: usize, request: AcceptedRequest) -> Result<(), NoMemory>
        ensures queue { OnOk result
            (WaitsBehind self.old.ending at request self.old.waiting.items self.new.waiting.items) }
        ensures held { OnOk result (StayHeldWith L.Client.did at (admission.Accepted request) self.old self.new) }
        ensures plays { PlayOn M.agrees L.Client.did self.old self.new }
        ensures stay { OnOk result (StayWhere (λ known. WasAccepted known request) self.old self.new) }
    {
        match self.ending {
            Ending::NotAsked => {
                self.waiting.push(Waiting { at, request })?;
                Ok(())
            }
            Ending::Answering(_) | Ending::Answered => {
                self.leave(at);
                Ok(())
            }
        }
    }

    /// The client in this place has asked for the end of the run, which is being answered, if none did before.
    pub(crate) fn ask_end(&mut self, at: usize)
        ensures asked { self.new.ending ≡ ending_with at self.old.ending }
        ensures waiting { self.new.waiting ≡ self.old.waiting }
        ensures clients { self.new.clients ≡ self.old.clients }
        ensures stay { StayWhere WasEndAsked self.old self.new }
    {
        self.ending = ending_with(at, self.ending);
    }

    /// The wait for a request begins anew.
    pub(crate) fn wait_anew(&mut self)
        ensures since { self.new.since ≡ P.time self.new.poller }
        ensures queue { KeepsQueue self.old self.new }
        ensures clients { self.new.clients ≡ self.old.clients }
        ensures stay { StayVisitors self.old self.new }
    {
        self.since = self.poller.now();
    }

    /// Plays this to the client in this place.
    pub(crate) fn play(&mut self, at: usize, machine: M) -> bool
        requires untold { M.agrees machine machine [] }
        requires goes_on { HasNext (M.wants machine) }
        ensures played { result ≡ true → (stream : L.Client) × IsHeldAt self.old.clients.held at stream
            × IsPlaying M.agrees L.Client.did machine stream [] self.new.clients.places at }
        ensures begins { (stream : L.Client) → IsHeldAt self.old.clients.held at stream → result ≡ true }
        ensures limit { result ≡ true → IsLimitAt self.old.clients.limits.limit self.new.clients.places at }
        ensures held { StayHeldBut L.Client.did at self.old self.new }
        ensures plays { PlayOn M.agrees L.Client.did self.old self.new }
        ensures queue { KeepsQueue self.old self.new }
        ensures stay { StayVisitors self.old self.new }
    {
        let now = self.poller.now();
        self.clients.play(at, machine, now)
    }

    /// Leaves the client in this place. Where the end of the run was answered there, that is done.
    pub(crate) fn leave(&mut self, at: usize)
        ensures held { StayHeldBut L.Client.did at self.old self.new }
        ensures plays { PlayOn M.agrees L.Client.did self.old self.new }
        ensures waiting { self.new.waiting ≡ self.old.waiting }
        ensures ending { self.new.ending ≡ ending_without at self.old.ending }
        ensures stay { StayVisitors self.old self.new }
    {
        let now = self.poller.now();
        self.clients.leave(at, now);
        self.ending = ending_without(at, self.ending);
    }

    /// Nobody is taken any more: those who are left are read to the end, for a while.
    pub(crate) fn end_all<K: LineSink>(&mut self, sink: &mut K) -> Result<(), K::Fault>
        ensures { self.new.listener ≡ self.old.listener }
    {
        let mut room = [0; READ_SIZE];
        self.clients.end(&mut self.poller, sink, &mut room)
    }
}

/// How far the end of the run has come where the client in this place asks for it.
fn ending_with(at: usize, ending: Ending) -> Ending
    ensures { result ≡ ending_with at ending }
{
    match ending {
        Ending::NotAsked => Ending::Answering(at),
        Ending::Answering(_) | Ending::Answered => ending,
    }
}

/// How far it has come where the client in this place is left.
fn ending_without(at: usize, ending: Ending) -> Ending
    ensures { result ≡ ending_without at ending }
{
    match ending {
        Ending::Answering(other) => {
            if other == at {
                Ending::Answered
            } else {
                ending
            }
        }
        Ending::NotAsked | Ending::Answered => ending,
    }
}
