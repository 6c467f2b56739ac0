//! Cases that are under way, and those that wait to be told of, the oldest first.

ghost use Rattle.std.specs.Prelude.{◌≡◌, ◌⊎◌, ◌+◌, ◌<◌, ◌≤◌, [], IfOk, IfSome, None, OnOk, Some, false, length, map};
ghost use Rattle.std.specs.Prelude.{slice_get, true};
ghost use Rattle.ws_frame.specs.Devices.{watched};
ghost use Rattle.ws_handshake.specs.Probes.{WasProbed, wanted_of};
ghost use Rattle.ws_machines.specs.Machines.{HasNext};
ghost use Rattle.ws_networks.specs.NetworkLoops.Standing.{Free};
ghost use Rattle.ws_connection.specs.Probing.{BeginsProbe, bytes_by_turn};
ghost use Rattle.wst_errands.specs.Errands.{HasItsPlaces, count_under_way, is_stage_over};
ghost use Rattle.wst_testing.specs.Runner.{AwaitsCase, RunsEach};
ghost use Rattle.wst_testing.specs.Servers.{MeetsAtAddress, plan_at};
ghost use Rattle.wst_at_once.specs.Crowds.{AreUnderWay, BeginsNext, HasConnectedFor, IsMeetingOf, IsNewLine};
ghost use Rattle.wst_at_once.specs.Crowds.{TellsOldest};

use std::alloc::Global;
use std::cell::Cell;
use std::collections::VecDeque;
use std::net::SocketAddr;
use std::slice;
use ws_base::NoMemory;
use ws_frame::Watched;
use ws_handshake::{Probe, ProbeMachine};
use ws_loops::Poller;
use ws_networks::{Attempt, Missed, Network as Dialing};
use ws_suite::Case;
use wst_errands::{Came, Errands};
use wst_network::{ConnectMiss, Connector};
use wst_sockets::{ConnectFault, Meeting, Network, Running};
use wst_testing::{
    AddressServer, CaseSource, HasCase, RunStop, Sink, TellingPoller, meeting_of, tell_progress,
    without_connection,
};

/// At most so many bytes are read at once.
const ROOM: usize = 65_536;

/// For each connection that may go on so many cases wait at most to be told of: while one hangs, others go on.
const AHEAD: usize = 16;

/// Over which server cases are run, and how.
#[derive(Drop)]
pub(crate) struct Terms<'s, 'a, N, C> {
    pub(crate) server: &'s AddressServer<'a, N, C>,
    /// So many connections go on at a time.
    pub(crate) most: usize,
    /// The name of each case is told as it begins.
    pub(crate) progress: bool,
    /// The masking key of the client's frames.
    pub(crate) key: [u8; 4],
}

/// Cases over one server, in the order of their source: those that were begun and are not told of.
#[derive(Drop)]
pub(crate) struct Crowd<'s, 'a, N, C: Connector, S: CaseSource> {
    alloc: Global,
    pub(crate) terms: Terms<'s, 'a, N, C>,
    network: C::Network,
    /// The addresses of the server, once they were found.
    addresses: Option<Vec<SocketAddr>>,
    pub(crate) errands: Errands<ProbeMachine<'a>, SocketAddr, C::Stream, ConnectMiss>,
    /// What is run, beside what has come of it.
    pub(crate) items: VecDeque<S::Kept>,
    pub(crate) room: Vec<u8>,
}

impl<'s, 'a, N: Network, C: Connector, S: CaseSource> Crowd<'s, 'a, N, C, S> {
    /// None was begun.
    pub(crate) fn new(
        alloc: Global,
        terms: Terms<'s, 'a, N, C>,
        network: C::Network,
    ) -> Result<Crowd<'s, 'a, N, C, S>, NoMemory>
        ensures terms { IfOk result (λ made. made.terms ≡ terms.entry) }
        ensures errands { IfOk result (λ made. IsNewLine terms.entry.most made.errands) }
        ensures items { IfOk result (λ made. made.items.items ≡ []) }
        ensures room { IfOk result (λ made. 0 < length made.room.items) }
    {
        let errands = Errands::new(alloc, terms.most)?;
        let room = vec![in alloc; 0; ROOM]?;
        Ok(Crowd {
            alloc,
            terms,
            network,
            addresses: None,
            errands,
            items: VecDeque::new(alloc),
            room,
        })
    }

    /// Runs all that a source gives, and tells the sink of each in their order. As long as the oldest is under way
    /// others are begun, as many as can be.
    pub(crate) fn run<K: Sink<Item = S::Item>>(
        &mut self,
        poller: C::Poller,
        source: &mut S,
        sink: &mut K,
    ) -> Result<(), RunStop>
        requires some { 0 < self.old.terms.most }
        requires errands { IsNewLine self.old.terms.most self.old.errands }
        requires items { self.old.items.items ≡ [] }
        requires room { 0 < length self.old.room.items }
        requires unused { S.gave source.old source.old [] }
        requires fresh { K.heard sink.old sink.old [] None }
        ensures runs { RunsEach S.Item.case_of (MeetsAtAddress self.old.terms.server.now self.old.terms.key) S.gave
            S.gave_all K.heard K.stopped source.old sink.old sink.new result }
        ensures borrows { K.borrows sink.new ≡ K.borrows sink.old }
    {
        let mut poller = poller;
        let mut more = true;
        while self.goes_on(more) {
            if self.errands.is_first_over() {
                self.tell(sink)?;
            } else {
                match self.free_place(more) {
                    Some(at) => more = self.begin(&mut poller, source, at)?,
                    None => poller = self.wait(poller)?,
                }
            }
        }
        Ok(())
    }

    /// Whether one may be begun yet, or is to be told of.
    fn goes_on(&self, more: bool) -> bool
        ensures on { result ≡ true → (more ≡ true) ⊎ (0 < length self.now.items.items) }
        ensures off { result ≡ false → (more ≡ false) × (length self.now.items.items ≡ 0) }
    {
        more || !self.items.is_empty()
    }

    /// A place for one more case, where there may be more and one more may be begun.
    fn free_place(&mut self, more: bool) -> Option<usize>
        requires places { HasItsPlaces self.old.errands }
        requires some { (0 < self.old.terms.most) × (self.old.errands.at_once ≡ self.old.terms.most) }
        ensures free { IfSome result (λ at. (more ≡ true)
            × (slice_get self.old.errands.standings at ≡ Some Free)) }
        ensures busy { result ≡ None → more ≡ true → length self.old.items.items ≡ 0
            → 0 < count_under_way self.old.errands.line }
        ensures same { self.new ≡ self.old }
    {
        if more && self.items.len() < AHEAD.saturating_mul(self.terms.most) {
            self.errands.free_place()
        } else {
            None
        }
    }

    /// Begins the next case that a source gives, in this place, and answers whether it gave one.
    fn begin(&mut self, poller: &mut C::Poller, source: &mut S, at: usize) -> Result<bool, NoMemory>
        requires free { slice_get self.old.errands.standings at ≡ Some Free }
        requires under_way { AreUnderWay C.Stream.did S.Item.case_of S.kept_item
            self.old.terms.server.now self.old.terms.key self.old.errands self.old.items.items
            (C.Poller.time poller.old) }
        ensures begins { IfOk result (BeginsNext S.gave S.gave_all S.left S.Item.case_of source.old source.new
            (map S.kept_item self.old.items.items) (map S.kept_item self.new.items.items)) }
        ensures under_way { OnOk result (AreUnderWay C.Stream.did S.Item.case_of S.kept_item
            self.new.terms.server.now self.new.terms.key self.new.errands self.new.items.items
            (C.Poller.time poller.new)) }
        ensures more { OnOk result (count_under_way self.new.errands.line + length self.old.items.items
            ≤ count_under_way self.old.errands.line + length self.new.items.items) }
        ensures terms { self.new.terms ≡ self.old.terms }
        ensures at_once { self.new.errands.at_once ≡ self.old.errands.at_once }
        ensures room { length self.new.room.items ≡ length self.old.room.items }
    {
        if !source.advance(self.alloc)? {
            return Ok(false);
        }
        let item = source.keep();
        let case = S::kept(&item).case();
        self.tell_begun(case)?;
        let found = self.find()?;
        let machine = self.terms.server.probe(self.alloc, case, self.terms.key)?;
        self.connect(poller, found, machine, at)?;
        self.items.push_back(item)?;
        Ok(true)
    }

    /// Tells the name of a case that begins, where that is asked for.
    fn tell_begun(&self, case: &Case) -> Result<(), NoMemory> {
        let mut notices = Watched::new(self.terms.server.notices());
        tell_progress(self.alloc, self.terms.progress, case, &mut notices)
    }

    /// Begins a connection to an address of the server over which this machine is to be run, in this place; or none,
    /// where no address was found.
    fn connect(
        &mut self,
        poller: &mut C::Poller,
        found: Result<Vec<SocketAddr>, ConnectMiss>,
        machine: ProbeMachine<'a>,
        at: usize,
    ) -> Result<(), NoMemory>
        requires free { slice_get self.old.errands.standings at ≡ Some Free }
        requires untold { WasProbed machine machine [] }
        requires goes_on { HasNext (wanted_of machine) }
        ensures connects { OnOk result (HasConnectedFor C.Stream.did self.old.terms.server.now self.old.errands
            self.new.errands (C.Poller.time poller.old) (C.Poller.time poller.new) machine.entry) }
        ensures items { self.new.items ≡ self.old.items }
        ensures terms { self.new.terms ≡ self.old.terms }
        ensures at_once { self.new.errands.at_once ≡ self.old.errands.at_once }
        ensures room { length self.new.room.items ≡ length self.old.room.items }
    {
        let now = poller.now();
        match found {
            Ok(addresses) => {
                let attempt = Attempt {
                    addresses,
                    bounds: self.terms.server.limits().from(now),
                    machine,
                };
                self.errands.begin(&mut self.network, at, attempt, now)
            }
            Err(why) => self.errands.miss(Missed::Failed(why)),
        }
    }

    /// The addresses of the server. They are looked up once in a run, or again where that has failed.
    fn find(&mut self) -> Result<Result<Vec<SocketAddr>, ConnectMiss>, NoMemory>
        ensures errands { self.new.errands ≡ self.old.errands }
        ensures items { self.new.items ≡ self.old.items }
        ensures terms { self.new.terms ≡ self.old.terms }
        ensures room { length self.new.room.items ≡ length self.old.room.items }
    {
        if let Some(found) = &self.addresses {
            return Ok(Ok(found.as_slice().to_vec(self.alloc)?));
        }
        match self
            .network
            .look_up(self.alloc, self.terms.server.address())
        {
            Ok(found) => {
                let addresses = found.as_slice().to_vec(self.alloc)?;
                self.addresses = Some(found);
                Ok(Ok(addresses))
            }
            Err(why) => Ok(Err(why)),
        }
    }

    /// Serves all until one more case is over. It is told of the oldest that it waits, where a wait is to be told.
    fn wait(&mut self, poller: C::Poller) -> Result<C::Poller, NoMemory>
        requires waits { 0 < count_under_way self.old.errands.line }
        requires room { 0 < length self.old.room.items }
        requires under_way { AreUnderWay C.Stream.did S.Item.case_of S.kept_item
            self.old.terms.server.now self.old.terms.key self.old.errands self.old.items.items
            (C.Poller.time poller) }
        ensures under_way { IfOk result (λ after. AreUnderWay C.Stream.did S.Item.case_of S.kept_item
            self.new.terms.server.now self.new.terms.key self.new.errands self.new.items.items
            (C.Poller.time after)) }
        ensures fewer { OnOk result (count_under_way self.new.errands.line < count_under_way self.old.errands.line) }
        ensures items { self.new.items ≡ self.old.items }
        ensures terms { self.new.terms ≡ self.old.terms }
        ensures at_once { self.new.errands.at_once ≡ self.old.errands.at_once }
        ensures room { length self.new.room.items ≡ length self.old.room.items }
    {
        let Some(oldest) = self.items.front() else {
            unreachable!();
        };
        let server = self.terms.server;
        let number = Cell::new(Some(1));
        let running = Running {
            cases: slice::from_ref(S::kept(oldest).case()),
            number: &number,
        };
        let teller = server.teller(self.alloc, running);
        let mut telling = TellingPoller::of(poller, teller);
        self.errands
            .run(&mut self.network, &mut telling, self.room.as_mut_slice())?;
        Ok(telling.into_poller())
    }

    /// Tells the sink of the oldest case, which is over.
    fn tell<K: Sink<Item = S::Item>>(&mut self, sink: &mut K) -> Result<(), RunStop>
        requires over { is_stage_over (slice_get self.old.errands.line 0) ≡ true }
        requires under_way { (now : _) × AreUnderWay C.Stream.did S.Item.case_of S.kept_item
            self.old.terms.server.now self.old.terms.key self.old.errands self.old.items.items now }
        requires awaits { AwaitsCase K.heard sink.old }
        ensures tells { TellsOldest S.Item.case_of (MeetsAtAddress self.old.terms.server.now self.old.terms.key)
            K.heard K.stopped sink.old sink.new (map S.kept_item self.old.items.items)
            (map S.kept_item self.new.items.items) result }
        ensures under_way { (now : _) → AreUnderWay C.Stream.did S.Item.case_of S.kept_item
            self.old.terms.server.now self.old.terms.key self.old.errands self.old.items.items now
            → AreUnderWay C.Stream.did S.Item.case_of S.kept_item self.new.terms.server.now self.new.terms.key
            self.new.errands self.new.items.items now }
        ensures many { count_under_way self.new.errands.line ≡ count_under_way self.old.errands.line }
        ensures terms { self.new.terms ≡ self.old.terms }
        ensures at_once { self.new.errands.at_once ≡ self.old.errands.at_once }
        ensures room { length self.new.room.items ≡ length self.old.room.items }
        ensures borrows { K.borrows sink.new ≡ K.borrows sink.old }
    {
        let came = self.errands.take_first();
        let Some(item) = self.items.pop_front() else {
            unreachable!();
        };
        let meeting = meeting_by(came)?;
        let item = S::kept(&item);
        sink.begins(self.alloc, item)?;
        sink.came(self.alloc, item, meeting)
    }
}

/// What came of a case, where this came of its machine. Where nothing could be waited for, there is no connection.
fn meeting_by(came: Came<Probe, ConnectMiss>) -> Result<Meeting, NoMemory>
    ensures { IfOk result (IsMeetingOf came) }
{
    match came {
        Came::Ended(probe, end) => Ok(meeting_of(probe, end)),
        Came::NotMade(why) => without_connection(why),
        Came::GivenUp => Ok(Meeting::NoConnection(ConnectFault::Failed)),
    }
}
