//! Errands that are under way, and those that are over and not handed out yet, in one line: the oldest stands first.

ghost use Rattle.std.specs.Prelude.{◌≡◌, ◌+◌, ◌<◌, ◌≤◌, ◌∷◌, ◌++◌, [], length, IfOk, OnOk, MatchOption, Some, None};
ghost use Rattle.std.specs.Prelude.{◌↔◌, slice_get, slice_set, true};
ghost use Rattle.ws_machines.specs.Machines.{HasNext};
ghost use Rattle.ws_networks.specs.NetworkLoops.{AreFree, IsStandingOver, NoneIsFree};
ghost use Rattle.ws_networks.specs.NetworkLoops.Standing.{Free};
ghost use Rattle.wst_errands.specs.Errands.{AreGivenUp, HasEndedIn, HasItsPlaces, IsCameOf, IsInLine};
ghost use Rattle.wst_errands.specs.Errands.{IsLineSound, IsNotedAt, IsTakenOver, KeepsLine, IsErrandAt};
ghost use Rattle.wst_errands.specs.Errands.{count_under_way, given_up, is_stage_over, is_under_way};
ghost use Rattle.wst_errands.specs.declared.errands.Came.TheVariants as Came;
ghost use Rattle.wst_errands.specs.declared.errands.Stage.TheVariants as Stage;

use std::alloc::Global;
use std::collections::VecDeque;
use std::marker::Model;
use ws_base::NoMemory;
use ws_loops::{Ending, LoopFault, NoLines, NonBlocking, Poller, Slot};
use ws_machines::Machine;
use ws_networks::{Attempt, Missed, Network, NetworkLoop, Taken};
use wst_network::{EndingStream, StreamEnd};

/// What came of an errand.
#[derive(Drop)]
pub enum Came<E, W> {
    /// Its machine was run until it was done: what came of it, and how its stream had ended by then.
    Ended(E, StreamEnd),
    /// No connection was made for it, for this reason.
    NotMade(Missed<W>),
    /// Nothing could be waited for, and it was given up.
    GivenUp,
}

/// How far an errand has come.
#[derive(Drop)]
pub enum Stage<E, W> {
    /// It is under way in this place of the loop.
    UnderWay(usize),
    /// It is over, and this came of it.
    Over(Came<E, W>),
}

/// Errands over one network. So many are under way at a time as there are places. A stream is closed as soon as its
/// errand is over. Contracts see how the places stand, and how far each errand has come.
#[derive(Drop)]
pub struct Errands<M: Machine, A, S: NonBlocking, W> {
    alloc: Global,
    /// So many are under way at a time.
    at_once: usize,
    all: NetworkLoop<M, A, S, W>,
    line: VecDeque<Stage<M::End, W>>,
}

impl<M: Machine, A, S: NonBlocking, W> Model for Errands<M, A, S, W> {
    ghost use Rattle.wst_errands.specs.Errands.{ErrandsValue, IsLineSound};

    ghost Value = { ErrandsValue M A S W M.End };

    ghost view = { λ x. record { at_once = x.at_once; standings = x.all.standings; line = x.line.items } };

    ghost invariant = { λ x. IsLineSound x.all.standings x.line.items };
}

impl<M: Machine + Drop, A: Copy, S: EndingStream + Drop, W: Copy> Errands<M, A, S, W>
where
    M::End: Drop,
{
    /// None was begun, and so many can be under way at a time.
    pub fn new(alloc: Global, at_once: usize) -> Result<Errands<M, A, S, W>, NoMemory>
        ensures places { IfOk result HasItsPlaces }
        ensures at_once { IfOk result (λ made. made.at_once ≡ at_once) }
        ensures none { IfOk result (λ made. made.line ≡ []) }
    {
        let all = NetworkLoop::new(alloc, at_once)?;
        let line = VecDeque::new(alloc);
        Ok(Errands {
            alloc,
            at_once,
            all,
            line,
        })
    }

    /// A place in which none is under way, if there is one.
    pub fn free_place(&mut self) -> Option<usize>
        requires { HasItsPlaces self.old }
        ensures free { MatchOption result (NoneIsFree self.old.standings)
            (λ at. slice_get self.old.standings at ≡ Some Free) }
        ensures busy { result ≡ None → 0 < self.old.at_once → 0 < count_under_way self.old.line }
        ensures same { self.new ≡ self.old }
    {
        self.all.free_place()
    }

    /// Begins one in a place in which none is under way. It stands last.
    pub fn begin<N: Network<Address = A, Stream = S, Miss = W>>(
        &mut self,
        network: &mut N,
        at: usize,
        attempt: Attempt<M, A>,
        now: u64,
    ) -> Result<(), NoMemory>
        requires free { slice_get self.old.standings at ≡ Some Free }
        requires untold { M.agrees attempt.machine attempt.machine [] }
        requires goes_on { HasNext (M.wants attempt.machine) }
        ensures begun { OnOk result (IsErrandAt M.agrees M.wants M.gives S.did self.new (length self.old.line)
            attempt.machine attempt.bounds now now) }
        ensures len { OnOk result (length self.new.line ≡ length self.old.line + 1) }
        ensures others { (time : _) → OnOk result (KeepsLine M.agrees M.wants M.gives S.did time time self.old
            self.new) }
        ensures more { OnOk result (count_under_way self.new.line ≡ count_under_way self.old.line + 1) }
        ensures places { length self.new.standings ≡ length self.old.standings }
        ensures at_once { self.new.at_once ≡ self.old.at_once }
    {
        self.line.push_back(Stage::UnderWay(at))?;
        self.all.connect(network, at, attempt, now);
        Ok(())
    }

    /// One for which no connection can be begun, for this reason, stands last.
    pub fn miss(&mut self, why: Missed<W>) -> Result<(), NoMemory>
        ensures last { OnOk result (self.new.line ≡ self.old.line ++ Stage.Over (Came.NotMade why) ∷ []) }
        ensures standings { self.new.standings ≡ self.old.standings }
        ensures at_once { self.new.at_once ≡ self.old.at_once }
    {
        self.line.push_back(Stage::Over(Came::NotMade(why)))?;
        Ok(())
    }

    /// Whether the first one is over.
    pub fn is_first_over(&self) -> bool
        ensures { result ≡ is_stage_over (slice_get self.now.line 0) }
    {
        match self.line.front() {
            Some(Stage::Over(_)) => true,
            Some(Stage::UnderWay(_)) | None => false,
        }
    }

    /// Hands out what came of the first one, which is over. The others move up.
    pub fn take_first(&mut self) -> Came<M::End, W>
        requires { is_stage_over (slice_get self.old.line 0) ≡ true }
        ensures first { self.old.line ≡ Stage.Over result ∷ self.new.line }
        ensures standings { self.new.standings ≡ self.old.standings }
        ensures at_once { self.new.at_once ≡ self.old.at_once }
    {
        match self.line.pop_front() {
            Some(Stage::Over(came)) => came,
            Some(Stage::UnderWay(_)) | None => unreachable!(),
        }
    }

    /// Serves all until one more of them is over. Where nothing can be waited for, all are given up.
    pub fn run<N: Network<Address = A, Stream = S, Miss = W>, P: Poller>(
        &mut self,
        network: &mut N,
        poller: &mut P,
        room: &mut [u8],
    ) -> Result<(), NoMemory>
        requires room { 0 < length room.old }
        requires waits { 0 < count_under_way self.old.line }
        requires places { HasItsPlaces self.old }
        ensures keeps { OnOk result (KeepsLine M.agrees M.wants M.gives S.did (P.time poller.old) (P.time poller.new)
            self.old self.new) }
        ensures len { length self.new.line ≡ length self.old.line }
        ensures fewer { OnOk result (count_under_way self.new.line < count_under_way self.old.line) }
        ensures places { OnOk result (HasItsPlaces self.new) }
        ensures at_once { self.new.at_once ≡ self.old.at_once }
    {
        match self.all.run(network, poller, &mut NoLines, None, room) {
            Ok(Ending::Ended(at)) => end_at(&mut self.all, &mut self.line, at),
            Ok(Ending::TooLate) => unreachable!(),
            Ok(Ending::NoSlot) => unreachable!(),
            Err(why) => {
                give_up(&mut self.all, &mut self.line);
                match why {
                    LoopFault::NoMemory => Err(NoMemory),
                    LoopFault::WaitFailed | LoopFault::NoOutput => {
                        self.all = NetworkLoop::new(self.alloc, self.at_once)?;
                        Ok(())
                    }
                }
            }
        }
    }
}

/// The errand that was under way in this place is over. Where memory runs out, all are given up.
fn end_at<M: Machine + Drop, A: Copy, S: EndingStream + Drop, W: Copy>(
    all: &mut NetworkLoop<M, A, S, W>,
    line: &mut VecDeque<Stage<M::End, W>>,
    at: usize,
) -> Result<(), NoMemory>
where
    M::End: Drop,
    requires over { IsStandingOver M.wants all.old.standings at }
    requires sound { IsLineSound all.old.standings line.old.items }
    ensures ends { OnOk result (HasEndedIn M.agrees M.wants M.gives S.did at all.old.standings all.new.standings
        line.old.items line.new.items) }
    ensures sound { IsLineSound all.new.standings line.new.items }
    ensures len { length line.new.items ≡ length line.old.items }
{
    match came_of(all.take(at)) {
        Ok(came) => {
            note(line, at, came);
            Ok(())
        }
        Err(NoMemory) => {
            give_up(all, line);
            Err(NoMemory)
        }
    }
}

/// What came of an errand, by what stood in its place. Its stream is closed.
fn came_of<M: Machine + Drop, S: EndingStream + Drop, W: Copy>(
    taken: Taken<M, S, W>,
) -> Result<Came<M::End, W>, NoMemory>
    requires { IsTakenOver M.wants taken }
    ensures { IfOk result (IsCameOf M.agrees M.wants M.gives S.did taken) }
{
    match taken {
        Taken::Slot(slot) => {
            let Slot {
                machine,
                stream,
                ..
            } = slot;
            let end = machine.into_end()?;
            Ok(Came::Ended(end, stream.stream_end()))
        }
        Taken::Missed(why) => Ok(Came::NotMade(why)),
        Taken::Broken => Err(NoMemory),
        Taken::Nothing | Taken::UnderWay => unreachable!(),
    }
}

/// The one that was under way in this place is over.
fn note<E: Drop, W: Drop>(line: &mut VecDeque<Stage<E, W>>, at: usize, came: Came<E, W>)
    requires { IsInLine line.old.items at }
    ensures { IsNotedAt at came line.old.items line.new.items }
{
    let place = place_of(line, at);
    line[place] = Stage::Over(came);
}

/// Where in the line the one stands that is under way in this place of the loop.
fn place_of<E, W>(line: &VecDeque<Stage<E, W>>, at: usize) -> usize
    requires { IsInLine line.now.items at }
    ensures { slice_get line.now.items result ≡ Some (Stage.UnderWay at) }
{
    let mut place = 0;
    while !is_in(&line[place], at) {
        place += 1;
    }
    place
}

/// Whether it is under way in this place.
fn is_in<E, W>(stage: &Stage<E, W>, at: usize) -> bool
    ensures { (result ≡ true) ↔ (stage.now ≡ Stage.UnderWay at) }
{
    match stage {
        Stage::UnderWay(place) => *place == at,
        Stage::Over(_) => false,
    }
}

/// Gives all up that are under way: nothing stands in any place.
fn give_up<M: Machine + Drop, A: Copy, S: NonBlocking + Drop, W: Copy>(
    all: &mut NetworkLoop<M, A, S, W>,
    line: &mut VecDeque<Stage<M::End, W>>,
)
where
    M::End: Drop,
    ensures free { AreFree all.new.standings }
    ensures given_up { AreGivenUp line.old.items line.new.items }
{
    leave_all(all);
    let mut place = 0;
    while place < line.len() {
        give_up_one(line, place);
        place += 1;
    }
}

/// Gives the one up that stands here in the line, if it is under way.
fn give_up_one<E: Drop, W: Drop>(line: &mut VecDeque<Stage<E, W>>, place: usize)
    requires { place < length line.old.items }
    ensures { (stage : _) → slice_get line.old.items place ≡ Some stage →
        line.new.items ≡ slice_set line.old.items place (given_up stage) }
{
    if is_going_on(&line[place]) {
        line[place] = Stage::Over(Came::GivenUp);
    }
}

/// Whether it is under way.
fn is_going_on<E, W>(stage: &Stage<E, W>) -> bool
    ensures { result ≡ is_under_way stage.now }
{
    match stage {
        Stage::UnderWay(_) => true,
        Stage::Over(_) => false,
    }
}

/// Takes what stands in any place out of it.
fn leave_all<M: Machine + Drop, A: Copy, S: NonBlocking + Drop, W: Copy>(
    all: &mut NetworkLoop<M, A, S, W>,
)
    ensures { AreFree all.new.standings }
{
    let mut at = 0;
    while at < all.len() {
        let _ = all.take(at);
        at += 1;
    }
}
