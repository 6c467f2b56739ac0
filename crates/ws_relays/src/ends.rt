//! The ends of connections, each in a place of one loop: an end is asked for something, and one thing that happened at
//! it is told.

ghost use Rattle.std.specs.Prelude.{◌≡◌, ◌<◌, [], false, true, length, None, Some, IfOk, IfSome, MatchOption, OnOk};
ghost use Rattle.std.specs.Prelude.{slice_get, slice_set};
ghost use Rattle.ws_relays.specs.EndPlaces.{AreFreeEnds, AskedEnd, AsksNothing, AsksSome, AwaitedPlace, FreePlace};
ghost use Rattle.ws_relays.specs.EndPlaces.{GoOn, HasComeAmong, HasEndAt, HasHeardThen, HeldEnd, IsAskedNow, KeptPlace};
ghost use Rattle.ws_relays.specs.EndPlaces.{IsRestAt, heard_by, resting};
ghost use Rattle.ws_relays.specs.Onces.{wanted_once};
ghost use Rattle.ws_relays.specs.declared.ends.Beside.TheVariants.{Nothing};
ghost use Rattle.ws_relays.specs.declared.ends.EndEvent.TheVariants.{Stirred};

use crate::once::{Happened, Once};
use std::alloc::Global;
use std::marker::Model;
use std::mem;
use ws_base::NoMemory;
use ws_loops::{
    Arrival, Listener, Loop, LoopFault, NoLines, NonBlocking, Pace, Place, Poller, Slot, Watch,
};
use ws_machines::Machine;

/// A place that is kept: nothing is waited for there.
const KEPT: Watch = Watch {
    until: None,
    stirred: false,
};

/// What is asked of an end: these bytes are to be written to it, at most so many are to be read from it, its direction
/// is to be ended.
#[derive(Drop)]
pub(crate) struct Ask {
    pub(crate) bytes: Vec<u8>,
    pub(crate) room: usize,
    pub(crate) ends: bool,
}

/// What has happened among ends.
#[derive(Drop)]
pub(crate) enum EndEvent<S, W> {
    /// This, at the end in this place. Nothing is asked of it then.
    Happened(usize, Happened),
    /// The connection that is under way for this place is to be asked for.
    Stirred(usize),
    /// A client has come, for this place, which is kept for it.
    Client(usize, S),
    /// No client can be taken for now.
    Full(W),
}

/// What there is beside a place of the loop that is kept.
#[derive(Drop)]
pub(crate) enum Beside<S> {
    /// Nothing.
    Nothing,
    /// A connection is under way for it.
    UnderWay,
    /// The stream of an end of which nothing is asked.
    Held(S, Pace),
}

/// The ends of connections, each in its place. Contracts see what stands in each.
#[derive(Drop)]
pub(crate) struct Ends<S> {
    alloc: Global,
    all: Loop<Once, S>,
    beside: Vec<Beside<S>>,
}

impl<S> Model for Ends<S> {
    ghost use Rattle.std.specs.Prelude.{◌≡◌, List, length};
    ghost use Rattle.ws_relays.specs.EndPlaces.{EndThere, ends_there};

    ghost Value = { List (EndThere S) };

    ghost view = { λ x. ends_there x.all.places x.beside.items };

    ghost invariant = { λ x. length x.beside.items ≡ length x.all.places };
}

impl<S: NonBlocking + Drop> Ends<S> {
    /// So many places, all of them free.
    pub(crate) fn new(alloc: Global, len: usize) -> Result<Ends<S>, NoMemory>
        ensures free { IfOk result (AreFreeEnds len) }
    {
        let all = Loop::new(alloc, len)?;
        let mut beside = Vec::new(alloc);
        while beside.len() < len {
            beside.push(Beside::Nothing)?;
        }
        Ok(Ends { alloc, all, beside })
    }

    /// Keeps a place, in which no end is: no client is taken for it.
    pub(crate) fn keep(&mut self, at: usize)
        requires none { HasEndAt self.old at false }
        ensures kept { self.new ≡ slice_set self.old at KeptPlace }
    {
        self.rest(at, Beside::Nothing);
    }

    /// A connection is under way for this place, in which no end is: it is to be asked for once it is stirred.
    pub(crate) fn await_connection(&mut self, at: usize)
        requires none { HasEndAt self.old at false }
        ensures awaited { self.new ≡ slice_set self.old at AwaitedPlace }
    {
        self.rest(at, Beside::UnderWay);
    }

    /// An end comes into a place in which none is: nothing is asked of it.
    pub(crate) fn put(&mut self, at: usize, stream: S, now: u64)
        requires none { HasEndAt self.old at false }
        ensures held { self.new ≡ slice_set self.old at (HeldEnd stream) }
    {
        self.rest(at, Beside::Held(stream, Pace::begun(now, None, None)));
    }

    /// An end leaves its place, which is kept: its stream is closed.
    pub(crate) fn close(&mut self, at: usize)
        requires { at < length self.old }
        ensures kept { self.new ≡ slice_set self.old at KeptPlace }
    {
        let _ = self.all.lift(at);
        self.rest(at, Beside::Nothing);
    }

    /// The same, but a client may be taken for the place.
    pub(crate) fn free(&mut self, at: usize)
        requires { at < length self.old }
        ensures free { self.new ≡ slice_set self.old at FreePlace }
    {
        let _ = self.all.take(at);
        self.beside[at] = Beside::Nothing;
    }

    /// This is beside a place in which no slot stands.
    fn rest(&mut self, at: usize, beside: Beside<S>)
        requires slotless { IsRestAt self.old at }
        ensures rests { self.new ≡ slice_set self.old at (resting beside) }
    {
        self.beside[at] = beside;
        self.all.watch(at, KEPT);
    }

    /// This is asked of the end in this place, in place of what was asked before. One at which something has happened
    /// is told first, and stays as it is until then.
    pub(crate) fn ask(&mut self, at: usize, ask: Ask) -> Result<(), NoMemory>
        requires there { HasEndAt self.old at true }
        ensures asked { OnOk result (IsAskedNow S.did self.old self.new at ask) }
    {
        match self.all.lift(at) {
            Place::Open(slot) => {
                if slot.machine.is_done() {
                    self.all.open(at, slot);
                    return Ok(());
                }
                let Slot { stream, pace, .. } = slot;
                self.ask_held(at, stream, pace, ask);
                Ok(())
            }
            Place::Pending(_) => match taken_from(&mut self.beside, at) {
                Beside::Held(stream, pace) => {
                    self.ask_held(at, stream, pace, ask);
                    Ok(())
                }
                Beside::Nothing | Beside::UnderWay => Err(NoMemory),
            },
            Place::Empty | Place::Broken => Err(NoMemory),
        }
    }

    /// This is asked of an end that is taken out of this place.
    fn ask_held(&mut self, at: usize, stream: S, pace: Pace, ask: Ask)
        requires free { slice_get self.old at ≡ Some FreePlace }
        ensures asked { IsAskedNow S.did (slice_set self.old at (HeldEnd stream)) self.new at ask }
    {
        if ask.is_nothing() {
            self.rest(at, Beside::Held(stream, pace));
            return;
        }
        let Ask { bytes, room, ends } = ask;
        let pace = Pace {
            limit: None,
            deadline: None,
            ..pace
        };
        self.all.open(
            at,
            Slot {
                machine: Once::new(self.alloc, bytes, room, ends),
                stream,
                pace,
            },
        );
    }

    /// Waits until something has happened.
    pub(crate) fn next<L: Listener<Client = S>, P: Poller>(
        &mut self,
        listener: &mut L,
        poller: &mut P,
        room: &mut [u8],
    ) -> Result<EndEvent<S, L::Miss>, LoopFault>
        requires room { 0 < length room.old }
        ensures came { IfOk result (HasComeAmong S.did self.old self.new) }
        ensures heard { IfOk result (λ came. HasHeardThen L.did listener.old listener.new (heard_by came)) }
    {
        let mut left = u64::MAX;
        while left > 0 {
            left -= 1;
            let came = self.wait(listener, poller, room)?;
            if let Some(came) = came {
                return Ok(came);
            }
        }
        Err(LoopFault::WaitFailed)
    }

    /// Waits until something arrives. Answers what has happened, if something has.
    fn wait<L: Listener<Client = S>, P: Poller>(
        &mut self,
        listener: &mut L,
        poller: &mut P,
        room: &mut [u8],
    ) -> Result<Option<EndEvent<S, L::Miss>>, LoopFault>
        requires room { 0 < length room.old }
        ensures came { IfOk result (λ came. MatchOption came (GoOn S.did self.old self.new)
            (HasComeAmong S.did self.old self.new)) }
        ensures heard { IfOk result (λ came. MatchOption came (HasHeardThen L.did listener.old listener.new [])
            (λ came. HasHeardThen L.did listener.old listener.new (heard_by came))) }
    {
        let arrival = self
            .all
            .run_listening(poller, &mut NoLines, listener, None, room)?;
        match arrival {
            Arrival::Ended(at) => {
                let came = self.ended(at)?;
                Ok(came)
            }
            Arrival::Client(at, stream) => {
                self.keep(at);
                Ok(Some(EndEvent::Client(at, stream)))
            }
            Arrival::NotAccepted(why) => Ok(Some(EndEvent::Full(why))),
            Arrival::Lost(_) => Ok(None),
            Arrival::TooLate => Ok(None),
        }
    }

    /// What went on in this place has ended.
    fn ended<W>(&mut self, at: usize) -> Result<Option<EndEvent<S, W>>, NoMemory>
        requires at { at < length self.old }
        requires over { (slot : _) → slice_get self.old at ≡ Some (AskedEnd slot) →
            (wanted_once slot.machine).done ≡ true }
        ensures came { IfOk result (λ came. MatchOption came (GoOn S.did self.old self.new)
            (HasComeAmong S.did self.old self.new)) }
        ensures unheard { IfOk result (λ came. IfSome came (λ came. heard_by came ≡ [])) }
    {
        match self.all.lift(at) {
            Place::Open(slot) => {
                let Slot {
                    machine,
                    stream,
                    pace,
                } = slot;
                self.rest(at, Beside::Held(stream, pace));
                let happened = machine.into_end()?;
                Ok(Some(EndEvent::Happened(at, happened)))
            }
            Place::Pending(_) => {
                let beside = taken_from(&mut self.beside, at);
                Ok(self.stirred(at, beside))
            }
            Place::Empty | Place::Broken => Err(NoMemory),
        }
    }

    /// What was waited for in this place was stirred: a connection that is under way; or an end of which nothing is
    /// asked, and which was found ready.
    fn stirred<W>(&mut self, at: usize, beside: Beside<S>) -> Option<EndEvent<S, W>>
        requires lifted { slice_get self.old at ≡ Some FreePlace }
        ensures rests { self.new ≡ slice_set self.old at (resting beside) }
        ensures stirred { IfSome result (λ came. (came ≡ Stirred at) × (resting beside ≡ AwaitedPlace)) }
    {
        match beside {
            Beside::Nothing => {
                self.rest(at, Beside::Nothing);
                None
            }
            Beside::UnderWay => {
                self.rest(at, Beside::UnderWay);
                Some(EndEvent::Stirred(at))
            }
            Beside::Held(stream, pace) => {
                let pace = Pace {
                    idle: None,
                    full: None,
                    ..pace
                };
                self.rest(at, Beside::Held(stream, pace));
                None
            }
        }
    }
}

impl Ask {
    /// Whether nothing is.
    fn is_nothing(&self) -> bool
        ensures nothing { result ≡ true → AsksNothing self.now }
        ensures some { result ≡ false → AsksSome self.now }
    {
        self.bytes.is_empty() && self.room == 0 && !self.ends
    }
}

/// What there is beside this place: nothing, then.
fn taken_from<S: Drop>(all: &mut Vec<Beside<S>>, at: usize) -> Beside<S>
    requires { at < length all.old.items }
    ensures taken { slice_get all.old.items at ≡ Some result }
    ensures nothing { all.new.items ≡ slice_set all.old.items at Nothing }
{
    mem::replace(&mut all[at], Beside::Nothing)
}
