//! The loop: it waits for all streams at once, and serves each slot in which something is due.

ghost use Rattle.std.specs.Prelude.{◌≡◌, ◌<◌, ◌≤◌, length, true, false, Some, None, IfOk, IfSome, MatchOption, OnOk};
ghost use Rattle.std.specs.Prelude.{slice_get, slice_set};
ghost use Rattle.ws_loops.specs.Looping.{AreNewSeats, AreSame, IfRoundMade, IsEnding, IsSame, loop_value};
ghost use Rattle.ws_loops.specs.Loops.{AreSeatsSound, AreServedInTime, HasAll, HaveRun, IsLoopSound};
ghost use Rattle.ws_loops.specs.Places.{AreEmpty, AreOccupied, IsOverAt, IfOpen, IsFirstFree, IsFirstToEnd, KeepTurns};
ghost use Rattle.ws_loops.specs.Places.{IsSlotlessAt, StayOfKind};
ghost use Rattle.ws_loops.specs.Places.{NoneHasEnded, NoneIsOver};
ghost use Rattle.ws_loops.specs.Slots.{IsAble};
ghost use Rattle.ws_loops.specs.declared.places.Place.TheVariants.{Empty, Open, Pending};

use crate::inside::{Door, Inside, has_come, run_round};
use crate::limits::{new_limits, set_limit};
use crate::line_sink::LineSink;
use crate::non_blocking::NonBlocking;
use crate::places::{Agenda, Place, Seats, first_to_end, free_place, list_place, place_at};
use crate::poller::{Mark, Poller, Readiness, Wake};
use crate::slot::Slot;
use crate::watch::Watch;
use std::alloc::Global;
use std::marker::Model;
use std::mem;
use ws_base::NoMemory;
use ws_machines::Machine;

/// So many streams that were found ready are told by one wait at most. The others are told by the next one.
const FOUND: usize = 64;

/// A loop over so many places: in each stands a slot, or nothing. Contracts see what stands in them, the number that
/// each was given as it ended, and whether it was told that no client can be taken and nothing has ended since.
#[derive(Drop)]
pub struct Loop<M: Machine, S> {
    pub(crate) inside: Inside<M, S>,
}

impl<M: Machine, S> Model for Loop<M, S> {
    ghost use Rattle.ws_loops.specs.Looping.{LoopValue};
    ghost use Rattle.ws_loops.specs.Loops.{IsLoopSound};

    ghost Value = { LoopValue M S };

    ghost view = { λ l. record {
      places = l.inside.seats.places.items;
      tickets = l.inside.seats.tickets.items;
      deaf = l.inside.door.deaf;
    } };

    ghost invariant = { λ l. IsLoopSound M.agrees M.wants l.inside };
}

/// What has happened in a loop.
#[derive(Clone, Copy)]
pub enum Ending {
    /// What went on in this place has ended: its machine is done, memory ran out for it, or the connection that is
    /// under way for it was stirred. It ended first of those that were not taken.
    Ended(usize),
    /// The time has come until which one was waited for.
    TooLate,
    /// There is no slot.
    NoSlot,
}

impl<M: Machine + Drop, S: NonBlocking + Drop> Loop<M, S> {
    /// So many places, all of them empty.
    pub fn new(alloc: Global, len: usize) -> Result<Loop<M, S>, NoMemory>
        ensures len { IfOk result (λ made. length made.places ≡ len) }
        ensures empty { IfOk result (λ made. AreEmpty made.places) }
        ensures none { IfOk result (λ made. NoneHasEnded made.tickets) }
        ensures deaf { IfOk result (λ made. made.deaf ≡ false) }
    {
        let inside = new_inside(alloc, len)?;
        Ok(Loop { inside })
    }

    /// How many places there are.
    pub fn len(&self) -> usize
        ensures { result ≡ length self.now.places }
    {
        self.inside.seats.places.len()
    }

    /// The first place that is empty, if one is.
    pub fn free_place(&mut self) -> Option<usize>
        ensures free { MatchOption result (AreOccupied self.new.places (length self.new.places))
            (λ at. IsFirstFree self.new.places at × (slice_get self.new.places at ≡ Some Empty)) }
        ensures same { self.new ≡ self.old }
    {
        free_inside(&mut self.inside)
    }

    /// Puts a slot into a place that is empty.
    pub fn put(&mut self, at: usize, slot: Slot<M, S>)
        requires empty { slice_get self.old.places at ≡ Some Empty }
        requires able { IsAble M.agrees M.wants slot.machine }
        ensures put { self.new.places ≡ slice_set self.old.places at (Open slot) }
        ensures turns { KeepTurns self.old.tickets self.new.tickets }
        ensures deaf { self.new.deaf ≡ self.old.deaf }
    {
        put_inside(&mut self.inside, at, slot);
    }

    /// A connection is under way for a place in which no slot stands. Where one was before, it is another one, or is
    /// waited for anew.
    pub fn watch(&mut self, at: usize, watch: Watch)
        requires slotless { IsSlotlessAt self.old.places at }
        ensures watched { self.new.places ≡ slice_set self.old.places at (Pending watch) }
        ensures turns { KeepTurns (slice_set self.old.tickets at None) self.new.tickets }
        ensures unnumbered { slice_get self.old.places at ≡ Some Empty →
            slice_get self.old.tickets at ≡ Some None }
        ensures deaf { self.new.deaf ≡ self.old.deaf }
    {
        watch_anew(&mut self.inside, at, watch);
    }

    /// Puts a slot into a place for which a connection was under way.
    pub fn open(&mut self, at: usize, slot: Slot<M, S>)
        requires slotless { IsSlotlessAt self.old.places at }
        requires able { IsAble M.agrees M.wants slot.machine }
        ensures put { self.new.places ≡ slice_set self.old.places at (Open slot) }
        ensures turns { KeepTurns (slice_set self.old.tickets at None) self.new.tickets }
        ensures unnumbered { slice_get self.old.places at ≡ Some Empty →
            slice_get self.old.tickets at ≡ Some None }
        ensures deaf { self.new.deaf ≡ self.old.deaf }
    {
        put_anew(&mut self.inside, at, slot);
    }

    /// Takes what stands in a place out of it.
    pub fn take(&mut self, at: usize) -> Place<M, S>
        requires at { at < length self.old.places }
        ensures taken { slice_get self.old.places at ≡ Some result }
        ensures empty { self.new.places ≡ slice_set self.old.places at Empty }
        ensures turns { self.new.tickets ≡ slice_set self.old.tickets at None }
        ensures able { IfOpen result (λ slot. IsAble M.agrees M.wants slot.machine) }
        ensures deaf { self.new.deaf ≡ false }
    {
        take_inside(&mut self.inside, at)
    }

    /// Takes what stands in a place out of it, for another to be put there: clients aren't asked for because of it.
    pub fn lift(&mut self, at: usize) -> Place<M, S>
        requires at { at < length self.old.places }
        ensures lifted { slice_get self.old.places at ≡ Some result }
        ensures empty { self.new.places ≡ slice_set self.old.places at Empty }
        ensures turns { self.new.tickets ≡ slice_set self.old.tickets at None }
        ensures able { IfOpen result (λ slot. IsAble M.agrees M.wants slot.machine) }
        ensures deaf { self.new.deaf ≡ self.old.deaf }
    {
        empty_inside(&mut self.inside, at)
    }

    /// Serves the slots until one of them has ended, or this time has come; all were served by then. Whoever calls
    /// takes what has ended out of its place, and may put another slot there.
    pub fn run<P: Poller, K: LineSink>(
        &mut self,
        poller: &mut P,
        sink: &mut K,
        until: Option<u64>,
        room: &mut [u8],
    ) -> Result<Ending, K::Fault>
        requires room { 0 < length room.old }
        ensures run { OnOk result (HaveRun M.agrees M.wants S.did K.heard (P.time poller.old) (P.time poller.new)
            self.old.places self.new.places sink.old sink.new) }
        ensures ending { IfOk result (λ ending. IsEnding M.wants until (P.time poller.new) self.new ending) }
        ensures turns { OnOk result (KeepTurns self.old.tickets self.new.tickets) }
        ensures deaf { OnOk result (self.new.deaf ≡ self.old.deaf) }
        ensures later { OnOk result (P.time poller.old ≤ P.time poller.new) }
        ensures kinds { StayOfKind self.old.places self.new.places }
        ensures served { IfOk result (λ ending. IfRoundMade self.old.tickets ending (AreServedInTime M.agrees M.wants
            S.did (P.time poller.new) self.new.places)) }
    {
        run_inside(&mut self.inside, poller, sink, until, room)
    }
}

/// All that a loop of so many places keeps at first.
fn new_inside<M: Machine + Drop, S: Drop>(
    alloc: Global,
    len: usize,
) -> Result<Inside<M, S>, NoMemory>
    ensures len { IfOk result (λ made. length made.seats.places.items ≡ len) }
    ensures empty { IfOk result (λ made. AreEmpty made.seats.places.items) }
    ensures none { IfOk result (λ made. NoneHasEnded made.seats.tickets.items) }
    ensures deaf { IfOk result (λ made. made.door.deaf ≡ false) }
    ensures whole { IfOk result (λ made. IsLoopSound M.agrees M.wants made) }
{
    let seats = new_seats(alloc, len)?;
    let all = numbers(alloc, len)?;
    let found = vec![in alloc; NOTHING; FOUND]?;
    Ok(Inside {
        seats,
        list: Vec::new(alloc),
        all,
        found,
        door: Door {
            asks: true,
            deaf: false,
        },
        free: 0,
    })
}

/// So many places, in which nothing stands.
fn new_seats<M: Machine + Drop, S: Drop>(alloc: Global, len: usize) -> Result<Seats<M, S>, NoMemory>
    ensures { IfOk result (AreNewSeats len) }
{
    let limits = new_limits(alloc, len)?;
    let mut places = Vec::new(alloc);
    let mut calls = Vec::new(alloc);
    let mut tickets = Vec::new(alloc);
    while places.len() < len {
        places.push(Place::Empty)?;
        calls.push(None)?;
        tickets.push(None)?;
    }
    let agenda = Agenda {
        later: Vec::new(alloc),
        limits,
        all: false,
        given: 0,
        ended: false,
    };
    Ok(Seats {
        places,
        calls,
        tickets,
        agenda,
    })
}

/// The numbers below this one.
fn numbers(alloc: Global, len: usize) -> Result<Vec<usize>, NoMemory>
    ensures { IfOk result (λ made. HasAll made.items len) }
{
    let mut all = Vec::new(alloc);
    let mut next = 0;
    while next < len {
        all.push(next)?;
        next += 1;
    }
    Ok(all)
}

/// The first place that is empty, if one is.
pub(crate) fn free_inside<M: Machine, S>(inside: &mut Inside<M, S>) -> Option<usize>
    requires whole { IsLoopSound M.agrees M.wants inside.old }
    ensures free { MatchOption result (AreOccupied inside.new.seats.places.items (length inside.new.seats.places.items))
        (λ at. IsFirstFree inside.new.seats.places.items at
        × (slice_get inside.new.seats.places.items at ≡ Some Empty)) }
    ensures same { AreSame inside.old.seats inside.new.seats }
    ensures deaf { inside.new.door ≡ inside.old.door }
    ensures whole { IsLoopSound M.agrees M.wants inside.new }
{
    inside.free = free_place(inside.seats.places.as_slice(), inside.free);
    if inside.free < inside.seats.places.len() {
        Some(inside.free)
    } else {
        None
    }
}

/// What is told of nothing.
const NOTHING: Wake = Wake {
    mark: Mark::Listener,
    ready: Readiness {
        read: false,
        write: false,
    },
};

/// Puts a slot into a place that is empty. One whose machine is done has ended.
fn put_inside<M: Machine + Drop, S: Drop>(inside: &mut Inside<M, S>, at: usize, slot: Slot<M, S>)
    requires empty { slice_get inside.old.seats.places.items at ≡ Some Empty }
    requires able { IsAble M.agrees M.wants slot.machine }
    requires whole { IsLoopSound M.agrees M.wants inside.old }
    ensures put { inside.new.seats.places.items ≡ slice_set inside.old.seats.places.items at (Open slot) }
    ensures turns { KeepTurns inside.old.seats.tickets.items inside.new.seats.tickets.items }
    ensures deaf { inside.new.door ≡ inside.old.door }
    ensures whole { IsLoopSound M.agrees M.wants inside.new }
{
    let done = slot.machine.is_done();
    inside.seats.places[at] = Place::Open(slot);
    if done {
        inside.seats.tickets[at] = Some(inside.seats.agenda.given);
        inside.seats.agenda.given = inside.seats.agenda.given.saturating_add(1);
        inside.seats.agenda.ended = true;
        return;
    }
    list_place(&mut inside.list, &mut inside.seats.agenda.all, at);
}

/// A connection is under way for a place that is empty. One that is stirred has ended.
fn watch_inside<M: Machine + Drop, S: Drop>(inside: &mut Inside<M, S>, at: usize, watch: Watch)
    requires empty { slice_get inside.old.seats.places.items at ≡ Some Empty }
    requires whole { IsLoopSound M.agrees M.wants inside.old }
    ensures watched { inside.new.seats.places.items ≡ slice_set inside.old.seats.places.items at (Pending watch) }
    ensures turns { KeepTurns inside.old.seats.tickets.items inside.new.seats.tickets.items }
    ensures deaf { inside.new.door ≡ inside.old.door }
    ensures whole { IsLoopSound M.agrees M.wants inside.new }
{
    inside.seats.places[at] = Place::Pending(watch);
    if watch.stirred {
        inside.seats.tickets[at] = Some(inside.seats.agenda.given);
        inside.seats.agenda.given = inside.seats.agenda.given.saturating_add(1);
        inside.seats.agenda.ended = true;
        return;
    }
    set_limit(&mut inside.seats.agenda.limits, at, watch.until);
}

/// A connection is under way for a place in which no slot stands.
fn watch_anew<M: Machine + Drop, S: Drop>(inside: &mut Inside<M, S>, at: usize, watch: Watch)
    requires slotless { IsSlotlessAt inside.old.seats.places.items at }
    requires whole { IsLoopSound M.agrees M.wants inside.old }
    ensures watched { inside.new.seats.places.items ≡ slice_set inside.old.seats.places.items at (Pending watch) }
    ensures turns { KeepTurns (slice_set inside.old.seats.tickets.items at None) inside.new.seats.tickets.items }
    ensures unnumbered { slice_get inside.old.seats.places.items at ≡ Some Empty →
        slice_get inside.old.seats.tickets.items at ≡ Some None }
    ensures deaf { inside.new.door ≡ inside.old.door }
    ensures whole { IsLoopSound M.agrees M.wants inside.new }
{
    let _ = empty_inside(inside, at);
    watch_inside(inside, at, watch);
}

/// Puts a slot into a place in which none stands.
fn put_anew<M: Machine + Drop, S: Drop>(inside: &mut Inside<M, S>, at: usize, slot: Slot<M, S>)
    requires slotless { IsSlotlessAt inside.old.seats.places.items at }
    requires able { IsAble M.agrees M.wants slot.machine }
    requires whole { IsLoopSound M.agrees M.wants inside.old }
    ensures put { inside.new.seats.places.items ≡ slice_set inside.old.seats.places.items at (Open slot) }
    ensures turns { KeepTurns (slice_set inside.old.seats.tickets.items at None) inside.new.seats.tickets.items }
    ensures unnumbered { slice_get inside.old.seats.places.items at ≡ Some Empty →
        slice_get inside.old.seats.tickets.items at ≡ Some None }
    ensures deaf { inside.new.door ≡ inside.old.door }
    ensures whole { IsLoopSound M.agrees M.wants inside.new }
{
    let _ = empty_inside(inside, at);
    put_inside(inside, at, slot);
}

/// Takes what stands in a place out of it. Clients may be asked for again.
fn take_inside<M: Machine + Drop, S: Drop>(inside: &mut Inside<M, S>, at: usize) -> Place<M, S>
    requires at { at < length inside.old.seats.places.items }
    requires whole { IsLoopSound M.agrees M.wants inside.old }
    ensures taken { slice_get inside.old.seats.places.items at ≡ Some result }
    ensures empty { inside.new.seats.places.items ≡ slice_set inside.old.seats.places.items at Empty }
    ensures turns { inside.new.seats.tickets.items ≡ slice_set inside.old.seats.tickets.items at None }
    ensures able { IfOpen result (λ slot. IsAble M.agrees M.wants slot.machine) }
    ensures deaf { inside.new.door.deaf ≡ false }
    ensures whole { IsLoopSound M.agrees M.wants inside.new }
{
    inside.door = Door {
        asks: true,
        deaf: false,
    };
    empty_inside(inside, at)
}

/// Takes what stands in a place out of it, and its number.
fn empty_inside<M: Machine + Drop, S: Drop>(inside: &mut Inside<M, S>, at: usize) -> Place<M, S>
    requires at { at < length inside.old.seats.places.items }
    requires whole { IsLoopSound M.agrees M.wants inside.old }
    ensures taken { slice_get inside.old.seats.places.items at ≡ Some result }
    ensures empty { inside.new.seats.places.items ≡ slice_set inside.old.seats.places.items at Empty }
    ensures turns { inside.new.seats.tickets.items ≡ slice_set inside.old.seats.tickets.items at None }
    ensures able { IfOpen result (λ slot. IsAble M.agrees M.wants slot.machine) }
    ensures unnumbered { slice_get inside.old.seats.places.items at ≡ Some Empty →
        slice_get inside.old.seats.tickets.items at ≡ Some None }
    ensures door { inside.new.door ≡ inside.old.door }
    ensures whole { IsLoopSound M.agrees M.wants inside.new }
{
    inside.seats.tickets[at] = None;
    inside.free = inside.free.min(at);
    set_limit(&mut inside.seats.agenda.limits, at, None);
    take_place(&mut inside.seats.places, at)
}

/// Takes what stands in a place out of the list.
fn take_place<M, S>(places: &mut Vec<Place<M, S>>, at: usize) -> Place<M, S>
    requires { at < length places.old.items }
    ensures taken { slice_get places.old.items at ≡ Some result }
    ensures empty { places.new.items ≡ slice_set places.old.items at Empty }
{
    mem::replace(&mut places[at], Place::Empty)
}

/// Serves the slots until one of them has ended, or this time has come, which counts behind a round alone.
fn run_inside<M: Machine + Drop, S: NonBlocking + Drop, P: Poller, K: LineSink>(
    inside: &mut Inside<M, S>,
    poller: &mut P,
    sink: &mut K,
    until: Option<u64>,
    room: &mut [u8],
) -> Result<Ending, K::Fault>
    requires room { 0 < length room.old }
    requires whole { IsLoopSound M.agrees M.wants inside.old }
    ensures run { OnOk result (HaveRun M.agrees M.wants S.did K.heard (P.time poller.old) (P.time poller.new)
        inside.old.seats.places.items inside.new.seats.places.items sink.old sink.new) }
    ensures ending { IfOk result (λ ending. IsEnding M.wants until (P.time poller.new) (loop_value inside.new) ending) }
    ensures turns { OnOk result (KeepTurns inside.old.seats.tickets.items inside.new.seats.tickets.items) }
    ensures deaf { OnOk result (inside.new.door.deaf ≡ inside.old.door.deaf) }
    ensures whole { IsLoopSound M.agrees M.wants inside.new }
    ensures later { OnOk result (P.time poller.old ≤ P.time poller.new) }
    ensures kinds { StayOfKind inside.old.seats.places.items inside.new.seats.places.items }
    ensures served { IfOk result (λ ending. IfRoundMade inside.old.seats.tickets.items ending
        (AreServedInTime M.agrees M.wants S.did (P.time poller.new) inside.new.seats.places.items)) }
{
    let mut now = poller.now();
    let mut late = None;
    loop {
        if let Some(ending) = ending_by(inside, late, now) {
            return Ok(ending);
        }
        now = run_round(inside, poller, sink, until, room)?;
        late = until;
    }
}

/// What has happened by now, if something has.
fn ending_by<M: Machine, S>(
    inside: &mut Inside<M, S>,
    until: Option<u64>,
    now: u64,
) -> Option<Ending>
    requires whole { IsLoopSound M.agrees M.wants inside.old }
    ensures ending { IfSome result (λ ending. IsEnding M.wants until now (loop_value inside.new) ending) }
    ensures same { IsSame inside.old inside.new }
    ensures whole { IsLoopSound M.agrees M.wants inside.new }
{
    match next_ended(&mut inside.seats) {
        Some(at) => return Some(Ending::Ended(at)),
        None => {}
    }
    if has_come(until, now) {
        return Some(Ending::TooLate);
    }
    if are_empty(inside.seats.places.as_slice()) {
        return Some(Ending::NoSlot);
    }
    None
}

/// The place that ended first of those that were not taken.
pub(crate) fn next_ended<M: Machine, S>(seats: &mut Seats<M, S>) -> Option<usize>
    requires standing { AreSeatsSound M.agrees M.wants seats.old }
    ensures found { MatchOption result (NoneIsOver M.wants seats.new.places.items)
        (λ at. IsOverAt M.wants seats.new.places.items at × IsFirstToEnd seats.new.tickets.items at) }
    ensures standing { AreSeatsSound M.agrees M.wants seats.new }
    ensures same { AreSame seats.old seats.new }
{
    if !seats.agenda.ended {
        return None;
    }
    match first_to_end(seats.tickets.as_slice()) {
        Some(at) => Some(at),
        None => {
            seats.agenda.ended = false;
            None
        }
    }
}

/// Whether nothing stands in any place.
fn are_empty<M, S>(places: &[Place<M, S>]) -> bool
    ensures { result ≡ true → AreEmpty places.now }
{
    let mut at = 0;
    while at < places.len() {
        if !place_at(places, at).is_empty() {
            return false;
        }
        at += 1;
    }
    true
}
