//! What a loop keeps, and a round over all places: it waits, and those are served that are called, or in which
//! something may be due.

ghost use Rattle.std.specs.Prelude.{◌≡◌, ◌<◌, ◌≤◌, length, true, false, Some, None, IfOk, OnOk, slice_get, take};
ghost use Rattle.ws_loops.specs.Inside.{AreAllCalled, HasCalled, HasMarked, HasMarkedOne, HasServedCalled};
ghost use Rattle.ws_loops.specs.Inside.{CoversBoth, HasTurnedOver, IsCalledOnce};
ghost use Rattle.ws_loops.specs.Limits.{ComesLater, IsTree};
ghost use Rattle.ws_loops.specs.Loops.{AreServedInTime, GiveTurns, HasRound, HaveRun, IsLoopSound};
ghost use Rattle.ws_loops.specs.Paces.{has_ended_by};
ghost use Rattle.ws_loops.specs.Places.{StayOfKind};

use crate::limits::soonest;
use crate::line_sink::LineSink;
use crate::non_blocking::NonBlocking;
use crate::places::{Seats, call_at, list_place};
use crate::poller::{Mark, Poller, Readiness, Wake};
use crate::rounds::{number_at, serve_these};
use crate::slot::sooner;
use std::mem;
use ws_machines::Machine;

/// A stream of which nothing is known.
const UNKNOWN: Readiness = Readiness {
    read: false,
    write: false,
};

/// Whether clients are asked for.
#[derive(Clone, Copy)]
pub(crate) struct Door {
    /// Some may be there.
    pub(crate) asks: bool,
    /// It was told that none can be taken, and nothing has ended since.
    pub(crate) deaf: bool,
}

/// All that a loop keeps: its places; those that are to have a turn in the next round; all of their numbers; room for
/// what is found of the streams; whether clients are asked for; and a place in front of which none is empty.
#[derive(Drop)]
pub(crate) struct Inside<M, S> {
    pub(crate) seats: Seats<M, S>,
    pub(crate) list: Vec<usize>,
    pub(crate) all: Vec<usize>,
    pub(crate) found: Vec<Wake>,
    pub(crate) door: Door,
    pub(crate) free: usize,
}

/// Waits until a stream is found ready, or something is due, or this time has come, and serves those that are to be.
/// Answers the time by which they were served.
pub(crate) fn run_round<M: Machine + Drop, S: NonBlocking + Drop, P: Poller, K: LineSink>(
    inside: &mut Inside<M, S>,
    poller: &mut P,
    sink: &mut K,
    until: Option<u64>,
    room: &mut [u8],
) -> Result<u64, K::Fault>
    requires room { 0 < length room.old }
    requires whole { IsLoopSound M.agrees M.wants inside.old }
    ensures run { OnOk result (HaveRun M.agrees M.wants S.did K.heard (P.time poller.old) (P.time poller.new)
        inside.old.seats.places.items inside.new.seats.places.items sink.old sink.new) }
    ensures turns { OnOk result (GiveTurns inside.old.seats.tickets.items inside.old.seats.agenda.given
        inside.new.seats.tickets.items) }
    ensures whole { IsLoopSound M.agrees M.wants inside.new }
    ensures kinds { StayOfKind inside.old.seats.places.items inside.new.seats.places.items }
    ensures deaf { inside.new.door.deaf ≡ inside.old.door.deaf }
    ensures now { IfOk result (λ now. now ≡ P.time poller.new) }
    ensures nears { OnOk result (P.left poller.new < P.left poller.old) }
    ensures later { OnOk result (P.time poller.old ≤ P.time poller.new) }
    ensures served { OnOk result (AreServedInTime M.agrees M.wants S.did (P.time poller.new)
        inside.new.seats.places.items) }
    ensures len { length room.new ≡ length room.old }
{
    let end = wait_end(inside, poller.now(), until);
    let count = poller.wait(inside.found.as_mut_slice(), end)?;
    let now = poller.now();
    serve_found(inside, count, sink, room, now)?;
    Ok(now)
}

/// Until when is waited: not at all where a place is listed.
fn wait_end<M, S>(inside: &Inside<M, S>, now: u64, until: Option<u64>) -> Option<u64>
    requires tree { IsTree inside.now.seats.agenda.limits }
{
    if inside.list.is_empty() && !inside.seats.agenda.all {
        sooner(until, soonest(&inside.seats.agenda.limits))
    } else {
        Some(now)
    }
}

/// Serves by now the places that are listed, those whose streams were found ready, and all where a time has come.
fn serve_found<M: Machine + Drop, S: NonBlocking + Drop, K: LineSink>(
    inside: &mut Inside<M, S>,
    count: usize,
    sink: &mut K,
    room: &mut [u8],
    now: u64,
) -> Result<(), K::Fault>
    requires room { 0 < length room.old }
    requires count { count ≤ length inside.old.found.items }
    requires whole { IsLoopSound M.agrees M.wants inside.old }
    ensures round { OnOk result (HasRound M.agrees M.wants S.did K.heard (take count inside.old.found.items) now
        inside.old.seats.places.items inside.new.seats.places.items sink.old sink.new) }
    ensures turns { OnOk result (GiveTurns inside.old.seats.tickets.items inside.old.seats.agenda.given
        inside.new.seats.tickets.items) }
    ensures whole { IsLoopSound M.agrees M.wants inside.new }
    ensures kinds { StayOfKind inside.old.seats.places.items inside.new.seats.places.items }
    ensures deaf { inside.new.door.deaf ≡ inside.old.door.deaf }
    ensures len { length room.new ≡ length room.old }
{
    mark_all(inside, count);
    serve(inside, sink, room, now)?;
    Ok(())
}

/// Calls each place whose stream was found ready, and lists it.
fn mark_all<M, S>(inside: &mut Inside<M, S>, count: usize)
    requires count { count ≤ length inside.old.found.items }
    ensures marked { HasMarked (take count inside.old.found.items) inside.old inside.new }
{
    let mut next = 0;
    while next < count {
        let wake = wake_at(inside.found.as_slice(), next);
        mark_one(inside, wake);
        next += 1;
    }
}

/// What is told there in the list.
fn wake_at(found: &[Wake], next: usize) -> Wake
    requires { next < length found.now }
    ensures { slice_get found.now next ≡ Some result }
{
    found[next]
}

/// Calls the place of which this tells, and lists it, if it is one.
fn mark_one<M, S>(inside: &mut Inside<M, S>, wake: Wake)
    ensures marked { HasMarkedOne wake inside.old inside.new }
{
    match wake.mark {
        Mark::Listener => {
            inside.door.asks = true;
        }
        Mark::Place(at) => {
            call(inside, at, wake.ready);
        }
    }
}

/// Calls a place, if there is one of this number, and lists it.
fn call<M, S>(inside: &mut Inside<M, S>, at: usize, ready: Readiness)
    ensures called { HasCalled at ready inside.old inside.new }
{
    if at >= inside.seats.calls.len() {
        return;
    }
    match call_at(inside.seats.calls.as_slice(), at) {
        None => {
            list_place(&mut inside.list, &mut inside.seats.agenda.all, at);
            inside.seats.calls[at] = Some(ready);
        }
        Some(before) => {
            inside.seats.calls[at] = Some(joined(before, ready));
        }
    }
}

/// A stream that was found so, and so before.
fn joined(before: Readiness, ready: Readiness) -> Readiness
    ensures { CoversBoth (Some before) ready result }
{
    Readiness {
        read: before.read || ready.read,
        write: before.write || ready.write,
    }
}

/// Serves by now the places that are listed, or all where a time has come.
fn serve<M: Machine + Drop, S: NonBlocking + Drop, K: LineSink>(
    inside: &mut Inside<M, S>,
    sink: &mut K,
    room: &mut [u8],
    now: u64,
) -> Result<(), K::Fault>
    requires room { 0 < length room.old }
    requires whole { IsLoopSound M.agrees M.wants inside.old }
    ensures served { OnOk result (HasServedCalled M.agrees M.wants S.did K.heard now inside.old inside.new
        sink.old sink.new) }
    ensures whole { IsLoopSound M.agrees M.wants inside.new }
    ensures kinds { StayOfKind inside.old.seats.places.items inside.new.seats.places.items }
    ensures door { inside.new.door ≡ inside.old.door }
    ensures len { length room.new ≡ length room.old }
{
    if may_any_be_due(inside, now) {
        return serve_all(inside, sink, room, now);
    }
    serve_listed(inside, sink, room, now)
}

/// Whether something may be due by now in a place that isn't listed.
fn may_any_be_due<M, S>(inside: &Inside<M, S>, now: u64) -> bool
    requires { IsTree inside.now.seats.agenda.limits }
    ensures { result ≡ false → (inside.now.seats.agenda.all ≡ false)
        × ComesLater inside.now.seats.agenda.limits.times.items now }
{
    if inside.seats.agenda.all {
        return true;
    }
    has_come(soonest(&inside.seats.agenda.limits), now)
}

/// Serves all places by now.
fn serve_all<M: Machine + Drop, S: NonBlocking + Drop, K: LineSink>(
    inside: &mut Inside<M, S>,
    sink: &mut K,
    room: &mut [u8],
    now: u64,
) -> Result<(), K::Fault>
    requires room { 0 < length room.old }
    requires whole { IsLoopSound M.agrees M.wants inside.old }
    ensures served { OnOk result (HasServedCalled M.agrees M.wants S.did K.heard now inside.old inside.new
        sink.old sink.new) }
    ensures whole { IsLoopSound M.agrees M.wants inside.new }
    ensures kinds { StayOfKind inside.old.seats.places.items inside.new.seats.places.items }
    ensures door { inside.new.door ≡ inside.old.door }
    ensures len { length room.new ≡ length room.old }
{
    call_these(&mut inside.seats.calls, inside.all.as_slice());
    inside.seats.agenda.all = false;
    match serve_these(&mut inside.seats, inside.all.as_slice(), sink, room, now) {
        Ok(()) => {
            turn_over(inside);
            Ok(())
        }
        Err(why) => {
            inside.seats.agenda.all = true;
            Err(why)
        }
    }
}

/// Serves the places that are listed, where no time has come.
fn serve_listed<M: Machine + Drop, S: NonBlocking + Drop, K: LineSink>(
    inside: &mut Inside<M, S>,
    sink: &mut K,
    room: &mut [u8],
    now: u64,
) -> Result<(), K::Fault>
    requires room { 0 < length room.old }
    requires whole { IsLoopSound M.agrees M.wants inside.old }
    requires some { inside.old.seats.agenda.all ≡ false }
    requires early { ComesLater inside.old.seats.agenda.limits.times.items now }
    ensures served { OnOk result (HasServedCalled M.agrees M.wants S.did K.heard now inside.old inside.new
        sink.old sink.new) }
    ensures whole { IsLoopSound M.agrees M.wants inside.new }
    ensures kinds { StayOfKind inside.old.seats.places.items inside.new.seats.places.items }
    ensures door { inside.new.door ≡ inside.old.door }
    ensures len { length room.new ≡ length room.old }
{
    call_these(&mut inside.seats.calls, inside.list.as_slice());
    match serve_these(&mut inside.seats, inside.list.as_slice(), sink, room, now) {
        Ok(()) => {
            turn_over(inside);
            Ok(())
        }
        Err(why) => {
            inside.seats.agenda.all = true;
            Err(why)
        }
    }
}

/// The places that were kept for later are those that are listed now.
fn turn_over<M, S>(inside: &mut Inside<M, S>)
    ensures { HasTurnedOver inside.old inside.new }
{
    mem::swap(&mut inside.list, &mut inside.seats.agenda.later);
    inside.seats.agenda.later.clear();
}

/// Calls each of these places, as far as there are any.
fn call_these(calls: &mut Vec<Option<Readiness>>, these: &[usize])
    ensures called { AreAllCalled these.now calls.old.items calls.new.items }
{
    let mut next = 0;
    while next < these.len() {
        let at = number_at(these, next);
        call_once(calls, at);
        next += 1;
    }
}

/// Calls a place, if there is one of this number that isn't called.
fn call_once(calls: &mut Vec<Option<Readiness>>, at: usize)
    ensures { IsCalledOnce at calls.old.items calls.new.items }
{
    if at >= calls.len() {
        return;
    }
    if call_at(calls.as_slice(), at).is_some() {
        return;
    }
    calls[at] = Some(UNKNOWN);
}

/// Whether this time has come.
pub(crate) fn has_come(time: Option<u64>, now: u64) -> bool
    ensures { result ≡ has_ended_by time now }
{
    match time {
        None => false,
        Some(time) => time <= now,
    }
}
