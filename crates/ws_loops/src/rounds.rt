//! A round over the places of a loop: those that are called have their turn, and nothing is due in the others.

ghost use Rattle.std.specs.Prelude.{◌≡◌, ◌<◌, [], length, false, None, Some, IfOk, OnOk, IfErr, slice_get};
ghost use Rattle.ws_loops.specs.Limits.{IsTree};
ghost use Rattle.ws_loops.specs.Loops.{AreServed, HasNoted, HasPlaceTurn, IsKeptLater, IsOutlook, AreSeatsSound};
ghost use Rattle.ws_loops.specs.Loops.{RestsUncalled, ServedOnce};
ghost use Rattle.ws_loops.specs.Places.{IsPlaceOver, IfOpen, StayOfKind, place_kind};
ghost use Rattle.ws_loops.specs.Slots.{HasBroken, HasServedShare, HasTurn, IfNoMemory, IfNotTaken, IsAble, PutsSome};

use crate::limits::set_limit;
use crate::line_sink::LineSink;
use crate::non_blocking::NonBlocking;
use crate::places::{Agenda, Place, Seats, call_at, ticket_at};
use crate::poller::Readiness;
use crate::serving::{StepFault, step};
use crate::slot::Slot;
use ws_machines::Machine;

/// At most so many bytes of a slot are moved in a round.
const SHARE: usize = 65_536;

/// How a place stands behind its turn.
#[derive(Clone, Copy)]
pub(crate) enum Outlook {
    /// Its machine is done, or memory ran out for it.
    Ended,
    /// Something is still due.
    Due,
    /// Nothing is due before this time, if its stream isn't found ready.
    Rests(Option<u64>),
}

/// Gives each of these places its turn by now, if it is called. What is due in it is done, until nothing is, or at most
/// 65,536 bytes were moved. So no slot waits for another one.
pub(crate) fn serve_these<M: Machine + Drop, S: NonBlocking + Drop, K: LineSink>(
    seats: &mut Seats<M, S>,
    these: &[usize],
    sink: &mut K,
    room: &mut [u8],
    now: u64,
) -> Result<(), K::Fault>
    requires room { 0 < length room.old }
    requires standing { AreSeatsSound M.agrees M.wants seats.old }
    requires rests { RestsUncalled M.wants seats.old }
    ensures served { OnOk result (AreServed M.agrees M.wants S.did K.heard now these.now seats.old seats.new
        sink.old sink.new) }
    ensures standing { AreSeatsSound M.agrees M.wants seats.new }
    ensures rests { RestsUncalled M.wants seats.new }
    ensures kinds { StayOfKind seats.old.places.items seats.new.places.items }
    ensures len { length room.new ≡ length room.old }
{
    let mut next = 0;
    while next < these.len() {
        let at = number_at(these, next);
        serve_at(seats, at, sink, room, now)?;
        next += 1;
    }
    Ok(())
}

/// The number that is there in the list.
pub(crate) fn number_at(list: &[usize], next: usize) -> usize
    requires { next < length list.now }
    ensures { slice_get list.now next ≡ Some result }
{
    list[next]
}

/// Gives a place its turn by now, if it is called: it is called no longer then.
fn serve_at<M: Machine + Drop, S: NonBlocking + Drop, K: LineSink>(
    seats: &mut Seats<M, S>,
    at: usize,
    sink: &mut K,
    room: &mut [u8],
    now: u64,
) -> Result<(), K::Fault>
    requires room { 0 < length room.old }
    requires standing { AreSeatsSound M.agrees M.wants seats.old }
    requires rests { RestsUncalled M.wants seats.old }
    ensures served { OnOk result (ServedOnce M.agrees M.wants S.did K.heard now at seats.old seats.new
        sink.old sink.new) }
    ensures standing { AreSeatsSound M.agrees M.wants seats.new }
    ensures rests { RestsUncalled M.wants seats.new }
    ensures kinds { StayOfKind seats.old.places.items seats.new.places.items }
    ensures len { length room.new ≡ length room.old }
{
    if at >= seats.calls.len() {
        return Ok(());
    }
    match call_at(seats.calls.as_slice(), at) {
        None => Ok(()),
        Some(ready) => serve_called(seats, at, ready, sink, room, now),
    }
}

/// Gives a place its turn by now, which is called so. One that has ended stays as it is.
fn serve_called<M: Machine + Drop, S: NonBlocking + Drop, K: LineSink>(
    seats: &mut Seats<M, S>,
    at: usize,
    ready: Readiness,
    sink: &mut K,
    room: &mut [u8],
    now: u64,
) -> Result<(), K::Fault>
    requires room { 0 < length room.old }
    requires call { slice_get seats.old.calls.items at ≡ Some (Some ready) }
    requires standing { AreSeatsSound M.agrees M.wants seats.old }
    requires rests { RestsUncalled M.wants seats.old }
    ensures served { OnOk result (ServedOnce M.agrees M.wants S.did K.heard now at seats.old seats.new
        sink.old sink.new) }
    ensures standing { AreSeatsSound M.agrees M.wants seats.new }
    ensures rests { RestsUncalled M.wants seats.new }
    ensures kinds { StayOfKind seats.old.places.items seats.new.places.items }
    ensures len { length room.new ≡ length room.old }
{
    if ticket_at(seats.tickets.as_slice(), at).is_some() {
        seats.calls[at] = None;
        return Ok(());
    }
    serve_going(seats, at, ready, sink, room, now)
}

/// Gives a place its turn by now, which is called so and has not ended.
fn serve_going<M: Machine + Drop, S: NonBlocking + Drop, K: LineSink>(
    seats: &mut Seats<M, S>,
    at: usize,
    ready: Readiness,
    sink: &mut K,
    room: &mut [u8],
    now: u64,
) -> Result<(), K::Fault>
    requires room { 0 < length room.old }
    requires call { slice_get seats.old.calls.items at ≡ Some (Some ready) }
    requires goes { slice_get seats.old.tickets.items at ≡ Some None }
    requires standing { AreSeatsSound M.agrees M.wants seats.old }
    requires rests { RestsUncalled M.wants seats.old }
    ensures served { OnOk result (ServedOnce M.agrees M.wants S.did K.heard now at seats.old seats.new
        sink.old sink.new) }
    ensures standing { AreSeatsSound M.agrees M.wants seats.new }
    ensures rests { RestsUncalled M.wants seats.new }
    ensures kinds { StayOfKind seats.old.places.items seats.new.places.items }
    ensures len { length room.new ≡ length room.old }
{
    let outlook = serve_place(&mut seats.places[at], at, ready, sink, room, now)?;
    note(seats, at, outlook);
    seats.calls[at] = None;
    Ok(())
}

/// Notes how a place stands behind its turn.
fn note<M, S>(seats: &mut Seats<M, S>, at: usize, outlook: Outlook)
    requires at { at < length seats.old.tickets.items }
    requires limit { at < length seats.old.agenda.limits.times.items }
    requires tree { IsTree seats.old.agenda.limits }
    ensures noted { HasNoted at outlook seats.old seats.new }
{
    match outlook {
        Outlook::Ended => {
            seats.tickets[at] = Some(seats.agenda.given);
            seats.agenda.given = seats.agenda.given.saturating_add(1);
            seats.agenda.ended = true;
            set_limit(&mut seats.agenda.limits, at, None);
        }
        Outlook::Due => {
            set_limit(&mut seats.agenda.limits, at, None);
            keep(&mut seats.agenda, at);
        }
        Outlook::Rests(time) => set_limit(&mut seats.agenda.limits, at, time),
    }
}

/// Something is still due in this place. Where memory runs out, something may be due in any.
fn keep(agenda: &mut Agenda, at: usize)
    ensures { IsKeptLater at agenda.old agenda.new }
{
    if agenda.later.push(at).is_err() {
        agenda.all = true;
    }
}

/// Gives the place its turn, in which no slot has ended, and says how it stands then.
fn serve_place<M: Machine + Drop, S: NonBlocking + Drop, K: LineSink>(
    place: &mut Place<M, S>,
    at: usize,
    ready: Readiness,
    sink: &mut K,
    room: &mut [u8],
    now: u64,
) -> Result<Outlook, K::Fault>
    requires room { 0 < length room.old }
    requires able { IfOpen place.old (λ slot. IsAble M.agrees M.wants slot.machine) }
    requires goes_on { IsPlaceOver M.wants place.old → ⊥ }
    ensures turn { OnOk result (PutsSome K.heard at sink.old sink.new
        (λ lines. HasPlaceTurn M.agrees M.wants S.did ready now place.old place.new lines)) }
    ensures outlook { IfOk result (λ outlook. IsOutlook M.wants outlook place.new) }
    ensures able { IfOpen place.new (λ slot. IsAble M.agrees M.wants slot.machine) }
    ensures goes_on { IfErr result (λ why. IsPlaceOver M.wants place.new → ⊥) }
    ensures kinds { place_kind place.new ≡ place_kind place.old }
    ensures len { length room.new ≡ length room.old }
{
    let Place::Open(slot) = place else {
        return Ok(serve_slotless(place, ready, now));
    };
    match serve_slot(slot, at, ready, sink, room, now) {
        Ok(()) => Ok(outlook_of(slot, now)),
        Err(StepFault::NotTaken(why)) => Err(why),
        Err(StepFault::NoMemory) => {
            *place = Place::Broken;
            Ok(Outlook::Ended)
        }
    }
}

/// Gives a place its turn in which no slot stands, and says how it stands then: where a connection is under way for it,
/// it has ended once it is stirred.
fn serve_slotless<M: Machine, S: NonBlocking>(
    place: &mut Place<M, S>,
    ready: Readiness,
    now: u64,
) -> Outlook
    requires slotless { IfOpen place.old (λ slot. ⊥) }
    requires goes_on { IsPlaceOver M.wants place.old → ⊥ }
    ensures turn { HasPlaceTurn M.agrees M.wants S.did ready now place.old place.new [] }
    ensures outlook { IsOutlook M.wants result place.new }
    ensures slotless { IfOpen place.new (λ slot. ⊥) }
    ensures kinds { place_kind place.new ≡ place_kind place.old }
{
    match place {
        Place::Pending(watch) => {
            let watched = watch.woken(ready, now);
            *watch = watched;
            if watched.stirred {
                Outlook::Ended
            } else {
                Outlook::Rests(watched.until)
            }
        }
        Place::Empty | Place::Open(_) | Place::Broken => Outlook::Rests(None),
    }
}

/// How a slot stands by now.
fn outlook_of<M: Machine, S>(slot: &Slot<M, S>, now: u64) -> Outlook
    ensures { IsOutlook M.wants result (Place.Open slot.now) }
{
    if slot.machine.is_done() {
        Outlook::Ended
    } else if slot.is_due(now) {
        Outlook::Due
    } else {
        Outlook::Rests(slot.due_at(now))
    }
}

/// Wakes a slot as its stream was found, and serves it.
fn serve_slot<M: Machine, S: NonBlocking, K: LineSink>(
    slot: &mut Slot<M, S>,
    at: usize,
    ready: Readiness,
    sink: &mut K,
    room: &mut [u8],
    now: u64,
) -> Result<(), StepFault<K::Fault>>
    requires room { 0 < length room.old }
    requires able { IsAble M.agrees M.wants slot.old.machine }
    requires goes_on { (M.wants slot.old.machine).done ≡ false }
    ensures turn { OnOk result (PutsSome K.heard at sink.old sink.new
        (λ lines. HasTurn M.agrees M.wants S.did ready now slot.old slot.new lines)) }
    ensures able { OnOk result (IsAble M.agrees M.wants slot.new.machine) }
    ensures refused { IfNotTaken result (IsAble M.agrees M.wants slot.new.machine
        × ((M.wants slot.new.machine).done ≡ false)) }
    ensures put { IfNoMemory result (PutsSome K.heard at sink.old sink.new
        (λ lines. HasBroken M.agrees M.wants S.did now now slot.old lines)) }
    ensures len { length room.new ≡ length room.old }
{
    slot.pace = slot.pace.woken(ready);
    match serve_awake(slot, at, sink, room, now) {
        Ok(()) => Ok(()),
        Err(why) => Err(why),
    }
}

/// Does what is due in a slot by now, until nothing is, or its share was moved.
fn serve_awake<M: Machine, S: NonBlocking, K: LineSink>(
    slot: &mut Slot<M, S>,
    at: usize,
    sink: &mut K,
    room: &mut [u8],
    now: u64,
) -> Result<(), StepFault<K::Fault>>
    requires room { 0 < length room.old }
    requires able { IsAble M.agrees M.wants slot.old.machine }
    ensures served { OnOk result (PutsSome K.heard at sink.old sink.new
        (λ lines. HasServedShare M.agrees M.wants S.did now slot.old slot.new lines)) }
    ensures able { OnOk result (IsAble M.agrees M.wants slot.new.machine) }
    ensures refused { IfNotTaken result (IsAble M.agrees M.wants slot.new.machine
        × ((M.wants slot.new.machine).done ≡ false)) }
    ensures put { IfNoMemory result (PutsSome K.heard at sink.old sink.new
        (λ lines. HasBroken M.agrees M.wants S.did now now slot.old lines)) }
    ensures len { length room.new ≡ length room.old }
{
    let mut share = SHARE;
    while share > 0 && slot.is_due(now) {
        match step(slot, at, sink, share, room, now) {
            Ok(moved) => share -= moved,
            Err(why) => return Err(why),
        }
    }
    Ok(())
}
