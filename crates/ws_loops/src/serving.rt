//! One thing that is due in a slot is done, and its machine told of it.

ghost use Rattle.std.specs.Prelude.{◌≡◌, ◌<◌, ◌≤◌, ◌∷◌, [], List, ℕ, length, true, false, IfOk, OnOk};
ghost use Rattle.ws_machines.specs.Machines.{Extends, HasNext, IsRunning, MayBeTold, told_at};
ghost use Rattle.ws_loops.specs.Paces.{has_any_bytes, is_due, has_ended_by, is_read_due, is_wait_late, is_write_due};
ghost use Rattle.ws_loops.specs.Paces.{is_write_late, told_pace};
ghost use Rattle.ws_loops.specs.Slots.{AreItsLast, PutsSome};
ghost use Rattle.ws_loops.specs.Slots.{HasStepped, HasToldOne, IfNoMemory, IfNotTaken, IsAble, IsFree};

use crate::line_sink::LineSink;
use crate::non_blocking::{NonBlocking, TryRead, TryWrite};
use crate::slot::Slot;
use ws_base::NoMemory;
use ws_machines::{Machine, StreamEvent};

/// Why a step of a slot has failed.
#[derive(Drop)]
pub(crate) enum StepFault<F> {
    /// Memory ran out for its machine, of which nothing is known then.
    NoMemory,
    /// Its lines were not taken. The slot is as before.
    NotTaken(F),
}

/// Does one thing that is due in the slot of a place, and tells its machine what came of that; at most `share` bytes
/// are moved. Answers how many were.
pub(crate) fn step<M: Machine, S: NonBlocking, K: LineSink>(
    slot: &mut Slot<M, S>,
    at: usize,
    sink: &mut K,
    share: usize,
    room: &mut [u8],
    now: u64,
) -> Result<usize, StepFault<K::Fault>>
    requires share { 0 < share }
    requires room { 0 < length room.old }
    requires able { IsAble M.agrees M.wants slot.old.machine }
    requires is_due { is_due (M.wants slot.old.machine) slot.old.pace now ≡ true }
    ensures step { IfOk result (λ moved. PutsSome K.heard at sink.old sink.new
        (λ lines. HasStepped M.agrees M.wants S.did M.left now slot.old slot.new moved lines)) }
    ensures share { IfOk result (λ moved. moved ≤ share) }
    ensures refused { IfNotTaken result (IsAble M.agrees M.wants slot.new.machine
        × ((M.wants slot.new.machine).done ≡ false)) }
    ensures put { IfNoMemory result (PutsSome K.heard at sink.old sink.new
        (λ lines. AreItsLast (M.wants slot.old.machine) lines)) }
    ensures len { length room.new ≡ length room.old }
{
    if !slot.machine.to_report().is_empty() {
        report(slot, at, sink, now)?;
        return Ok(0);
    }
    match act(slot, share, room, now) {
        Ok(moved) => Ok(moved),
        Err(_refused) => Err(StepFault::NoMemory),
    }
}

/// Has the lines of the machine in this place taken.
fn report<M: Machine, S: NonBlocking, K: LineSink>(
    slot: &mut Slot<M, S>,
    at: usize,
    sink: &mut K,
    now: u64,
) -> Result<(), StepFault<K::Fault>>
    requires able { IsAble M.agrees M.wants slot.old.machine }
    requires undone { (M.wants slot.old.machine).done ≡ false }
    requires wanted { 0 < length (M.wants slot.old.machine).report }
    ensures step { OnOk result (PutsSome K.heard at sink.old sink.new
        (λ lines. HasStepped M.agrees M.wants S.did M.left now slot.old slot.new 0 lines)) }
    ensures refused { IfNotTaken result (IsAble M.agrees M.wants slot.new.machine
        × ((M.wants slot.new.machine).done ≡ false)) }
    ensures put { IfNoMemory result (PutsSome K.heard at sink.old sink.new
        (λ lines. AreItsLast (M.wants slot.old.machine) lines)) }
{
    match sink.put(at, slot.machine.to_report()) {
        Ok(()) => match tell(slot, StreamEvent::Reported, now) {
            Ok(()) => Ok(()),
            Err(_refused) => Err(StepFault::NoMemory),
        },
        Err(why) => Err(StepFault::NotTaken(why)),
    }
}

/// Does one thing that is due in a slot whose machine has no lines.
fn act<M: Machine, S: NonBlocking>(
    slot: &mut Slot<M, S>,
    share: usize,
    room: &mut [u8],
    now: u64,
) -> Result<usize, NoMemory>
    requires share { 0 < share }
    requires room { 0 < length room.old }
    requires able { IsAble M.agrees M.wants slot.old.machine }
    requires reported { (M.wants slot.old.machine).report ≡ [] }
    requires is_due { is_due (M.wants slot.old.machine) slot.old.pace now ≡ true }
    ensures step { IfOk result (λ moved. HasStepped M.agrees M.wants S.did M.left now slot.old slot.new moved []) }
    ensures share { IfOk result (λ moved. moved ≤ share) }
    ensures len { length room.new ≡ length room.old }
{
    if slot.machine.wants_end() {
        end_direction(slot, now)?;
        return Ok(0);
    }
    if slot.pace.is_over(now) {
        tell_deadline(slot, now)?;
        return Ok(0);
    }
    let moved = move_bytes(slot, share, room, now)?;
    Ok(moved)
}

/// Ends the own direction of the machine.
fn end_direction<M: Machine, S: NonBlocking>(
    slot: &mut Slot<M, S>,
    now: u64,
) -> Result<(), NoMemory>
    requires able { IsAble M.agrees M.wants slot.old.machine }
    requires undone { (M.wants slot.old.machine).done ≡ false }
    requires reported { (M.wants slot.old.machine).report ≡ [] }
    requires wanted { (M.wants slot.old.machine).end ≡ true }
    ensures step { OnOk result (HasStepped M.agrees M.wants S.did M.left now slot.old slot.new 0 []) }
{
    slot.stream.end_direction();
    tell(slot, StreamEvent::DirectionEnded, now)?;
    Ok(())
}

/// Tells the machine that its deadline has passed.
fn tell_deadline<M: Machine, S: NonBlocking>(
    slot: &mut Slot<M, S>,
    now: u64,
) -> Result<(), NoMemory>
    requires able { IsAble M.agrees M.wants slot.old.machine }
    requires undone { (M.wants slot.old.machine).done ≡ false }
    requires reported { (M.wants slot.old.machine).report ≡ [] }
    requires ended { (M.wants slot.old.machine).end ≡ false }
    requires over { has_ended_by slot.old.pace.deadline now ≡ true }
    ensures step { OnOk result (HasStepped M.agrees M.wants S.did M.left now slot.old slot.new 0 []) }
{
    let waited = slot.pace.has_waited(now);
    tell(slot, StreamEvent::DeadlinePassed(waited), now)?;
    Ok(())
}

/// Reads or writes once, as it is due; where neither is, a limit has passed.
fn move_bytes<M: Machine, S: NonBlocking>(
    slot: &mut Slot<M, S>,
    share: usize,
    room: &mut [u8],
    now: u64,
) -> Result<usize, NoMemory>
    requires share { 0 < share }
    requires room { 0 < length room.old }
    requires able { IsAble M.agrees M.wants slot.old.machine }
    requires free { IsFree (M.wants slot.old.machine) slot.old.pace now }
    requires is_due { is_due (M.wants slot.old.machine) slot.old.pace now ≡ true }
    ensures step { IfOk result (λ moved. HasStepped M.agrees M.wants S.did M.left now slot.old slot.new moved []) }
    ensures share { IfOk result (λ moved. moved ≤ share) }
    ensures len { length room.new ≡ length room.old }
{
    if slot.is_read_due(now) {
        let moved = read(slot, share, room, now)?;
        return Ok(moved);
    }
    if slot.is_write_due(now) {
        let moved = write(slot, share, now)?;
        return Ok(moved);
    }
    tell_limit(slot, now)?;
    Ok(0)
}

/// Reads once, as many bytes as the machine wants, or as the share or the room holds.
fn read<M: Machine, S: NonBlocking>(
    slot: &mut Slot<M, S>,
    share: usize,
    room: &mut [u8],
    now: u64,
) -> Result<usize, NoMemory>
    requires share { 0 < share }
    requires room { 0 < length room.old }
    requires able { IsAble M.agrees M.wants slot.old.machine }
    requires free { IsFree (M.wants slot.old.machine) slot.old.pace now }
    requires is_due { is_read_due (M.wants slot.old.machine) slot.old.pace now ≡ true }
    ensures step { IfOk result (λ moved. HasStepped M.agrees M.wants S.did M.left now slot.old slot.new moved []) }
    ensures share { IfOk result (λ moved. moved ≤ share) }
    ensures len { length room.new ≡ length room.old }
{
    let len = slot.machine.room().min(room.len()).min(share);
    let place = &mut room[..len];
    let outcome = slot.stream.try_read(place);
    match outcome.event(place) {
        Some(event) => {
            tell(slot, event, now)?;
            slot.pace = slot.pace.emptied_by(outcome, len);
        }
        None => slot.pace = slot.pace.idle_since(now),
    }
    Ok(outcome.count())
}

/// Writes once, as many of the bytes as the share holds.
fn write<M: Machine, S: NonBlocking>(
    slot: &mut Slot<M, S>,
    share: usize,
    now: u64,
) -> Result<usize, NoMemory>
    requires share { 0 < share }
    requires able { IsAble M.agrees M.wants slot.old.machine }
    requires free { IsFree (M.wants slot.old.machine) slot.old.pace now }
    requires read { is_read_due (M.wants slot.old.machine) slot.old.pace now ≡ false }
    requires is_due { is_write_due (M.wants slot.old.machine) slot.old.pace now ≡ true }
    ensures step { IfOk result (λ moved. HasStepped M.agrees M.wants S.did M.left now slot.old slot.new moved []) }
    ensures share { IfOk result (λ moved. moved ≤ share) }
{
    let bytes = slot.machine.to_write();
    let len = bytes.len().min(share);
    let outcome = slot.stream.try_write(&bytes[..len]);
    match outcome.event() {
        Some(event) => tell(slot, event, now)?,
        None => slot.pace = slot.pace.full_since(now),
    }
    Ok(outcome.count())
}

/// Tells the machine that a limit has passed: of what is to be written, or of what is waited for.
fn tell_limit<M: Machine, S: NonBlocking>(slot: &mut Slot<M, S>, now: u64) -> Result<(), NoMemory>
    requires able { IsAble M.agrees M.wants slot.old.machine }
    requires free { IsFree (M.wants slot.old.machine) slot.old.pace now }
    requires read { is_read_due (M.wants slot.old.machine) slot.old.pace now ≡ false }
    requires written { is_write_due (M.wants slot.old.machine) slot.old.pace now ≡ false }
    requires is_due { is_due (M.wants slot.old.machine) slot.old.pace now ≡ true }
    ensures step { OnOk result (HasStepped M.agrees M.wants S.did M.left now slot.old slot.new 0 []) }
{
    if slot.is_write_late(now) {
        tell(slot, StreamEvent::WriteFailed, now)?;
        return Ok(());
    }
    tell(slot, StreamEvent::NothingCame, now)?;
    Ok(())
}

/// Tells the machine of an event, after which its limits begin anew as they do.
fn tell<M: Machine, S>(
    slot: &mut Slot<M, S>,
    event: StreamEvent<'_>,
    now: u64,
) -> Result<(), NoMemory>
    requires may_be_told { MayBeTold (M.wants slot.old.machine) event }
    requires able { IsAble M.agrees M.wants slot.old.machine }
    ensures told { OnOk result (HasToldOne M.agrees M.wants M.left now
        (told_at (M.wants slot.old.machine) event.entry) slot.old slot.new) }
    ensures kept { OnOk result (slot.new.stream ≡ slot.old.stream) }
{
    let writes = !slot.machine.to_write().is_empty();
    slot.machine.on_event(event)?;
    let anew = slot.machine.waits_anew();
    slot.pace = slot.pace.told(event, writes, anew, now);
    Ok(())
}
