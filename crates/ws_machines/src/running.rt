//! The run of one machine over one stream that waits.

ghost use Rattle.std.specs.Prelude.{◌≡◌, ◌<◌, [], true, false, length, OnOk};
ghost use Rattle.ws_machines.specs.Machines.{DidOne, HasNext, IsRunning, RunTogether, ServedOne};

use crate::machine::Machine;
use crate::stream::{Stream, StreamEvent};

/// Serves a machine over a stream until it is done.
pub fn run_machine<M: Machine, S: Stream>(
    machine: &mut M,
    stream: &mut S,
    room: &mut [u8],
) -> Result<(), S::Fault>
    requires room { 0 < length room.old }
    requires goes_on { HasNext (M.wants machine.old) }
    requires running { IsRunning M.agrees machine.old }
    ensures told { OnOk result (RunTogether M.agrees S.did machine.old machine.new stream.old stream.new) }
    ensures done { OnOk result ((M.wants machine.new).done ≡ true) }
{
    while !machine.is_done() {
        serve(machine, stream, room)?;
    }
    Ok(())
}

/// Does one thing that the machine wants, and tells it what came of that: its lines are reported first, then its own
/// direction is ended, then what it wants is written, and then it is read, into `room`. Also where memory ran out the
/// stream has done that one thing; only of lines that could not be reported nothing is said.
pub fn serve<M: Machine, S: Stream>(
    machine: &mut M,
    stream: &mut S,
    room: &mut [u8],
) -> Result<(), S::Fault>
    requires room { 0 < length room.old }
    requires goes_on { HasNext (M.wants machine.old) }
    requires undone { (M.wants machine.old).done ≡ false }
    ensures served { OnOk result (ServedOne M.agrees M.wants S.did machine.old machine.new stream.old stream.new) }
    ensures goes_on { OnOk result (HasNext (M.wants machine.new)) }
    ensures nears { OnOk result (IsRunning M.agrees machine.old → M.left machine.new < M.left machine.old) }
    ensures did { (M.wants machine.old).report ≡ [] → DidOne S.did stream.old stream.new }
    ensures len { length room.new ≡ length room.old }
{
    act(machine, stream, room)?;
    if machine.waits_anew() {
        stream.begin_wait();
    }
    Ok(())
}

/// Does one thing that the machine wants, and tells it what came of that.
fn act<M: Machine, S: Stream>(
    machine: &mut M,
    stream: &mut S,
    room: &mut [u8],
) -> Result<(), S::Fault>
    requires room { 0 < length room.old }
    requires goes_on { HasNext (M.wants machine.old) }
    requires undone { (M.wants machine.old).done ≡ false }
    ensures served { OnOk result (ServedOne M.agrees M.wants S.did machine.old machine.new stream.old stream.new) }
    ensures goes_on { OnOk result (HasNext (M.wants machine.new)) }
    ensures nears { OnOk result (IsRunning M.agrees machine.old → M.left machine.new < M.left machine.old) }
    ensures did { (M.wants machine.old).report ≡ [] → DidOne S.did stream.old stream.new }
    ensures len { length room.new ≡ length room.old }
{
    if !machine.to_report().is_empty() {
        report(machine, stream)?;
        return Ok(());
    }
    if machine.wants_end() {
        end_direction(machine, stream)?;
        return Ok(());
    }
    if !machine.to_write().is_empty() {
        write(machine, stream)?;
        return Ok(());
    }
    read(machine, stream, room)?;
    Ok(())
}

/// Reports the lines of the machine.
fn report<M: Machine, S: Stream>(machine: &mut M, stream: &mut S) -> Result<(), S::Fault>
    requires undone { (M.wants machine.old).done ≡ false }
    requires wanted { 0 < length (M.wants machine.old).report }
    ensures served { OnOk result (ServedOne M.agrees M.wants S.did machine.old machine.new stream.old stream.new) }
    ensures goes_on { OnOk result (HasNext (M.wants machine.new)) }
    ensures nears { OnOk result (IsRunning M.agrees machine.old → M.left machine.new < M.left machine.old) }
{
    stream.report(machine.to_report())?;
    machine.on_event(StreamEvent::Reported)?;
    Ok(())
}

/// Ends the own direction of the machine.
fn end_direction<M: Machine, S: Stream>(machine: &mut M, stream: &mut S) -> Result<(), S::Fault>
    requires undone { (M.wants machine.old).done ≡ false }
    requires wanted { (M.wants machine.old).end ≡ true }
    requires reported { (M.wants machine.old).report ≡ [] }
    ensures served { OnOk result (ServedOne M.agrees M.wants S.did machine.old machine.new stream.old stream.new) }
    ensures goes_on { OnOk result (HasNext (M.wants machine.new)) }
    ensures nears { OnOk result (IsRunning M.agrees machine.old → M.left machine.new < M.left machine.old) }
    ensures did { DidOne S.did stream.old stream.new }
{
    stream.end_direction();
    machine.on_event(StreamEvent::DirectionEnded)?;
    Ok(())
}

/// Writes once.
fn write<M: Machine, S: Stream>(machine: &mut M, stream: &mut S) -> Result<(), S::Fault>
    requires undone { (M.wants machine.old).done ≡ false }
    requires wanted { 0 < length (M.wants machine.old).write }
    requires reported { (M.wants machine.old).report ≡ [] }
    requires ended { (M.wants machine.old).end ≡ false }
    ensures served { OnOk result (ServedOne M.agrees M.wants S.did machine.old machine.new stream.old stream.new) }
    ensures goes_on { OnOk result (HasNext (M.wants machine.new)) }
    ensures nears { OnOk result (IsRunning M.agrees machine.old → M.left machine.new < M.left machine.old) }
    ensures did { DidOne S.did stream.old stream.new }
{
    let outcome = stream.write(machine.to_write());
    machine.on_event(outcome.event())?;
    Ok(())
}

/// Reads once, as many bytes as the machine wants, or as the room holds.
fn read<M: Machine, S: Stream>(
    machine: &mut M,
    stream: &mut S,
    room: &mut [u8],
) -> Result<(), S::Fault>
    requires room { 0 < length room.old }
    requires undone { (M.wants machine.old).done ≡ false }
    requires wanted { 0 < (M.wants machine.old).room }
    requires written { (M.wants machine.old).write ≡ [] }
    requires reported { (M.wants machine.old).report ≡ [] }
    requires ended { (M.wants machine.old).end ≡ false }
    ensures served { OnOk result (ServedOne M.agrees M.wants S.did machine.old machine.new stream.old stream.new) }
    ensures goes_on { OnOk result (HasNext (M.wants machine.new)) }
    ensures nears { OnOk result (IsRunning M.agrees machine.old → M.left machine.new < M.left machine.old) }
    ensures did { DidOne S.did stream.old stream.new }
    ensures len { length room.new ≡ length room.old }
{
    let len = machine.room().min(room.len());
    let place = &mut room[..len];
    let outcome = stream.read(place);
    machine.on_event(outcome.event(place))?;
    Ok(())
}
