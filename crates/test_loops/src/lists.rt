//! Rows of loops over streams that do what lists say.

ghost use Rattle.std.specs.Prelude.{[], IfOk};
ghost use Rattle.test_loops.specs.Noted.{IsAbleNoted, noted_agrees};

use crate::listed_poller::{ListedPoller, wakes_by};
use crate::listed_stream::{ListedStream, found_by, given_by};
use crate::noted_exchange::NotedExchange;
use crate::row_fault::RowFault;
use crate::runs::{Tells, room, run_all};
use std::alloc::Global;
use std::fmt::Write;
use ws_formats::{Hex, read_hex};
use ws_loops::{Loop, Pace, Place, Slot};
use ws_machines::Machine;

/// `loop LIMIT DEADLINE WAKES SLOT ..`: exchanges over streams that do what lists say, with a time limit and a
/// deadline, or `-` for none, found ready as `WAKES` says; a `SLOT` is `BYTES/MOST/READS/WRITES`. What each was told,
/// in the order in which they are done, and how often was waited.
pub fn run_lists(alloc: Global, words: &[&str], out: &mut String) -> Result<(), RowFault> {
    let [limit, deadline, wakes, slots @ ..] = words else {
        return Err(RowFault::NotARow);
    };
    let pace = Pace::begun(0, time_of(limit)?, time_of(deadline)?);
    let mut poller = ListedPoller::new(wakes_by(alloc, wakes)?);
    let mut all = loop_by(alloc, slots, pace)?;
    let mut lines = Lines { out };
    let mut room = room(alloc)?;
    run_all(&mut poller, &mut all, room.as_mut_slice(), &mut lines)?;
    write!(lines.out, "waits {}", poller.waits)?;
    Ok(())
}

/// A time, or none.
pub fn time_of(word: &str) -> Result<Option<u64>, RowFault> {
    if word == "-" {
        return Ok(None);
    }
    match word.parse::<u64>() {
        Ok(time) => Ok(Some(time)),
        Err(_) => Err(RowFault::NotARow),
    }
}

/// A loop with the slots of these words.
fn loop_by(
    alloc: Global,
    words: &[&str],
    pace: Pace,
) -> Result<Loop<NotedExchange, ListedStream>, RowFault> {
    let mut all = Loop::new(alloc, words.len())?;
    for word in words {
        let machine = machine_by(alloc, word)?;
        let stream = stream_by(alloc, word)?;
        if let Some(at) = all.free_place() {
            all.put(
                at,
                Slot {
                    machine,
                    stream,
                    pace,
                },
            );
        }
    }
    Ok(all)
}

/// The exchange of a word `BYTES/MOST/READS/WRITES`.
pub fn machine_by(alloc: Global, word: &str) -> Result<NotedExchange, RowFault>
    ensures able { IfOk result (λ machine. IsAbleNoted machine) }
    ensures untold { IfOk result (λ machine. noted_agrees machine machine []) }
{
    let parts: Vec<&str> = word.split('/').collect(alloc)?;
    let [bytes, most, _reads, _writes] = parts.as_slice() else {
        return Err(RowFault::NotARow);
    };
    let Ok(most) = most.parse::<usize>() else {
        return Err(RowFault::NotARow);
    };
    let bytes = read_hex(alloc, bytes.as_bytes())?;
    let machine = NotedExchange::new(alloc, bytes.into_vec(), most);
    Ok(machine)
}

/// The stream of a word `BYTES/MOST/READS/WRITES`.
pub fn stream_by(alloc: Global, word: &str) -> Result<ListedStream, RowFault> {
    let parts: Vec<&str> = word.split('/').collect(alloc)?;
    let [_bytes, _most, reads, writes] = parts.as_slice() else {
        return Err(RowFault::NotARow);
    };
    let (found, given) = (found_by(alloc, reads)?, given_by(alloc, writes)?);
    Ok(ListedStream::new(alloc, found, given))
}

/// What is told of each slot.
#[derive(Drop)]
pub struct Lines<'a> {
    pub out: &'a mut String,
}

impl Tells<NotedExchange, ListedStream> for Lines<'_> {
    fn tell(
        &mut self,
        at: usize,
        time: u64,
        ended: Place<NotedExchange, ListedStream>,
    ) -> Result<(), RowFault> {
        match ended {
            Place::Open(slot) => self.tell_slot(at, time, slot)?,
            Place::Broken => write!(self.out, "{at} at {time}: no memory; ")?,
            Place::Empty | Place::Pending(_) => return Err(RowFault::NotARow),
        }
        Ok(())
    }
}

impl Lines<'_> {
    /// What came of a slot.
    fn tell_slot(
        &mut self,
        at: usize,
        time: u64,
        slot: Slot<NotedExchange, ListedStream>,
    ) -> Result<(), RowFault> {
        let Slot {
            machine,
            stream,
            ..
        } = slot;
        write!(
            self.out,
            "{at} at {time}: told{}; did{}; ",
            machine.told, stream.did
        )?;
        write!(self.out, "wrote {}; ", Hex(stream.written.as_slice()))?;
        if machine.is_done() {
            let came = machine.into_end()?;
            write!(self.out, "got {}; ", Hex(came.as_slice()))?;
        }
        Ok(())
    }
}
