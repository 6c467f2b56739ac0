//! Rows of loops of which one slot alone is busy.

ghost use Rattle.std.specs.Prelude.{◌≡◌, ◌<◌, ◌≤◌, length};
ghost use Rattle.ws_loops.specs.Deeds.{FitsTryRead, FitsTryWrite};

use crate::echoes::number_of;
use crate::lists::time_of;
use crate::noted_exchange::NotedExchange;
use crate::row_fault::RowFault;
use crate::runs::room;
use std::alloc::Global;
use std::fmt::Write;
use ws_loops::{
    Ending, Loop, Mark, NoLines, NonBlocking, Pace, Place, Poller, Readiness, Slot, TryRead,
    TryWrite, WaitFailed, Wake,
};
use ws_machines::Machine;

/// `idle COUNT WAKES LIMIT`: so many slots, each with this time limit, or none, of which all but the last have nothing
/// to do, and the last gets a byte each millisecond, so many in all. How many came, and how often was waited.
pub fn run_idle(alloc: Global, words: &[&str], out: &mut String) -> Result<(), RowFault> {
    let [count, wakes, limit] = words else {
        return Err(RowFault::NotARow);
    };
    let (count, wakes) = (number_of(count)?, number_of(wakes)?);
    let pace = Pace::begun(0, time_of(limit)?, None);
    let last = count.saturating_sub(1);
    let mut all = Loop::new(alloc, count)?;
    for at in 0..count {
        let left = if at == last { wakes } else { 0 };
        add_drip(alloc, &mut all, left, pace)?;
    }
    let mut poller = LastPoller {
        last,
        waits: 0,
        answered: 0,
        left: u64::MAX,
    };
    let mut room = room(alloc)?;
    let ending = all.run(&mut poller, &mut NoLines, None, room.as_mut_slice())?;
    if let Ending::Ended(at) = ending
        && at < all.len()
        && let Place::Open(slot) = all.take(at)
        && slot.machine.is_done()
    {
        let Slot { machine, .. } = slot;
        let came = machine.into_end()?;
        write!(out, "came {} at {at}; ", came.len())?;
    }
    write!(out, "waits {}", poller.waits)?;
    Ok(())
}

/// Adds an exchange that reads so many bytes, or that waits for one without end.
fn add_drip(
    alloc: Global,
    all: &mut Loop<NotedExchange, Drip>,
    left: usize,
    pace: Pace,
) -> Result<(), RowFault> {
    if let Some(at) = all.free_place() {
        all.put(
            at,
            Slot {
                machine: NotedExchange::new(alloc, Vec::new(alloc), left.max(1)),
                stream: Drip { left, has: false },
                pace,
            },
        );
    }
    Ok(())
}

/// A stream that has one byte more each time that it was found to have none, so many in all.
#[derive(Drop)]
struct Drip {
    left: usize,
    has: bool,
}

impl NonBlocking for Drip {
    ghost use Rattle.std.specs.Prelude.{⊤};

    ghost did = { λ old new deeds. ⊤ };

    fn try_read(&mut self, room: &mut [u8]) -> TryRead {
        if !self.has || self.left == 0 {
            self.has = true;
            return TryRead::NotReady;
        }
        self.has = false;
        self.left -= 1;
        room[0] = b'a';
        TryRead::Came(1)
    }

    fn try_write(&mut self, bytes: &[u8]) -> TryWrite {
        TryWrite::Taken(bytes.len())
    }

    fn end_direction(&mut self) {}
}

/// It finds the stream of one place ready at each wait, and each wait takes a millisecond.
#[derive(Drop)]
struct LastPoller {
    last: usize,
    waits: u64,
    answered: u64,
    left: u64,
}

impl Poller for LastPoller {
    ghost time = { λ p. p.answered };

    ghost left = { λ p. p.left };

    fn now(&mut self) -> u64 {
        self.answered = self.answered.max(self.waits);
        self.answered
    }

    fn wait(&mut self, found: &mut [Wake], _until: Option<u64>) -> Result<usize, WaitFailed> {
        if self.left == 0 || found.is_empty() {
            return Err(WaitFailed);
        }
        self.left -= 1;
        self.waits = self.waits.saturating_add(1);
        found[0] = Wake {
            mark: Mark::Place(self.last),
            ready: Readiness {
                read: true,
                write: false,
            },
        };
        Ok(1)
    }
}
