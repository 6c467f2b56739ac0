//! A loop that is run until each of its machines is done.

ghost use Rattle.std.specs.Prelude.{◌≡◌, ◌<◌, length, IfOk, OnOk};

use crate::row_fault::RowFault;
use std::alloc::Global;
use ws_loops::{Ending, Loop, LoopFault, NoLines, NonBlocking, Place, Poller};
use ws_machines::Machine;

/// How many bytes are read at once at most.
const ROOM: usize = 65_536;

/// What is told of a place in which all has ended.
pub trait Tells<M, S> {
    /// What stood in this place had ended by this time.
    fn tell(&mut self, at: usize, time: u64, ended: Place<M, S>) -> Result<(), RowFault>;
}

/// Runs all slots until they have ended, and tells of each as it has.
pub fn run_all<M: Machine + Drop, S: NonBlocking + Drop, P: Poller, T: Tells<M, S>>(
    poller: &mut P,
    all: &mut Loop<M, S>,
    room: &mut [u8],
    tells: &mut T,
) -> Result<(), RowFault>
    requires room { 0 < length room.old }
{
    let mut left = all.len();
    while left > 0 {
        left -= 1;
        if !run_one(poller, all, room, tells)? {
            return Ok(());
        }
    }
    Ok(())
}

/// Runs all slots until one has ended, takes it, and tells of it. False where there is none.
fn run_one<M: Machine + Drop, S: NonBlocking + Drop, P: Poller, T: Tells<M, S>>(
    poller: &mut P,
    all: &mut Loop<M, S>,
    room: &mut [u8],
    tells: &mut T,
) -> Result<bool, RowFault>
    requires room { 0 < length room.old }
    ensures len { length room.new ≡ length room.old }
{
    let ending = all.run(poller, &mut NoLines, None, room)?;
    let Ending::Ended(at) = ending else {
        return Ok(false);
    };
    if at >= all.len() {
        return Ok(false);
    }
    let ended = all.take(at);
    tells.tell(at, poller.now(), ended)?;
    Ok(true)
}

/// Room to read into.
pub fn room(alloc: Global) -> Result<Vec<u8>, RowFault>
    ensures { IfOk result (λ room. 0 < length room.items) }
{
    let room = vec![in alloc; 0; ROOM]?;
    Ok(room)
}

impl From<LoopFault> for RowFault {
    fn from(fault: LoopFault) -> RowFault {
        match fault {
            LoopFault::NoMemory => RowFault::NoMemory,
            LoopFault::WaitFailed => RowFault::Stuck,
            LoopFault::NoOutput => RowFault::NotARow,
        }
    }
}
