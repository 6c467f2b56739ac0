//! Rows of loops over echoes whose buffers are bounded.

ghost use Rattle.std.specs.Prelude.{◌≡◌, ◌≤◌, length};

use crate::bounded_echo::BoundedEcho;
use crate::counted::{counted, is_counted};
use crate::noted_exchange::NotedExchange;
use crate::row_fault::RowFault;
use crate::runs::{Tells, room, run_all};
use std::alloc::Global;
use std::fmt::Write;
use ws_loops::{Loop, Mark, Pace, Place, Poller, Readiness, Slot, WaitFailed, Wake};
use ws_machines::Machine;

/// How often is waited at most.
const WAITS: u64 = 1_000_000;

/// `echo COUNT LEN BUFFER PIECE`: so many exchanges that write so many bytes and get as many, each over an echo that
/// writes what it has read before it reads on, at most PIECE bytes, over two buffers of so many bytes. How many got
/// what they have written.
pub fn run_echoes(alloc: Global, words: &[&str], out: &mut String) -> Result<(), RowFault> {
    let [count, len, buffer, piece] = words else {
        return Err(RowFault::NotARow);
    };
    let (count, len) = (number_of(count)?, number_of(len)?);
    let (buffer, piece) = (number_of(buffer)?, number_of(piece)?);
    let mut all = Loop::new(alloc, count)?;
    for _ in 0..count {
        add_echo(alloc, &mut all, len, buffer, piece)?;
    }
    let mut poller = ReadyPoller {
        places: count,
        next: 0,
        answered: 0,
        left: WAITS,
    };
    let mut tally = Tally { len, right: 0 };
    let mut room = room(alloc)?;
    run_all(&mut poller, &mut all, room.as_mut_slice(), &mut tally)?;
    write!(out, "{} right", tally.right)?;
    Ok(())
}

/// A number.
pub fn number_of(word: &str) -> Result<usize, RowFault> {
    match word.parse::<usize>() {
        Ok(number) => Ok(number),
        Err(_) => Err(RowFault::NotARow),
    }
}

/// Adds a slot.
fn add_echo(
    alloc: Global,
    all: &mut Loop<NotedExchange, BoundedEcho>,
    len: usize,
    buffer: usize,
    piece: usize,
) -> Result<(), RowFault> {
    let bytes = counted(alloc, len)?;
    if let Some(at) = all.free_place() {
        all.put(
            at,
            Slot {
                machine: NotedExchange::new(alloc, bytes, len),
                stream: BoundedEcho::new(alloc, buffer, piece),
                pace: Pace::begun(0, None, None),
            },
        );
    }
    Ok(())
}

/// It finds each stream ready, as many as there is room for, and then those behind them.
#[derive(Drop)]
struct ReadyPoller {
    places: usize,
    next: usize,
    answered: u64,
    left: u64,
}

impl Poller for ReadyPoller {
    ghost time = { λ p. p.answered };

    ghost left = { λ p. p.left };

    fn now(&mut self) -> u64 {
        self.answered
    }

    fn wait(&mut self, found: &mut [Wake], _until: Option<u64>) -> Result<usize, WaitFailed> {
        if self.left == 0 {
            return Err(WaitFailed);
        }
        self.left -= 1;
        for one in found.iter_mut() {
            *one = ready_at(self.next);
            self.next = next_of(self.next, self.places);
        }
        Ok(found.len())
    }
}

/// The stream of this place is found ready.
fn ready_at(at: usize) -> Wake {
    Wake {
        mark: Mark::Place(at),
        ready: Readiness {
            read: true,
            write: true,
        },
    }
}

/// The place behind this one, of so many; behind the last one the first.
fn next_of(at: usize, places: usize) -> usize {
    let next = at.saturating_add(1);
    if next < places { next } else { 0 }
}

/// How many exchanges got what they have written.
#[derive(Drop)]
struct Tally {
    len: usize,
    right: u64,
}

impl Tells<NotedExchange, BoundedEcho> for Tally {
    fn tell(
        &mut self,
        _at: usize,
        _time: u64,
        ended: Place<NotedExchange, BoundedEcho>,
    ) -> Result<(), RowFault> {
        let Place::Open(slot) = ended else {
            return Err(RowFault::NoMemory);
        };
        let Slot { machine, .. } = slot;
        if machine.is_done() {
            let came = machine.into_end()?;
            if came.len() == self.len && is_counted(came.as_slice()) {
                self.right = self.right.saturating_add(1);
            }
        }
        Ok(())
    }
}
