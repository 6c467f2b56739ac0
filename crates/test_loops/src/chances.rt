//! Rows of loops over streams that do by chance what streams do.

ghost use Rattle.std.specs.Prelude.{◌≡◌, ◌≤◌, length};

use crate::chance::Chance;
use crate::listed_stream::{Found, Given, ListedStream};
use crate::noted_exchange::NotedExchange;
use crate::row_fault::RowFault;
use crate::runs::{Tells, room, run_all};
use std::alloc::Global;
use std::collections::VecDeque;
use std::fmt::Write;
use ws_loops::{Loop, Mark, Pace, Place, Poller, Readiness, Slot, WaitFailed, Wake};
use ws_machines::Machine;

/// How many things a list has.
const THINGS: usize = 20;

/// How often is waited at most.
const WAITS: u64 = 100_000;

/// `chances SEED COUNT`: so many exchanges over streams that bring bytes, take them, and are ready or not, by chance.
/// How many were told just what their streams did, wrote a beginning of their bytes, and got just what came for them: a
/// stream may end before all is written.
pub fn run_chances(alloc: Global, words: &[&str], out: &mut String) -> Result<(), RowFault> {
    let [seed, count] = words else {
        return Err(RowFault::NotARow);
    };
    let (Ok(seed), Ok(count)) = (seed.parse::<u64>(), count.parse::<usize>()) else {
        return Err(RowFault::NotARow);
    };
    let tally = run_by(alloc, seed, count, None)?;
    write!(out, "{} done, {} right", tally.done, tally.right)?;
    Ok(())
}

/// `scarce SEED COUNT PLACE THINGS`: the same, but the exchange in this place has memory for so many things that it is
/// told; and how many ended for want of memory.
pub fn run_scarce(alloc: Global, words: &[&str], out: &mut String) -> Result<(), RowFault> {
    let [seed, count, place, things] = words else {
        return Err(RowFault::NotARow);
    };
    let (Ok(seed), Ok(count)) = (seed.parse::<u64>(), count.parse::<usize>()) else {
        return Err(RowFault::NotARow);
    };
    let (Ok(place), Ok(memory)) = (place.parse::<usize>(), things.parse::<u64>()) else {
        return Err(RowFault::NotARow);
    };
    let tally = run_by(alloc, seed, count, Some(Scarce { place, memory }))?;
    write!(out, "{} done, {} right, ", tally.done, tally.right)?;
    write!(out, "{} without memory", tally.lost)?;
    Ok(())
}

/// The exchange in this place has memory for so many things that it is told.
#[derive(Clone, Copy)]
struct Scarce {
    place: usize,
    memory: u64,
}

/// Runs so many exchanges. What came of them.
fn run_by(
    alloc: Global,
    seed: u64,
    count: usize,
    scarce: Option<Scarce>,
) -> Result<Tally, RowFault> {
    let mut chance = Chance::new(seed);
    let mut wants = Vec::new(alloc);
    let mut all = Loop::new(alloc, count)?;
    add_slots(alloc, count, scarce, &mut chance, &mut all, &mut wants)?;
    let mut poller = ChancePoller {
        chance,
        places: count,
        answered: 0,
        left: WAITS,
    };
    let mut tally = Tally {
        wants,
        right: 0,
        done: 0,
        lost: 0,
    };
    let mut room = room(alloc)?;
    run_all(&mut poller, &mut all, room.as_mut_slice(), &mut tally)?;
    Ok(tally)
}

/// What an exchange is to write, and what it is to get.
#[derive(Drop)]
struct Wanted {
    writes: Vec<u8>,
    gets: Vec<u8>,
}

/// Adds so many slots, and what each is to write and to get.
fn add_slots(
    alloc: Global,
    count: usize,
    scarce: Option<Scarce>,
    chance: &mut Chance,
    all: &mut Loop<NotedExchange, ListedStream>,
    wants: &mut Vec<Wanted>,
) -> Result<(), RowFault> {
    for place in 0..count {
        let wanted = add_one(alloc, memory_of(scarce, place), chance, all)?;
        wants.push(wanted)?;
    }
    Ok(())
}

/// For how many things the exchange in this place has memory.
fn memory_of(scarce: Option<Scarce>, place: usize) -> u64 {
    match scarce {
        Some(scarce) if scarce.place == place => scarce.memory,
        _ => u64::MAX,
    }
}

/// Adds a slot. What it is to write and to get.
fn add_one(
    alloc: Global,
    memory: u64,
    chance: &mut Chance,
    all: &mut Loop<NotedExchange, ListedStream>,
) -> Result<Wanted, RowFault> {
    let writes = bytes_by(alloc, chance)?;
    let mut gets = Vec::new(alloc);
    let found = found_by(alloc, chance, &mut gets)?;
    let given = given_by(alloc, chance)?;
    let machine = NotedExchange::scarce(alloc, writes.clone()?, usize::MAX, memory);
    let stream = ListedStream::new(alloc, found, given);
    let pace = Pace::begun(0, None, None);
    if let Some(at) = all.free_place() {
        all.put(
            at,
            Slot {
                machine,
                stream,
                pace,
            },
        );
    }
    Ok(Wanted { writes, gets })
}

/// Some bytes.
fn bytes_by(alloc: Global, chance: &mut Chance) -> Result<Vec<u8>, RowFault> {
    let mut bytes = Vec::new(alloc);
    for _ in 0..chance.below(300) {
        bytes.push(chance.byte())?;
    }
    Ok(bytes)
}

/// What reads find: pieces of bytes, which are kept, with nothing ready now and then.
fn found_by(
    alloc: Global,
    chance: &mut Chance,
    gets: &mut Vec<u8>,
) -> Result<VecDeque<Found>, RowFault> {
    let mut found = VecDeque::new(alloc);
    for _ in 0..THINGS {
        if chance.below(2) == 0 {
            found.push_back(Found::NotReady)?;
        } else {
            let piece = bytes_by(alloc, chance)?;
            gets.extend_from_slice(piece.as_slice())?;
            found.push_back(Found::Bytes(piece))?;
        }
    }
    Ok(found)
}

/// What comes of writes: some bytes are taken, or none.
fn given_by(alloc: Global, chance: &mut Chance) -> Result<VecDeque<Given>, RowFault> {
    let mut given = VecDeque::new(alloc);
    for _ in 0..THINGS {
        if chance.below(2) == 0 {
            given.push_back(Given::NotReady)?;
        } else {
            given.push_back(Given::Takes(chance.below(20).saturating_add(1)))?;
        }
    }
    Ok(given)
}

/// It finds each stream ready, or not, by chance.
#[derive(Drop)]
struct ChancePoller {
    chance: Chance,
    places: usize,
    answered: u64,
    left: u64,
}

impl Poller for ChancePoller {
    ghost time = { λ p. p.answered };

    ghost left = { λ p. p.left };

    fn now(&mut self) -> u64 {
        self.answered = self.answered.saturating_add(1);
        self.answered
    }

    fn wait(&mut self, found: &mut [Wake], _until: Option<u64>) -> Result<usize, WaitFailed> {
        if self.left == 0 {
            return Err(WaitFailed);
        }
        self.left -= 1;
        Ok(mark(&mut self.chance, self.places, found))
    }
}

/// Finds streams ready by chance. How many.
fn mark(chance: &mut Chance, places: usize, found: &mut [Wake]) -> usize
    ensures len { length found.new ≡ length found.old }
    ensures count { result ≤ length found.new }
{
    let Ok(bound) = u64::try_from(places) else {
        return 0;
    };
    if bound == 0 {
        return 0;
    }
    for one in found.iter_mut() {
        let at = chance.below(bound);
        let read = chance.below(2) == 0;
        let write = chance.below(2) == 0;
        *one = Wake {
            mark: Mark::Place(at),
            ready: Readiness { read, write },
        };
    }
    found.len()
}

/// How many exchanges are done, how many of these were told what they are to be, and for how many memory ran out.
#[derive(Drop)]
struct Tally {
    wants: Vec<Wanted>,
    right: u64,
    done: u64,
    lost: u64,
}

impl Tells<NotedExchange, ListedStream> for Tally {
    fn tell(
        &mut self,
        at: usize,
        _time: u64,
        ended: Place<NotedExchange, ListedStream>,
    ) -> Result<(), RowFault> {
        let Place::Open(slot) = ended else {
            self.lost = self.lost.saturating_add(1);
            return Ok(());
        };
        let Slot {
            machine,
            stream,
            ..
        } = slot;
        let same = machine.told.as_str() == stream.said.as_str();
        self.done = self.done.saturating_add(1);
        if !machine.is_done() {
            return Ok(());
        }
        let came = machine.into_end()?;
        if let Some(wanted) = self.wants.as_slice().get(at)
            && same
            && came.as_slice() == wanted.gets.as_slice()
            && wanted
                .writes
                .as_slice()
                .starts_with(stream.written.as_slice())
        {
            self.right = self.right.saturating_add(1);
        }
        Ok(())
    }
}
