//! Rows of loops over a network: exchanges over connections that are begun, asked for, and made or missed in one loop.

ghost use Rattle.std.specs.Prelude.{◌≡◌, ◌<◌, length};

use crate::listed_network::{ListedNetwork, Miss, Try};
use crate::listed_poller::{ListedPoller, wakes_by};
use crate::listed_stream::ListedStream;
use crate::lists::{Lines, machine_by, stream_by, time_of};
use crate::meetings::put_missed;
use crate::noted_exchange::NotedExchange;
use crate::row_fault::RowFault;
use crate::runs::{Tells, room};
use std::alloc::Global;
use std::fmt::Write;
use ws_loops::{Ending, NoLines, Pace, Place, Poller, Slot};
use ws_networks::{Attempt, Bounds, Limits, NetworkLoop, Taken};

/// A loop over the network of a list.
type ListedLoop = NetworkLoop<NotedExchange, usize, ListedStream, Miss>;

/// `dial LIMIT DEADLINE BEGUN WAKES CALL ..`: a loop over a network with a place for each `CALL`, which is
/// `TRIES@SLOT`: an exchange over a connection to the first of those addresses that takes it, or a slot that is put,
/// where `TRIES` is `+`. Limits count from 0, and connections are begun at `BEGUN`. Addresses have their numbers over
/// all calls. What each exchange was told, or why there is no connection, in the order in which they end; what the
/// network did; and how often was waited.
pub fn run_dials(alloc: Global, words: &[&str], out: &mut String) -> Result<(), RowFault> {
    let [limit, deadline, begun, wakes, calls @ ..] = words else {
        return Err(RowFault::NotARow);
    };
    let limits = Limits {
        limit: time_of(limit)?,
        deadline: time_of(deadline)?,
    };
    let mut poller = ListedPoller::new(wakes_by(alloc, wakes)?);
    let bounds = limits.from(poller.now());
    if let Some(begun) = time_of(begun)? {
        poller.wait(&mut [], Some(begun))?;
    }
    let mut network = ListedNetwork::of(alloc, tries_by(alloc, calls)?);
    let mut all = NetworkLoop::new(alloc, calls.len())?;
    begin_all(alloc, &mut network, &mut poller, &mut all, calls, bounds)?;
    let mut lines = Lines { out };
    let mut room = room(alloc)?;
    run_all(
        &mut network,
        &mut poller,
        &mut all,
        room.as_mut_slice(),
        &mut lines,
    )?;
    write!(
        lines.out,
        "network{}; waits {}",
        network.did.as_str(),
        poller.waits
    )?;
    Ok(())
}

/// What the addresses of these calls do, one call after the other.
fn tries_by<'a>(alloc: Global, calls: &[&'a str]) -> Result<Vec<Try<'a>>, RowFault> {
    let mut tries = Vec::new(alloc);
    for call in calls {
        let Some((words, stream)) = call.split_once('@') else {
            return Err(RowFault::NotARow);
        };
        if !has_none(words) {
            for word in words.split(',') {
                tries.push(Try { word, stream })?;
            }
        }
    }
    Ok(tries)
}

/// Begins a connection for each call, in a place of its own, or puts its slot there.
fn begin_all(
    alloc: Global,
    network: &mut ListedNetwork<'_>,
    poller: &mut ListedPoller,
    all: &mut ListedLoop,
    calls: &[&str],
    bounds: Bounds,
) -> Result<(), RowFault> {
    let mut first = 0usize;
    for call in calls {
        let Some((words, slot)) = call.split_once('@') else {
            return Err(RowFault::NotARow);
        };
        let addresses = numbers_from(alloc, words, first)?;
        first = first.saturating_add(addresses.len());
        let machine = machine_by(alloc, slot)?;
        let stream = stream_by(alloc, slot)?;
        let now = poller.now();
        let Some(at) = all.free_place() else {
            return Ok(());
        };
        if words == "+" {
            let pace = Pace::begun(now, bounds.limit, bounds.until);
            all.put(
                at,
                Slot {
                    machine,
                    stream,
                    pace,
                },
            );
        } else {
            let attempt = Attempt {
                addresses,
                bounds,
                machine,
            };
            all.connect(network, at, attempt, now);
        }
    }
    Ok(())
}

/// Whether a call has no address: it tries none, or its slot is put.
fn has_none(words: &str) -> bool {
    words == "-" || words == "+"
}

/// The numbers of the addresses of a call, from this one on.
fn numbers_from(alloc: Global, words: &str, first: usize) -> Result<Vec<usize>, RowFault> {
    let mut numbers = Vec::new(alloc);
    if has_none(words) {
        return Ok(numbers);
    }
    let mut next = first;
    for _word in words.split(',') {
        numbers.push(next)?;
        next = next.saturating_add(1);
    }
    Ok(numbers)
}

/// Runs the loop until each place has ended, and tells of each as it has.
fn run_all(
    network: &mut ListedNetwork<'_>,
    poller: &mut ListedPoller,
    all: &mut ListedLoop,
    room: &mut [u8],
    lines: &mut Lines<'_>,
) -> Result<(), RowFault>
    requires room { 0 < length room.old }
{
    let mut left = all.len();
    while left > 0 {
        left -= 1;
        if !run_one(network, poller, all, room, lines)? {
            return Ok(());
        }
    }
    Ok(())
}

/// Runs the loop until one place has ended, takes what stands there, and tells of it. False where none has.
fn run_one(
    network: &mut ListedNetwork<'_>,
    poller: &mut ListedPoller,
    all: &mut ListedLoop,
    room: &mut [u8],
    lines: &mut Lines<'_>,
) -> Result<bool, RowFault>
    requires room { 0 < length room.old }
    ensures len { length room.new ≡ length room.old }
{
    let ending = all.run(network, poller, &mut NoLines, None, room)?;
    let Ending::Ended(at) = ending else {
        return Ok(false);
    };
    if at >= all.len() {
        return Ok(false);
    }
    let ended = all.take(at);
    tell(at, poller.now(), ended, lines)?;
    Ok(true)
}

/// Tells of what stood in a place, which has ended.
fn tell(
    at: usize,
    time: u64,
    ended: Taken<NotedExchange, ListedStream, Miss>,
    lines: &mut Lines<'_>,
) -> Result<(), RowFault> {
    match ended {
        Taken::Slot(slot) => lines.tell(at, time, Place::Open(slot))?,
        Taken::Broken => lines.tell(at, time, Place::Broken)?,
        Taken::Missed(why) => {
            write!(lines.out, "{at} at {time}: ")?;
            put_missed(why, lines.out)?;
            write!(lines.out, "; ")?;
        }
        Taken::Nothing | Taken::UnderWay => return Err(RowFault::NotARow),
    }
    Ok(())
}
