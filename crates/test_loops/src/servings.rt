//! Rows of loops that listen, and of the places of a loop.

ghost use Rattle.std.specs.Prelude.{◌≡◌, ◌<◌, length, Some, slice_get};
ghost use Rattle.ws_loops.specs.declared.places.Place.TheVariants.{Empty};

use crate::listed_network::{ListedListener, ListedNetwork, Miss};
use crate::listed_poller::{ListedPoller, wakes_by};
use crate::listed_stream::ListedStream;
use crate::lists::{Lines, machine_by, stream_by, time_of};
use crate::meetings::put_miss;
use crate::noted_exchange::NotedExchange;
use crate::row_fault::RowFault;
use crate::runs::{Tells, room, run_all};
use std::alloc::Global;
use std::fmt::Write;
use ws_loops::{Arrival, Loop, NoLines, Pace, Poller, Slot};
use ws_networks::{Network, Unheard, listen};

/// How often something arrives at most.
const ARRIVALS: usize = 1000;

/// `serve PLACES UNTIL BINDS ACCEPTS WAKES SLOT ..`: a loop with so many places that listens at a name whose addresses
/// can be listened at, or not, as `BINDS` says. Clients come as `ACCEPTS` says, until this time, each with the exchange
/// and the stream of the next `SLOT`. What the network did, who came when, and what each exchange was told, in the
/// order in which they are done; and how often was waited.
pub fn run_serving(alloc: Global, words: &[&str], out: &mut String) -> Result<(), RowFault> {
    let [places, until, binds, accepts, wakes, slots @ ..] = words else {
        return Err(RowFault::NotARow);
    };
    let Ok(places) = places.parse::<usize>() else {
        return Err(RowFault::NotARow);
    };
    let until = time_of(until)?;
    let mut network = ListedNetwork::new(alloc, binds, "", accepts, slots)?;
    let mut poller = ListedPoller::new(wakes_by(alloc, wakes)?);
    let listened = listen(alloc, &mut network, "name");
    if let Ok(listener) = &listened {
        let _ = network.address_of(listener);
    }
    write!(out, "{}: ", network.did.as_str().trim_start())?;
    match listened {
        Ok(listener) => {
            serve_all(alloc, &mut poller, listener, places, until, out)?;
            write!(out, "waits {}", poller.waits)?;
        }
        Err(why) => put_unheard(why, out)?,
    }
    Ok(())
}

/// Why nothing is listened at.
fn put_unheard(why: Unheard<Miss>, out: &mut String) -> Result<(), RowFault> {
    match why {
        Unheard::NoAddress => write!(out, "no address")?,
        Unheard::Failed(why) => put_miss(why, out)?,
    }
    Ok(())
}

/// Serves clients in so many places while some may come, and then those that are there.
fn serve_all(
    alloc: Global,
    poller: &mut ListedPoller,
    listener: ListedListener<'_>,
    len: usize,
    until: Option<u64>,
    out: &mut String,
) -> Result<(), RowFault> {
    let mut all = Loop::new(alloc, len)?;
    let mut room = room(alloc)?;
    let mut listener = listener;
    let mut lines = Lines { out };
    let room = room.as_mut_slice();
    let mut goes_on = true;
    let mut left = ARRIVALS;
    'arrivals: while goes_on && left > 0 {
        left -= 1;
        goes_on = serve_next(
            alloc,
            poller,
            &mut listener,
            &mut all,
            until,
            room,
            &mut lines,
        )?;
    }
    run_all(poller, &mut all, room, &mut lines)?;
    Ok(())
}

/// Runs the slots until something arrives, and does what is to be done then. While no place is empty none is too late.
/// False where no client is to come any more, or none has come in time.
fn serve_next(
    alloc: Global,
    poller: &mut ListedPoller,
    listener: &mut ListedListener<'_>,
    all: &mut Loop<NotedExchange, ListedStream>,
    until: Option<u64>,
    room: &mut [u8],
    lines: &mut Lines<'_>,
) -> Result<bool, RowFault>
    requires room { 0 < length room.old }
    ensures len { length room.new ≡ length room.old }
{
    if !listener.has_clients() {
        return Ok(false);
    }
    let until = if all.free_place().is_some() {
        until
    } else {
        None
    };
    let arrival = all.run_listening(poller, &mut NoLines, listener, until, room)?;
    let now = poller.now();
    match arrival {
        Arrival::Ended(at) => tell_ended(all, at, now, lines)?,
        Arrival::Client(at, stream) => {
            write!(lines.out, "client {at} at {now}; ")?;
            seat(alloc, all, at, now, listener.word(), stream)?;
        }
        Arrival::Lost(_) => write!(lines.out, "lost at {now}; ")?,
        Arrival::NotAccepted(_) => write!(lines.out, "failed at {now}; ")?,
        Arrival::TooLate => {
            write!(lines.out, "late at {now}; ")?;
            return Ok(false);
        }
    }
    Ok(true)
}

/// Tells of what stood in this place, which has ended.
fn tell_ended(
    all: &mut Loop<NotedExchange, ListedStream>,
    at: usize,
    now: u64,
    lines: &mut Lines<'_>,
) -> Result<(), RowFault> {
    if at >= all.len() {
        return Err(RowFault::NotARow);
    }
    let ended = all.take(at);
    lines.tell(at, now, ended)?;
    Ok(())
}

/// Puts a client into its place, with the exchange of its word.
fn seat(
    alloc: Global,
    all: &mut Loop<NotedExchange, ListedStream>,
    at: usize,
    now: u64,
    word: Option<&str>,
    stream: ListedStream,
) -> Result<(), RowFault>
    requires empty { slice_get all.old.places at ≡ Some Empty }
{
    let Some(word) = word else {
        return Err(RowFault::NotARow);
    };
    let machine = machine_by(alloc, word)?;
    let pace = Pace::begun(now, None, None);
    all.put(
        at,
        Slot {
            machine,
            stream,
            pace,
        },
    );
    Ok(())
}

/// `places LEN WORD ..`: so many places; `+` puts a slot, of which the place is told, or `full`, and a number takes the
/// slot of that place.
pub fn run_places(alloc: Global, words: &[&str], out: &mut String) -> Result<(), RowFault> {
    let [len, words @ ..] = words else {
        return Err(RowFault::NotARow);
    };
    let Ok(len) = len.parse::<usize>() else {
        return Err(RowFault::NotARow);
    };
    let mut all = Loop::new(alloc, len)?;
    for word in words {
        one_word(alloc, &mut all, word, out)?;
    }
    write!(out, "of {}", all.len())?;
    Ok(())
}

/// Puts a slot, or takes one, as a word says.
fn one_word(
    alloc: Global,
    all: &mut Loop<NotedExchange, ListedStream>,
    word: &str,
    out: &mut String,
) -> Result<(), RowFault> {
    if word != "+" {
        take_one(all, word)?;
        return Ok(());
    }
    match all.free_place() {
        Some(at) => {
            write!(out, "{at} ")?;
            put_one(alloc, all, at)?;
        }
        None => write!(out, "full ")?,
    }
    Ok(())
}

/// Puts an exchange that does nothing.
fn put_one(
    alloc: Global,
    all: &mut Loop<NotedExchange, ListedStream>,
    at: usize,
) -> Result<(), RowFault>
    requires empty { slice_get all.old.places at ≡ Some Empty }
{
    let machine = machine_by(alloc, "-/0/-/-")?;
    let stream = stream_by(alloc, "-/0/-/-")?;
    let pace = Pace::begun(0, None, None);
    all.put(
        at,
        Slot {
            machine,
            stream,
            pace,
        },
    );
    Ok(())
}

/// Takes the slot of the place that this number names.
fn take_one(all: &mut Loop<NotedExchange, ListedStream>, word: &str) -> Result<(), RowFault> {
    let Ok(at) = word.parse::<usize>() else {
        return Err(RowFault::NotARow);
    };
    if at >= all.len() {
        return Err(RowFault::NotARow);
    }
    let _ = all.take(at);
    Ok(())
}
