//! Rows of a loop that listens over the system's network.

ghost use Rattle.std.specs.Prelude.{◌≡◌, ◌<◌, length, Some, slice_get};
ghost use Rattle.ws_loops.specs.declared.places.Place.TheVariants.{Empty};

use crate::counted::{counted, is_counted};
use crate::echoes::number_of;
use crate::lists::time_of;
use crate::noted_exchange::NotedExchange;
use crate::piece_stream::{PieceListener, PieceStream};
use crate::row_fault::RowFault;
use crate::runs::room;
use std::alloc::Global;
use std::fmt::Write;
use std::net::Net;
use std::time::Clock;
use ws_loops::{Arrival, Loop, NoLines, Pace, Place, Poller, Slot};
use ws_machines::Machine;
use ws_networks::{Unheard, listen};
use wst_network::{ConnectMiss, system_network};

/// How often something arrives at most.
const ARRIVALS: usize = 1000;

/// How clients are served.
#[derive(Clone, Copy)]
struct Service {
    /// How many of them.
    count: usize,
    /// Until when one is waited for.
    until: Option<u64>,
    /// How many bytes are written to each.
    len: usize,
    /// How many bytes are read of each at most.
    most: usize,
}

/// `accept ADDRESS PLACES COUNT UNTIL LEN MOST PIECE`: listens at an address, and serves so many clients in a loop with
/// so many places. To each so many bytes are written, in pieces, and at most so many are read of it. How many came of
/// each, in the order in which they are done, and whether these are a front of those that `counted` makes.
pub fn run_accepting<N: Net + Clock>(
    alloc: Global,
    net: &N,
    words: &[&str],
    out: &mut String,
) -> Result<(), RowFault> {
    let [address, places, count, until, len, most, piece] = words else {
        return Err(RowFault::NotARow);
    };
    let (places, piece) = (number_of(places)?, number_of(piece)?);
    let service = Service {
        count: number_of(count)?,
        until: time_of(until)?,
        len: number_of(len)?,
        most: number_of(most)?,
    };
    let Ok((mut network, mut poller)) = system_network(alloc, net) else {
        return Err(RowFault::NoNetwork);
    };
    match listen(alloc, &mut network, address) {
        Ok(listener) => {
            let mut listener = PieceListener { listener, piece };
            serve_clients(alloc, &mut poller, &mut listener, places, service, out)?;
        }
        Err(why) => put_unheard(why, out)?,
    }
    Ok(())
}

/// Why nothing is listened at.
fn put_unheard(why: Unheard<ConnectMiss>, out: &mut String) -> Result<(), RowFault> {
    match why {
        Unheard::NoAddress => write!(out, "no address")?,
        Unheard::Failed(ConnectMiss::NotFound(kind) | ConnectMiss::NotTaken(kind)) => {
            write!(out, "failed: {kind}")?
        }
    }
    Ok(())
}

/// Serves clients in so many places.
fn serve_clients<P: Poller>(
    alloc: Global,
    poller: &mut P,
    listener: &mut PieceListener,
    len: usize,
    service: Service,
    out: &mut String,
) -> Result<(), RowFault> {
    let mut all = Loop::new(alloc, len)?;
    let mut room = room(alloc)?;
    let room = room.as_mut_slice();
    let mut left = service.count;
    let mut tries = ARRIVALS;
    'arrivals: while left > 0 && tries > 0 {
        tries -= 1;
        let over = serve_next(alloc, poller, listener, &mut all, service, room, out)?;
        left = left.saturating_sub(over);
    }
    Ok(())
}

/// Runs the slots until something arrives, and does what is to be done then. How many clients are served by it; all
/// where none has come in time.
fn serve_next<P: Poller>(
    alloc: Global,
    poller: &mut P,
    listener: &mut PieceListener,
    all: &mut Loop<NotedExchange, PieceStream>,
    service: Service,
    room: &mut [u8],
    out: &mut String,
) -> Result<usize, RowFault>
    requires room { 0 < length room.old }
    ensures len { length room.new ≡ length room.old }
{
    let until = if all.free_place().is_some() {
        service.until
    } else {
        None
    };
    let arrival = all.run_listening(poller, &mut NoLines, listener, until, room)?;
    let now = poller.now();
    match arrival {
        Arrival::Ended(at) => {
            tell_ended(all, at, out)?;
            return Ok(1);
        }
        Arrival::Client(at, stream) => seat(alloc, all, at, now, service, stream)?,
        Arrival::Lost(_) => write!(out, "lost; ")?,
        Arrival::NotAccepted(_) => write!(out, "failed; ")?,
        Arrival::TooLate => {
            write!(out, "late at {} tenths", now / 100)?;
            return Ok(service.count);
        }
    }
    Ok(0)
}

/// Tells what came of the client in this place, which has ended.
fn tell_ended(
    all: &mut Loop<NotedExchange, PieceStream>,
    at: usize,
    out: &mut String,
) -> Result<(), RowFault> {
    if at >= all.len() {
        return Err(RowFault::NotARow);
    }
    match all.take(at) {
        Place::Open(slot) => put_done(slot, out)?,
        Place::Broken => write!(out, "no memory; ")?,
        Place::Empty | Place::Pending(_) => {}
    }
    Ok(())
}

/// What came of a client.
fn put_done(slot: Slot<NotedExchange, PieceStream>, out: &mut String) -> Result<(), RowFault> {
    let Slot { machine, .. } = slot;
    if machine.is_done() {
        let came = machine.into_end()?;
        let word = if is_counted(came.as_slice()) {
            "right"
        } else {
            "wrong"
        };
        write!(out, "came {} {word}; ", came.len())?;
    }
    Ok(())
}

/// Puts a client into its place.
fn seat(
    alloc: Global,
    all: &mut Loop<NotedExchange, PieceStream>,
    at: usize,
    now: u64,
    service: Service,
    stream: PieceStream,
) -> Result<(), RowFault>
    requires empty { slice_get all.old.places at ≡ Some Empty }
{
    let bytes = counted(alloc, service.len)?;
    let machine = NotedExchange::new(alloc, bytes, service.most);
    let pace = Pace::begun(now, None, None);
    all.put(
        at,
        Slot {
            machine,
            stream,
            pace,
        },
    );
    Ok(())
}
