//! Rows of a machine that is run over a connection to a name.

use crate::listed_network::{ListedNetwork, Miss};
use crate::listed_poller::{ListedPoller, wakes_by};
use crate::listed_stream::ListedStream;
use crate::lists::{machine_by, time_of};
use crate::row_fault::RowFault;
use crate::runs::room;
use std::alloc::Global;
use std::fmt::Write;
use ws_formats::Hex;
use ws_loops::{NoLines, Poller};
use ws_networks::{Errand, Limits, Met, Missed, run_at};

/// `meet LIMIT DEADLINE TRIES WAKES SLOT`: an exchange over a connection to a name, whose addresses take connections as
/// `TRIES` says. What the network did; why there is no connection, or what its stream did, what was written, and what
/// came of the exchange; and how often was waited.
pub fn run_meeting(alloc: Global, words: &[&str], out: &mut String) -> Result<(), RowFault> {
    let [limit, deadline, tries, wakes, slot] = words else {
        return Err(RowFault::NotARow);
    };
    let limits = Limits {
        limit: time_of(limit)?,
        deadline: time_of(deadline)?,
    };
    let mut network = ListedNetwork::new(alloc, tries, slot, "", &[])?;
    let mut poller = ListedPoller::new(wakes_by(alloc, wakes)?);
    let machine = machine_by(alloc, slot)?;
    let mut room = room(alloc)?;
    let errand = Errand {
        name: "name",
        machine,
        limits,
    };
    let met = run_at(
        alloc,
        &mut network,
        &mut poller,
        &mut NoLines,
        errand,
        room.as_mut_slice(),
    )?;
    write!(out, "{}", network.did.as_str().trim_start())?;
    write!(out, " at {}: ", poller.now())?;
    put_met(met, out)?;
    write!(out, "; waits {}", poller.waits)?;
    Ok(())
}

/// What came of it.
fn put_met(met: Met<Vec<u8>, ListedStream, Miss>, out: &mut String) -> Result<(), RowFault> {
    match met {
        Met::Ended(came, stream) => {
            write!(out, "did{}; wrote ", stream.did)?;
            write!(out, "{}; ", Hex(stream.written.as_slice()))?;
            write!(out, "got {}", Hex(came.as_slice()))?;
        }
        Met::NotMade(why) => put_missed(why, out)?,
    }
    Ok(())
}

/// Why there is no connection.
pub fn put_missed(why: Missed<Miss>, out: &mut String) -> Result<(), RowFault> {
    match why {
        Missed::NoAddress => write!(out, "no address")?,
        Missed::TimedOut => write!(out, "timed out")?,
        Missed::Failed(why) => put_miss(why, out)?,
    }
    Ok(())
}

/// The reason that the network says.
pub fn put_miss(why: Miss, out: &mut String) -> Result<(), RowFault> {
    match why {
        Miss::NotFound => write!(out, "not found")?,
        Miss::NotBegun(at) => write!(out, "not begun {at}")?,
        Miss::Failed(at) => write!(out, "failed {at}")?,
        Miss::NotBound(at) => write!(out, "not bound {at}")?,
        Miss::NotAccepted => write!(out, "not accepted")?,
    }
    Ok(())
}
