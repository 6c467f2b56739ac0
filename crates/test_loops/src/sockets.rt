//! Rows of a machine that is run over the system's network.

use crate::counted::{counted, is_counted};
use crate::lists::time_of;
use crate::noted_exchange::NotedExchange;
use crate::row_fault::RowFault;
use crate::runs::room;
use std::alloc::Global;
use std::fmt::Write;
use std::net::Net;
use std::time::Clock;
use ws_loops::{NoLines, Poller};
use ws_networks::{Errand, Limits, Met, Missed, run_at};
use wst_network::{ConnectMiss, EndingStream, StreamEnd, SystemStream, system_network};

/// `socket ADDRESS LIMIT DEADLINE LEN MOST`: an exchange that writes so many bytes to an address, and reads at most so
/// many. Why there is no connection, or how many bytes came, whether they are a front of those that were written, and
/// whether a call has failed; and the time, in whole tenths of a second.
pub fn run_socket<N: Net + Clock>(
    alloc: Global,
    net: &N,
    words: &[&str],
    out: &mut String,
) -> Result<(), RowFault> {
    let [address, limit, deadline, len, most] = words else {
        return Err(RowFault::NotARow);
    };
    let (Ok(len), Ok(most)) = (len.parse::<usize>(), most.parse::<usize>()) else {
        return Err(RowFault::NotARow);
    };
    let limits = Limits {
        limit: time_of(limit)?,
        deadline: time_of(deadline)?,
    };
    let Ok((mut network, mut poller)) = system_network(alloc, net) else {
        return Err(RowFault::NoNetwork);
    };
    let machine = NotedExchange::new(alloc, counted(alloc, len)?, most);
    let mut room = room(alloc)?;
    let errand = Errand {
        name: address,
        machine,
        limits,
    };
    let met = run_at(
        alloc,
        &mut network,
        &mut poller,
        &mut NoLines,
        errand,
        room.as_mut_slice(),
    )?;
    put_met(met, out)?;
    write!(out, "; {} tenths", poller.now() / 100)?;
    Ok(())
}

/// What came of it.
fn put_met(met: Met<Vec<u8>, SystemStream, ConnectMiss>, out: &mut String) -> Result<(), RowFault> {
    match met {
        Met::Ended(came, stream) => {
            let right = is_counted(came.as_slice());
            write!(
                out,
                "came {} {}",
                came.len(),
                if right { "right" } else { "wrong" }
            )?;
            if let StreamEnd::Failed(kind) = stream.stream_end() {
                write!(out, " {kind}")?;
            }
        }
        Met::NotMade(Missed::NoAddress) => write!(out, "no address")?,
        Met::NotMade(Missed::TimedOut) => write!(out, "timed out")?,
        Met::NotMade(Missed::Failed(ConnectMiss::NotFound(kind) | ConnectMiss::NotTaken(kind))) => {
            write!(out, "failed: {kind}")?
        }
    }
    Ok(())
}
