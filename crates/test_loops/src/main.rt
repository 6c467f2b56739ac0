//! `test_loops`: answers rows of loops over streams and networks in memory, which are ready, fail and end as a row
//! says, and over the system's network. Each line of the standard input is a row: the name of a call and its arguments,
//! parted by one space. Each row is answered by one line. The rows stand in `rows/loops`, and `rows/run` compares the
//! answers with those that are wanted.
#![tactic(auto)]

mod accepts;
mod bounded_echo;
mod chance;
mod chances;
mod counted;
mod dials;
mod echoes;
mod idles;
mod listed_network;
mod listed_poller;
mod listed_stream;
mod lists;
mod lookups;
mod meetings;
mod noted_exchange;
mod piece_stream;
mod row_fault;
mod runs;
mod servings;
mod sockets;

use lookups::ListedNames;
use row_fault::RowFault;
use std::alloc::Global;
use std::io;
use std::net::Net;
use std::process::ExitCode;
use std::time::Clock;

fn main(rt: HostRuntime) -> io::Result<ExitCode> {
    let rows = io::read_to_string(rt.alloc(), rt.stdin())?;
    let net = ListedNames { net: &rt };
    for (place, row) in rows.as_str().lines().enumerate() {
        match answer_to(rt.alloc(), &net, row) {
            Ok(answer) => println!(rt; "{answer}")?,
            Err(RowFault::Stuck) => println!(rt; "stuck")?,
            Err(fault) => {
                println!(rt; "row {}: {fault}", place.saturating_add(1))?;
                return Ok(ExitCode::FAILURE);
            }
        }
    }
    Ok(ExitCode::SUCCESS)
}

/// The answer to a row.
fn answer_to<N: Net + Clock>(alloc: Global, net: &N, row: &str) -> Result<String, RowFault> {
    let words: Vec<&str> = row.split(' ').collect(alloc)?;
    let mut out = String::new(alloc);
    let [call, words @ ..] = words.as_slice() else {
        return Err(RowFault::NotARow);
    };
    match *call {
        "loop" => lists::run_lists(alloc, words, &mut out)?,
        "chances" => chances::run_chances(alloc, words, &mut out)?,
        "scarce" => chances::run_scarce(alloc, words, &mut out)?,
        "echo" => echoes::run_echoes(alloc, words, &mut out)?,
        "idle" => idles::run_idle(alloc, words, &mut out)?,
        "dial" => dials::run_dials(alloc, words, &mut out)?,
        "meet" => meetings::run_meeting(alloc, words, &mut out)?,
        "serve" => servings::run_serving(alloc, words, &mut out)?,
        "places" => servings::run_places(alloc, words, &mut out)?,
        "look_up" => lookups::run_lookup(alloc, net, words, &mut out)?,
        "accept" => accepts::run_accepting(alloc, net, words, &mut out)?,
        "socket" => sockets::run_socket(alloc, net, words, &mut out)?,
        _ => return Err(RowFault::NotARow),
    }
    Ok(out)
}
