//! `test_devices`: answers rows of calls over devices that fail, that move few bytes a call, or that note what they are
//! asked, and over a network in memory. Each line of the standard input is a row: the name of a call, its settings and
//! its arguments, parted by one space. Each row is answered by one line. The rows stand in the folder `rows/devices`,
//! and `rows/run` compares the answers with those that are wanted.
#![tactic(auto)]

mod books;
mod commands;
mod memory_net;
mod memory_network;

use std::alloc::Global;
use std::io;
use std::process::ExitCode;
use test_row_frames::RowFault;

fn main(rt: HostRuntime) -> io::Result<ExitCode> {
    let rows = io::read_to_string(rt.alloc(), rt.stdin())?;
    for (place, row) in rows.as_str().lines().enumerate() {
        match answer_to(rt.alloc(), row) {
            Ok(answer) => println!(rt; "{answer}")?,
            Err(fault) => {
                println!(rt; "row {}: {fault}", place.saturating_add(1))?;
                return Ok(ExitCode::FAILURE);
            }
        }
    }
    Ok(ExitCode::SUCCESS)
}

/// The answer to a row.
fn answer_to(alloc: Global, row: &str) -> Result<String, RowFault> {
    let words: Vec<&str> = row.split(' ').collect(alloc)?;
    let mut out = String::new(alloc);
    answer_words(alloc, words.as_slice(), &mut out)?;
    Ok(out)
}

/// Puts the answer to a row of these words.
fn answer_words(alloc: Global, words: &[&str], out: &mut String) -> Result<(), RowFault> {
    let [call, words @ ..] = words else {
        return Err(RowFault::NotARow);
    };
    let is_answered = test_device_calls::answer(alloc, call, words, out)?
        || answer_of_runs(alloc, call, words, out)?;
    if is_answered {
        Ok(())
    } else {
        Err(RowFault::NotARow)
    }
}

/// Puts the answer of a whole run, where the call is one. Answers whether it is.
fn answer_of_runs(
    alloc: Global,
    call: &str,
    words: &[&str],
    out: &mut String,
) -> Result<bool, RowFault> {
    match call {
        "run" => commands::run_command(alloc, words, out)?,
        "no_words" => commands::tell_no_words(alloc, words, out)?,
        _ => return Ok(false),
    }
    Ok(true)
}
