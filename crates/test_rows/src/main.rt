//! `test_rows`: answers rows of calls, for what no command of `wst` reaches. Each line of the standard input is a row:
//! the name of a call and its arguments, parted by one space. Each row is answered by one line. The rows stand in the
//! folder `rows`, and its `run` compares the answers with those that are wanted.
#![tactic(auto)]

mod peers;

use std::alloc::Global;
use std::io;
use std::process::ExitCode;
use test_row_frames::RowFault;
use ws_wire::Role;

fn main(rt: HostRuntime) -> io::Result<ExitCode> {
    let rows = io::read_to_string(rt.alloc(), rt.stdin())?;
    for (place, row) in rows.as_str().lines().enumerate() {
        match answer_to(rt.alloc(), row) {
            Ok(answer) => println!(rt; "{answer}")?,
            Err(fault) => {
                println!(rt; "row {}: {fault}", place.saturating_add(1))?;
                return Ok(ExitCode::FAILURE);
            }
        }
    }
    Ok(ExitCode::SUCCESS)
}

/// The answer to a row.
fn answer_to(alloc: Global, row: &str) -> Result<String, RowFault> {
    let words: Vec<&str> = row.split(' ').collect(alloc)?;
    let mut out = String::new(alloc);
    answer_words(alloc, words.as_slice(), &mut out)?;
    Ok(out)
}

/// Puts the answer to a row of these words.
fn answer_words(alloc: Global, words: &[&str], out: &mut String) -> Result<(), RowFault> {
    let [call, words @ ..] = words else {
        return Err(RowFault::NotARow);
    };
    let is_answered = test_row_frames::answer(alloc, call, words, out)?
        || test_row_sessions::answer(alloc, call, words, out)?
        || test_row_scripts::answer(alloc, call, words, out)?
        || test_row_machines::answer(alloc, call, words, out)?
        || answer_of_peers(alloc, call, words, out)?;
    if is_answered {
        Ok(())
    } else {
        Err(RowFault::NotARow)
    }
}

/// Puts the answer of a call of peers, where it is one of these. Answers whether it is.
fn answer_of_peers(
    alloc: Global,
    call: &str,
    words: &[&str],
    out: &mut String,
) -> Result<bool, RowFault> {
    match call {
        "app" => peers::judge_app(alloc, words, out)?,
        "app_got" => peers::tell_app(alloc, words, out)?,
        "verdict" => peers::tell_verdict(alloc, Role::Server, words, out)?,
        "verdict_client" => peers::tell_verdict(alloc, Role::Client, words, out)?,
        "verdict_of" => peers::tell_script_verdict(alloc, words, out)?,
        "verdicts" => peers::count_passes(alloc, Role::Server, words, out)?,
        "verdicts_client" => peers::count_passes(alloc, Role::Client, words, out)?,
        _ => return Ok(false),
    }
    Ok(true)
}
