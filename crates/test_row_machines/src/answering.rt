//! Which row is answered by which call.

use crate::{admissions, echoes, machine_runs, probes, testers};
use std::alloc::Global;
use test_row_frames::RowFault;

/// Puts the answer of a call, where it is one of these. Answers whether it is.
pub fn answer(
    alloc: Global,
    call: &str,
    words: &[&str],
    out: &mut String,
) -> Result<bool, RowFault> {
    match call {
        "tester" => testers::tell_tester(alloc, words, out)?,
        "exchange" => machine_runs::run_exchange(alloc, words, out)?,
        "admit" => admissions::tell_admission(alloc, words, out)?,
        "echoing" => echoes::tell_echo(alloc, words, out)?,
        "probe" => probes::tell_probe(alloc, words, out)?,
        "test_over" => machine_runs::run_tester(alloc, words, out)?,
        _ => return Ok(false),
    }
    Ok(true)
}
