//! Which row is answered by which call.

use crate::{captures, cases, explanations, paths, scripts, sweeps};
use std::alloc::Global;
use test_row_frames::RowFault;
use ws_wire::Role;

/// Puts the answer of a call, where it is one of these. Answers whether it is.
pub fn answer(
    alloc: Global,
    call: &str,
    words: &[&str],
    out: &mut String,
) -> Result<bool, RowFault> {
    match call {
        "cases" => cases::count_group(alloc, words, out)?,
        "case" => cases::tell_case(alloc, words, out)?,
        "client_fault" => cases::tell_client_fault(alloc, words, out)?,
        "script" => scripts::tell_script(alloc, words, out)?,
        "script_back" => scripts::write_again(alloc, words, out)?,
        "script_of" => scripts::write_case(alloc, words, out)?,
        "scripts_kept" => scripts::count_kept(alloc, words, out)?,
        "whole_lines" => sweeps::count_whole(alloc, words, out)?,
        "short_script" => sweeps::tell_script(alloc, words, out)?,
        "short_cases" => sweeps::tell_cases(alloc, words, out)?,
        _ => return answer_of_paths(alloc, call, words, out),
    }
    Ok(true)
}

/// Puts the answer of a call of paths or captures.
fn answer_of_paths(
    alloc: Global,
    call: &str,
    words: &[&str],
    out: &mut String,
) -> Result<bool, RowFault> {
    match call {
        "paths" => paths::tell_purposes(alloc, words, out)?,
        "case_count" => paths::tell_count(alloc, words, out)?,
        "case_info" => paths::tell_info(alloc, words, out)?,
        "told" => paths::tell_script(alloc, words, out)?,
        "capture" => captures::write_again(alloc, words, out)?,
        "capture_fault" => captures::tell_no_memory(words, out)?,
        "judge" => captures::judge_turns(alloc, words, out)?,
        "judge_client" => captures::judge_client_turns(alloc, words, out)?,
        "protocol" => captures::judge_by_protocol(alloc, Role::Server, words, out)?,
        "protocol_client" => captures::judge_by_protocol(alloc, Role::Client, words, out)?,
        "explain" => explanations::explain_turns(alloc, words, out)?,
        "written" => captures::write_turns(alloc, words, out)?,
        _ => return Ok(false),
    }
    Ok(true)
}
