//! Which row is answered by which call.

use crate::row_fault::RowFault;
use crate::{frames, protocols, texts, upgrades};
use std::alloc::Global;

/// Puts the answer of a call, where it is one of these. Answers whether it is.
pub fn answer(
    alloc: Global,
    call: &str,
    words: &[&str],
    out: &mut String,
) -> Result<bool, RowFault> {
    match call {
        "header" => frames::make_header(words, out)?,
        "shortest" => frames::make_shortest(words, out)?,
        "read_header" => frames::read(alloc, words, out)?,
        "mask" => frames::mask_part(alloc, words, out)?,
        "append_frame" => frames::append(alloc, words, out)?,
        "text" => texts::judge_pieces(alloc, words, out)?,
        "push" => texts::push_pieces(alloc, words, out)?,
        "copy" => texts::push_to_copy(alloc, words, out)?,
        "wanted" => texts::count_wanted(alloc, words, out)?,
        "code_allowed" => texts::allow_code(words, out)?,
        "code_may_begin" => texts::begin_code(words, out)?,
        "close_payload" => texts::read_close(alloc, words, out)?,
        _ => return answer_of_heads(alloc, call, words, out),
    }
    Ok(true)
}

/// Puts the answer of a call of the opening handshake.
fn answer_of_heads(
    alloc: Global,
    call: &str,
    words: &[&str],
    out: &mut String,
) -> Result<bool, RowFault> {
    match call {
        "accept_of" => upgrades::accept(alloc, words, out)?,
        "request" => upgrades::make_request(alloc, words, out)?,
        "response" => upgrades::make_response(alloc, words, out)?,
        "refusal" => upgrades::refuse(words, out)?,
        "read_request" => upgrades::read_a_request(alloc, words, out)?,
        "upgrade" => upgrades::tell_upgrade(alloc, words, out)?,
        "read_response" => upgrades::read_a_response(alloc, words, out)?,
        "request_with" => protocols::make_request(alloc, words, out)?,
        "request_for" => protocols::make_request_for(alloc, words, out)?,
        "response_with" => protocols::make_response(alloc, words, out)?,
        "read_request_with" => protocols::read_a_request(alloc, words, out)?,
        "read_response_with" => protocols::read_a_response(alloc, words, out)?,
        _ => return Ok(false),
    }
    Ok(true)
}
