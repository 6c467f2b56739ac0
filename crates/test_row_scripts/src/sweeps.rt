//! Rows of short scripts.

use crate::scripts::put_short_step;
use std::alloc::Global;
use test_row_frames::{
    RowFault, expectation_of, header_key_of, number_of, put, put_hex, put_number, role_of,
};
use ws_scripts::{Expectation, bytes_with};
use ws_suite::{Case, read_script};
use ws_sweep::{
    MAX_STEPS, ShortCases, ShortScript, ShortScripts, script_count, short_case, tell_steps,
};

/// `whole_lines client|server echo|protocol KEY|- STEPS`: how many of the scripts of at most so many steps have a line
/// that is read, a step a line, as the steps of their case.
pub fn count_whole(alloc: Global, words: &[&str], out: &mut String) -> Result<(), RowFault> {
    let [end, expected, key, steps] = words else {
        return Err(RowFault::NotARow);
    };
    let (tested, expected) = (role_of(end)?, expectation_of(expected)?);
    let (key, steps) = (header_key_of(key)?, number_of(steps)? as usize);
    if steps > MAX_STEPS {
        return Err(RowFault::NotARow);
    }
    let mut whole: u32 = 0;
    let mut scripts = ShortScripts::up_to(steps);
    while let Some(script) = scripts.next() {
        let case = short_case(alloc, tested, expected, key, &script)?;
        let line = tell_steps(alloc, tested, expected, &script, case.steps.as_slice())?;
        if is_read_as(alloc, line.as_str(), &case)? {
            whole = whole.saturating_add(1);
        }
    }
    put_number(out, "", u64::from(whole))
}

/// Whether a line is read, a step a line, as the steps of a case.
fn is_read_as(alloc: Global, line: &str, case: &Case) -> Result<bool, RowFault> {
    let mut text = String::new(alloc);
    for part in line.split("; ") {
        put(&mut text, part)?;
        put(&mut text, "\n")?;
    }
    let Ok(read) = read_script(alloc, text.as_bytes()) else {
        return Ok(false);
    };
    let (read, sent) = (told_steps(alloc, &read)?, told_steps(alloc, case)?);
    Ok(read.as_str() == sent.as_str())
}

/// The steps of a case, as the table of cases has them.
fn told_steps(alloc: Global, case: &Case) -> Result<String, RowFault> {
    let mut told = String::new(alloc);
    for step in case.steps.as_slice() {
        put_short_step(step, &mut told)?;
        put(&mut told, "\n")?;
    }
    Ok(told)
}

/// `short_script client|server echo|protocol KEY|- NUMBER`: the line of the case of the script of this number, counted
/// from 0, for such a tested end, of which this is expected, the frames masked with the key, or plain; as digits.
pub fn tell_script(alloc: Global, words: &[&str], out: &mut String) -> Result<(), RowFault> {
    let [end, expected, key, number] = words else {
        return Err(RowFault::NotARow);
    };
    let (tested, expected) = (role_of(end)?, expectation_of(expected)?);
    let (key, number) = (header_key_of(key)?, number_of(number)? as usize);
    if number >= script_count(MAX_STEPS) {
        return Err(RowFault::NotARow);
    }
    let script = ShortScript::at(number);
    let case = short_case(alloc, tested, expected, key, &script)?;
    let line = tell_steps(alloc, tested, expected, &script, case.steps.as_slice())?;
    put_hex(out, "", line.as_bytes())
}

/// `short_cases client|server KEY|- NUMBER..`: what is sent in the cases of the scripts of these numbers, made one
/// after the other for such a tested end, their frames masked with the key, or plain: the digits of each, parted by
/// spaces.
pub fn tell_cases(alloc: Global, words: &[&str], out: &mut String) -> Result<(), RowFault> {
    let [end, key, numbers @ ..] = words else {
        return Err(RowFault::NotARow);
    };
    let (tested, key) = (role_of(end)?, header_key_of(key)?);
    let mut cases = ShortCases::new(tested, Expectation::Echo, key);
    for (place, number) in numbers.iter().enumerate() {
        if place > 0 {
            put(out, " ")?;
        }
        put_case(alloc, key, number_of(number)? as usize, &mut cases, out)?;
    }
    Ok(())
}

/// Puts the digits of what is sent in the case of the script of this number.
fn put_case(
    alloc: Global,
    key: Option<[u8; 4]>,
    number: usize,
    cases: &mut ShortCases,
    out: &mut String,
) -> Result<(), RowFault> {
    if number >= script_count(MAX_STEPS) {
        return Err(RowFault::NotARow);
    }
    let case = cases.case_of(alloc, &ShortScript::at(number))?;
    let sent = bytes_with(alloc, case.steps.as_slice(), key)?;
    put_hex(out, "", sent.as_slice())
}
