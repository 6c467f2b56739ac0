//! Rows of scripts as text.

ghost use Rattle.ws_scripts.specs.Scripts.{CanBeRun};

use crate::cases::{put_chop, put_data, put_step};
use std::alloc::Global;
use test_row_frames::{RowFault, bytes_of, put, put_hex, put_number, put_shown};
use ws_suite::{Case, Step, case, ids, read_script, write_script};

/// The cases that are not listed.
const NAMED_ALONE: [&str; 6] = ["x.1", "x.2", "x.3", "x.4", "x.5", "x.6"];

/// `script TEXT`: the chop and the steps that a text tells, or why it tells none.
pub fn tell_script(alloc: Global, words: &[&str], out: &mut String) -> Result<(), RowFault> {
    let [text] = words else {
        return Err(RowFault::NotARow);
    };
    let text = bytes_of(alloc, text)?;
    match read_script(alloc, text.as_slice()) {
        Ok(case) => put_script(&case, out),
        Err(fault) => put_shown(out, "", &fault),
    }
}

/// `script_back TEXT`: the text that is written of what is read from the text, or why that tells none.
pub fn write_again(alloc: Global, words: &[&str], out: &mut String) -> Result<(), RowFault> {
    let [text] = words else {
        return Err(RowFault::NotARow);
    };
    let text = bytes_of(alloc, text)?;
    match read_script(alloc, text.as_slice()) {
        Ok(case) => put_text(alloc, &case, out),
        Err(fault) => put_shown(out, "", &fault),
    }
}

/// The text that is written of a case.
fn put_text(alloc: Global, case: &Case, out: &mut String) -> Result<(), RowFault>
    requires { CanBeRun case.now }
{
    let written = write_script(alloc, case)?;
    put_hex(out, "", written.as_slice())
}

/// `script_of NAME`: the text of a case.
pub fn write_case(alloc: Global, words: &[&str], out: &mut String) -> Result<(), RowFault> {
    let [name] = words else {
        return Err(RowFault::NotARow);
    };
    let Some(case) = case(alloc, name)? else {
        return Err(RowFault::NotARow);
    };
    put_text(alloc, &case, out)
}

/// `scripts_kept`: how many cases are read from their texts as they are, of those that are listed and the six others.
pub fn count_kept(alloc: Global, words: &[&str], out: &mut String) -> Result<(), RowFault> {
    let [] = words else {
        return Err(RowFault::NotARow);
    };
    let mut kept: u32 = 0;
    for name in ids(alloc)?.as_slice() {
        if is_kept(alloc, name.as_str())? {
            kept = kept.saturating_add(1);
        }
    }
    for name in NAMED_ALONE {
        if is_kept(alloc, name)? {
            kept = kept.saturating_add(1);
        }
    }
    put_number(out, "", u64::from(kept))
}

/// Whether a case is read from its text as it is, but for its name.
fn is_kept(alloc: Global, name: &str) -> Result<bool, RowFault> {
    let Some(case) = case(alloc, name)? else {
        return Ok(false);
    };
    let text = write_script(alloc, &case)?;
    let Ok(again) = read_script(alloc, text.as_slice()) else {
        return Ok(false);
    };
    let mut wanted = String::new(alloc);
    put_script(&case, &mut wanted)?;
    let mut got = String::new(alloc);
    put_script(&again, &mut got)?;
    Ok(again.id.as_str() == "-" && got.as_str() == wanted.as_str())
}

/// The chop and the steps of a case, as the table of cases has them.
fn put_script(case: &Case, out: &mut String) -> Result<(), RowFault> {
    put_chop(case.chop, out)?;
    let mut mark = " ";
    for step in case.steps.as_slice() {
        put(out, mark)?;
        put_short_step(step, out)?;
        mark = ", ";
    }
    Ok(())
}

/// A step, in which long runs of equal bytes are told by their number.
pub fn put_short_step(step: &Step, out: &mut String) -> Result<(), RowFault> {
    match step {
        Step::Raw(bytes) => {
            put(out, "raw ")?;
            put_data(bytes.as_slice(), out)
        }
        other => put_step(other, out),
    }
}
