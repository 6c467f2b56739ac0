//! Rows of the cases.

ghost use Rattle.ws_scripts.specs.Scripts.{CanBeRun};

use std::alloc::Global;
use test_row_frames::{RowFault, bytes_of, mask_key_of, put, put_hex, put_number, put_shown};
use ws_formats::HexDigits;
use ws_session::{Limits, Status, feed_all};
use ws_suite::{Case, Chop, Step, case, ids, turns_with};
use ws_wire::Role;

/// Equal bytes that are so many, one after the other, are told as their number and one of them.
const LONG_RUN: usize = 16;

/// `cases GROUP`: how many cases have a name that begins with this number and a dot.
pub fn count_group(alloc: Global, words: &[&str], out: &mut String) -> Result<(), RowFault> {
    let [group] = words else {
        return Err(RowFault::NotARow);
    };
    let front = format!(in alloc; "{group}.")?;
    let names = ids(alloc)?;
    let count = names
        .as_slice()
        .iter()
        .filter(|name| name.as_str().starts_with(front.as_str()))
        .count();
    put_number(out, "", count as u64)
}

/// `case NAME`: the case as a line of the table of cases, or `none`.
pub fn tell_case(alloc: Global, words: &[&str], out: &mut String) -> Result<(), RowFault> {
    let [name] = words else {
        return Err(RowFault::NotARow);
    };
    let name = text_of(alloc, name)?;
    match case(alloc, name.as_str())? {
        Some(case) => put_case(alloc, &case, out),
        None => put(out, "none"),
    }
}

/// `client_fault NAME`: the fault that a client finds in what is sent for a case, or `-`; `none` where no case has the
/// name.
pub fn tell_client_fault(alloc: Global, words: &[&str], out: &mut String) -> Result<(), RowFault> {
    let [name] = words else {
        return Err(RowFault::NotARow);
    };
    let name = text_of(alloc, name)?;
    match case(alloc, name.as_str())? {
        Some(case) => put_fault(alloc, Role::Client, &case, out),
        None => put(out, "none"),
    }
}

/// The text that pairs of digits spell.
fn text_of(alloc: Global, word: &str) -> Result<String, RowFault> {
    match String::from_utf8(bytes_of(alloc, word)?.into_vec()) {
        Ok(text) => Ok(text),
        Err(_) => Err(RowFault::NotARow),
    }
}

/// The name, the chop, the fault and the steps of a case.
fn put_case(alloc: Global, case: &Case, out: &mut String) -> Result<(), RowFault>
    requires { CanBeRun case.now }
{
    put(out, case.id.as_str())?;
    put(out, " ")?;
    put_chop(case.chop, out)?;
    put(out, " ")?;
    put_fault(alloc, Role::Server, case, out)?;
    let mut mark = " ";
    for step in case.steps.as_slice() {
        put(out, mark)?;
        put_step(step, out)?;
        mark = ", ";
    }
    Ok(())
}

/// A chop as the table of cases has it.
pub(crate) fn put_chop(chop: Chop, out: &mut String) -> Result<(), RowFault> {
    match chop {
        Chop::Whole => put(out, "W"),
        Chop::PerFrame => put(out, "P"),
        Chop::Octets(n) => put_number(out, "O", u64::from(n)),
    }
}

/// The fault that a tested end of this role finds in what is sent for a case, or `-`.
fn put_fault(alloc: Global, tested: Role, case: &Case, out: &mut String) -> Result<(), RowFault>
    requires { CanBeRun case.now }
{
    let key = mask_key_of("37fa213d")?;
    let pieces = pieces_of_case(alloc, tested, case, key)?;
    match status_after(alloc, tested, pieces.as_slice(), key)? {
        Status::Failed(reason) => put_shown(out, "", &reason),
        _ => put(out, "-"),
    }
}

/// The pieces that are sent for a case to an end of this role, to a server under this key.
fn pieces_of_case(
    alloc: Global,
    tested: Role,
    case: &Case,
    key: [u8; 4],
) -> Result<Vec<Vec<u8>>, RowFault>
    requires { CanBeRun case.now }
{
    let mask = match tested {
        Role::Server => Some(key),
        Role::Client => None,
    };
    let mut pieces = Vec::new(alloc);
    for turn in turns_with(alloc, case, mask)?.into_vec() {
        for number in 0..turn.len() {
            pieces.push(turn.piece(number).to_vec(alloc)?)?;
        }
    }
    Ok(pieces)
}

/// The status of a session in this role behind these pieces.
fn status_after(
    alloc: Global,
    tested: Role,
    pieces: &[Vec<u8>],
    key: [u8; 4],
) -> Result<Status, RowFault> {
    Ok(feed_all(alloc, tested, Limits::largest(), pieces, key)?.status)
}

/// A step as the table of cases has it.
pub(crate) fn put_step(step: &Step, out: &mut String) -> Result<(), RowFault> {
    match step {
        Step::Frame {
            fin,
            rsv,
            opcode,
            payload,
        } => {
            put_number(out, if *fin { "F " } else { "f " }, u64::from(*opcode))?;
            put(out, " ")?;
            if *rsv > 0 {
                put_number(out, "r", u64::from(*rsv))?;
                put(out, " ")?;
            }
            put_data(payload.as_slice(), out)
        }
        Step::Raw(bytes) => put_hex(out, "raw ", bytes.as_slice()),
        Step::Wait => put(out, "|"),
    }
}

/// Equal bytes, one after the other.
#[derive(Clone, Copy)]
struct Equal {
    byte: u8,
    count: usize,
}

/// Bytes in pairs of digits, long runs of equal bytes by their number, and `+` beside those; `-` where there are none.
pub(crate) fn put_data(bytes: &[u8], out: &mut String) -> Result<(), RowFault> {
    let Some(first) = bytes.first() else {
        return put(out, "-");
    };
    let mut run = Equal {
        byte: *first,
        count: 0,
    };
    let mut before: Option<Equal> = None;
    for byte in bytes {
        if *byte == run.byte {
            run.count = run.count.saturating_add(1);
        } else {
            put_equal(before, run, out)?;
            before = Some(run);
            run = Equal {
                byte: *byte,
                count: 1,
            };
        }
    }
    put_equal(before, run, out)
}

/// Puts a run behind the one before it.
fn put_equal(before: Option<Equal>, run: Equal, out: &mut String) -> Result<(), RowFault> {
    let is_long = run.count >= LONG_RUN;
    if before.is_some_and(|before| is_long || before.count >= LONG_RUN) {
        put(out, "+")?;
    }
    if is_long {
        put_number(out, "", run.count as u64)?;
        return put_shown(out, "*", &HexDigits(&[run.byte]));
    }
    for _ in 0..run.count {
        put_shown(out, "", &HexDigits(&[run.byte]))?;
    }
    Ok(())
}
