//! Rows of an echo as a machine: bytes of a session come, and its replies are written.

use crate::machine_words::{play, put_unread};
use std::alloc::Global;
use test_row_frames::{RowFault, bytes_of, number_of, put, put_shown, role_of};
use ws_echo::{EchoEnd, EchoMachine, EchoPlan, EchoStop};
use ws_session::Limits;

/// The key under which a client answers.
const KEY: [u8; 4] = [0x37, 0xfa, 0x21, 0x3d];

/// `echoing ROLE LIMIT BUDGET FIRST WORD ..`: an echo of this role, of messages of at most so many bytes, takes the
/// first bytes, and then what the words tell; they ask as `machine_words.rt` says. At the end stands how it has ended,
/// `done STATUS`, `budget` or `stopped WHY`, or `goes on`, and how many bytes weren't read.
pub fn tell_echo(alloc: Global, words: &[&str], out: &mut String) -> Result<(), RowFault> {
    let [role, limit, budget, first, words @ ..] = words else {
        return Err(RowFault::NotARow);
    };
    let limits = limits_of(limit)?;
    let plan = EchoPlan {
        role: role_of(role)?,
        limits,
        key: KEY,
        budget: number_of(budget)?,
    };
    let first = bytes_of(alloc, first)?;
    let machine = EchoMachine::new(alloc, plan, first.as_slice())?;
    let (end, unread) = play(alloc, machine, words, out)?;
    put_echo(end, out)?;
    put_unread(out, unread)
}

/// The limits of messages of at most so many bytes.
fn limits_of(word: &str) -> Result<Limits, RowFault> {
    let Ok(limit) = word.parse::<u32>() else {
        return Err(RowFault::NotARow);
    };
    match Limits::new(limit) {
        Some(limits) => Ok(limits),
        None => Err(RowFault::NotARow),
    }
}

/// How it has ended, where it is done.
fn put_echo(end: Option<EchoEnd>, out: &mut String) -> Result<(), RowFault> {
    match end {
        Some(EchoEnd::Done(status)) => put_shown(out, "done ", &status),
        Some(EchoEnd::Budget) => put(out, "budget"),
        Some(EchoEnd::Stopped(EchoStop::ReadFault)) => put(out, "stopped read fault"),
        Some(EchoEnd::Stopped(EchoStop::NothingCame)) => put(out, "stopped nothing came"),
        Some(EchoEnd::Stopped(EchoStop::WriteFault)) => put(out, "stopped write fault"),
        Some(EchoEnd::Stopped(EchoStop::Late)) => put(out, "stopped late"),
        None => put(out, "goes on"),
    }
}
