//! The words of a row of a machine: what it is told, and what it wants then.

ghost use Rattle.std.specs.Prelude.{◌≡◌, false, IfSome};
ghost use Rattle.ws_machines.specs.Machines.{MayBeTold};

use std::alloc::Global;
use test_row_frames::{RowFault, bytes_of, put, put_hex, put_number};
use ws_machines::{Machine, StreamEvent};

/// At most so many writes are made at once.
const MOST_WRITES: usize = 100_000;

/// Tells a machine what each word says that happened: bytes that came; `out=N`, so many bytes were taken; `send=N`, all
/// bytes were taken that are wanted one after the other, at most so many a time; `ended`, `read_failed`,
/// `nothing_came`, `write_failed`, `direction_ended`, `deadline` and `deadline_waited`. Or a word asks, `?`, what is
/// wanted: `write HEX room N`, and `end`; or `done`; or, `limit`, if a time limit of what is waited for begins anew:
/// `anew` or `kept`. Answers what came of it, where it is done, and how many bytes weren't read.
pub fn play<M: Machine + Drop>(
    alloc: Global,
    machine: M,
    words: &[&str],
    out: &mut String,
) -> Result<(Option<M::End>, usize), RowFault> {
    let mut machine = machine;
    let unread = tell_words(alloc, &mut machine, words, out)?;
    let end = end_of(machine)?;
    Ok((end, unread))
}

/// What came of a machine, where it is done.
fn end_of<M: Machine + Drop>(machine: M) -> Result<Option<M::End>, RowFault> {
    if !machine.is_done() {
        return Ok(None);
    }
    let end = machine.into_end()?;
    Ok(Some(end))
}

/// Tells a machine what the words say. Answers how many bytes weren't read.
fn tell_words<M: Machine>(
    alloc: Global,
    machine: &mut M,
    words: &[&str],
    out: &mut String,
) -> Result<usize, RowFault> {
    let mut unread = 0;
    for word in words {
        tell_word(alloc, machine, word, &mut unread, out)?;
    }
    Ok(unread)
}

/// What a word tells, or asks.
fn tell_word<M: Machine>(
    alloc: Global,
    machine: &mut M,
    word: &str,
    unread: &mut usize,
    out: &mut String,
) -> Result<(), RowFault> {
    if word == "?" {
        return put_wants(machine, out);
    }
    if word == "limit" {
        return put_limit(machine, out);
    }
    if let Some(count) = word.strip_prefix("out=") {
        return tell_taken(machine, count_of(count)?);
    }
    if let Some(most) = word.strip_prefix("send=") {
        return send_all(machine, count_of(most)?);
    }
    if machine.is_done() {
        return tell_nothing(alloc, word, unread);
    }
    tell_event(alloc, machine, word, unread)
}

/// A number of bytes.
fn count_of(word: &str) -> Result<usize, RowFault> {
    match word.parse::<usize>() {
        Ok(count) => Ok(count),
        Err(_) => Err(RowFault::NotARow),
    }
}

/// A machine that is done is told nothing: bytes that come are not read, and nothing else is a row.
fn tell_nothing(alloc: Global, word: &str, unread: &mut usize) -> Result<(), RowFault> {
    let bytes = bytes_of(alloc, word)?;
    *unread = unread.saturating_add(bytes.len());
    Ok(())
}

/// Something happened that was wanted. What isn't wanted can't happen.
fn tell_event<M: Machine>(
    alloc: Global,
    machine: &mut M,
    word: &str,
    unread: &mut usize,
) -> Result<(), RowFault>
    requires { (M.wants machine.old).done ≡ false }
{
    match event_of(machine, word) {
        Some(event) => {
            machine.on_event(event)?;
            Ok(())
        }
        None => tell_came(alloc, machine, word, unread),
    }
}

/// What a word tells that is no bytes, where it is wanted.
fn event_of<M: Machine>(machine: &M, word: &str) -> Option<StreamEvent<'static>>
    requires { (M.wants machine.now).done ≡ false }
    ensures { IfSome result (λ event. MayBeTold (M.wants machine.now) event) }
{
    let reads = machine.room() > 0;
    let writes = !machine.to_write().is_empty();
    match word {
        "ended" if reads => Some(StreamEvent::Ended),
        "read_failed" if reads => Some(StreamEvent::ReadFailed),
        "nothing_came" if reads && !writes => Some(StreamEvent::NothingCame),
        "write_failed" if writes => Some(StreamEvent::WriteFailed),
        "direction_ended" if machine.wants_end() => Some(StreamEvent::DirectionEnded),
        "deadline" => Some(StreamEvent::DeadlinePassed(false)),
        "deadline_waited" => Some(StreamEvent::DeadlinePassed(true)),
        _ => None,
    }
}

/// Bytes came, of which as many are read as it wants.
fn tell_came<M: Machine>(
    alloc: Global,
    machine: &mut M,
    word: &str,
    unread: &mut usize,
) -> Result<(), RowFault>
    requires { (M.wants machine.old).done ≡ false }
{
    let bytes = bytes_of(alloc, word)?;
    let count = machine.room().min(bytes.len());
    *unread = unread.saturating_add(bytes.len().saturating_sub(count));
    if count > 0 {
        machine.on_event(StreamEvent::Came(&bytes.as_slice()[..count]))?;
    }
    Ok(())
}

/// So many bytes of those that are to be written were taken.
fn tell_taken<M: Machine>(machine: &mut M, count: usize) -> Result<(), RowFault> {
    if count == 0 {
        return Ok(());
    }
    if machine.is_done() || count > machine.to_write().len() {
        return Err(RowFault::NotARow);
    }
    machine.on_event(StreamEvent::Taken(count))?;
    Ok(())
}

/// All bytes were taken that are to be written one after the other, at most so many a time.
fn send_all<M: Machine>(machine: &mut M, most: usize) -> Result<(), RowFault> {
    for _ in 0..MOST_WRITES {
        let count = machine.to_write().len().min(most);
        if count == 0 {
            return Ok(());
        }
        tell_taken(machine, count)?;
    }
    Err(RowFault::NotARow)
}

/// What it wants now.
fn put_wants<M: Machine>(machine: &M, out: &mut String) -> Result<(), RowFault> {
    if machine.is_done() {
        return put(out, "done, ");
    }
    put_hex(out, "write ", machine.to_write())?;
    put_number(out, " room ", machine.room() as u64)?;
    put(out, if machine.wants_end() { " end, " } else { ", " })
}

/// Whether the time limit of what it waits for begins anew.
fn put_limit<M: Machine>(machine: &M, out: &mut String) -> Result<(), RowFault> {
    let is_anew = machine.waits_anew();
    put(out, if is_anew { "anew, " } else { "kept, " })
}

/// How many bytes weren't read, where there are such.
pub fn put_unread(out: &mut String, unread: usize) -> Result<(), RowFault> {
    if unread > 0 {
        put_number(out, ", ", unread as u64)?;
        put(out, " unread")?;
    }
    Ok(())
}
