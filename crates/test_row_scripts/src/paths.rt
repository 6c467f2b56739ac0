//! Rows of what a client under test asks for by paths.

ghost use Rattle.std.specs.Prelude.{length};
ghost use Rattle.ws_paths.specs.Paths.{AsksWithin};

use std::alloc::Global;
use test_row_frames::{RowFault, bytes_of, most_of, put, put_hex, put_number};
use ws_formats::read_u32;
use ws_paths::{Behavior, Purpose, Standing, count_text, info_text, script_of, status_text};
use ws_scripts::write_script;

/// `paths COUNT`, and then for each connection its path and `pass`, `loose`, `fail` or `-` for what comes of a case
/// that it runs: what each is for, with the status that is told, whether the run ends with it, and which cases were not
/// run.
pub fn tell_purposes(alloc: Global, words: &[&str], out: &mut String) -> Result<(), RowFault> {
    let [count, words @ ..] = words else {
        return Err(RowFault::NotARow);
    };
    let count = most_of(count)?;
    let mut standing = Standing::new(alloc, count)?;
    let mut rest = words;
    while let [path, behavior, others @ ..] = rest {
        let path = bytes_of(alloc, path)?;
        tell_purpose(
            alloc,
            path.as_slice(),
            behavior_of(behavior)?,
            &mut standing,
            out,
        )?;
        rest = others;
    }
    tell_not_run(&standing, out)
}

/// Tells what a connection is for, and ends it.
fn tell_purpose(
    alloc: Global,
    path: &[u8],
    behavior: Behavior,
    standing: &mut Standing,
    out: &mut String,
) -> Result<(), RowFault> {
    let purpose = standing.purpose(path);
    put_purpose(alloc, purpose, standing, out)?;
    let ends = standing.ends_with(purpose);
    put(out, if ends { " end, " } else { ", " })?;
    standing.on_end(purpose, behavior);
    Ok(())
}

/// What a connection is for, and the status that is told.
fn put_purpose(
    alloc: Global,
    purpose: Purpose,
    standing: &Standing,
    out: &mut String,
) -> Result<(), RowFault>
    requires { AsksWithin (length standing.now.behaviors) purpose }
{
    match purpose {
        Purpose::CaseCount => put(out, "count"),
        Purpose::RunCase(number) => put_number(out, "run ", u64::from(number)),
        Purpose::CaseInfo(number) => put_number(out, "info ", u64::from(number)),
        Purpose::CaseStatus(number) => {
            put_number(out, "status ", u64::from(number))?;
            let text = status_text(alloc, standing.behavior(number))?;
            put_hex(out, " ", text.as_bytes())
        }
        Purpose::UpdateReports => put(out, "reports"),
        Purpose::NextCase(number) => put_number(out, "next ", u64::from(number)),
        Purpose::NoCase => put(out, "none"),
    }
}

/// Tells which cases were not run.
fn tell_not_run(standing: &Standing, out: &mut String) -> Result<(), RowFault> {
    put(out, "not run")?;
    for place in 0..standing.count() {
        if standing.behavior(place + 1) == Behavior::Unimplemented {
            put_number(out, " ", u64::from(place) + 1)?;
        }
    }
    Ok(())
}

fn behavior_of(word: &str) -> Result<Behavior, RowFault> {
    match word {
        "pass" => Ok(Behavior::Ok),
        "loose" => Ok(Behavior::NonStrict),
        "fail" => Ok(Behavior::Failed),
        "-" => Ok(Behavior::Unimplemented),
        _ => Err(RowFault::NotARow),
    }
}

/// `case_count COUNT`: the text that tells it.
pub fn tell_count(alloc: Global, words: &[&str], out: &mut String) -> Result<(), RowFault> {
    let [count] = words else {
        return Err(RowFault::NotARow);
    };
    let count = most_of(count)?;
    put_hex(out, "", count_text(alloc, count)?.as_bytes())
}

/// `case_info ID TURNS`: the text that tells them.
pub fn tell_info(alloc: Global, words: &[&str], out: &mut String) -> Result<(), RowFault> {
    let [id, turns] = words else {
        return Err(RowFault::NotARow);
    };
    let turns = most_of(turns)?;
    let text = info_text(alloc, id, turns as usize)?;
    put_hex(out, "", text.as_bytes())
}

/// `told COUNT`, or `told -` for no text: the script that tells the text of that count, as text.
pub fn tell_script(alloc: Global, words: &[&str], out: &mut String) -> Result<(), RowFault> {
    let [word] = words else {
        return Err(RowFault::NotARow);
    };
    let text = match read_u32(word.as_bytes()) {
        Some(count) => Some(count_text(alloc, count)?),
        None => None,
    };
    let script = script_of(alloc, text)?;
    let lines = write_script(alloc, &script)?;
    put_hex(out, "", lines.as_slice())
}
