//! Names of cases in short: three or more of a section that follow one another in the list of cases are the first and
//! the last.

ghost use Rattle.std.specs.Prelude.{◌≡◌, [], IfOk, Some, map, string_bytes};
ghost use Rattle.ws_runs.specs.Summary.{are_one_section, begins_with_name, follows, goes_on, has_dot, longer_run};
ghost use Rattle.ws_runs.specs.Summary.{id_runs_of, run_of_one, run_text, runs_text, with_id};
ghost use Rattle.ws_runs.specs.Views.{run_value, run_values, texts_now};

use crate::shown::ShownBytes;
use std::alloc::Global;
use std::fmt;
use ws_base::NoMemory;

/// Cases of one section that follow one another in the list.
#[derive(Clone, Copy)]
pub(crate) struct IdRun<'a> {
    first: &'a [u8],
    last: &'a [u8],
    /// Whether others are between them.
    between: bool,
}

/// These cases.
pub(crate) fn id_runs_of<'a>(
    alloc: Global,
    ids: &[&'a [u8]],
    listed: &[String],
) -> Result<Vec<IdRun<'a>>, NoMemory>
    ensures { IfOk result (λ runs. run_values runs.items
        ≡ id_runs_of (map string_bytes listed.now) (texts_now ids.now)) }
{
    let mut runs = Vec::new(alloc);
    for id in ids {
        put_id(*id, listed, &mut runs)?;
    }
    Ok(runs)
}

/// Appends a case to the runs: to the last one, if it goes on with that.
fn put_id<'a>(id: &'a [u8], listed: &[String], runs: &mut Vec<IdRun<'a>>) -> Result<(), NoMemory>
    ensures { IfOk result (λ _. run_values runs.new.items
        ≡ with_id (map string_bytes listed.now) (run_values runs.old.items) id.now) }
{
    let Some(run) = runs.pop() else {
        runs.push(run_of_one(id))?;
        return Ok(());
    };
    if goes_on(listed, run.last, id) {
        runs.push(longer_run(run, id))?;
    } else {
        runs.push(run)?;
        runs.push(run_of_one(id))?;
    }
    Ok(())
}

/// A run of one case.
fn run_of_one(id: &[u8]) -> IdRun<'_>
    ensures { run_value result ≡ run_of_one id.now }
{
    IdRun {
        first: id,
        last: id,
        between: false,
    }
}

/// A run, and a case after it.
fn longer_run<'a>(run: IdRun<'a>, id: &'a [u8]) -> IdRun<'a>
    ensures { run_value result ≡ longer_run (run_value run.entry) id.now }
{
    IdRun {
        first: run.first,
        last: id,
        between: run.first != run.last,
    }
}

/// Whether the other case goes on with a run that ends with the one: it directly follows in the list, and is of its
/// section.
fn goes_on(listed: &[String], one: &[u8], other: &[u8]) -> bool
    ensures { result ≡ goes_on (map string_bytes listed.now) one.now other.now }
{
    follows(listed, one, other) && are_one_section(one, other)
}

/// Whether two names are of one section: they differ behind their last dots alone.
fn are_one_section(one: &[u8], other: &[u8]) -> bool
    ensures { result ≡ are_one_section one.now other.now }
{
    let mut left = one;
    let mut right = other;
    while let Some((byte, behind_byte)) = left.split_first() {
        let Some((same, behind_same)) = right.split_first() else {
            return !has_dot(left);
        };
        if byte != same {
            return !has_dot(left) && !has_dot(right);
        }
        left = behind_byte;
        right = behind_same;
    }
    !has_dot(right)
}

/// Whether there is a dot in it.
fn has_dot(bytes: &[u8]) -> bool
    ensures { result ≡ has_dot bytes.now }
{
    bytes.contains(&b'.')
}

/// Whether the other case directly follows the one in the list.
fn follows(listed: &[String], one: &[u8], other: &[u8]) -> bool
    ensures { result ≡ follows (map string_bytes listed.now) one.now other.now }
{
    for place in 0..listed.len() {
        if listed[place].as_bytes() == one {
            return begins_with_name(&listed[place + 1..], other);
        }
    }
    false
}

/// Whether the list begins with this name.
fn begins_with_name(listed: &[String], name: &[u8]) -> bool
    ensures { result ≡ begins_with_name (map string_bytes listed.now) name.now }
{
    match listed {
        [first, ..] => first.as_bytes() == name,
        [] => false,
    }
}

/// Runs in words.
#[derive(Clone, Copy)]
pub(crate) struct RunsText<'a>(pub(crate) &'a [IdRun<'a>]);

impl fmt::Display for RunsText<'_> {
    ghost output = { λ text. Some (runs_text [] (run_values text.0.now)) };

    fn fmt<W: fmt::Write>(&self, f: &mut fmt::Formatter<W>) -> fmt::Result {
        let mut mark = "";
        for run in self.0 {
            write!(f, "{mark}{}", RunText(*run))?;
            mark = ", ";
        }
        Ok(())
    }
}

/// A run in words.
#[derive(Clone, Copy)]
struct RunText<'a>(IdRun<'a>);

impl fmt::Display for RunText<'_> {
    ghost output = { λ text. Some (run_text (run_value text.0)) };

    fn fmt<W: fmt::Write>(&self, f: &mut fmt::Formatter<W>) -> fmt::Result {
        let first = ShownBytes(self.0.first);
        let last = ShownBytes(self.0.last);
        if self.0.first == self.0.last {
            return write!(f, "{first}");
        }
        let mark = if self.0.between { " to " } else { ", " };
        write!(f, "{first}{mark}{last}")
    }
}
