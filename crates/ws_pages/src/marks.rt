//! The letter and the class of a mark, and the marks of a row.

ghost use Rattle.std.specs.Prelude.{◌≡◌, Some};
ghost use Rattle.ws_pages.specs.Page.{count_not_run, count_of, have_mark, is_same, mark_at, mark_class, mark_letter};
ghost use Rattle.ws_pages.specs.Page.{row_class, was_not_run};
ghost use Rattle.ws_runs.specs.Runs.{cell_of};
ghost use Rattle.ws_runs.specs.Views.{texts_now};

use std::fmt;
use ws_runs::{Mark, Peer, mark_of_words};

/// The mark of the cell of a peer and a case.
pub(crate) fn mark_at<'a>(id: &'a [u8], peer: &Peer<'a>) -> Mark
    ensures { result ≡ mark_at id.now peer.now }
{
    match peer.cell(id) {
        Some(case) => mark_of_words(case.words),
        None => Mark::Missing,
    }
}

/// Whether all peers have the same mark in a case, that of the first.
pub(crate) fn is_same<'a>(peers: &[Peer<'a>], id: &'a [u8]) -> bool
    ensures { result ≡ is_same peers.now id.now }
{
    match peers {
        [first, ..] => have_mark(peers, id, mark_at(id, first)),
        [] => true,
    }
}

/// Whether all of these peers have this mark in a case.
fn have_mark<'a>(peers: &[Peer<'a>], id: &'a [u8], mark: Mark) -> bool
    ensures { result ≡ have_mark peers.now id.now mark }
{
    for peer in peers {
        if !mark_at(id, peer).is(mark) {
            return false;
        }
    }
    true
}

/// How many of these cases have a mark in the cell of a peer.
pub(crate) fn count_of<'a>(ids: &[&'a [u8]], peer: &Peer<'a>, mark: Mark) -> usize
    ensures { result ≡ count_of (texts_now ids.now) peer.now mark }
{
    let mut count = 0;
    for id in ids {
        if mark_at(id, peer).is(mark) {
            count += 1;
        }
    }
    count
}

/// How many of these cases have a result of a peer that says that they weren't run.
pub(crate) fn count_not_run<'a>(ids: &[&'a [u8]], peer: &Peer<'a>) -> usize
    ensures { result ≡ count_not_run (texts_now ids.now) peer.now }
{
    let mut count = 0;
    for id in ids {
        if was_not_run(id, peer) {
            count += 1;
        }
    }
    count
}

/// Whether the result of a peer and a case says that it wasn't run.
fn was_not_run<'a>(id: &'a [u8], peer: &Peer<'a>) -> bool
    ensures { result ≡ was_not_run (cell_of peer.now.cells id.now) }
{
    match peer.cell(id) {
        Some(case) => case.words == b"FAIL NotRun".as_slice(),
        None => false,
    }
}

/// The class that gives a mark its form and color.
#[derive(Clone, Copy)]
pub(crate) struct MarkClass(pub(crate) Mark);

impl fmt::Display for MarkClass {
    ghost output = { λ class. Some (mark_class class.0) };

    fn fmt<W: fmt::Write>(&self, f: &mut fmt::Formatter<W>) -> fmt::Result {
        match self.0 {
            Mark::Pass => write!(f, "P"),
            Mark::Loose => write!(f, "L"),
            Mark::Fail => write!(f, "F"),
            Mark::NoConnection => write!(f, "X"),
            Mark::Missing => write!(f, "N"),
        }
    }
}

/// The letter of a mark.
#[derive(Clone, Copy)]
pub(crate) struct MarkLetter(pub(crate) Mark);

impl fmt::Display for MarkLetter {
    ghost output = { λ letter. Some (mark_letter letter.0) };

    fn fmt<W: fmt::Write>(&self, f: &mut fmt::Formatter<W>) -> fmt::Result {
        match self.0 {
            Mark::Pass => write!(f, "P"),
            Mark::Loose => write!(f, "L"),
            Mark::Fail => write!(f, "F"),
            Mark::NoConnection => write!(f, "X"),
            Mark::Missing => write!(f, "-"),
        }
    }
}

/// The class of a row.
#[derive(Clone, Copy)]
pub(crate) struct RowClass(pub(crate) bool);

impl fmt::Display for RowClass {
    ghost output = { λ class. Some (row_class class.0) };

    fn fmt<W: fmt::Write>(&self, f: &mut fmt::Formatter<W>) -> fmt::Result {
        if self.0 {
            write!(f, "same")
        } else {
            write!(f, "other")
        }
    }
}
