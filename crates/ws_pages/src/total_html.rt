//! The totals of the peers.

ghost use Rattle.std.specs.Prelude.{Some};
ghost use Rattle.std.specs.Fmt.{decimal};
ghost use Rattle.ws_pages.specs.Page.{count_not_run, count_of, counts_html, fails_of, not_run_html, note_html};
ghost use Rattle.ws_pages.specs.Page.{notes_html, total_html, totals_html};
ghost use Rattle.ws_pages.specs.PageText.{on_page};
ghost use Rattle.ws_pages.specs.Views.{table_value};
ghost use Rattle.ws_runs.specs.Views.{texts_now};

use crate::escaping::Escaped;
use crate::head_html::RunHtml;
use crate::marks::{count_not_run, count_of};
use crate::table::Table;
use std::fmt;
use ws_runs::{Mark, Peer};

/// The totals of all peers.
#[derive(Clone, Copy)]
pub(crate) struct TotalsHtml<'p, 'i, 't, 'a>(pub(crate) Table<'p, 'i, 't, 'a>);

impl fmt::Display for TotalsHtml<'_, '_, '_, '_> {
    ghost output = { λ html. Some (totals_html (table_value html.0)) };

    fn fmt<W: fmt::Write>(&self, f: &mut fmt::Formatter<W>) -> fmt::Result {
        for peer in self.0.peers {
            let total = TotalHtml {
                ids: self.0.ids,
                peer,
            };
            write!(f, "{total}")?;
        }
        Ok(())
    }
}

/// The totals of a peer. A case without a connection is counted with those that fail.
#[derive(Clone, Copy)]
struct TotalHtml<'p, 'i, 'a> {
    ids: &'i [&'a [u8]],
    peer: &'p Peer<'a>,
}

impl fmt::Display for TotalHtml<'_, '_, '_> {
    ghost output = { λ html. Some (total_html (texts_now html.ids.now) html.peer.now) };

    fn fmt<W: fmt::Write>(&self, f: &mut fmt::Formatter<W>) -> fmt::Result {
        let (ids, peer) = (self.ids, self.peer);
        let name = NameHtml(peer);
        let run = RunHtml { ids, peer };
        let notes = SaidHtml(peer);
        let counts = CountsHtml { ids, peer };
        write!(
            f,
            "<tr><th scope=\"row\"><b>{name}</b>{run}{notes}</th>{counts}</tr>\n"
        )
    }
}

/// The counts of a peer.
#[derive(Clone, Copy)]
struct CountsHtml<'p, 'i, 'a> {
    ids: &'i [&'a [u8]],
    peer: &'p Peer<'a>,
}

impl fmt::Display for CountsHtml<'_, '_, '_> {
    ghost output = { λ html. Some (counts_html (texts_now html.ids.now) html.peer.now) };

    fn fmt<W: fmt::Write>(&self, f: &mut fmt::Formatter<W>) -> fmt::Result {
        let (ids, peer) = (self.ids, self.peer);
        let pass = CountHtml {
            ids,
            peer,
            mark: Mark::Pass,
        };
        let loose = CountHtml {
            ids,
            peer,
            mark: Mark::Loose,
        };
        let fail = FailsHtml { ids, peer };
        let not_run = NotRunHtml { ids, peer };
        let missing = CountHtml {
            ids,
            peer,
            mark: Mark::Missing,
        };
        write!(
            f,
            "<td>{pass}</td><td>{loose}</td><td>{fail}{not_run}</td><td>{missing}</td>"
        )
    }
}

/// The whole name of a peer.
#[derive(Clone, Copy)]
struct NameHtml<'p, 'a>(&'p Peer<'a>);

impl fmt::Display for NameHtml<'_, '_> {
    ghost output = { λ html. Some (on_page html.0.now.name) };

    fn fmt<W: fmt::Write>(&self, f: &mut fmt::Formatter<W>) -> fmt::Result {
        let name = self.0.name();
        write!(f, "{}", Escaped(name.as_bytes()))
    }
}

/// How many of these cases have a mark in the cell of a peer.
#[derive(Clone, Copy)]
struct CountHtml<'p, 'i, 'a> {
    ids: &'i [&'a [u8]],
    peer: &'p Peer<'a>,
    mark: Mark,
}

impl fmt::Display for CountHtml<'_, '_, '_> {
    ghost output = { λ html. Some (decimal (count_of (texts_now html.ids.now) html.peer.now html.mark)) };

    fn fmt<W: fmt::Write>(&self, f: &mut fmt::Formatter<W>) -> fmt::Result {
        let count = count_of(self.ids, self.peer, self.mark);
        write!(f, "{count}")
    }
}

/// How many of them fail, and how many have no connection.
#[derive(Clone, Copy)]
struct FailsHtml<'p, 'i, 'a> {
    ids: &'i [&'a [u8]],
    peer: &'p Peer<'a>,
}

impl fmt::Display for FailsHtml<'_, '_, '_> {
    ghost output = { λ html. Some (decimal (fails_of (texts_now html.ids.now) html.peer.now)) };

    fn fmt<W: fmt::Write>(&self, f: &mut fmt::Formatter<W>) -> fmt::Result {
        let fails = count_of(self.ids, self.peer, Mark::Fail);
        let unconnected = count_of(self.ids, self.peer, Mark::NoConnection);
        let count = fails + unconnected;
        write!(f, "{count}")
    }
}

/// How many of those that fail weren't run, if there are any.
#[derive(Clone, Copy)]
struct NotRunHtml<'p, 'i, 'a> {
    ids: &'i [&'a [u8]],
    peer: &'p Peer<'a>,
}

impl fmt::Display for NotRunHtml<'_, '_, '_> {
    ghost output = { λ html. Some (not_run_html (count_not_run (texts_now html.ids.now) html.peer.now)) };

    fn fmt<W: fmt::Write>(&self, f: &mut fmt::Formatter<W>) -> fmt::Result {
        let count = count_not_run(self.ids, self.peer);
        if count == 0 {
            return Ok(());
        }
        write!(f, " ({count} not run)")
    }
}

/// What more is said of a peer.
#[derive(Clone, Copy)]
struct SaidHtml<'p, 'a>(&'p Peer<'a>);

impl fmt::Display for SaidHtml<'_, '_> {
    ghost output = { λ html. Some (notes_html html.0.now.notes) };

    fn fmt<W: fmt::Write>(&self, f: &mut fmt::Formatter<W>) -> fmt::Result {
        let notes = NotesHtml(self.0.notes());
        write!(f, "{notes}")
    }
}

/// The same, of these texts.
#[derive(Clone, Copy)]
struct NotesHtml<'p, 'a>(&'p [&'a str]);

impl fmt::Display for NotesHtml<'_, '_> {
    ghost output = { λ html. Some (notes_html (texts_now html.0.now)) };

    fn fmt<W: fmt::Write>(&self, f: &mut fmt::Formatter<W>) -> fmt::Result {
        for note in self.0 {
            write!(f, "<div>{}</div>", Escaped(note.as_bytes()))?;
        }
        Ok(())
    }
}
