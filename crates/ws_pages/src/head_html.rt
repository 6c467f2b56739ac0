//! The heads of the columns.

ghost use Rattle.std.specs.Prelude.{Some};
ghost use Rattle.ws_pages.specs.Page.{head_html, heads_html, run_html};
ghost use Rattle.ws_pages.specs.Views.{table_value};
ghost use Rattle.ws_runs.specs.Views.{texts_now};

use crate::short_name::{ShortName, TitleAttribute};
use crate::table::Table;
use std::fmt;
use ws_runs::Peer;

/// The heads of the columns.
#[derive(Clone, Copy)]
pub(crate) struct HeadsHtml<'p, 'i, 't, 'a>(pub(crate) Table<'p, 'i, 't, 'a>);

impl fmt::Display for HeadsHtml<'_, '_, '_, '_> {
    ghost output = { λ html. Some (heads_html (table_value html.0)) };

    fn fmt<W: fmt::Write>(&self, f: &mut fmt::Formatter<W>) -> fmt::Result {
        for peer in self.0.peers {
            let head = HeadHtml {
                ids: self.0.ids,
                peer,
            };
            write!(f, "{head}")?;
        }
        Ok(())
    }
}

/// The head of a column: the name of the peer.
#[derive(Clone, Copy)]
struct HeadHtml<'p, 'i, 'a> {
    ids: &'i [&'a [u8]],
    peer: &'p Peer<'a>,
}

impl fmt::Display for HeadHtml<'_, '_, '_> {
    ghost output = { λ html. Some (head_html (texts_now html.ids.now) html.peer.now) };

    fn fmt<W: fmt::Write>(&self, f: &mut fmt::Formatter<W>) -> fmt::Result {
        let name = self.peer.name().as_bytes();
        let title = TitleAttribute(name);
        let name = ShortName(name);
        let run = RunHtml {
            ids: self.ids,
            peer: self.peer,
        };
        write!(
            f,
            "<th scope=\"col\" class=\"end\"{title}><span>{name}</span>{run}</th>"
        )
    }
}

/// Of a peer whose run was cut off: how many of the cases were run.
#[derive(Clone, Copy)]
pub(crate) struct RunHtml<'p, 'i, 'a> {
    pub(crate) ids: &'i [&'a [u8]],
    pub(crate) peer: &'p Peer<'a>,
}

impl fmt::Display for RunHtml<'_, '_, '_> {
    ghost output = { λ html. Some (run_html (texts_now html.ids.now) html.peer.now) };

    fn fmt<W: fmt::Write>(&self, f: &mut fmt::Formatter<W>) -> fmt::Result {
        if !self.peer.is_cut_off() {
            return Ok(());
        }
        let count = self.peer.count();
        let all = self.ids.len();
        write!(f, "<small>{count} of {all} run</small>")
    }
}
