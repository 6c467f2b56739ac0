//! The cells of a row.

ghost use Rattle.std.specs.Prelude.{Some};
ghost use Rattle.ws_pages.specs.Page.{cell_html, cells_html, letter_html};
ghost use Rattle.ws_runs.specs.Views.{cell_value};

use crate::escaping::Escaped;
use crate::marks::{MarkClass, MarkLetter};
use std::fmt;
use ws_runs::{CaseResult, Mark, Peer, mark_of_words};

/// The cells of a case.
#[derive(Clone, Copy)]
pub(crate) struct CellsHtml<'p, 'a> {
    pub(crate) peers: &'p [Peer<'a>],
    pub(crate) id: &'a [u8],
}

impl fmt::Display for CellsHtml<'_, '_> {
    ghost output = { λ html. Some (cells_html html.peers.now html.id.now) };

    fn fmt<W: fmt::Write>(&self, f: &mut fmt::Formatter<W>) -> fmt::Result {
        for peer in self.peers {
            let html = CellHtml {
                id: self.id,
                cell: peer.cell(self.id),
            };
            write!(f, "{html}")?;
        }
        Ok(())
    }
}

/// The cell of a peer and a case.
#[derive(Clone, Copy)]
struct CellHtml<'a> {
    id: &'a [u8],
    cell: Option<CaseResult<'a>>,
}

impl fmt::Display for CellHtml<'_> {
    ghost output = { λ html. Some (cell_html html.id.now (cell_value html.cell)) };

    fn fmt<W: fmt::Write>(&self, f: &mut fmt::Formatter<W>) -> fmt::Result {
        match self.cell {
            Some(case) => {
                let html = LetterHtml {
                    id: self.id,
                    mark: mark_of_words(case.words),
                };
                write!(f, "{html}")
            }
            None => write!(f, "<td class=\"N\">-</td>"),
        }
    }
}

/// The letter of a result, which leads to the row of its case.
#[derive(Clone, Copy)]
struct LetterHtml<'a> {
    id: &'a [u8],
    mark: Mark,
}

impl fmt::Display for LetterHtml<'_> {
    ghost output = { λ html. Some (letter_html html.id.now html.mark) };

    fn fmt<W: fmt::Write>(&self, f: &mut fmt::Formatter<W>) -> fmt::Result {
        let class = MarkClass(self.mark);
        let id = Escaped(self.id);
        let letter = MarkLetter(self.mark);
        write!(
            f,
            "<td class=\"{class}\"><a href=\"#c-{id}\">{letter}</a></td>"
        )
    }
}
