//! A page of HTML that needs nothing else.

ghost use Rattle.std.specs.Prelude.{◌≡◌, IfOk, Some, map, string_bytes};
ghost use Rattle.ws_pages.specs.Page.{IsPageOf, filter_html, fixed_parts, page_html, paragraph, table_html, table_with};
ghost use Rattle.ws_pages.specs.Page.{top_html};
ghost use Rattle.ws_pages.specs.Views.{page_frame, table_value, texts_value};
ghost use Rattle.ws_runs.specs.Views.{texts_now};

use crate::head_html::HeadsHtml;
use crate::panel_html::Paragraph;
use crate::row_html::RowsHtml;
use crate::style::{BACK, FAILS, FILTER, FRONT, LEGEND};
use crate::table::{PageTexts, Table};
use crate::total_html::TotalsHtml;
use std::alloc::Global;
use std::fmt;
use ws_base::NoMemory;
use ws_runs::{Peer, Runs, row_ids};

/// The page of these runs, with a date or another text for its head, which may be empty: a table with a row for each
/// case and a column for each peer. If no run was whole, the listed cases have rows too.
pub fn page_text<'a>(
    alloc: Global,
    runs: &Runs<'a>,
    listed: &'a [String],
    date: &str,
    texts: PageTexts<'_>,
) -> Result<String, NoMemory>
    ensures { IfOk result (λ text. IsPageOf date.now (map string_bytes listed.now) runs.now (texts_value texts.entry)
        (string_bytes text)) }
{
    let ids = row_ids(alloc, runs, listed)?;
    let text = page_of(alloc, runs.peers(), ids.as_slice(), date, texts)?;
    Ok(text)
}

/// The page with these columns and rows.
fn page_of<'a>(
    alloc: Global,
    peers: &[Peer<'a>],
    ids: &[&'a [u8]],
    date: &str,
    texts: PageTexts<'_>,
) -> Result<String, NoMemory>
    ensures { IfOk result (λ text. string_bytes text
        ≡ page_html fixed_parts date.now (table_with peers.now (texts_now ids.now) (texts_value texts.entry))) }
{
    let page = Page {
        front: FRONT,
        legend: LEGEND,
        fails: FAILS,
        filter: FILTER,
        back: BACK,
        date,
        table: Table { peers, ids, texts },
    };
    let text = format!(in alloc; "{page}")?;
    Ok(text)
}

/// A page.
#[derive(Clone, Copy)]
struct Page<'f, 'd, 'p, 'i, 't, 'a> {
    /// What comes in front of the date, what comes in front of the totals, the filters, and what comes last.
    front: &'f str,
    legend: &'f str,
    fails: &'f str,
    filter: &'f str,
    back: &'f str,
    date: &'d str,
    table: Table<'p, 'i, 't, 'a>,
}

impl fmt::Display for Page<'_, '_, '_, '_, '_, '_> {
    ghost output = { λ page. Some (page_html (page_frame page) page.date.now (table_value page.table)) };

    fn fmt<W: fmt::Write>(&self, f: &mut fmt::Formatter<W>) -> fmt::Result {
        let (fails, back) = (self.fails, self.back);
        let top = TopHtml(*self);
        let filter = FilterHtml {
            filter: self.filter,
            peers: self.table.peers,
        };
        let table = TableHtml(self.table);
        write!(f, "{top}{fails}{filter}{table}{back}")
    }
}

/// What is in front of the table: the date and the totals.
#[derive(Clone, Copy)]
struct TopHtml<'f, 'd, 'p, 'i, 't, 'a>(Page<'f, 'd, 'p, 'i, 't, 'a>);

impl fmt::Display for TopHtml<'_, '_, '_, '_, '_, '_> {
    ghost output = { λ html. Some (top_html (page_frame html.0) html.0.date.now (table_value html.0.table)) };

    fn fmt<W: fmt::Write>(&self, f: &mut fmt::Formatter<W>) -> fmt::Result {
        let (front, legend) = (self.0.front, self.0.legend);
        let date = DateHtml(self.0.date);
        let totals = TotalsHtml(self.0.table);
        write!(f, "{front}{date}{legend}{totals}</tbody></table>\n")
    }
}

/// The table.
#[derive(Clone, Copy)]
struct TableHtml<'p, 'i, 't, 'a>(Table<'p, 'i, 't, 'a>);

impl fmt::Display for TableHtml<'_, '_, '_, '_> {
    ghost output = { λ html. Some (table_html (table_value html.0)) };

    fn fmt<W: fmt::Write>(&self, f: &mut fmt::Formatter<W>) -> fmt::Result {
        let heads = HeadsHtml(self.0);
        let rows = RowsHtml(self.0);
        write!(
            f,
            "<main><table class=\"wide\">\n<thead><tr><th scope=\"col\">Case</th>{heads}</tr></thead>\n<tbody>\n\
             {rows}</tbody></table></main>\n"
        )
    }
}

/// The text for the head, or nothing for an empty text.
#[derive(Clone, Copy)]
struct DateHtml<'a>(&'a str);

impl fmt::Display for DateHtml<'_> {
    ghost output = { λ html. Some (paragraph html.0.now) };

    fn fmt<W: fmt::Write>(&self, f: &mut fmt::Formatter<W>) -> fmt::Result {
        write!(f, "{}", Paragraph(self.0.as_bytes()))
    }
}

/// The filter, if there is more than one peer.
#[derive(Clone, Copy)]
struct FilterHtml<'f, 'p, 'a> {
    filter: &'f str,
    peers: &'p [Peer<'a>],
}

impl fmt::Display for FilterHtml<'_, '_, '_> {
    ghost output = { λ html. Some (filter_html html.filter.now html.peers.now) };

    fn fmt<W: fmt::Write>(&self, f: &mut fmt::Formatter<W>) -> fmt::Result {
        if self.peers.len() > 1 {
            write!(f, "{}", self.filter)
        } else {
            Ok(())
        }
    }
}
