//! The rows, each the case's name, title and cells, with its panel below, in groups that fold.

ghost use Rattle.std.specs.Prelude.{◌≡◌, Some};
ghost use Rattle.ws_pages.specs.Page.{case_head_html, case_row_html, case_title_html, group_front, group_html};
ghost use Rattle.ws_pages.specs.Page.{group_name_html, group_of, is_same, row_class, row_html, row_in_group};
ghost use Rattle.ws_pages.specs.Page.{row_start_html, rows_html};
ghost use Rattle.ws_pages.specs.NamedTexts.{text_named};
ghost use Rattle.ws_pages.specs.Views.{table_value};

use crate::cell_html::CellsHtml;
use crate::escaping::Escaped;
use crate::marks::{RowClass, is_same};
use crate::named_text::{NamedText, text_named};
use crate::panel_html::PanelHtml;
use crate::table::Table;
use std::fmt;
use ws_runs::Peer;

/// The rows.
#[derive(Clone, Copy)]
pub(crate) struct RowsHtml<'p, 'i, 't, 'a>(pub(crate) Table<'p, 'i, 't, 'a>);

impl fmt::Display for RowsHtml<'_, '_, '_, '_> {
    ghost output = { λ html. Some (rows_html (table_value html.0)) };

    fn fmt<W: fmt::Write>(&self, f: &mut fmt::Formatter<W>) -> fmt::Result {
        let mut last: &[u8] = b"";
        for id in self.0.ids {
            let row = RowInGroup {
                table: self.0,
                last,
                id,
            };
            write!(f, "{row}")?;
            last = group_of(id);
        }
        Ok(())
    }
}

/// A row, and in front of it the beginning of its group, if the row before is of another.
#[derive(Clone, Copy)]
struct RowInGroup<'p, 'i, 't, 'a, 'l> {
    table: Table<'p, 'i, 't, 'a>,
    last: &'l [u8],
    id: &'a [u8],
}

impl fmt::Display for RowInGroup<'_, '_, '_, '_, '_> {
    ghost output = { λ html. Some (row_in_group (table_value html.table) html.last.now html.id.now) };

    fn fmt<W: fmt::Write>(&self, f: &mut fmt::Formatter<W>) -> fmt::Result {
        let front = GroupFront {
            table: self.table,
            last: self.last,
            group: group_of(self.id),
        };
        let row = RowHtml {
            table: self.table,
            id: self.id,
        };
        write!(f, "{front}{row}")
    }
}

/// The group of a case: its name up to the first dot.
fn group_of(id: &[u8]) -> &[u8]
    ensures { result.now ≡ group_of id.now }
{
    for place in 0..id.len() {
        if id[place] == b'.' {
            return &id[..place];
        }
    }
    id
}

/// The beginning of a group, if the row before is of another.
#[derive(Clone, Copy)]
struct GroupFront<'p, 'i, 't, 'a, 'l> {
    table: Table<'p, 'i, 't, 'a>,
    last: &'l [u8],
    group: &'a [u8],
}

impl fmt::Display for GroupFront<'_, '_, '_, '_, '_> {
    ghost output = { λ html. Some (group_front (table_value html.table) html.last.now html.group.now) };

    fn fmt<W: fmt::Write>(&self, f: &mut fmt::Formatter<W>) -> fmt::Result {
        if self.last == self.group {
            return Ok(());
        }
        let html = GroupHtml {
            table: self.table,
            group: self.group,
        };
        write!(f, "{html}")
    }
}

/// The beginning of a group, which folds.
#[derive(Clone, Copy)]
struct GroupHtml<'p, 'i, 't, 'a> {
    table: Table<'p, 'i, 't, 'a>,
    group: &'a [u8],
}

impl fmt::Display for GroupHtml<'_, '_, '_, '_> {
    ghost output = { λ html. Some (group_html (table_value html.table) html.group.now) };

    fn fmt<W: fmt::Write>(&self, f: &mut fmt::Formatter<W>) -> fmt::Result {
        let width = self.table.peers.len() + 1;
        let group = Escaped(self.group);
        let name = GroupName(text_named(self.table.texts.groups, self.group));
        write!(
            f,
            "</tbody>\n<tbody>\n<tr class=\"group\"><th scope=\"rowgroup\" colspan=\"{width}\"><label>\
             <input type=\"checkbox\" checked> Group {group}{name}</label></th></tr>\n"
        )
    }
}

/// The name of a group, if it has one.
#[derive(Clone, Copy)]
struct GroupName<'a>(&'a [u8]);

impl fmt::Display for GroupName<'_> {
    ghost output = { λ html. Some (group_name_html html.0.now) };

    fn fmt<W: fmt::Write>(&self, f: &mut fmt::Formatter<W>) -> fmt::Result {
        if self.0.is_empty() {
            return Ok(());
        }
        write!(f, ": {}", Escaped(self.0))
    }
}

/// The row of a case, and the panel that it opens.
#[derive(Clone, Copy)]
struct RowHtml<'p, 'i, 't, 'a> {
    table: Table<'p, 'i, 't, 'a>,
    id: &'a [u8],
}

impl fmt::Display for RowHtml<'_, '_, '_, '_> {
    ghost output = { λ html. Some (row_html (table_value html.table) html.id.now) };

    fn fmt<W: fmt::Write>(&self, f: &mut fmt::Formatter<W>) -> fmt::Result {
        let row = CaseRowHtml {
            table: self.table,
            id: self.id,
        };
        let panel = PanelHtml {
            table: self.table,
            id: self.id,
        };
        write!(f, "{row}{panel}")
    }
}

/// The row without its panel: the name of the case and the cells.
#[derive(Clone, Copy)]
struct CaseRowHtml<'p, 'i, 't, 'a> {
    table: Table<'p, 'i, 't, 'a>,
    id: &'a [u8],
}

impl fmt::Display for CaseRowHtml<'_, '_, '_, '_> {
    ghost output = { λ html. Some (case_row_html (table_value html.table) html.id.now) };

    fn fmt<W: fmt::Write>(&self, f: &mut fmt::Formatter<W>) -> fmt::Result {
        let start = RowStartHtml {
            peers: self.table.peers,
            id: self.id,
        };
        let head = CaseHeadHtml {
            titles: self.table.texts.titles,
            id: self.id,
        };
        let cells = CellsHtml {
            peers: self.table.peers,
            id: self.id,
        };
        write!(f, "{start}{head}{cells}</tr>\n")
    }
}

/// The beginning of the row of a case, to which a link of its name leads.
#[derive(Clone, Copy)]
struct RowStartHtml<'p, 'a> {
    peers: &'p [Peer<'a>],
    id: &'a [u8],
}

impl fmt::Display for RowStartHtml<'_, '_> {
    ghost output = { λ html. Some (row_start_html html.peers.now html.id.now) };

    fn fmt<W: fmt::Write>(&self, f: &mut fmt::Formatter<W>) -> fmt::Result {
        let class = SameHtml {
            peers: self.peers,
            id: self.id,
        };
        let id = Escaped(self.id);
        write!(f, "<tr class=\"{class}\" id=\"c-{id}\">")
    }
}

/// The name of a case, a link to its row, and its title.
#[derive(Clone, Copy)]
struct CaseHeadHtml<'t, 'a> {
    titles: &'t [NamedText],
    id: &'a [u8],
}

impl fmt::Display for CaseHeadHtml<'_, '_> {
    ghost output = { λ html. Some (case_head_html html.titles.now html.id.now) };

    fn fmt<W: fmt::Write>(&self, f: &mut fmt::Formatter<W>) -> fmt::Result {
        let id = Escaped(self.id);
        let title = TitleHtml {
            titles: self.titles,
            id: self.id,
        };
        write!(
            f,
            "<th scope=\"row\"><a href=\"#c-{id}\">{id}</a>{title}</th>"
        )
    }
}

/// The class of the row of a case.
#[derive(Clone, Copy)]
struct SameHtml<'p, 'a> {
    peers: &'p [Peer<'a>],
    id: &'a [u8],
}

impl fmt::Display for SameHtml<'_, '_> {
    ghost output = { λ html. Some (row_class (is_same html.peers.now html.id.now)) };

    fn fmt<W: fmt::Write>(&self, f: &mut fmt::Formatter<W>) -> fmt::Result {
        let class = RowClass(is_same(self.peers, self.id));
        write!(f, "{class}")
    }
}

/// The title of a case, if it is known.
#[derive(Clone, Copy)]
struct TitleHtml<'t, 'a> {
    titles: &'t [NamedText],
    id: &'a [u8],
}

impl fmt::Display for TitleHtml<'_, '_> {
    ghost output = { λ html. Some (case_title_html (text_named html.titles.now html.id.now)) };

    fn fmt<W: fmt::Write>(&self, f: &mut fmt::Formatter<W>) -> fmt::Result {
        let title = CaseTitle(text_named(self.titles, self.id));
        write!(f, "{title}")
    }
}

/// What a case tries, if that is known.
#[derive(Clone, Copy)]
struct CaseTitle<'a>(&'a [u8]);

impl fmt::Display for CaseTitle<'_> {
    ghost output = { λ html. Some (case_title_html html.0.now) };

    fn fmt<W: fmt::Write>(&self, f: &mut fmt::Formatter<W>) -> fmt::Result {
        if self.0.is_empty() {
            return Ok(());
        }
        write!(f, " <span>{}</span>", Escaped(self.0))
    }
}
