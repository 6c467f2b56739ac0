//! What the row of a case opens: its script and its results in words.

ghost use Rattle.std.specs.Prelude.{◌≡◌, Some};
ghost use Rattle.ws_pages.specs.Page.{panel_html, paragraph, result_html, results_html, rule_html, script_html};
ghost use Rattle.ws_pages.specs.Page.{words_html};
ghost use Rattle.ws_pages.specs.Views.{table_value};
ghost use Rattle.ws_runs.specs.Views.{cell_value, result_value};

use crate::escaping::Escaped;
use crate::marks::MarkClass;
use crate::named_text::{NamedText, text_named};
use crate::short_name::ShortName;
use crate::table::Table;
use std::fmt;
use ws_runs::{CaseResult, mark_of_words, why_of};

/// The panel of a case, below its row.
#[derive(Clone, Copy)]
pub(crate) struct PanelHtml<'p, 'i, 't, 'a> {
    pub(crate) table: Table<'p, 'i, 't, 'a>,
    pub(crate) id: &'a [u8],
}

impl fmt::Display for PanelHtml<'_, '_, '_, '_> {
    ghost output = { λ html. Some (panel_html (table_value html.table) html.id.now) };

    fn fmt<W: fmt::Write>(&self, f: &mut fmt::Formatter<W>) -> fmt::Result {
        let width = self.table.peers.len() + 1;
        let script = ScriptHtml(text_named(self.table.texts.scripts, self.id));
        let results = ResultsHtml {
            table: self.table,
            id: self.id,
        };
        write!(
            f,
            "<tr class=\"panel\"><td colspan=\"{width}\"><div><a href=\"#-\">Close</a>{script}<div>\
             {results}</div></div></td></tr>\n"
        )
    }
}

/// A script, or nothing for an empty text.
#[derive(Clone, Copy)]
struct ScriptHtml<'a>(&'a [u8]);

impl fmt::Display for ScriptHtml<'_> {
    ghost output = { λ html. Some (script_html html.0.now) };

    fn fmt<W: fmt::Write>(&self, f: &mut fmt::Formatter<W>) -> fmt::Result {
        if self.0.is_empty() {
            return Ok(());
        }
        write!(f, "<pre>{}</pre>", Escaped(self.0))
    }
}

/// The results of a case in words.
#[derive(Clone, Copy)]
struct ResultsHtml<'p, 'i, 't, 'a> {
    table: Table<'p, 'i, 't, 'a>,
    id: &'a [u8],
}

impl fmt::Display for ResultsHtml<'_, '_, '_, '_> {
    ghost output = { λ html. Some (results_html (table_value html.table) html.id.now) };

    fn fmt<W: fmt::Write>(&self, f: &mut fmt::Formatter<W>) -> fmt::Result {
        for peer in self.table.peers {
            let html = ResultHtml {
                rules: self.table.texts.rules,
                name: peer.name().as_bytes(),
                cell: peer.cell(self.id),
            };
            write!(f, "{html}")?;
        }
        Ok(())
    }
}

/// A result in words, if there is one.
#[derive(Clone, Copy)]
struct ResultHtml<'t, 'a> {
    rules: &'t [NamedText],
    name: &'a [u8],
    cell: Option<CaseResult<'a>>,
}

impl fmt::Display for ResultHtml<'_, '_> {
    ghost output = { λ html. Some (result_html html.rules.now html.name.now (cell_value html.cell)) };

    fn fmt<W: fmt::Write>(&self, f: &mut fmt::Formatter<W>) -> fmt::Result {
        match self.cell {
            Some(case) => {
                let html = WordsHtml {
                    rules: self.rules,
                    name: self.name,
                    case,
                };
                write!(f, "{html}")
            }
            None => Ok(()),
        }
    }
}

/// A result in words: the name of the peer, the line of the case, the lines below, and the rule.
#[derive(Clone, Copy)]
struct WordsHtml<'t, 'a> {
    rules: &'t [NamedText],
    name: &'a [u8],
    case: CaseResult<'a>,
}

impl fmt::Display for WordsHtml<'_, '_> {
    ghost output = { λ html. Some (words_html html.rules.now html.name.now (result_value html.case)) };

    fn fmt<W: fmt::Write>(&self, f: &mut fmt::Formatter<W>) -> fmt::Result {
        let class = MarkClass(mark_of_words(self.case.words));
        let name = ShortName(self.name);
        let line = Escaped(self.case.line);
        let below = Escaped(self.case.below);
        let rule = RuleHtml {
            rules: self.rules,
            case: self.case,
        };
        write!(
            f,
            "<div class=\"{class}\"><b>{name}</b><pre>{line}\n{below}</pre>{rule}</div>"
        )
    }
}

/// The rule of a result, if no lines below explain it.
#[derive(Clone, Copy)]
struct RuleHtml<'t, 'a> {
    rules: &'t [NamedText],
    case: CaseResult<'a>,
}

impl fmt::Display for RuleHtml<'_, '_> {
    ghost output = { λ html. Some (rule_html html.rules.now (result_value html.case)) };

    fn fmt<W: fmt::Write>(&self, f: &mut fmt::Formatter<W>) -> fmt::Result {
        if !self.case.below.is_empty() {
            return Ok(());
        }
        let rule = Paragraph(text_named(self.rules, why_of(self.case.words)));
        write!(f, "{rule}")
    }
}

/// A paragraph, or nothing for an empty text.
#[derive(Clone, Copy)]
pub(crate) struct Paragraph<'a>(pub(crate) &'a [u8]);

impl fmt::Display for Paragraph<'_> {
    ghost output = { λ html. Some (paragraph html.0.now) };

    fn fmt<W: fmt::Write>(&self, f: &mut fmt::Formatter<W>) -> fmt::Result {
        if self.0.is_empty() {
            return Ok(());
        }
        write!(f, "<p>{}</p>", Escaped(self.0))
    }
}
