//! The elements of cases.

ghost use Rattle.std.specs.Prelude.{◌≡◌, Some, flat_map};
ghost use Rattle.ws_reports.specs.Escaping.{quoted};
ghost use Rattle.ws_runs.specs.Views.{result_value, result_values};
ghost use Rattle.ws_junit.specs.Documents.{case_name, cell_element, failed_element, noted_element, skipped_element};
ghost use Rattle.ws_junit.specs.Documents.{title_beside};

use crate::document::is_skipped;
use std::fmt;
use ws_reports::{Escaped, Quoted, first_two_words, tells_fail};
use ws_runs::{CaseResult, Peer};
use ws_titles::title_of;

/// The elements of the cases that were run.
#[derive(Clone, Copy)]
pub(crate) struct CellElements<'r, 'a>(pub(crate) &'r [CaseResult<'a>]);

impl fmt::Display for CellElements<'_, '_> {
    ghost output = { λ elements. Some (flat_map cell_element (result_values elements.0.now)) };

    fn fmt<W: fmt::Write>(&self, f: &mut fmt::Formatter<W>) -> fmt::Result {
        for cell in self.0 {
            write!(f, "{}", CellElement(*cell))?;
        }
        Ok(())
    }
}

/// The element of a case that was run.
#[derive(Clone, Copy)]
struct CellElement<'a>(CaseResult<'a>);

impl fmt::Display for CellElement<'_> {
    ghost output = { λ element. Some (cell_element (result_value element.0)) };

    fn fmt<W: fmt::Write>(&self, f: &mut fmt::Formatter<W>) -> fmt::Result {
        if tells_fail(self.0.words) {
            write!(f, "{}", FailedElement(self.0))
        } else if self.0.words == b"PASS".as_slice() {
            let name = CaseName(self.0.id);
            write!(f, "<testcase classname=\"wst\" name=\"{name}\"/>\n")
        } else {
            write!(f, "{}", NotedElement(self.0))
        }
    }
}

/// The element of a case that failed.
#[derive(Clone, Copy)]
struct FailedElement<'a>(CaseResult<'a>);

impl fmt::Display for FailedElement<'_> {
    ghost output = { λ element. Some (failed_element (result_value element.0)) };

    fn fmt<W: fmt::Write>(&self, f: &mut fmt::Formatter<W>) -> fmt::Result {
        let name = CaseName(self.0.id);
        let kind = Quoted(first_two_words(self.0.words));
        let message = Quoted(self.0.words);
        let below = Escaped(self.0.below);
        write!(
            f,
            "<testcase classname=\"wst\" name=\"{name}\"><failure type=\"{kind}\" message=\"{message}\">\n\
             {below}</failure></testcase>\n"
        )
    }
}

/// The element of a case that neither failed nor passed.
#[derive(Clone, Copy)]
struct NotedElement<'a>(CaseResult<'a>);

impl fmt::Display for NotedElement<'_> {
    ghost output = { λ element. Some (noted_element (result_value element.0)) };

    fn fmt<W: fmt::Write>(&self, f: &mut fmt::Formatter<W>) -> fmt::Result {
        let name = CaseName(self.0.id);
        let words = Escaped(self.0.words);
        let below = Escaped(self.0.below);
        write!(
            f,
            "<testcase classname=\"wst\" name=\"{name}\"><system-out>{words}\n{below}</system-out></testcase>\n"
        )
    }
}

/// The elements of the listed cases that a run lacks.
#[derive(Clone, Copy)]
pub(crate) struct SkippedElements<'r, 'a> {
    pub(crate) peer: &'r Peer<'a>,
    pub(crate) listed: &'r [String],
}

impl fmt::Display for SkippedElements<'_, '_> {
    ghost output = { λ elements. Some (flat_map (skipped_element elements.peer.now) elements.listed.now) };

    fn fmt<W: fmt::Write>(&self, f: &mut fmt::Formatter<W>) -> fmt::Result {
        for id in self.listed {
            let element = SkippedElement {
                peer: self.peer,
                id,
            };
            write!(f, "{element}")?;
        }
        Ok(())
    }
}

/// The element of a listed case, if a run lacks it.
#[derive(Clone, Copy)]
struct SkippedElement<'r, 'a> {
    peer: &'r Peer<'a>,
    id: &'r String,
}

impl fmt::Display for SkippedElement<'_, '_> {
    ghost output = { λ element. Some (skipped_element element.peer.now element.id.now) };

    fn fmt<W: fmt::Write>(&self, f: &mut fmt::Formatter<W>) -> fmt::Result {
        if !is_skipped(self.peer, self.id.as_bytes()) {
            return Ok(());
        }
        let name = CaseName(self.id.as_bytes());
        write!(
            f,
            "<testcase classname=\"wst\" name=\"{name}\"><skipped message=\"not run\"/></testcase>\n"
        )
    }
}

/// The name of a case in an attribute: its ID, and its title if it has one.
#[derive(Clone, Copy)]
struct CaseName<'a>(&'a [u8]);

impl fmt::Display for CaseName<'_> {
    ghost output = { λ name. Some (quoted (case_name name.0.now)) };

    fn fmt<W: fmt::Write>(&self, f: &mut fmt::Formatter<W>) -> fmt::Result {
        let id = Quoted(self.0);
        let title = title_beside(self.0);
        if title.is_empty() {
            return write!(f, "{id}");
        }
        write!(f, "{id} {}", Quoted(title.as_bytes()))
    }
}

/// The title of a case. Empty if it has none.
fn title_beside(id: &[u8]) -> &'static str
    ensures { result.now ≡ title_beside id.now }
{
    match str::from_utf8(id) {
        Ok(id) => title_of(id),
        Err(_) => "",
    }
}
