//! What stands behind the verdict of a case whose earlier verdict is asked for.

ghost use Rattle.std.specs.Prelude.{Some};
ghost use Rattle.ws_reports.specs.Remarks.{remark_words};

use std::fmt;

/// What stands behind a verdict.
#[derive(Clone, Copy)]
pub enum Remark<'a> {
    /// Nothing.
    Nothing,
    /// The case has no verdict that is known.
    New,
    /// The words of the verdict that is known are others.
    Was(&'a str),
}

impl fmt::Display for Remark<'_> {
    ghost output = { λ remark. Some (remark_words remark) };

    fn fmt<W: fmt::Write>(&self, f: &mut fmt::Formatter<W>) -> fmt::Result {
        match self {
            Remark::Nothing => Ok(()),
            Remark::New => write!(f, " (new)"),
            Remark::Was(words) => write!(f, " (was {words})"),
        }
    }
}
