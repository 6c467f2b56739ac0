//! What the tables of a page are made of.

use crate::named_text::NamedText;
use ws_runs::Peer;

/// What a page has beside the runs.
#[derive(Clone, Copy)]
pub struct PageTexts<'a> {
    /// The titles of cases.
    pub titles: &'a [NamedText],
    /// The scripts of cases.
    pub scripts: &'a [NamedText],
    /// The names of groups.
    pub groups: &'a [NamedText],
    /// The rules of verdicts.
    pub rules: &'a [NamedText],
}

/// What the tables of a page are made of.
#[derive(Clone, Copy)]
pub(crate) struct Table<'p, 'i, 't, 'a> {
    /// The columns.
    pub(crate) peers: &'p [Peer<'a>],
    /// The rows.
    pub(crate) ids: &'i [&'a [u8]],
    /// The texts.
    pub(crate) texts: PageTexts<'t>,
}
