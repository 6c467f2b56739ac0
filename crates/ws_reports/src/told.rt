//! What there is to tell of a case.

/// What there is to tell of a case.
#[derive(Clone, Copy)]
pub struct Told<'a> {
    /// The name of the case.
    pub id: &'a str,
    /// What it tries, in a few words: a document has them behind its name.
    pub title: &'a str,
    /// The words of its verdict.
    pub verdict: &'a str,
    /// The lines that stand below its line, each with its LF.
    pub below: &'a str,
}
