//! What counts of a case.

/// What counts of a case: the last line that tells of it.
#[derive(Clone, Copy)]
pub struct CaseResult<'a> {
    /// The name of the case.
    pub id: &'a [u8],
    /// The words of the verdict.
    pub words: &'a [u8],
    /// The whole line.
    pub line: &'a [u8],
    /// The lines below it, each with its LF.
    pub below: &'a [u8],
}
