//! A line of a run.

ghost use Rattle.std.specs.Prelude.{◌≡◌, ◌↔◌, List, IfOk, IsTrue, MatchOption};
ghost use Rattle.ws_runs.specs.RunLines.{IsBare, IsRunLine, RunLine as Meaning};
ghost use Rattle.ws_runs.specs.Views.{line_value};

use ws_reports::{case_parts, is_beside_cases, is_total};

/// What a line of a run means.
#[derive(Clone, Copy)]
pub(crate) enum RunLine<'a> {
    /// The lines after it are of a run over this peer.
    Peer(&'a str),
    /// It says more of the peer.
    Note(&'a str),
    /// The verdict of a case.
    Verdict(CaseLine<'a>),
    /// A line below that of a case, whole.
    Below(&'a [u8]),
    /// The total of a run.
    Total,
    /// Any other line of a run.
    Other,
}

/// The line of a case.
#[derive(Clone, Copy)]
pub(crate) struct CaseLine<'a> {
    /// The name of the case.
    pub(crate) id: &'a [u8],
    /// The words of its verdict.
    pub(crate) words: &'a [u8],
    /// The whole line.
    pub(crate) line: &'a [u8],
}

/// What a line of a run means. `None` if it is none.
pub(crate) fn read_line(line: &[u8]) -> Option<RunLine<'_>>
    ensures { MatchOption result ((meaning : Meaning) → IsRunLine meaning line.now → ⊥)
        (λ read. IsRunLine (line_value read) line.now) }
{
    if let Some(name) = line.strip_prefix(b"# ") {
        return match str::from_utf8(name) {
            Ok(name) => Some(RunLine::Peer(name)),
            Err(_) => None,
        };
    }
    if let Some(text) = line.strip_prefix(b"#: ") {
        return match str::from_utf8(text) {
            Ok(text) => Some(RunLine::Note(text)),
            Err(_) => None,
        };
    }
    if line.starts_with(b" ") {
        return Some(RunLine::Below(line));
    }
    read_bare(line)
}

/// What a line means that neither names a peer, nor says more of one, nor is below the line of a case.
fn read_bare(line: &[u8]) -> Option<RunLine<'_>>
    requires { IsBare line.now }
    ensures { MatchOption result ((meaning : Meaning) → IsRunLine meaning line.now → ⊥)
        (λ read. IsRunLine (line_value read) line.now) }
{
    if is_total(line) {
        return Some(RunLine::Total);
    }
    if is_beside_cases(line) {
        return Some(RunLine::Other);
    }
    match case_parts(line) {
        Some((id, words)) => Some(RunLine::Verdict(CaseLine { id, words, line })),
        None => None,
    }
}
