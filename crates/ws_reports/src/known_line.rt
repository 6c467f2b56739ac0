//! A line of an earlier run.

ghost use Rattle.std.specs.Prelude.{◌≡◌, ◌↔◌, ℕ, List, [], IsTrue, IfOk, MatchOption, codes, string_bytes};
ghost use Rattle.ws_formats.specs.Reading.{Reads};
ghost use Rattle.ws_reports.specs.Cutting.{AreParts, CountsPasses, CutsRemark, IsCaseRead, TellsNoCase};
ghost use Rattle.ws_reports.specs.KnownLines.{StandsFirst, HasCount, HasInBrackets, IsBesideCases, IsCaseLine};
ghost use Rattle.ws_reports.specs.KnownLines.{IsCount, IsKnownLine, IsRemark, IsTotal, IsWas};
ghost use Rattle.ws_reports.specs.Verdicts.{IsVerdict};

use crate::behind_total::is_behind_total;
use crate::cutting::{behind, cut_at, front_of};
use crate::verdict_words::is_verdict;
use std::alloc::{AllocError, Global};
use ws_base::{LineFault, Payload};
use ws_formats::Line;

/// What a line of an earlier run tells.
#[derive(Drop)]
pub enum KnownLine {
    /// The verdict of a case, by its words.
    Verdict { id: Payload, words: String },
    /// No verdict of a case: a total, where clients were waited for, or what stands below the line of a case.
    Other,
}

impl Line for KnownLine {
    ghost is_line_of = { IsKnownLine };

    fn read(alloc: Global, line: &[u8]) -> Result<KnownLine, LineFault> {
        if is_beside_cases(line) {
            return Ok(KnownLine::Other);
        }
        read_case_line(alloc, line)
    }
}

/// Whether a line begins with a space, tells where clients are waited for, is a total, or stands behind one.
pub fn is_beside_cases(line: &[u8]) -> bool
    ensures { IsTrue result ↔ IsBesideCases line.now }
{
    if is_total(line) {
        return true;
    }
    if begins_with(line, b" ") {
        return true;
    }
    if begins_with(line, b"listening on ") {
        return true;
    }
    is_behind_total(line)
}

/// Whether bytes begin with these.
pub(crate) fn begins_with(bytes: &[u8], front: &[u8]) -> bool
    ensures { IsTrue result ↔ StandsFirst front.now bytes.now }
{
    behind(bytes, front).is_some()
}

/// Whether a line is a total of verdicts.
pub fn is_total(line: &[u8]) -> bool
    ensures { IsTrue result ↔ IsTotal line.now }
{
    match behind_passes(line) {
        Some(rest) => is_count_of(rest, b"fail"),
        None => false,
    }
}

/// What stands behind the first two counts of a total.
fn behind_passes(line: &[u8]) -> Option<&[u8]>
    ensures { MatchOption result ((rest : List ℕ) → CountsPasses rest line.now → ⊥)
        (λ rest. CountsPasses rest.now line.now) }
{
    let Some(behind_pass) = behind_count(line, b"pass, ") else {
        return None;
    };
    behind_count(behind_pass, b"loose, ")
}

/// Whether a line is a count of these, and nothing else.
pub(crate) fn is_count_of(line: &[u8], word: &[u8]) -> bool
    ensures { IsTrue result ↔ HasCount word.now [] line.now }
{
    match behind_count(line, word) {
        Some(rest) => rest.is_empty(),
        None => false,
    }
}

/// What stands behind a count of these.
pub(crate) fn behind_count<'a>(line: &'a [u8], word: &[u8]) -> Option<&'a [u8]>
    ensures { MatchOption result ((rest : List ℕ) → HasCount word.now rest line.now → ⊥)
        (λ rest. HasCount word.now rest.now line.now) }
{
    let Some((count, rest)) = cut_at(line, b' ') else {
        return None;
    };
    if is_count(count) {
        behind(rest, word)
    } else {
        None
    }
}

/// Whether these are digits, one at least.
fn is_count(word: &[u8]) -> bool
    ensures { IsTrue result ↔ IsCount word.now }
{
    !word.is_empty() && word.iter().all(|byte| byte.is_ascii_digit())
}

/// The verdict that the line of a case tells.
fn read_case_line(alloc: Global, line: &[u8]) -> Result<KnownLine, LineFault>
    ensures { Reads result (λ found. IsCaseRead line.now found) }
{
    let Some((id, words)) = case_parts(line) else {
        return Err(LineFault::Damaged);
    };
    let words = copied_words(alloc, words)?;
    let id = copied(alloc, id)?;
    Ok(KnownLine::Verdict { id, words })
}

/// The name of the case and the words of its verdict, of the line of a case.
pub fn case_parts(line: &[u8]) -> Option<(&[u8], &[u8])>
    ensures { MatchOption result (TellsNoCase line.now) (λ parts. IsCaseLine parts.0.now parts.1.now line.now) }
{
    let Some((id, rest)) = cut_at(line, b' ') else {
        return None;
    };
    let (words, remark) = cut_remark(rest);
    if are_parts(id, words, remark) {
        Some((id, words))
    } else {
        None
    }
}

/// Whether these are the name of a case, the words of a verdict and what can stand behind them.
fn are_parts(id: &[u8], words: &[u8], remark: &[u8]) -> bool
    ensures { IsTrue result ↔ AreParts id.now words.now remark.now }
{
    if id.is_empty() {
        return false;
    }
    if is_verdict(words) {
        return is_remark(remark);
    }
    false
}

/// What stands before a space and the first bracket, and from that space on.
fn cut_remark(rest: &[u8]) -> (&[u8], &[u8])
    ensures { CutsRemark rest.now result.0.now result.1.now }
{
    match cut_at(rest, b'(') {
        Some((front, _)) => rest.split_at(front.len().saturating_sub(1)),
        None => (rest, b""),
    }
}

/// Whether this can stand behind a verdict.
fn is_remark(remark: &[u8]) -> bool
    ensures { IsTrue result ↔ IsRemark remark.now }
{
    remark.is_empty() || is_new(remark) || is_was(remark)
}

/// Whether this tells that a case is new.
fn is_new(remark: &[u8]) -> bool
    ensures { IsTrue result ↔ (remark.now ≡ codes " (new)") }
{
    remark == b" (new)".as_slice()
}

/// Whether this tells what a verdict was.
fn is_was(remark: &[u8]) -> bool
    ensures { IsTrue result ↔ IsWas remark.now }
{
    match was_words(remark) {
        Some(words) => is_verdict(words),
        None => false,
    }
}

/// What stands in the brackets of a remark that tells what a verdict was.
fn was_words(remark: &[u8]) -> Option<&[u8]>
    ensures { MatchOption result ((words : List ℕ) → HasInBrackets words remark.now → ⊥)
        (λ words. HasInBrackets words.now remark.now) }
{
    let Some(rest) = behind(remark, b" (was ") else {
        return None;
    };
    front_of(rest, b")")
}

/// A copy of the words of a verdict, which are ASCII.
fn copied_words(alloc: Global, words: &[u8]) -> Result<String, AllocError>
    requires { IsVerdict words.now }
    ensures { IfOk result (λ copy. string_bytes copy ≡ words.now) }
{
    String::from_utf8_lossy(alloc, words)
}

/// A copy of bytes.
fn copied(alloc: Global, bytes: &[u8]) -> Result<Payload, AllocError>
    ensures { IfOk result (λ copy. copy ≡ bytes.now) }
{
    Ok(Payload::from_vec(bytes.to_vec(alloc)?))
}
