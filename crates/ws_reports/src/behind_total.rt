//! The lines that stand behind the total of a run: a summary, and counts.

ghost use Rattle.std.specs.Prelude.{◌≡◌, ◌≢◌, ◌↔◌, IsTrue, codes};
ghost use Rattle.ws_reports.specs.Cutting.{AreFurtherDigits, CutsAtDigit};
ghost use Rattle.ws_reports.specs.KnownLines.{CountsFixed, CountsNew, CountsSame, IsBehindTotal, IsCountedVerdict};
ghost use Rattle.ws_reports.specs.KnownLines.{IsKnownCounts, IsNamedVerdict, IsRunCount, IsVerdictLine, StandsFirst};
ghost use Rattle.ws_reports.specs.Verdicts.{IsVerdict};

use crate::cutting::{behind, cut_at, front_of};
use crate::known_line::{begins_with, behind_count, is_count_of};
use crate::verdict_words::is_verdict;

/// Whether a line stands behind the total of a run: a verdict with its cases, how cases stand beside an earlier run,
/// how a proxy passed them on, or how many of them were run.
pub(crate) fn is_behind_total(line: &[u8]) -> bool
    ensures { IsTrue result ↔ IsBehindTotal line.now }
{
    is_tally(line) || is_counts(line) || begins_with(line, b"passed on: ") || is_run_count(line)
}

/// Whether a line has a verdict other than PASS, how many cases have it, and these.
fn is_tally(line: &[u8]) -> bool
    ensures { IsTrue result ↔ IsVerdictLine line.now }
{
    match cut_at(line, b':') {
        Some((front, cases)) => is_tally_of(front, cases),
        None => false,
    }
}

/// Whether these are a verdict with how many cases have it, and what stands behind the colon.
fn is_tally_of(front: &[u8], cases: &[u8]) -> bool
    ensures { IsTrue result ↔ (IsCountedVerdict front.now × StandsFirst (codes " ") cases.now) }
{
    is_counted_verdict(front) && begins_with(cases, b" ")
}

/// Whether these are the words of a verdict other than PASS, a space and a count.
fn is_counted_verdict(front: &[u8]) -> bool
    ensures { IsTrue result ↔ IsCountedVerdict front.now }
{
    match cut_at_digit(front) {
        Some((named, _, rest)) => is_named_count(named, rest),
        None => false,
    }
}

/// What stands before the first digit, that digit, and what stands behind it. `None` where there is none.
fn cut_at_digit(bytes: &[u8]) -> Option<(&[u8], u8, &[u8])>
    ensures { CutsAtDigit bytes.now result }
{
    let at = bytes.iter().position(|byte| byte.is_ascii_digit())?;
    Some((&bytes[..at], bytes[at], &bytes[at + 1..]))
}

/// Whether these are the words of a verdict other than PASS, with a space, and digits behind the first one of a count.
fn is_named_count(named: &[u8], rest: &[u8]) -> bool
    ensures { IsTrue result ↔ (IsNamedVerdict named.now × AreFurtherDigits rest.now) }
{
    is_named(named) && are_further_digits(rest)
}

/// Whether these are digits, or nothing.
fn are_further_digits(rest: &[u8]) -> bool
    ensures { IsTrue result ↔ AreFurtherDigits rest.now }
{
    rest.iter().all(|byte| byte.is_ascii_digit())
}

/// Whether these are the words of a verdict other than PASS, and a space.
fn is_named(named: &[u8]) -> bool
    ensures { IsTrue result ↔ IsNamedVerdict named.now }
{
    match front_of(named, b" ") {
        Some(words) => is_other_verdict(words),
        None => false,
    }
}

/// Whether these are the words of a verdict other than PASS.
fn is_other_verdict(words: &[u8]) -> bool
    ensures { IsTrue result ↔ (IsVerdict words.now × (words.now ≢ codes "PASS")) }
{
    if is_pass(words) {
        return false;
    }
    is_verdict(words)
}

/// Whether these are the words of a PASS.
fn is_pass(words: &[u8]) -> bool
    ensures { IsTrue result ↔ (words.now ≡ codes "PASS") }
{
    words == b"PASS".as_slice()
}

/// Whether a line tells how many cases stand how beside an earlier run.
fn is_counts(line: &[u8]) -> bool
    ensures { IsTrue result ↔ IsKnownCounts line.now }
{
    match behind(line, b"known: ") {
        Some(counts) => counts_same(counts),
        None => false,
    }
}

/// Whether these are the four counts.
fn counts_same(line: &[u8]) -> bool
    ensures { IsTrue result ↔ CountsSame line.now }
{
    match behind_count(line, b"same, ") {
        Some(rest) => counts_new(rest),
        None => false,
    }
}

/// Whether these are the last three of them.
fn counts_new(line: &[u8]) -> bool
    ensures { IsTrue result ↔ CountsNew line.now }
{
    match behind_count(line, b"new, ") {
        Some(rest) => counts_fixed(rest),
        None => false,
    }
}

/// Whether these are the last two of them.
fn counts_fixed(line: &[u8]) -> bool
    ensures { IsTrue result ↔ CountsFixed line.now }
{
    match behind_count(line, b"fixed, ") {
        Some(rest) => is_count_of(rest, b"changed"),
        None => false,
    }
}

/// Whether a line tells how many cases a run that was cut off had.
fn is_run_count(line: &[u8]) -> bool
    ensures { IsTrue result ↔ IsRunCount line.now }
{
    match behind_count(line, b"of ") {
        Some(rest) => is_count_of(rest, b"run"),
        None => false,
    }
}
