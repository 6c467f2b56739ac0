//! The parts of a JUnit document.

ghost use Rattle.std.specs.Prelude.{◌≡◌, IfOk, string_bytes};
ghost use Rattle.ws_reports.specs.Junit.{failed_case, first_two_words, junit_start, noted_case, passed_case};
ghost use Rattle.ws_reports.specs.Junit.{skipped_case};

use crate::cutting::cut_at;
use crate::escaping::{Escaped, Quoted};
use std::alloc::Global;
use ws_base::NoMemory;

/// What ends a document.
pub(crate) const END: &str = "</testsuite></testsuites>\n";

/// What begins a document about a target.
pub(crate) fn junit_start(alloc: Global, target: &str) -> Result<String, NoMemory>
    ensures { IfOk result (λ text. string_bytes text ≡ junit_start target.now) }
{
    let target = Quoted(target.as_bytes());
    Ok(format!(in alloc;
        "<?xml version=\"1.0\" encoding=\"UTF-8\"?>\n<testsuites><testsuite name=\"wst {target}\">\n"
    )?)
}

/// The element of a case of this name of which nothing is told.
pub(crate) fn passed_case(alloc: Global, name: &str) -> Result<String, NoMemory>
    ensures { IfOk result (λ text. string_bytes text ≡ passed_case name.now) }
{
    let name = Quoted(name.as_bytes());
    Ok(format!(in alloc; "<testcase classname=\"wst\" name=\"{name}\"/>\n")?)
}

/// The element of a case that failed by this verdict, with these words and lines.
pub(crate) fn failed_case(
    alloc: Global,
    name: &str,
    verdict: &str,
    words: &str,
    below: &str,
) -> Result<String, NoMemory>
    ensures { IfOk result (λ text. string_bytes text ≡ failed_case name.now verdict.now words.now below.now) }
{
    let name = Quoted(name.as_bytes());
    let kind = Quoted(first_two_words(verdict.as_bytes()));
    let words = Quoted(words.as_bytes());
    let below = Escaped(below.as_bytes());
    Ok(format!(in alloc;
        "<testcase classname=\"wst\" name=\"{name}\"><failure type=\"{kind}\" message=\"{words}\">\n\
        {below}</failure></testcase>\n"
    )?)
}

/// A text up to its second space.
pub fn first_two_words(text: &[u8]) -> &[u8]
    ensures { result.now ≡ first_two_words text.now }
{
    let Some((first, rest)) = cut_at(text, b' ') else {
        return text;
    };
    match cut_at(rest, b' ') {
        Some((second, _)) => &text[..first.len() + 1 + second.len()],
        None => text,
    }
}

/// The element of a case that failed as it is known to, with these words.
pub(crate) fn skipped_case(alloc: Global, name: &str, words: &str) -> Result<String, NoMemory>
    ensures { IfOk result (λ text. string_bytes text ≡ skipped_case name.now words.now) }
{
    let (name, words) = (Quoted(name.as_bytes()), Quoted(words.as_bytes()));
    Ok(format!(in alloc;
        "<testcase classname=\"wst\" name=\"{name}\"><skipped message=\"{words}\"/></testcase>\n"
    )?)
}

/// The element of a case that did not fail, and of which this text is told.
pub(crate) fn noted_case(alloc: Global, name: &str, text: &str) -> Result<String, NoMemory>
    ensures { IfOk result (λ element. string_bytes element ≡ noted_case name.now text.now) }
{
    let (name, text) = (Quoted(name.as_bytes()), Escaped(text.as_bytes()));
    Ok(format!(in alloc;
        "<testcase classname=\"wst\" name=\"{name}\"><system-out>{text}</system-out></testcase>\n"
    )?)
}
