//! The words of a verdict, as the line of a case has them.

ghost use Rattle.std.specs.Prelude.{◌≡◌, ◌⊎◌, ◌↔◌, IsTrue, codes};
ghost use Rattle.ws_reports.specs.Verdicts.{HasName, HasRule, IsHeadFail, IsName, IsNamedLoose, IsPlainFail};
ghost use Rattle.ws_reports.specs.Verdicts.{IsRuleName, IsVerdict, NamesFail, NamesLoose, NamesRefusal};
ghost use Rattle.ws_reports.specs.Verdicts.{is_same_verdict, tells_fail};

use crate::cutting::behind;

/// Whether these are the words of a verdict: `PASS`, `no connection`, or `LOOSE`, `FAIL` or `FAIL Head` with a name.
/// `near` or `far` in front of the name tells of which of two hops it is.
pub(crate) fn is_verdict(words: &[u8]) -> bool
    ensures { IsTrue result ↔ IsVerdict words.now }
{
    if is_bare(words) {
        return true;
    }
    if is_named_loose(words) {
        return true;
    }
    if is_plain_fail(words) {
        return true;
    }
    is_head_fail(words)
}

/// Whether the words are `PASS` or `no connection`.
fn is_bare(words: &[u8]) -> bool
    ensures { IsTrue result ↔ ((words.now ≡ codes "PASS") ⊎ (words.now ≡ codes "no connection")) }
{
    words == b"PASS".as_slice() || words == b"no connection".as_slice()
}

/// Whether the words are `LOOSE`, a hop or none, and a name.
fn is_named_loose(words: &[u8]) -> bool
    ensures { IsTrue result ↔ IsNamedLoose words.now }
{
    names_loose(words)
}

/// The same, by the words that may stand in front of the name.
fn names_loose(words: &[u8]) -> bool
    ensures { IsTrue result ↔ NamesLoose words.now }
{
    has_name(words, b"LOOSE ") || has_name(words, b"LOOSE near ") || has_name(words, b"LOOSE far ")
}

/// Whether the words are `FAIL`, a hop or none, and a name other than `Head`.
fn is_plain_fail(words: &[u8]) -> bool
    ensures { IsTrue result ↔ IsPlainFail words.now }
{
    names_fail(words)
}

/// The same, by the words that may stand in front of the name.
fn names_fail(words: &[u8]) -> bool
    ensures { IsTrue result ↔ NamesFail words.now }
{
    has_rule(words, b"FAIL ") || has_rule(words, b"FAIL near ") || has_rule(words, b"FAIL far ")
}

/// Whether the words are `FAIL Head` or `FAIL far Head` and a name.
fn is_head_fail(words: &[u8]) -> bool
    ensures { IsTrue result ↔ IsHeadFail words.now }
{
    names_refusal(words)
}

/// The same, by the words that may stand in front of the name.
fn names_refusal(words: &[u8]) -> bool
    ensures { IsTrue result ↔ NamesRefusal words.now }
{
    has_name(words, b"FAIL Head ") || has_name(words, b"FAIL far Head ")
}

/// Whether a name other than `Head` stands behind these bytes, and nothing else.
fn has_rule(words: &[u8], front: &[u8]) -> bool
    ensures { IsTrue result ↔ HasRule front.now words.now }
{
    match behind(words, front) {
        Some(name) => is_rule_name(name),
        None => false,
    }
}

/// Whether this is a name other than `Head`.
fn is_rule_name(word: &[u8]) -> bool
    ensures { IsTrue result ↔ IsRuleName word.now }
{
    is_name(word) && word != b"Head".as_slice()
}

/// Whether a name stands behind these bytes, and nothing else.
fn has_name(words: &[u8], front: &[u8]) -> bool
    ensures { IsTrue result ↔ HasName front.now words.now }
{
    match behind(words, front) {
        Some(name) => is_name(name),
        None => false,
    }
}

/// Whether these are ASCII letters, one at least.
fn is_name(word: &[u8]) -> bool
    ensures { IsTrue result ↔ IsName word.now }
{
    !word.is_empty() && word.iter().all(|byte| byte.is_ascii_alphabetic())
}

/// Whether the words of a verdict tell a Fail. A case without a connection is one.
pub fn tells_fail(words: &[u8]) -> bool
    ensures { result ≡ tells_fail words.now }
{
    words.starts_with(b"FAIL ") || words == b"no connection".as_slice()
}

/// Whether two verdicts count as the same: neither is a Fail, or both are the same. Which Loose a server gets can hang
/// on its haste.
pub fn is_same_verdict(known: &[u8], now: &[u8]) -> bool
    ensures { result ≡ is_same_verdict known.now now.now }
{
    known == now || !(tells_fail(known) || tells_fail(now))
}
