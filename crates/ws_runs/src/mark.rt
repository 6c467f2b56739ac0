//! The letter of a verdict, and the name of the rule in its words.

ghost use Rattle.std.specs.Prelude.{◌≡◌};
ghost use Rattle.ws_runs.specs.Marks.{after_hop, mark_of_words, same_mark, why_of};

/// What a verdict is.
#[derive(Clone, Copy)]
pub enum Mark {
    Pass,
    Loose,
    Fail,
    /// There was no connection, which counts as a Fail.
    NoConnection,
    /// The case wasn't run.
    Missing,
}

impl Mark {
    /// Whether two marks are the same.
    pub fn is(self, other: Mark) -> bool
        ensures { result ≡ same_mark self other }
    {
        match self {
            Mark::Pass => matches!(other, Mark::Pass),
            Mark::Loose => matches!(other, Mark::Loose),
            Mark::Fail => matches!(other, Mark::Fail),
            Mark::NoConnection => matches!(other, Mark::NoConnection),
            Mark::Missing => matches!(other, Mark::Missing),
        }
    }
}

/// The mark of the words of a verdict.
pub fn mark_of_words(words: &[u8]) -> Mark
    ensures { result ≡ mark_of_words words.now }
{
    if words == b"PASS".as_slice() {
        Mark::Pass
    } else if words.starts_with(b"LOOSE ") {
        Mark::Loose
    } else if words.starts_with(b"FAIL ") {
        Mark::Fail
    } else {
        Mark::NoConnection
    }
}

/// The name of the rule in the words of a Loose or a Fail, of a connection or of one of two hops.
pub fn why_of(words: &[u8]) -> &[u8]
    ensures { result.now ≡ why_of words.now }
{
    if words.starts_with(b"FAIL ") {
        after_hop(&words[5..])
    } else if words.starts_with(b"LOOSE ") {
        after_hop(&words[6..])
    } else {
        b""
    }
}

/// The name without the word for a hop, if there is one.
fn after_hop(name: &[u8]) -> &[u8]
    ensures { result.now ≡ after_hop name.now }
{
    if name.starts_with(b"near ") {
        &name[5..]
    } else if name.starts_with(b"far ") {
        &name[4..]
    } else {
        name
    }
}
