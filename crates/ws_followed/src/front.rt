//! The lines before those of the segments.

ghost use Rattle.std.specs.Prelude.{◌≡◌, ◌↔◌, IsTrue};
ghost use Rattle.ws_followed.specs.Followed.{IsRule};
ghost use Rattle.ws_followed.specs.InnerReading.{front_line};

/// How far the lines before those of the segments are read.
#[derive(Clone, Copy)]
pub(crate) enum Front {
    /// No line.
    Start,
    /// An empty line.
    Empty,
    /// The first line of `=`.
    Ruled,
    /// What was followed, and how.
    Titled,
    /// The filter.
    Filtered,
    /// The address of node 0.
    FirstNode,
}

/// Whether a line is one of `=` alone, of any length.
pub(crate) fn is_rule(line: &[u8]) -> bool
    ensures { IsTrue result ↔ IsRule line.now }
{
    !line.is_empty() && line.iter().all(|byte| *byte == b'=')
}

/// Whether a line may stand behind those that are read; the empty line before all others is left out.
pub(crate) fn may_follow(front: Front, line: &[u8]) -> bool
    ensures { IsTrue result ↔ front_line front line.now }
{
    match front {
        Front::Start | Front::Empty => is_rule(line),
        Front::Ruled => line == b"Follow: tcp,raw".as_slice(),
        Front::Titled => line.starts_with(b"Filter: "),
        Front::Filtered => line.starts_with(b"Node 0: "),
        Front::FirstNode => line.starts_with(b"Node 1: "),
    }
}
