//! Bytes that are cut: at the first of a kind, behind what they begin with, and before what they end with.

ghost use Rattle.std.specs.Prelude.{◌≡◌, ◌++◌, List, MatchOption, ℕ};
ghost use Rattle.ws_reports.specs.Cutting.{CutsAtFirst};

/// What stands before the first of these bytes, and behind it. `None` where there is none.
pub(crate) fn cut_at(bytes: &[u8], mark: u8) -> Option<(&[u8], &[u8])>
    ensures { CutsAtFirst mark bytes.now result }
{
    let at = bytes.iter().position(|byte| *byte == mark)?;
    Some((&bytes[..at], &bytes[at + 1..]))
}

/// What stands behind these bytes. `None` where others come first.
pub(crate) fn behind<'a>(bytes: &'a [u8], front: &[u8]) -> Option<&'a [u8]>
    ensures { MatchOption result ((rest : List ℕ) → bytes.now ≡ front.now ++ rest → ⊥)
        (λ rest. bytes.now ≡ front.now ++ rest.now) }
{
    bytes.strip_prefix(front)
}

/// What stands before these bytes. `None` where others come last.
pub(crate) fn front_of<'a>(bytes: &'a [u8], back: &[u8]) -> Option<&'a [u8]>
    ensures { MatchOption result ((rest : List ℕ) → bytes.now ≡ rest ++ back.now → ⊥)
        (λ rest. bytes.now ≡ rest.now ++ back.now) }
{
    bytes.strip_suffix(back)
}
