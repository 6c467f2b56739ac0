//! The case that a path names by its number.

ghost use Rattle.std.specs.Prelude.{◌≡◌, ◌==◌, ◌++◌, ◌∷◌, [], List, ℕ, position};
ghost use Rattle.std.specs.List.{slice_split};
ghost use Rattle.ws_base.specs.Finding.{Finds};
ghost use Rattle.ws_paths.specs.NamingCases.{CutsAt, IsFoundIn};
ghost use Rattle.ws_paths.specs.Paths.{NamesCase, is_ampersand, parts_of, place_of};

use ws_formats::read_u32;

/// What the number of a case stands behind.
const FRONT: &[u8] = b"case=";

/// The parts of a path that name a case, as far as they were looked at.
#[derive(Clone, Copy)]
pub(crate) enum Found<'a> {
    /// None does.
    Nothing,
    /// One does, by this word.
    Once(&'a [u8]),
    /// More than one does.
    Often,
}

/// A path in two: what stands before its first question mark, and what stands behind it.
pub(crate) fn cut_path(path: &[u8]) -> (&[u8], &[u8])
    ensures place { result.0.now ≡ place_of path.now }
    ensures parts { slice_split is_ampersand result.1.now ≡ parts_of path.now }
{
    match cut_at(path, b'?') {
        Some(parts) => parts,
        None => (path, b""),
    }
}

/// What stands before the first of these bytes, and behind it. `None` where there is none.
fn cut_at(bytes: &[u8], mark: u8) -> Option<(&[u8], &[u8])>
    ensures { CutsAt (λ byte. byte == mark) bytes.now result }
{
    let at = first_at(bytes, mark)?;
    Some((&bytes[..at], &bytes[at + 1..]))
}

/// Where the first of these bytes stands, if there is one.
fn first_at(bytes: &[u8], mark: u8) -> Option<usize>
    ensures { result ≡ position (λ byte. byte == mark) bytes.now }
{
    bytes.iter().position(|byte| *byte == mark)
}

/// The case of so many that is named behind the question mark of a path: by one part alone, and by a number from 1 on.
pub(crate) fn named_case(query: &[u8], count: u32) -> Option<u32>
    ensures { Finds result (NamesCase count (slice_split is_ampersand query.now)) }
{
    let Found::Once(word) = find_case(query) else {
        return None;
    };
    let number = read_u32(word)?;
    if number == 0 || number > count {
        return None;
    }
    Some(number)
}

/// The parts that name a case.
fn find_case(query: &[u8]) -> Found<'_>
    ensures { IsFoundIn (slice_split is_ampersand query.now) result }
{
    let mut found = Found::Nothing;
    let mut rest = query;
    while let Some((part, after)) = cut_at(rest, b'&') {
        found = found_with(found, part);
        rest = after;
    }
    found_with(found, rest)
}

/// What is found with one part more.
fn found_with<'a>(found: Found<'a>, part: &'a [u8]) -> Found<'a>
    ensures { (parts : List (List ℕ)) → IsFoundIn parts found.entry → IsFoundIn (parts ++ part.now ∷ []) result }
{
    let Some(word) = part.strip_prefix(FRONT) else {
        return found;
    };
    match found {
        Found::Nothing => Found::Once(word),
        Found::Once(_) | Found::Often => Found::Often,
    }
}
