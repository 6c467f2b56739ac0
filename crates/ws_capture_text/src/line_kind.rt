//! Which line of a capture some words are, without the bytes that it tells.

ghost use Rattle.std.specs.Prelude.{◌↔◌, IsTrue};
ghost use Rattle.ws_base.specs.Finding.{Finds};
ghost use Rattle.ws_capture_text.specs.InnerKinds.{IsKeyLine, IsKindOf, IsPlainKindOf};

use crate::digits::spells_some;
use crate::mark::{Mark, cut_mark};
use ws_formats::read_key;

/// A line of a capture, without its bytes.
#[derive(Clone, Copy)]
pub(crate) enum LineKind {
    /// The first line, in format 1.
    FirstOf1,
    /// The first line, in format 2.
    FirstOf2,
    /// The key, or that none is known.
    Key,
    /// A turn begins.
    Begin,
    /// Bytes that were sent or got.
    Data(Mark),
    /// One of the ends ended the connection.
    End,
    /// The connection broke.
    Broken,
}

/// The kind of a line.
pub(crate) fn read_kind(line: &[u8]) -> Option<LineKind>
    ensures { Finds result (λ kind. IsKindOf kind line.now) }
{
    match cut_mark(line) {
        Some((mark, word)) => {
            if spells_some(word) {
                Some(LineKind::Data(mark))
            } else {
                None
            }
        }
        None => read_plain_kind(line),
    }
}

/// The kind of a line without bytes.
fn read_plain_kind(line: &[u8]) -> Option<LineKind>
    ensures { Finds result (λ kind. IsPlainKindOf kind line.now) }
{
    if line == b"turn".as_slice() {
        return Some(LineKind::Begin);
    }
    if line == b"end tester".as_slice() || line == b"end peer".as_slice() {
        return Some(LineKind::End);
    }
    if line == b"end broken".as_slice() {
        return Some(LineKind::Broken);
    }
    if line == b"wst-capture 1".as_slice() {
        return Some(LineKind::FirstOf1);
    }
    if line == b"wst-capture 2".as_slice() {
        return Some(LineKind::FirstOf2);
    }
    if is_key_line(line) {
        return Some(LineKind::Key);
    }
    None
}

/// Whether a line tells a key, or that none is known.
fn is_key_line(line: &[u8]) -> bool
    ensures { IsTrue result ↔ IsKeyLine line.now }
{
    if line == b"key -".as_slice() {
        return true;
    }
    match line {
        [b'k', b'e', b'y', b' ', word @ ..] => read_key(word).is_some(),
        _ => false,
    }
}
