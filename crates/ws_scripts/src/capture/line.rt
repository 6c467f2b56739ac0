//! The lines of captures: each as it is read, and as it is written.

ghost use Rattle.std.specs.Prelude.{◌≡◌, ◌⊎◌, ◌++◌, ◌∷◌, codes, Some};
ghost use Rattle.ws_formats.specs.Reading.{Reads};
ghost use Rattle.ws_base.specs.Finding.{Finds};
ghost use Rattle.ws_formats.specs.Words.{AreFourBytes, hex};
ghost use Rattle.ws_scripts.specs.CaptureLines.{AreLineBytes, HasLineBytes, IsLineOf, bytes_of, line_words, mark_of};
ghost use Rattle.ws_scripts.specs.InnerCapturing.{IsWithoutBytes, capture_line_now, line_text};

use crate::transcript::Ended;
use std::alloc::Global;
use std::fmt;
use ws_base::{LineFault, Payload};
use ws_formats::{HexDigits, read_hex, read_key};

/// The formats of captures.
#[derive(Clone, Copy)]
pub(crate) enum Format {
    One,
    /// The one that keeps all.
    Two,
}

/// A line with bytes.
#[derive(Drop)]
pub(crate) enum Line<B> {
    /// These bytes were sent.
    Sent(B),
    /// These bytes were got.
    Got(B),
}

/// A line of a capture.
#[derive(Drop)]
pub(crate) enum CaptureLine<B> {
    /// The first line, which tells the format.
    First(Format),
    /// The key under which the tester masked its frames, where it is known: the second line, in format 2.
    Key(Option<[u8; 4]>),
    /// A turn begins, in format 2.
    Begin,
    Data(Line<B>),
    /// The connection ended so: the last line.
    End(Ended),
}

/// The line that words tell.
pub(crate) fn read_line(alloc: Global, words: &[u8]) -> Result<CaptureLine<Payload>, LineFault>
    ensures { Reads result (λ line. IsLineOf line words.now) }
{
    if let Some(line) = read_plain(words) {
        return Ok(line);
    }
    if let Some(key) = read_key_line(words) {
        return Ok(CaptureLine::Key(Some(key)));
    }
    match read_data(alloc, words) {
        Ok(line) => Ok(CaptureLine::Data(line)),
        Err(fault) => Err(fault),
    }
}

/// A line with neither bytes nor a key.
fn read_plain(words: &[u8]) -> Option<CaptureLine<Payload>>
    ensures { Finds result (λ line. IsWithoutBytes line × (words.now ≡ line_words line)) }
{
    if words == b"turn".as_slice() {
        return Some(CaptureLine::Begin);
    }
    if words == b"end tester".as_slice() {
        return Some(CaptureLine::End(Ended::Tester));
    }
    if words == b"end peer".as_slice() {
        return Some(CaptureLine::End(Ended::Peer));
    }
    if words == b"end broken".as_slice() {
        return Some(CaptureLine::End(Ended::Broken));
    }
    if words == b"key -".as_slice() {
        return Some(CaptureLine::Key(None));
    }
    if words == b"wst-capture 1".as_slice() {
        return Some(CaptureLine::First(Format::One));
    }
    if words == b"wst-capture 2".as_slice() {
        return Some(CaptureLine::First(Format::Two));
    }
    None
}

/// The key that a line tells.
fn read_key_line(words: &[u8]) -> Option<[u8; 4]>
    ensures { Finds result (λ key. AreFourBytes key × (words.now ≡ codes "key " ++ hex key)) }
{
    let [b'k', b'e', b'y', b' ', word @ ..] = words else {
        return None;
    };
    let key = read_key(word)?;
    Some(key)
}

/// A line with bytes.
fn read_data(alloc: Global, words: &[u8]) -> Result<Line<Payload>, LineFault>
    ensures { Reads result (λ line. HasLineBytes line × (words.now ≡ mark_of line ∷ 32 ∷ hex (bytes_of line))) }
{
    let [mark, space, word @ ..] = words else {
        return Err(LineFault::Damaged);
    };
    if *space != b' ' || (*mark != b'>' && *mark != b'<') {
        return Err(LineFault::Damaged);
    }
    match read_bytes(alloc, word) {
        Ok(bytes) => Ok(marked(*mark, bytes)),
        Err(fault) => Err(fault),
    }
}

/// The line with this mark.
fn marked(mark: u8, bytes: Payload) -> Line<Payload>
    requires { (mark ≡ 62) ⊎ (mark ≡ 60) }
    ensures mark { mark_of result ≡ mark }
    ensures bytes { bytes_of result ≡ bytes }
{
    if mark == b'>' {
        Line::Sent(bytes)
    } else {
        Line::Got(bytes)
    }
}

/// The bytes of a line, at least one.
fn read_bytes(alloc: Global, word: &[u8]) -> Result<Payload, LineFault>
    ensures { Reads result (λ bytes. AreLineBytes bytes word.now) }
{
    match read_hex(alloc, word) {
        Ok(bytes) => {
            if bytes.len() == 0 {
                return Err(LineFault::Damaged);
            }
            Ok(bytes)
        }
        Err(fault) => Err(fault),
    }
}

/// The words of the line, with its LF.
impl fmt::Display for CaptureLine<&[u8]> {
    ghost output = { λ line. Some (line_text (capture_line_now line)) };

    fn fmt<W: fmt::Write>(&self, f: &mut fmt::Formatter<W>) -> fmt::Result {
        match self {
            CaptureLine::First(Format::One) => writeln!(f, "wst-capture 1"),
            CaptureLine::First(Format::Two) => writeln!(f, "wst-capture 2"),
            CaptureLine::Key(None) => writeln!(f, "key -"),
            CaptureLine::Key(Some(key)) => writeln!(f, "key {}", HexDigits(key.as_slice())),
            CaptureLine::Begin => writeln!(f, "turn"),
            CaptureLine::Data(Line::Sent(bytes)) => writeln!(f, "> {}", HexDigits(bytes)),
            CaptureLine::Data(Line::Got(bytes)) => writeln!(f, "< {}", HexDigits(bytes)),
            CaptureLine::End(Ended::Tester) => writeln!(f, "end tester"),
            CaptureLine::End(Ended::Peer) => writeln!(f, "end peer"),
            CaptureLine::End(Ended::Broken) => writeln!(f, "end broken"),
        }
    }
}
