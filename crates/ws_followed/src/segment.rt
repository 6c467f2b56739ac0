//! The segments of a followed stream: a line for each.

ghost use Rattle.std.specs.Prelude.{◌≡◌};
ghost use Rattle.ws_formats.specs.Reading.{Reads};
ghost use Rattle.ws_followed.specs.Segments.{AreSegmentBytes, IsSegmentLine, parted_line};

use std::alloc::Global;
use ws_base::{LineFault, Payload};
use ws_formats::read_hex;

/// One of the two ends of a connection, by the number that `tshark` gives it.
#[derive(Clone, Copy)]
pub enum Node {
    Zero,
    One,
}

/// Bytes that came from an end in one piece.
#[derive(Drop)]
pub struct Segment {
    /// The end that sent them.
    pub node: Node,
    pub bytes: Payload,
}

/// The segment that a line tells: that of node 1 is behind a tab.
pub(crate) fn read_segment(alloc: Global, line: &[u8]) -> Result<Segment, LineFault>
    ensures { Reads result (λ segment. IsSegmentLine segment line.now) }
{
    let (node, word) = parted(line);
    match read_bytes(alloc, word) {
        Ok(bytes) => Ok(Segment { node, bytes }),
        Err(fault) => Err(fault),
    }
}

/// The end whose segment a line tells, and the word of its bytes.
fn parted(line: &[u8]) -> (Node, &[u8])
    ensures { parted_line line.now ≡ (result.0, result.1.now) }
{
    match line {
        [b'\t', word @ ..] => (Node::One, word),
        _ => (Node::Zero, line),
    }
}

/// The bytes that a word spells, one at least.
fn read_bytes(alloc: Global, word: &[u8]) -> Result<Payload, LineFault>
    ensures { Reads result (λ bytes. AreSegmentBytes bytes word.now) }
{
    match read_hex(alloc, word) {
        Ok(bytes) => {
            if bytes.len() == 0 {
                return Err(LineFault::Damaged);
            }
            Ok(bytes)
        }
        Err(fault) => Err(fault),
    }
}
