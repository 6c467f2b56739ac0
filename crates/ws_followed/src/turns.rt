//! The turns of a followed connection.

ghost use Rattle.std.specs.Prelude.{◌≡◌, ◌++◌, ◌∷◌, ◌-◌, [], List, IfOk, drop, length};
ghost use Rattle.ws_followed.specs.declared.segment.Segment.{Segment as SegmentValue};
ghost use Rattle.ws_followed.specs.Turns.{all_turns_with, bytes_from, is_node, made_turn, turns_behind};

use crate::segment::{Node, Segment};
use std::alloc::Global;
use ws_base::{NoMemory, Payload, Sequence};
use ws_scripts::Turn;

/// Whether two numbers are those of one end.
pub(crate) fn is_node(one: Node, other: Node) -> bool
    ensures { result ≡ is_node one other }
{
    match (one, other) {
        (Node::Zero, Node::Zero) | (Node::One, Node::One) => true,
        (Node::Zero, Node::One) | (Node::One, Node::Zero) => false,
    }
}

/// All bytes of an end, one after the other.
pub(crate) fn bytes_from(
    alloc: Global,
    node: Node,
    segments: &[Segment],
) -> Result<Payload, NoMemory>
    ensures { IfOk result (λ bytes. bytes ≡ bytes_from node segments.now) }
{
    let mut bytes = Vec::new(alloc);
    for segment in segments {
        if is_node(node, segment.node) {
            bytes.extend_from_slice(segment.bytes.as_slice())?;
        }
    }
    Ok(Payload::from_vec(bytes))
}

/// Turns of which the last goes on.
#[derive(Drop)]
pub(crate) struct OpenTurns {
    /// Those before the last.
    pub done: Sequence<Turn>,
    /// What the judged end was sent in the last.
    pub sent: Payload,
    /// What it sent in the last.
    pub got: Payload,
    /// How many bytes of the head that it was sent are still to come.
    pub to_end: usize,
    /// How many bytes of the head that it sent are still to come.
    pub from_end: usize,
}

/// The turns behind the heads, whose lengths these are, of the one that the judged end was sent and the one that it
/// sent.
pub(crate) fn turns_behind(
    alloc: Global,
    judged: Node,
    to_end: usize,
    from_end: usize,
    segments: &[Segment],
) -> Result<Sequence<Turn>, NoMemory>
    ensures { IfOk result (λ turns. turns ≡ turns_behind judged to_end from_end segments.now) }
{
    let mut turns = OpenTurns {
        done: Sequence::new(alloc),
        sent: Payload::new(alloc),
        got: Payload::new(alloc),
        to_end,
        from_end,
    };
    for segment in segments {
        turns = turns.with(alloc, judged, segment)?;
    }
    turns.all()
}

impl OpenTurns {
    /// The turns with one more segment.
    fn with(self, alloc: Global, judged: Node, segment: &Segment) -> Result<OpenTurns, NoMemory>
        ensures { IfOk result (λ longer. (more : List SegmentValue) →
            all_turns_with judged longer more ≡ all_turns_with judged self (segment.now ∷ more)) }
    {
        let bytes = segment.bytes.as_slice();
        if is_node(judged, segment.node) {
            return self.with_got(bytes);
        }
        if self.got.len() > 0 && bytes.len() > self.to_end {
            self.begun(alloc, bytes)
        } else {
            self.with_sent(bytes)
        }
    }

    /// The judged end sent more bytes.
    fn with_got(self, bytes: &[u8]) -> Result<OpenTurns, NoMemory>
        ensures { IfOk result (λ longer. longer ≡ record self {
          got = self.got ++ drop self.from_end bytes.now;
          from_end = self.from_end - length bytes.now;
        }) }
    {
        let OpenTurns {
            done,
            sent,
            got,
            to_end,
            from_end,
        } = self;
        let got = joined(got, without(bytes, from_end))?;
        let from_end = from_end.saturating_sub(bytes.len());
        Ok(OpenTurns {
            done,
            sent,
            got,
            to_end,
            from_end,
        })
    }

    /// It was sent more bytes.
    fn with_sent(self, bytes: &[u8]) -> Result<OpenTurns, NoMemory>
        ensures { IfOk result (λ longer. longer ≡ record self {
          sent = self.sent ++ drop self.to_end bytes.now;
          to_end = self.to_end - length bytes.now;
        }) }
    {
        let OpenTurns {
            done,
            sent,
            got,
            to_end,
            from_end,
        } = self;
        let sent = joined(sent, without(bytes, to_end))?;
        let to_end = to_end.saturating_sub(bytes.len());
        Ok(OpenTurns {
            done,
            sent,
            got,
            to_end,
            from_end,
        })
    }

    /// It was sent more bytes, with which a turn begins.
    fn begun(self, alloc: Global, bytes: &[u8]) -> Result<OpenTurns, NoMemory>
        ensures { IfOk result (λ longer. longer ≡ record {
          done = self.done ++ made_turn self.sent self.got ∷ [];
          sent = drop self.to_end bytes.now;
          got = [];
          to_end = self.to_end - length bytes.now;
          from_end = self.from_end;
        }) }
    {
        let OpenTurns {
            done,
            sent,
            got,
            to_end,
            from_end,
        } = self;
        let done = with_turn(done, Turn { sent, got })?;
        let sent = joined(Payload::new(alloc), without(bytes, to_end))?;
        let got = Payload::new(alloc);
        let to_end = to_end.saturating_sub(bytes.len());
        Ok(OpenTurns {
            done,
            sent,
            got,
            to_end,
            from_end,
        })
    }

    /// All of them.
    fn all(self) -> Result<Sequence<Turn>, NoMemory>
        ensures { IfOk result (λ turns. turns ≡ self.done ++ made_turn self.sent self.got ∷ []) }
    {
        let OpenTurns {
            done,
            sent,
            got,
            ..
        } = self;
        with_turn(done, Turn { sent, got })
    }
}

/// The turns with one more.
fn with_turn(turns: Sequence<Turn>, turn: Turn) -> Result<Sequence<Turn>, NoMemory>
    ensures { IfOk result (λ longer. longer ≡ turns ++ turn ∷ []) }
{
    let mut items = turns.into_vec();
    items.push(turn)?;
    Ok(Sequence::from_vec(items))
}

/// The bytes one after the other.
fn joined(front: Payload, back: &[u8]) -> Result<Payload, NoMemory>
    ensures { IfOk result (λ bytes. bytes ≡ front ++ back.now) }
{
    let mut bytes = front.into_vec();
    bytes.extend_from_slice(back)?;
    Ok(Payload::from_vec(bytes))
}

/// The bytes without the first so many.
fn without(bytes: &[u8], count: usize) -> &[u8]
    ensures { result.now ≡ drop count bytes.now }
{
    if count < bytes.len() {
        &bytes[count..]
    } else {
        &[]
    }
}
