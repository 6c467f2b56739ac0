//! What only captures in format 1 have: turns that no line begins, and no end that says that the connection broke.

ghost use Rattle.std.specs.Prelude.{◌≡◌, ◌++◌, IfErr, IfOk, None, Some};
ghost use Rattle.ws_base.specs.declared.text_fault.LineFault.TheVariants.{NoMemory};
ghost use Rattle.ws_scripts.specs.declared.capture.line.Format.TheVariants.{One};
ghost use Rattle.ws_scripts.specs.Captures.{end_as_read};
ghost use Rattle.ws_scripts.specs.InnerCapturing.{Adds, end_in, line_in_1};

use crate::capture::line::Line;
use crate::capture::reading::{OpenTurns, with_turn};
use crate::transcript::{Ended, Turn};
use std::alloc::Global;
use ws_base::{LineFault, Payload};

/// The turns with one more line of bytes: a line of what was sent after something was got begins a turn.
pub(crate) fn with_data(
    alloc: Global,
    turns: OpenTurns,
    line: Line<Payload>,
) -> Result<OpenTurns, LineFault>
    ensures { Adds (Some (line_in_1 turns.done turns.last line)) result }
{
    let OpenTurns { done, last } = turns;
    let Some(Turn { sent, got }) = last else {
        return Ok(match line {
            Line::Sent(bytes) => OpenTurns::new(done, bytes, Payload::new(alloc)),
            Line::Got(bytes) => OpenTurns::new(done, Payload::new(alloc), bytes),
        });
    };
    match line {
        Line::Sent(bytes) => {
            if got.len() == 0 {
                let sent = joined(sent, bytes)?;
                return Ok(OpenTurns::new(done, sent, got));
            }
            let done = with_turn(done, Turn { sent, got })?;
            Ok(OpenTurns::new(done, bytes, Payload::new(alloc)))
        }
        Line::Got(bytes) => {
            let got = joined(got, bytes)?;
            Ok(OpenTurns::new(done, sent, got))
        }
    }
}

/// The bytes one after the other.
fn joined(front: Payload, back: Payload) -> Result<Payload, LineFault>
    ensures joined { IfOk result (λ bytes. bytes ≡ front ++ back) }
    ensures memory { IfErr result (λ fault. fault ≡ NoMemory) }
{
    let mut bytes = front.into_vec();
    match bytes.extend_from_slice(back.as_slice()) {
        Ok(()) => Ok(Payload::from_vec(bytes)),
        Err(_) => Err(LineFault::NoMemory),
    }
}

/// How the connection ended, where it did not break.
pub(crate) fn end(ended: Ended) -> Option<Ended>
    ensures { result ≡ end_in One ended }
{
    match ended {
        Ended::Tester | Ended::Peer => Some(ended),
        Ended::Broken => None,
    }
}

/// How the end is written: a connection that broke as one that the peer ended.
pub(crate) fn end_as_read(ended: Ended) -> Ended
    ensures { result ≡ end_as_read ended }
{
    match ended {
        Ended::Tester => Ended::Tester,
        Ended::Peer | Ended::Broken => Ended::Peer,
    }
}
