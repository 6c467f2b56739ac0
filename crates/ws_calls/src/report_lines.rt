//! The lines that tell what came of the calls of one endpoint, each put straight at the end of those before it.

ghost use Rattle.std.specs.Prelude.{◌≡◌, ◌+◌, ◌^◌, ◌<◌, [], ◌++◌, OnOk, string_bytes};
ghost use Rattle.std.specs.List.{AllByRecursion};
ghost use Rattle.ws_formats.specs.Words.{hex_word};
ghost use Rattle.ws_session.specs.declared.event.PlacedEvent.{PlacedEvent};
ghost use Rattle.ws_session.specs.declared.event.Event.TheVariants as event;
ghost use Rattle.ws_calls.specs.declared.report.CallAnswer.TheVariants.{Ended, Refused, Sent, Taken};
ghost use Rattle.ws_calls.specs.CallLines.{answer_lines, event_line, event_words, held_line, last_lines};
ghost use Rattle.ws_calls.specs.CallLines.{message_words};
ghost use Rattle.ws_calls.specs.InnerSteps.{told_behind};

use std::alloc::Global;
use ws_base::NoMemory;
use ws_line_words::{push_hex, push_kind, push_number};
use ws_session::{Event, Message, PlacedEvent, Reason, SendFault, Status};
use ws_text::Close;

/// Tells that a frame was sent, which put these bytes. Each line ends with LF.
pub(crate) fn tell_sent(put: &[u8], lines: &mut String) -> Result<(), NoMemory>
    ensures { OnOk result (string_bytes lines.new ≡ string_bytes lines.old ++ answer_lines (Sent put.now)) }
{
    lines.push_str("sent ")?;
    push_hex(lines, put)?;
    lines.push_str("\n")?;
    Ok(())
}

/// Tells that a frame was refused, and why.
pub(crate) fn tell_refused(
    alloc: Global,
    fault: SendFault,
    lines: &mut String,
) -> Result<(), NoMemory>
    ensures { OnOk result (string_bytes lines.new ≡ string_bytes lines.old ++ answer_lines (Refused fault)) }
{
    let text = format!(in alloc; "refused {fault}\n")?;
    lines.push_str(text.as_str())?;
    Ok(())
}

/// Tells that a piece of so many bytes was taken, whose events were told before, and which put these bytes.
pub(crate) fn tell_taken(len: u64, put: &[u8], lines: &mut String) -> Result<(), NoMemory>
    ensures { OnOk result (string_bytes lines.new ≡ string_bytes lines.old ++ answer_lines (Taken [] len put.now)) }
{
    // A script that comes byte by byte has this line for most of them.
    if len == 1 && put.is_empty() {
        lines.push_str("taken 1 put -\n")?;
        return Ok(());
    }
    lines.push_str("taken ")?;
    push_number(lines, len)?;
    lines.push_str(" put ")?;
    push_hex(lines, put)?;
    lines.push_str("\n")?;
    Ok(())
}

/// Tells that the stream has ended.
pub(crate) fn tell_ended(lines: &mut String) -> Result<(), NoMemory>
    ensures { OnOk result (string_bytes lines.new ≡ string_bytes lines.old ++ answer_lines Ended) }
{
    lines.push_str("ended\n")?;
    Ok(())
}

/// Tells the events of a piece, behind so many bytes.
pub(crate) fn tell_events(
    alloc: Global,
    start: u64,
    events: &[PlacedEvent],
    lines: &mut String,
) -> Result<(), NoMemory>
    requires { AllByRecursion (λ (x : PlacedEvent). start + x.end < 2 ^ 64) events.now }
    ensures { OnOk result (string_bytes lines.new ≡ string_bytes lines.old ++ told_behind start events.now) }
{
    for placed in events {
        tell_event(alloc, start + placed.end as u64, &placed.event, lines)?;
    }
    Ok(())
}

/// Tells an event behind its place.
fn tell_event(alloc: Global, place: u64, event: &Event, lines: &mut String) -> Result<(), NoMemory>
    ensures { OnOk result (string_bytes lines.new
        ≡ string_bytes lines.old ++ event_line (record { place = place; event = event.now })) }
{
    push_number(lines, place)?;
    lines.push_str(" ")?;
    push_event(alloc, event, lines)?;
    lines.push_str("\n")?;
    Ok(())
}

/// Puts what an event is, in words.
fn push_event(alloc: Global, event: &Event, lines: &mut String) -> Result<(), NoMemory>
    ensures { OnOk result (string_bytes lines.new ≡ string_bytes lines.old ++ event_words event.now) }
{
    match event {
        Event::Part => lines.push_str("part")?,
        Event::Message(message) => push_message(message, lines)?,
        Event::Ping(payload) => push_named("ping ", payload.as_slice(), lines)?,
        Event::Pong(payload) => push_named("pong ", payload.as_slice(), lines)?,
        Event::Close(close) => push_close(close, lines)?,
        Event::Failed(reason) => push_failed(alloc, *reason, lines)?,
    }
    Ok(())
}

/// Puts a message: its kind and its payload.
fn push_message(message: &Message, lines: &mut String) -> Result<(), NoMemory>
    ensures { OnOk result (string_bytes lines.new ≡ string_bytes lines.old ++ message_words message.now) }
{
    push_kind(lines, message.kind)?;
    push_named(" ", message.payload.as_slice(), lines)?;
    Ok(())
}

/// Puts a name, and behind it the bytes of a payload.
fn push_named(name: &str, payload: &[u8], lines: &mut String) -> Result<(), NoMemory>
    ensures { OnOk result (string_bytes lines.new ≡ string_bytes lines.old ++ (name.now ++ hex_word payload.now)) }
{
    lines.push_str(name)?;
    push_hex(lines, payload)?;
    Ok(())
}

/// Puts what a close frame says, or that it is empty.
fn push_close(close: &Option<Close>, lines: &mut String) -> Result<(), NoMemory>
    ensures { OnOk result (string_bytes lines.new ≡ string_bytes lines.old ++ event_words (event.Close close.now)) }
{
    lines.push_str("close ")?;
    match close {
        None => lines.push_str("none")?,
        Some(close) => {
            push_number(lines, close.code() as u64)?;
            push_named(" ", close.reason().as_bytes(), lines)?;
        }
    }
    Ok(())
}

/// Puts that the bytes broke a rule, and which.
fn push_failed(alloc: Global, reason: Reason, lines: &mut String) -> Result<(), NoMemory>
    ensures { OnOk result (string_bytes lines.new ≡ string_bytes lines.old ++ event_words (event.Failed reason)) }
{
    let text = format!(in alloc; "failed {reason}")?;
    lines.push_str(text.as_str())?;
    Ok(())
}

/// Tells the bytes kept, where that is told, and the status.
pub(crate) fn tell_last(
    alloc: Global,
    held: Option<u64>,
    status: Status,
    lines: &mut String,
) -> Result<(), NoMemory>
    ensures { OnOk result (string_bytes lines.new ≡ string_bytes lines.old ++ last_lines held status) }
{
    tell_held(held, lines)?;
    let text = format!(in alloc; "status {status}\n")?;
    lines.push_str(text.as_str())?;
    Ok(())
}

/// Tells the bytes kept, where that is told.
fn tell_held(held: Option<u64>, lines: &mut String) -> Result<(), NoMemory>
    ensures { OnOk result (string_bytes lines.new ≡ string_bytes lines.old ++ held_line held) }
{
    if let Some(held) = held {
        lines.push_str("held ")?;
        push_number(lines, held)?;
        lines.push_str("\n")?;
    }
    Ok(())
}
