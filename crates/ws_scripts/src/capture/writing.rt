//! Writing a capture, in either format.

ghost use Rattle.std.specs.Prelude.{◌≡◌, ◌++◌, IfOk, Some};
ghost use Rattle.ws_scripts.specs.declared.capture.line.Line.TheVariants.{Sent, Got};
ghost use Rattle.ws_scripts.specs.Captures.{written_capture};
ghost use Rattle.ws_scripts.specs.Captures2.{written_capture2};
ghost use Rattle.ws_scripts.specs.InnerCapturing.{capture_text, head_text, text_if_any, turn_text, written_end};

use crate::capture::line::{CaptureLine, Format, Line};
use crate::capture::{Capture, format1};
use crate::transcript::{Ended, Transcript, Turn};
use std::alloc::Global;
use std::fmt;
use ws_base::NoMemory;

/// The lines of a transcript, in format 1. They don't part a turn in which nothing was got from the next one, nor a
/// connection that broke from one that the peer ended.
pub fn write_capture(alloc: Global, transcript: &Transcript) -> Result<Vec<u8>, NoMemory>
    ensures { IfOk result (λ text. text.items ≡ written_capture transcript.now) }
{
    let format = Format::One;
    let key = None;
    let text = format!(in alloc;
        "{}",
        CaptureText {
            format,
            key,
            transcript
        }
    )?;
    Ok(text.into_bytes())
}

/// The lines of a capture, in format 2, which keep all of it.
pub fn write_capture2(alloc: Global, capture: &Capture) -> Result<Vec<u8>, NoMemory>
    ensures { IfOk result (λ text. text.items ≡ written_capture2 capture.now) }
{
    let format = Format::Two;
    let key = capture.key;
    let transcript = &capture.transcript;
    let text = format!(in alloc;
        "{}",
        CaptureText {
            format,
            key,
            transcript
        }
    )?;
    Ok(text.into_bytes())
}

/// A whole capture. Format 1 has no key.
#[derive(Drop)]
struct CaptureText<'a> {
    format: Format,
    key: Option<[u8; 4]>,
    transcript: &'a Transcript,
}

impl fmt::Display for CaptureText<'_> {
    ghost output = { λ capture. Some (capture_text capture.format capture.key capture.transcript.now) };

    fn fmt<W: fmt::Write>(&self, f: &mut fmt::Formatter<W>) -> fmt::Result {
        write!(f, "{}", HeadText(self.format, self.key))?;
        for turn in self.transcript.turns.as_slice() {
            write!(f, "{}", TurnText(self.format, turn))?;
        }
        let ended = written_end(self.format, self.transcript.ended);
        write!(f, "{}", CaptureLine::<&[u8]>::End(ended))
    }
}

/// The lines before those of the turns.
#[derive(Drop)]
struct HeadText(Format, Option<[u8; 4]>);

impl fmt::Display for HeadText {
    ghost output = { λ head. Some (head_text head.0 head.1) };

    fn fmt<W: fmt::Write>(&self, f: &mut fmt::Formatter<W>) -> fmt::Result {
        write!(f, "{}", CaptureLine::<&[u8]>::First(self.0))?;
        match self.0 {
            Format::One => Ok(()),
            Format::Two => write!(f, "{}", CaptureLine::<&[u8]>::Key(self.1)),
        }
    }
}

/// The lines of a turn.
#[derive(Drop)]
struct TurnText<'a>(Format, &'a Turn);

impl fmt::Display for TurnText<'_> {
    ghost output = { λ lines. Some (turn_text lines.0 lines.1.now) };

    fn fmt<W: fmt::Write>(&self, f: &mut fmt::Formatter<W>) -> fmt::Result {
        match self.0 {
            Format::One => {}
            Format::Two => write!(f, "{}", CaptureLine::<&[u8]>::Begin)?,
        }
        write!(
            f,
            "{}{}",
            SentText(self.1.sent.as_slice()),
            GotText(self.1.got.as_slice())
        )
    }
}

/// The line of what was sent in a turn, if there is anything.
#[derive(Drop)]
struct SentText<'a>(&'a [u8]);

impl fmt::Display for SentText<'_> {
    ghost output = { λ line. Some (text_if_any Sent line.0.now) };

    fn fmt<W: fmt::Write>(&self, f: &mut fmt::Formatter<W>) -> fmt::Result {
        if self.0.is_empty() {
            return Ok(());
        }
        write!(f, "{}", CaptureLine::Data(Line::Sent(self.0)))
    }
}

/// The line of what was got in a turn, if there is anything.
#[derive(Drop)]
struct GotText<'a>(&'a [u8]);

impl fmt::Display for GotText<'_> {
    ghost output = { λ line. Some (text_if_any Got line.0.now) };

    fn fmt<W: fmt::Write>(&self, f: &mut fmt::Formatter<W>) -> fmt::Result {
        if self.0.is_empty() {
            return Ok(());
        }
        write!(f, "{}", CaptureLine::Data(Line::Got(self.0)))
    }
}

/// How the end is written.
fn written_end(format: Format, ended: Ended) -> Ended
    ensures { result ≡ written_end format ended }
{
    match format {
        Format::One => format1::end_as_read(ended),
        Format::Two => ended,
    }
}
