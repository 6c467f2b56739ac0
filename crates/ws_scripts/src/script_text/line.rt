//! The lines of scripts, as they are read.

ghost use Rattle.std.specs.Prelude.{◌≡◌, ◌↔◌, ◌<◌, ◌++◌, IsTrue, codes};
ghost use Rattle.ws_base.specs.Finding.{Finds};
ghost use Rattle.ws_formats.specs.Reading.{Reads};
ghost use Rattle.ws_formats.specs.Words.{IsNumberWord};
ghost use Rattle.ws_scripts.specs.ScriptLines.{IsBlankLine, IsChopLine, IsFrameStepLine, IsScriptLine, IsStepLine};

use crate::script::{Chop, Step};
use crate::script_text::data::read_data;
use crate::script_text::frame_line::{read_frame, read_frame_name};
use crate::script_text::words::{after_name, cut_word};
use std::alloc::Global;
use ws_base::LineFault;
use ws_formats::read_u32;

/// A line of a script.
#[derive(Drop)]
pub(crate) enum ScriptLine {
    /// An empty line, or a comment.
    Blank,
    /// How the bytes of a turn are cut.
    Cut(Chop),
    /// One thing that a tester does.
    Does(Step),
}

/// The line that words tell.
pub(crate) fn read_line(alloc: Global, words: &[u8]) -> Result<ScriptLine, LineFault>
    ensures { Reads result (λ line. IsScriptLine line words.now) }
{
    if is_blank(words) {
        return Ok(ScriptLine::Blank);
    }
    if let Some(chop) = read_chop(words) {
        return Ok(ScriptLine::Cut(chop));
    }
    match read_step(alloc, words) {
        Ok(step) => Ok(ScriptLine::Does(step)),
        Err(fault) => Err(fault),
    }
}

/// Whether the line is empty, or a comment.
fn is_blank(words: &[u8]) -> bool
    ensures { IsTrue result ↔ IsBlankLine words.now }
{
    match words {
        [] | [b'#', ..] => true,
        _ => false,
    }
}

/// How the bytes of a turn are cut, where the line tells that.
fn read_chop(words: &[u8]) -> Option<Chop>
    ensures { Finds result (λ chop. IsChopLine chop words.now) }
{
    if words == b"chop whole".as_slice() {
        return Some(Chop::Whole);
    }
    if words == b"chop frames".as_slice() {
        return Some(Chop::PerFrame);
    }
    let word = after_name(b"chop octets ", words)?;
    let n = read_u32(word)?;
    if n == 0 {
        return None;
    }
    Some(Chop::Octets(n))
}

/// The step that a line tells.
fn read_step(alloc: Global, words: &[u8]) -> Result<Step, LineFault>
    ensures { Reads result (λ step. IsStepLine step words.now) }
{
    if words == b"wait".as_slice() {
        return Ok(Step::Wait);
    }
    match after_name(b"raw ", words) {
        Some(word) => {
            let bytes = read_data(alloc, word)?;
            Ok(Step::Raw(bytes))
        }
        None => {
            let step = read_frame_line(alloc, words)?;
            Ok(step)
        }
    }
}

/// The step that the line of a frame tells.
fn read_frame_line(alloc: Global, words: &[u8]) -> Result<Step, LineFault>
    ensures { Reads result (λ step. IsFrameStepLine step words.now) }
{
    let (word, rest) = cut_word(words);
    let Some(name) = read_frame_name(word) else {
        return Err(LineFault::Damaged);
    };
    let step = read_frame(alloc, name, rest)?;
    Ok(step)
}
