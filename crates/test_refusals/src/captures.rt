//! Captures: read, judged, and written again.

use crate::tally::Tally;
use std::alloc::Global;
use ws_base::NoMemory;
use ws_suite::{
    CaptureFault, Transcript, Verdict, judge, read_capture, read_capture2, write_capture,
};

/// A capture, and the verdict on it.
pub struct Capture {
    pub text: &'static str,
    pub verdict: &'static str,
}

/// An echo.
pub const ECHO: Capture = Capture {
    text: "\
wst-capture 1
> 81810000000061
< 810161
> 88820000000003e8
< 880203e8
end peer
",
    verdict: "PASS",
};

/// A message that comes before what it answers.
pub const EARLY: Capture = Capture {
    text: "\
wst-capture 1
< 810161
> 8181000000006188820000000003e8
< 880203e8
end peer
",
    verdict: "FAIL Early",
};

/// Case 5.19 over an echo.
pub const FRAGMENTS: Capture = Capture {
    text: "\
wst-capture 1
> 018900000000667261676d656e7431008900000000667261676d656e743289860000000070696e672031
< 8a0670696e672031
> 008900000000667261676d656e7433008900000000667261676d656e743489860000000070696e672032808900000000667261676d656e7435
< 8a0670696e672032812d667261676d656e7431667261676d656e7432667261676d656e7433667261676d656e7434667261676d656e7435
> 88820000000003e8
< 880203e8
end peer
",
    verdict: "PASS",
};

/// Reads a capture, also as one in either format, judges it, and writes it again.
pub fn play(alloc: Global, capture: &Capture, tally: &mut Tally) -> Result<(), NoMemory> {
    match read_again(alloc, capture.text.as_bytes(), tally) {
        Ok(transcript) => {
            read_either(alloc, capture.text.as_bytes(), &transcript, tally)?;
            let verdict = judge_again(alloc, &transcript, tally)?;
            let words = format!(in alloc; "{verdict}")?;
            tally.compare(words.as_str() == capture.verdict);
            let text = write_again(alloc, &transcript, tally)?;
            tally.compare(text.as_slice() == capture.text.as_bytes());
        }
        Err(CaptureFault::NoMemory) => return Err(NoMemory),
        Err(CaptureFault::Damaged(_)) => tally.compare(false),
    }
    Ok(())
}

/// One reading, made again where memory runs out.
fn read_again(alloc: Global, text: &[u8], tally: &mut Tally) -> Result<Transcript, CaptureFault> {
    tally.call();
    match read(alloc, text) {
        Err(CaptureFault::NoMemory) => {
            tally.refuse("read_capture");
            read(alloc, text)
        }
        answer => answer,
    }
}

// Each call by a function that says nothing of it: what is proved of the two calls is small then.
fn read(alloc: Global, text: &[u8]) -> Result<Transcript, CaptureFault> {
    read_capture(alloc, text)
}

/// Reads a capture as one in either format: without a key, and with this transcript.
fn read_either(
    alloc: Global,
    text: &[u8],
    transcript: &Transcript,
    tally: &mut Tally,
) -> Result<(), NoMemory> {
    match read_either_again(alloc, text, tally) {
        Ok(capture) => tally.compare(capture.key.is_none() && capture.transcript == *transcript),
        Err(CaptureFault::NoMemory) => return Err(NoMemory),
        Err(CaptureFault::Damaged(_)) => tally.compare(false),
    }
    Ok(())
}

/// One such reading, made again where memory runs out.
fn read_either_again(
    alloc: Global,
    text: &[u8],
    tally: &mut Tally,
) -> Result<ws_suite::Capture, CaptureFault> {
    tally.call();
    match read2(alloc, text) {
        Err(CaptureFault::NoMemory) => {
            tally.refuse("read_capture2");
            read2(alloc, text)
        }
        answer => answer,
    }
}

fn read2(alloc: Global, text: &[u8]) -> Result<ws_suite::Capture, CaptureFault> {
    read_capture2(alloc, text)
}

/// One verdict, asked for again where memory runs out.
pub fn judge_again(
    alloc: Global,
    transcript: &Transcript,
    tally: &mut Tally,
) -> Result<Verdict, NoMemory> {
    tally.call();
    match verdict_on(alloc, transcript) {
        Ok(verdict) => Ok(verdict),
        Err(NoMemory) => {
            tally.refuse("judge");
            verdict_on(alloc, transcript)
        }
    }
}

fn verdict_on(alloc: Global, transcript: &Transcript) -> Result<Verdict, NoMemory> {
    judge(alloc, transcript)
}

/// One writing, made again where memory runs out.
fn write_again(
    alloc: Global,
    transcript: &Transcript,
    tally: &mut Tally,
) -> Result<Vec<u8>, NoMemory> {
    tally.call();
    match write(alloc, transcript) {
        Ok(text) => Ok(text),
        Err(NoMemory) => {
            tally.refuse("write_capture");
            write(alloc, transcript)
        }
    }
}

fn write(alloc: Global, transcript: &Transcript) -> Result<Vec<u8>, NoMemory> {
    write_capture(alloc, transcript)
}
