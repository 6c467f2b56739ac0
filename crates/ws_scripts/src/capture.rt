//! Captures: a transcript as lines of text, in format 1, or in format 2 with its masking key.

mod feeding;
mod format1;
mod format2;
mod line;
mod reading;
mod writing;

ghost use Rattle.std.specs.Prelude.{◌≡◌, IfOk};

use crate::any_transcript::KeptTranscript;
use crate::transcript::Transcript;
pub use feeding::CaptureFeed;
pub use reading::{read_capture, read_capture2};
use std::alloc::Global;
use std::marker::Model;
use thiserror::Error;
pub use writing::{write_capture, write_capture2};
use ws_base::NoMemory;

/// All that went over a connection, with the masking key of the tester.
#[derive(Drop)]
pub struct Capture {
    /// The key under which the tester masked its frames, where it is known.
    pub key: Option<[u8; 4]>,
    pub transcript: Transcript,
}

/// A capture that takes little room. Contracts see it as the capture.
#[derive(Drop)]
pub struct KeptCapture {
    key: Option<[u8; 4]>,
    transcript: KeptTranscript,
}

impl Model for KeptCapture {
    ghost use Rattle.ws_scripts.specs.declared.capture.Capture.{Capture};

    ghost Value = { Capture };

    ghost view = { λ kept. record { key = kept.key; transcript = kept.transcript } };
}

impl KeptCapture {
    /// This key, where it is known, and this transcript.
    pub(crate) fn new(key: Option<[u8; 4]>, transcript: KeptTranscript) -> KeptCapture
        ensures { result ≡ record { key = key; transcript = transcript } }
    {
        KeptCapture { key, transcript }
    }

    /// The key under which the tester masked its frames, where it is known.
    pub fn key(&self) -> Option<[u8; 4]>
        ensures { result ≡ self.now.key }
    {
        self.key
    }

    /// What went over the connection.
    pub fn transcript(&self) -> &KeptTranscript
        ensures { result.now ≡ self.now.transcript }
    {
        &self.transcript
    }

    /// The same with a list of its turns.
    pub(crate) fn to_list(&self, alloc: Global) -> Result<Capture, NoMemory>
        ensures { IfOk result (λ capture. capture ≡ self.now) }
    {
        let transcript = self.transcript.to_list(alloc)?;
        Ok(Capture {
            key: self.key,
            transcript,
        })
    }
}

/// Why a text gives no transcript, or no capture.
#[derive(Debug, Drop, Error)]
pub enum CaptureFault {
    /// The lines up to this one, counted from 1, begin no capture, and those before it do. Where only the last line is
    /// missing it is the one after the last.
    #[error("line {0}: not a capture")]
    Damaged(u64),
    /// Memory ran out.
    #[error("no memory")]
    NoMemory,
}
