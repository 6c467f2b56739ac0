//! Transcripts in either form: as a list of turns, or with turns that take little room.

ghost use Rattle.std.specs.Prelude.{◌≡◌, IfOk};
ghost use Rattle.ws_scripts.specs.declared.transcript.Transcript.{Transcript};
ghost use Rattle.ws_scripts.specs.Pieces.{lent_turn};

use crate::kept_turns::KeptTurns;
use crate::transcript::{Ended, Transcript, Turn};
use crate::turn_walk::{TurnRef, TurnWalk};
use std::alloc::Global;
use std::marker::Model;
use ws_base::{NoMemory, Payload, Sequence};

/// All that went over a connection, whichever way it is kept.
pub trait AsTranscript {
    /// The transcript that it is.
    ghost transcript: { Self → Transcript };

    /// The transcript, lent.
    fn as_transcript(&self) -> TranscriptRef<'_>
        ensures { result ≡ transcript self.now };
}

impl AsTranscript for Transcript {
    ghost transcript = { λ transcript. transcript };

    fn as_transcript(&self) -> TranscriptRef<'_> {
        TranscriptRef {
            turns: TurnWalk::of_list(self.turns.as_slice()),
            ended: self.ended,
        }
    }
}

/// A transcript that is lent. Contracts see it as the transcript.
#[derive(Drop)]
pub struct TranscriptRef<'a> {
    turns: TurnWalk<'a>,
    ended: Ended,
}

impl<'a> Model for TranscriptRef<'a> {
    ghost use Rattle.ws_scripts.specs.declared.transcript.Transcript.{Transcript};

    ghost Value = { Transcript };

    ghost view = { λ lent. record { turns = lent.turns; ended = lent.ended } };
}

impl<'a> TranscriptRef<'a> {
    /// The turns, one after the other.
    pub fn turns(&self) -> TurnWalk<'a>
        ensures { result ≡ self.now.turns }
    {
        self.turns.again()
    }

    /// How the connection ended.
    pub fn ended(&self) -> Ended
        ensures { result ≡ self.now.ended }
    {
        self.ended
    }
}

/// All that went over a connection, in little room. Contracts see it as the transcript.
#[derive(Drop)]
pub struct KeptTranscript {
    turns: KeptTurns,
    ended: Ended,
}

impl Model for KeptTranscript {
    ghost use Rattle.ws_scripts.specs.declared.transcript.Transcript.{Transcript};

    ghost Value = { Transcript };

    ghost view = { λ kept. record { turns = kept.turns; ended = kept.ended } };
}

impl AsTranscript for KeptTranscript {
    ghost transcript = { λ transcript. transcript };

    fn as_transcript(&self) -> TranscriptRef<'_> {
        TranscriptRef {
            turns: self.turns.walk(),
            ended: self.ended,
        }
    }
}

impl KeptTranscript {
    /// These turns, and this end.
    pub(crate) fn new(turns: KeptTurns, ended: Ended) -> KeptTranscript
        ensures { result ≡ record { turns = turns; ended = ended } }
    {
        KeptTranscript { turns, ended }
    }

    /// The same with a list of its turns.
    pub(crate) fn to_list(&self, alloc: Global) -> Result<Transcript, NoMemory>
        ensures { IfOk result (λ transcript. transcript ≡ self.now) }
    {
        let mut turns = Vec::new(alloc);
        let mut walk = self.turns.walk();
        for number in 0..walk.len() {
            let turn = copied(alloc, walk.take_first())?;
            turns.push(turn)?;
        }
        Ok(Transcript {
            turns: Sequence::from_vec(turns),
            ended: self.ended,
        })
    }
}

/// A turn of its own with the same bytes.
fn copied(alloc: Global, turn: TurnRef<'_>) -> Result<Turn, NoMemory>
    ensures { IfOk result (λ copy. copy ≡ lent_turn turn.entry) }
{
    let mut sent = Vec::new(alloc);
    sent.extend_from_slice(turn.sent)?;
    let mut got = Vec::new(alloc);
    got.extend_from_slice(turn.got)?;
    Ok(Turn {
        sent: Payload::from_vec(sent),
        got: Payload::from_vec(got),
    })
}
