//! Whether the places of a transcript can be told.

ghost use Rattle.std.specs.Prelude.{IsTrue, ◌↔◌};
ghost use Rattle.ws_lines.specs.TurnLines.{FitsPlaces};

use ws_scripts::AsTranscript;

/// Whether each place of both directions can be told by 64 bits, which no transcript in a real memory lacks.
pub fn fits_places<T: AsTranscript>(transcript: &T) -> bool
    ensures { IsTrue result ↔ FitsPlaces (T.transcript transcript.now).turns }
{
    let mut sent: u64 = 0;
    let mut got: u64 = 0;
    let mut walk = transcript.as_transcript().turns();
    for _number in 0..walk.len() {
        let turn = walk.take_first();
        let Some(more_sent) = sent.checked_add(turn.sent.len() as u64) else {
            return false;
        };
        let Some(more_got) = got.checked_add(turn.got.len() as u64) else {
            return false;
        };
        sent = more_sent;
        got = more_got;
    }
    true
}
