//! Whether the frames of a tapped connection are told: they wait for the status that its server answers (RFC 6455
//! section 4.1).

ghost use Rattle.std.specs.Prelude.{◌≡◌, false};
ghost use Rattle.ws_frame.specs.Devices.{watched};
ghost use Rattle.ws_frame.specs.Watching.{has_failed};
ghost use Rattle.ws_tap.specs.Telling.{HearsAnswer, IsAnswerOfStatus};

use crate::kept_lines::KeptLines;
use std::io::Write;
use ws_frame::{Watched, WriteFault, write_whole};

/// The status of a response that switches to frames.
const SWITCHING_PROTOCOLS: u16 = 101;

/// What the head of an end answers.
#[derive(Clone, Copy)]
pub(crate) enum Answer {
    /// Nothing: it is a request.
    NotYet,
    /// The server switches: frames follow on both sides.
    Switches,
    /// It does not.
    Refuses,
}

/// What the head with this status answers; a request has none.
pub(crate) fn answer_of(status: Option<u16>) -> Answer
    ensures { IsAnswerOfStatus status result }
{
    match status {
        None => Answer::NotYet,
        Some(SWITCHING_PROTOCOLS) => Answer::Switches,
        Some(_) => Answer::Refuses,
    }
}

/// Whether the frames of both ends are told.
#[derive(Drop)]
pub(crate) enum Release {
    /// The server has not answered: the lines of the client's frames wait. The first 65536 bytes of them are kept, and
    /// a line that doesn't fit whole is left out, and so are those that come after it before the answer.
    Awaited(KeptLines),
    /// They are, since the server switches.
    Told,
    /// None is, since it does not.
    Never,
}

impl Release {
    /// An answer is heard, the first one counts: where the server switches, the lines that wait are told. At an error
    /// the writer has failed.
    pub(crate) fn hear<W: Write>(
        &mut self,
        answer: Answer,
        writer: &mut Watched<W>,
    ) -> Result<(), WriteFault>
        requires writer_works { has_failed writer.old ≡ false }
        ensures heard { HearsAnswer self.old self.new answer (watched W.contents writer.old writer.new) result }
    {
        let Release::Awaited(kept) = self else {
            return Ok(());
        };
        match answer {
            Answer::NotYet => Ok(()),
            Answer::Switches => {
                write_whole(writer, kept.as_slice())?;
                *self = Release::Told;
                Ok(())
            }
            Answer::Refuses => {
                *self = Release::Never;
                Ok(())
            }
        }
    }
}
