//! What was sent and is certain to be at fault before the fault has come (RFC 6455 section 7.1.7): where it counts as
//! one. The session that takes what was sent is asked for it.

ghost use Rattle.std.specs.Prelude.{◌≡◌, ◌↔◌, ℕ, List, IsTrue, MatchOption, false, true};
ghost use Rattle.std.specs.List.{concat};
ghost use Rattle.ws_wire.specs.declared.role.Role.{Role};
ghost use Rattle.ws_suite.specs.Evidence.{due_for, sent_turns};
ghost use Rattle.ws_suite.specs.Doom.{AnswersDoom, CountsAs, HasDoomCounted, IsDoomOf, IsLastWithBytes, counts_doom};
ghost use Rattle.ws_suite.specs.Growing.{AreAll, HasTakenTurns};
ghost use Rattle.ws_suite.specs.InnerDoom.{AreDoomed, AreDooms, AreWithoutBytes, IsDoomedAtEnd, IsKnownAtClose};
ghost use Rattle.ws_suite.specs.InnerDoom.{last_sent};

use crate::evidence::collecting::Taken;
use crate::evidence::keeping::AllReplies;
use crate::evidence::{Direction, Ending, Evidence, InTurn, ends_with_close, is_close_ending};
use ws_scripts::{Ended, TranscriptRef};
use ws_session::laws;
use ws_wire::Role;

/// Whether what was sent is doomed.
#[derive(Clone, Copy)]
pub(crate) struct Dooms {
    /// At the end of the turn in which a close was got, or a fault, which may count as a close.
    pub at_close: bool,
    /// At the end of the connection.
    pub at_end: bool,
}

/// Whether all that the tested end has taken is doomed.
pub(super) fn is_doomed(taken: &Taken<AllReplies>) -> bool
    ensures { (role : Role) (turns : List (List ℕ)) →
        HasTakenTurns AreAll due_for role turns taken.now.session taken.now.collected →
        IsTrue result ↔ AreDoomed role (concat turns) }
{
    laws::doomed_streams_go_on();
    taken.session.is_doomed()
}

/// Whether what the tested end has taken is doomed when the turn is over in which a close or a fault was got: it is
/// asked where this is the turn, and else as it was known.
pub(super) fn doom_at_close(ends: bool, known: bool, taken: &Taken<AllReplies>) -> bool
    ensures asked { ends ≡ true → (role : Role) (turns : List (List ℕ)) →
        HasTakenTurns AreAll due_for role turns taken.now.session taken.now.collected →
        IsTrue result ↔ AreDoomed role (concat turns) }
    ensures kept { ends ≡ false → result ≡ known }
{
    if ends { is_doomed(taken) } else { known }
}

/// The evidence, with what was doomed counted.
pub(crate) fn with_doom(
    tested: Role,
    transcript: &TranscriptRef<'_>,
    shown: Evidence,
    dooms: Dooms,
) -> Evidence
    requires { AreDooms tested (sent_turns transcript.now.turns) shown.got.ending dooms }
    ensures { HasDoomCounted tested transcript.now shown result }
{
    let ending = counted_ending(tested, transcript, &shown, dooms.at_end);
    let answers_doom = answers_doom(
        tested,
        transcript,
        &shown.got.ending,
        &ending,
        dooms.at_close,
    );
    let Evidence {
        due,
        got,
        turns,
        ended,
        answers_doom: _,
    } = shown;
    let Direction {
        replies,
        ending: _,
        has_rest,
    } = due;
    Evidence {
        due: Direction {
            replies,
            ending,
            has_rest,
        },
        got,
        turns,
        ended,
        answers_doom,
    }
}

/// How what was sent ends, as it counts.
fn counted_ending(
    tested: Role,
    transcript: &TranscriptRef<'_>,
    shown: &Evidence,
    at_end: bool,
) -> Option<InTurn<Ending>>
    requires { IsTrue at_end ↔ IsDoomedAtEnd tested (sent_turns transcript.now.turns) }
    ensures { CountsAs tested transcript.now shown.now.got.ending shown.now.due.ending result }
{
    if let Some(sent) = &shown.due.ending {
        return Some(InTurn {
            turn: sent.turn,
            what: sent.what,
        });
    }
    if !counts_doom(tested, transcript.ended(), &shown.got.ending) {
        return None;
    }
    doom_of(tested, transcript, at_end)
}

/// Whether what is doomed counts as a fault.
fn counts_doom(tested: Role, ended: Ended, got: &Option<InTurn<Ending>>) -> bool
    ensures { result ≡ counts_doom tested ended got.now }
{
    match ended {
        Ended::Peer | Ended::Broken => true,
        Ended::Tester => match tested {
            Role::Server => false,
            Role::Client => ends_with_close(got),
        },
    }
}

/// Where all that was sent is doomed, that, in the last turn with bytes.
fn doom_of(tested: Role, transcript: &TranscriptRef<'_>, at_end: bool) -> Option<InTurn<Ending>>
    requires { IsTrue at_end ↔ IsDoomedAtEnd tested (sent_turns transcript.now.turns) }
    ensures { IsDoomOf tested (sent_turns transcript.now.turns) result }
{
    let Some(turn) = last_with_bytes(transcript) else {
        return None;
    };
    if !at_end {
        return None;
    }
    Some(InTurn {
        turn,
        what: Ending::Doomed,
    })
}

/// The last turn in which bytes were sent, if there is one.
fn last_with_bytes(transcript: &TranscriptRef<'_>) -> Option<usize>
    ensures { MatchOption result (AreWithoutBytes 0 (sent_turns transcript.now.turns))
        (IsLastWithBytes (sent_turns transcript.now.turns)) }
{
    let mut walk = transcript.turns();
    let mut last = None;
    for number in 0..walk.len() {
        last = last_sent(last, number, walk.take_first().sent);
    }
    last
}

/// The last turn with bytes, by that before this turn and what was sent in it.
fn last_sent(last: Option<usize>, number: usize, sent: &[u8]) -> Option<usize>
    ensures { result ≡ last_sent last number sent.now }
{
    match sent {
        [] => last,
        [_, ..] => Some(number),
    }
}

/// Whether the close that was got came before the fault, when what was sent was doomed.
fn answers_doom(
    tested: Role,
    transcript: &TranscriptRef<'_>,
    got: &Option<InTurn<Ending>>,
    due: &Option<InTurn<Ending>>,
    at_close: bool,
) -> bool
    requires { IsKnownAtClose tested (sent_turns transcript.now.turns) got.now at_close }
    ensures { IsTrue result ↔ AnswersDoom tested (sent_turns transcript.now.turns) got.now due.now }
{
    match (got, due) {
        (Some(got), Some(due)) => {
            is_close_ending(&got.what)
                && !is_close_ending(&due.what)
                && got.turn < due.turn
                && at_close
        }
        _ => false,
    }
}
