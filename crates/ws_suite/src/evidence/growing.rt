//! Evidence that grows with a connection: turn by turn, and in a turn piece by piece, as bytes are sent and got. A run
//! over a connection asks of it what has come.

ghost use Rattle.std.specs.Prelude.{◌≡◌, ◌+◌, ◌^◌, ◌<◌, ◌↔◌, List, ℕ, [], ◌∷◌, ◌++◌, length, true, IfOk, IsTrue, OnOk};
ghost use Rattle.std.specs.List.{concat};
ghost use Rattle.ws_wire.specs.declared.role.Role.{Role};
ghost use Rattle.ws_scripts.specs.declared.transcript.Turn.{Turn};
ghost use Rattle.ws_session.specs.Exchange.{is_over};
ghost use Rattle.ws_suite.specs.Evidence.{other_role};
ghost use Rattle.ws_suite.specs.Growing.{AreTurnsAnswered, CannotComeAfter, EndInsideFrame, HasGrown};
ghost use Rattle.ws_suite.specs.Growing.{is_clean, is_failed, new_turn, turn_with_got, turn_with_sent};
ghost use Rattle.ws_suite.specs.InnerCollecting.{HasTakenWay};
ghost use Rattle.ws_suite.specs.Progress.{EndInOtherFrame, NotesGot, NotesSent};
ghost use Rattle.ws_suite.specs.declared.evidence.InTurn.{InTurn};
ghost use Rattle.ws_suite.specs.declared.evidence.Reply.{Reply};
ghost use Rattle.ws_suite.specs.declared.evidence.collecting.Way.{Way};
ghost use Rattle.ws_suite.specs.Waiting.{AreTurnsAnsweredBy, AreTurnsSeenAnswered};

use crate::evidence::collecting::{Rooms, Taken, Way, nothing_taken};
use crate::evidence::keeping::{KeepsReplies, RunReplies};
use crate::evidence::last_ping::LastPing;
use crate::evidence::pairing::Pairing;
use crate::evidence::unanswered::ControlPayloads;
use crate::evidence::watching::take_watched;
use crate::lemmas::{frame_laws, session_laws};
use std::alloc::Global;
use std::marker::Model;
use ws_base::NoMemory;
use ws_scripts::Expectation;
use ws_session::Status;
use ws_wire::Role;

/// What went over a connection so far, as far as it shows whether the tested end keeps the rules: what is due for what
/// was sent, what was got, and how the sessions of both ends stand. It takes memory for the messages that are under
/// way, for what isn't answered yet, and for the pongs of the turn that has begun last. After `NoMemory` it shows
/// nothing more.
#[derive(Drop)]
pub struct RunEvidence {
    rooms: Rooms,
    sent: Taken<RunReplies>,
    got: Taken<RunReplies>,
    pairing: Pairing,
    last_ping: LastPing,
    turns: usize,
    unanswered: ControlPayloads,
}

impl Model for RunEvidence {
    ghost use Rattle.ws_suite.specs.Growing.{GrowingValue};

    ghost Value = { GrowingValue };

    ghost view = { λ x. record {
      due = x.sent.collected;
      got = x.got.collected;
      pairing = x.pairing;
      last_ping = x.last_ping;
      tested = x.sent.session;
      tester = x.got.session;
      turns = x.turns;
      pings = x.unanswered;
    } };
}

impl RunEvidence {
    /// Nothing went over the connection, and no turn has begun. The tested end has this role.
    pub fn new(alloc: Global, tested: Role) -> RunEvidence
        ensures grown { HasGrown tested [] result }
        ensures pings { result.pings ≡ [] }
    {
        RunEvidence {
            rooms: Rooms::new(alloc),
            sent: nothing_taken(alloc, Way::Sent, tested),
            got: nothing_taken(alloc, Way::Got, other(tested)),
            pairing: Pairing::new(alloc),
            last_ping: LastPing::new(alloc),
            turns: 0,
            unanswered: ControlPayloads::new(alloc),
        }
    }

    /// The next turn begins. There are at most as many as a list can hold.
    pub fn begin_turn(&mut self)
        ensures grown { (tested : Role) (turns : List Turn) → length turns + 1 < 2 ^ 64 →
            HasGrown tested turns self.old → HasGrown tested (turns ++ new_turn ∷ []) self.new }
        ensures pings { self.new.pings ≡ self.old.pings }
    {
        self.turns = self.turns.saturating_add(1);
        self.last_ping.begin_turn();
    }

    /// These bytes were sent in the turn that has begun last.
    pub fn on_sent(&mut self, bytes: &[u8]) -> Result<(), NoMemory>
        ensures grown { (tested : Role) (before : List Turn) (turn : Turn) →
            HasGrown tested (before ++ turn ∷ []) self.old →
            OnOk result (HasGrown tested (before ++ turn_with_sent turn bytes.now ∷ []) self.new) }
        ensures noted { (tested : Role) (before : List Turn) (turn : Turn) →
            HasGrown tested (before ++ turn ∷ []) self.old →
            OnOk result (NotesSent tested (before ++ turn ∷ []) bytes.now self.old.pings self.new.pings) }
    {
        session_laws();
        let number = self.turns.saturating_sub(1);
        take_watched(
            Way::Sent,
            number,
            bytes,
            &mut self.rooms,
            &mut self.sent,
            &mut self.unanswered,
        )?;
        self.pairing.take_due(&self.sent.collected.replies.fresh)?;
        self.last_ping.note_due(&self.sent.collected.replies.fresh)?;
        self.sent.collected.replies.hand_on();
        Ok(())
    }

    /// These bytes were got in the turn that has begun last: whether they are progress. That is a byte of a frame that
    /// is neither a ping nor a pong, and a whole pong that is owed; behind a close or a fault nothing is.
    pub fn on_got(&mut self, bytes: &[u8]) -> Result<bool, NoMemory>
        ensures grown { (tested : Role) (before : List Turn) (turn : Turn) →
            HasGrown tested (before ++ turn ∷ []) self.old →
            OnOk result (HasGrown tested (before ++ turn_with_got turn bytes.now ∷ []) self.new) }

        ensures noted { (tested : Role) (before : List Turn) (turn : Turn) →
            HasGrown tested (before ++ turn ∷ []) self.old → IfOk result (λ progress.
            NotesGot tested (before ++ turn ∷ []) bytes.now self.old.pings self.new.pings progress) }

        // Nothing is told of what comes after a close or a fault.
        ensures over { is_over self.old.tester.status ≡ true → self.new.tester ≡ self.old.tester }
    {
        session_laws();
        let turn = self.turns.saturating_sub(1);
        let has_progress = take_watched(
            Way::Got,
            turn,
            bytes,
            &mut self.rooms,
            &mut self.got,
            &mut self.unanswered,
        )?;
        self.pairing.take_got(&self.got.collected.replies.fresh)?;
        self.last_ping.note_got(&self.got.collected.replies.fresh)?;
        self.got.collected.replies.hand_on();
        if has_progress {
            return Ok(true);
        }
        Ok(is_in_other_frame(&self.got))
    }

    /// Whether a close was got: no event follows it.
    pub fn has_got_close(&self) -> bool
        ensures { result ≡ is_clean self.now.tester.status }
    {
        match self.got.session.status() {
            Status::Clean(_) => true,
            Status::Open | Status::Closing | Status::Failed(_) | Status::Lost => false,
        }
    }

    /// Whether what was got breaks a rule of frames: no event follows that.
    pub fn has_got_fault(&self) -> bool
        ensures { result ≡ is_failed self.now.tester.status }
    {
        match self.got.session.status() {
            Status::Failed(_) => true,
            Status::Open | Status::Closing | Status::Clean(_) | Status::Lost => false,
        }
    }

    /// Whether what was sent holds a close or breaks a rule of frames: nothing more is due for what follows.
    pub fn has_sent_end(&self) -> bool
        ensures { result ≡ is_over self.now.tested.status }
    {
        self.sent.session.status().is_over()
    }

    /// Whether what is due for what was sent has come: no fewer messages were got than are due, and the last due pong
    /// is there. It takes the same time whatever went over the connection.
    pub fn is_answered(&self) -> bool
        ensures { (tested : Role) (turns : List Turn) → HasGrown tested turns self.now →
            IsTrue result ↔ AreTurnsAnswered tested turns }
    {
        session_laws();
        self.got
            .collected
            .replies
            .tally
            .answers(&self.sent.collected.replies.tally)
    }

    /// Whether what a turn is waited for has come, by what is expected of the tested end: of an echo as `is_answered`
    /// tells it; by the protocol, under which no message is owed, whether the last ping that was sent is answered, if
    /// there is one: by a pong with its payload of no earlier turn than its own. Other pongs before and behind that one
    /// change nothing. It takes the same time whatever went over the connection.
    pub fn is_answered_by(&self, expected: Expectation) -> bool
        ensures seen { (tested : Role) (turns : List Turn) → HasGrown tested turns self.now →
            IsTrue result ↔ AreTurnsSeenAnswered expected tested turns }
        ensures answered { (tested : Role) (turns : List Turn) → HasGrown tested turns self.now →
            result ≡ true → AreTurnsAnsweredBy expected tested turns }
    {
        session_laws();
        match expected {
            Expectation::Echo => self.is_answered(),
            Expectation::Protocol => self.last_ping.is_answered(),
        }
    }

    /// Whether what an echo owes for these turns can't come any more: the messages that were got are no beginning of
    /// those due, or all are there and a pong has no match. It takes the same time whatever went over the connection.
    pub fn cannot_come(&self) -> bool
        ensures { (tested : Role) (turns : List Turn) → HasGrown tested turns self.now →
            IsTrue result ↔ CannotComeAfter tested turns }
    {
        session_laws();
        self.pairing.cannot_come()
    }

    /// Whether what was got ends inside a frame: bytes came behind the last that said something.
    pub fn ends_inside_frame(&self) -> bool
        ensures { (tested : Role) (turns : List Turn) → HasGrown tested turns self.now →
            IsTrue result ↔ EndInsideFrame tested turns }
    {
        session_laws();
        self.got.collected.has_rest
    }
}

/// Whether what was taken ends inside a frame that is neither a ping nor a pong.
fn is_in_other_frame<K: KeepsReplies>(taken: &Taken<K>) -> bool
    ensures { (handed : List (InTurn Reply)) (way : Way) (role : Role) (turns : List (List ℕ)) →
        HasTakenWay (K.keeps handed) way role turns taken.now.session taken.now.collected →
        IsTrue result ↔ EndInOtherFrame role (concat turns) }
{
    frame_laws();
    let session = &taken.session;
    taken.collected.has_rest && (!session.status().is_over() && !session.is_in_ping_or_pong())
}

/// The other end.
pub(super) fn other(role: Role) -> Role
    ensures { result ≡ other_role role }
{
    match role {
        Role::Client => Role::Server,
        Role::Server => Role::Client,
    }
}
