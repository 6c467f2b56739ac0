//! What an event changes of a run, and the turns that begin.

ghost use Rattle.std.specs.Prelude.{◌≡◌, ◌≤◌, ◌++◌, ◌∷◌, [], List, ℕ, length, take, true, false, None, OnOk};
ghost use Rattle.ws_machines.specs.Machines.{HasNext, MayBeTold, told_at};
ghost use Rattle.ws_machines.specs.Told.{told_of};
ghost use Rattle.ws_scripts.specs.declared.transcript.Turn.{Turn};
ghost use Rattle.ws_session.specs.Exchange.{is_over};
ghost use Rattle.ws_wire.specs.declared.role.Role.{Role};
ghost use Rattle.ws_suite.specs.Growing.{HasGrown, new_turn, turn_with_got, turn_with_sent};
ghost use Rattle.ws_suite.specs.Progress.{NotesGot, NotesSent};
ghost use Rattle.ws_tester.specs.Following.{Changes, LeadsOnBy, HearsCame, ShowsTurns, Obeys, Settles, StandsNow};
ghost use Rattle.ws_tester.specs.Outcomes.{outcome_of_event};
ghost use Rattle.ws_tester.specs.Outgoings.{first_piece};
ghost use Rattle.ws_tester.specs.RunStates.{is_all_sent, turns_of_run, wanted_in, with_came, with_run_end};
ghost use Rattle.ws_tester.specs.RunStates.{with_anew, with_next_turn, with_standing, with_taken, with_unanswered};
ghost use Rattle.ws_tester.specs.declared.standing.Standing.TheVariants.{Closed};
ghost use Rattle.ws_tester.specs.declared.outcome.Outcome.TheVariants.{Rests};

use crate::outcome::Outcome;
use crate::standing::{Standing, is_server_close, standing_of};
use crate::tester::Tester;
use std::mem;
use ws_base::{NoMemory, Payload};
use ws_machines::StreamEvent;
use ws_session::laws::one_list_of_events;
use ws_suite::{Ended, Turn};

impl Tester {
    /// Begins the turns that follow, as long as each is over as soon as it has begun, until the run rests or has ended.
    pub(super) fn settle(&mut self) -> Result<(), NoMemory>
        ensures settles { OnOk result (ShowsTurns self.old → Settles self.old.run self.new.run × ShowsTurns self.new) }
        ensures goes_on { OnOk result (self.old.run.ended ≡ None → HasNext (wanted_in self.new.run)) }
    {
        'turns: loop {
            match self.outcome(self.facts()) {
                Outcome::Rests => return Ok(()),
                Outcome::Ends(how) => {
                    self.end_with(how);
                    return Ok(());
                }
                Outcome::Next => self.begin_next_turn()?,
            }
        }
    }

    /// The run ends so.
    pub(super) fn end_with(&mut self, how: Ended)
        ensures ended { self.new.run ≡ with_run_end how self.old.run }
        ensures seen { self.new.seen ≡ self.old.seen }
        ensures standing { self.new.standing ≡ self.old.standing }
        ensures before { self.new.had_sent_end ≡ self.old.had_sent_end }
    {
        self.ended = Some(how);
    }

    /// The next turn begins.
    fn begin_next_turn(&mut self) -> Result<(), NoMemory>
        ensures next { OnOk result (self.new.run ≡ with_next_turn self.old.run) }
        ensures grown { OnOk result ((tested : Role) →
            HasGrown tested (turns_of_run self.old.run) self.old.seen →
            HasGrown tested (turns_of_run self.old.run ++ new_turn ∷ []) self.new.seen) }
        ensures standing { OnOk result (self.new.standing ≡ self.old.standing) }
        ensures before { OnOk result (self.new.had_sent_end ≡ is_over self.old.seen.tested.status) }
    {
        let sent = mem::replace(&mut self.sent, Vec::new(self.alloc));
        let got = mem::replace(&mut self.got, Vec::new(self.alloc));
        push_turn(&mut self.past, sent, got)?;
        self.had_sent_end = self.evidence.has_sent_end();
        self.evidence.begin_turn();
        self.outgoing.next();
        Ok(())
    }

    /// These bytes came, and how what was got stands then is heard, and whether they are progress.
    fn on_came(&mut self, piece: &[u8]) -> Result<(), NoMemory>
        requires { length piece.now ≤ self.old.run.allowance }
        ensures heard { OnOk result (ShowsTurns self.old →
            HearsCame piece.now self.old.run (with_came piece.now self.old.run) self.new.run × ShowsTurns self.new) }
        ensures going { OnOk result (self.new.run.ended ≡ self.old.run.ended) }
    {
        one_list_of_events();
        self.keep_came(piece)?;
        self.hear()?;
        Ok(())
    }

    /// These bytes came, and it is told whether they are progress.
    fn keep_came(&mut self, piece: &[u8]) -> Result<(), NoMemory>
        requires { length piece.now ≤ self.old.run.allowance }
        ensures came { OnOk result (self.new.run ≡ with_anew self.new.run.waits_anew
            (with_unanswered self.new.run.pings (with_came piece.now self.old.run))) }
        ensures grown { OnOk result ((tested : Role) (past : List Turn) (turn : Turn) →
            HasGrown tested (past ++ turn ∷ []) self.old.seen →
            HasGrown tested (past ++ turn_with_got turn piece.now ∷ []) self.new.seen) }
        ensures noted { OnOk result ((tested : Role) (past : List Turn) (turn : Turn) →
            HasGrown tested (past ++ turn ∷ []) self.old.seen → NotesGot tested (past ++ turn ∷ [])
            piece.now self.old.run.pings self.new.run.pings self.new.run.waits_anew) }
        ensures over { OnOk result (is_over self.old.seen.tester.status ≡ true →
            self.new.seen.tester ≡ self.old.seen.tester) }
        ensures standing { OnOk result (self.new.standing ≡ self.old.standing) }
        ensures before { OnOk result (self.new.had_sent_end ≡ self.old.had_sent_end) }
    {
        append(&mut self.got, piece)?;
        let progress = self.evidence.on_got(piece)?;
        self.allowance -= piece.len() as u64;
        self.waits_anew = progress;
        Ok(())
    }

    /// Hears how what was got stands by now. Once it has a server's close nothing more of the turn is sent, unless it
    /// had one before.
    fn hear(&mut self) -> Result<(), NoMemory>
        ensures heard { OnOk result (self.new.run ≡ with_standing self.new.standing self.old.run) }
        ensures seen { OnOk result (self.new.seen ≡ self.old.seen) }
        ensures stands { OnOk result (StandsNow self.old self.new.standing) }
        ensures kept { OnOk result (self.old.standing ≡ Closed → self.new.standing ≡ Closed) }
        ensures before { OnOk result (self.new.had_sent_end ≡ self.old.had_sent_end) }
    {
        self.note_standing()?;
        if is_server_close(self.plan.tested, self.standing) && !self.is_closing {
            self.outgoing.stop();
            self.is_closing = true;
        }
        Ok(())
    }

    /// How what was got stands by now, of which a close stays one.
    fn note_standing(&mut self) -> Result<(), NoMemory>
        ensures run { OnOk result (self.new.run ≡ self.old.run) }
        ensures seen { OnOk result (self.new.seen ≡ self.old.seen) }
        ensures stands { OnOk result (StandsNow self.old self.new.standing) }
        ensures kept { OnOk result (self.old.standing ≡ Closed → self.new.standing ≡ Closed) }
        ensures before { OnOk result (self.new.had_sent_end ≡ self.old.had_sent_end) }
    {
        if self.standing == Standing::Closed {
            return Ok(());
        }
        self.standing = standing_of(
            self.alloc,
            self.plan,
            &self.evidence,
            self.past.as_slice(),
            self.got.as_slice(),
        )?;
        Ok(())
    }

    /// So many bytes of the piece that is next were taken.
    fn on_taken(&mut self, count: usize) -> Result<(), NoMemory>
        requires { count ≤ length (first_piece self.old.run.outgoing.rest) }
        ensures taken { OnOk result (self.new.run ≡ with_anew true (with_unanswered self.new.run.pings
            (with_taken (take count (first_piece self.old.run.outgoing.rest)) self.old.run))) }
        ensures grown { OnOk result ((tested : Role) (past : List Turn) (turn : Turn) →
            HasGrown tested (past ++ turn ∷ []) self.old.seen → HasGrown tested
            (past ++ turn_with_sent turn (take count (first_piece self.old.run.outgoing.rest)) ∷ []) self.new.seen) }
        ensures noted { OnOk result ((tested : Role) (past : List Turn) (turn : Turn) →
            HasGrown tested (past ++ turn ∷ []) self.old.seen → NotesSent tested (past ++ turn ∷ [])
            (take count (first_piece self.old.run.outgoing.rest)) self.old.run.pings self.new.run.pings) }
        ensures standing { OnOk result (self.new.standing ≡ self.old.standing) }
        ensures before { OnOk result (self.new.had_sent_end ≡ self.old.had_sent_end) }
    {
        let bytes = &self.outgoing.piece()[..count];
        append(&mut self.sent, bytes)?;
        self.evidence.on_sent(bytes)?;
        self.outgoing.take(count);
        self.waits_anew = true;
        Ok(())
    }

    /// The event changes what it changes by itself.
    pub(super) fn change(&mut self, event: StreamEvent<'_>) -> Result<(), NoMemory>
        requires { MayBeTold (wanted_in self.old.run) event }
        ensures changes { OnOk result (ShowsTurns self.old →
            Changes (told_at (wanted_in self.old.run) event.entry) self.old.run self.new.run × ShowsTurns self.new) }
        ensures going { OnOk result (self.new.run.ended ≡ self.old.run.ended) }
    {
        match event {
            StreamEvent::Came(piece) => {
                self.on_came(piece)?;
                Ok(())
            }
            StreamEvent::Taken(count) => {
                self.on_taken(count)?;
                Ok(())
            }
            StreamEvent::WriteFailed => {
                self.outgoing.stop();
                self.write_failed = true;
                self.waits_anew = false;
                Ok(())
            }
            StreamEvent::DirectionEnded => {
                self.is_half_closed = true;
                self.waits_anew = false;
                Ok(())
            }
            StreamEvent::NothingCame => {
                self.waits_anew = true;
                Ok(())
            }
            StreamEvent::Ended
            | StreamEvent::ReadFailed
            | StreamEvent::Reported
            | StreamEvent::DeadlinePassed(_) => {
                self.waits_anew = false;
                Ok(())
            }
        }
    }

    /// The run goes on as the event decides by itself, or else as its state does.
    pub(super) fn go_on(&mut self, event: StreamEvent<'_>) -> Result<(), NoMemory>
        ensures goes { OnOk result (ShowsTurns self.old → (bytes lines : List ℕ) →
            LeadsOnBy (outcome_of_event self.old.run (told_of bytes lines event.entry)) self.old.run self.new.run
            × ShowsTurns self.new) }
        ensures next { OnOk result (self.old.run.ended ≡ None → HasNext (wanted_in self.new.run)) }
    {
        match self.outcome_by(event) {
            Some(outcome) => {
                self.obey(outcome)?;
                Ok(())
            }
            None => {
                self.settle()?;
                Ok(())
            }
        }
    }

    /// The run rests, goes on with the next turn, or ends.
    fn obey(&mut self, outcome: Outcome) -> Result<(), NoMemory>
        ensures obeys { OnOk result (ShowsTurns self.old →
            Obeys outcome self.old.run self.new.run × ShowsTurns self.new) }
        ensures next { OnOk result (self.old.run.ended ≡ None → (outcome ≡ Rests → is_all_sent self.old.run ≡ false) →
            HasNext (wanted_in self.new.run)) }
    {
        match outcome {
            Outcome::Rests => Ok(()),
            Outcome::Next => {
                self.begin_next_turn()?;
                self.settle()?;
                Ok(())
            }
            Outcome::Ends(how) => {
                self.end_with(how);
                Ok(())
            }
        }
    }
}

/// Puts bytes behind the others.
fn append(bytes: &mut Vec<u8>, piece: &[u8]) -> Result<(), NoMemory>
    ensures { OnOk result (bytes.new.items ≡ bytes.old.items ++ piece.now) }
{
    bytes.extend_from_slice(piece)?;
    Ok(())
}

/// Puts a turn behind those that are over.
pub(super) fn push_turn(past: &mut Vec<Turn>, sent: Vec<u8>, got: Vec<u8>) -> Result<(), NoMemory>
    ensures { OnOk result (past.new.items ≡ past.old.items ++ record { sent = sent.items; got = got.items } ∷ []) }
{
    past.push(Turn {
        sent: Payload::from_vec(sent),
        got: Payload::from_vec(got),
    })?;
    Ok(())
}
