//! What comes of the state of a run: of the turns so far, and of an event.

ghost use Rattle.std.specs.Prelude.{◌≡◌, List, ℕ};
ghost use Rattle.ws_machines.specs.Told.{told_of};
ghost use Rattle.ws_tester.specs.Following.{ShowsTurns};
ghost use Rattle.ws_tester.specs.Outcomes.{AreFacts, has_come, is_in_vain, is_waited_out, next_or_end, outcome_of};
ghost use Rattle.ws_tester.specs.Outcomes.{outcome_of_event, owes_messages};
ghost use Rattle.ws_tester.specs.Outcomes.{outcome_of_silence};
ghost use Rattle.ws_tester.specs.RunStates.{has_more, turns_of_run};

use crate::outcome::{Outcome, TurnFacts};
use crate::standing::{Standing, stops_run};
use crate::tester::Tester;
use ws_machines::{Machine, StreamEvent};
use ws_suite::{Ended, Expectation};
use ws_wire::Role;

impl Tester {
    /// What is asked of the turns so far.
    pub(super) fn facts(&self) -> TurnFacts
        ensures { ShowsTurns self.now →
            AreFacts self.now.run.plan self.now.run.past (turns_of_run self.now.run) result }
    {
        TurnFacts {
            standing: self.standing,
            has_sent_end: self.evidence.has_sent_end(),
            had_sent_end: self.had_sent_end,
            is_answered: self.evidence.is_answered_by(self.plan.expected),
            is_inside: self.evidence.ends_inside_frame(),
            cannot_come: self.evidence.cannot_come(),
        }
    }

    /// Whether the turn is waited for to the end of the stream, though what is owed has come.
    pub(super) fn is_waited_out(&self, facts: TurnFacts) -> bool
        ensures { result ≡ is_waited_out self.now.run.plan (has_more self.now.run) facts }
    {
        if self.outgoing.has_more() {
            return self.plan.has_timeouts && (facts.has_sent_end && !facts.had_sent_end);
        }
        match self.plan.tested {
            Role::Server => true,
            Role::Client => facts.has_sent_end,
        }
    }

    /// Whether what is waited for has come.
    pub(super) fn has_come(&self, facts: TurnFacts) -> bool
        ensures { result ≡ has_come self.now.run facts }
    {
        facts.standing == Standing::Going
            && !self.write_failed
            && !self.is_waited_out(facts)
            && facts.is_answered
            && (self.outgoing.has_more() || !facts.is_inside)
    }

    /// Whether what is waited for can't come any more: what was got can't become what an echo owes. Behind a server's
    /// close the own direction is to be ended first.
    pub(super) fn is_in_vain(&self, facts: TurnFacts) -> bool
        ensures { result ≡ is_in_vain self.now.run facts }
    {
        owes_messages(self.plan.expected)
            && !self.outgoing.has_more()
            && !self.write_failed
            && facts.standing == Standing::Going
            && facts.cannot_come
            && !facts.is_inside
    }

    /// What comes of the state.
    pub(super) fn outcome(&self, facts: TurnFacts) -> Outcome
        ensures { result ≡ outcome_of self.now.run facts }
    {
        if stops_run(self.plan.tested, facts.standing) {
            return Outcome::Ends(Ended::Tester);
        }
        if !self.outgoing.is_empty() {
            return Outcome::Rests;
        }
        if self.has_come(facts) || self.is_in_vain(facts) {
            return next_or_end(self.outgoing.has_more());
        }
        if self.allowance == 0 && !self.wants_end() {
            return Outcome::Ends(Ended::Broken);
        }
        Outcome::Rests
    }

    /// What comes of an event by itself, if that decides.
    pub(super) fn outcome_by(&self, event: StreamEvent<'_>) -> Option<Outcome>
        ensures { (write lines : List ℕ) → result ≡ outcome_of_event self.now.run (told_of write lines event.entry) }
    {
        match event {
            StreamEvent::ReadFailed => Some(Outcome::Ends(Ended::Broken)),
            StreamEvent::Ended if self.write_failed => Some(Outcome::Ends(Ended::Broken)),
            StreamEvent::Ended => Some(Outcome::Ends(Ended::Peer)),
            StreamEvent::NothingCame => Some(self.outcome_of_silence()),
            StreamEvent::DeadlinePassed(waited) if waited || !self.plan.has_timeouts => {
                Some(Outcome::Ends(Ended::Tester))
            }
            StreamEvent::DeadlinePassed(_) => Some(Outcome::Ends(Ended::Broken)),
            StreamEvent::Came(_)
            | StreamEvent::Taken(_)
            | StreamEvent::WriteFailed
            | StreamEvent::DirectionEnded
            | StreamEvent::Reported => None,
        }
    }

    /// What comes of a wait in vain.
    pub(super) fn outcome_of_silence(&self) -> Outcome
        ensures { result ≡ outcome_of_silence self.now.run }
    {
        if !self.outgoing.is_empty() {
            return Outcome::Rests;
        }
        if self.write_failed {
            return Outcome::Ends(Ended::Broken);
        }
        next_or_end(self.outgoing.has_more() && !self.is_closing)
    }
}

/// Whether messages are owed.
fn owes_messages(expected: Expectation) -> bool
    ensures { result ≡ owes_messages expected }
{
    match expected {
        Expectation::Echo => true,
        Expectation::Protocol => false,
    }
}

/// What comes where nothing is waited for any more.
fn next_or_end(more: bool) -> Outcome
    ensures { result ≡ next_or_end more }
{
    if more {
        Outcome::Next
    } else {
        Outcome::Ends(Ended::Tester)
    }
}
