//! A slot of a loop: a stream and the machine that is told of it.

ghost use Rattle.std.specs.Prelude.{◌≡◌};
ghost use Rattle.ws_loops.specs.Paces.{due_time, is_due, is_read_due, is_wait_late, is_write_due, is_write_late};
ghost use Rattle.ws_loops.specs.Paces.{limit_at, sooner};

use crate::pace::{Pace, is_at};
use ws_machines::Machine;

/// A stream that doesn't wait, and the machine that is told of it.
#[derive(Drop)]
pub struct Slot<M, S> {
    pub machine: M,
    pub stream: S,
    pub pace: Pace,
}

impl<M: Machine, S> Slot<M, S> {
    /// Whether something is due by now.
    pub fn is_due(&self, now: u64) -> bool
        ensures { result ≡ is_due (M.wants self.now.machine) self.now.pace now }
    {
        !self.machine.is_done()
            && (!self.machine.to_report().is_empty()
                || self.machine.wants_end()
                || self.pace.is_over(now)
                || self.is_read_due(now)
                || self.is_write_due(now)
                || self.is_write_late(now)
                || self.is_wait_late(now))
    }

    /// When something is due, if its stream isn't found ready before: the time that is asked for where something is due
    /// by then.
    pub fn due_at(&self, now: u64) -> Option<u64>
        ensures { result ≡ due_time (M.wants self.now.machine) self.now.pace now }
    {
        if self.machine.is_done() {
            return None;
        }
        if self.is_due(now) {
            return Some(now);
        }
        sooner(self.pace.deadline, self.limit_at())
    }

    /// When the limit of what is to be written, or of what is waited for, passes.
    fn limit_at(&self) -> Option<u64>
        ensures { result ≡ limit_at (M.wants self.now.machine) self.now.pace }
    {
        if !self.machine.to_write().is_empty() {
            self.pace.passes_at(self.pace.writes_since)
        } else if self.machine.room() > 0 {
            self.pace.passes_at(self.pace.waits_since)
        } else {
            None
        }
    }

    /// Whether it is to be read.
    pub(crate) fn is_read_due(&self, now: u64) -> bool
        ensures { result ≡ is_read_due (M.wants self.now.machine) self.now.pace now }
    {
        self.machine.room() > 0
            && ((self.pace.idle.is_none() && (self.pace.reads_first() || !self.is_write_due(now)))
                || (self.is_wait_late(now) && !is_at(self.pace.idle, now)))
    }

    /// Whether it is to be written.
    pub(crate) fn is_write_due(&self, now: u64) -> bool
        ensures { result ≡ is_write_due (M.wants self.now.machine) self.now.pace now }
    {
        !self.machine.to_write().is_empty()
            && (self.pace.full.is_none()
                || (self.pace.has_passed(self.pace.writes_since, now)
                    && !is_at(self.pace.full, now)))
    }

    /// Whether what is to be written wasn't taken for the time limit.
    pub(crate) fn is_write_late(&self, now: u64) -> bool
        ensures { result ≡ is_write_late (M.wants self.now.machine) self.now.pace now }
    {
        !self.machine.to_write().is_empty() && self.pace.has_passed(self.pace.writes_since, now)
    }

    /// Whether what is waited for has not come for the time limit.
    pub(crate) fn is_wait_late(&self, now: u64) -> bool
        ensures { result ≡ is_wait_late (M.wants self.now.machine) self.now.pace now }
    {
        self.machine.to_write().is_empty()
            && self.machine.room() > 0
            && self.pace.has_passed(self.pace.waits_since, now)
    }
}

/// The earlier of both times, where there are any.
pub(crate) fn sooner(one: Option<u64>, other: Option<u64>) -> Option<u64>
    ensures { result ≡ sooner one other }
{
    match (one, other) {
        (Some(one), Some(other)) => Some(one.min(other)),
        (Some(time), None) | (None, Some(time)) => Some(time),
        (None, None) => None,
    }
}
