//! The time limits of a stream, and when it was last asked in vain.

ghost use Rattle.std.specs.Prelude.{◌≡◌, List, ℕ};
ghost use Rattle.ws_machines.specs.Told.{told_of};
ghost use Rattle.ws_loops.specs.Paces.{anew_pace, begun_pace, full_pace, has_ended_by, has_passed, has_waited};
ghost use Rattle.ws_loops.specs.Paces.{emptied_by, idle_pace, is_at, passes_at, reads_first, told_pace, woken_pace};

use crate::non_blocking::TryRead;
use crate::poller::Readiness;
use ws_machines::StreamEvent;

/// How many bytes may be read before what is to be written is tried again.
const TURN: usize = 32_768;

/// The time limits of a stream, and when it was last asked in vain. Times are milliseconds of one clock.
#[derive(Clone, Copy)]
pub struct Pace {
    /// For so long nothing may come, or be taken of what is written.
    pub limit: Option<u64>,
    /// By then the connection ends, whatever comes.
    pub deadline: Option<u64>,
    /// When the limit of what is waited for began.
    pub waits_since: u64,
    /// When the limit of what is written began.
    pub writes_since: u64,
    /// When the last byte was taken, or the connection began.
    pub taken_at: u64,
    /// When it was asked for bytes and had none, and has not been found ready since.
    pub idle: Option<u64>,
    /// When it was given bytes and took none, and has not been found ready since.
    pub full: Option<u64>,
    /// How many bytes may still be read before a write is tried.
    pub turn: usize,
    /// Whether the last read brought all that the stream had: nothing was written since, nor was it found ready.
    pub emptied: bool,
}

impl Pace {
    /// That of a connection that begins now, with this time limit, and that ends by this time.
    pub fn begun(now: u64, limit: Option<u64>, deadline: Option<u64>) -> Pace
        ensures { result ≡ begun_pace now limit deadline }
    {
        Pace {
            limit,
            deadline,
            waits_since: now,
            writes_since: now,
            taken_at: now,
            idle: None,
            full: None,
            turn: TURN,
            emptied: false,
        }
    }

    /// Once the machine was told of this event, while it wanted bytes to be written or not, and waits anew or not.
    pub(crate) fn told(self, event: StreamEvent<'_>, writes: bool, anew: bool, now: u64) -> Pace
        ensures { (bytes lines : List ℕ) → result ≡ told_pace writes anew now (told_of bytes lines event.entry) self }
    {
        match event {
            StreamEvent::Came(piece) => Pace {
                idle: None,
                turn: self.turn.saturating_sub(piece.len()),
                emptied: false,
                ..self.begun_anew(writes, anew, now)
            },
            StreamEvent::Taken(_) => Pace {
                taken_at: now,
                idle: None,
                full: None,
                turn: TURN,
                emptied: false,
                ..self.begun_anew(false, true, now)
            },
            StreamEvent::Ended
            | StreamEvent::ReadFailed
            | StreamEvent::NothingCame
            | StreamEvent::WriteFailed
            | StreamEvent::DirectionEnded
            | StreamEvent::Reported
            | StreamEvent::DeadlinePassed(_) => self.begun_anew(writes, anew, now),
        }
    }

    /// Its limits begin where it waits anew, and where nothing was to be written.
    fn begun_anew(self, writes: bool, anew: bool, now: u64) -> Pace
        ensures { result ≡ anew_pace writes anew now self }
    {
        let mut pace = self;
        if anew {
            pace.waits_since = now;
        }
        if !writes {
            pace.writes_since = now;
        }
        pace
    }

    /// Once the machine was told of this read, of so many bytes at most: where it brought fewer, no more were there.
    pub(crate) fn emptied_by(self, outcome: TryRead, len: usize) -> Pace
        ensures { result ≡ emptied_by outcome len self }
    {
        match outcome {
            TryRead::Came(count) => Pace {
                emptied: count < len,
                ..self
            },
            TryRead::Ended | TryRead::Failed | TryRead::NotReady => self,
        }
    }

    /// Once the stream had no bytes.
    pub(crate) fn idle_since(self, now: u64) -> Pace
        ensures { result ≡ idle_pace now self }
    {
        Pace {
            idle: Some(now),
            ..self
        }
    }

    /// Once the stream took no bytes.
    pub(crate) fn full_since(self, now: u64) -> Pace
        ensures { result ≡ full_pace now self }
    {
        Pace {
            full: Some(now),
            turn: TURN,
            emptied: false,
            ..self
        }
    }

    /// Once the stream was found so.
    pub(crate) fn woken(self, ready: Readiness) -> Pace
        ensures { result ≡ woken_pace ready.read ready.write self }
    {
        let mut pace = self;
        if ready.read {
            pace.idle = None;
            pace.emptied = false;
        }
        if ready.write {
            pace.full = None;
        }
        pace
    }

    /// Whether a read goes before a write.
    pub(crate) fn reads_first(self) -> bool
        ensures { result ≡ reads_first self }
    {
        self.turn > 0 && !self.emptied
    }

    /// Whether the deadline has passed.
    pub(crate) fn is_over(self, now: u64) -> bool
        ensures { result ≡ has_ended_by self.deadline now }
    {
        match self.deadline {
            None => false,
            Some(deadline) => deadline <= now,
        }
    }

    /// Whether by the deadline no byte was taken for the time limit, or there is none.
    pub(crate) fn has_waited(self, now: u64) -> bool
        ensures { result ≡ has_waited self now }
    {
        self.limit.is_none() || self.has_passed(self.taken_at, now)
    }

    /// When the time limit, if there is one, passes that began then.
    pub(crate) fn passes_at(self, since: u64) -> Option<u64>
        ensures { result ≡ passes_at self.limit since }
    {
        match self.limit {
            None => None,
            Some(limit) => Some(since.saturating_add(limit)),
        }
    }

    /// Whether the time limit, if there is one, has passed since then.
    pub(crate) fn has_passed(self, since: u64, now: u64) -> bool
        ensures { result ≡ has_passed self.limit since now }
    {
        match self.limit {
            None => false,
            Some(limit) => limit <= now.saturating_sub(since),
        }
    }
}

/// Whether it was at this time.
pub(crate) fn is_at(time: Option<u64>, now: u64) -> bool
    ensures { result ≡ is_at time now }
{
    match time {
        None => false,
        Some(time) => time == now,
    }
}
