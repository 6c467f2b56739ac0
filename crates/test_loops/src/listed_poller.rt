//! A poller that finds streams ready at the times that a list says.

ghost use Rattle.std.specs.Prelude.{◌≡◌, ◌≤◌, length};

use crate::row_fault::RowFault;
use std::alloc::Global;
use std::collections::VecDeque;
use ws_loops::{Mark, Poller, Readiness, WaitFailed, Wake};

/// At this time the stream of a place, or the listener, is found ready.
#[derive(Clone, Copy)]
pub struct TimedWake {
    time: u64,
    wake: Wake,
}

/// Its clock goes on by waits alone. How often it has waited is counted, and it waits no more than a thousand times.
#[derive(Drop)]
pub struct ListedPoller {
    wakes: VecDeque<TimedWake>,
    clock: u64,
    answered: u64,
    pub waits: u64,
    left: u64,
}

impl ListedPoller {
    /// It finds streams ready so, in this order.
    pub fn new(wakes: VecDeque<TimedWake>) -> ListedPoller {
        ListedPoller {
            wakes,
            clock: 0,
            answered: 0,
            waits: 0,
            left: 1000,
        }
    }

    /// The time of the next thing that happens: that of the next stream that is found ready, or the time that is waited
    /// for. None where nothing happens any more.
    fn next_time(&self, until: Option<u64>) -> Option<u64> {
        match (self.wakes.front(), until) {
            (Some(wake), Some(until)) => Some(wake.time.min(until)),
            (Some(wake), None) => Some(wake.time),
            (None, until) => until,
        }
    }
}

/// Tells of what is found ready by now, as far as there is room, and answers of how many.
fn tell(wakes: &mut VecDeque<TimedWake>, clock: u64, found: &mut [Wake]) -> usize
    ensures len { length found.new ≡ length found.old }
    ensures count { result ≤ length found.new }
{
    let mut count = 0;
    for _ in 0..wakes.len() {
        if count < found.len()
            && let Some(wake) = next_ready(wakes, clock)
        {
            found[count] = wake;
            count += 1;
        }
    }
    count
}

/// What is found ready next, if it is by now.
fn next_ready(wakes: &mut VecDeque<TimedWake>, clock: u64) -> Option<Wake> {
    match wakes.front() {
        Some(next) if next.time <= clock => {}
        _ => return None,
    }
    let next = wakes.pop_front()?;
    Some(next.wake)
}

impl Poller for ListedPoller {
    ghost time = { λ p. p.answered };

    ghost left = { λ p. p.left };

    fn now(&mut self) -> u64 {
        self.answered = self.answered.max(self.clock);
        self.answered
    }

    fn wait(&mut self, found: &mut [Wake], until: Option<u64>) -> Result<usize, WaitFailed> {
        if self.left == 0 {
            return Err(WaitFailed);
        }
        let Some(time) = self.next_time(until) else {
            return Err(WaitFailed);
        };
        self.left -= 1;
        self.waits = self.waits.saturating_add(1);
        self.clock = self.clock.max(time);
        Ok(tell(&mut self.wakes, self.clock, found))
    }
}

/// The list of words, parted by commas: `TIME:PLACE:r`, `TIME:PLACE:w` or `TIME:PLACE:rw`, with `l` in place of `PLACE`
/// for the listener; `-` has none.
pub fn wakes_by(alloc: Global, words: &str) -> Result<VecDeque<TimedWake>, RowFault> {
    let mut wakes = VecDeque::new(alloc);
    if words == "-" {
        return Ok(wakes);
    }
    for word in words.split(',') {
        wakes.push_back(wake_by(alloc, word)?)?;
    }
    Ok(wakes)
}

/// What a word says of a stream that is found ready.
fn wake_by(alloc: Global, word: &str) -> Result<TimedWake, RowFault> {
    let parts: Vec<&str> = word.split(':').collect(alloc)?;
    let [time, mark, how] = parts.as_slice() else {
        return Err(RowFault::NotARow);
    };
    let Ok(time) = time.parse::<u64>() else {
        return Err(RowFault::NotARow);
    };
    let wake = Wake {
        mark: mark_by(mark)?,
        ready: ready_by(how)?,
    };
    Ok(TimedWake { time, wake })
}

/// The mark of a word.
fn mark_by(word: &str) -> Result<Mark, RowFault> {
    if word == "l" {
        return Ok(Mark::Listener);
    }
    match word.parse::<usize>() {
        Ok(place) => Ok(Mark::Place(place)),
        Err(_) => Err(RowFault::NotARow),
    }
}

/// How a word says that it is found.
fn ready_by(word: &str) -> Result<Readiness, RowFault> {
    let (read, write) = match word {
        "r" => (true, false),
        "w" => (false, true),
        "rw" => (true, true),
        _ => return Err(RowFault::NotARow),
    };
    Ok(Readiness { read, write })
}
