//! An exchange that notes what it is told.

ghost use Rattle.std.specs.Prelude.{◌≡◌, [], OnOk};
ghost use Rattle.test_loops.specs.Noted.{IsAbleNoted, noted_agrees};

use std::alloc::{AllocError, Global};
use std::fmt::Write;
use ws_base::NoMemory;
use ws_machines::{Exchange, Machine, StreamEvent};

/// An exchange, a word for each thing that it was told, and for how many more there is memory.
#[derive(Drop)]
pub struct NotedExchange {
    pub exchange: Exchange,
    pub told: String,
    pub memory: u64,
}

impl NotedExchange {
    /// Is to write these bytes, and to read at most so many.
    pub fn new(alloc: Global, bytes: Vec<u8>, most: usize) -> NotedExchange
        ensures able { IsAbleNoted result }
        ensures untold { noted_agrees result result [] }
    {
        NotedExchange::scarce(alloc, bytes, most, u64::MAX)
    }

    /// The same, with memory for so many things that it is told.
    pub fn scarce(alloc: Global, bytes: Vec<u8>, most: usize, memory: u64) -> NotedExchange
        ensures able { IsAbleNoted result }
        ensures untold { noted_agrees result result [] }
    {
        let exchange = Exchange::new(alloc, bytes, most);
        NotedExchange {
            exchange,
            told: String::new(alloc),
            memory,
        }
    }

    /// Notes an event.
    fn note(&mut self, event: StreamEvent<'_>) -> Result<(), NoMemory>
        ensures kept { OnOk result (self.new.exchange ≡ self.old.exchange) }
    {
        let Some(memory) = self.memory.checked_sub(1) else {
            return Err(NoMemory);
        };
        self.memory = memory;
        put_event(event, &mut self.told)?;
        Ok(())
    }
}

/// Puts the word of an event.
fn put_event(event: StreamEvent<'_>, out: &mut String) -> Result<(), AllocError> {
    match event {
        StreamEvent::Came(piece) => write!(out, " came={}", piece.len()),
        StreamEvent::Taken(count) => write!(out, " took={count}"),
        StreamEvent::Ended => write!(out, " ended"),
        StreamEvent::ReadFailed => write!(out, " read_failed"),
        StreamEvent::NothingCame => write!(out, " nothing_came"),
        StreamEvent::WriteFailed => write!(out, " write_failed"),
        StreamEvent::DirectionEnded => write!(out, " direction_ended"),
        StreamEvent::Reported => write!(out, " reported"),
        StreamEvent::DeadlinePassed(false) => write!(out, " deadline"),
        StreamEvent::DeadlinePassed(true) => write!(out, " deadline_waited"),
    }
}

impl Machine for NotedExchange {
    ghost use Rattle.ws_machines.specs.Exchanges.{exchange_gives, left_in};
    ghost use Rattle.test_loops.specs.Noted.{noted_agrees, noted_wants};

    type End = Vec<u8>;

    ghost agrees = { noted_agrees };

    ghost wants = { noted_wants };

    ghost left = { λ now. left_in now.exchange };

    ghost gives = { λ start told end. exchange_gives start.exchange told end.items };

    fn to_write(&self) -> &[u8] {
        self.exchange.to_write()
    }

    fn to_report(&self) -> &[u8] {
        self.exchange.to_report()
    }

    fn room(&self) -> usize {
        self.exchange.room()
    }

    fn wants_end(&self) -> bool {
        self.exchange.wants_end()
    }

    fn waits_anew(&self) -> bool {
        self.exchange.waits_anew()
    }

    fn is_done(&self) -> bool {
        self.exchange.is_done()
    }

    fn on_event(&mut self, event: StreamEvent<'_>) -> Result<(), NoMemory> {
        self.note(event)?;
        self.exchange.on_event(event)?;
        Ok(())
    }

    fn into_end(self) -> Result<Vec<u8>, NoMemory> {
        let NotedExchange { exchange, .. } = self;
        exchange.into_end()
    }
}
