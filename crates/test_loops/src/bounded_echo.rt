//! A stream to an echo that writes what it has read before it reads on, over two buffers of so many bytes.

ghost use Rattle.std.specs.Prelude.{◌≡◌, ◌<◌, ◌≤◌, length};
ghost use Rattle.ws_loops.specs.Deeds.{FitsTryRead, FitsTryWrite};

use crate::row_fault::RowFault;
use std::alloc::Global;
use ws_loops::{NonBlocking, TryRead, TryWrite};

/// All bytes that were taken are kept once. Of these, so many were read by the echo, at most `piece` at once and only
/// once it has written all that it had read before; so many were written by it; and so many were read from it. What was
/// taken and the echo has not read is in one buffer, what it has written and was not read in the other.
#[derive(Drop)]
pub struct BoundedEcho {
    taken: Vec<u8>,
    heard: usize,
    echoed: usize,
    read: usize,
    buffer: usize,
    piece: usize,
}

impl BoundedEcho {
    /// Over buffers of so many bytes; the echo reads at most so many at once.
    pub fn new(alloc: Global, buffer: usize, piece: usize) -> BoundedEcho {
        BoundedEcho {
            taken: Vec::new(alloc),
            heard: 0,
            echoed: 0,
            read: 0,
            buffer,
            piece,
        }
    }

    /// The echo goes on as far as it can, for some steps.
    fn go_on(&mut self) {
        for _ in 0..4 {
            let room = self
                .buffer
                .saturating_sub(self.echoed.saturating_sub(self.read));
            let pending = self.heard.saturating_sub(self.echoed);
            self.echoed = self.echoed.saturating_add(pending.min(room));
            if self.echoed >= self.heard {
                let there = self.taken.len().saturating_sub(self.heard);
                self.heard = self.heard.saturating_add(there.min(self.piece));
            }
        }
    }

    /// The bytes that it has written and that were not read yet, at most so many.
    fn front(&self, most: usize) -> &[u8] {
        let there = self.echoed.saturating_sub(self.read).min(most);
        let last = self.read.saturating_add(there);
        self.taken.as_slice().get(self.read..last).unwrap_or(&[])
    }

    /// Those that fit are put into the room. How many.
    fn give(&self, room: &mut [u8]) -> usize
        ensures len { length room.new ≡ length room.old }
        ensures fits { result ≤ length room.old }
    {
        let bytes = self.front(room.len());
        let count = bytes.len().min(room.len());
        room[..count].copy_from_slice(&bytes[..count]);
        count
    }
}

impl NonBlocking for BoundedEcho {
    ghost use Rattle.std.specs.Prelude.{⊤};

    ghost did = { λ old new deeds. ⊤ };

    fn try_read(&mut self, room: &mut [u8]) -> TryRead {
        self.go_on();
        let count = self.give(room);
        if count == 0 {
            return TryRead::NotReady;
        }
        self.read = self.read.saturating_add(count);
        TryRead::Came(count)
    }

    fn try_write(&mut self, bytes: &[u8]) -> TryWrite {
        self.go_on();
        let held = self.taken.len().saturating_sub(self.heard);
        let count = self.buffer.saturating_sub(held).min(bytes.len());
        if count == 0 {
            return TryWrite::NotReady;
        }
        match self.taken.extend_from_slice(&bytes[..count]) {
            Ok(()) => TryWrite::Taken(count),
            Err(_) => TryWrite::Failed,
        }
    }

    fn end_direction(&mut self) {}
}
