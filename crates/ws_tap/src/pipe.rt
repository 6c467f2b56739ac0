//! Bytes on their way from one end of a tapped connection to the other.

ghost use Rattle.std.specs.Prelude.{◌≡◌, ◌<◌, ◌≤◌, length};
ghost use Rattle.ws_tap.specs.Piping.{PipeValue};
ghost use Rattle.ws_tap.specs.Piping.{has_ended, is_passed, new_pipe, room_in, wants_end_of, with_direction_ended};
ghost use Rattle.ws_tap.specs.Piping.{with_end_come, with_piece, with_bytes_taken};

use crate::portion::Portion;
use std::alloc::Global;
use std::marker::Model;

/// How many bytes may come at a time.
const PIPE: usize = 65536;

/// Bytes that came from one end and are to be written to the other. It takes more only where it is empty, so an end
/// that takes no bytes stops the reading from the other. Where it is empty it has no memory.
#[derive(Drop)]
pub(crate) struct Pipe {
    alloc: Global,
    /// The bytes that came last, or none once all of them were taken.
    came: Portion,
    /// How many of them were taken by the other end.
    taken: usize,
    /// How many bytes came in all.
    total: u64,
    stage: PipeStage,
}

/// How far a direction has come.
#[derive(Clone, Copy)]
pub(crate) enum PipeStage {
    /// More may come.
    Open,
    /// The end that sends has ended its direction, and the other is to be told.
    Ended,
    /// It was told.
    Passed,
}

impl Model for Pipe {
    ghost use Rattle.std.specs.Prelude.{drop, length, ◌≤◌};
    ghost use Rattle.ws_tap.specs.Piping.{PipeValue};

    ghost Value = { PipeValue };

    ghost view = { λ pipe. record {
      held = drop pipe.taken pipe.came;
      total = pipe.total;
      stage = pipe.stage;
    } };

    ghost invariant = { λ pipe. (length pipe.came ≤ 65536) × (pipe.taken ≤ length pipe.came) };
}

impl Pipe {
    /// Nothing has come yet.
    pub(crate) fn new(alloc: Global) -> Pipe
        ensures { result ≡ new_pipe }
    {
        Pipe {
            alloc,
            came: Portion::none(alloc),
            taken: 0,
            total: 0,
            stage: PipeStage::Open,
        }
    }

    /// How many bytes may come now, 0 where none may.
    pub(crate) fn room(&self) -> usize
        ensures room { result ≡ room_in self.now }
    {
        if self.taken < self.came.len() {
            return 0;
        }
        match self.stage {
            PipeStage::Open => (u64::MAX - self.total).min(PIPE as u64) as usize,
            PipeStage::Ended | PipeStage::Passed => 0,
        }
    }

    /// These bytes came.
    pub(crate) fn came(&mut self, piece: Portion)
        requires some { 0 < length piece }
        requires fits { length piece ≤ room_in self.old }
        ensures came { self.new ≡ with_piece self.old piece }
    {
        self.total += piece.len() as u64;
        self.taken = 0;
        self.came = piece;
    }

    /// The end that sends has ended its direction.
    pub(crate) fn ended(&mut self)
        ensures ended { self.new ≡ with_end_come self.old }
    {
        self.stage = PipeStage::Ended;
    }

    /// The bytes that are to be written to the other end.
    pub(crate) fn held(&self) -> &[u8]
        ensures held { result.now ≡ self.now.held }
    {
        &self.came.as_slice()[self.taken..]
    }

    /// The other end took so many of them. Behind the last one their memory is given back.
    pub(crate) fn took(&mut self, count: usize)
        requires held { count ≤ length self.old.held }
        ensures taken { self.new ≡ with_bytes_taken self.old count }
    {
        self.taken += count;
        if self.taken == self.came.len() {
            self.taken = 0;
            self.came = Portion::none(self.alloc);
        }
    }

    /// Whether the direction to the other end is to be ended: all that came was taken, and nothing more comes.
    pub(crate) fn wants_end(&self) -> bool
        ensures wanted { result ≡ wants_end_of self.now }
    {
        if self.taken < self.came.len() {
            return false;
        }
        match self.stage {
            PipeStage::Ended => true,
            PipeStage::Open | PipeStage::Passed => false,
        }
    }

    /// The direction to the other end was ended.
    pub(crate) fn direction_ended(&mut self)
        ensures ended { self.new ≡ with_direction_ended self.old }
    {
        self.stage = PipeStage::Passed;
    }

    /// Whether the end that sends has ended its direction.
    pub(crate) fn has_ended(&self) -> bool
        ensures ended { result ≡ has_ended self.now.stage }
    {
        match self.stage {
            PipeStage::Open => false,
            PipeStage::Ended | PipeStage::Passed => true,
        }
    }

    /// Whether that was passed on, behind all that came.
    pub(crate) fn is_passed(&self) -> bool
        ensures passed { result ≡ is_passed self.now.stage }
    {
        match self.stage {
            PipeStage::Passed => true,
            PipeStage::Open | PipeStage::Ended => false,
        }
    }
}
