//! One of two machines, as one machine.

ghost use Rattle.std.specs.Prelude.{◌≡◌};

use crate::machine::Machine;
use crate::stream::StreamEvent;
use ws_base::NoMemory;

/// A machine of one kind, or of the other.
#[derive(Drop)]
pub enum Either<A, B> {
    Left(A),
    Right(B),
}

impl<A: Machine, B: Machine<End = A::End>> Machine for Either<A, B> {
    ghost use Rattle.std.specs.Prelude.{◌≡◌};
    ghost use Rattle.ws_machines.specs.Eithers.{agrees_either, gives_either, left_either, wants_either};

    type End = A::End;

    ghost agrees = { agrees_either A.agrees B.agrees };

    ghost wants = { wants_either A.wants B.wants };

    ghost left = { left_either A.left B.left };

    ghost gives = { gives_either A.gives B.gives };

    fn to_write(&self) -> &[u8] {
        match self {
            Either::Left(machine) => machine.to_write(),
            Either::Right(machine) => machine.to_write(),
        }
    }

    fn to_report(&self) -> &[u8] {
        match self {
            Either::Left(machine) => machine.to_report(),
            Either::Right(machine) => machine.to_report(),
        }
    }

    fn room(&self) -> usize {
        match self {
            Either::Left(machine) => machine.room(),
            Either::Right(machine) => machine.room(),
        }
    }

    fn wants_end(&self) -> bool {
        match self {
            Either::Left(machine) => machine.wants_end(),
            Either::Right(machine) => machine.wants_end(),
        }
    }

    fn waits_anew(&self) -> bool {
        match self {
            Either::Left(machine) => machine.waits_anew(),
            Either::Right(machine) => machine.waits_anew(),
        }
    }

    fn is_done(&self) -> bool {
        match self {
            Either::Left(machine) => machine.is_done(),
            Either::Right(machine) => machine.is_done(),
        }
    }

    fn on_event(&mut self, event: StreamEvent<'_>) -> Result<(), NoMemory> {
        match self {
            Either::Left(machine) => machine.on_event(event)?,
            Either::Right(machine) => machine.on_event(event)?,
        }
        Ok(())
    }

    fn into_end(self) -> Result<A::End, NoMemory> {
        match self {
            Either::Left(machine) => machine.into_end(),
            Either::Right(machine) => machine.into_end(),
        }
    }
}
