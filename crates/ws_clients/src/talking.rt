//! What goes on with a client, as one machine: its request is read and answered, something is played to it, or it is
//! left. What comes of each is taken out of it.

ghost use Rattle.std.specs.Prelude.{◌≡◌};

use crate::leaving::Leaver;
use ws_base::NoMemory;
use ws_handshake::AdmitMachine;
use ws_machines::{Machine, StreamEvent};

/// What goes on with a client.
#[derive(Drop)]
pub enum Talk<'a, M> {
    /// Its request is read and answered.
    Admits(AdmitMachine<'a>),
    /// This is played to it.
    Plays(M),
    /// It is left.
    Leaves(Leaver),
}

impl<M: Machine + Drop> Machine for Talk<'_, M> {
    ghost use Rattle.std.specs.Prelude.{⊤};
    ghost use Rattle.ws_clients.specs.Talks.{agrees_talk, left_talk, wants_talk};

    type End = ();

    ghost agrees = { agrees_talk M.agrees };

    ghost wants = { wants_talk M.wants };

    ghost left = { left_talk M.left };

    ghost gives = { λ start told end. ⊤ };

    fn to_write(&self) -> &[u8] {
        match self {
            Talk::Admits(machine) => machine.to_write(),
            Talk::Plays(machine) => machine.to_write(),
            Talk::Leaves(machine) => machine.to_write(),
        }
    }

    fn to_report(&self) -> &[u8] {
        match self {
            Talk::Admits(machine) => machine.to_report(),
            Talk::Plays(machine) => machine.to_report(),
            Talk::Leaves(machine) => machine.to_report(),
        }
    }

    fn room(&self) -> usize {
        match self {
            Talk::Admits(machine) => machine.room(),
            Talk::Plays(machine) => machine.room(),
            Talk::Leaves(machine) => machine.room(),
        }
    }

    fn wants_end(&self) -> bool {
        match self {
            Talk::Admits(machine) => machine.wants_end(),
            Talk::Plays(machine) => machine.wants_end(),
            Talk::Leaves(machine) => machine.wants_end(),
        }
    }

    fn waits_anew(&self) -> bool {
        match self {
            Talk::Admits(machine) => machine.waits_anew(),
            Talk::Plays(machine) => machine.waits_anew(),
            Talk::Leaves(machine) => machine.waits_anew(),
        }
    }

    fn is_done(&self) -> bool {
        match self {
            Talk::Admits(machine) => machine.is_done(),
            Talk::Plays(machine) => machine.is_done(),
            Talk::Leaves(machine) => machine.is_done(),
        }
    }

    fn on_event(&mut self, event: StreamEvent<'_>) -> Result<(), NoMemory> {
        match self {
            Talk::Admits(machine) => machine.on_event(event)?,
            Talk::Plays(machine) => machine.on_event(event)?,
            Talk::Leaves(machine) => machine.on_event(event)?,
        }
        Ok(())
    }

    fn into_end(self) -> Result<(), NoMemory> {
        Ok(())
    }
}
