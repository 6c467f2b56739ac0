//! A connection between a client and a server that is tapped: its bytes are passed on both ways, and told.

ghost use Rattle.std.specs.Prelude.{◌≡◌, ◌<◌, ◌≤◌, [], length, take, true, false, IfOk};
ghost use Rattle.ws_frame.specs.Devices.{watched};
ghost use Rattle.ws_frame.specs.Watching.{has_failed};
ghost use Rattle.ws_tap.specs.Tapping.{EndsNext, ExtendsTap, HasTapped, IsTapping, TellsNext, ends_wanted, is_tap_over};
ghost use Rattle.ws_tap.specs.Tapping.{first_end_of, pipe_from, room_from, waits_for, with_end_by, with_pipe};
ghost use Rattle.ws_tap.specs.Piping.{with_piece};
ghost use Rattle.ws_tap.specs.Told.{CameFrom, EndedTo, TakenBy};

use crate::pipe::Pipe;
use crate::portion::Portion;
use crate::tap_lines::TapLines;
use crate::tapped::Tapped;
use std::alloc::Global;
use std::io::Write;
use ws_base::NoMemory;
use ws_frame::{ShowFault, Watched, WriteFault};
use ws_wire::Role;

/// A tapped connection, as a machine with two sides: it is told what happened at either end, says what each is to be
/// asked for next, and tells its lines. What came from one end is to be written to the other, unchanged and in order.
/// It reads nothing itself, and waits for nothing. What it takes of memory at first it gives back once the server has
/// answered; later it takes some only where whole payloads are shown.
#[derive(Drop)]
pub struct Tap {
    /// From the client to the server.
    client: Pipe,
    /// From the server to the client.
    server: Pipe,
    lines: TapLines,
    /// The end that was first to end its direction.
    first: Option<Role>,
}

impl Tap {
    /// This connection, over which nothing has passed.
    pub fn new(alloc: Global, tapped: Tapped) -> Result<Tap, NoMemory>
        ensures begun { IfOk result (λ made. HasTapped tapped [] made []) }
    {
        let lines = TapLines::new(alloc, tapped)?;
        Ok(Tap {
            client: Pipe::new(alloc),
            server: Pipe::new(alloc),
            lines,
            first: None,
        })
    }

    /// How many bytes may be read from this end now, 0 where none may: an end is read once all that came from it was
    /// taken by the other.
    pub fn room(&self, role: Role) -> usize
        ensures room { result ≡ room_from role self.now }
    {
        match role {
            Role::Client => self.client.room(),
            Role::Server => self.server.room(),
        }
    }

    /// These bytes came from this end: the lines that they make certain are told. At an error the output has failed, or
    /// memory ran out, and a beginning of these lines was written.
    pub fn came<W: Write>(
        &mut self,
        alloc: Global,
        role: Role,
        output: &mut Watched<W>,
        piece: Portion,
    ) -> Result<(), ShowFault>
        requires some { 0 < length piece }
        requires fits { length piece ≤ room_from role self.old }
        requires tapping { IsTapping self.old }
        requires output_works { has_failed output.old ≡ false }
        ensures told { TellsNext (CameFrom role piece) self.old self.new
            (watched W.contents output.old output.new) result }
    {
        let told = self.lines.came(alloc, role, output, piece.as_slice());
        self.hold(role, piece);
        told
    }

    /// This end has ended its direction, where it may be read: a cut inside a frame is told. At an error the output has
    /// failed.
    pub fn ended<W: Write>(&mut self, role: Role, output: &mut Watched<W>) -> Result<(), WriteFault>
        requires room { 0 < room_from role self.old }
        requires tapping { IsTapping self.old }
        requires output_works { has_failed output.old ≡ false }
        ensures told { EndsNext role self.old self.new (watched W.contents output.old output.new) result }
    {
        self.end(role);
        self.lines.ended(role, output)
    }

    /// The bytes that are to be written to this end, or none.
    pub fn to_write(&self, role: Role) -> &[u8]
        ensures waits { result.now ≡ waits_for role self.now }
    {
        match role {
            Role::Client => self.server.held(),
            Role::Server => self.client.held(),
        }
    }

    /// This end took so many of the bytes that are to be written to it.
    pub fn taken(&mut self, role: Role, count: usize)
        requires held { count ≤ length (waits_for role self.old) }
        ensures told { ExtendsTap self.old self.new (TakenBy role (take count (waits_for role self.old))) }
    {
        match role {
            Role::Client => self.server.took(count),
            Role::Server => self.client.took(count),
        }
    }

    /// Whether the direction to this end is to be ended: all that came from the other was taken, and no more comes.
    pub fn wants_end(&self, role: Role) -> bool
        ensures wanted { result ≡ ends_wanted role self.now }
    {
        match role {
            Role::Client => self.server.wants_end(),
            Role::Server => self.client.wants_end(),
        }
    }

    /// The direction to this end was ended, where that was wanted.
    pub fn direction_ended(&mut self, role: Role)
        requires wanted { ends_wanted role self.old ≡ true }
        ensures told { ExtendsTap self.old self.new (EndedTo role) }
    {
        match role {
            Role::Client => self.server.direction_ended(),
            Role::Server => self.client.direction_ended(),
        }
    }

    /// The end that was first to end its direction, where one has.
    pub fn first_to_end(&self) -> Option<Role>
        ensures first { result ≡ self.now.first }
    {
        self.first
    }

    /// Whether nothing is left to be done: both directions were ended, behind all that came.
    pub fn is_over(&self) -> bool
        ensures over { result ≡ is_tap_over self.now }
    {
        self.client.is_passed() && self.server.is_passed()
    }

    /// Holds what came from this end.
    fn hold(&mut self, role: Role, piece: Portion)
        requires some { 0 < length piece }
        requires fits { length piece ≤ room_from role self.old }
        ensures held { self.new ≡ with_pipe role self.old (with_piece (pipe_from role self.old) piece) }
    {
        match role {
            Role::Client => self.client.came(piece),
            Role::Server => self.server.came(piece),
        }
    }

    /// The direction of this end has ended.
    fn end(&mut self, role: Role)
        ensures ended { self.new ≡ with_end_by role self.old }
    {
        self.first = first_end_of(self.first, role);
        match role {
            Role::Client => self.client.ended(),
            Role::Server => self.server.ended(),
        }
    }
}

/// The end that was first to end its direction: the one that is known, or else this one.
fn first_end_of(first: Option<Role>, role: Role) -> Option<Role>
    ensures { result ≡ first_end_of first role }
{
    match first {
        Some(known) => Some(known),
        None => Some(role),
    }
}
