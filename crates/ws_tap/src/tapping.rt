//! A tapped connection over the readers and writers of its ends, until both directions have ended.

ghost use Rattle.std.specs.Prelude.{◌≡◌, ◌≢◌, ◌<◌, IfOk, false, length, true};
ghost use Rattle.std.specs.Io.KnownBytes.{Keeps};
ghost use Rattle.ws_frame.specs.Devices.{watched};
ghost use Rattle.ws_frame.specs.Watching.{has_failed};
ghost use Rattle.ws_tap.specs.Tapping.{IsTapping, ends_wanted, room_from};
ghost use Rattle.ws_tap.specs.Told.{other_end};
ghost use Rattle.ws_tap.specs.Running.{EndsDirection, HalfClosesBoth, HasReadPortion, PassesOne, ReadsSome, TapsEnds};
ghost use Rattle.ws_tap.specs.Running.{TellsTap, WritesToEnd, device_bytes, run_devices};
ghost use Rattle.ws_tap.specs.declared.tapping.Passed.TheVariants.{On};

use crate::portion::{FEW, Portion};
use crate::tap::Tap;
use crate::tapped::Tapped;
use std::alloc::Global;
use std::io;
use std::io::{ErrorKind, Read, Write};
use ws_frame::{ShowFault, Watched};
use ws_wire::Role;

/// One read asks for at most so many bytes.
const READ: usize = 65536;

/// A writer to one end of a tapped connection, whose direction can be ended while the other one goes on.
pub trait TapWriter: Write {
    /// Its direction was ended: the end sees the end of its stream behind what was written.
    ghost is_ended: { Self → Type 0 };

    /// Ends its direction (a half-close).
    fn half_close(&mut self) -> io::Result<()>
        ensures kept { Keeps (Self.contents self.old) (Self.contents self.new) }
        ensures ended { IfOk result (λ done. Self.is_ended self.new) };
}

/// Waits until a tapped connection can go on.
pub trait Wakes {
    /// Waits until a reader or a writer of the connection may go on. False where that can't be waited for.
    fn wait(&mut self) -> bool;
}

/// The reader and the writer of one end of a tapped connection.
#[derive(Drop)]
pub struct TapSide<R, W> {
    pub reader: R,
    pub writer: W,
}

/// How a tapped connection ended.
#[derive(Clone, Copy, PartialEq, Eq)]
pub enum TapEnd {
    /// Both directions have ended, that of this end first.
    Ended(Role),
    /// A read, a write, a half-close or a wait failed, or there was no room to begin with.
    Broken,
}

/// What came of a step of a direction.
#[derive(Clone, Copy)]
pub(crate) enum Passed {
    /// It went on.
    On,
    /// Nothing can be done now.
    Waits,
    /// A read, a write or a half-close failed.
    Broken,
}

/// Passes bytes both ways, and tells of them, until both directions have ended or something fails. An end that takes no
/// bytes stops the reading from the other. At an error the output has failed, or memory ran out.
pub fn tap_ends<CR: Read, CW: TapWriter, SR: Read, SW: TapWriter, K: Wakes, W: Write>(
    alloc: Global,
    tapped: Tapped,
    client: &mut TapSide<CR, CW>,
    server: &mut TapSide<SR, SW>,
    wakes: &mut K,
    output: &mut Watched<W>,
) -> Result<TapEnd, ShowFault>
    requires output_works { has_failed output.old ≡ false }
    ensures taps { TapsEnds tapped (run_devices
        (device_bytes (CR.remaining client.old.reader) (CR.remaining client.new.reader))
        (device_bytes (CW.contents client.old.writer) (CW.contents client.new.writer))
        (device_bytes (SR.remaining server.old.reader) (SR.remaining server.new.reader))
        (device_bytes (SW.contents server.old.writer) (SW.contents server.new.writer))
        (watched W.contents output.old output.new)) (has_failed output.new) result }
    ensures tells { TellsTap tapped result (watched W.contents output.old output.new) }
    ensures half_closes { HalfClosesBoth (CW.is_ended client.new.writer) (SW.is_ended server.new.writer) result }
{
    let Ok(mut tap) = Tap::new(alloc, tapped) else {
        return Ok(TapEnd::Broken);
    };
    for _ in 0..u64::MAX {
        let sent = pass(
            alloc,
            &mut tap,
            Role::Client,
            &mut client.reader,
            &mut server.writer,
            output,
        )?;
        let got = pass(
            alloc,
            &mut tap,
            Role::Server,
            &mut server.reader,
            &mut client.writer,
            output,
        )?;
        if let (Some(role), true) = (tap.first_to_end(), tap.is_over()) {
            return Ok(TapEnd::Ended(role));
        }
        if !goes_on(sent, got, wakes) {
            return Ok(TapEnd::Broken);
        }
    }
    Ok(TapEnd::Broken)
}

/// Whether the connection goes on: at once where a direction went on, else once one may.
fn goes_on<K: Wakes>(client: Passed, server: Passed, wakes: &mut K) -> bool {
    match (client, server) {
        (Passed::Broken, _) | (_, Passed::Broken) => false,
        (Passed::Waits, Passed::Waits) => wakes.wait(),
        _ => true,
    }
}

/// One step of the direction of this end: what is to be written to the other is written before more is read.
fn pass<R: Read, W: TapWriter, O: Write>(
    alloc: Global,
    tap: &mut Tap,
    role: Role,
    from: &mut R,
    to: &mut W,
    output: &mut Watched<O>,
) -> Result<Passed, ShowFault>
    requires tapping { IsTapping tap.old }
    requires output_works { has_failed output.old ≡ false }
    ensures passes { PassesOne role tap.old tap.new
        (device_bytes (R.remaining from.old) (R.remaining from.new))
        (device_bytes (W.contents to.old) (W.contents to.new))
        (W.is_ended to.old) (W.is_ended to.new)
        (watched O.contents output.old output.new) result }
{
    let other = other_end(role);
    if !tap.to_write(other).is_empty() {
        return Ok(write_some(tap, other, to));
    }
    if tap.wants_end(other) {
        return Ok(end_direction(tap, other, to));
    }
    if tap.room(role) == 0 {
        return Ok(Passed::Waits);
    }
    read_some(alloc, tap, role, from, output)
}

/// The other end.
fn other_end(role: Role) -> Role
    ensures { result ≡ other_end role }
{
    match role {
        Role::Client => Role::Server,
        Role::Server => Role::Client,
    }
}

/// Writes once to this end what is to be written to it.
fn write_some<W: Write>(tap: &mut Tap, role: Role, to: &mut W) -> Passed
    ensures { WritesToEnd role tap.old tap.new (device_bytes (W.contents to.old) (W.contents to.new)) result }
{
    match to.write(tap.to_write(role)) {
        Ok(0) => Passed::Broken,
        Ok(count) => {
            tap.taken(role, count);
            Passed::On
        }
        Err(error) => after_error(&error),
    }
}

/// Ends the direction to this end.
fn end_direction<W: TapWriter>(tap: &mut Tap, role: Role, to: &mut W) -> Passed
    requires { ends_wanted role tap.old ≡ true }
    ensures { EndsDirection role tap.old tap.new (device_bytes (W.contents to.old) (W.contents to.new))
        (W.is_ended to.new) result }
{
    if to.half_close().is_err() {
        return Passed::Broken;
    }
    tap.direction_ended(role);
    Passed::On
}

/// Reads once from this end, and tells what came. A read that 64 bits may not count is not made.
fn read_some<R: Read, O: Write>(
    alloc: Global,
    tap: &mut Tap,
    role: Role,
    from: &mut R,
    output: &mut Watched<O>,
) -> Result<Passed, ShowFault>
    requires room { 0 < room_from role tap.old }
    requires tapping { IsTapping tap.old }
    requires output_works { has_failed output.old ≡ false }
    ensures { ReadsSome role tap.old tap.new (device_bytes (R.remaining from.old) (R.remaining from.new))
        (watched O.contents output.old output.new) result }
{
    if tap.room(role) < READ {
        return Ok(Passed::Broken);
    }
    match read_portion(alloc, from) {
        Ok(piece) => {
            if piece.len() == 0 {
                tap.ended(role, output)?;
            } else {
                tap.came(alloc, role, output, piece)?;
            }
            Ok(Passed::On)
        }
        Err(error) => Ok(after_error(&error)),
    }
}

/// Reads once: bytes, or none at the end. Where memory is short they are few.
fn read_portion<R: Read>(alloc: Global, from: &mut R) -> io::Result<Portion>
    ensures { HasReadPortion (device_bytes (R.remaining from.old) (R.remaining from.new)) result }
{
    match vec![in alloc; 0; READ] {
        Ok(room) => read_many(room, from),
        Err(_) => {
            let mut room = [0; FEW];
            let count = from.read(&mut room)?;
            Ok(Portion::few(alloc, &room[..count]))
        }
    }
}

/// Reads once into this room.
fn read_many<R: Read>(room: Vec<u8>, from: &mut R) -> io::Result<Portion>
    requires { length room.items ≡ 65536 }
    ensures { HasReadPortion (device_bytes (R.remaining from.old) (R.remaining from.new)) result }
{
    let mut room = room;
    let count = from.read(room.as_mut_slice())?;
    room.truncate(count);
    Ok(Portion::of(room))
}

/// What an error says of a step. One of the kind `WouldBlock` is no failure: nothing can be read or written yet.
fn after_error(error: &io::Error) -> Passed
    ensures { result ≢ On }
{
    match error.kind() {
        ErrorKind::WouldBlock => Passed::Waits,
        _ => Passed::Broken,
    }
}
