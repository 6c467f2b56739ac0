//! A fixed room for bytes that wait to be written.

ghost use Rattle.std.specs.Prelude.{◌≡◌, ◌≤◌, ◌+◌, [], ◌++◌, length, false, OnOk};
ghost use Rattle.ws_frame.specs.Devices.{watched};
ghost use Rattle.ws_frame.specs.Watching.{has_failed};
ghost use Rattle.ws_rooms.specs.Rooms.{WritesAndKeeps};

use std::io::Write;
use std::marker::Model;
use ws_frame::{Watched, WriteFault, write_whole};

/// How many bytes a room holds.
const ROOM: usize = 65536;

/// Bytes that wait to be written, in a fixed room: contracts see the list of them.
#[derive(Drop)]
pub struct Room {
    bytes: [u8; ROOM],
    len: usize,
}

impl Model for Room {
    ghost use Rattle.std.specs.Prelude.{List, ℕ, take, ◌≤◌};

    ghost Value = { List ℕ };

    ghost view = { λ room. take room.len room.bytes };

    ghost invariant = { λ room. room.len ≤ 65536 };
}

impl Room {
    /// An empty room.
    pub fn new() -> Room
        ensures { result ≡ [] }
    {
        Room {
            bytes: [0; ROOM],
            len: 0,
        }
    }

    /// How many bytes stand in it.
    fn len(&self) -> usize
        ensures count { result ≡ length self.now }
        ensures bound { result ≤ 65536 }
    {
        self.len
    }

    /// The bytes that stand in it.
    fn as_slice(&self) -> &[u8]
        ensures { result.now ≡ self.now }
    {
        &self.bytes[..self.len]
    }

    /// Takes everything out of it.
    fn clear(&mut self)
        ensures { self.new ≡ [] }
    {
        self.len = 0;
    }

    /// Puts bytes behind those that stand in it.
    #[inline(always)]
    fn push(&mut self, bytes: &[u8])
        requires { length self.old + length bytes.now ≤ 65536 }
        ensures { self.new ≡ self.old ++ bytes.now }
    {
        let end = self.len + bytes.len();
        self.bytes[self.len..end].copy_from_slice(bytes);
        self.len = end;
    }
}

/// Puts bytes behind those that wait, which are written first where there is no room for more.
#[inline(always)]
pub fn put<W: Write>(
    room: &mut Room,
    bytes: &[u8],
    writer: &mut Watched<W>,
) -> Result<(), WriteFault>
    requires { has_failed writer.old ≡ false }
    ensures { WritesAndKeeps (room.old ++ bytes.now) room.new (watched W.contents writer.old writer.new) result }
{
    if bytes.len() <= ROOM - room.len() {
        room.push(bytes);
        return Ok(());
    }
    put_behind(room, bytes, writer)
}

/// Writes those that wait, and puts bytes behind them. What no room holds is written too.
fn put_behind<W: Write>(
    room: &mut Room,
    bytes: &[u8],
    writer: &mut Watched<W>,
) -> Result<(), WriteFault>
    requires { has_failed writer.old ≡ false }
    ensures { WritesAndKeeps (room.old ++ bytes.now) room.new (watched W.contents writer.old writer.new) result }
{
    flush(room, writer)?;
    if bytes.len() <= ROOM {
        room.push(bytes);
        return Ok(());
    }
    write_whole(writer, bytes)
}

/// Writes the bytes that wait.
pub fn flush<W: Write>(room: &mut Room, writer: &mut Watched<W>) -> Result<(), WriteFault>
    requires { has_failed writer.old ≡ false }
    ensures written { WritesAndKeeps room.old room.new (watched W.contents writer.old writer.new) result }
    ensures empty { OnOk result (room.new ≡ []) }
{
    write_whole(writer, room.as_slice())?;
    room.clear();
    Ok(())
}
