//! Reading the head of an opening handshake from a stream (RFC 6455 section 4), no further than it takes.

ghost use Rattle.std.specs.Prelude.{◌≡◌, ◌≤◌, ◌<◌, ◌||◌, [], length, false, is_err};
ghost use Rattle.ws_frame.specs.Devices.{watched};
ghost use Rattle.ws_frame.specs.Watching.{has_failed};
ghost use Rattle.ws_upgrade.specs.Reading.{max_head};
ghost use Rattle.ws_connection.specs.ReadingHeads.{ReadsHead, ReadsMore};

use std::io;
use std::io::Read;
use ws_base::ShortBytes;
use ws_frame::Watched;
use ws_handshake::{HEAD_READ_SIZE, HeadDecider};
use ws_upgrade::MAX_HEAD;

/// Room for the bytes that are read for a head, at most 8192, kept in place.
pub type HeadRoom = ShortBytes<MAX_HEAD>;

/// How the reading of a head ended.
#[derive(Clone, Copy)]
pub enum HeadEnd<D> {
    /// What was read decides so.
    Decided(D),
    /// The reader is at its end inside a head, or gave nothing.
    Cut,
    /// A read answered an error.
    ReadFault,
}

/// Reads until a head is decided, or to the reader's end, at most 8192 bytes. `room` keeps what was read,
/// in place of what it kept before. Once a head is decided nothing more is read; of what follows it at
/// most what came with the last read, of 1024 bytes, is in `room`.
pub fn read_head<R: Read, D: HeadDecider>(
    reader: &mut Watched<R>,
    room: &mut HeadRoom,
    decider: &D,
) -> HeadEnd<D::Decision>
    requires reader_works { has_failed reader.old ≡ false }
    ensures { ReadsHead (D.needs decider.now) (D.decides decider.now) result room.new
        (watched R.remaining reader.old reader.new) }
{
    forget(room);
    loop {
        if let Some(decision) = decider.decide(room.as_slice()) {
            return HeadEnd::Decided(decision);
        }
        match read_more(room, reader) {
            Ok(0) => return HeadEnd::Cut,
            Ok(_) => {}
            Err(_) => return HeadEnd::ReadFault,
        }
    }
}

/// Lets go of what the room kept before.
fn forget(room: &mut HeadRoom)
    ensures { room.new ≡ [] }
{
    if room.len() > 0 {
        *room = HeadRoom::new();
    }
}

/// Reads once, at most 1024 bytes, and keeps them after the others. Answers how many they are.
fn read_more<R: Read>(room: &mut HeadRoom, reader: &mut Watched<R>) -> io::Result<usize>
    requires { length room.old < max_head }
    ensures bytes { ReadsMore room.old room.new result (watched R.remaining reader.old reader.new) }
    ensures bound { length room.new ≤ max_head }
    ensures failed { has_failed reader.new ≡ (has_failed reader.old || is_err result) }
{
    let mut piece = [0; HEAD_READ_SIZE];
    let most = HEAD_READ_SIZE.min(MAX_HEAD - room.len());
    let count = reader.read(&mut piece[..most])?;
    room.push(&piece[..count]);
    Ok(count)
}
