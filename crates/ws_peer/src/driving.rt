//! An echo over a reader and a writer (RFC 6455 sections 5.5, 5.6 and 7.1).

ghost use Rattle.std.specs.Prelude.{◌≡◌, List, ℕ, [], false};
ghost use Rattle.ws_frame.specs.Devices.{watched};
ghost use Rattle.ws_frame.specs.Watching.{has_failed};
ghost use Rattle.ws_session.specs.Exchange.{HasExchanged};
ghost use Rattle.ws_echo.specs.Echoes.{DriveCall};
ghost use Rattle.ws_peer.specs.Driving.{Drives, IsFairDriveEnd};
ghost use Rattle.ws_peer.specs.InnerSteps.{AnswersPiece, IsEchoOfCall, end_of_stop};

use std::alloc::Global;
use std::io::{Read, Write};
use ws_echo::echo_laws;
use ws_frame::{READ_SIZE, Watched, write_whole};
use ws_session::{Echo, Status};

/// How a run of `drive` ended.
#[derive(Clone, Copy, PartialEq, Eq)]
pub enum DriveEnd {
    /// The session is over, by the peer's close or by a fault; or the reader is at its end, and then the session is
    /// `Lost`. All that is due was written.
    Done(Status),
    /// A read answered an error. All that is due for what was read was written.
    ReadFault,
    /// A write answered an error or took nothing.
    WriteFault,
    /// As many bytes as the budget allows were read, and the session goes on. All that is due was written.
    Budget,
    /// Memory ran out.
    NoMemory,
}

/// Why nothing more is answered.
#[derive(Clone, Copy)]
enum Stop {
    WriteFault,
    NoMemory,
}

impl Stop {
    /// How the run ends for it.
    fn end(self) -> DriveEnd
        ensures { result ≡ end_of_stop self }
    {
        match self {
            Stop::WriteFault => DriveEnd::WriteFault,
            Stop::NoMemory => DriveEnd::NoMemory,
        }
    }
}

/// Feeds `first` to a new echo and writes its replies, then what the reader gives, read by read: at most `budget`
/// bytes, at most `READ_SIZE` a read. The replies to a read are written before the next read, in one write where the
/// writer takes them so. `first` is not counted. `key` masks what a client sends.
///
/// Once the session is over nothing more is read, and a budget that is used up then is not told. At `WriteFault` and at
/// `NoMemory` a beginning of what was due is written: at least the replies to all but at most the last `READ_SIZE`
/// bytes. The room for the replies to a read is kept for the next one.
pub fn drive<R: Read, W: Write>(
    alloc: Global,
    first: &[u8],
    reader: &mut Watched<R>,
    writer: &mut Watched<W>,
    echo: &mut Echo,
    key: [u8; 4],
    budget: u64,
) -> DriveEnd
    requires reader_works { has_failed reader.old ≡ false }
    requires writer_works { has_failed writer.old ≡ false }
    requires new { HasExchanged echo.old [] [] false }
    ensures driven { Drives (record {
      role = echo.old.role;
      limits = echo.old.limits;
      key = key;
      first = first.now;
      budget = budget;
    }) result echo.new
        (watched R.remaining reader.old reader.new) (watched W.contents writer.old writer.new) }
    ensures fair { IsFairDriveEnd result
        (watched R.remaining reader.old reader.new) (watched W.contents writer.old writer.new) }
{
    echo_laws();
    // It is kept for the next read: given back, it would often be the top of the heap, which the system would take and
    // have to bring again.
    let mut replies = Vec::new(alloc);
    if let Err(stop) = answer(&mut replies, first, writer, echo, key) {
        return stop.end();
    }
    let mut room = [0; READ_SIZE];
    let mut left = budget;
    'reads: while !echo.status().is_over() {
        if left == 0 {
            return DriveEnd::Budget;
        }
        let want = left.min(READ_SIZE as u64) as usize;
        let buf = &mut room[..want];
        match reader.read(buf) {
            Err(_) => return DriveEnd::ReadFault,
            Ok(0) => {
                echo.end();
                return DriveEnd::Done(echo.status());
            }
            Ok(count) => {
                if let Err(stop) = answer(&mut replies, &buf[..count], writer, echo, key) {
                    return stop.end();
                }
                left -= count as u64;
            }
        }
    }
    DriveEnd::Done(echo.status())
}

/// Feeds a piece to an echo, and writes what it replies. Nothing of it is written where memory ran out.
fn answer<W: Write>(
    replies: &mut Vec<u8>,
    piece: &[u8],
    writer: &mut Watched<W>,
    echo: &mut Echo,
    key: [u8; 4],
) -> Result<(), Stop>
    requires { has_failed writer.old ≡ false }
    ensures { (call : DriveCall) (bytes put : List ℕ) → call.key ≡ key → IsEchoOfCall call bytes put echo.old →
        AnswersPiece call bytes put piece.now echo.new (watched W.contents writer.old writer.new) result }
{
    echo_laws();
    replies.clear();
    match echo.pass(piece, key, replies) {
        Err(_) => Err(Stop::NoMemory),
        Ok(()) => match write_whole(writer, replies.as_slice()) {
            Ok(()) => Ok(()),
            Err(_) => Err(Stop::WriteFault),
        },
    }
}
