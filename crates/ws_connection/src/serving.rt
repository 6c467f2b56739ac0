//! One connection of a server: the opening handshake, and then an echo (RFC 6455 sections 4.2 and 5 to 7).

ghost use Rattle.std.specs.Prelude.{◌≡◌, Some, false, map};
ghost use Rattle.ws_frame.specs.Devices.{watched};
ghost use Rattle.ws_frame.specs.Watching.{has_failed};
ghost use Rattle.ws_upgrade.specs.Protocols.{AreOffers};
ghost use Rattle.ws_handshake.specs.Requests.{DecidesRequest};
ghost use Rattle.ws_connection.specs.Serving.{AnswersAccepted, AnswersRefused, Serves, ServesDecision};
ghost use Rattle.ws_connection.specs.Serving.{served_by, served_words};

use crate::reading_head::{HeadEnd, HeadRoom, read_head};
use std::alloc::Global;
use std::fmt;
use std::io::{Read, Write};
use ws_base::NoMemory;
use ws_frame::{Watched, write_whole};
use ws_handshake::{RequestDecision, RequestHead};
use ws_peer::{DriveEnd, drive};
use ws_session::{Echo, Limits, Status};
use ws_upgrade::{HeadFault, Offers, refusal, response_of};
use ws_wire::{NO_KEY, Role};

/// How a connection that was served ended.
#[derive(Clone, Copy, PartialEq, Eq)]
pub enum Served {
    /// The head was accepted, and the session ended so.
    Ended(Status),
    /// The head was refused.
    Refused(HeadFault),
    /// Reading, writing, the budget or memory ended it, or the stream did inside the head.
    Stopped,
}

/// How it ended, in words.
impl fmt::Display for Served {
    ghost output = { λ served. Some (served_words served) };

    fn fmt<W: fmt::Write>(&self, f: &mut fmt::Formatter<W>) -> fmt::Result {
        match *self {
            Served::Ended(status) => write!(f, "{status}"),
            Served::Refused(fault) => write!(f, "refused {fault}"),
            Served::Stopped => write!(f, "stopped"),
        }
    }
}

/// What bounds the session of a connection.
#[derive(Clone, Copy)]
struct Bounds {
    /// The limits of the session.
    limits: Limits,
    /// At most so many bytes are read behind the head.
    budget: u64,
}

/// Serves a connection: reads the head of a request, at most 8192 bytes, and writes the response, or the refusal and no
/// more. The response names the first subprotocol that the request offers and that is known. After a response each
/// message is sent back, until the session is over or the reader is at its end. At most `budget` bytes are read then;
/// neither the head nor what came with it is counted.
pub fn serve_one<R: Read, W: Write>(
    alloc: Global,
    reader: &mut Watched<R>,
    writer: &mut Watched<W>,
    limits: Limits,
    budget: u64,
    protocols: &[&[u8]],
) -> Served
    requires reader_works { has_failed reader.old ≡ false }
    requires writer_works { has_failed writer.old ≡ false }
    requires known { AreOffers (map (λ name. name.now) protocols.now) }
    ensures { Serves limits budget (map (λ name. name.now) protocols.now) result
        (watched R.remaining reader.old reader.new) (watched W.contents writer.old writer.new) }
{
    let bounds = Bounds { limits, budget };
    let mut room = HeadRoom::new();
    match read_head(reader, &mut room, &RequestHead { known: protocols }) {
        HeadEnd::Decided(decision) => answer(
            alloc,
            protocols,
            decision,
            room.as_slice(),
            reader,
            writer,
            bounds,
        ),
        HeadEnd::Cut | HeadEnd::ReadFault => Served::Stopped,
    }
}

/// Answers the head at the front of what was read. What came behind a head that is accepted is fed to the echo first.
fn answer<R: Read, W: Write>(
    alloc: Global,
    known: &[&[u8]],
    decision: RequestDecision,
    head: &[u8],
    reader: &mut Watched<R>,
    writer: &mut Watched<W>,
    bounds: Bounds,
) -> Served
    requires reader_works { has_failed reader.old ≡ false }
    requires writer_works { has_failed writer.old ≡ false }
    requires known { AreOffers (map (λ name. name.now) known.now) }
    requires decides { DecidesRequest (map (λ name. name.now) known.now) head.now decision }
    ensures { ServesDecision bounds.limits bounds.budget (map (λ name. name.now) known.now) decision head.now result
        (watched R.remaining reader.old reader.new) (watched W.contents writer.old writer.new) }
{
    match decision {
        RequestDecision::Accepted {
            accept,
            protocol,
            used,
        } => match response_of(alloc, &accept, Offers::proved(known).chosen(protocol)) {
            Ok(response) => {
                let (response, first) = (response.as_slice(), &head[used..]);
                answer_accepted(alloc, response, first, reader, writer, bounds)
            }
            Err(NoMemory) => Served::Stopped,
        },
        RequestDecision::Refused(fault) => answer_refused(fault, writer),
    }
}

/// Writes a response, and drives an echo, which is fed some bytes first.
fn answer_accepted<R: Read, W: Write>(
    alloc: Global,
    response: &[u8],
    first: &[u8],
    reader: &mut Watched<R>,
    writer: &mut Watched<W>,
    bounds: Bounds,
) -> Served
    requires reader_works { has_failed reader.old ≡ false }
    requires writer_works { has_failed writer.old ≡ false }
    ensures { AnswersAccepted bounds.limits bounds.budget response.now first.now result
        (watched R.remaining reader.old reader.new) (watched W.contents writer.old writer.new) }
{
    match write_whole(writer, response) {
        Ok(()) => {
            let mut echo = Echo::new(alloc, bounds.limits, Role::Server);
            let budget = bounds.budget;
            let end = drive(alloc, first, reader, writer, &mut echo, NO_KEY, budget);
            served_by(end)
        }
        Err(_) => Served::Stopped,
    }
}

/// How a connection ended whose echo was driven to this end.
fn served_by(end: DriveEnd) -> Served
    ensures { result ≡ served_by end }
{
    match end {
        DriveEnd::Done(status) => Served::Ended(status),
        DriveEnd::ReadFault | DriveEnd::WriteFault | DriveEnd::Budget | DriveEnd::NoMemory => {
            Served::Stopped
        }
    }
}

/// Writes the refusal of a head.
fn answer_refused<W: Write>(fault: HeadFault, writer: &mut Watched<W>) -> Served
    requires { has_failed writer.old ≡ false }
    ensures { AnswersRefused fault result (watched W.contents writer.old writer.new) }
{
    match write_whole(writer, refusal(fault)) {
        Ok(()) => Served::Refused(fault),
        Err(_) => Served::Stopped,
    }
}
