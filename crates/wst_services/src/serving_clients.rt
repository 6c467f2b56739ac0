//! Clients that are served over the network, and the line before theirs (docs/FORMATS.md).

ghost use Rattle.std.specs.Prelude.{◌≡◌, [], IfOk, MatchResult, false};
ghost use Rattle.ws_frame.specs.Devices.{watched};
ghost use Rattle.ws_frame.specs.Watching.{has_failed};
ghost use Rattle.ws_serving.specs.ClientEnds.{known_to};
ghost use Rattle.ws_upgrade.specs.Protocols.{AreOffers};
ghost use Rattle.wst_commands.specs.Devices.{Delivers};
ghost use Rattle.wst_services.specs.Serve.{AsksNobody, GaveClients, IsServedOver, IsServiceOf, ServesClients, exit_as};
ghost use Rattle.wst_services.specs.Serve.{listening_line};
ghost use Rattle.wst_commands.specs.declared.exit.Exit.TheVariants.{Done};
ghost use Rattle.wst_commands.specs.declared.fault.Fault.TheVariants as variant;

use crate::serve::ServePlan;
use crate::served_lines::{LineFault, ServedLines};
use std::alloc::Global;
use std::io::Write;
use ws_base::NoMemory;
use ws_frame::{Watched, WriteFault, write_whole};
use ws_loops::{Listener, LoopFault, Poller};
use ws_networks::Limits;
use ws_serving::{Service, ServingEnd, serve_clients};
use wst_commands::{Exit, Fault};

/// Serves the clients of a listener as a plan asks, and tells in a line how the connection of each has ended, as soon
/// as it has: its stream was ended from this side by then, so that it waits for no reader of a line. That no client can
/// be taken for now is told to `faults`, once. A line that can't be written or flushed ends that, and so does it where
/// no client can come any more.
pub fn serve_over<L: Listener + Drop, P: Poller + Drop, W: Write, F: Write>(
    alloc: Global,
    plan: &ServePlan<'_>,
    listener: L,
    poller: P,
    writer: &mut Watched<W>,
    faults: &mut Watched<F>,
) -> Result<Exit, Fault>
    requires works { has_failed writer.old ≡ false }
    ensures { ServesClients (GaveClients L.did listener) (IsServedOver L.Client.did plan.now) plan.now [] result
        (watched W.contents writer.old writer.new) (watched F.contents faults.old faults.new) }
{
    if asks_nobody(plan.count) {
        return Ok(Exit::Done);
    }
    let service = service_of(plan);
    let mut lines = ServedLines::new(alloc, writer, faults);
    let end = serve_clients(alloc, &service, listener, poller, &mut lines)?;
    exit_of(end)
}

/// What a plan asks for, as clients are to be served.
fn service_of<'a>(plan: &'a ServePlan<'_>) -> Service<'a>
    ensures is { IsServiceOf plan.now result }
    ensures offers { AreOffers (known_to result) }
{
    Service {
        protocols: plan.protocols.as_slice(),
        limits: plan.limits,
        budget: plan.budget,
        times: Limits {
            limit: plan.timeout.milliseconds(),
            deadline: plan.deadline.milliseconds(),
        },
        at_once: plan.at_once as usize,
        count: wide(plan.count),
    }
}

/// Whether nobody is to be served.
fn asks_nobody(count: Option<u32>) -> bool
    ensures { AsksNobody count result }
{
    match count {
        Some(count) => count == 0,
        None => false,
    }
}

/// A count, if there is one, in 64 bits.
fn wide(count: Option<u32>) -> Option<u64>
    ensures { result ≡ count }
{
    match count {
        Some(count) => Some(u64::from(count)),
        None => None,
    }
}

/// The exit of a server whose serving has ended so.
fn exit_of(end: ServingEnd<LineFault>) -> Result<Exit, Fault>
    ensures { result ≡ exit_as end }
{
    match end {
        ServingEnd::Done => Ok(Exit::Done),
        ServingEnd::Stopped(LoopFault::NoMemory) | ServingEnd::Refused(LineFault::NoMemory) => {
            Err(Fault::NoMemory)
        }
        ServingEnd::Deaf
        | ServingEnd::Stopped(LoopFault::WaitFailed | LoopFault::NoOutput)
        | ServingEnd::Refused(LineFault::Output) => Ok(Exit::Failed),
    }
}

/// Tells in a line, which is flushed, that connections to this address are taken.
pub fn tell_listening<W: Write>(
    alloc: Global,
    address: &[u8],
    writer: &mut Watched<W>,
) -> Result<Exit, Fault>
    requires { has_failed writer.old ≡ false }
    ensures { MatchResult result
        (λ exit. Delivers Done (listening_line address.now) exit (watched W.contents writer.old writer.new))
        (λ fault. (fault ≡ variant.NoMemory) × (writer.new ≡ writer.old)) }
{
    let line = listening_line(alloc, address)?;
    Ok(deliver_line(line.as_slice(), writer))
}

/// The line that tells it.
pub fn listening_line(alloc: Global, address: &[u8]) -> Result<Vec<u8>, NoMemory>
    ensures { IfOk result (λ line. line.items ≡ listening_line address.now) }
{
    let mut line = Vec::new(alloc);
    line.extend_from_slice(b"listening on ")?;
    line.extend_from_slice(address)?;
    line.push(b'\n')?;
    Ok(line)
}

/// Writes a line and flushes it. `Done` where both succeed.
pub(crate) fn deliver_line<W: Write>(line: &[u8], writer: &mut Watched<W>) -> Exit
    requires { has_failed writer.old ≡ false }
    ensures { Delivers Done line.now result (watched W.contents writer.old writer.new) }
{
    match write_whole(writer, line) {
        Ok(()) => match writer.flush() {
            Ok(()) => Exit::Done,
            Err(_) => Exit::Failed,
        },
        Err(WriteFault) => Exit::Failed,
    }
}
