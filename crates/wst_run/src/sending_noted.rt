//! A run of `send` whose lines stand behind the time, or behind the lines of the heads.

ghost use Rattle.std.specs.Prelude.{◌≡◌, false, true};
ghost use Rattle.ws_frame.specs.Devices.{watched};
ghost use Rattle.ws_frame.specs.Watching.{has_failed};
ghost use Rattle.wst_commands.specs.Devices.{StaysFailed};
ghost use Rattle.wst_run.specs.SendNoted.{EndsRunAs, EndsNoted, SendsBehind, SendsPlanned};

use crate::send::{SendPlan, send_to_target};
use crate::site::Site;
use std::alloc::Global;
use std::io;
use std::io::{Read, Write};
use std::time::Clock;
use ws_frame::Watched;
use wst_commands::{Exit, Fault, tell_fault};
use wst_network::Connector;
use wst_noted::{ConnectionNotes, HeadWriter, NotedConnector, TimedWriter};
use wst_sockets::Network;

/// Runs the script that comes in over the end that a plan names, with the times and the heads that it asks for, and
/// tells how that ended.
pub(crate) fn send_planned<'x, N: Network, C: Connector, R: Read, W: Write, F: Write>(
    site: Site<'x, 'x, N, C>,
    plan: &SendPlan<'_>,
    reader: &mut Watched<R>,
    writer: &mut Watched<W>,
    faults: &mut Watched<F>,
) -> Exit
    requires reader_works { has_failed reader.old ≡ false }
    requires writer_works { has_failed writer.old ≡ false }
    ensures { SendsPlanned plan.now result (watched R.remaining reader.old reader.new)
        (watched W.contents writer.old writer.new) (watched F.contents faults.old faults.new) }
{
    if !plan.is_noted() {
        return send_to_target(site, plan, reader, writer, faults);
    }
    let notes = ConnectionNotes::new(site.alloc, site.net, plan.time, plan.heads);
    let connector = NotedConnector::of(site.connector, &notes);
    let noted = Site {
        alloc: site.alloc,
        net: site.net,
        connector: &connector,
    };
    let exit = run_noted(noted, &notes, plan, reader, writer, faults);
    end_noted(site.alloc, &notes, exit, faults)
}

/// Runs it over a network of which it is noted what passes.
fn run_noted<N: Network, C: Connector, R: Read, W: Write, F: Write>(
    site: Site<'_, '_, N, C>,
    notes: &ConnectionNotes<'_, N>,
    plan: &SendPlan<'_>,
    reader: &mut Watched<R>,
    writer: &mut Watched<W>,
    faults: &mut Watched<F>,
) -> Exit
    requires reader_works { has_failed reader.old ≡ false }
    ensures { SendsBehind plan.now.time plan.now.heads plan.now result (watched R.remaining reader.old reader.new)
        (watched W.contents writer.old writer.new) (watched F.contents faults.old faults.new) }
{
    if !plan.time {
        return send_headed(site, notes, plan, reader, writer, faults);
    }
    if plan.heads {
        send_both(site, notes, plan, reader, writer, faults)
    } else {
        send_timed(site, notes, plan, reader, writer, faults)
    }
}

/// Runs it with each line behind the time.
#[inline(never)]
fn send_timed<N: Network, C: Connector, R: Read, W: Write, F: Write>(
    site: Site<'_, '_, N, C>,
    notes: &ConnectionNotes<'_, N>,
    plan: &SendPlan<'_>,
    reader: &mut Watched<R>,
    writer: &mut Watched<W>,
    faults: &mut Watched<F>,
) -> Exit
    requires reader_works { has_failed reader.old ≡ false }
    requires time { plan.now.time ≡ true }
    requires heads { plan.now.heads ≡ false }
    ensures { SendsBehind plan.now.time plan.now.heads plan.now result (watched R.remaining reader.old reader.new)
        (watched W.contents writer.old writer.new) (watched F.contents faults.old faults.new) }
{
    let mut output = Watched::new(TimedWriter::of(site.alloc, &mut *writer, notes));
    let exit = send_to_target(site, plan, reader, &mut output, faults);
    let _ = output.into_inner().into_inner();
    exit
}

/// Runs it with each line behind the time, and behind the lines of the heads that are noted.
#[inline(never)]
fn send_both<N: Network, C: Connector, R: Read, W: Write, F: Write>(
    site: Site<'_, '_, N, C>,
    notes: &ConnectionNotes<'_, N>,
    plan: &SendPlan<'_>,
    reader: &mut Watched<R>,
    writer: &mut Watched<W>,
    faults: &mut Watched<F>,
) -> Exit
    requires reader_works { has_failed reader.old ≡ false }
    requires time { plan.now.time ≡ true }
    requires heads { plan.now.heads ≡ true }
    ensures { SendsBehind plan.now.time plan.now.heads plan.now result (watched R.remaining reader.old reader.new)
        (watched W.contents writer.old writer.new) (watched F.contents faults.old faults.new) }
{
    let heads = HeadWriter::of(&mut *writer, notes);
    let mut output = Watched::new(TimedWriter::of(site.alloc, heads, notes));
    let exit = send_to_target(site, plan, reader, &mut output, faults);
    let (_, ended) = output.into_inner().into_inner().end();
    exit_with(exit, &ended)
}

/// Runs it behind the lines of the heads that are noted.
#[inline(never)]
fn send_headed<N: Network, C: Connector, R: Read, W: Write, F: Write>(
    site: Site<'_, '_, N, C>,
    notes: &ConnectionNotes<'_, N>,
    plan: &SendPlan<'_>,
    reader: &mut Watched<R>,
    writer: &mut Watched<W>,
    faults: &mut Watched<F>,
) -> Exit
    requires reader_works { has_failed reader.old ≡ false }
    requires time { plan.now.time ≡ false }
    ensures { SendsBehind plan.now.time plan.now.heads plan.now result (watched R.remaining reader.old reader.new)
        (watched W.contents writer.old writer.new) (watched F.contents faults.old faults.new) }
{
    let mut output = Watched::new(HeadWriter::of(&mut *writer, notes));
    let exit = send_to_target(site, plan, reader, &mut output, faults);
    let (_, ended) = output.into_inner().end();
    exit_with(exit, &ended)
}

/// The exit of a run that ended so, where the last lines were written or not.
fn exit_with(exit: Exit, ended: &io::Result<()>) -> Exit
    ensures { EndsRunAs exit result }
{
    match ended {
        Ok(()) => exit,
        Err(_) => Exit::Failed,
    }
}

/// Tells that memory ran out for a note, where it did.
fn end_noted<K: Clock, F: Write>(
    alloc: Global,
    notes: &ConnectionNotes<'_, K>,
    exit: Exit,
    faults: &mut Watched<F>,
) -> Exit
    ensures told { EndsNoted exit result (watched F.contents faults.old faults.new) }
    ensures still { StaysFailed faults.old faults.new }
{
    match notes.check() {
        Ok(()) => exit,
        Err(_) => tell_fault(alloc, Fault::NoMemory, faults),
    }
}
