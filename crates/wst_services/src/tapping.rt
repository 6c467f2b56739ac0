//! Connections between clients and a server that are tapped, so many at a time, and the lines that are told of them
//! (docs/FORMATS.md).

ghost use Rattle.std.specs.Prelude.{◌≡◌, ◌⊎◌, Err, [], false};
ghost use Rattle.ws_frame.specs.Devices.{watched};
ghost use Rattle.ws_frame.specs.Watching.{has_failed};
ghost use Rattle.wst_commands.specs.declared.fault.Fault.TheVariants as fault;
ghost use Rattle.wst_services.specs.Tapping.{TapsAt, TapsOver, TapsPlan, TapsTimed, tapping_exit};

use crate::served_lines::FULL;
use crate::serving_clients::tell_listening;
use std::alloc::Global;
use std::cell::Cell;
use std::io::Write;
use ws_frame::{DataStyle, Watched};
use ws_loops::{Listener, Poller};
use ws_networks::Network;
use ws_relays::{Over, ShortageSink, Tapping, TappingEnd, tap_clients};
use wst_commands::{Exit, Fault, tell};
use wst_network::Connector;
use wst_noted::{Ages, TimedWriter};
use wst_sockets::{Heard, listen_over};

/// Connections that are to be tapped over a network.
#[derive(Clone, Copy)]
pub struct TapPlan<'a> {
    /// The address at which to listen, as it was given.
    pub listen: &'a str,
    /// That of the server.
    pub server: &'a str,
    /// So many connections go on at a time.
    pub at_once: u32,
    /// So many connections. `None` stands for no end.
    pub count: Option<u32>,
    /// How payloads are shown.
    pub style: DataStyle,
    /// Each line of a connection stands behind the time since that began.
    pub time: bool,
}

/// Listens at the address, which is told in a line, with the port that the system chose in the place of a port 0, and
/// taps the connections of those who come to the server, and tells of them. A line that can't be written or flushed
/// ends that, and so does it where memory runs out, or no client can come any more.
pub fn tap_over<C: Connector, W: Write, F: Write>(
    alloc: Global,
    plan: &TapPlan<'_>,
    connector: &C,
    writer: &mut Watched<W>,
    faults: &mut Watched<F>,
) -> Result<Exit, Fault>
    requires { has_failed writer.old ≡ false }
    ensures { TapsOver plan.now result (watched W.contents writer.old writer.new)
        (watched F.contents faults.old faults.new) }
{
    let age = Cell::new(0);
    if plan.time {
        return tap_timed(alloc, plan, &age, connector, writer, faults);
    }
    tap_at(alloc, plan, &age, connector, writer, faults)
}

/// Taps them with each line of a connection behind the time since that began.
#[inline(never)]
fn tap_timed<C: Connector, W: Write, F: Write>(
    alloc: Global,
    plan: &TapPlan<'_>,
    age: &Cell<u64>,
    connector: &C,
    writer: &mut Watched<W>,
    faults: &mut Watched<F>,
) -> Result<Exit, Fault>
    ensures { TapsTimed plan.now result (watched W.contents writer.old writer.new)
        (watched F.contents faults.old faults.new) }
{
    let ages = Ages::of(age);
    let mut output = Watched::new(TimedWriter::of(alloc, &mut *writer, &ages));
    let ended = tap_at(alloc, plan, age, connector, &mut output, faults);
    let _ = output.into_inner().into_inner();
    timed_end(&ages, ended)
}

/// How that ended, or that memory ran out for a time.
fn timed_end(ages: &Ages<'_>, ended: Result<Exit, Fault>) -> Result<Exit, Fault>
    ensures { (result ≡ ended) ⊎ (result ≡ Err fault.NoMemory) }
{
    ages.check()?;
    ended
}

/// Taps them, and has the age of a connection where its lines are told.
#[inline(never)]
fn tap_at<C: Connector, W: Write, F: Write>(
    alloc: Global,
    plan: &TapPlan<'_>,
    age: &Cell<u64>,
    connector: &C,
    writer: &mut Watched<W>,
    faults: &mut Watched<F>,
) -> Result<Exit, Fault>
    requires { has_failed writer.old ≡ false }
    ensures { TapsAt plan.now result (watched W.contents writer.old writer.new)
        (watched F.contents faults.old faults.new) }
{
    let Heard {
        network,
        listener,
        poller,
        told: address,
    } = listen_over(alloc, connector, plan.listen)?;
    let told = tell_listening(alloc, address.as_slice(), writer)?;
    if writer.failed() {
        return Ok(told);
    }
    let over = Over {
        network,
        listener,
        poller,
    };
    tap_plan(alloc, plan, age, over, writer, faults)
}

/// Taps the connections of those who come, and tells of them.
fn tap_plan<N, L, P, W: Write, F: Write>(
    alloc: Global,
    plan: &TapPlan<'_>,
    age: &Cell<u64>,
    over: Over<N, L, P>,
    writer: &mut Watched<W>,
    faults: &mut Watched<F>,
) -> Result<Exit, Fault>
where
    N: Network + Drop,
    L: Listener<Client = N::Stream, Miss = N::Miss> + Drop,
    P: Poller + Drop,
    requires works { has_failed writer.old ≡ false }
    ensures { TapsPlan plan.now [] result (watched W.contents writer.old writer.new)
        (watched F.contents faults.old faults.new) }
{
    let tapping = Tapping {
        server: plan.server,
        style: plan.style,
        at_once: plan.at_once as usize,
        count: plan.count,
    };
    let mut shortage = ToldShortage { faults };
    exit_of(tap_clients(alloc, &tapping, over, writer, &mut shortage, age))
}

/// The exit of a tapping that has ended so.
fn exit_of(end: TappingEnd) -> Result<Exit, Fault>
    ensures { result ≡ tapping_exit end }
{
    match end {
        TappingEnd::Done => Ok(Exit::Done),
        TappingEnd::Deaf | TappingEnd::NotWritten | TappingEnd::WaitFailed => Ok(Exit::Failed),
        TappingEnd::NoMemory => Err(Fault::NoMemory),
    }
}

/// That no connection can be taken for now is told to the fault output.
#[derive(Drop)]
struct ToldShortage<'a, F> {
    faults: &'a mut Watched<F>,
}

impl<F: Write> ShortageSink for ToldShortage<'_, F> {
    ghost use Rattle.std.specs.Prelude.{◌≡◌};
    ghost use Rattle.ws_frame.specs.Devices.{watched};
    ghost use Rattle.wst_commands.specs.Devices.{Tells};
    ghost use Rattle.wst_services.specs.ServedLines.{full_text};

    ghost told = { λ old new. Tells full_text (watched F.contents old.faults.now new.faults.now)
        × (new.faults.ghost_name ≡ old.faults.ghost_name) };

    fn short(&mut self) {
        tell(FULL, self.faults);
    }
}
