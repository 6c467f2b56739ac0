//! One machine that is run over a connection to a name.

ghost use Rattle.std.specs.Prelude.{◌≡◌, ◌<◌, ◌∷◌, [], length, IfOk};
ghost use Rattle.ws_machines.specs.Machines.{HasNext};
ghost use Rattle.ws_networks.specs.Meetings.{HasMet, HasMetAddresses, HasMetShowing};

use crate::bounds::Limits;
use crate::dialing::Missed;
use crate::network::Network;
use crate::network_loop::{Attempt, NetworkLoop, Taken};
use std::alloc::Global;
use ws_base::NoMemory;
use ws_loops::{LineSink, Poller, Slot};
use ws_machines::Machine;

/// The place of a connection that is waited for by itself.
const ONLY: usize = 0;

/// What came of a machine that was to be run over a connection.
#[derive(Drop)]
pub enum Met<E, S, W> {
    /// It was run until it was done: what came of it, and its stream.
    Ended(E, S),
    /// There is no connection.
    NotMade(Missed<W>),
}

/// What is to be done at a name: a machine that is to be run over a connection to it, within these limits.
#[derive(Drop)]
pub struct Errand<'a, M> {
    pub name: &'a str,
    pub machine: M,
    pub limits: Limits,
}

/// Connects to a name, and runs a machine over the connection until it is done. The sink takes its lines, each before
/// anything else is done of what the machine wants.
pub fn run_at<M: Machine + Drop, N: Network, P: Poller, K: LineSink>(
    alloc: Global,
    network: &mut N,
    poller: &mut P,
    sink: &mut K,
    errand: Errand<'_, M>,
    room: &mut [u8],
) -> Result<Met<M::End, N::Stream, N::Miss>, K::Fault>
    requires room { 0 < length room.old }
    requires untold { M.agrees errand.machine errand.machine [] }
    requires goes_on { HasNext (M.wants errand.machine) }
    ensures met { IfOk result (λ met. HasMet M.agrees M.wants M.gives N.Stream.did N.did errand.entry.limits
        (P.time poller.old) (P.time poller.new) network.old network.new errand.entry.name.now
        errand.entry.machine met) }
    ensures shows { IfOk result (λ met. HasMetShowing K.heard sink.old sink.new M.agrees M.wants M.gives N.Stream.did
        N.did errand.entry.limits (P.time poller.old) (P.time poller.new) network.old network.new errand.entry.name.now
        errand.entry.machine met) }
{
    let Errand {
        name,
        machine,
        limits,
    } = errand;
    let bounds = limits.from(poller.now());
    match network.look_up(alloc, name) {
        Ok(addresses) => {
            let attempt = Attempt {
                addresses,
                bounds,
                machine,
            };
            let met = meet(alloc, network, poller, sink, attempt, room)?;
            Ok(met)
        }
        Err(why) => Ok(Met::NotMade(Missed::Failed(why))),
    }
}

/// Connects to the first of these addresses that takes a connection, and runs a machine over it until it is done.
fn meet<M: Machine + Drop, N: Network, P: Poller, K: LineSink>(
    alloc: Global,
    network: &mut N,
    poller: &mut P,
    sink: &mut K,
    attempt: Attempt<M, N::Address>,
    room: &mut [u8],
) -> Result<Met<M::End, N::Stream, N::Miss>, K::Fault>
    requires room { 0 < length room.old }
    requires untold { M.agrees attempt.machine attempt.machine [] }
    requires goes_on { HasNext (M.wants attempt.machine) }
    ensures met { IfOk result (λ met. HasMetAddresses K.heard sink.old sink.new M.agrees M.wants M.gives N.Stream.did
        N.did attempt.bounds (P.time poller.old) (P.time poller.new) network.old network.new attempt.addresses.items
        attempt.machine met) }
{
    let mut one = NetworkLoop::new(alloc, 1)?;
    one.connect(network, ONLY, attempt, poller.now());
    one.run(network, poller, sink, None, room)?;
    match one.take(ONLY) {
        Taken::Slot(slot) => {
            let Slot {
                machine,
                stream,
                ..
            } = slot;
            let end = machine.into_end()?;
            Ok(Met::Ended(end, stream))
        }
        Taken::Missed(why) => Ok(Met::NotMade(why)),
        Taken::Broken => Err(K::Fault::from(NoMemory)),
        Taken::Nothing | Taken::UnderWay => unreachable!(),
    }
}
