//! All connections that are to be tapped, one beside the other, and the line behind those of each.

ghost use Rattle.std.specs.Prelude.{◌≡◌, ◌<◌, false, not, length, IfOk};
ghost use Rattle.ws_frame.specs.Devices.{watched};
ghost use Rattle.ws_frame.specs.Watching.{has_failed};
ghost use Rattle.ws_relays.specs.InnerTapping.{IsToldIf, PutsEnd, tapping_end_of};
ghost use Rattle.ws_relays.specs.Tappings.{TapsAll, ToldOnce, last_tap_number, relay_end_line, relay_end_words};

use crate::relays::{RelayEnd, RelayEvent, RelayFault, Relays};
use std::alloc::Global;
use std::cell::Cell;
use std::io::Write;
use ws_base::NoMemory;
use ws_clients::Counted;
use ws_frame::{DataStyle, Watched, write_whole};
use ws_loops::{Listener, Poller};
use ws_networks::Network;
use ws_tap::TapEnd;
use ws_wire::Role;

/// One read asks for at most so many bytes.
const ROOM: usize = 65_536;

/// The last number that a line can tell.
const LAST: u32 = u32::MAX;

/// What is to be tapped.
#[derive(Clone, Copy)]
pub struct Tapping<'a> {
    /// The address of the server. It is looked up for each client.
    pub server: &'a str,
    /// How payloads are shown.
    pub style: DataStyle,
    /// So many connections go on at a time.
    pub at_once: usize,
    /// So many connections. `None` stands for as many as there are numbers.
    pub count: Option<u32>,
}

/// A network, what is listened by, and what waits for the streams of both.
#[derive(Drop)]
pub struct Over<N, L, P> {
    pub network: N,
    pub listener: L,
    pub poller: P,
}

/// How the tapping of connections ended.
#[derive(Clone, Copy, PartialEq, Eq)]
pub enum TappingEnd {
    /// As many as were to be tapped have ended.
    Done,
    /// Nobody is there, and no client can be taken any more.
    Deaf,
    /// A line could not be written or flushed.
    NotWritten,
    /// Memory ran out.
    NoMemory,
    /// Nothing could be waited for.
    WaitFailed,
}

/// It is told that no client can be taken for now.
pub trait ShortageSink {
    /// From the first state to the second one it was told just that.
    ghost told: { Self → Self → Type 0 };

    /// Once.
    fn short(&mut self)
        ensures { told self.old self.new };
}

/// Taps connections between clients that come and the server, so many at a time, until as many as are to be have ended.
/// Each has a number, in the order in which they come. Its lines are written as they become certain, and behind them
/// one that says how it ended, which is flushed. Before lines are written the age of their connection stands in `age`,
/// in milliseconds since its client came.
pub fn tap_clients<N, L, P, O, K>(
    alloc: Global,
    tapping: &Tapping<'_>,
    over: Over<N, L, P>,
    output: &mut Watched<O>,
    shortage: &mut K,
    age: &Cell<u64>,
) -> TappingEnd
where
    N: Network + Drop,
    L: Listener<Client = N::Stream, Miss = N::Miss> + Drop,
    P: Poller + Drop,
    O: Write,
    K: ShortageSink,
    requires works { has_failed output.old ≡ false }
    ensures taps { TapsAll N.Stream.did L.did N.did tapping.now over.listener over.network
        (watched O.contents output.old output.new) result }
    ensures short { ToldOnce K.told shortage.old shortage.new }
{
    tapping_end(tap_all(alloc, tapping, over, output, shortage, age))
}

/// How the tapping has ended, where it did so.
fn tapping_end(ended: Result<TappingEnd, RelayFault>) -> TappingEnd
    ensures { result ≡ tapping_end_of ended }
{
    match ended {
        Ok(end) => end,
        Err(RelayFault::NoMemory) => TappingEnd::NoMemory,
        Err(RelayFault::Output) => TappingEnd::NotWritten,
        Err(RelayFault::WaitFailed) => TappingEnd::WaitFailed,
    }
}

/// Taps them, until they have ended or something fails.
fn tap_all<N, L, P, O, K>(
    alloc: Global,
    tapping: &Tapping<'_>,
    over: Over<N, L, P>,
    output: &mut Watched<O>,
    shortage: &mut K,
    age: &Cell<u64>,
) -> Result<TappingEnd, RelayFault>
where
    N: Network + Drop,
    L: Listener<Client = N::Stream, Miss = N::Miss> + Drop,
    P: Poller + Drop,
    O: Write,
    K: ShortageSink,
    requires works { has_failed output.old ≡ false }
    ensures taps { TapsAll N.Stream.did L.did N.did tapping.now over.listener over.network
        (watched O.contents output.old output.new) (tapping_end_of result) }
    ensures short { ToldOnce K.told shortage.old shortage.new }
{
    let last = last_of(tapping.count);
    if last == 0 {
        return Ok(TappingEnd::Done);
    }
    let Over {
        network,
        listener,
        poller,
    } = over;
    let (mut network, mut poller) = (network, poller);
    let mut listener = Counted::new(listener, Some(u64::from(last)));
    let mut room = room_of(alloc)?;
    let mut relays = Relays::new(alloc, tapping, age)?;
    let mut told = 0;
    let mut is_short = false;
    let mut left = u64::MAX;
    while left > 0 && told < last {
        left -= 1;
        let event = relays.next(
            &mut network,
            &mut listener,
            &mut poller,
            output,
            room.as_mut_slice(),
        )?;
        match event {
            RelayEvent::Ended(number, end) => {
                put_end(alloc, number, end, output)?;
                told += 1;
            }
            RelayEvent::Full => {
                tell_short(shortage, is_short);
                is_short = true;
            }
            RelayEvent::Deaf => return Ok(TappingEnd::Deaf),
        }
    }
    if told < last {
        return Err(RelayFault::WaitFailed);
    }
    Ok(TappingEnd::Done)
}

/// Room to read into.
fn room_of(alloc: Global) -> Result<Vec<u8>, NoMemory>
    ensures { IfOk result (λ room. 0 < length room.items) }
{
    let room = vec![in alloc; 0; ROOM]?;
    Ok(room)
}

/// The number of the last connection.
fn last_of(count: Option<u32>) -> u32
    ensures { result ≡ last_tap_number count }
{
    match count {
        Some(count) => count,
        None => LAST,
    }
}

/// Tells that no client can be taken for now, if that wasn't told before.
fn tell_short<K: ShortageSink>(shortage: &mut K, is_short: bool)
    ensures { IsToldIf K.told (not is_short) shortage.old shortage.new }
{
    if !is_short {
        shortage.short();
    }
}

/// Writes the line that tells how the connection of this number ended, and flushes it.
fn put_end<O: Write>(
    alloc: Global,
    number: u32,
    end: RelayEnd,
    output: &mut Watched<O>,
) -> Result<(), RelayFault>
    requires works { has_failed output.old ≡ false }
    ensures { PutsEnd (relay_end_line number end) result (watched O.contents output.old output.new) }
{
    let Ok(line) = format!(in alloc; "{number} {}\n", end_words(end)) else {
        return Err(RelayFault::NoMemory);
    };
    if write_whole(output, line.as_bytes()).is_err() {
        return Err(RelayFault::Output);
    }
    if output.flush().is_err() {
        return Err(RelayFault::Output);
    }
    Ok(())
}

/// The words that tell how a connection ended.
fn end_words(end: RelayEnd) -> &'static str
    ensures { result.now ≡ relay_end_words end }
{
    match end {
        RelayEnd::NoConnection => "no connection",
        RelayEnd::Tapped(TapEnd::Ended(Role::Client)) => "end client",
        RelayEnd::Tapped(TapEnd::Ended(Role::Server)) => "end server",
        RelayEnd::Tapped(TapEnd::Broken) => "end broken",
    }
}
