//! A loop over a network: in each place stands a slot, or a connection is under way for one, which is begun, asked for
//! and made or missed while the others go on.

ghost use Rattle.std.specs.Prelude.{◌≡◌, ◌↔◌, ◌<◌, length, true, false, None, Some, IfOk, OnOk, slice_get, slice_set};
ghost use Rattle.std.specs.Prelude.{MatchOption};
ghost use Rattle.ws_loops.specs.Places.{IsOverAt, IsSlotlessAt, KeepTurns, NoneHasEnded};
ghost use Rattle.ws_loops.specs.Slots.{IsAble};
ghost use Rattle.ws_networks.specs.NetworkLoops.{AreFree, AreIdle, HasAskedAt, HasBegunFor, HaveComeOn};
ghost use Rattle.ws_networks.specs.NetworkLoops.{AreStandingsServed, IfTooLate, IsNetworkEnding};
ghost use Rattle.ws_networks.specs.NetworkLoops.{IsNetworkSound, IsHandedOut, IsTryingAt, network_value, outbound_by};
ghost use Rattle.ws_networks.specs.NetworkLoops.{IsFirstOfFree, NoneIsFree, place_by, handed_out};
ghost use Rattle.ws_networks.specs.NetworkLoops.Standing.{Free, Served};
ghost use Rattle.ws_loops.specs.declared.places.Place.TheVariants.{Empty};
ghost use Rattle.ws_networks.specs.declared.network_loop.Outbound.TheVariants.{Idle};

use crate::bounds::Bounds;
use crate::dialing::{Dial, Dialled, Missed, Tries, ask, try_next};
use crate::network::Network;
use std::alloc::Global;
use std::marker::Model;
use std::mem;
use ws_base::NoMemory;
use ws_loops::{Ending, LineSink, Loop, NonBlocking, Pace, Place, Poller, Slot, WaitFailed, Watch};
use ws_machines::Machine;

/// What goes on for a place beside what stands in it.
#[derive(Drop)]
pub(crate) enum Outbound<M, A, S, W> {
    /// Nothing.
    Idle,
    /// A connection is under way, over which this machine is to be run.
    Trying(M, Dial<A, S, W>),
    /// No connection was made, for this reason.
    Missed(Missed<W>),
}

/// All that a loop over a network keeps: what stands in its places, and what goes on beside that.
#[derive(Drop)]
pub(crate) struct Board<M: Machine, A, S, W> {
    pub(crate) all: Loop<M, S>,
    pub(crate) outbound: Vec<Outbound<M, A, S, W>>,
}

/// A loop over a network, with so many places. Contracts see how each stands, the number that each was given as it
/// ended, and whether it was told that no client can be taken and nothing has ended since.
#[derive(Drop)]
pub struct NetworkLoop<M: Machine, A, S: NonBlocking, W> {
    pub(crate) board: Board<M, A, S, W>,
}

impl<M: Machine, A, S: NonBlocking, W> Model for NetworkLoop<M, A, S, W> {
    ghost use Rattle.ws_networks.specs.NetworkLoops.{IsNetworkSound, NetworkValue, network_value};

    ghost Value = { NetworkValue M A S W };

    ghost view = { λ l. network_value l.board.all l.board.outbound.items };

    ghost invariant = { λ l. IsNetworkSound M.agrees M.wants S.did l.board.all l.board.outbound.items };
}

/// What is to be begun: a connection to the first of these addresses that takes it, in time for each, over which the
/// machine is to be run.
#[derive(Drop)]
pub struct Attempt<M, A> {
    pub addresses: Vec<A>,
    pub bounds: Bounds,
    pub machine: M,
}

/// What stood in a place of a loop over a network.
#[derive(Drop)]
pub enum Taken<M, S, W> {
    /// Nothing.
    Nothing,
    /// A slot.
    Slot(Slot<M, S>),
    /// Memory ran out for the slot that stood there.
    Broken,
    /// No connection was made for it, for this reason.
    Missed(Missed<W>),
    /// A connection was under way for it, which is given up.
    UnderWay,
}

impl<M: Machine + Drop, A: Copy, S: NonBlocking + Drop, W: Copy> NetworkLoop<M, A, S, W> {
    /// So many places, in which nothing stands.
    pub fn new(alloc: Global, len: usize) -> Result<NetworkLoop<M, A, S, W>, NoMemory>
        ensures len { IfOk result (λ made. length made.standings ≡ len) }
        ensures free { IfOk result (λ made. AreFree made.standings) }
        ensures none { IfOk result (λ made. NoneHasEnded made.tickets) }
    {
        let board = new_board(alloc, len)?;
        Ok(NetworkLoop { board })
    }

    /// How many places there are.
    pub fn len(&self) -> usize
        ensures { result ≡ length self.now.standings }
    {
        len_of(&self.board)
    }

    /// The first place in which nothing stands, if there is one.
    pub fn free_place(&mut self) -> Option<usize>
        ensures free { MatchOption result (NoneIsFree self.new.standings) (IsFirstOfFree self.new.standings) }
        ensures same { self.new ≡ self.old }
    {
        free_in(&mut self.board)
    }

    /// Puts a slot into a place in which nothing stands.
    pub fn put(&mut self, at: usize, slot: Slot<M, S>)
        requires free { slice_get self.old.standings at ≡ Some Free }
        requires able { IsAble M.agrees M.wants slot.machine }
        ensures put { self.new.standings ≡ slice_set self.old.standings at (Served slot) }
        ensures turns { KeepTurns self.old.tickets self.new.tickets }
        ensures deaf { self.new.deaf ≡ self.old.deaf }
    {
        put_at(&mut self.board, at, slot);
    }

    /// Begins a connection for a place in which nothing stands. Once it is made, the machine is run over it there.
    pub fn connect<N: Network<Address = A, Stream = S, Miss = W>>(
        &mut self,
        network: &mut N,
        at: usize,
        attempt: Attempt<M, A>,
        now: u64,
    )
        requires free { slice_get self.old.standings at ≡ Some Free }
        requires able { IsAble M.agrees M.wants attempt.machine }
        ensures opened { HasBegunFor S.did N.did at attempt.addresses.items attempt.bounds attempt.machine now
            self.old.standings self.new.standings network.old network.new }
        ensures turns { KeepTurns self.old.tickets self.new.tickets }
        ensures deaf { self.new.deaf ≡ self.old.deaf }
    {
        open_at(&mut self.board, network, at, attempt, now);
    }

    /// Serves the slots, and asks for the connections that are under way, until a machine is done, memory ran out for
    /// one, no address has taken a connection, or this time has come and all were served by then.
    pub fn run<N: Network<Address = A, Stream = S, Miss = W>, P: Poller, K: LineSink>(
        &mut self,
        network: &mut N,
        poller: &mut P,
        sink: &mut K,
        until: Option<u64>,
        room: &mut [u8],
    ) -> Result<Ending, K::Fault>
        requires room { 0 < length room.old }
        ensures run { OnOk result (HaveComeOn M.agrees M.wants S.did K.heard N.did (P.time poller.old)
            (P.time poller.new) self.old.standings self.new.standings sink.old sink.new network.old network.new) }
        ensures ending { IfOk result (λ ending. IsNetworkEnding M.wants until (P.time poller.new) self.new ending) }
        ensures served { IfOk result (λ ending. IfTooLate ending (AreStandingsServed M.agrees M.wants S.did
            (P.time poller.new) self.new.standings)) }
        ensures turns { OnOk result (KeepTurns self.old.tickets self.new.tickets) }
    {
        run_board(&mut self.board, network, poller, sink, until, room)
    }

    /// Takes what stands in a place out of it. A connection that is under way is given up.
    pub fn take(&mut self, at: usize) -> Taken<M, S, W>
        requires at { at < length self.old.standings }
        ensures taken { IsHandedOut M.agrees M.wants self.old.standings at result }
        ensures free { self.new.standings ≡ slice_set self.old.standings at Free }
        ensures turns { self.new.tickets ≡ slice_set self.old.tickets at None }
        ensures deaf { self.new.deaf ≡ false }
    {
        take_at(&mut self.board, at)
    }
}

/// All that a loop with so many places keeps at first.
fn new_board<M: Machine + Drop, A: Copy, S: NonBlocking + Drop, W: Copy>(
    alloc: Global,
    len: usize,
) -> Result<Board<M, A, S, W>, NoMemory>
    ensures len { IfOk result (λ made. length (network_value made.all made.outbound.items).standings ≡ len) }
    ensures free { IfOk result (λ made. AreFree (network_value made.all made.outbound.items).standings) }
    ensures none { IfOk result (λ made. NoneHasEnded (network_value made.all made.outbound.items).tickets) }
    ensures whole { IfOk result (λ made. IsNetworkSound M.agrees M.wants S.did made.all made.outbound.items) }
{
    let all = Loop::new(alloc, len)?;
    let outbound = idle(alloc, len)?;
    Ok(Board { all, outbound })
}

/// So many places, for which nothing goes on.
fn idle<M: Drop, A: Copy, S: Drop, W: Copy>(
    alloc: Global,
    len: usize,
) -> Result<Vec<Outbound<M, A, S, W>>, NoMemory>
    ensures { IfOk result (λ all. AreIdle len all.items) }
{
    let mut all = Vec::new(alloc);
    while all.len() < len {
        all.push(Outbound::Idle)?;
    }
    Ok(all)
}

/// How many places there are.
fn len_of<M: Machine + Drop, A: Copy, S: NonBlocking + Drop, W: Copy>(
    board: &Board<M, A, S, W>,
) -> usize
    requires whole { IsNetworkSound M.agrees M.wants S.did board.now.all board.now.outbound.items }
    ensures { result ≡ length (network_value board.now.all board.now.outbound.items).standings }
{
    board.all.len()
}

/// The first place in which nothing stands, if there is one.
fn free_in<M: Machine + Drop, A: Copy, S: NonBlocking + Drop, W: Copy>(
    board: &mut Board<M, A, S, W>,
) -> Option<usize>
    requires whole { IsNetworkSound M.agrees M.wants S.did board.old.all board.old.outbound.items }
    ensures free { MatchOption result (NoneIsFree (network_value board.new.all board.new.outbound.items).standings)
        (IsFirstOfFree (network_value board.new.all board.new.outbound.items).standings) }
    ensures all { board.new.all ≡ board.old.all }
    ensures outbound { board.new.outbound ≡ board.old.outbound }
{
    board.all.free_place()
}

/// Puts a slot into a place in which nothing stands.
fn put_at<M: Machine + Drop, A: Copy, S: NonBlocking + Drop, W: Copy>(
    board: &mut Board<M, A, S, W>,
    at: usize,
    slot: Slot<M, S>,
)
    requires free { slice_get (network_value board.old.all board.old.outbound.items).standings at ≡ Some Free }
    requires able { IsAble M.agrees M.wants slot.machine }
    requires whole { IsNetworkSound M.agrees M.wants S.did board.old.all board.old.outbound.items }
    ensures put { (network_value board.new.all board.new.outbound.items).standings ≡
        slice_set (network_value board.old.all board.old.outbound.items).standings at (Served slot) }
    ensures turns { KeepTurns (network_value board.old.all board.old.outbound.items).tickets
        (network_value board.new.all board.new.outbound.items).tickets }
    ensures deaf { board.new.all.deaf ≡ board.old.all.deaf }
    ensures whole { IsNetworkSound M.agrees M.wants S.did board.new.all board.new.outbound.items }
{
    board.all.open(at, slot);
    board.outbound[at] = Outbound::Idle;
}

/// Begins a connection for a place in which nothing stands.
fn open_at<M: Machine + Drop, N: Network>(
    board: &mut Board<M, N::Address, N::Stream, N::Miss>,
    network: &mut N,
    at: usize,
    attempt: Attempt<M, N::Address>,
    now: u64,
)
    requires free { slice_get (network_value board.old.all board.old.outbound.items).standings at ≡ Some Free }
    requires able { IsAble M.agrees M.wants attempt.machine }
    requires whole { IsNetworkSound M.agrees M.wants N.Stream.did board.old.all board.old.outbound.items }
    ensures opened { HasBegunFor N.Stream.did N.did at attempt.addresses.items attempt.bounds attempt.machine now
        (network_value board.old.all board.old.outbound.items).standings
        (network_value board.new.all board.new.outbound.items).standings network.old network.new }
    ensures turns { KeepTurns (network_value board.old.all board.old.outbound.items).tickets
        (network_value board.new.all board.new.outbound.items).tickets }
    ensures deaf { board.new.all.deaf ≡ board.old.all.deaf }
    ensures whole { IsNetworkSound M.agrees M.wants N.Stream.did board.new.all board.new.outbound.items }
{
    let Attempt {
        addresses,
        bounds,
        machine,
    } = attempt;
    let tries = Tries::new(addresses, bounds);
    let dialled = try_next(network, at, tries, now);
    settle(board, at, machine, bounds, dialled, now);
}

/// Serves the slots, and asks for the connections that are under way, until something has ended, or this time has come.
fn run_board<M: Machine + Drop, N: Network, P: Poller, K: LineSink>(
    board: &mut Board<M, N::Address, N::Stream, N::Miss>,
    network: &mut N,
    poller: &mut P,
    sink: &mut K,
    until: Option<u64>,
    room: &mut [u8],
) -> Result<Ending, K::Fault>
    requires room { 0 < length room.old }
    requires whole { IsNetworkSound M.agrees M.wants N.Stream.did board.old.all board.old.outbound.items }
    ensures run { OnOk result (HaveComeOn M.agrees M.wants N.Stream.did K.heard N.did (P.time poller.old)
        (P.time poller.new) (network_value board.old.all board.old.outbound.items).standings
        (network_value board.new.all board.new.outbound.items).standings sink.old sink.new network.old network.new) }
    ensures ending { IfOk result (λ ending. IsNetworkEnding M.wants until (P.time poller.new)
        (network_value board.new.all board.new.outbound.items) ending) }
    ensures served { IfOk result (λ ending. IfTooLate ending (AreStandingsServed M.agrees M.wants N.Stream.did
        (P.time poller.new) (network_value board.new.all board.new.outbound.items).standings)) }
    ensures turns { OnOk result (KeepTurns (network_value board.old.all board.old.outbound.items).tickets
        (network_value board.new.all board.new.outbound.items).tickets) }
    ensures whole { IsNetworkSound M.agrees M.wants N.Stream.did board.new.all board.new.outbound.items }
{
    let mut left = u64::MAX;
    while left > 0 {
        left -= 1;
        let ending = board.all.run(poller, sink, until, room)?;
        match ending {
            Ending::Ended(at) => {
                if !is_trying(board.outbound.as_slice(), at) {
                    return Ok(Ending::Ended(at));
                }
                let now = poller.now();
                ask_at(board, network, at, now);
            }
            Ending::TooLate | Ending::NoSlot => return Ok(ending),
        }
    }
    Err(K::Fault::from(WaitFailed))
}

/// Whether a connection is under way for this place.
fn is_trying<M, A, S, W>(outbound: &[Outbound<M, A, S, W>], at: usize) -> bool
    requires { at < length outbound.now }
    ensures { (result ≡ true) ↔ IsTryingAt outbound.now at }
{
    match outbound_at(outbound, at) {
        Outbound::Trying(..) => true,
        Outbound::Idle | Outbound::Missed(_) => false,
    }
}

/// What goes on for this place.
fn outbound_at<M, A, S, W>(outbound: &[Outbound<M, A, S, W>], at: usize) -> &Outbound<M, A, S, W>
    requires { at < length outbound.now }
    ensures { slice_get outbound.now at ≡ Some result.now }
{
    &outbound[at]
}

/// Asks how far the connection has come that is under way for this place, which was stirred.
fn ask_at<M: Machine + Drop, N: Network>(
    board: &mut Board<M, N::Address, N::Stream, N::Miss>,
    network: &mut N,
    at: usize,
    now: u64,
)
    requires trying { IsTryingAt board.old.outbound.items at }
    requires over { IsOverAt M.wants board.old.all.places at }
    requires whole { IsNetworkSound M.agrees M.wants N.Stream.did board.old.all board.old.outbound.items }
    ensures asked { HasAskedAt N.Stream.did N.did at now board.old.all.places board.new.all.places
        board.old.outbound.items board.new.outbound.items network.old network.new }
    ensures turns { KeepTurns (slice_set board.old.all.tickets at None) board.new.all.tickets }
    ensures deaf { board.new.all.deaf ≡ board.old.all.deaf }
    ensures whole { IsNetworkSound M.agrees M.wants N.Stream.did board.new.all board.new.outbound.items }
{
    match outbound_of(&mut board.outbound, at) {
        Outbound::Trying(machine, dial) => {
            let bounds = dial.tries.bounds;
            let dialled = ask(network, at, dial, now);
            settle(board, at, machine, bounds, dialled, now);
        }
        Outbound::Idle | Outbound::Missed(_) => unreachable!(),
    }
}

/// What goes on for this place, for which nothing does then.
fn outbound_of<M: Drop, A: Copy, S: Drop, W: Copy>(
    outbound: &mut Vec<Outbound<M, A, S, W>>,
    at: usize,
) -> Outbound<M, A, S, W>
    requires { at < length outbound.old.items }
    ensures taken { slice_get outbound.old.items at ≡ Some result }
    ensures idle { outbound.new.items ≡ slice_set outbound.old.items at Idle }
{
    mem::replace(&mut outbound[at], Outbound::Idle)
}

/// What has come of a connection for this place, in which no slot stands, is put there.
fn settle<M: Machine + Drop, A: Copy, S: NonBlocking + Drop, W: Copy>(
    board: &mut Board<M, A, S, W>,
    at: usize,
    machine: M,
    bounds: Bounds,
    dialled: Dialled<A, S, W>,
    now: u64,
)
    requires slotless { IsSlotlessAt board.old.all.places at }
    requires at { at < length board.old.outbound.items }
    requires able { IsAble M.agrees M.wants machine }
    ensures places { board.new.all.places ≡ slice_set board.old.all.places at (place_by machine bounds now dialled) }
    ensures outbound { board.new.outbound.items ≡ slice_set board.old.outbound.items at
        (outbound_by machine dialled) }
    ensures turns { KeepTurns (slice_set board.old.all.tickets at None) board.new.all.tickets }
    ensures unnumbered { slice_get board.old.all.places at ≡ Some Empty →
        slice_get board.old.all.tickets at ≡ Some None }
    ensures deaf { board.new.all.deaf ≡ board.old.all.deaf }
{
    match dialled {
        Dialled::Made(stream) => {
            let pace = Pace::begun(now, bounds.limit, bounds.until);
            let slot = Slot {
                machine,
                stream,
                pace,
            };
            board.all.open(at, slot);
            board.outbound[at] = Outbound::Idle;
        }
        Dialled::Waits(dial) => {
            let until = dial.until();
            board.all.watch(
                at,
                Watch {
                    until,
                    stirred: false,
                },
            );
            board.outbound[at] = Outbound::Trying(machine, dial);
        }
        Dialled::Missed(why) => {
            board.all.watch(
                at,
                Watch {
                    until: None,
                    stirred: true,
                },
            );
            board.outbound[at] = Outbound::Missed(why);
        }
    }
}

/// Takes what stands in a place out of it.
fn take_at<M: Machine + Drop, A: Copy, S: NonBlocking + Drop, W: Copy>(
    board: &mut Board<M, A, S, W>,
    at: usize,
) -> Taken<M, S, W>
    requires at { at < length (network_value board.old.all board.old.outbound.items).standings }
    requires whole { IsNetworkSound M.agrees M.wants S.did board.old.all board.old.outbound.items }
    ensures taken { IsHandedOut M.agrees M.wants (network_value board.old.all board.old.outbound.items).standings at
        result }
    ensures free { (network_value board.new.all board.new.outbound.items).standings ≡
        slice_set (network_value board.old.all board.old.outbound.items).standings at Free }
    ensures turns { (network_value board.new.all board.new.outbound.items).tickets ≡
        slice_set (network_value board.old.all board.old.outbound.items).tickets at None }
    ensures deaf { board.new.all.deaf ≡ false }
    ensures whole { IsNetworkSound M.agrees M.wants S.did board.new.all board.new.outbound.items }
{
    let beside = outbound_of(&mut board.outbound, at);
    match board.all.take(at) {
        Place::Empty => Taken::Nothing,
        Place::Open(slot) => Taken::Slot(slot),
        Place::Broken => Taken::Broken,
        Place::Pending(_) => missed_or_not(&beside),
    }
}

/// What is handed out where a connection was under way, or was missed.
fn missed_or_not<M: Drop, A: Copy, S: Drop, W: Copy>(
    beside: &Outbound<M, A, S, W>,
) -> Taken<M, S, W>
    ensures { result ≡ handed_out beside.now }
{
    match beside {
        Outbound::Missed(why) => Taken::Missed(*why),
        Outbound::Idle | Outbound::Trying(..) => Taken::UnderWay,
    }
}
