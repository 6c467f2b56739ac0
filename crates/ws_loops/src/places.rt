//! What stands in the places of a loop, and what it knows of each.

ghost use Rattle.std.specs.Prelude.{◌≡◌, ◌<◌, ◌≤◌, length, true, Some, IfSome, MatchOption, slice_get, slice_set};
ghost use Rattle.ws_loops.specs.Loops.{IsPlaceListed};
ghost use Rattle.ws_loops.specs.Places.{AreOccupied, IsFirstFree, IsFirstToEnd, NoneHasEnded, earlier_end, is_empty};

use crate::limits::Limits;
use crate::poller::Readiness;
use crate::slot::Slot;
use crate::watch::Watch;

/// What stands in a place of a loop.
#[derive(Drop)]
pub enum Place<M, S> {
    /// Nothing.
    Empty,
    /// A slot.
    Open(Slot<M, S>),
    /// No slot yet: a connection is under way for it.
    Pending(Watch),
    /// Nothing any more: memory ran out for the slot that stood here.
    Broken,
}

impl<M, S> Place<M, S> {
    /// Whether nothing stands in it.
    pub(crate) fn is_empty(&self) -> bool
        ensures { result ≡ is_empty self.now }
    {
        match self {
            Place::Empty => true,
            Place::Open(_) | Place::Pending(_) | Place::Broken => false,
        }
    }
}

/// The places of a loop. Of each: what stands in it; the call to have a turn in this round, as its stream was found;
/// and the number that it was given as it ended, until it is taken.
#[derive(Drop)]
pub(crate) struct Seats<M, S> {
    pub(crate) places: Vec<Place<M, S>>,
    pub(crate) calls: Vec<Option<Readiness>>,
    pub(crate) tickets: Vec<Option<u64>>,
    pub(crate) agenda: Agenda,
}

/// What is to come.
#[derive(Drop)]
pub(crate) struct Agenda {
    /// The places in which something is still due.
    pub(crate) later: Vec<usize>,
    /// Of each other place, before which time nothing is due in it.
    pub(crate) limits: Limits,
    /// Whether something may be due in any place: memory ran out for the list, or lines were not taken.
    pub(crate) all: bool,
    /// The number of the next place that ends.
    pub(crate) given: u64,
    /// Whether a place has ended that was not taken.
    pub(crate) ended: bool,
}

/// Lists a place. Where memory runs out for that, something may be due in any.
pub(crate) fn list_place(list: &mut Vec<usize>, all: &mut bool, at: usize)
    ensures { IsPlaceListed at list.old.items all.old list.new.items all.new }
{
    if list.push(at).is_err() {
        *all = true;
    }
}

/// The call of this place to have a turn, if it is called.
pub(crate) fn call_at(calls: &[Option<Readiness>], at: usize) -> Option<Readiness>
    requires { at < length calls.now }
    ensures { slice_get calls.now at ≡ Some result }
{
    calls[at]
}

/// The first place that is empty, or the one behind all others where none is. None in front of this one is.
pub(crate) fn free_place<M, S>(places: &[Place<M, S>], from: usize) -> usize
    requires from { AreOccupied places.now from }
    requires within { from ≤ length places.now }
    ensures { IsFirstFree places.now result }
{
    let mut at = from;
    while at < places.len() {
        if place_at(places, at).is_empty() {
            return at;
        }
        at += 1;
    }
    at
}

/// The place that ended first, of those that have.
pub(crate) fn first_to_end(tickets: &[Option<u64>]) -> Option<usize>
    ensures { MatchOption result (NoneHasEnded tickets.now) (λ at. IsFirstToEnd tickets.now at) }
{
    let mut first = None;
    let mut at = 0;
    while at < tickets.len() {
        first = earlier(first, at, ticket_at(tickets, at));
        at += 1;
    }
    match first {
        Some((at, _)) => Some(at),
        None => None,
    }
}

/// The number that this place was given as it ended, if it has.
pub(crate) fn ticket_at(tickets: &[Option<u64>], at: usize) -> Option<u64>
    requires { at < length tickets.now }
    ensures { slice_get tickets.now at ≡ Some result }
{
    tickets[at]
}

/// What stands in this place.
pub(crate) fn place_at<M, S>(places: &[Place<M, S>], at: usize) -> &Place<M, S>
    requires { at < length places.now }
    ensures { slice_get places.now at ≡ Some result.now }
{
    &places[at]
}

/// That of both places which ended first, each with its number, if it has ended.
fn earlier(first: Option<(usize, u64)>, at: usize, ticket: Option<u64>) -> Option<(usize, u64)>
    ensures { result ≡ earlier_end first at ticket }
{
    let Some(ticket) = ticket else {
        return first;
    };
    let Some(before) = first else {
        return Some((at, ticket));
    };
    let (_, number) = before;
    if number <= ticket {
        Some(before)
    } else {
        Some((at, ticket))
    }
}
