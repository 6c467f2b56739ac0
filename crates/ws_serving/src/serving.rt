//! Clients that are served, so many at a time.

ghost use Rattle.std.specs.Prelude.{◌≡◌, ◌+◌, ◌<◌, ◌≤◌, ◌∷◌, [], IfOk, MatchOption, None, OnErr, false, length};
ghost use Rattle.ws_upgrade.specs.Protocols.{AreOffers};
ghost use Rattle.ws_serving.specs.ClientEnds.{known_to};
ghost use Rattle.ws_serving.specs.InnerGuests.{AreEchoes};
ghost use Rattle.ws_serving.specs.InnerServing.{AreReady, EndsRefused, KeepsServing, SaysEnd, SaysFull, StopsServing};
ghost use Rattle.ws_serving.specs.InnerServing.{is_last, most_told};
ghost use Rattle.ws_serving.specs.News.{HasTakenNews};
ghost use Rattle.ws_serving.specs.Serving.{ServesAll};
ghost use Rattle.ws_serving.specs.declared.news_sink.News.TheVariants.{Ended, Full};

use crate::client_end::ClientEnd;
use crate::guests::{Guests, Service, Step};
use crate::news_sink::{News, NewsSink};
use std::alloc::Global;
use ws_base::NoMemory;
use ws_loops::{Listener, LoopFault, Poller};

/// How the serving has ended.
#[derive(Drop)]
pub enum ServingEnd<F> {
    /// As many clients as were to be served were served, and all was told of them.
    Done,
    /// Nobody is there, and no client can be taken any more.
    Deaf,
    /// The loop could not go on.
    Stopped(LoopFault),
    /// The sink didn't take what was told, for this reason.
    Refused(F),
}

/// What was told so far.
#[derive(Clone, Copy)]
pub(crate) struct Said {
    /// The ends of so many clients.
    told: u64,
    /// That no client could be taken.
    full: bool,
}

/// Serves the clients of a listener, and tells of each how its connection has ended, as soon as it has: its stream was
/// ended from this side by then. Where no more clients can be taken while some are there, that is told once, and they
/// are asked for again when one has gone. Behind the last one nobody is taken. Those who were left are read to the end
/// for a while.
pub fn serve_clients<'a, L: Listener + Drop, P: Poller + Drop, E: NewsSink>(
    alloc: Global,
    service: &'a Service<'a>,
    listener: L,
    poller: P,
    sink: &mut E,
) -> Result<ServingEnd<E::Fault>, NoMemory>
    requires known { AreOffers (known_to service.now) }
    ensures serves { IfOk result (ServesAll L.Client.did L.did E.heard E.refused service.now listener sink.old
        sink.new) }
    ensures kept { OnErr result (sink.new ≡ sink.old) }
{
    let mut guests = Guests::new(alloc, service, listener, poller)?;
    let end = serve_all(&mut guests, sink);
    guests.end();
    Ok(end)
}

/// Serves all, until as many as are to be served were, or it can't go on.
fn serve_all<L: Listener + Drop, P: Poller + Drop, E: NewsSink>(
    guests: &mut Guests<'_, L, P>,
    sink: &mut E,
) -> ServingEnd<E::Fault>
    requires room { 0 < length guests.old.room.items }
    requires ready { AreReady guests.old.service.now guests.old.listener guests.old.clients }
    ensures serves { ServesAll L.Client.did L.did E.heard E.refused guests.old.service.now
        guests.old.listener.listener sink.old sink.new result }
    ensures room { 0 < length guests.new.room.items }
{
    let mut said = Said {
        told: 0,
        full: false,
    };
    let mut left = u64::MAX;
    while left > 0 && !is_last(guests.service.count, said.told) {
        left -= 1;
        if let Some(end) = advance(guests, sink, &mut said) {
            return end;
        }
    }
    if is_last(guests.service.count, said.told) {
        ServingEnd::Done
    } else {
        ServingEnd::Stopped(LoopFault::WaitFailed)
    }
}

/// Whether that was told of the last one who is to be served.
fn is_last(count: Option<u64>, told: u64) -> bool
    ensures { result ≡ is_last count told }
{
    match count {
        Some(count) => told >= count,
        None => false,
    }
}

/// Serves all until something has happened, and tells it. Answers how the serving has ended, if it has.
fn advance<L: Listener + Drop, P: Poller + Drop, E: NewsSink>(
    guests: &mut Guests<'_, L, P>,
    sink: &mut E,
    said: &mut Said,
) -> Option<ServingEnd<E::Fault>>
    requires room { 0 < length guests.old.room.items }
    requires known { guests.old.clients.known ≡ known_to guests.old.service.now }
    requires plays { AreEchoes L.Client.did guests.old.service.now guests.old.clients.places }
    requires few { said.old.told < most_told }
    ensures goes { MatchOption result
        (KeepsServing L.Client.did L.did E.heard guests.old.service.now guests.old.listener guests.new.listener
        sink.old sink.new guests.old.clients guests.new.clients said.old said.new)
        (StopsServing L.Client.did L.did E.heard E.refused guests.old.service.now guests.old.listener sink.old
        sink.new guests.old.clients said.old) }
    ensures room { 0 < length guests.new.room.items }
    ensures service { result ≡ None → guests.new.service.now ≡ guests.old.service.now }
    ensures few { said.new.told ≤ said.old.told + 1 }
{
    match guests.step() {
        Ok(Step::Ended(number, end)) => tell_end(sink, number, end, said),
        Ok(Step::Full) => tell_full(sink, said),
        Ok(Step::On) => None,
        Ok(Step::Deaf) => Some(ServingEnd::Deaf),
        Err(why) => Some(ServingEnd::Stopped(why)),
    }
}

/// Tells how the connection of the client of this number has ended.
fn tell_end<E: NewsSink>(
    sink: &mut E,
    number: u64,
    end: ClientEnd,
    said: &mut Said,
) -> Option<ServingEnd<E::Fault>>
    requires few { said.old.told < most_told }
    ensures tells { MatchOption result
        (HasTakenNews E.heard sink.old sink.new (Ended number end ∷ []) × SaysEnd said.old said.new)
        (EndsRefused E.refused sink.old sink.new (Ended number end)) }
    ensures few { said.new.told ≤ said.old.told + 1 }
{
    match sink.put(News::Ended(number, end)) {
        Ok(()) => {
            said.told = said.told.saturating_add(1);
            None
        }
        Err(why) => Some(ServingEnd::Refused(why)),
    }
}

/// Tells that no client can be taken for now, if that wasn't told before.
fn tell_full<E: NewsSink>(sink: &mut E, said: &mut Said) -> Option<ServingEnd<E::Fault>>
    ensures tells { MatchOption result (SaysFull E.heard sink.old sink.new said.old said.new)
        (λ end. (said.old.full ≡ false) × EndsRefused E.refused sink.old sink.new Full end) }
    ensures told { said.new.told ≡ said.old.told }
{
    if said.full {
        return None;
    }
    match sink.put(News::Full) {
        Ok(()) => {
            said.full = true;
            None
        }
        Err(why) => Some(ServingEnd::Refused(why)),
    }
}
