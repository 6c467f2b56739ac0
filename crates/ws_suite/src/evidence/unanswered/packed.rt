//! Payloads of pings or pongs that take little room: their bytes stand one behind the other.

ghost use Rattle.std.specs.Prelude.{◌≡◌, ◌≤◌, ◌+◌, ◌++◌, ◌∷◌, [], IfNone, IfSome, OnErr, OnOk, bytes_eq, drop, false};
ghost use Rattle.std.specs.Prelude.{length, sum};
ghost use Rattle.std.specs.List.{remove_range};
ghost use Rattle.ws_suite.specs.InnerUnanswered.{HasBytes, IsPlaceOfPing, payloads_by};
ghost use Rattle.ws_suite.specs.Progress.{is_pong_owed, without_ping};

use std::alloc::Global;
use std::collections::VecDeque;
use std::marker::Model;
use ws_base::NoMemory;

/// Payloads in their order, which may be taken out, most from the front. Contracts see their list.
#[derive(Drop)]
pub(super) struct PackedPayloads {
    lens: VecDeque<u8>,
    bytes: Vec<u8>,
    /// How many bytes stand before those of the first payload.
    gone: usize,
}

/// Where a payload stands: how many stand before it, and how many bytes these have.
#[derive(Clone, Copy)]
struct Place {
    number: usize,
    start: usize,
}

impl Model for PackedPayloads {
    ghost use Rattle.std.specs.Prelude.{List, ℕ, drop};
    ghost use Rattle.ws_suite.specs.InnerUnanswered.{HasBytes, payloads_by};

    ghost Value = { List (List ℕ) };

    ghost view = { λ x. payloads_by x.lens.items (drop x.gone x.bytes.items) };

    ghost invariant = { λ x. HasBytes x.lens.items x.bytes.items x.gone };
}

impl PackedPayloads {
    /// No payload.
    pub(super) fn new(alloc: Global) -> PackedPayloads
        ensures { result ≡ [] }
    {
        PackedPayloads {
            lens: VecDeque::new(alloc),
            bytes: Vec::new(alloc),
            gone: 0,
        }
    }

    /// One more, behind the others.
    pub(super) fn push(&mut self, payload: &[u8]) -> Result<(), NoMemory>
        ensures ok { OnOk result (self.new ≡ self.old ++ payload.now ∷ []) }
        ensures err { OnErr result (self.new ≡ self.old) }
    {
        // No ping or pong has a longer payload than 125 bytes.
        let Ok(len) = u8::try_from(payload.len()) else {
            return Err(NoMemory);
        };
        self.lens.reserve(1)?;
        self.bytes.extend_from_slice(payload)?;
        self.lens.push_back_reserved(len);
        Ok(())
    }

    /// Whether this one is there.
    pub(super) fn contains(&self, payload: &[u8]) -> bool
        ensures { result ≡ is_pong_owed payload.now self.now }
    {
        let there = &self.bytes.as_slice()[self.gone..];
        match place_of(&self.lens, there, payload) {
            Some(_) => true,
            None => false,
        }
    }

    /// Takes out the first that is this one, if there is one.
    pub(super) fn take_out(&mut self, payload: &[u8]) -> bool
        ensures owed { result ≡ is_pong_owed payload.now self.old }
        ensures left { self.new ≡ without_ping payload.now self.old }
    {
        let there = &self.bytes.as_slice()[self.gone..];
        let Some(place) = place_of(&self.lens, there, payload) else {
            return false;
        };
        self.gone = drop_at(&mut self.lens, &mut self.bytes, self.gone, place, payload);
        self.make_room();
        true
    }

    /// Where more than half of what is kept is gone, the rest moves to the front: so at most half is gone, and fewer
    /// bytes move than were dropped.
    fn make_room(&mut self)
        ensures { self.new ≡ self.old }
    {
        if self.gone > self.bytes.len() / 2 {
            cut_out(&mut self.bytes, 0, self.gone);
            self.gone = 0;
        }
    }
}

/// Drops the payload that stands at this place, where so many bytes stand before all of them. Answers how many do then.
fn drop_at(
    lens: &mut VecDeque<u8>,
    bytes: &mut Vec<u8>,
    gone: usize,
    place: Place,
    payload: &[u8],
) -> usize
    requires fits { HasBytes lens.old.items bytes.old.items gone }
    requires there { IsPlaceOfPing payload.now lens.old.items (drop gone bytes.old.items) place }
    ensures fits { HasBytes lens.new.items bytes.new.items result }
    ensures left { payloads_by lens.new.items (drop result bytes.new.items)
        ≡ without_ping payload.now (payloads_by lens.old.items (drop gone bytes.old.items)) }
{
    lens.remove(place.number);
    if place.start == 0 {
        return gone + payload.len();
    }
    cut_out(bytes, gone + place.start, payload.len());
    gone
}

/// Takes so many bytes out of some.
fn cut_out(bytes: &mut Vec<u8>, start: usize, len: usize)
    requires { start + len ≤ length bytes.old.items }
    ensures { bytes.new.items ≡ remove_range bytes.old.items start (start + len) }
{
    let left = bytes.len() - len;
    bytes.copy_within(start + len.., start);
    bytes.truncate(left);
}

/// The place of the first payload that is this one.
fn place_of(lens: &VecDeque<u8>, bytes: &[u8], payload: &[u8]) -> Option<Place>
    requires { sum lens.now.items ≡ length bytes.now }
    ensures none { IfNone result (is_pong_owed payload.now (payloads_by lens.now.items bytes.now) ≡ false) }
    ensures first { IfSome result (IsPlaceOfPing payload.now lens.now.items bytes.now) }
{
    let mut start = 0;
    for number in 0..lens.len() {
        let len = lens[number] as usize;
        if are_same(payload, &bytes[start..start + len]) {
            return Some(Place { number, start });
        }
        start += len;
    }
    None
}

/// Whether these are the same bytes.
fn are_same(one: &[u8], other: &[u8]) -> bool
    ensures { result ≡ bytes_eq one.now other.now }
{
    one == other
}
