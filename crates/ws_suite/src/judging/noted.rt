//! The highest number that is noted for each payload of pongs.

ghost use Rattle.std.specs.Prelude.{◌≡◌, IfOk, OnOk, length};
ghost use Rattle.ws_suite.specs.InnerNoted.{HavePlaces, IsAskedFor, HoldsNothing, IsNotedIn, highest};
ghost use Rattle.ws_suite.specs.InnerNoted.{noted_of, reaches};

use crate::judging::chosen::Chosen;
use std::alloc::Global;
use std::collections::BTreeMap;
use ws_base::NoMemory;

/// One behind the highest number of each payload. Payloads that are asked for have a place, or else all for which a
/// number is noted: those which are fewer, so that at most half of the replies take the room of one.
#[derive(Drop)]
pub(super) struct Noted<'a> {
    ends: BTreeMap<&'a [u8], usize>,
    /// Each payload for which a number was noted has a place.
    has_all: bool,
}

impl<'a> Noted<'a> {
    /// Nothing is noted. These payloads are asked for, unless there are more of them than numbers to come.
    pub(super) fn asked(
        alloc: Global,
        pongs: Chosen<'a>,
        coming: usize,
    ) -> Result<Noted<'a>, NoMemory>
        ensures asked { IfOk result (IsAskedFor pongs.entry) }
        ensures nothing { IfOk result HoldsNothing }
    {
        let has_all = coming <= how_many(pongs.again());
        let mut noted = Noted {
            ends: BTreeMap::new(alloc),
            has_all,
        };
        if !has_all {
            noted.ask(pongs)?;
        }
        Ok(noted)
    }

    /// These payloads have a place.
    fn ask(&mut self, pongs: Chosen<'a>) -> Result<(), NoMemory>
        ensures { OnOk result (HoldsNothing self.old → HoldsNothing self.new × HavePlaces pongs.entry self.new) }
    {
        let mut left = pongs;
        while let Some(pong) = left.next() {
            self.ends.insert(pong.payload, 0)?;
        }
        Ok(())
    }

    /// A number for this payload.
    pub(super) fn note(&mut self, payload: &'a [u8], number: usize) -> Result<(), NoMemory>
        ensures { OnOk result (IsNotedIn payload.now number self.old self.new) }
    {
        // No memory holds as many replies or turns.
        let Some(end) = number.checked_add(1) else {
            return Err(NoMemory);
        };
        let known = self.ends.get(&payload).copied();
        if self.has_all || known.is_some() {
            self.ends.insert(payload, highest(end, known))?;
        }
        Ok(())
    }

    /// Whether this number or a higher one may have been noted for the payload.
    pub(super) fn reaches(&self, payload: &'a [u8], number: usize) -> bool
        ensures { result ≡ reaches self.now.has_all number (noted_of self.now payload.now) }
    {
        match self.ends.get(&payload) {
            Some(end) => number < *end,
            None => !self.has_all,
        }
    }
}

/// The higher of two numbers, where there is another one.
fn highest(number: usize, other: Option<usize>) -> usize
    ensures { result ≡ highest number other }
{
    match other {
        Some(other) => number.max(other),
        None => number,
    }
}

/// How many pongs are to come.
pub(super) fn how_many(pongs: Chosen<'_>) -> usize
    ensures { result ≡ length pongs.entry }
{
    let _most = pongs.most();
    let mut left = pongs;
    let mut count = 0;
    while let Some(_pong) = left.next() {
        count += 1;
    }
    count
}
