//! How long connections have lasted.

use std::alloc::Global;
use std::cell::Cell;
use ws_base::NoMemory;

/// When the client of each place has come, and how long the connection has lasted of which is told next. Nothing is
/// said of either: they are only for the times of lines.
#[derive(Drop)]
pub(crate) struct PlaceAges<'a> {
    began: Vec<u64>,
    /// In milliseconds.
    age: &'a Cell<u64>,
}

impl<'a> PlaceAges<'a> {
    /// Nobody has come for any of so many places.
    pub(crate) fn new(
        alloc: Global,
        places: usize,
        age: &'a Cell<u64>,
    ) -> Result<PlaceAges<'a>, NoMemory> {
        let began = vec![in alloc; 0; places]?;
        Ok(PlaceAges { began, age })
    }

    /// A client has come for this place.
    pub(crate) fn begin(&mut self, at: usize, now: u64) {
        if let Some(began) = self.began.get_mut(at) {
            *began = now;
        }
    }

    /// The lines that are told next are of the connection of the client in this place.
    pub(crate) fn tell(&self, at: usize, now: u64) {
        let age = match self.began.get(at) {
            Some(began) => now.saturating_sub(*began),
            None => 0,
        };
        self.age.set(age);
    }
}
