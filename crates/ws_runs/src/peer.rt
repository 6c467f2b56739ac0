//! A tested peer.

ghost use Rattle.std.specs.Prelude.{◌≡◌, ℕ, List, None, OnOk, length};
ghost use Rattle.ws_runs.specs.Names.{place_among};
ghost use Rattle.ws_runs.specs.Runs.{case_ids, cell_of, new_peer, peer_with_note, peer_with_result, peer_with_total};
ghost use Rattle.ws_runs.specs.Views.{cell_value, peer_with_new, result_value, result_values, texts_now};

use crate::places::{Places, note_place, place_of};
use crate::result::CaseResult;
use std::alloc::Global;
use std::collections::BTreeMap;
use std::marker::Model;
use ws_base::NoMemory;

/// A tested peer, and the cases that it ran.
#[derive(Drop)]
pub struct Peer<'a> {
    name: &'a str,
    notes: Vec<&'a str>,
    is_cut_off: bool,
    cells: Vec<CaseResult<'a>>,
    /// Where each case is among these.
    places: Places<'a>,
}

impl<'a> Model for Peer<'a> {
    ghost use Rattle.ws_runs.specs.Places.{AreNotedPlaces};
    ghost use Rattle.ws_runs.specs.Runs.{PeerValue, case_ids};
    ghost use Rattle.ws_runs.specs.Views.{result_values, texts_now};

    ghost Value = { PeerValue };

    ghost view = { λ peer. record {
      name = peer.name.now;
      notes = texts_now peer.notes.items;
      is_cut_off = peer.is_cut_off;
      cells = result_values peer.cells.items;
    } };

    ghost invariant = { λ peer. AreNotedPlaces (case_ids (result_values peer.cells.items)) peer.places };
}

impl<'a> Peer<'a> {
    /// A peer of which only the name is known.
    pub(crate) fn new(alloc: Global, name: &'a str) -> Peer<'a>
        ensures { result ≡ new_peer name.now }
    {
        Peer {
            name,
            notes: Vec::new(alloc),
            is_cut_off: true,
            cells: Vec::new(alloc),
            places: BTreeMap::new(alloc),
        }
    }

    /// Its name, `-` if it has none.
    pub fn name(&self) -> &'a str
        ensures { result.now ≡ self.now.name }
    {
        self.name
    }

    /// What else is said of it.
    pub fn notes(&self) -> &[&'a str]
        ensures { texts_now result.now ≡ self.now.notes }
    {
        self.notes.as_slice()
    }

    /// Whether its run was cut off: no total is behind its last case.
    pub fn is_cut_off(&self) -> bool
        ensures { result ≡ self.now.is_cut_off }
    {
        self.is_cut_off
    }

    /// How many cases it ran.
    pub fn count(&self) -> usize
        ensures { result ≡ length self.now.cells }
    {
        self.cells.len()
    }

    /// What counts of the cases that it ran, in the order in which they first appear.
    pub fn cells(&self) -> &[CaseResult<'a>]
        ensures { result_values result.now ≡ self.now.cells }
    {
        self.cells.as_slice()
    }

    /// What counts of a case. `None` if it didn't run it.
    pub fn cell(&self, id: &'a [u8]) -> Option<CaseResult<'a>>
        ensures { cell_value result ≡ cell_of self.now.cells id.now }
    {
        let place = place_of(&self.places, id)?;
        Some(self.cells[place])
    }

    /// A result counts in place of an earlier one of its case.
    pub(crate) fn put_result(&mut self, case: CaseResult<'a>) -> Result<(), NoMemory>
        ensures put { OnOk result (self.new ≡ peer_with_result (result_value case.entry) self.old) }
        ensures name { self.new.name ≡ self.old.name }
    {
        self.is_cut_off = true;
        match place_of(&self.places, case.id) {
            Some(place) => self.cells[place] = case,
            None => self.push_result(case)?,
        }
        Ok(())
    }

    /// The result of a case that it hasn't run before.
    fn push_result(&mut self, case: CaseResult<'a>) -> Result<(), NoMemory>
        requires { place_among case.id.now (case_ids self.old.cells) ≡ None }
        ensures put { OnOk result (self.new ≡ peer_with_new (result_value case.entry) self.old) }
        ensures name { self.new.name ≡ self.old.name }
    {
        let place = self.cells.len();
        self.cells.push(case)?;
        if note_place(&mut self.places, case.id, place).is_err() {
            self.cells.pop();
            return Err(NoMemory);
        }
        Ok(())
    }

    /// More is said of it.
    pub(crate) fn put_note(&mut self, text: &'a str) -> Result<(), NoMemory>
        ensures put { OnOk result (self.new ≡ peer_with_note text.now self.old) }
        ensures name { self.new.name ≡ self.old.name }
    {
        self.notes.push(text)?;
        Ok(())
    }

    /// Its run ended.
    pub(crate) fn end_run(&mut self)
        ensures { self.new ≡ peer_with_total self.old }
    {
        self.is_cut_off = false;
    }
}
