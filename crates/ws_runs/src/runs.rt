//! The peers and the cases of runs.

ghost use Rattle.std.specs.Prelude.{◌≡◌, ◌<◌, ℕ, List, IfOk, None, OnOk, Some, length};
ghost use Rattle.ws_runs.specs.Names.{place_among};
ghost use Rattle.ws_runs.specs.Runs.{new_peer, no_runs, peer_names, peer_with_note, peer_with_result};
ghost use Rattle.ws_runs.specs.Runs.{peer_with_total, runs_with_id, runs_with_peer};
ghost use Rattle.ws_runs.specs.Views.{result_value, runs_with_new, texts_now};

use crate::peer::Peer;
use crate::places::{Places, note_place, place_of};
use crate::result::CaseResult;
use std::alloc::Global;
use std::collections::BTreeMap;
use std::marker::Model;
use ws_base::NoMemory;

/// The peers of runs, and the cases that any of them ran.
#[derive(Drop)]
pub struct Runs<'a> {
    peers: Vec<Peer<'a>>,
    /// Where each peer is among these.
    peer_places: Places<'a>,
    ids: Vec<&'a [u8]>,
    /// Where each case is among these.
    id_places: Places<'a>,
}

impl<'a> Model for Runs<'a> {
    ghost use Rattle.ws_runs.specs.Places.{AreNotedPlaces};
    ghost use Rattle.ws_runs.specs.Runs.{RunsValue, peer_names};
    ghost use Rattle.ws_runs.specs.Views.{texts_now};

    ghost Value = { RunsValue };

    ghost view = { λ runs. record { peers = runs.peers.items; ids = texts_now runs.ids.items } };

    ghost invariant = { λ runs. AreNotedPlaces (peer_names runs.peers.items) runs.peer_places
        × AreNotedPlaces (texts_now runs.ids.items) runs.id_places };
}

impl<'a> Runs<'a> {
    /// No peer and no case.
    pub(crate) fn new(alloc: Global) -> Runs<'a>
        ensures { result ≡ no_runs }
    {
        Runs {
            peers: Vec::new(alloc),
            peer_places: BTreeMap::new(alloc),
            ids: Vec::new(alloc),
            id_places: BTreeMap::new(alloc),
        }
    }

    /// The peers, in the order in which they first appear.
    pub fn peers(&self) -> &[Peer<'a>]
        ensures { result.now ≡ self.now.peers }
    {
        self.peers.as_slice()
    }

    /// The names of the cases that any of them ran, in the order in which they first appear.
    pub fn ids(&self) -> &[&'a [u8]]
        ensures { texts_now result.now ≡ self.now.ids }
    {
        self.ids.as_slice()
    }

    /// The place of the peer of this name, which is there from now on.
    pub(crate) fn place_for(&mut self, alloc: Global, name: &'a str) -> Result<usize, NoMemory>
        ensures there { IfOk result (λ place. place_among name.now (peer_names self.new.peers) ≡ Some place) }
        ensures put { OnOk result (self.new ≡ runs_with_peer name.now (λ peer. peer) self.old) }
    {
        match place_of(&self.peer_places, name.as_bytes()) {
            Some(place) => Ok(place),
            None => self.push_peer(alloc, name),
        }
    }

    /// A peer that isn't there yet comes last. Answers its place.
    fn push_peer(&mut self, alloc: Global, name: &'a str) -> Result<usize, NoMemory>
        requires { place_among name.now (peer_names self.old.peers) ≡ None }
        ensures place { IfOk result (λ place. place ≡ length self.old.peers) }
        ensures put { OnOk result (self.new ≡ runs_with_new (new_peer name.now) self.old) }
    {
        let place = self.peers.len();
        self.peers.push(Peer::new(alloc, name))?;
        if note_place(&mut self.peer_places, name.as_bytes(), place).is_err() {
            self.peers.pop();
            return Err(NoMemory);
        }
        Ok(place)
    }

    /// A case that was run is there from now on.
    pub(crate) fn put_id(&mut self, id: &'a [u8]) -> Result<(), NoMemory>
        ensures { OnOk result (self.new ≡ runs_with_id id.now self.old) }
    {
        match place_of(&self.id_places, id) {
            Some(_) => Ok(()),
            None => self.push_id(id),
        }
    }

    /// A case that isn't there yet comes last.
    fn push_id(&mut self, id: &'a [u8]) -> Result<(), NoMemory>
        requires { place_among id.now self.old.ids ≡ None }
        ensures { OnOk result (self.new ≡ runs_with_id id.now self.old) }
    {
        let place = self.ids.len();
        self.ids.push(id)?;
        if note_place(&mut self.id_places, id, place).is_err() {
            self.ids.pop();
            return Err(NoMemory);
        }
        Ok(())
    }

    /// A result of the peer at this place.
    pub(crate) fn put_result(&mut self, place: usize, case: CaseResult<'a>) -> Result<(), NoMemory>
        requires { place < length self.old.peers }
        ensures { OnOk result ((name : List ℕ) → place_among name (peer_names self.old.peers) ≡ Some place
            → self.new ≡ runs_with_peer name (peer_with_result (result_value case.entry)) self.old) }
    {
        self.peers[place].put_result(case)
    }

    /// More is said of the peer at this place.
    pub(crate) fn put_note(&mut self, place: usize, text: &'a str) -> Result<(), NoMemory>
        requires { place < length self.old.peers }
        ensures { OnOk result ((name : List ℕ) → place_among name (peer_names self.old.peers) ≡ Some place
            → self.new ≡ runs_with_peer name (peer_with_note text.now) self.old) }
    {
        self.peers[place].put_note(text)
    }

    /// The run of the peer at this place ended.
    pub(crate) fn end_run(&mut self, place: usize)
        requires { place < length self.old.peers }
        ensures { (name : List ℕ) → place_among name (peer_names self.old.peers) ≡ Some place
            → self.new ≡ runs_with_peer name peer_with_total self.old }
    {
        self.peers[place].end_run();
    }
}
