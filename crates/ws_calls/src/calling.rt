//! An end that a script makes calls of, and the call that a session and an echo answer alike: a piece is taken.

ghost use Rattle.std.specs.Prelude.{◌≡◌, ◌≤◌, List, [], length, drop, OnOk, string_bytes};
ghost use Rattle.ws_wire.specs.Frame.{Frame};
ghost use Rattle.ws_session.specs.Exchange.{Exchange, SessionValue};
ghost use Rattle.ws_session.specs.Taking.{HasTakenAll};
ghost use Rattle.ws_session.specs.Replies.{echo_reply_to, reply_to};
ghost use Rattle.ws_session.specs.declared.event.Event.{Event};
ghost use Rattle.ws_session.specs.declared.event.PlacedEvent.{PlacedEvent};
ghost use Rattle.ws_calls.specs.declared.calls.Call.TheVariants.{Take};
ghost use Rattle.ws_calls.specs.InnerSteps.{Agrees, HasToldCall, HasToldPart, HasToldWord, endpoint_of};

use crate::report_lines::{tell_events, tell_taken};
use std::alloc::Global;
use std::mem::replace;
use ws_base::{LineFault, NoMemory};
use ws_formats::{read_hex_in_place, read_hex_into};
use ws_parts::cut_part;
use ws_session::laws::{one_list_of_events, replies_go_on};
use ws_session::{Echo, PlacedEvent, Session, Status};

/// What is left of a piece that is at most so long is kept until all of it is taken.
const MOST_KEPT: usize = 65536;

/// An end that a script makes calls of: a session, or an echo.
pub(crate) trait Scripted: Drop {
    /// It, as a session.
    ghost value: { Self → SessionValue };

    /// The frames that it owes for an event.
    ghost reply: { Event → List Frame };

    /// Whether it is over, and how.
    fn status_now(&self) -> Status
        ensures { result ≡ (value self.now).status };

    /// Takes a whole piece, puts the frames owed at the end of `out`, and appends the events.
    fn take_whole(
        &mut self,
        piece: &[u8],
        key: [u8; 4],
        out: &mut Vec<u8>,
        events: &mut Vec<PlacedEvent>,
    ) -> Result<(), NoMemory>
        ensures { OnOk result (HasTakenAll reply (value self.old) (value self.new)
            (record { piece = piece.now; key = key; before = out.old.items; after = out.new.items })
            events.old.items events.new.items) };
}

impl Scripted for Session {
    ghost value = { λ session. session };

    ghost reply = { reply_to };

    fn status_now(&self) -> Status {
        self.status()
    }

    fn take_whole(
        &mut self,
        piece: &[u8],
        key: [u8; 4],
        out: &mut Vec<u8>,
        events: &mut Vec<PlacedEvent>,
    ) -> Result<(), NoMemory> {
        self.take_all(piece, key, out, events)?;
        Ok(())
    }
}

impl Scripted for Echo {
    ghost value = { λ echo. echo };

    ghost reply = { echo_reply_to };

    fn status_now(&self) -> Status {
        self.status()
    }

    fn take_whole(
        &mut self,
        piece: &[u8],
        key: [u8; 4],
        out: &mut Vec<u8>,
        events: &mut Vec<PlacedEvent>,
    ) -> Result<(), NoMemory> {
        self.take_all(piece, key, out, events)?;
        Ok(())
    }
}

/// An end that is called, how many bytes it has taken, and the lines that tell what came of its calls.
#[derive(Drop)]
pub struct Caller<E> {
    pub(crate) called: E,
    pub(crate) taken: u64,
    pub(crate) lines: String,
    /// Room for the bytes of a piece that is taken.
    pub(crate) piece: Vec<u8>,
    /// Room for the bytes that a call puts: each call empties it first.
    pub(crate) put: Vec<u8>,
    /// Room for the events of a part of a piece: each part empties it first.
    pub(crate) events: Vec<PlacedEvent>,
}

impl<E: Scripted> Caller<E> {
    /// Nothing was asked of the end yet.
    pub(crate) fn at(alloc: Global, called: E) -> Caller<E>
        ensures called { result.called ≡ called }
        ensures taken { result.taken ≡ 0 }
        ensures lines { string_bytes result.lines ≡ [] }
    {
        Caller {
            called,
            taken: 0,
            lines: String::new(alloc),
            piece: Vec::new(alloc),
            put: Vec::new(alloc),
            events: Vec::new(alloc),
        }
    }

    /// The piece that a word spells is taken.
    pub(crate) fn take_word(
        &mut self,
        alloc: Global,
        word: &[u8],
        key: [u8; 4],
    ) -> Result<(), LineFault>
        ensures { HasToldWord E.value E.reply self.old self.new word.now key result }
    {
        let mut piece = replace(&mut self.piece, Vec::new(alloc));
        read_hex_into(&mut piece, word)?;
        match self.take(alloc, &mut piece, key) {
            Ok(()) => {}
            Err(NoMemory) => return Err(LineFault::NoMemory),
        }
        self.piece = piece;
        Ok(())
    }

    /// The same of a word in a room of its own, where the piece takes its place.
    pub(crate) fn take_kept_word(
        &mut self,
        alloc: Global,
        word: &mut Vec<u8>,
        key: [u8; 4],
    ) -> Result<(), LineFault>
        ensures { HasToldWord E.value E.reply self.old self.new word.old.items key result }
    {
        read_hex_in_place(word)?;
        // The room of a long word is given back before it is told what the piece is.
        word.shrink_to(MOST_KEPT);
        match self.take(alloc, word, key) {
            Ok(()) => Ok(()),
            Err(NoMemory) => Err(LineFault::NoMemory),
        }
    }

    /// A piece is taken whole, unless the end is over.
    pub(crate) fn take(
        &mut self,
        alloc: Global,
        piece: &mut Vec<u8>,
        key: [u8; 4],
    ) -> Result<(), NoMemory>
        ensures { (exchange : Exchange) → Agrees exchange self.old.taken (E.value self.old.called) →
            OnOk result (HasToldCall (endpoint_of E.reply (E.value self.old.called)) exchange
            (Take piece.old.items key) (string_bytes self.old.lines) self.new.taken (E.value self.new.called)
            (string_bytes self.new.lines)) }
    {
        self.put.clear();
        let len = piece.len() as u64;
        if !self.called.status_now().is_over() {
            self.take_piece(alloc, piece, key)?;
        }
        // Its events are told.
        tell_taken(len, self.put.as_slice(), &mut self.lines)?;
        Ok(())
    }

    /// Takes a piece, and tells its events. Once half of a long one is told, no more than the other half is kept.
    fn take_piece(
        &mut self,
        alloc: Global,
        piece: &mut Vec<u8>,
        key: [u8; 4],
    ) -> Result<(), NoMemory>
        ensures { OnOk result (HasToldPart E.value E.reply self.old self.new piece.old.items key) }
    {
        one_list_of_events();
        replies_go_on();
        'halves: while piece.len() > MOST_KEPT {
            let half = piece.len() / 2;
            self.take_parts(alloc, &piece.as_slice()[..half], key)?;
            drop_front(piece, half);
        }
        self.take_parts(alloc, piece.as_slice(), key)?;
        Ok(())
    }

    /// Takes a piece part by part, and tells its events: those of a part are told before more bytes are taken.
    fn take_parts(&mut self, alloc: Global, piece: &[u8], key: [u8; 4]) -> Result<(), NoMemory>
        ensures { OnOk result (HasToldPart E.value E.reply self.old self.new piece.now key) }
    {
        one_list_of_events();
        replies_go_on();
        let mut rest = piece;
        while !rest.is_empty() {
            let (part, after) = cut_part(rest);
            self.take_part(alloc, part, key)?;
            rest = after;
        }
        Ok(())
    }

    /// Takes a part of a piece, and tells its events.
    fn take_part(&mut self, alloc: Global, part: &[u8], key: [u8; 4]) -> Result<(), NoMemory>
        ensures { OnOk result (HasToldPart E.value E.reply self.old self.new part.now key) }
    {
        self.events.clear();
        self.called
            .take_whole(part, key, &mut self.put, &mut self.events)?;
        // There is no room for a greater number, as there is none for so many bytes.
        let Some(taken) = self.taken.checked_add(part.len() as u64) else {
            return Err(NoMemory);
        };
        tell_events(alloc, self.taken, self.events.as_slice(), &mut self.lines)?;
        self.taken = taken;
        Ok(())
    }
}

/// Drops so many bytes at the front, and gives their room back.
fn drop_front(bytes: &mut Vec<u8>, count: usize)
    requires { count ≤ length bytes.old.items }
    ensures { bytes.new.items ≡ drop count bytes.old.items }
{
    let left = bytes.len() - count;
    bytes.copy_within(count.., 0);
    bytes.truncate(left);
    bytes.shrink_to_fit();
}
