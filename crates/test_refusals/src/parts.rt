//! The lists that are played, each by the calls that it is about.

use crate::captures::{self, Capture};
use crate::pairs::{self, Script};
use crate::streams::{self, Stream};
use crate::tally::Tally;
use crate::{feeding, peers, rooms, script_texts, scripts, sending, spent, taking};
use std::alloc::Global;
use ws_base::NoMemory;

/// A list, and how it is played.
#[derive(Clone, Copy)]
pub enum Part {
    /// `Session::take`.
    Take(&'static Stream),
    /// `Session::take_into`.
    TakeInto(&'static Stream),
    /// `Echo::take`.
    EchoTake(&'static Stream),
    /// `feed_all`.
    Feed(&'static Stream),
    /// `begin`, `more`, `ping`, `pong`, `close` and `take` of a client.
    Sends(&'static sending::List),
    /// `run_pair`.
    Pair(&'static Script),
    /// `read_capture`, `read_capture2`, `judge` and `write_capture`.
    Capture(&'static Capture),
    /// `ids`, `case` and `turns`.
    Scripts,
    /// `read_script` and `write_script`.
    ScriptText,
    /// `run_case` over an echo.
    EchoRun,
    /// `run_case` over `tungstenite`.
    TungRun,
    /// `feed` and `finish` of an echo.
    EchoFeed,
    /// `feed` and `finish` of `tungstenite`.
    TungFeed,
    /// What a session asks for, which is counted from outside.
    Rooms,
}

pub const PARTS: [Part; 35] = [
    Part::Take(&streams::HELLO),
    Part::Take(&streams::CUT_TEXT),
    Part::Take(&streams::OVERSIZED),
    Part::Take(&streams::CLOSED),
    Part::Take(&streams::FRAGMENTS),
    Part::TakeInto(&streams::HELLO),
    Part::TakeInto(&streams::CUT_TEXT),
    Part::TakeInto(&streams::OVERSIZED),
    Part::TakeInto(&streams::CLOSED),
    Part::TakeInto(&streams::FRAGMENTS),
    Part::EchoTake(&streams::HELLO),
    Part::EchoTake(&streams::CUT_TEXT),
    Part::EchoTake(&streams::OVERSIZED),
    Part::EchoTake(&streams::CLOSED),
    Part::EchoTake(&streams::FRAGMENTS),
    Part::Feed(&streams::HELLO),
    Part::Feed(&streams::CUT_TEXT),
    Part::Feed(&streams::OVERSIZED),
    Part::Feed(&streams::CLOSED),
    Part::Feed(&streams::FRAGMENTS),
    Part::Sends(&sending::TEXT),
    Part::Sends(&sending::OVERSIZED),
    Part::Sends(&sending::FRAGMENTS),
    Part::Pair(&pairs::OVERSIZED),
    Part::Pair(&pairs::FRAGMENTS),
    Part::Capture(&captures::ECHO),
    Part::Capture(&captures::EARLY),
    Part::Capture(&captures::FRAGMENTS),
    Part::Scripts,
    Part::ScriptText,
    Part::EchoRun,
    Part::TungRun,
    Part::EchoFeed,
    Part::TungFeed,
    Part::Rooms,
];

impl Part {
    /// What it is called where it differs.
    pub fn name(self) -> &'static str {
        match self {
            Part::Take(_) => "take",
            Part::TakeInto(_) => "take_into",
            Part::EchoTake(_) => "Echo::take",
            Part::Feed(_) => "feed_all",
            Part::Sends(_) => "begin, more, ping, pong, close",
            Part::Pair(_) => "run_pair",
            Part::Capture(_) => "read_capture, read_capture2, judge, write_capture",
            Part::Scripts => "ids, case, turns",
            Part::ScriptText => "read_script, write_script",
            Part::EchoRun => "run_case over an echo",
            Part::TungRun => "run_case over tungstenite",
            Part::EchoFeed => "feed and finish of an echo",
            Part::TungFeed => "feed and finish of tungstenite",
            Part::Rooms => "what a session asks for",
        }
    }

    /// Plays the list. Where memory is refused that only this program wants, the list is played once more.
    pub fn play_again(self, alloc: Global) -> Tally {
        let mut tally = Tally::new();
        if self.play(alloc, &mut tally).is_ok() {
            return tally;
        }
        let mut again = Tally::new();
        again.restart();
        if self.play(alloc, &mut again).is_err() {
            again.compare(false);
        }
        again
    }

    /// `NoMemory` where memory is refused that only this program wants, or a call lacked memory twice.
    fn play(self, alloc: Global, tally: &mut Tally) -> Result<(), NoMemory> {
        match self {
            Part::Take(stream) => taking::take(alloc, stream, tally),
            Part::TakeInto(stream) => taking::take_into(alloc, stream, tally),
            Part::EchoTake(stream) => taking::take_as_echo(alloc, stream, tally),
            Part::Feed(stream) => feeding::feed(alloc, stream, tally),
            Part::Sends(list) => sending::send(alloc, list, tally),
            Part::Pair(script) => pairs::play(alloc, script, tally),
            Part::Capture(capture) => captures::play(alloc, capture, tally),
            Part::Scripts => scripts::make(alloc, tally),
            Part::ScriptText => script_texts::play(alloc, tally),
            Part::EchoRun => peers::run_over_echo(alloc, tally),
            Part::TungRun => peers::run_over_tungstenite(alloc, tally),
            Part::EchoFeed => spent::feed_echo(alloc, tally),
            Part::TungFeed => spent::feed_tungstenite(alloc, tally),
            Part::Rooms => rooms::play(alloc),
        }
    }
}
