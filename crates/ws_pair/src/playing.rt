//! Moves that are played one by one, as the lines of their script come.

ghost use Rattle.ws_session.specs.Limits.{LimitsValue};
ghost use Rattle.std.specs.Prelude.{◌∷◌, ◌++◌, [], List, OnOk};
ghost use Rattle.ws_pair.specs.Headline.{IsReportOf};
ghost use Rattle.ws_pair.specs.Runs.{HasPlayed, IsNewPlayer};
ghost use Rattle.ws_pair.specs.Script.{IsMoveLine};
ghost use Rattle.ws_pair.specs.declared.moves.Move.{Move};
ghost use Rattle.ws_pair.specs.declared.playing.Player.{Player};

use crate::endpoint::Endpoint;
use crate::lemmas::session_laws;
use crate::moves::Move;
use crate::report::{Answer, Report};
use crate::running::play;
use std::alloc::Global;
use ws_base::{LineFault, NoMemory};
use ws_formats::Line;
use ws_session::Limits;
use ws_text_feed::TakeValues;
use ws_wire::Role;

/// A client and a server that are joined by two ordered streams of bytes, and what came of the moves so far.
#[derive(Drop)]
pub struct Player {
    client: Endpoint,
    server: Endpoint,
    answers: Vec<Answer>,
}

impl Player {
    /// Two ends at which nothing has happened. `client` and `server` are what each takes at most.
    pub fn new(alloc: Global, client: Limits, server: Limits) -> Player
        ensures { IsNewPlayer client server result }
    {
        Player {
            client: Endpoint::new(alloc, Role::Client, client),
            server: Endpoint::new(alloc, Role::Server, server),
            answers: Vec::new(alloc),
        }
    }

    /// What came of all moves, as `run_pair` reports it.
    pub fn report(self) -> Report
        ensures { (client server : LimitsValue) (first : Player) (moves : List Move) →
            IsNewPlayer client server first → HasPlayed first moves self → IsReportOf client server moves result }
    {
        session_laws();
        Report {
            answers: self.answers,
            client: self.client.into_report(),
            server: self.server.into_report(),
        }
    }
}

impl Player {
    /// Plays a move, and keeps its answer.
    fn play_move(&mut self, value: &Move) -> Result<(), NoMemory>
        requires { (first : Player) × (before : List Move) × HasPlayed first before self.old }
        ensures { (first : Player) (before : List Move) → HasPlayed first before self.old →
            OnOk result (HasPlayed first (before ++ value.now ∷ []) self.new) }
    {
        let answer = match play(&mut self.client, &mut self.server, value) {
            Ok(answer) => answer,
            Err(NoMemory) => return Err(NoMemory),
        };
        match self.answers.push(answer) {
            Ok(()) => Ok(()),
            Err(_) => Err(NoMemory),
        }
    }
}

impl TakeValues for Player {
    type Value = Move;

    ghost is_line_of = { IsMoveLine };

    ghost has_taken = { HasPlayed };

    fn take_line(&mut self, alloc: Global, line: &[u8]) -> Result<(), LineFault> {
        let value = match <Move as Line>::read(alloc, line) {
            Ok(value) => value,
            Err(fault) => return Err(fault),
        };
        match self.play_move(&value) {
            Ok(()) => Ok(()),
            Err(NoMemory) => Err(LineFault::NoMemory),
        }
    }

    fn take_kept_line(&mut self, alloc: Global, line: &mut Vec<u8>) -> Result<(), LineFault> {
        self.take_line(alloc, line.as_slice())
    }
}
