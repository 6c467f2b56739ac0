//! An echo, as a machine (RFC 6455 sections 5.5, 5.6 and 7.1).

ghost use Rattle.std.specs.Prelude.{◌≡◌, ◌≤◌, [], length, Some, IfOk, OnOk};
ghost use Rattle.ws_machines.specs.Machines.{HasNext, MayBeTold};
ghost use Rattle.ws_echo.specs.EchoMachines.{BeginsEcho, IsEndOfEcho, WasEchoing, echo_call, is_reading, most_replies};
ghost use Rattle.ws_echo.specs.EchoMachines.{wanted_by_echo};
ghost use Rattle.ws_echo.specs.InnerEchoing.{EndsStream, FitsReplies, StepsEcho, TakesOnePiece};

use crate::lemmas::echo_laws;
use crate::replies::Replies;
use std::alloc::Global;
use std::marker::Model;
use ws_base::NoMemory;
use ws_machines::{Machine, StreamEvent};
use ws_session::{Echo, Limits, Status};
use ws_wire::Role;

/// As long as fewer bytes of its replies wait, it reads on. At most so many are read at once.
const AHEAD: usize = 65_536;

/// What has stopped an echo whose session goes on, or whose replies are left.
#[derive(Clone, Copy, PartialEq, Eq)]
pub enum EchoStop {
    /// A read has failed.
    ReadFault,
    /// Nothing came for the time limit.
    NothingCame,
    /// A write has failed, or nothing of it was taken for the time limit.
    WriteFault,
    /// The deadline has passed.
    Late,
}

/// How an echo has ended.
#[derive(Clone, Copy, PartialEq, Eq)]
pub enum EchoEnd {
    /// The session is over, by the other end's close or by a fault, or the stream has ended and it is `Lost`; and all
    /// that is due was written.
    Done(Status),
    /// As many bytes as may be have come, and the session goes on. All that is due was written.
    Budget,
    /// It was stopped.
    Stopped(EchoStop),
}

/// What an echo is to be.
#[derive(Clone, Copy)]
pub struct EchoPlan {
    pub role: Role,
    pub limits: Limits,
    /// It masks what a client sends; to a server it is nothing.
    pub key: [u8; 4],
    /// So many bytes may come.
    pub budget: u64,
}

/// Takes what comes, and wants what a new echo replies to be written. It reads while it writes, as long as fewer than
/// 65,536 bytes of its replies wait. Once its session is over, its stream has ended or the budget is used up, it reads
/// nothing more, and is done when all that is due was written.
#[derive(Drop)]
pub struct EchoMachine {
    echo: Echo,
    key: [u8; 4],
    replies: Replies,
    left: u64,
    stop: Option<EchoStop>,
}

impl Model for EchoMachine {
    ghost use Rattle.ws_echo.specs.EchoMachines.{EchoValue};

    ghost Value = { EchoValue };

    ghost view = { λ x. record {
      session = x.echo;
      key = x.key;
      rest = x.replies;
      left = x.left;
      stop = x.stop;
    } };
}

impl EchoMachine {
    /// A new echo, which has taken these bytes first. They aren't counted.
    pub fn new(alloc: Global, plan: EchoPlan, first: &[u8]) -> Result<EchoMachine, NoMemory>
        ensures begins { IfOk result (BeginsEcho (echo_call plan first.now)) }
        ensures told { IfOk result (λ made. WasEchoing made made []) }
        ensures goes_on { IfOk result (λ made. HasNext (wanted_by_echo made)) }
    {
        echo_laws();
        let key = plan.key;
        let mut echo = Echo::new(alloc, plan.limits, plan.role);
        let mut replies = Replies::new(alloc);
        replies.answer(&mut echo, first, key)?;
        Ok(EchoMachine {
            echo,
            key,
            replies,
            left: plan.budget,
            stop: None,
        })
    }

    /// Whether more is read, if not too many replies wait.
    fn is_reading(&self) -> bool
        ensures { result ≡ is_reading self.now }
    {
        self.stop.is_none() && self.left > 0 && !self.echo.status().is_over()
    }

    /// These bytes came.
    fn on_came(&mut self, piece: &[u8]) -> Result<(), NoMemory>
        ensures takes { OnOk result (TakesOnePiece self.old self.new piece.now) }
        ensures fits { OnOk result (length self.new.rest ≤ most_replies) }
    {
        self.replies.answer(&mut self.echo, piece, self.key)?;
        self.left = self.left.saturating_sub(piece.len() as u64);
        Ok(())
    }

    /// The other end's stream has ended.
    fn on_ended(&mut self)
        ensures { EndsStream self.old self.new }
    {
        self.echo.end();
    }

    /// It is stopped, while its replies go on to be written.
    fn stop_reading(&mut self, why: EchoStop)
        ensures { self.new ≡ record self.old { stop = Some why } }
    {
        self.stop = Some(why);
    }

    /// It is stopped, and nothing more is written.
    fn break_off(&mut self, why: EchoStop)
        ensures { self.new ≡ record self.old { rest = []; stop = Some why } }
    {
        self.replies.clear();
        self.stop = Some(why);
    }

    /// Something happened.
    fn step(&mut self, event: StreamEvent<'_>) -> Result<(), NoMemory>
        requires { MayBeTold (wanted_by_echo self.old) event }
        ensures steps { OnOk result (StepsEcho self.old event.entry self.new) }
        ensures fits { OnOk result (FitsReplies event.entry self.new) }
    {
        match event {
            StreamEvent::Came(piece) => self.on_came(piece)?,
            StreamEvent::Taken(count) => self.replies.take(count),
            StreamEvent::Ended => self.on_ended(),
            StreamEvent::ReadFailed => self.stop_reading(EchoStop::ReadFault),
            StreamEvent::NothingCame => self.stop_reading(EchoStop::NothingCame),
            StreamEvent::WriteFailed => self.break_off(EchoStop::WriteFault),
            StreamEvent::DeadlinePassed(_) => self.break_off(EchoStop::Late),
            StreamEvent::DirectionEnded | StreamEvent::Reported => {}
        }
        Ok(())
    }
}

impl Machine for EchoMachine {
    ghost use Rattle.ws_echo.specs.EchoMachines.{EchoGivesSo, WasEchoing, echo_left, wanted_by_echo};

    type End = EchoEnd;

    ghost agrees = { λ start now told. WasEchoing start now told };

    ghost wants = { λ now. wanted_by_echo now };

    ghost left = { λ now. echo_left now };

    ghost gives = { λ start told end. EchoGivesSo start told end };

    fn to_write(&self) -> &[u8] {
        self.replies.as_slice()
    }

    fn to_report(&self) -> &[u8] {
        &[]
    }

    fn room(&self) -> usize {
        if self.is_reading() && self.replies.len() < AHEAD {
            self.left.min(AHEAD as u64) as usize
        } else {
            0
        }
    }

    fn wants_end(&self) -> bool {
        false
    }

    fn waits_anew(&self) -> bool {
        true
    }

    fn is_done(&self) -> bool {
        !self.is_reading() && self.replies.len() == 0
    }

    fn on_event(&mut self, event: StreamEvent<'_>) -> Result<(), NoMemory> {
        echo_laws();
        self.step(event)?;
        Ok(())
    }

    fn into_end(self) -> Result<EchoEnd, NoMemory> {
        echo_laws();
        let EchoMachine { echo, stop, .. } = self;
        Ok(end_of(&echo, stop))
    }
}

/// How an echo has ended that stands so, and was stopped or not.
fn end_of(echo: &Echo, stop: Option<EchoStop>) -> EchoEnd
    ensures { IsEndOfEcho echo.now.status stop result }
{
    match stop {
        Some(why) => EchoEnd::Stopped(why),
        None if echo.status().is_over() => EchoEnd::Done(echo.status()),
        None => EchoEnd::Budget,
    }
}
