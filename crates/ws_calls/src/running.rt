//! The calls of a script at a session, one after the other.

ghost use Rattle.std.specs.Prelude.{◌≡◌, ◌++◌, List, IfOk, OnOk};
ghost use Rattle.std.specs.Prelude.{string_bytes};
ghost use Rattle.ws_session.specs.Exchange.{Exchange};
ghost use Rattle.ws_session.specs.Limits.{LimitsValue};
ghost use Rattle.ws_wire.specs.declared.role.Role.{Role};
ghost use Rattle.ws_calls.specs.declared.calling.Caller.{Caller};
ghost use Rattle.ws_session.specs.declared.session.Session.{Session};
ghost use Rattle.ws_session.specs.Sends.{send_of};
ghost use Rattle.ws_calls.specs.declared.calls.Call.{Call};
ghost use Rattle.ws_calls.specs.CallLines.{answer_lines};
ghost use Rattle.ws_calls.specs.Calls.{session_of};
ghost use Rattle.ws_calls.specs.InnerSteps.{Agrees, HasToldCall, HasToldSend, IsSendRefusal};
ghost use Rattle.ws_calls.specs.InnerSteps.{send_answer};
ghost use Rattle.ws_calls.specs.Runs.{HasCalledSession, IsNewSession, ReportsSession};
ghost use Rattle.ws_calls.specs.Script.{IsCallLine};
ghost use Rattle.ws_text_feed.specs.Taking.{TakesValue};

use crate::calling::Caller;
use crate::calls::Call;
use crate::report_lines::{tell_ended, tell_last, tell_refused, tell_sent};
use crate::script::read_call;
use crate::taking_words::{keep_piece, take_words};
use std::alloc::Global;
use ws_base::{LineFault, NoMemory};
use ws_session::{Limits, Outgoing, SendFault, Session};
use ws_text_feed::TakeValues;
use ws_wire::Role;

impl TakeValues for Caller<Session> {
    type Value = Call;

    ghost is_line_of = { IsCallLine };

    ghost has_taken = { HasCalledSession };

    fn take_line(&mut self, alloc: Global, line: &[u8]) -> Result<(), LineFault> {
        match take_words(line) {
            Some(found) => {
                let (piece, key) = found;
                self.take_word(alloc, piece, key)
            }
            None => self.make_call(alloc, line),
        }
    }

    fn take_kept_line(&mut self, alloc: Global, line: &mut Vec<u8>) -> Result<(), LineFault> {
        match keep_piece(line) {
            Some(key) => self.take_kept_word(alloc, line, key),
            None => self.take_line(alloc, line.as_slice()),
        }
    }
}

impl Caller<Session> {
    /// A session that is new, and to which these calls are made.
    pub fn of_session(alloc: Global, role: Role, limits: Limits) -> Caller<Session>
        ensures { IsNewSession role limits result }
    {
        Caller::at(alloc, Session::new(alloc, role, limits))
    }

    /// The call that a line tells is made.
    fn make_call(&mut self, alloc: Global, line: &[u8]) -> Result<(), LineFault>
        ensures { TakesValue IsCallLine HasCalledSession self.old self.new line.now result }
    {
        let call = match read_call(alloc, line) {
            Ok(call) => call,
            Err(fault) => return Err(fault),
        };
        match self.call(alloc, call) {
            Ok(()) => Ok(()),
            Err(NoMemory) => Err(LineFault::NoMemory),
        }
    }

    /// One call, and the lines that tell what came of it.
    fn call(&mut self, alloc: Global, call: Call) -> Result<(), NoMemory>
        ensures { (exchange : Exchange) → Agrees exchange self.old.taken self.old.called →
            OnOk result (HasToldCall (session_of self.old.called.role self.old.called.limits) exchange call
            (string_bytes self.old.lines) self.new.taken self.new.called (string_bytes self.new.lines)) }
    {
        match call {
            Call::Send(send) => self.send(alloc, &send.outgoing(), send.key()),
            Call::Take { piece, key } => {
                let mut piece = piece.into_vec();
                self.take(alloc, &mut piece, key)
            }
            Call::End => {
                self.called.end();
                tell_ended(&mut self.lines)?;
                Ok(())
            }
        }
    }

    /// A frame is sent, or refused. Want of memory ends the run.
    fn send(&mut self, alloc: Global, frame: &Outgoing<'_>, key: [u8; 4]) -> Result<(), NoMemory>
        ensures { (exchange : Exchange) → Agrees exchange self.old.taken self.old.called →
            OnOk result (HasToldSend (session_of self.old.called.role self.old.called.limits) exchange
            (send_of frame.now) key (string_bytes self.old.lines) self.new.taken self.new.called
            (string_bytes self.new.lines)) }
    {
        self.put.clear();
        let sent = self.called.send(frame, key, &mut self.put);
        let refusal = refusal_of(sent)?;
        tell_send(alloc, refusal, self.put.as_slice(), &mut self.lines)?;
        Ok(())
    }

    /// All lines: those of the calls, and then the bytes kept and the status.
    pub fn session_report(self, alloc: Global) -> Result<String, NoMemory>
        ensures { (role : Role) (limits : LimitsValue) (first : Caller Session) (calls : List Call) →
            IsNewSession role limits first → HasCalledSession first calls self →
            IfOk result (λ lines. ReportsSession role limits calls (string_bytes lines)) }
    {
        let held = self.called.held() as u64;
        let status = self.called.status();
        let mut lines = self.lines;
        tell_last(alloc, Some(held), status, &mut lines)?;
        Ok(lines)
    }
}

/// Why a send was refused, if it was. Want of memory ends the run.
fn refusal_of(sent: Result<(), SendFault>) -> Result<Option<SendFault>, NoMemory>
    ensures { IfOk result (IsSendRefusal sent) }
{
    match sent {
        Ok(()) => Ok(None),
        Err(SendFault::NoMemory) => Err(NoMemory),
        Err(fault) => Ok(Some(fault)),
    }
}

/// Tells what a send is answered with: the bytes that it put, or why it was refused.
fn tell_send(
    alloc: Global,
    refusal: Option<SendFault>,
    put: &[u8],
    lines: &mut String,
) -> Result<(), NoMemory>
    ensures { OnOk result (string_bytes lines.new
        ≡ string_bytes lines.old ++ answer_lines (send_answer put.now refusal)) }
{
    match refusal {
        None => tell_sent(put, lines),
        Some(fault) => tell_refused(alloc, fault, lines),
    }
}
