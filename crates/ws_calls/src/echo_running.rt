//! The calls of a script at an echo, one after the other.

ghost use Rattle.std.specs.Prelude.{List, IfOk, OnOk, string_bytes};
ghost use Rattle.ws_session.specs.Exchange.{Exchange};
ghost use Rattle.ws_session.specs.Limits.{LimitsValue};
ghost use Rattle.ws_wire.specs.declared.role.Role.{Role};
ghost use Rattle.ws_calls.specs.declared.calling.Caller.{Caller};
ghost use Rattle.ws_session.specs.declared.echo.Echo.{Echo};
ghost use Rattle.ws_calls.specs.declared.calls.Call.TheVariants.{Take};
ghost use Rattle.ws_calls.specs.declared.calls.EchoCall.{EchoCall};
ghost use Rattle.ws_calls.specs.Calls.{echo_of};
ghost use Rattle.ws_calls.specs.InnerSteps.{Agrees, HasToldCall};
ghost use Rattle.ws_calls.specs.Runs.{HasCalledEcho, IsNewEcho, ReportsEcho};
ghost use Rattle.ws_calls.specs.Script.{IsEchoCallLine, as_call};
ghost use Rattle.ws_text_feed.specs.Taking.{TakesValue};

use crate::calling::Caller;
use crate::calls::EchoCall;
use crate::echo_script::read_echo_call;
use crate::report_lines::{tell_ended, tell_last};
use crate::taking_words::{keep_piece, take_words};
use std::alloc::Global;
use ws_base::{LineFault, NoMemory};
use ws_session::{Echo, Limits};
use ws_text_feed::TakeValues;
use ws_wire::Role;

impl TakeValues for Caller<Echo> {
    type Value = EchoCall;

    ghost is_line_of = { IsEchoCallLine };

    ghost has_taken = { HasCalledEcho };

    fn take_line(&mut self, alloc: Global, line: &[u8]) -> Result<(), LineFault> {
        match take_words(line) {
            Some(found) => {
                let (piece, key) = found;
                self.take_word(alloc, piece, key)
            }
            None => self.make_call(alloc, line),
        }
    }

    fn take_kept_line(&mut self, alloc: Global, line: &mut Vec<u8>) -> Result<(), LineFault> {
        match keep_piece(line) {
            Some(key) => self.take_kept_word(alloc, line, key),
            None => self.take_line(alloc, line.as_slice()),
        }
    }
}

impl Caller<Echo> {
    /// An echo that is new, and to which these calls are made.
    pub fn of_echo(alloc: Global, role: Role, limits: Limits) -> Caller<Echo>
        ensures { IsNewEcho role limits result }
    {
        Caller::at(alloc, Echo::new(alloc, limits, role))
    }

    /// The call that a line tells is made.
    fn make_call(&mut self, alloc: Global, line: &[u8]) -> Result<(), LineFault>
        ensures { TakesValue IsEchoCallLine HasCalledEcho self.old self.new line.now result }
    {
        let call = match read_echo_call(alloc, line) {
            Ok(call) => call,
            Err(fault) => return Err(fault),
        };
        match self.call(alloc, call) {
            Ok(()) => Ok(()),
            Err(NoMemory) => Err(LineFault::NoMemory),
        }
    }

    /// One call, and the lines that tell what came of it.
    fn call(&mut self, alloc: Global, call: EchoCall) -> Result<(), NoMemory>
        ensures { (exchange : Exchange) → Agrees exchange self.old.taken self.old.called →
            OnOk result (HasToldCall (echo_of self.old.called.role self.old.called.limits) exchange (as_call call)
            (string_bytes self.old.lines) self.new.taken self.new.called (string_bytes self.new.lines)) }
    {
        match call {
            EchoCall::Take { piece, key } => {
                let mut piece = piece.into_vec();
                self.take(alloc, &mut piece, key)
            }
            EchoCall::End => {
                self.called.end();
                tell_ended(&mut self.lines)?;
                Ok(())
            }
        }
    }

    /// All lines: those of the calls, and then the status.
    pub fn echo_report(self, alloc: Global) -> Result<String, NoMemory>
        ensures { (role : Role) (limits : LimitsValue) (first : Caller Echo) (calls : List EchoCall) →
            IsNewEcho role limits first → HasCalledEcho first calls self →
            IfOk result (λ lines. ReportsEcho role limits calls (string_bytes lines)) }
    {
        let status = self.called.status();
        let mut lines = self.lines;
        tell_last(alloc, None, status, &mut lines)?;
        Ok(lines)
    }
}
