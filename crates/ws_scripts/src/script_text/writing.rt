//! Writing a script.

ghost use Rattle.std.specs.Prelude.{◌≡◌, IfOk, Some};
ghost use Rattle.ws_formats.specs.Words.{opcode_word};
ghost use Rattle.ws_scripts.specs.Scripts.{CanBeRun};
ghost use Rattle.ws_scripts.specs.ScriptTexts.{written_fin, written_rsv, written_script, written_step};
ghost use Rattle.ws_scripts.specs.InnerScripting.{chop_text, script_text};

use crate::script::{Case, Chop, Step};
use crate::script_text::data::Data;
use std::alloc::Global;
use std::fmt;
use ws_base::NoMemory;
use ws_wire::Opcode;

/// The lines of a case: its chop, unless its turns are whole, and then its steps. Its name isn't written.
pub fn write_script(alloc: Global, case: &Case) -> Result<Vec<u8>, NoMemory>
    requires { CanBeRun case.now }
    ensures { IfOk result (λ text. text.items ≡ written_script case.now) }
{
    let text = format!(in alloc; "{}", ScriptText(case))?;
    Ok(text.into_bytes())
}

/// The lines of a case.
#[derive(Drop)]
struct ScriptText<'a>(&'a Case);

impl fmt::Display for ScriptText<'_> {
    ghost output = { λ script. Some (script_text script.0.now) };

    fn fmt<W: fmt::Write>(&self, f: &mut fmt::Formatter<W>) -> fmt::Result {
        write!(f, "{}", ChopText(self.0.chop))?;
        for step in self.0.steps.as_slice() {
            writeln!(f, "{}", StepText(step))?;
        }
        Ok(())
    }
}

/// The line of a chop, if it has one.
#[derive(Drop)]
struct ChopText(Chop);

impl fmt::Display for ChopText {
    ghost output = { λ chop. Some (chop_text chop.0) };

    fn fmt<W: fmt::Write>(&self, f: &mut fmt::Formatter<W>) -> fmt::Result {
        match self.0 {
            Chop::Whole => Ok(()),
            Chop::PerFrame => writeln!(f, "chop frames"),
            Chop::Octets(n) => writeln!(f, "chop octets {n}"),
        }
    }
}

/// The words of a step.
#[derive(Drop)]
struct StepText<'a>(&'a Step);

impl fmt::Display for StepText<'_> {
    ghost output = { λ step. Some (written_step step.0.now) };

    fn fmt<W: fmt::Write>(&self, f: &mut fmt::Formatter<W>) -> fmt::Result {
        match self.0 {
            Step::Frame {
                fin,
                rsv,
                opcode,
                payload,
            } => write!(
                f,
                "{}{}{} {}",
                KindText(*opcode),
                FinText(*fin),
                RsvText(*rsv),
                Data(payload.as_slice())
            ),
            Step::Raw(bytes) => write!(f, "raw {}", Data(bytes.as_slice())),
            Step::Wait => write!(f, "wait"),
        }
    }
}

/// The name of an opcode.
#[derive(Drop)]
struct KindText(u8);

impl fmt::Display for KindText {
    ghost output = { λ kind. Some (opcode_word kind.0) };

    fn fmt<W: fmt::Write>(&self, f: &mut fmt::Formatter<W>) -> fmt::Result {
        match Opcode::of(self.0) {
            Opcode::Continuation => write!(f, "cont"),
            Opcode::Text => write!(f, "text"),
            Opcode::Binary => write!(f, "binary"),
            Opcode::Close => write!(f, "close"),
            Opcode::Ping => write!(f, "ping"),
            Opcode::Pong => write!(f, "pong"),
            Opcode::Reserved(number) => write!(f, "op{number}"),
        }
    }
}

/// The field of FIN, which stands only where it isn't set.
#[derive(Drop)]
struct FinText(bool);

impl fmt::Display for FinText {
    ghost output = { λ fin. Some (written_fin fin.0) };

    fn fmt<W: fmt::Write>(&self, f: &mut fmt::Formatter<W>) -> fmt::Result {
        if self.0 { Ok(()) } else { write!(f, " fin=0") }
    }
}

/// The field of the reserved bits, which stands only where one is set.
#[derive(Drop)]
struct RsvText(u8);

impl fmt::Display for RsvText {
    ghost output = { λ rsv. Some (written_rsv rsv.0) };

    fn fmt<W: fmt::Write>(&self, f: &mut fmt::Formatter<W>) -> fmt::Result {
        if self.0 == 0 {
            Ok(())
        } else {
            write!(f, " rsv={}", self.0)
        }
    }
}
