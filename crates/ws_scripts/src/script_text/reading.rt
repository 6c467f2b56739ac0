//! Reading a script.

ghost use Rattle.std.specs.Prelude.{◌≡◌, ◌++◌, ◌∷◌, [], IfErr, IfOk, MatchResult, None, codes, string_bytes};
ghost use Rattle.ws_base.specs.declared.text_fault.LineFault.TheVariants.{NoMemory};
ghost use Rattle.ws_base.specs.declared.text_fault.TextFault.TheVariants as text_fault;
ghost use Rattle.ws_formats.specs.Lines.{Damages};
ghost use Rattle.ws_scripts.specs.Scripts.{CanBeRun};
ghost use Rattle.ws_scripts.specs.ScriptTexts.{IsScriptText, IsTextOfScript, script_in};
ghost use Rattle.ws_scripts.specs.InnerCapturing.{Adds};
ghost use Rattle.ws_scripts.specs.InnerScripting.{TellScript, chop_or_whole, chop_with, part_of, longer_by};
ghost use Rattle.ws_scripts.specs.InnerScripting.{script_goes_on};

use crate::script::{Case, Chop, Step};
use crate::script_text::line::{ScriptLine, read_line};
use std::alloc::Global;
use ws_base::{LineFault, Sequence, TextFault};
use ws_formats::{PartialText, read_by_lines};

/// The name of a case that was read, since a text tells none.
const NO_NAME: &str = "-";

/// The case whose chop and steps a text tells. Its name is `-`. `turns` takes it.
pub fn read_script(alloc: Global, text: &[u8]) -> Result<Case, TextFault>
    ensures read { MatchResult result (λ case. IsScriptText case text.now)
        (λ fault. Damages IsTextOfScript fault text.now) }
    ensures name { IfOk result (λ case. string_bytes case.id ≡ codes "-") }
    ensures runs { IfOk result (λ case. CanBeRun case) }
{
    match read_by_lines(alloc, PartialScript::none(alloc), text) {
        Ok(script) => named(alloc, script),
        Err(fault) => Err(fault),
    }
}

/// The script as a case.
fn named(alloc: Global, script: Script) -> Result<Case, TextFault>
    ensures script { IfOk result (λ case. script_in case ≡ script) }
    ensures name { IfOk result (λ case. string_bytes case.id ≡ codes "-") }
    ensures memory { IfErr result (λ fault. fault ≡ text_fault.NoMemory) }
{
    let Script { steps, chop } = script;
    match String::from_str(alloc, NO_NAME) {
        Ok(id) => Ok(Case { id, steps, chop }),
        Err(_) => Err(TextFault::NoMemory),
    }
}

/// A case without its name: its steps, and how its turns are cut.
#[derive(Drop)]
pub(crate) struct Script {
    pub steps: Sequence<Step>,
    pub chop: Chop,
}

/// What was read of a script.
#[derive(Drop)]
pub(crate) struct PartialScript {
    /// What the chop's line told, where it was read.
    pub chop: Option<Chop>,
    /// The steps so far.
    pub steps: Sequence<Step>,
}

impl PartialText for PartialScript {
    type Value = Script;

    ghost tells = { TellScript };

    fn take_line(self, alloc: Global, line: &[u8]) -> Result<PartialScript, LineFault> {
        match read_line(alloc, line) {
            Ok(line) => self.with(line),
            Err(fault) => Err(fault),
        }
    }

    fn value(self) -> Option<Script> {
        let PartialScript { chop, steps } = self;
        let chop = chop_or_whole(chop);
        Some(Script { steps, chop })
    }

    ghost goes_on = { script_goes_on };
}

/// The chop that was told, or that of a script whose lines tell none.
fn chop_or_whole(chop: Option<Chop>) -> Chop
    ensures { result ≡ chop_or_whole chop }
{
    match chop {
        Some(chop) => chop,
        None => Chop::Whole,
    }
}

impl PartialScript {
    /// No line.
    fn none(alloc: Global) -> PartialScript
        ensures { result ≡ part_of None [] }
    {
        PartialScript {
            chop: None,
            steps: Sequence::new(alloc),
        }
    }

    /// What is read with one more line, where it may stand there.
    fn with(self, line: ScriptLine) -> Result<PartialScript, LineFault>
        ensures { Adds (longer_by self line) result }
    {
        match line {
            ScriptLine::Blank => Ok(self),
            ScriptLine::Cut(chop) => self.cut_by(chop),
            ScriptLine::Does(step) => self.with_step(step),
        }
    }

    /// What is read with the chop's line: it stands before all steps, and once.
    fn cut_by(self, chop: Chop) -> Result<PartialScript, LineFault>
        ensures { Adds (chop_with self.chop self.steps chop) result }
    {
        if self.chop.is_some() || self.steps.len() > 0 {
            return Err(LineFault::Damaged);
        }
        let chop = Some(chop);
        let steps = self.steps;
        Ok(PartialScript { chop, steps })
    }

    /// What is read with one more step.
    fn with_step(self, step: Step) -> Result<PartialScript, LineFault>
        ensures longer { IfOk result (λ longer. longer ≡ part_of self.chop (self.steps ++ step ∷ [])) }
        ensures memory { IfErr result (λ fault. fault ≡ NoMemory) }
    {
        let PartialScript { chop, steps } = self;
        let mut steps = steps.into_vec();
        match steps.push(step) {
            Ok(()) => {
                let steps = Sequence::from_vec(steps);
                Ok(PartialScript { chop, steps })
            }
            Err(_) => Err(LineFault::NoMemory),
        }
    }
}
