//! The short scripts of a sweep, and the case of each, which is made when it is to run.

ghost use Rattle.std.specs.Prelude.{◌≡◌, ◌≤◌, IfOk, string_bytes};
ghost use Rattle.ws_scripts.specs.Scripts.{CanBeRun};
ghost use Rattle.ws_sweep.specs.Order.{ArePlaces, max_steps};
ghost use Rattle.ws_sweep.specs.ShortCases.{IsShortCase};
ghost use Rattle.wst_testing.specs.Sweeps.{AreAllScripts, whole_text};

use crate::runner::{CaseSource, HasCase};
use crate::sweeping::SweepRules;
use std::alloc::Global;
use std::marker::Model;
use ws_base::NoMemory;
use ws_peer::tester_key;
use ws_suite::Case;
use ws_sweep::{ShortCases, ShortScript, ShortScripts, tell_steps};

/// A short script and its case.
#[derive(Drop)]
pub(crate) struct ShortRun {
    script: ShortScript,
    case: Case,
}

impl Model for ShortRun {
    ghost use Rattle.ws_sweep.specs.Order.{ArePlaces};
    ghost use Rattle.wst_testing.specs.Sweeps.{ShortRunValue};

    ghost Value = { ShortRunValue };

    ghost view = { λ run. record { places = run.script; case = run.case } };

    ghost invariant = { λ run. ArePlaces run.script };
}

impl HasCase for ShortRun {
    ghost case_of = { λ run. run.case };

    fn case(&self) -> &Case {
        &self.case
    }
}

impl ShortRun {
    /// All steps of its case, as they are told.
    pub(crate) fn text(&self, alloc: Global, rules: SweepRules) -> Result<String, NoMemory>
        ensures { IfOk result (λ text. string_bytes text ≡ whole_text rules self.now.places self.now.case) }
    {
        text_of(alloc, rules, &self.script, &self.case)
    }
}

/// All steps of the case of a script, as they are told.
fn text_of(
    alloc: Global,
    rules: SweepRules,
    script: &ShortScript,
    case: &Case,
) -> Result<String, NoMemory>
    requires { ArePlaces script.now }
    ensures { IfOk result (λ text. string_bytes text ≡ whole_text rules script.now case.now) }
{
    let steps = case.steps.as_slice();
    tell_steps(alloc, rules.run.tested, rules.run.expected, script, steps)
}

/// Every script of at most so many steps in their order, each with its case.
#[derive(Drop)]
pub(crate) struct ShortRuns {
    rules: SweepRules,
    scripts: ShortScripts,
    cases: ShortCases,
    /// The one that was given last.
    last: Option<ShortRun>,
}

impl Model for ShortRuns {
    ghost use Rattle.wst_testing.specs.Sweeps.{MakesCasesOf, ShortRunsValue};

    ghost Value = { ShortRunsValue };

    ghost view = { λ runs. record { rules = runs.rules; scripts = runs.scripts; last = runs.last } };

    ghost invariant = { λ runs. MakesCasesOf runs.rules runs.cases };
}

impl ShortRuns {
    /// All of them.
    pub(crate) fn of(rules: SweepRules) -> ShortRuns
        requires { rules.steps ≤ max_steps }
        ensures { AreAllScripts rules result }
    {
        let key = tester_key(rules.run.tested, rules.run.key);
        ShortRuns {
            rules,
            scripts: ShortScripts::up_to(rules.steps),
            cases: ShortCases::new(rules.run.tested, rules.run.expected, key),
            last: None,
        }
    }
}

impl CaseSource for ShortRuns {
    ghost use Rattle.wst_testing.specs.Sweeps.{GaveAllScripts, GaveScripts};

    type Item = ShortRun;

    ghost gave = { λ start now runs. GaveScripts start now runs };

    ghost gave_all = { λ start now runs. GaveAllScripts start runs };

    ghost last = { λ runs. runs.last };

    ghost left = { λ runs. runs.scripts.left };

    type Kept = ShortRun;

    ghost kept_item = { λ run. run };

    fn advance(&mut self, alloc: Global) -> Result<bool, NoMemory> {
        give_back(&mut self.cases, self.last.take());
        let Some(script) = self.scripts.next() else {
            return Ok(false);
        };
        let case = next_case(alloc, self.rules, &script, &mut self.cases)?;
        self.last = Some(ShortRun { script, case });
        Ok(true)
    }

    fn item(&self) -> &ShortRun {
        match &self.last {
            Some(run) => run,
            None => unreachable!(),
        }
    }

    fn keep(&mut self) -> ShortRun {
        match self.last.take() {
            Some(run) => run,
            None => unreachable!(),
        }
    }

    fn kept(kept: &ShortRun) -> &ShortRun {
        kept
    }
}

/// Gives a case back that was run, so that the next one is made of its memory.
fn give_back(cases: &mut ShortCases, ran: Option<ShortRun>)
    ensures tested { cases.new.tested ≡ cases.old.tested }
    ensures expected { cases.new.expected ≡ cases.old.expected }
    ensures key { cases.new.key ≡ cases.old.key }
{
    if let Some(run) = ran {
        cases.give_back(run.case);
    }
}

/// The case of a script, named by all its steps where that is asked for.
fn next_case(
    alloc: Global,
    rules: SweepRules,
    script: &ShortScript,
    cases: &mut ShortCases,
) -> Result<Case, NoMemory>
    requires { ArePlaces script.now }
    ensures is { IfOk result (λ case.
        IsShortCase cases.old.tested cases.old.expected cases.old.key script.now case) }
    ensures runs { IfOk result (λ case. CanBeRun case) }
    ensures tested { cases.new.tested ≡ cases.old.tested }
    ensures expected { cases.new.expected ≡ cases.old.expected }
    ensures key { cases.new.key ≡ cases.old.key }
{
    let case = cases.case_of(alloc, script)?;
    if !rules.names {
        return Ok(case);
    }
    let id = text_of(alloc, rules, script, &case)?;
    let Case { steps, chop, .. } = case;
    Ok(Case { id, steps, chop })
}
