//! Every short script run over new ends: each is judged, and its line is written where there is one to tell, in their
//! order.

ghost use Rattle.std.specs.Prelude.{◌≡◌, ◌+◌, ◌<◌, ◌^◌, ◌≤◌, IfOk, OnErr, OnOk, false, string_bytes};
ghost use Rattle.ws_frame.specs.Devices.{watched};
ghost use Rattle.ws_frame.specs.Watching.{has_failed};
ghost use Rattle.ws_sweep.specs.Order.{max_steps};
ghost use Rattle.wst_commands.specs.Devices.{StaysFailed};
ghost use Rattle.wst_testing.specs.Hints.{hint_with, notes_with};
ghost use Rattle.wst_testing.specs.Notes.{TellsEach};
ghost use Rattle.wst_testing.specs.Sweeps.{CountsScripts, IsCounted, SweepsScripts, TellsSweepEnd, is_told};
ghost use Rattle.wst_testing.specs.Sweeps.{missed_by, script_line, script_notes, sweep_total, swept, whole_text};

use crate::hinting::{HintState, tell_hint};
use crate::outcome::{Outcome, Tally, is_enough};
use crate::run_plans::TestedEnd;
use crate::runner::{CaseRunner, RunStop, Sink};
use crate::short_runs::{ShortRun, ShortRuns};
use crate::testing::{RunRules, judged};
use crate::tried::tell_missed;
use std::alloc::Global;
use std::io::Write;
use ws_base::NoMemory;
use ws_frame::{Watched, write_whole};
use ws_suite::Verdict;
use ws_sweep::script_count;
use wst_commands::{Exit, Fault, tell, tell_fault};
use wst_sockets::{ConnectFault, Meeting};

/// How short scripts are run.
#[derive(Clone, Copy)]
pub struct SweepRules {
    /// How each is run, whose name is its steps. The first without a connection ends the run.
    pub run: RunRules,
    /// Those of at most so many steps.
    pub steps: usize,
    /// What is Loose is told too.
    pub all: bool,
    /// Each case is named by its steps, so that a wait of it can be told.
    pub names: bool,
}

/// Every script of at most so many steps is run in their order, each over a new end, and its line is written, where
/// there is one to tell, as soon as it is judged, and the total last. Enough Fails end the run, and the total of what
/// was run stands behind them.
pub fn sweep_scripts<R: CaseRunner, W: Write, F: Write>(
    alloc: Global,
    runner: &R,
    rules: SweepRules,
    writer: &mut Watched<W>,
    faults: &mut Watched<F>,
) -> Result<Exit, RunStop>
    requires works { has_failed writer.old ≡ false }
    requires steps { rules.steps ≤ max_steps }
    ensures { SweepsScripts (R.meets runner.now rules.run.key) rules result (watched W.contents writer.old writer.new) }
{
    let (count, tally) = run_scripts(alloc, runner, rules, writer, faults)?;
    let total = total_of(alloc, count, tally)?;
    write_whole(writer, total.as_bytes())?;
    Ok(tally.exit())
}

/// Runs the scripts, and counts them, and what was told of the tested end in them.
fn run_scripts<R: CaseRunner, W: Write, F: Write>(
    alloc: Global,
    runner: &R,
    rules: SweepRules,
    writer: &mut Watched<W>,
    faults: &mut Watched<F>,
) -> Result<(usize, Tally), RunStop>
    requires works { has_failed writer.old ≡ false }
    requires steps { rules.steps ≤ max_steps }
    ensures { CountsScripts (R.meets runner.now rules.run.key) rules result (watched W.contents writer.old writer.new) }
{
    let mut runs = ShortRuns::of(rules);
    let mut sweeper = Sweeper {
        rules,
        count: 0,
        tally: Tally::new(),
        hint: HintState::of(script_count(rules.steps)),
        writer,
        faults,
    };
    let ended = runner.run_each(alloc, rules.run.key, &mut runs, &mut sweeper);
    counted(ended, sweeper.count, sweeper.tally)
}

/// What was counted, where a run came to its end, or enough was run.
fn counted(
    ended: Result<(), RunStop>,
    count: usize,
    tally: Tally,
) -> Result<(usize, Tally), RunStop>
    ensures { IsCounted ended count tally result }
{
    match ended {
        Ok(()) => Ok((count, tally)),
        Err(RunStop::Enough) => Ok((count, tally)),
        Err(why) => Err(why),
    }
}

/// Writes the line of each script, where there is one to tell, as soon as it is judged, and counts them. The steps of
/// a script are told to `faults` before it runs, where that is asked for, and what the first ten have in common, where
/// that says what to type.
#[derive(Drop)]
struct Sweeper<'w, 'f, W, F> {
    rules: SweepRules,
    /// So many scripts were run.
    count: usize,
    tally: Tally,
    /// What they have in common.
    hint: HintState,
    writer: &'w mut Watched<W>,
    faults: &'f mut Watched<F>,
}

impl<W: Write, F: Write> Sink for Sweeper<'_, '_, W, F> {
    ghost use Rattle.std.specs.Prelude.{◌≡◌, ◌∷◌, []};
    ghost use Rattle.ws_frame.specs.Devices.{watched};
    ghost use Rattle.wst_testing.specs.Sweeps.{HasToldScripts, StopsAtScript};

    type Item = ShortRun;

    ghost heard = { λ start now came next. (now.rules ≡ start.rules)
        × HasToldScripts start.rules came now.count now.tally
        (watched W.contents start.writer.now now.writer.now) };

    ghost stopped = { λ start now came why.
        StopsAtScript start.rules came now.count now.tally why
        (watched W.contents start.writer.now now.writer.now) };

    ghost borrows = { λ sweeper. sweeper.writer.ghost_name ∷ sweeper.faults.ghost_name ∷ [] };

    fn begins(&mut self, alloc: Global, run: &ShortRun) -> Result<(), NoMemory> {
        tell_run(alloc, self.rules, run, self.faults)?;
        Ok(())
    }

    fn came(&mut self, alloc: Global, run: &ShortRun, meeting: Meeting) -> Result<(), RunStop> {
        let outcome = judged(alloc, self.rules.run, meeting)?;
        match missed_by(&outcome) {
            Some(why) => return Err(RunStop::NoConnection(why)),
            None => {}
        }
        let line = line_of(alloc, self.rules, run, &outcome)?;
        match write_whole(self.writer, line.as_bytes()) {
            Ok(()) => {}
            Err(_) => return Err(RunStop::Output),
        }
        self.hint = hint_behind(self.hint, &outcome, self.faults);
        self.tally = self.tally.with(&outcome);
        self.count = one_more(self.count);
        if is_enough(self.rules.run.max_fail, self.tally.fail) {
            return Err(RunStop::Enough);
        }
        Ok(())
    }
}

/// Tells what all scripts have in common behind the line of one more, where that is the place for it, and answers what
/// they have in common then.
fn hint_behind<F: Write>(hint: HintState, outcome: &Outcome, faults: &mut Watched<F>) -> HintState
    ensures next { result ≡ hint_with hint outcome.now }
    ensures told { TellsEach (notes_with hint outcome.now) (watched F.contents faults.old faults.new) }
    ensures still { StaysFailed faults.old faults.new }
{
    tell_hint(hint, outcome, faults);
    hint.with(outcome)
}

/// One more than so many.
fn one_more(count: usize) -> usize
    requires { count + 1 < 2 ^ 64 }
    ensures { result ≡ count + 1 }
{
    count + 1
}

/// Why there is no connection to the tested end, where there is none.
fn missed_by(outcome: &Outcome) -> Option<ConnectFault>
    ensures { result ≡ missed_by outcome.now }
{
    match outcome {
        Outcome::NoConnection(why) => Some(*why),
        Outcome::Judged(_) | Outcome::HeadRefused(_) | Outcome::NotRun => None,
    }
}

/// Tells the steps of the case of a script that is run next, where that is asked for.
fn tell_run<F: Write>(
    alloc: Global,
    rules: SweepRules,
    run: &ShortRun,
    faults: &mut Watched<F>,
) -> Result<(), NoMemory>
    ensures told { OnOk result (TellsEach
        (script_notes rules.run.progress (whole_text rules run.now.places run.now.case))
        (watched F.contents faults.old faults.new)) }
    ensures kept { OnErr result (faults.new ≡ faults.old) }
{
    if !rules.run.progress {
        return Ok(());
    }
    let mut line = run.text(alloc, rules)?;
    line.push_str("\n")?;
    tell(line.as_bytes(), faults);
    Ok(())
}

/// Whether a script with this outcome has a line.
pub fn is_told(all: bool, outcome: &Outcome) -> bool
    ensures { result ≡ is_told all outcome.now }
{
    match outcome {
        Outcome::Judged(told) => match told.verdict {
            Verdict::Pass => false,
            Verdict::Loose(_) => all,
            Verdict::Fail(_) => true,
        },
        Outcome::HeadRefused(_) | Outcome::NoConnection(_) | Outcome::NotRun => true,
    }
}

/// Its line, where there is one to tell.
fn line_of(
    alloc: Global,
    rules: SweepRules,
    run: &ShortRun,
    outcome: &Outcome,
) -> Result<String, NoMemory>
    ensures { IfOk result (λ line.
        string_bytes line ≡ script_line rules (swept run.now.places run.now.case outcome.now)) }
{
    if !is_told(rules.all, outcome) {
        return Ok(String::new(alloc));
    }
    let steps = run.text(alloc, rules)?;
    let line = format!(in alloc; "{outcome}: {steps}\n")?;
    Ok(line)
}

/// The line of the total.
pub fn total_of(alloc: Global, count: usize, tally: Tally) -> Result<String, NoMemory>
    ensures { IfOk result (λ line. string_bytes line ≡ sweep_total count tally) }
{
    let line = format!(in alloc;
        "{count} scripts: {} pass, {} loose, {} fail\n",
        tally.pass, tally.loose, tally.fail
    )?;
    Ok(line)
}

/// Tells how a sweep of this end ended, where there is something to tell, and answers the exit that it stands for.
pub fn tell_sweep_end<F: Write>(
    alloc: Global,
    ended: Result<Exit, RunStop>,
    tested: &TestedEnd<'_>,
    faults: &mut Watched<F>,
) -> Exit
    ensures { TellsSweepEnd tested.now ended result (watched F.contents faults.old faults.new) }
{
    match ended {
        Ok(exit) => exit,
        Err(RunStop::Enough | RunStop::Output) => Exit::Failed,
        Err(RunStop::NoConnection(why)) => {
            tell_missed(tested, why, faults);
            Exit::Failed
        }
        Err(RunStop::NoMemory) => tell_fault(alloc, Fault::NoMemory, faults),
    }
}
