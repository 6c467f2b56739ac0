//! The command `sweep`: which scripts are run, and over which end. Its lines are told in docs/FORMATS.md.

ghost use Rattle.std.specs.Prelude.{◌≡◌, ◌≤◌, IfOk, MatchOption, MatchResult, false};
ghost use Rattle.ws_frame.specs.Devices.{watched};
ghost use Rattle.ws_frame.specs.Watching.{has_failed};
ghost use Rattle.ws_sweep.specs.Order.{max_steps};
ghost use Rattle.wst_run.specs.Sweep.{GivesSteps, IsSweepPlan, RefusesSweep, RunsSweepPlan, TellsSweepRefusal};
ghost use Rattle.wst_testing.specs.Ends.{MeetsEnd};
ghost use Rattle.wst_run.specs.Sweep.{HasTooManySteps, SweepsOver, sweep_rules_of};

use crate::site::Site;
use crate::sweeping_clients::sweep_clients_at;
use crate::test::tells_names;
use std::alloc::Global;
use std::io::Write;
use ws_frame::Watched;
use ws_sweep::MAX_STEPS;
use wst_at_once::AtOnce;
use wst_commands::{Exit, tell};
use wst_network::Connector;
use wst_sockets::Network;
use wst_testing::{
    CaseRunner, CaseServer, End, InTurn, Refusal, RunPlan, RunRules, SweepRules, UsualTimes,
    asks_in_turn, at_once_given, max_fail_given, plan_run, sweep_scripts, tell_refusal,
    tell_sweep_end,
};
use wst_words::SweepOptions;

/// Which scripts are run, and over which end.
#[derive(Drop)]
pub struct SweepPlan<'a> {
    /// Over which end, and how.
    pub run: RunPlan<'a>,
    /// Scripts of at most so many steps.
    pub steps: usize,
    /// What is Loose is told too.
    pub all: bool,
    /// The steps of each script are told before it runs.
    pub progress: bool,
    /// So many failures end the run, where a number of them is given.
    pub max_fail: Option<u32>,
    /// So many scripts run at a time.
    pub at_once: u32,
}

/// Why no script is run: the first of these that applies.
#[derive(Clone, Copy)]
pub enum SweepRefusal<'a> {
    /// No script has so many steps.
    TooManySteps,
    /// It is given how many scripts run at a time, and they can run only one after the other.
    AtOnceInTurn,
    /// The number of failures that are to end a run is none of 1 to 1000.
    BadMaxFail,
    /// The number of scripts that are to run at a time is none of 1 to 100.
    BadAtOnce,
    /// What is wrong with the words that `test` has too, or memory ran out.
    Other(Refusal<'a>),
}

impl<'a> From<Refusal<'a>> for SweepRefusal<'a> {
    ghost use Rattle.wst_run.specs.declared.sweep.SweepRefusal.TheVariants as refusal;

    ghost from_gives = { λ why given. given ≡ refusal.Other why };

    fn from(why: Refusal<'a>) -> Self {
        SweepRefusal::Other(why)
    }
}

/// What is to be run, or the first reason against it.
pub fn plan_sweep<'a>(
    alloc: Global,
    options: &SweepOptions<'a>,
) -> Result<SweepPlan<'a>, SweepRefusal<'a>>
    ensures plan { MatchResult result (IsSweepPlan options.now) (RefusesSweep options.now) }
    ensures steps { IfOk result (λ plan. plan.steps ≤ max_steps) }
{
    let Some(steps) = steps_given(options.steps) else {
        return Err(SweepRefusal::TooManySteps);
    };
    if asks_in_turn(options.at_once, options.run.role, options.run.target) {
        return Err(SweepRefusal::AtOnceInTurn);
    }
    let run = plan_run(alloc, &options.run, UsualTimes::OfCases)?;
    let Some(max_fail) = max_fail_given(options.max_fail) else {
        return Err(SweepRefusal::BadMaxFail);
    };
    let Some(at_once) = at_once_given(options.at_once) else {
        return Err(SweepRefusal::BadAtOnce);
    };
    Ok(SweepPlan {
        run,
        steps,
        all: options.all,
        progress: options.progress,
        max_fail,
        at_once,
    })
}

/// So many steps, where scripts may have them.
fn steps_given(steps: u64) -> Option<usize>
    ensures { MatchOption result (HasTooManySteps steps) (GivesSteps steps) }
{
    if steps <= MAX_STEPS as u64 {
        Some(steps as usize)
    } else {
        None
    }
}

/// Runs the scripts of a plan over the end that it names, and tells how that ended.
pub(crate) fn sweep_target<N: Network, C: Connector, W: Write, F: Write>(
    site: Site<'_, '_, N, C>,
    plan: &SweepPlan<'_>,
    writer: &mut Watched<W>,
    faults: &mut Watched<F>,
) -> Exit
    requires works { has_failed writer.old ≡ false }
    requires steps { plan.now.steps ≤ max_steps }
    ensures { SweepsOver plan.now.run.tested plan.now result (watched W.contents writer.old writer.new)
        (watched F.contents faults.old faults.new) }
{
    match End::of_plan(site.net, site.connector, &plan.run) {
        Ok(end) => sweep_end(site.alloc, &end, plan, writer, faults),
        Err(address) => sweep_clients_at(site, address, plan, writer, faults),
    }
}

/// Runs the scripts of a plan over an end, several at a time where that is asked for of a server, and tells how that
/// ended.
fn sweep_end<N: Network, C: Connector, W: Write, F: Write>(
    alloc: Global,
    end: &End<'_, N, C>,
    plan: &SweepPlan<'_>,
    writer: &mut Watched<W>,
    faults: &mut Watched<F>,
) -> Exit
    requires works { has_failed writer.old ≡ false }
    requires steps { plan.now.steps ≤ max_steps }
    ensures { RunsSweepPlan (MeetsEnd end.now plan.now.run.key) plan.now result
        (watched W.contents writer.old writer.new) (watched F.contents faults.old faults.new) }
{
    match end {
        End::Memory(_) => sweep_over(alloc, end, plan, writer, faults),
        End::Address(server) => {
            if plan.at_once > 1 {
                let runner = AtOnce::new(server, plan.at_once as usize, plan.progress);
                sweep_with(alloc, &runner, plan, writer, faults)
            } else {
                sweep_over(alloc, end, plan, writer, faults)
            }
        }
    }
}

/// Runs the scripts of a plan, each over a new end, and tells how that ended.
pub fn sweep_over<S: CaseServer, W: Write, F: Write>(
    alloc: Global,
    server: &S,
    plan: &SweepPlan<'_>,
    writer: &mut Watched<W>,
    faults: &mut Watched<F>,
) -> Exit
    requires works { has_failed writer.old ≡ false }
    requires steps { plan.now.steps ≤ max_steps }
    ensures { RunsSweepPlan (S.meets server.now plan.now.run.key) plan.now result
        (watched W.contents writer.old writer.new) (watched F.contents faults.old faults.new) }
{
    sweep_with(alloc, &InTurn(server), plan, writer, faults)
}

/// Runs the scripts of a plan, and tells how that ended.
fn sweep_with<R: CaseRunner, W: Write, F: Write>(
    alloc: Global,
    runner: &R,
    plan: &SweepPlan<'_>,
    writer: &mut Watched<W>,
    faults: &mut Watched<F>,
) -> Exit
    requires works { has_failed writer.old ≡ false }
    requires steps { plan.now.steps ≤ max_steps }
    ensures { RunsSweepPlan (R.meets runner.now plan.now.run.key) plan.now result
        (watched W.contents writer.old writer.new) (watched F.contents faults.old faults.new) }
{
    let ended = sweep_scripts(alloc, runner, rules_of(plan), writer, faults);
    tell_sweep_end(alloc, ended, &plan.run.tested, faults)
}

/// How the scripts of a plan are run.
fn rules_of(plan: &SweepPlan<'_>) -> SweepRules
    ensures { result ≡ sweep_rules_of plan.now }
{
    let run = RunRules {
        tested: plan.run.tested.role(),
        expected: plan.run.expected,
        key: plan.run.key,
        explains: None,
        progress: tells_names(plan.progress, plan.at_once),
        is_limited: plan.run.gives_limit,
        max_fail: plan.max_fail,
    };
    SweepRules {
        run,
        steps: plan.steps,
        all: plan.all,
        names: plan.run.tells_waits() || plan.progress && plan.at_once > 1,
    }
}

/// Tells a refusal in its line, where the fault output takes it, and answers the exit that it stands for.
pub fn tell_sweep_refusal<F: Write>(
    alloc: Global,
    refusal: SweepRefusal<'_>,
    faults: &mut Watched<F>,
) -> Exit
    ensures { TellsSweepRefusal refusal.entry result (watched F.contents faults.old faults.new) }
{
    match refusal {
        SweepRefusal::TooManySteps => {
            tell(b"--steps takes 0 to 4\n", faults);
            Exit::WrongWords
        }
        SweepRefusal::AtOnceInTurn => tell_refusal(alloc, Refusal::AtOnceInTurn, faults),
        SweepRefusal::BadMaxFail => tell_refusal(alloc, Refusal::BadMaxFail, faults),
        SweepRefusal::BadAtOnce => tell_refusal(alloc, Refusal::BadAtOnce, faults),
        SweepRefusal::Other(refusal) => tell_refusal(alloc, refusal, faults),
    }
}
