//! A probe of a server whose lines are wanted as soon as they are certain (RFC 6455 sections 4.1 and 5 to 7).

ghost use Rattle.std.specs.Prelude.{◌≡◌, ◌<◌, ◌≤◌, ◌+◌, ◌*◌, [], true, IfOk};
ghost use Rattle.ws_machines.specs.Machines.{HasNext, IsRunning, MayBeTold, told_at};
ghost use Rattle.ws_tester.specs.Outgoings.{HaveBytes};
ghost use Rattle.ws_handshake.specs.Probes.{WasProbed, is_opening, probe_left, wanted_of};
ghost use Rattle.ws_shown.specs.ShownProbes.{ComesOn, IsRunningAt, IsStageOf, RunsOnAt, WasShown, shown_left_at};
ghost use Rattle.ws_shown.specs.ShownProbes.{shown_wants, wants_at};
ghost use Rattle.ws_shown.specs.declared.shown_probe.ShownStage.TheVariants.{Opening};

use crate::line_room::LineRoom;
use crate::shown_tester::ShownTester;
use std::alloc::Global;
use std::marker::Model;
use std::mem;
use ws_base::NoMemory;
use ws_handshake::{HeadRefusal, Probe, ProbeMachine, ProbeStage};
use ws_lines::Showing;
use ws_machines::{Machine, StreamEvent};

/// A probe of a server, whose lines are wanted as the run goes on: those of a turn once all of it is sent, and of what
/// comes for it each as soon as its frame is whole. Before the head of the answer is whole none are.
#[derive(Drop)]
pub struct ShownProbe<'a> {
    alloc: Global,
    showing: Showing,
    stage: ShownStage<'a>,
}

impl<'a> Model for ShownProbe<'a> {
    ghost use Rattle.ws_shown.specs.ShownProbes.{RunsOnAt, ShownValue};

    ghost Value = { ShownValue };

    ghost view = { λ x. record { showing = x.showing; stage = x.stage } };

    ghost invariant = { λ x. RunsOnAt x.stage };
}

/// How far it has come.
#[derive(Drop)]
pub(crate) enum ShownStage<'a> {
    /// The request is written, and then the head of the answer read.
    Opening(ProbeMachine<'a>),
    /// The script is run.
    Running(ShownTester),
    /// The answer is to be refused.
    Refused(HeadRefusal),
    /// There is no connection.
    Lost,
}

/// What came of a probe, and those of its lines that were not taken: its last.
#[derive(Drop)]
pub struct ShownEnd {
    pub probe: Probe,
    pub last: Vec<u8>,
}

impl<'a> ShownProbe<'a> {
    /// Is to do what this probe does, of which nothing was told yet, and to show it so.
    pub fn new(alloc: Global, showing: Showing, machine: ProbeMachine<'a>) -> ShownProbe<'a>
        requires opening { is_opening machine.stage ≡ true }
        requires pieces { HaveBytes machine.script }
        requires untold { WasProbed machine machine [] }
        requires goes_on { HasNext (wanted_of machine) }
        ensures showing { result.showing ≡ showing }
        ensures stage { result.stage ≡ Opening machine.entry }
        ensures told { WasShown result result [] }
        ensures goes_on { HasNext (shown_wants result) }
    {
        ShownProbe {
            alloc,
            showing,
            stage: ShownStage::Opening(machine),
        }
    }
}

impl<'a> ShownStage<'a> {
    /// The stage behind something that happened, of what is wanted.
    fn on_event(
        self,
        alloc: Global,
        showing: Showing,
        event: StreamEvent<'_>,
    ) -> Result<ShownStage<'a>, NoMemory>
        requires may { MayBeTold (wants_at self) event }
        requires runs { RunsOnAt self }
        ensures comes { IfOk result (λ stage.
            ComesOn showing self.entry stage (told_at (wants_at self.entry) event.entry)) }
        ensures goes_on { IfOk result (λ stage. HasNext (wants_at stage)) }
        ensures runs { IfOk result (λ stage. RunsOnAt stage) }
        ensures nears { IfOk result (λ stage. IsRunningAt self.entry → shown_left_at stage < shown_left_at self.entry) }
    {
        match self {
            ShownStage::Opening(machine) => {
                let stage = opened_by(alloc, showing, machine, event)?;
                Ok(stage)
            }
            ShownStage::Running(tester) => {
                let tester = tester.told(event)?;
                Ok(ShownStage::Running(tester))
            }
            ShownStage::Refused(_) | ShownStage::Lost => Ok(ShownStage::Lost),
        }
    }
}

/// The stage behind something that happened before the head of the answer was whole.
fn opened_by<'a>(
    alloc: Global,
    showing: Showing,
    machine: ProbeMachine<'a>,
    event: StreamEvent<'_>,
) -> Result<ShownStage<'a>, NoMemory>
    requires may { MayBeTold (wanted_of machine) event }
    ensures comes { IfOk result (λ stage.
        ComesOn showing (Opening machine.entry) stage (told_at (wanted_of machine.entry) event.entry)) }
    ensures goes_on { IfOk result (λ stage. HasNext (wants_at stage)) }
    ensures runs { IfOk result (λ stage. RunsOnAt stage) }
    ensures nears { IfOk result (λ stage.
        IsRunning WasProbed machine.entry → shown_left_at stage < probe_left machine.entry * 2) }
{
    let mut machine = machine;
    machine.on_event(event)?;
    let stage = stage_of(alloc, showing, machine)?;
    Ok(stage)
}

/// The stage of a probe: a tester that runs is shown from its beginning.
fn stage_of<'a>(
    alloc: Global,
    showing: Showing,
    machine: ProbeMachine<'a>,
) -> Result<ShownStage<'a>, NoMemory>
    requires goes_on { HasNext (wanted_of machine) }
    ensures stage { IfOk result (IsStageOf showing machine.entry) }
    ensures goes_on { IfOk result (λ stage. HasNext (wants_at stage)) }
    ensures runs { IfOk result (λ stage. RunsOnAt stage) }
    ensures left { IfOk result (λ stage. shown_left_at stage ≤ probe_left machine.entry * 2 + 1) }
{
    if machine.is_opening() {
        return Ok(ShownStage::Opening(machine));
    }
    match machine.into_stage() {
        ProbeStage::Running(tester) => {
            let shown = ShownTester::new(tester, LineRoom::new(alloc, showing))?;
            Ok(ShownStage::Running(shown))
        }
        ProbeStage::Refused(refusal) => Ok(ShownStage::Refused(refusal)),
        ProbeStage::Lost => Ok(ShownStage::Lost),
        // It isn't opening.
        ProbeStage::Opening => unreachable!(),
    }
}

impl Machine for ShownProbe<'_> {
    ghost use Rattle.ws_shown.specs.ShownProbes.{ShownGives, WasShown, shown_left, shown_wants};

    type End = ShownEnd;

    ghost agrees = { λ start now told. WasShown start now told };

    ghost wants = { λ now. shown_wants now };

    ghost left = { λ now. shown_left now };

    ghost gives = { λ start told end. ShownGives start told end };

    fn to_write(&self) -> &[u8] {
        match &self.stage {
            ShownStage::Opening(machine) => machine.to_write(),
            ShownStage::Running(shown) => shown.tester.to_write(),
            ShownStage::Refused(_) | ShownStage::Lost => &[],
        }
    }

    fn to_report(&self) -> &[u8] {
        match &self.stage {
            ShownStage::Running(shown) => shown.room.waiting(),
            ShownStage::Opening(_) | ShownStage::Refused(_) | ShownStage::Lost => &[],
        }
    }

    fn room(&self) -> usize {
        match &self.stage {
            ShownStage::Opening(machine) => machine.room(),
            ShownStage::Running(shown) => shown.tester.room(),
            ShownStage::Refused(_) | ShownStage::Lost => 0,
        }
    }

    fn wants_end(&self) -> bool {
        match &self.stage {
            ShownStage::Opening(machine) => machine.wants_end(),
            ShownStage::Running(shown) => shown.tester.wants_end(),
            ShownStage::Refused(_) | ShownStage::Lost => false,
        }
    }

    fn waits_anew(&self) -> bool {
        match &self.stage {
            ShownStage::Opening(machine) => machine.waits_anew(),
            ShownStage::Running(shown) => shown.tester.waits_anew(),
            ShownStage::Refused(_) | ShownStage::Lost => true,
        }
    }

    fn is_done(&self) -> bool {
        match &self.stage {
            ShownStage::Opening(machine) => machine.is_done(),
            ShownStage::Running(shown) => shown.tester.is_done(),
            ShownStage::Refused(_) | ShownStage::Lost => true,
        }
    }

    fn on_event(&mut self, event: StreamEvent<'_>) -> Result<(), NoMemory> {
        let stage = mem::replace(&mut self.stage, ShownStage::Lost);
        let stage = stage.on_event(self.alloc, self.showing, event)?;
        // What stands there is `Lost`, which holds nothing.
        mem::forget(mem::replace(&mut self.stage, stage));
        Ok(())
    }

    fn into_end(self) -> Result<ShownEnd, NoMemory> {
        let ShownProbe { alloc, stage, .. } = self;
        match stage {
            ShownStage::Running(shown) => {
                let (transcript, last) = shown.into_parts()?;
                Ok(ShownEnd {
                    probe: Probe::Ran(transcript),
                    last,
                })
            }
            ShownStage::Refused(refusal) => Ok(ShownEnd {
                probe: Probe::Refused(refusal),
                last: Vec::new(alloc),
            }),
            ShownStage::Lost => Ok(ShownEnd {
                probe: Probe::NoConnection,
                last: Vec::new(alloc),
            }),
            // A machine that reads a head is not done.
            ShownStage::Opening(_) => unreachable!(),
        }
    }
}
