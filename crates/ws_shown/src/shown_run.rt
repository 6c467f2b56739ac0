//! The run of a script over an end whose handshake is done, whose lines are wanted as soon as they are certain (RFC
//! 6455 sections 5 to 7).

ghost use Rattle.std.specs.Prelude.{◌≡◌, [], IfOk};
ghost use Rattle.ws_machines.specs.Machines.{HasNext};
ghost use Rattle.ws_tester.specs.Following.{BeginsRun, ScriptValue, WasTold};
ghost use Rattle.ws_tester.specs.Outgoings.{HaveBytes};
ghost use Rattle.ws_tester.specs.RunStates.{wanted_in};
ghost use Rattle.ws_shown.specs.ShownRuns.{WasRunShown};
ghost use Rattle.ws_shown.specs.ShownTesters.{wanted_shown};

use crate::line_room::LineRoom;
use crate::shown_tester::ShownTester;
use std::alloc::Global;
use std::marker::Model;
use ws_base::NoMemory;
use ws_lines::Showing;
use ws_machines::{Machine, StreamEvent};
use ws_suite::Transcript;
use ws_tester::Tester;

/// The run of a script, whose lines are wanted as it goes on: those of a turn once all of it is sent, and of what comes
/// for it each as soon as its frame is whole.
#[derive(Drop)]
pub struct ShownRun {
    shown: ShownTester,
    /// Memory ran out for it: nothing is known of it any more.
    has_failed: bool,
}

impl Model for ShownRun {
    ghost use Rattle.std.specs.Prelude.{◌≡◌, false};
    ghost use Rattle.ws_machines.specs.Machines.{HasNext};
    ghost use Rattle.ws_tester.specs.RunStates.{wanted_in};
    ghost use Rattle.ws_shown.specs.declared.shown_tester.ShownTester.{ShownTester};

    ghost Value = { ShownTester };

    ghost view = { λ x. x.shown };

    ghost invariant = { λ x. x.has_failed ≡ false → HasNext (wanted_in x.shown.tester.run) };
}

/// What came of a run, and those of its lines that were not taken: its last.
#[derive(Drop)]
pub struct RunEnd {
    pub transcript: Transcript,
    pub last: Vec<u8>,
}

impl ShownRun {
    /// Is to run what this tester runs, of which nothing was told yet, and to show it so.
    pub fn new(alloc: Global, showing: Showing, tester: Tester) -> Result<ShownRun, NoMemory>
        requires untold { WasTold tester tester [] }
        requires goes_on { HasNext (wanted_in tester.run) }
        ensures tester { IfOk result (λ run. run.tester ≡ tester) }
        ensures showing { IfOk result (λ run. run.room.showing ≡ showing) }
        ensures told { IfOk result (λ run. (script : ScriptValue) → HaveBytes script.script →
            BeginsRun script tester.run → WasRunShown run run []) }
        ensures goes_on { IfOk result (λ run. HasNext (wanted_shown run)) }
    {
        let shown = ShownTester::new(tester, LineRoom::new(alloc, showing))?;
        Ok(ShownRun {
            shown,
            has_failed: false,
        })
    }
}

impl Machine for ShownRun {
    ghost use Rattle.ws_shown.specs.ShownRuns.{RunShows, WasRunShown};
    ghost use Rattle.ws_shown.specs.ShownTesters.{left_shown, wanted_shown};

    type End = RunEnd;

    ghost agrees = { λ start now told. WasRunShown start now told };

    ghost wants = { λ now. wanted_shown now };

    ghost left = { λ now. left_shown now };

    ghost gives = { λ start told end. RunShows start told end };

    fn to_write(&self) -> &[u8] {
        self.shown.tester.to_write()
    }

    fn to_report(&self) -> &[u8] {
        self.shown.room.waiting()
    }

    fn room(&self) -> usize {
        self.shown.tester.room()
    }

    fn wants_end(&self) -> bool {
        self.shown.tester.wants_end()
    }

    fn waits_anew(&self) -> bool {
        self.shown.tester.waits_anew()
    }

    fn is_done(&self) -> bool {
        self.shown.tester.is_done()
    }

    fn on_event(&mut self, event: StreamEvent<'_>) -> Result<(), NoMemory> {
        if self.has_failed {
            return Err(NoMemory);
        }
        self.has_failed = true;
        self.shown.on_event(event)?;
        self.has_failed = false;
        Ok(())
    }

    fn into_end(self) -> Result<RunEnd, NoMemory> {
        let ShownRun { shown, .. } = self;
        let (transcript, last) = shown.into_parts()?;
        Ok(RunEnd { transcript, last })
    }
}
