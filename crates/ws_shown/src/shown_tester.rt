//! A tester whose lines are wanted as soon as they are certain.

ghost use Rattle.std.specs.Prelude.{◌≡◌, ◌<◌, ◌++◌, ◌∷◌, [], true, IfOk, OnOk};
ghost use Rattle.ws_machines.specs.Machines.{HasNext, IsRunning, MayBeTold, told_at};
ghost use Rattle.ws_shown.specs.ShownTesters.{EndsShown, HearsShown, IsShownBy, TellsShown, is_report, left_shown};
ghost use Rattle.ws_shown.specs.ShownTesters.{wanted_shown};
ghost use Rattle.ws_tester.specs.Following.{WasTold};
ghost use Rattle.ws_tester.specs.RunStates.{wanted_in};
ghost use Rattle.ws_shown.specs.LineRooms.{HasLinesOf};

use crate::line_room::LineRoom;
use crate::telling::show_run;
use crate::turns_told::TurnsTold;
use ws_base::NoMemory;
use ws_machines::{Machine, StreamEvent};
use ws_session::laws::one_list_of_events;
use ws_suite::Transcript;
use ws_tester::Tester;

/// A tester, what was told of its turns, and the room in which its lines wait.
#[derive(Drop)]
pub(crate) struct ShownTester {
    pub(crate) tester: Tester,
    pub(crate) told: TurnsTold,
    pub(crate) room: LineRoom,
}

impl ShownTester {
    /// One that begins, with lines of which none was told.
    pub(crate) fn new(tester: Tester, room: LineRoom) -> Result<ShownTester, NoMemory>
        requires fresh { HasLinesOf room [] [] }
        ensures tester { IfOk result (λ shown. shown.tester ≡ tester) }
        ensures shown { IfOk result (λ shown. IsShownBy shown []) }
        ensures showing { IfOk result (λ shown. shown.room.showing ≡ room.showing) }
    {
        let mut told = TurnsTold::none();
        let mut room = room;
        show_run(&tester, &mut told, &mut room)?;
        Ok(ShownTester { tester, told, room })
    }

    /// The tester behind something that happened, of what it wants.
    pub(crate) fn told(self, event: StreamEvent<'_>) -> Result<ShownTester, NoMemory>
        requires may { MayBeTold (wanted_shown self) event }
        requires goes { HasNext (wanted_in self.tester.run) }
        ensures told { IfOk result (λ new. TellsShown self new (told_at (wanted_shown self) event.entry)) }
        ensures showing { IfOk result (λ new. new.room.showing ≡ self.room.showing) }
        ensures goes_on { IfOk result (λ new. HasNext (wanted_in new.tester.run)) }
        ensures nears { IfOk result (λ new.
            IsRunning WasTold self.tester → left_shown new < left_shown self) }
    {
        let mut shown = self;
        shown.on_event(event)?;
        Ok(shown)
    }

    /// Something happened, of what it wants.
    pub(crate) fn on_event(&mut self, event: StreamEvent<'_>) -> Result<(), NoMemory>
        requires may { MayBeTold (wanted_shown self.old) event }
        requires goes { HasNext (wanted_in self.old.tester.run) }
        ensures told { OnOk result (TellsShown self.old self.new (told_at (wanted_shown self.old) event.entry)) }
        ensures showing { OnOk result (self.new.room.showing ≡ self.old.room.showing) }
        ensures goes_on { OnOk result (HasNext (wanted_in self.new.tester.run)) }
        ensures nears { OnOk result (IsRunning WasTold self.old.tester → left_shown self.new < left_shown self.old) }
    {
        if is_report(event) {
            self.room.clear();
            return Ok(());
        }
        self.tell(event)?;
        Ok(())
    }

    /// Something happened to the tester.
    fn tell(&mut self, event: StreamEvent<'_>) -> Result<(), NoMemory>
        requires may { MayBeTold (wanted_in self.old.tester.run) event }
        ensures told { OnOk result
            (HearsShown self.old self.new (told_at (wanted_in self.old.tester.run) event.entry)) }
        ensures showing { OnOk result (self.new.room.showing ≡ self.old.room.showing) }
        ensures goes_on { OnOk result (HasNext (wanted_in self.new.tester.run)) }
        ensures nears { OnOk result (IsRunning WasTold self.old.tester → left_shown self.new < left_shown self.old) }
    {
        one_list_of_events();
        self.tester.on_event(event)?;
        show_run(&self.tester, &mut self.told, &mut self.room)?;
        Ok(())
    }

    /// What came of it, and the lines that were not taken.
    pub(crate) fn into_parts(self) -> Result<(Transcript, Vec<u8>), NoMemory>
        requires { (wanted_in self.tester.run).done ≡ true }
        ensures { IfOk result (λ ended. EndsShown self ended.0 ended.1.items) }
    {
        let ShownTester { tester, room, .. } = self;
        let transcript = tester.into_end()?;
        let last = room.into_last(transcript.ended)?;
        Ok((transcript, last))
    }
}

/// Whether it is that lines were taken.
fn is_report(event: StreamEvent<'_>) -> bool
    ensures { result ≡ is_report event.entry }
{
    match event {
        StreamEvent::Reported => true,
        StreamEvent::Came(_)
        | StreamEvent::Ended
        | StreamEvent::ReadFailed
        | StreamEvent::NothingCame
        | StreamEvent::Taken(_)
        | StreamEvent::WriteFailed
        | StreamEvent::DirectionEnded
        | StreamEvent::DeadlinePassed(_) => false,
    }
}
