//! What is shown of a run as it goes on: the turns of its tester, as soon as they are certain.

ghost use Rattle.std.specs.Prelude.{◌≡◌, ◌≤◌, ◌++◌, ◌∷◌, [], ℕ, List, length, true, false, OnOk};
ghost use Rattle.ws_scripts.specs.declared.transcript.Turn.{Turn};
ghost use Rattle.ws_shown.specs.LineRooms.{LinesGoOn};
ghost use Rattle.ws_shown.specs.ShownTesters.{ShowsPast, ShowsRun};
ghost use Rattle.ws_shown.specs.TurnsTold.{IsPartOf, IsToldOfRun, IsToldSoFar};

use crate::line_room::LineRoom;
use crate::turns_told::TurnsTold;
use ws_base::NoMemory;
use ws_machines::Machine;
use ws_suite::Turn;
use ws_tester::Tester;

/// Shows what wasn't shown yet of the turns that are over, and of the turn under way once all of it is sent.
pub(crate) fn show_run(
    tester: &Tester,
    told: &mut TurnsTold,
    room: &mut LineRoom,
) -> Result<(), NoMemory>
    ensures shows { OnOk result ((turns : List Turn) → IsToldOfRun told.old tester.now.run turns →
        ShowsRun tester.now.run told.new turns room.old room.new) }
    ensures showing { OnOk result (room.new.showing ≡ room.old.showing) }
{
    if !tester.has_begun() {
        return Ok(());
    }
    show_past(tester.past(), told, room)?;
    if tester.to_write().is_empty() {
        show_turn(tester.sent(), tester.got(), told, room)?;
    }
    Ok(())
}

/// Shows the turns that are over.
fn show_past(past: &[Turn], told: &mut TurnsTold, room: &mut LineRoom) -> Result<(), NoMemory>
    ensures shows { OnOk result ((turn : Turn) (turns : List Turn) → IsToldSoFar told.old past.now turn turns →
        ShowsPast told.new past.now turn turns room.old room.new) }
    ensures same { OnOk result (told.new.is_sent ≡ true → told.new ≡ told.old) }
    ensures showing { OnOk result (room.new.showing ≡ room.old.showing) }
{
    'turns: while told.whole < past.len() {
        let turn = &past[told.whole];
        show_turn(turn.sent.as_slice(), turn.got.as_slice(), told, room)?;
        told.whole += 1;
        told.is_sent = false;
        told.got = 0;
    }
    Ok(())
}

/// Shows one turn, which is shown to its end then.
fn show_turn(
    sent: &[u8],
    got: &[u8],
    told: &mut TurnsTold,
    room: &mut LineRoom,
) -> Result<(), NoMemory>
    ensures shows { OnOk result ((before part : List Turn) →
        IsPartOf told.old.is_sent told.old.got (record { sent = sent.now; got = got.now }) part → LinesGoOn
        (before ++ part) (before ++ record { sent = sent.now; got = got.now } ∷ []) room.old room.new) }
    ensures whole { OnOk result (told.new.whole ≡ told.old.whole) }
    ensures told { OnOk result ((part : List Turn) →
        IsPartOf told.old.is_sent told.old.got (record { sent = sent.now; got = got.now }) part →
        told.new ≡ record { whole = told.old.whole; is_sent = true; got = length got.now }) }
    ensures showing { OnOk result (room.new.showing ≡ room.old.showing) }
{
    if told.is_sent {
        show_got(got, told, room)?;
        return Ok(());
    }
    show_sent(sent, told, room)?;
    show_got(got, told, room)?;
    Ok(())
}

/// Shows what a turn has sent.
fn show_sent(sent: &[u8], told: &mut TurnsTold, room: &mut LineRoom) -> Result<(), NoMemory>
    ensures shows { OnOk result ((before : List Turn) → LinesGoOn before
        (before ++ record { sent = sent.now; got = [] } ∷ []) room.old room.new) }
    ensures told { OnOk result (told.new ≡ record { whole = told.old.whole; is_sent = true; got = 0 }) }
    ensures showing { OnOk result (room.new.showing ≡ room.old.showing) }
{
    room.begin_turn(sent)?;
    told.is_sent = true;
    told.got = 0;
    Ok(())
}

/// Shows what a turn has got besides, if anything, where what that has sent was shown.
fn show_got(got: &[u8], told: &mut TurnsTold, room: &mut LineRoom) -> Result<(), NoMemory>
    requires sent { told.old.is_sent ≡ true }
    ensures shows { OnOk result ((before : List Turn) (sent front others : List ℕ) → got.now ≡ front ++ others
        → length front ≡ told.old.got → LinesGoOn (before ++ record { sent = sent; got = front } ∷ [])
        (before ++ record { sent = sent; got = got.now } ∷ []) room.old room.new) }
    ensures whole { OnOk result (told.new.whole ≡ told.old.whole) }
    ensures told { OnOk result ((front others : List ℕ) → got.now ≡ front ++ others → length front ≡ told.old.got →
        told.new ≡ record { whole = told.old.whole; is_sent = true; got = length got.now }) }
    ensures showing { OnOk result (room.new.showing ≡ room.old.showing) }
{
    if got.len() <= told.got {
        return Ok(());
    }
    room.got(&got[told.got..])?;
    told.got = got.len();
    Ok(())
}
