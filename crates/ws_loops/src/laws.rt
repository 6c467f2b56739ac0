//! What the order of things says: laws about the definitions.

ghost use Rattle.std.specs.Prelude.{◌≡◌, ◌⊎◌, ℕ, List, true, false, Some};
ghost use Rattle.ws_machines.specs.Machines.{Wants};
ghost use Rattle.ws_machines.specs.Told.Told.{NothingCame, Taken, WriteFailed};
ghost use Rattle.ws_loops.specs.Deeds.Deed.{Did, Passed};
ghost use Rattle.ws_loops.specs.Paces.{IsBefore, due_time, has_passed, is_due};
ghost use Rattle.ws_loops.specs.Slots.{IsNextDeed};
ghost use Rattle.ws_loops.specs.declared.pace.Pace.{Pace};

/// A machine is told that nothing came only where its stream was asked by that very time and had nothing, and its time
/// limit has passed.
pub fn wait_in_vain_was_asked()
    ensures { (wants : Wants) (pace : Pace) (now : ℕ) → IsNextDeed wants pace now (Passed NothingCame) →
        (pace.idle ≡ Some now) × (has_passed pace.limit pace.waits_since now ≡ true) }
{}

/// It is told by the clock that a write has failed only where its stream was given the bytes by that very time and took
/// none, and the time limit has passed.
pub fn failed_write_was_tried()
    ensures { (wants : Wants) (pace : Pace) (now : ℕ) → IsNextDeed wants pace now (Passed WriteFailed) →
        (pace.full ≡ Some now) × (has_passed pace.limit pace.writes_since now ≡ true) }
{}

/// Bytes are written only where nothing is to be read, or the stream was asked and had nothing, or no more than it gave
/// then, or a turn of bytes was read since the last write.
pub fn written_once_read()
    ensures { (wants : Wants) (pace : Pace) (now : ℕ) (bytes : List ℕ) →
        IsNextDeed wants pace now (Did (Taken bytes)) →
        (wants.room ≡ 0) ⊎ (((time : ℕ) × (pace.idle ≡ Some time)) ⊎ ((pace.emptied ≡ true) ⊎ (pace.turn ≡ 0))) }
{}

/// Before the time that `due_at` names nothing is due, if the stream isn't found ready.
pub fn nothing_is_due_before()
    ensures { (wants : Wants) (pace : Pace) (now t : ℕ) → wants.done ≡ false → is_due wants pace now ≡ false →
        IsBefore t (due_time wants pace now) → is_due wants pace t ≡ false }
{}
