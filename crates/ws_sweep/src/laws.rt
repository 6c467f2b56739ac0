//! Laws over the definitions, each the contract of a function that does nothing.

ghost use Rattle.std.specs.Prelude.{◌≡◌, ◌≤◌, ◌<◌, ◌↔◌, ℕ, List, Option, length, map};
ghost use Rattle.ws_wire.specs.declared.role.Role.{Role};
ghost use Rattle.ws_scripts.specs.declared.expectation.Expectation.{Expectation};
ghost use Rattle.ws_scripts.specs.declared.script.Case.{Case};
ghost use Rattle.ws_sweep.specs.Order.{ArePlaces, StandsBefore, count_of_scripts, script_number};
ghost use Rattle.ws_sweep.specs.ShortCases.{IsShortCase};
ghost use Rattle.ws_sweep.specs.Telling.{case_rows};

/// The numbers count the scripts in their order: one that stands before another has a smaller number.
pub fn numbers_follow_the_order()
    ensures { (places others : List ℕ) → ArePlaces places → ArePlaces others → StandsBefore places others →
        script_number places < script_number others }
{}

/// No number is that of two scripts: so none comes twice.
pub fn no_script_comes_twice()
    ensures { (places others : List ℕ) → ArePlaces places → ArePlaces others →
        script_number places ≡ script_number others → places ≡ others }
{}

/// The scripts of at most so many steps are those whose numbers are less than their count.
pub fn scripts_are_counted()
    ensures { (places : List ℕ) (steps : ℕ) → ArePlaces places →
        (length places ≤ steps) ↔ (script_number places < count_of_scripts steps) }
{}

/// The lines of a script are those of all steps of its case: so the script of these lines is the case that is run.
pub fn lines_tell_the_whole_case()
    ensures { (tested : Role) (expected : Expectation) (key : Option (List ℕ)) (places : List ℕ) (case : Case) →
        IsShortCase tested expected key places case →
        map (λ told. told.step) (case_rows tested expected places case.steps) ≡ case.steps }
{}
