//! Laws over the definitions, each the contract of a function that does nothing.

ghost use Rattle.std.specs.Prelude.{◌≡◌, ◌⊎◌, ℕ, List, Some, false, true};
ghost use Rattle.std.specs.Str.{bytes_eq};
ghost use Rattle.ws_runs.specs.Names.{IsEachOnce, is_among};
ghost use Rattle.ws_runs.specs.RunLines.{RunLine as Meaning};
ghost use Rattle.ws_runs.specs.Runs.{ReadingValue, ResultValue, cell_in, peer_names, runs_of, with_verdict};

/// Each peer and each case is there once. The line of a case counts for its peer and its case, in place of an earlier
/// line of both, and what counts for another peer or another case stays.
pub fn each_line_has_a_cell()
    ensures peers_once { (lines : List Meaning) → IsEachOnce (peer_names (runs_of lines).peers) }
    ensures ids_once { (lines : List Meaning) → IsEachOnce (runs_of lines).ids }
    ensures row { (result : ResultValue) (reading : ReadingValue)
        → is_among result.id (with_verdict result reading).runs.ids ≡ true }
    ensures counts { (result : ResultValue) (reading : ReadingValue)
        → cell_in (with_verdict result reading).runs reading.name result.id ≡ Some result }
    ensures others { (result : ResultValue) (reading : ReadingValue) (name id : List ℕ)
        → (bytes_eq reading.name name ≡ false) ⊎ (bytes_eq result.id id ≡ false)
        → cell_in (with_verdict result reading).runs name id ≡ cell_in reading.runs name id }
{}
