//! Laws over the definitions, each the contract of a function that does nothing.

ghost use Rattle.std.specs.Prelude.{◌≡◌, ℕ, All, List, true};
ghost use Rattle.ws_pages.specs.LastResults.{HasResult, cell_at, last_result};
ghost use Rattle.ws_pages.specs.PageText.{IsTextOnPage, on_page};
ghost use Rattle.ws_runs.specs.Names.{IsEachOnce, is_among};
ghost use Rattle.ws_runs.specs.RunLines.{RunLine};
ghost use Rattle.ws_runs.specs.Runs.{peer_names, runs_of};

/// What comes from the input begins and ends nothing on a page: no tag, and no text of an attribute.
pub fn input_ends_nothing_on_a_page()
    ensures { (bytes : List ℕ) → All IsTextOnPage (on_page bytes) }
{}

/// Each line of a case has its peer among the columns and its case among the rows. Each column and each row is there
/// once, so the line belongs to one cell. In that cell is the last line of that peer and that case, and no line of
/// another.
pub fn each_result_has_a_cell()
    ensures column { (lines : List RunLine) (name id : List ℕ) → HasResult lines name id
        → is_among name (peer_names (runs_of lines).peers) ≡ true }
    ensures row { (lines : List RunLine) (name id : List ℕ) → HasResult lines name id
        → is_among id (runs_of lines).ids ≡ true }
    ensures peers_once { (lines : List RunLine) → IsEachOnce (peer_names (runs_of lines).peers) }
    ensures ids_once { (lines : List RunLine) → IsEachOnce (runs_of lines).ids }
    ensures cell { (lines : List RunLine) (name id : List ℕ)
        → cell_at (runs_of lines).peers name id ≡ last_result lines name id }
{}
