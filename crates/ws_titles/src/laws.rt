//! A law over the table of titles, the contract of a function that does nothing.

ghost use Rattle.std.specs.Prelude.{◌≡◌, true};
ghost use Rattle.ws_scripts.specs.CaseNames.{case_names};
ghost use Rattle.ws_titles.specs.TitleTable.{title_parts};
ghost use Rattle.ws_titles.specs.Titles.{have_titles, titled_names};

/// The table has a title for each case, in the order of the cases, and for no other name; and each title is a line of 1
/// to 60 characters.
pub fn each_case_has_a_title()
    ensures named { titled_names title_parts ≡ case_names }
    ensures short { have_titles title_parts ≡ true }
{}
