//! How cases that clients under test were run in are told of: what is written of each, and behind all of them.

ghost use Rattle.std.specs.Prelude.{◌≡◌, IfOk, [], if◌then◌else◌, string_bytes};
ghost use Rattle.wst_testing.specs.Sweeps.{is_told};
ghost use Rattle.ws_frame.specs.Devices.{watched};
ghost use Rattle.wst_commands.specs.Devices.{StaysFailed};
ghost use Rattle.wst_testing.specs.Notes.{TellsEach};
ghost use Rattle.wst_clients.specs.ClientLines.{behind_for, beside_for, end_for, line_for, score_of_case, swept_line};

use crate::visiting::Telling;
use std::alloc::Global;
use std::io::Write;
use ws_base::NoMemory;
use ws_frame::Watched;
use ws_reports::CaseScore;
use ws_suite::Case;
use wst_testing::{
    Outcome, Reported, Score, behind_text, is_fail, is_told, report_case, tell_beside, total_of,
};

/// What is written of a case, if anything is, and what that adds to what a run comes to.
pub(crate) fn line_for(
    alloc: Global,
    telling: Telling<'_>,
    case: &Case,
    outcome: &Outcome,
) -> Result<Reported, NoMemory>
    ensures text { IfOk result (λ told. string_bytes told.text ≡ line_for telling.entry (case.now, outcome.now)) }
    ensures score { IfOk result (λ told. told.score ≡ score_of_case telling.entry (case.now, outcome.now)) }
{
    match telling {
        Telling::Cases(report) => report_case(alloc, report, case, outcome),
        Telling::Scripts { all } => {
            let text = script_line(alloc, all, case, outcome)?;
            let score = CaseScore {
                is_failed: is_fail(outcome),
                change: None,
                verdict: None,
            };
            Ok(Reported { text, score })
        }
    }
}

/// The line of a script, if it has one, whose case is named by its steps.
fn script_line(alloc: Global, all: bool, case: &Case, outcome: &Outcome) -> Result<String, NoMemory>
    ensures { IfOk result (λ line. string_bytes line
        ≡ (if is_told all outcome.now then swept_line (case.now, outcome.now) else [])) }
{
    if is_told(all, outcome) {
        let line = format!(in alloc; "{outcome}: {}\n", case.id)?;
        Ok(line)
    } else {
        Ok(String::new(alloc))
    }
}

/// What stands behind the cases of a run that came to this, of so many scripts.
pub(crate) fn behind_for(
    alloc: Global,
    telling: Telling<'_>,
    count: usize,
    score: &Score,
) -> Result<String, NoMemory>
    ensures { IfOk result (λ behind. string_bytes behind ≡ behind_for telling.entry count score.now) }
{
    match telling {
        Telling::Cases(report) => behind_text(alloc, report, score),
        Telling::Scripts { .. } => total_of(alloc, count, score.tally),
    }
}

/// What is written last, where this stands behind the cases.
pub(crate) fn end_for<'a>(telling: Telling<'a>, behind: &'a str) -> &'a str
    ensures { result.now ≡ end_for telling.entry behind.now }
{
    match telling {
        Telling::Cases(report) => report.end_text(behind),
        Telling::Scripts { .. } => behind,
    }
}

/// Tells on the fault output what stands behind the cases of a document.
pub(crate) fn tell_beside_for<F: Write>(telling: Telling<'_>, behind: &str, faults: &mut Watched<F>)
    ensures told { TellsEach (beside_for telling.entry behind.now) (watched F.contents faults.old faults.new) }
    ensures still { StaysFailed faults.old faults.new }
{
    match telling {
        Telling::Cases(report) => tell_beside(report, behind, faults),
        Telling::Scripts { .. } => {}
    }
}
