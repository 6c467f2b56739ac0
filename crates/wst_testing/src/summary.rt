//! The summary of a run.

ghost use Rattle.std.specs.Prelude.{◌≡◌, IfOk, string_bytes};
ghost use Rattle.ws_runs.specs.Views.{result_value, result_values};
ghost use Rattle.wst_testing.specs.Summaries.{kept_result, kept_results, summary_lines};

use std::alloc::Global;
use ws_base::NoMemory;
use ws_reports::KeptVerdict;
use ws_runs::{CaseResult, push_tallies};
use ws_suite::ids;

/// The lines of a summary of these verdicts, the most frequent first.
pub(crate) fn summary_lines(alloc: Global, kept: &[KeptVerdict]) -> Result<String, NoMemory>
    ensures { IfOk result (λ text. string_bytes text ≡ summary_lines kept.now) }
{
    if kept.is_empty() {
        return Ok(String::new(alloc));
    }
    let listed = ids(alloc)?;
    let cells = kept_results(alloc, kept)?;
    let mut text = String::new(alloc);
    push_tallies(alloc, cells.as_slice(), listed.as_slice(), &mut text)?;
    Ok(text)
}

/// The results in a summary of these verdicts.
fn kept_results<'a>(alloc: Global, kept: &'a [KeptVerdict]) -> Result<Vec<CaseResult<'a>>, NoMemory>
    ensures { IfOk result (λ results. result_values results.items ≡ kept_results kept.now) }
{
    let mut results = Vec::new(alloc);
    for verdict in kept {
        results.push(kept_result(verdict))?;
    }
    Ok(results)
}

/// The result of one.
fn kept_result(verdict: &KeptVerdict) -> CaseResult<'_>
    ensures { result_value result ≡ kept_result verdict.now }
{
    CaseResult {
        id: verdict.id.as_slice(),
        words: verdict.words.as_slice(),
        line: b"",
        below: b"",
    }
}
