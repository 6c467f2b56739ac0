//! The steps of a short script's case as they are told in a line.

ghost use Rattle.std.specs.Prelude.{◌≡◌, ◌++◌, IfOk, OnOk, map, string_bytes};
ghost use Rattle.ws_sweep.specs.Order.{ArePlaces};
ghost use Rattle.ws_sweep.specs.Telling.{case_rows, end_rows, script_rows, steps_text};

use crate::alphabet::step_line;
use crate::short_script::ShortScript;
use std::alloc::Global;
use ws_base::NoMemory;
use ws_scripts::{Expectation, Step};
use ws_wire::Role;

/// The steps of the case of a script for a tested end of this role, of which this is expected, as their lines, parted
/// by `; `: also what stands behind the script.
pub fn tell_steps(
    alloc: Global,
    tested: Role,
    expected: Expectation,
    script: &ShortScript,
    steps: &[Step],
) -> Result<String, NoMemory>
    requires { ArePlaces script.now }
    ensures { IfOk result (λ text. string_bytes text ≡ steps_text tested expected script.now steps.now) }
{
    let lines = case_lines(alloc, tested, expected, script, steps)?;
    let text = lines.as_slice().join(alloc, "; ")?;
    Ok(text)
}

/// The lines of the steps of its case.
#[tactic(auto, using(crate::proofs::Lines::lines_alone, crate::proofs::Lines::lines_closed))]
fn case_lines(
    alloc: Global,
    tested: Role,
    expected: Expectation,
    script: &ShortScript,
    steps: &[Step],
) -> Result<Vec<&'static str>, NoMemory>
    requires { ArePlaces script.now }
    ensures { IfOk result (λ lines. map (λ line. line.now) lines.items
        ≡ map (λ told. told.line) (case_rows tested expected script.now steps.now)) }
{
    let mut lines = script_lines(alloc, tested, script)?;
    if steps.len() <= script.places().len() {
        return Ok(lines);
    }
    add_end(expected, &mut lines)?;
    Ok(lines)
}

/// The lines of the steps of a script.
fn script_lines(
    alloc: Global,
    tested: Role,
    script: &ShortScript,
) -> Result<Vec<&'static str>, NoMemory>
    requires { ArePlaces script.now }
    ensures { IfOk result (λ lines. map (λ line. line.now) lines.items
        ≡ map (λ told. told.line) (script_rows tested script.now)) }
{
    let mut lines = Vec::new(alloc);
    for place in script.places() {
        lines.push(step_line(tested, *place as usize))?;
    }
    Ok(lines)
}

/// Behind them the lines of what stands behind steps that send neither a close nor a fault.
fn add_end(expected: Expectation, lines: &mut Vec<&'static str>) -> Result<(), NoMemory>
    ensures { OnOk result (map (λ line. line.now) lines.new.items
        ≡ map (λ line. line.now) lines.old.items ++ map (λ told. told.line) (end_rows expected)) }
{
    match expected {
        Expectation::Echo => {}
        Expectation::Protocol => lines.push("wait")?,
    }
    lines.push("close=1000")?;
    Ok(())
}
