//! The case of a short script.

ghost use Rattle.std.specs.Prelude.{◌≡◌, ◌↔◌, ◌≤◌, ◌++◌, IfOk, IsTrue, length, take};
ghost use Rattle.ws_scripts.specs.declared.script.Chop.TheVariants.{Whole};
ghost use Rattle.ws_scripts.specs.Scripts.{CanBeRun, FitHeaders};
ghost use Rattle.ws_sweep.specs.InnerFronts.{IsSessionAfter};
ghost use Rattle.ws_sweep.specs.Alphabet.{step_at};
ghost use Rattle.ws_sweep.specs.Order.{ArePlaces, IsStepPlace};
ghost use Rattle.ws_sweep.specs.ShortCases.{HasEnd, IsShortCase, bytes_sent, end_steps, short_steps};

use crate::alphabet::{Sends, is_step_of, letter_at, step_of};
use crate::lemmas::event_laws;
use crate::short_script::ShortScript;
use std::alloc::Global;
use ws_base::{NoMemory, Sequence};
use ws_scripts::{Case, Chop, Expectation, Step, bytes_with};
use ws_session::{Limits, Session};
use ws_wire::{NO_KEY, Role};

/// The name of a case that has none.
pub(crate) const NO_NAME: &str = "-";

/// What stands behind a script that asks for it: a close frame with code 1000.
const CLOSE: Sends = Sends::Frame(true, 0, 8, b"\x03\xe8");

/// The case of a script that tests an end of this role, its frames masked with `key`, or plain where there is none: its
/// steps, and behind them, where what they send has neither a close nor a fault, a close with code 1000. Of an end that
/// needn't echo what is due is waited for before that close. `turns_with` takes it.
pub fn short_case(
    alloc: Global,
    tested: Role,
    expected: Expectation,
    key: Option<[u8; 4]>,
    script: &ShortScript,
) -> Result<Case, NoMemory>
    requires { ArePlaces script.now }
    ensures is { IfOk result (λ case. IsShortCase tested expected key script.now case) }
    ensures runs { IfOk result (λ case. CanBeRun case) }
{
    let name = no_name(alloc)?;
    let steps = steps_of(alloc, tested, script, Vec::new(alloc))?;
    let case = whole_case(name, steps);
    if has_end(alloc, tested, key, &case)? {
        return Ok(case);
    }
    let closed = with_close(alloc, expected, case)?;
    Ok(closed)
}

/// The name of a case that has none.
pub(crate) fn no_name(alloc: Global) -> Result<String, NoMemory> {
    let name = String::from_str(alloc, NO_NAME)?;
    Ok(name)
}

/// The steps of a script, in the room of others: the first of these stay, as far as they are those of the script.
pub(crate) fn steps_of(
    alloc: Global,
    tested: Role,
    script: &ShortScript,
    room: Vec<Step>,
) -> Result<Vec<Step>, NoMemory>
    requires { ArePlaces script.now }
    ensures { IfOk result (λ steps. steps.items ≡ short_steps tested script.now) }
{
    let places = script.places();
    let mut steps = room;
    let mut at = shared_count(tested, places, &steps);
    steps.truncate(at);
    while at < places.len() {
        let letter = letter_at(tested, places[at] as usize);
        steps.push(step_of(alloc, letter.sends)?)?;
        at += 1;
    }
    Ok(steps)
}

/// How many steps at the front of these are those at the places.
fn shared_count(tested: Role, places: &[u8], steps: &[Step]) -> usize
    requires { ArePlaces places.now }
    ensures within { result ≤ length places.now }
    ensures same { take result steps.now ≡ short_steps tested (take result places.now) }
{
    let mut at = 0;
    while at < places.len() && at < steps.len() && has_step(tested, places[at], &steps[at]) {
        at += 1;
    }
    at
}

/// Whether this is the step at a place.
fn has_step(tested: Role, place: u8, step: &Step) -> bool
    requires { IsStepPlace place }
    ensures { IsTrue result → step.now ≡ (step_at tested place).step }
{
    let letter = letter_at(tested, place as usize);
    is_step_of(letter.sends, step)
}

/// A case with this name of these steps, whose turns are sent whole.
pub(crate) fn whole_case(id: String, steps: Vec<Step>) -> Case
    ensures steps { result.steps ≡ steps.items }
    ensures whole { result.chop ≡ Whole }
{
    Case {
        id,
        steps: Sequence::from_vec(steps),
        chop: Chop::Whole,
    }
}

/// The case with a close behind its steps, and before it what is expected of the end asks for.
pub(crate) fn with_close(alloc: Global, expected: Expectation, case: Case) -> Result<Case, NoMemory>
    ensures steps { IfOk result (λ closed. closed.steps ≡ case.steps ++ end_steps expected) }
    ensures chop { IfOk result (λ closed. closed.chop ≡ case.chop) }
{
    let Case { id, steps, chop } = case;
    let mut steps = steps.into_vec();
    match expected {
        Expectation::Echo => {}
        // A ping in the turn of the close asks for no pong.
        Expectation::Protocol => steps.push(Step::Wait)?,
    }
    steps.push(step_of(alloc, CLOSE)?)?;
    Ok(Case {
        id,
        steps: Sequence::from_vec(steps),
        chop,
    })
}

/// Whether what a case sends to an end of this role holds a close or a fault.
fn has_end(alloc: Global, tested: Role, key: Option<[u8; 4]>, case: &Case) -> Result<bool, NoMemory>
    requires { CanBeRun case.now }
    ensures { IfOk result (λ ends. IsTrue ends ↔ HasEnd tested (bytes_sent case.now.steps key)) }
{
    let ends = steps_have_end(alloc, tested, key, case.steps.as_slice())?;
    Ok(ends)
}

/// Whether what steps send to an end of this role holds a close or a fault.
pub(crate) fn steps_have_end(
    alloc: Global,
    tested: Role,
    key: Option<[u8; 4]>,
    steps: &[Step],
) -> Result<bool, NoMemory>
    requires { FitHeaders steps.now }
    ensures { IfOk result (λ ends. IsTrue ends ↔ HasEnd tested (bytes_sent steps.now key)) }
{
    event_laws();
    let session = session_after(alloc, tested, key, steps)?;
    Ok(session.status().is_over())
}

/// A session of this role that has taken what steps send: it is over by a close or a fault alone. Nobody reads its
/// events and replies.
pub(crate) fn session_after(
    alloc: Global,
    tested: Role,
    key: Option<[u8; 4]>,
    steps: &[Step],
) -> Result<Session, NoMemory>
    requires { FitHeaders steps.now }
    ensures { IfOk result (λ session. IsSessionAfter tested (bytes_sent steps.now key) session) }
{
    let bytes = bytes_with(alloc, steps, key)?;
    let mut session = Session::new(alloc, tested, Limits::largest());
    let mut replies = Vec::new(alloc);
    session.pass(&bytes, NO_KEY, &mut replies)?;
    Ok(session)
}
