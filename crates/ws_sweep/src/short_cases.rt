//! The case of one short script after the other, with what is known of the steps that neighbours share.

ghost use Rattle.std.specs.Prelude.{◌≡◌, ◌↔◌, ◌≤◌, ◌++◌, ℕ, List, length, IfOk, IsTrue};
ghost use Rattle.ws_wire.specs.declared.role.Role.{Role};
ghost use Rattle.ws_scripts.specs.Scripts.{CanBeRun, FitHeaders, FitsAHeader, step_bytes};
ghost use Rattle.ws_sweep.specs.Order.{ArePlaces, max_steps};
ghost use Rattle.ws_sweep.specs.ShortCases.{HasEnd, IsShortCase, bytes_sent, short_steps};
ghost use Rattle.ws_sweep.specs.InnerFronts.{IsFrontOf, IsKnown, IsSessionAfter};

use crate::lemmas::{end_laws, event_laws, law_masking_key};
use crate::scripting::{
    NO_NAME, no_name, session_after, steps_have_end, steps_of, whole_case, with_close,
};
use crate::short_script::ShortScript;
use std::alloc::Global;
use std::marker::Model;
use ws_base::{NoMemory, ShortBytes};
use ws_scripts::{Case, Expectation, Step, append_step};
use ws_session::Session;
use ws_wire::{NO_KEY, Role};

/// The steps before the last of a script, by their places, and a session that has taken what they send. Beside it the
/// rooms for what one more step sends and for the replies to it, which serve the next script too.
#[derive(Drop)]
struct Front {
    places: ShortBytes<4>,
    session: Session,
    bytes: Vec<u8>,
    replies: Vec<u8>,
}

impl Front {
    /// A session takes what these steps send, which stand at these places.
    fn read(
        alloc: Global,
        tested: Role,
        key: Option<[u8; 4]>,
        places: &[u8],
        steps: &[Step],
    ) -> Result<Front, NoMemory>
        requires few { length places.now ≤ max_steps }
        requires fit { FitHeaders steps.now }
        ensures places { IfOk result (λ front. front.places ≡ places.now) }
        ensures taken { IfOk result (λ front. IsSessionAfter tested (bytes_sent steps.now key) front.session) }
    {
        let session = session_after(alloc, tested, key, steps)?;
        Ok(Front {
            places: ShortBytes::of(places),
            session,
            bytes: Vec::new(alloc),
            replies: Vec::new(alloc),
        })
    }

    /// Whether what these steps and one more send holds a close or a fault: a copy of the session takes what that one
    /// sends.
    fn has_end_with(&mut self, key: Option<[u8; 4]>, step: &Step) -> Result<bool, NoMemory>
        requires { FitsAHeader step.now }
        ensures places { self.new.places ≡ self.old.places }
        ensures session { self.new.session ≡ self.old.session }
        ensures ends { (tested : Role) (bytes : List ℕ) → IsSessionAfter tested bytes self.old.session →
            IfOk result (λ ends. IsTrue ends ↔ HasEnd tested (bytes ++ step_bytes key step.now)) }
    {
        event_laws();
        self.bytes.clear();
        self.replies.clear();
        append_step(step, key, &mut self.bytes)?;
        let mut session = self.session.copy()?;
        session.pass(&self.bytes, NO_KEY, &mut self.replies)?;
        Ok(session.status().is_over())
    }
}

/// Makes the case of a short script, and then of another, each that of `short_case` for one role, one expectation and
/// one key.
///
/// Most scripts share all steps but the last with the one before them in the order. A session takes what these send
/// once; where that has a close or a fault, the script has it too, else a copy of the session takes what the last step
/// sends. So cases are made fastest in the order of the scripts.
#[derive(Drop)]
pub struct ShortCases {
    tested: Role,
    expected: Expectation,
    key: Option<[u8; 4]>,
    /// What was read last.
    front: Option<Front>,
    /// A case that was given back: the next one is made of its memory.
    used: Option<Case>,
}

impl Model for ShortCases {
    ghost use Rattle.ws_sweep.specs.ShortCases.{CaseRules};
    ghost use Rattle.ws_sweep.specs.InnerFronts.{IsFrontOf};

    ghost Value = { CaseRules };

    ghost view = { λ s. record { tested = s.tested; expected = s.expected; key = s.key } };

    ghost invariant = { λ s. IsFrontOf s.tested s.key s.front };
}

impl ShortCases {
    /// For tested ends of this role, of which this is expected, the frames masked with `key`, or plain where there is
    /// none.
    pub fn new(tested: Role, expected: Expectation, key: Option<[u8; 4]>) -> ShortCases
        ensures tested { result.tested ≡ tested }
        ensures expected { result.expected ≡ expected }
        ensures key { result.key ≡ key }
    {
        ShortCases {
            tested,
            expected,
            key,
            front: None,
            used: None,
        }
    }

    /// The case of a script. After an error the next one is made as ever.
    pub fn case_of(&mut self, alloc: Global, script: &ShortScript) -> Result<Case, NoMemory>
        requires { ArePlaces script.now }
        ensures is { IfOk result (λ case.
            IsShortCase self.old.tested self.old.expected self.old.key script.now case) }
        ensures runs { IfOk result (λ case. CanBeRun case) }
        ensures tested { self.new.tested ≡ self.old.tested }
        ensures expected { self.new.expected ≡ self.old.expected }
        ensures key { self.new.key ≡ self.old.key }
    {
        script.law_few_steps();
        let (name, room) = room_of(alloc, self.used.take())?;
        let steps = steps_of(alloc, self.tested, script, room)?;
        let case = whole_case(name, steps);
        let places = script.places();
        let steps = case.steps.as_slice();
        if script_has_end(alloc, self.tested, self.key, &mut self.front, places, steps)? {
            return Ok(case);
        }
        let closed = with_close(alloc, self.expected, case)?;
        Ok(closed)
    }

    /// Takes a case back, so that the next one is made of its memory: steps that both share are made once.
    pub fn give_back(&mut self, case: Case)
        ensures tested { self.new.tested ≡ self.old.tested }
        ensures expected { self.new.expected ≡ self.old.expected }
        ensures key { self.new.key ≡ self.old.key }
    {
        if case.id.as_str() == NO_NAME {
            self.used = Some(case);
        }
    }
}

/// The name and the steps of a case that was given back, or new ones where there is none.
fn room_of(alloc: Global, used: Option<Case>) -> Result<(String, Vec<Step>), NoMemory> {
    match used {
        Some(case) => Ok((case.id, case.steps.into_vec())),
        None => Ok((no_name(alloc)?, Vec::new(alloc))),
    }
}

/// Whether what the steps of a script send has a close or a fault. Where those before the last have it, nothing more
/// is asked.
fn script_has_end(
    alloc: Global,
    tested: Role,
    key: Option<[u8; 4]>,
    front: &mut Option<Front>,
    places: &[u8],
    steps: &[Step],
) -> Result<bool, NoMemory>
    requires front { IsFrontOf tested key front.old }
    requires places { ArePlaces places.now }
    requires few { length places.now ≤ max_steps }
    requires steps { steps.now ≡ short_steps tested places.now }
    ensures front { IsFrontOf tested key front.new }
    ensures ends { IfOk result (λ ends. IsTrue ends ↔ HasEnd tested (bytes_sent steps.now key)) }
{
    end_laws();
    law_masking_key(key);
    if let Some((_place, before)) = places.split_last()
        && let Some((last, first)) = steps.split_last()
    {
        if front_has_end(alloc, tested, key, front, before, first)? {
            return Ok(true);
        }
        let ends = front_has_end_with(tested, key, front, before, last)?;
        return Ok(ends);
    }
    let ends = steps_have_end(alloc, tested, key, steps)?;
    Ok(ends)
}

/// Whether what these steps, those before the last of a script, send has a close or a fault. A session takes it only
/// where one took what others send last.
fn front_has_end(
    alloc: Global,
    tested: Role,
    key: Option<[u8; 4]>,
    front: &mut Option<Front>,
    places: &[u8],
    steps: &[Step],
) -> Result<bool, NoMemory>
    requires front { IsFrontOf tested key front.old }
    requires few { length places.now ≤ max_steps }
    requires fit { FitHeaders steps.now }
    requires steps { steps.now ≡ short_steps tested places.now }
    ensures front { IsFrontOf tested key front.new }
    ensures known { IfOk result (λ ends. IsKnown places.now front.new) }
    ensures ends { IfOk result (λ ends. IsTrue ends ↔ HasEnd tested (bytes_sent steps.now key)) }
{
    event_laws();
    if let Some(known) = front.as_ref()
        && known.places.as_slice() == places
    {
        return Ok(known.session.status().is_over());
    }
    let read = Front::read(alloc, tested, key, places, steps)?;
    let has_end = read.session.status().is_over();
    *front = Some(read);
    Ok(has_end)
}

/// Whether what the steps at these places, which are known, and one more send has a close or a fault.
fn front_has_end_with(
    tested: Role,
    key: Option<[u8; 4]>,
    front: &mut Option<Front>,
    places: &[u8],
    step: &Step,
) -> Result<bool, NoMemory>
    requires front { IsFrontOf tested key front.old }
    requires known { IsKnown places.now front.old }
    requires fits { FitsAHeader step.now }
    ensures front { IsFrontOf tested key front.new }
    ensures ends { IfOk result (λ ends. IsTrue ends
        ↔ HasEnd tested (bytes_sent (short_steps tested places.now) key ++ step_bytes key step.now)) }
{
    let Some(front) = front.as_mut() else {
        unreachable!()
    };
    let ends = front.has_end_with(key, step)?;
    Ok(ends)
}
